// What the keys of a range have.
ghost use Rattle.std.specs.Prelude.{◌≡◌, ◌∷◌, [], ◌++◌, IfOk, OnOk};
ghost use Rattle.keel_levels.specs.Ranges.{between, in_range};
ghost use Rattle.keel_machine.specs.Turns.{Scanning};
ghost use Rattle.keel_mem.specs.RowShown.{row_shown};
ghost use Rattle.keel_core.specs.Scans.{AreRanges, IsRange, IsScannedOf, fault_scanned, rows_held, table_scanned};
ghost use Rattle.keel_core.specs.Views.{TakesRead};

use crate::store::Core;
use keel_base::{Bytes, OutOfMemory, Row, RowLists, Rows};
use keel_disk::Disk;
use keel_levels::ScanFault;
use keel_machine::Scanned;
use keel_mem::{Mem, MemRow};
use keel_table::TableFault;
use std::alloc::Global;

impl<D: Disk> Core<D> {
    /// The puts that count of the keys in a range, by key: from one key on and below another, an empty one being no
    /// bound. It takes memory for the rows of the range.
    pub fn scan(&mut self, alloc: Global, from: &[u8], to: &[u8]) -> Scanned
        ensures turn { TakesRead self.old (Scanning from.now to.now result) self.new }
    {
        let Ok(front) = self.held_between(alloc, from, to) else {
            return Scanned::OutOfMemory;
        };
        let Ok(mut levels) = self.tables.take(alloc) else {
            return Scanned::OutOfMemory;
        };
        let found = levels.rows_between(alloc, &mut self.disk, from, to, front);
        self.tables.put_back(levels);
        scanned(found)
    }

    // Of each segment its rows of the keys in a range.
    fn held_between(&self, alloc: Global, from: &[u8], to: &[u8]) -> Result<RowLists, OutOfMemory>
        ensures { IfOk result (AreRanges from.now to.now (rows_held self.now.immutable self.now.rows)) }
    {
        let mut lists = RowLists::new(alloc);
        'segments: for segment in &self.segments {
            let rows = rows_between(alloc, &segment.mem, from, to)?;
            lists.push(rows)?;
        }
        let rows = rows_between(alloc, &self.mem, from, to)?;
        lists.push(rows)?;
        Ok(lists)
    }
}

/// The rows of a memtable of the keys in a range, by key, and of one key the newest first.
fn rows_between(alloc: Global, mem: &Mem, from: &[u8], to: &[u8]) -> Result<Rows, OutOfMemory>
    ensures { IfOk result (IsRange from.now to.now mem.now.rows) }
{
    let mut rows = Rows::new(alloc);
    for row in mem.rows() {
        add_row(alloc, &mut rows, from, to, row)?;
    }
    Ok(rows)
}

/// Adds a copy of the row where its key is in the range.
fn add_row(
    alloc: Global,
    rows: &mut Rows,
    from: &[u8],
    to: &[u8],
    row: MemRow<'_>,
) -> Result<(), OutOfMemory>
    ensures { OnOk result (rows.new ≡ rows.old ++ between from.now to.now (row_shown row.entry ∷ [])) }
{
    if is_in_range(from, to, row.key) {
        let row = copied(alloc, row)?;
        return rows.push(row);
    }
    Ok(())
}

/// Whether the key is in the range.
fn is_in_range(from: &[u8], to: &[u8], key: &[u8]) -> bool
    ensures { result ≡ in_range from.now to.now key.now }
{
    from.cmp(key).is_le() && (to.is_empty() || key.cmp(to).is_lt())
}

/// A row of its own, with copies of the key and the value.
fn copied(alloc: Global, row: MemRow<'_>) -> Result<Row, OutOfMemory>
    ensures { IfOk result (λ copy. copy ≡ row_shown row.entry) }
{
    Ok(Row {
        seq: row.seq,
        kind: row.kind,
        key: Bytes::from_slice(alloc, row.key)?,
        value: Bytes::from_slice(alloc, row.value)?,
    })
}

/// What tables and segments have.
fn scanned(found: Result<Rows, ScanFault>) -> Scanned
    ensures { IsScannedOf found result }
{
    match found {
        Ok(rows) => Scanned::Rows(rows),
        Err(fault) => scanned_fault(fault),
    }
}

/// The range wasn't read.
fn scanned_fault(fault: ScanFault) -> Scanned
    ensures { result ≡ fault_scanned fault }
{
    match fault {
        ScanFault::Table(error) => table_scanned(error.number, error.fault),
        ScanFault::OutOfMemory => Scanned::OutOfMemory,
    }
}

/// A table wasn't read.
fn table_scanned(number: u64, fault: TableFault) -> Scanned
    ensures { result ≡ table_scanned number fault }
{
    match fault {
        TableFault::OutOfMemory => Scanned::OutOfMemory,
        _ => Scanned::ReadFault { number, fault },
    }
}
