// What a key has.
ghost use Rattle.std.specs.Prelude.{◌≡◌, None, Some};
ghost use Rattle.keel_base.specs.declared.row.Row.{Row as ARow};
ghost use Rattle.keel_base.specs.Rows.{value_left};
ghost use Rattle.keel_machine.specs.Turns.{Getting};
ghost use Rattle.keel_mem.specs.Finding.{Finds, ShowsRow};
ghost use Rattle.keel_core.specs.Gets.{IsGot, IsGotOf, fault_got, latest};
ghost use Rattle.keel_core.specs.Segments.{segments_shown};
ghost use Rattle.keel_core.specs.Views.{TakesRead};

use crate::segments::Segment;
use crate::store::Core;
use keel_base::{Bytes, Kind, OutOfMemory, Row};
use keel_disk::Disk;
use keel_levels::LevelFault;
use keel_machine::Got;
use keel_mem::{Found, Mem};
use keel_table::TableFault;
use std::alloc::Global;

impl<D: Disk> Core<D> {
    /// What a key has. A segment's rows are newer than those of the segments before it, and all of them are newer than
    /// those of tables, so tables are read only for a key that no segment has.
    pub fn get(&mut self, alloc: Global, key: &[u8]) -> Got
        ensures turn { TakesRead self.old (Getting key.now result) self.new }
    {
        if let Some(found) = find(self.segments.as_slice(), &self.mem, key) {
            return got_found(alloc, found);
        }
        self.get_stored(alloc, key)
    }

    // What a key has that is in no segment.
    fn get_stored(&mut self, alloc: Global, key: &[u8]) -> Got
        requires none { latest key.now self.old.immutable self.old.rows ≡ None }
        ensures turn { TakesRead self.old (Getting key.now result) self.new }
    {
        let Ok(mut levels) = self.tables.take(alloc) else {
            return Got::OutOfMemory;
        };
        let found = levels.get(alloc, &mut self.disk, key);
        self.tables.put_back(levels);
        got_stored(found)
    }
}

/// What the newest segment that has a key has of it. The full ones stand from the oldest on, and the active one is
/// newer than all of them.
fn find<'a>(full: &'a [Segment], active: &'a Mem, key: &[u8]) -> Option<Found<'a>>
    ensures { Finds (latest key.now (segments_shown full.now) active.now.rows) result }
{
    match full {
        [] => active.get(key),
        [oldest, newer @ ..] => match find(newer, active, key) {
            Some(found) => Some(found),
            None => oldest.mem.get(key),
        },
    }
}

/// What a row in memory says of its key.
fn got_found(alloc: Global, found: Found<'_>) -> Got
    ensures { (row : ARow) → ShowsRow row found.entry → IsGot (value_left (Some row)) result }
{
    match found.kind {
        Kind::Put => match Bytes::from_slice(alloc, found.value) {
            Ok(value) => Got::Value(value),
            Err(OutOfMemory) => Got::OutOfMemory,
        },
        Kind::Del => Got::Absent,
    }
}

/// What tables say of a key.
fn got_stored(found: Result<Option<Row>, LevelFault>) -> Got
    ensures { IsGotOf found result }
{
    match found {
        Ok(row) => got_row(row),
        Err(error) => got_fault(error.number, error.fault),
    }
}

/// What a row of a table says of its key.
fn got_row(row: Option<Row>) -> Got
    ensures { IsGot (value_left row) result }
{
    match row {
        Some(row) => match row.kind {
            Kind::Put => Got::Value(row.value),
            Kind::Del => Got::Absent,
        },
        None => Got::Absent,
    }
}

/// A table wasn't read.
fn got_fault(number: u64, fault: TableFault) -> Got
    ensures { result ≡ fault_got number fault }
{
    match fault {
        TableFault::OutOfMemory => Got::OutOfMemory,
        _ => Got::ReadFault { number, fault },
    }
}
