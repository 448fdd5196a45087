// A table of a store.
ghost use Rattle.std.specs.Prelude.{◌≡◌, ℕ, Option, Some, None, IfOk, option_copied};
ghost use Rattle.keel_base.specs.declared.row.Row.{Row as ARow};
ghost use Rattle.keel_base.specs.Rows.{newest};
ghost use Rattle.keel_disk.specs.Seen.{IsQuiet};
ghost use Rattle.keel_table.specs.Answers.{fault_in};
ghost use Rattle.keel_directory.specs.TableFiles.{table_rows};
ghost use Rattle.keel_levels.specs.Live.{Reads, IsTableAs};
ghost use Rattle.keel_levels.specs.Newest as spec;
ghost use Rattle.keel_levels.specs.Ranges.{between};

use crate::range::rows_in_table;
use keel_base::{Row, Rows};
use keel_disk::Disk;
use keel_edit::Added;
use keel_table::{Table, TableFault, open_table};
use std::alloc::Global;

/// A table of a version, and its footer and index once it was opened.
#[derive(Debug, Drop)]
pub struct LiveTable {
    pub(crate) entry: Added,
    pub(crate) table: Option<Table>,
}

/// Whether a table may have a row of a key.
fn has_range(entry: &Added, key: &[u8]) -> bool
    ensures { result ≡ spec.has_range entry.now key.now }
{
    let least = entry.least.as_slice();
    let greatest = entry.greatest.as_slice();
    least.cmp(key).is_le() && key.cmp(greatest).is_le()
}

/// Whether rows up to a number may have one that is newer than what was found.
fn may_be_newer(last: u64, found: &Option<Row>) -> bool
    ensures { result ≡ spec.may_be_newer last found.now }
{
    match found {
        None => true,
        Some(row) => row.seq < last,
    }
}

/// The newer of two rows of a key, and the first where they have one number.
fn newer_of(found: Option<Row>, row: Option<Row>) -> Option<Row>
    ensures { result ≡ spec.newest_of_both found row }
{
    match found {
        None => row,
        Some(one) => match row {
            None => Some(one),
            Some(other) => {
                if one.seq < other.seq {
                    Some(other)
                } else {
                    Some(one)
                }
            }
        },
    }
}

impl LiveTable {
    /// Takes the open table out, or opens it.
    fn take_table<D: Disk>(&mut self, alloc: Global, disk: &mut D) -> Result<Table, TableFault>
        ensures reads { Reads (D.seen disk.old).told self.old self.new IsTableAs result }
        ensures entry { self.new.entry ≡ self.old.entry }
        ensures closed { self.new.table ≡ None }
        ensures quiet { IsQuiet (D.seen disk.old) (fault_in result) (D.seen disk.new) }
    {
        match self.table.take() {
            Some(table) => Ok(table),
            None => open_table(alloc, disk, self.entry.number, self.entry.size),
        }
    }

    /// The row of a key, of which a block is read.
    fn get<D: Disk>(
        &mut self,
        alloc: Global,
        disk: &mut D,
        key: &[u8],
    ) -> Result<Option<Row>, TableFault>
        ensures reads { Reads (D.seen disk.old).told self.old self.new (λ file row. row ≡ newest key.now (table_rows file)) result }
        ensures entry { self.new.entry ≡ self.old.entry }
        ensures quiet { IsQuiet (D.seen disk.old) (fault_in result) (D.seen disk.new) }
    {
        match self.take_table(alloc, disk) {
            Ok(table) => {
                let row = table.get(alloc, disk, key);
                self.table = Some(table);
                row
            }
            Err(fault) => Err(fault),
        }
    }

    /// The newer of what was found of a key in other tables and of the row that this one has.
    pub(crate) fn newer<D: Disk>(
        &mut self,
        alloc: Global,
        disk: &mut D,
        key: &[u8],
        found: Option<Row>,
    ) -> Result<Option<Row>, TableFault>
        ensures reads { Reads (D.seen disk.old).told self.old self.new (λ file row. row ≡ spec.newest_of_both found (newest key.now (table_rows file))) result }
        ensures entry { self.new.entry ≡ self.old.entry }
        ensures quiet { IsQuiet (D.seen disk.old) (fault_in result) (D.seen disk.new) }
    {
        if !has_range(&self.entry, key) || !may_be_newer(self.entry.last, &found) {
            return Ok(found);
        }
        match self.get(alloc, disk, key) {
            Ok(row) => Ok(newer_of(found, row)),
            Err(fault) => Err(fault),
        }
    }

    /// Its rows of the keys in a range.
    pub(crate) fn rows_between<D: Disk>(
        &mut self,
        alloc: Global,
        disk: &mut D,
        from: &[u8],
        to: &[u8],
    ) -> Result<Rows, TableFault>
        ensures reads { Reads (D.seen disk.old).told self.old self.new (λ file rows. rows ≡ between from.now to.now (table_rows file)) result }
        ensures entry { self.new.entry ≡ self.old.entry }
        ensures quiet { IsQuiet (D.seen disk.old) (fault_in result) (D.seen disk.new) }
    {
        match self.take_table(alloc, disk) {
            Ok(table) => {
                let rows = rows_in_table(&table, alloc, disk, from, to);
                self.table = Some(table);
                rows
            }
            Err(fault) => Err(fault),
        }
    }
}
