// The rows of a range in a table.
ghost use Rattle.std.specs.Prelude.{◌≡◌, ℕ, ◌<◌, ◌++◌, [], List, Some, true, length, filter, IfOk, OnOk};
ghost use Rattle.keel_directory.specs.TableFiles.{TableFile as ATableFile, table_rows};
ghost use Rattle.keel_disk.specs.Seen.{IsQuiet};
ghost use Rattle.keel_disk.specs.Told.{Told};
ghost use Rattle.keel_table.specs.Answers.{fault_in};
ghost use Rattle.keel_table.specs.Spelling.{last_key};
ghost use Rattle.keel_table.specs.Tables.{entries_of};
ghost use Rattle.keel_levels.specs.Live.{IsReadable, IsTableAs, Yields};
ghost use Rattle.keel_levels.specs.Ranges as spec;

use keel_base::{OutOfMemory, Row, Rows};
use keel_disk::Disk;
use keel_table::{Table, TableFault};
use std::alloc::Global;

/// Whether a key is in the range.
fn in_range(from: &[u8], to: &[u8], key: &[u8]) -> bool
    ensures { result ≡ spec.in_range from.now to.now key.now }
{
    from.cmp(key).is_le() && (to.is_empty() || key.cmp(to).is_lt())
}

/// Whether no key over this one is below the end of the range.
fn ends_range(to: &[u8], key: &[u8]) -> bool
    ensures { result ≡ spec.ends_range to.now key.now }
{
    !to.is_empty() && to.cmp(key).is_le()
}

/// Keeps the rows of the range.
pub(crate) fn between(from: &[u8], to: &[u8], rows: Rows) -> Rows
    ensures { result ≡ spec.between from.now to.now rows }
{
    let mut rows = rows.into_vec();
    rows.retain(|row| in_range(from, to, row.key.as_slice()));
    Rows::from_vec(rows)
}

/// Whether rows that rise reach the end of the range.
fn reach_end(to: &[u8], rows: &[Row]) -> bool
    ensures { result ≡ true → (before : List ℕ) → spec.ends_range to.now (last_key before rows.now) ≡ true }
{
    match rows.last() {
        None => false,
        Some(row) => ends_range(to, row.key.as_slice()),
    }
}

/// Adds the rows of a block that are in the range. Answers whether the block reaches its end.
fn add_rows(from: &[u8], to: &[u8], block: Rows, rows: &mut Vec<Row>) -> Result<bool, OutOfMemory>
    ensures adds { OnOk result (rows.new.items ≡ rows.old.items ++ spec.between from.now to.now block) }
    ensures ends { IfOk result (λ ends. ends ≡ true → (before : List ℕ) → spec.ends_range to.now (last_key before block) ≡ true) }
{
    let ends = reach_end(to, block.as_slice());
    let mut block = between(from, to, block).into_vec();
    rows.append(&mut block)?;
    Ok(ends)
}

/// Reads a block, and adds its rows that are in the range.
fn add_block<D: Disk>(
    table: &Table,
    alloc: Global,
    disk: &mut D,
    i: u32,
    from: &[u8],
    to: &[u8],
    rows: &mut Vec<Row>,
) -> Result<bool, TableFault>
    requires { i < length (entries_of table.now) }
    ensures adds { (told : Told) (last_seq : ℕ) (file : ATableFile) → (D.seen disk.old).told ≡ Some told → IsReadable told last_seq file → IsTableAs file table.now → Yields (spec.AddsBlock from.now to.now i rows.old.items rows.new.items file) result }
    ensures quiet { IsQuiet (D.seen disk.old) (fault_in result) (D.seen disk.new) }
{
    match table.block(alloc, disk, i) {
        Ok(block) => match add_rows(from, to, block, rows) {
            Ok(ends) => Ok(ends),
            Err(OutOfMemory) => Err(TableFault::OutOfMemory),
        },
        Err(fault) => Err(fault),
    }
}

/// The rows of a table that are in the range. It begins at the first block that may have one, and stops where the range
/// ends.
pub(crate) fn rows_in_table<D: Disk>(
    table: &Table,
    alloc: Global,
    disk: &mut D,
    from: &[u8],
    to: &[u8],
) -> Result<Rows, TableFault>
    ensures says { (told : Told) (last_seq : ℕ) (file : ATableFile) → (D.seen disk.old).told ≡ Some told → IsReadable told last_seq file → IsTableAs file table.now → Yields (λ rows. rows ≡ spec.between from.now to.now (table_rows file)) result }
    ensures quiet { IsQuiet (D.seen disk.old) (fault_in result) (D.seen disk.new) }
{
    let mut rows = Vec::new(alloc);
    'reading: for i in table.first_block(from)..table.blocks() {
        match add_block(table, alloc, disk, i, from, to, &mut rows) {
            Ok(true) => return Ok(Rows::from_vec(rows)),
            Ok(false) => {}
            Err(fault) => return Err(fault),
        }
    }
    Ok(Rows::from_vec(rows))
}
