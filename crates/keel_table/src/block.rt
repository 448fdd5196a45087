// Reading a block.
ghost use Rattle.std.specs.Prelude.{◌≡◌, IfOk};
ghost use Rattle.keel_disk.specs.Seen.{IsQuiet};
ghost use Rattle.keel_table.specs.Answers.{Answers, ChecksDiffer, Finds, fault_in};
ghost use Rattle.keel_table.specs.Blocks.{FitEntry};
ghost use Rattle.keel_table.specs.Opening as spec;
ghost use Rattle.keel_table.specs.Walking.{asked_found, key_asked, row_among};

use crate::TableFault;
use crate::checking::read_checked;
use crate::index::BlockEntry;
use crate::reading::{self, is_same};
use keel_base::{Row, Rows};
use keel_disk::Disk;
use keel_fields::FieldError;
use std::alloc::Global;

/// The rows in the bytes of a block that are asked for.
fn asked_in(
    alloc: Global,
    asked: Option<&[u8]>,
    before: &[u8],
    entry: &BlockEntry,
    body: &[u8],
) -> Result<Rows, TableFault>
    ensures found { Finds (λ rows. rows) result (asked_found (key_asked asked.entry) (spec.rows_in before.now entry.now body.now)) }
    ensures differ { ChecksDiffer result }
{
    // No block of an opened table ends so far behind.
    let Some(end) = entry.offset.checked_add(u64::from(entry.size)) else {
        return Err(TableFault::OutOfMemory);
    };
    match reading::rows_at(alloc, asked, before, entry.last.as_slice(), body) {
        Ok(rows) => Ok(rows),
        Err(FieldError::OutOfMemory) => Err(TableFault::OutOfMemory),
        Err(FieldError::Bad { left }) => Err(TableFault::BadShape {
            at: end.saturating_sub(left as u64),
        }),
    }
}

/// The rows in the bytes of a block.
pub(crate) fn rows_in(
    alloc: Global,
    before: &[u8],
    entry: &BlockEntry,
    body: &[u8],
) -> Result<Rows, TableFault>
    ensures found { Finds (λ rows. rows) result (spec.rows_in before.now entry.now body.now) }
    ensures fit { IfOk result (FitEntry before.now entry.now) }
    ensures differ { ChecksDiffer result }
{
    asked_in(alloc, None, before, entry, body)
}

/// The row of a key in the bytes of a block.
fn row_in(
    alloc: Global,
    key: &[u8],
    before: &[u8],
    entry: &BlockEntry,
    body: &[u8],
) -> Result<Option<Row>, TableFault>
    ensures found { Finds (λ row. row) result (row_among key.now (spec.rows_in before.now entry.now body.now)) }
    ensures differ { ChecksDiffer result }
{
    match asked_in(alloc, Some(key), before, entry, body) {
        Ok(rows) => Ok(row_of(rows, key)),
        Err(fault) => Err(fault),
    }
}

/// The rows of the block of an entry, behind the last key of the entry before.
pub(crate) fn read_block<D: Disk>(
    alloc: Global,
    disk: &mut D,
    number: u64,
    before: &[u8],
    entry: &BlockEntry,
) -> Result<Rows, TableFault>
    ensures answer { Answers (λ rows. rows) (spec.block_found before.now entry.now) number (D.seen disk.old).told result }
    ensures fit { IfOk result (FitEntry before.now entry.now) }
    ensures differ { ChecksDiffer result }
    ensures quiet { IsQuiet (D.seen disk.old) (fault_in result) (D.seen disk.new) }
{
    match read_checked(alloc, disk, number, entry.offset, entry.size) {
        Ok(body) => rows_in(alloc, before, entry, body.as_slice()),
        Err(fault) => Err(fault),
    }
}

/// The row of a key in the block of an entry. All rows of the block are tested, and the one is copied.
pub(crate) fn read_row<D: Disk>(
    alloc: Global,
    disk: &mut D,
    number: u64,
    key: &[u8],
    before: &[u8],
    entry: &BlockEntry,
) -> Result<Option<Row>, TableFault>
    ensures answer { Answers (λ row. row) (λ bytes. row_among key.now (spec.block_found before.now entry.now bytes)) number (D.seen disk.old).told result }
    ensures differ { ChecksDiffer result }
    ensures quiet { IsQuiet (D.seen disk.old) (fault_in result) (D.seen disk.new) }
{
    match read_checked(alloc, disk, number, entry.offset, entry.size) {
        Ok(body) => row_in(alloc, key, before, entry, body.as_slice()),
        Err(fault) => Err(fault),
    }
}

/// The row of a key.
fn row_of(rows: Rows, key: &[u8]) -> Option<Row>
    ensures { result ≡ spec.row_of key.now rows }
{
    rows.into_vec()
        .into_iter()
        .find(|row| is_same(row.key.as_slice(), key))
}
