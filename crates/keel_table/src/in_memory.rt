// A table whose bytes are all in memory, as a file's are once they were read whole.
ghost use Rattle.std.specs.Prelude.{◌≡◌, length, IfOk};
ghost use Rattle.keel_table.specs.Answers.{ChecksDiffer, Finds};
ghost use Rattle.keel_table.specs.Blocks.{FitEntry};
ghost use Rattle.keel_table.specs.Opening as spec;

use crate::TableFault;
use crate::block::rows_in;
use crate::checking::tested;
use crate::index::{BlockEntries, BlockEntry, Footer};
use crate::opening::{LEAST_SIZE, entries_in, footer_of_size};
use keel_base::{Bytes, Rows};
use std::alloc::Global;

/// So many bytes from an offset on, as far as they are there.
fn part_at(bytes: &[u8], offset: u64, size: u64) -> &[u8]
    ensures { result.now ≡ spec.part_at offset size bytes.now }
{
    if bytes.len() as u64 <= offset {
        return b"";
    }
    let (_, rest) = bytes.split_at(offset as usize);
    if rest.len() as u64 <= size {
        return rest;
    }
    let (part, _) = rest.split_at(size as usize);
    part
}

/// So many bytes from an offset on, which have their check behind them.
fn checked_at(alloc: Global, bytes: &[u8], offset: u64, size: u32) -> Result<Bytes, TableFault>
    ensures found { Finds (λ b. b) result (spec.checked_at offset size bytes.now) }
    ensures differ { ChecksDiffer result }
{
    let part = part_at(bytes, offset, u64::from(size) + 4);
    tested(Bytes::from_slice(alloc, part)?, offset, size)
}

/// The footer and the entries of the table that the bytes are, or what is wrong with them first: what `open_table`
/// answers over a file with these bytes.
#[tactic(auto, unfolding(crate::specs::Opening::opened, crate::specs::Opening::footer_found, crate::specs::Opening::entries_found))]
pub fn open_bytes(alloc: Global, bytes: &[u8]) -> Result<(Footer, BlockEntries), TableFault>
    ensures answer { Finds (λ t. spec.opened_with t.0 t.1) result (spec.opened (length bytes.now) bytes.now) }
    ensures differ { ChecksDiffer result }
{
    let size = bytes.len() as u64;
    if size < LEAST_SIZE {
        return Err(TableFault::BadShape { at: 0 });
    }
    let body = checked_at(alloc, bytes, size - 48, 44)?;
    let footer = footer_of_size(body.as_slice(), size)?;
    let index = checked_at(alloc, bytes, footer.index, footer.size)?;
    let entries = entries_in(alloc, footer, index.as_slice())?;
    Ok((footer, entries))
}

/// The rows of the block that an entry tells, where `before` is the last key of the entry before it, or empty: what
/// `Table::block` answers over a file with these bytes.
#[tactic(auto, unfolding(crate::specs::Opening::block_found))]
pub fn block_in(
    alloc: Global,
    bytes: &[u8],
    before: &[u8],
    entry: &BlockEntry,
) -> Result<Rows, TableFault>
    ensures answer { Finds (λ rows. rows) result (spec.block_found before.now entry.now bytes.now) }
    ensures fit { IfOk result (FitEntry before.now entry.now) }
    ensures differ { ChecksDiffer result }
{
    let body = checked_at(alloc, bytes, entry.offset, entry.size)?;
    rows_in(alloc, before, entry, body.as_slice())
}
