// Reading the parts of a table, field by field.
ghost use Rattle.std.specs.Prelude.{◌≡◌, ◌≢◌, ◌==◌, ◌&&◌, ◌+◌, ◌≤◌, [], ◌∷◌, ◌++◌, filter, length, nat_le, IfOk, OnOk};
ghost use Rattle.keel_base.specs.Keys.{key_eq, key_lt};
ghost use Rattle.keel_fields.specs.Reading.{Gives};
ghost use Rattle.keel_table.specs.Fields as spec;
ghost use Rattle.keel_table.specs.Walking.{asked_rows, is_asked, key_asked, row_shown};
ghost use Rattle.keel_base.specs.Rows.{most_value};

use crate::index::{BlockEntries, BlockEntry, Footer};
use crate::view::RowView;
use keel_base::{Bytes, Kind, LONGEST_KEY, LONGEST_VALUE, OutOfMemory, Rows};
use keel_fields::{FieldError, bytes_at, u32_at, u32_between, u64_at};
use std::alloc::Global;
use std::cmp::Ordering;

#[tactic(auto, unfolding(crate::specs::Fields::kind_at))]
fn kind_at(bytes: &[u8]) -> Result<(Kind, &[u8]), FieldError>
    ensures { Gives (λ x. (x.0, x.1.now)) result (spec.kind_at bytes.now) }
{
    match bytes {
        [] => Err(FieldError::Bad { left: 0 }),
        [0, rest @ ..] => Ok((Kind::Del, rest)),
        [1, rest @ ..] => Ok((Kind::Put, rest)),
        [_, ..] => Err(FieldError::Bad { left: bytes.len() }),
    }
}

/// How many bytes the value of a row may have. A delete has none.
fn most_value(kind: Kind) -> u32
    ensures { result ≡ most_value kind }
{
    match kind {
        Kind::Put => LONGEST_VALUE as u32,
        Kind::Del => 0,
    }
}

/// What stands before a row's key.
#[derive(Clone, Copy)]
struct Header {
    seq: u64,
    kind: Kind,
    key: u32,
    value: u32,
}

#[tactic(auto, unfolding(crate::specs::Fields::header_at))]
fn header_at(bytes: &[u8]) -> Result<(Header, &[u8]), FieldError>
    ensures { Gives (λ x. ((((x.0.seq, x.0.kind), x.0.key), x.0.value), x.1.now)) result (spec.header_at bytes.now) }
{
    let (seq, rest) = u64_at(bytes)?;
    let (kind, rest) = kind_at(rest)?;
    let (key, rest) = u32_between(rest, 1, LONGEST_KEY as u32)?;
    let (value, rest) = u32_between(rest, 0, most_value(kind))?;
    Ok((
        Header {
            seq,
            kind,
            key,
            value,
        },
        rest,
    ))
}

#[tactic(auto, unfolding(crate::specs::Fields::row_at))]
fn row_at(bytes: &[u8]) -> Result<(RowView<'_>, &[u8]), FieldError>
    ensures { Gives (λ x. (row_shown x.0, x.1.now)) result (spec.row_at bytes.now) }
{
    let (header, rest) = header_at(bytes)?;
    let (key, rest) = bytes_at(rest, header.key as usize)?;
    let (value, rest) = bytes_at(rest, header.value as usize)?;
    Ok((
        RowView {
            seq: header.seq,
            kind: header.kind,
            key,
            value,
        },
        rest,
    ))
}

pub(crate) fn is_same(bytes: &[u8], other: &[u8]) -> bool
    ensures { result ≡ key_eq bytes.now other.now }
{
    bytes.cmp(other).is_eq()
}

pub(crate) fn is_below(key: &[u8], other: &[u8]) -> bool
    ensures { result ≡ key_lt key.now other.now }
{
    key.cmp(other).is_lt()
}

/// Whether a row of that key may stand here, with so many bytes left behind it.
fn has_offset(before: &[u8], last: &[u8], key: &[u8], left: usize) -> bool
    ensures { result ≡ spec.has_offset before.now last.now key.now left }
{
    if !is_below(before, key) {
        return false;
    }
    match key.cmp(last) {
        Ordering::Less => 0 < left,
        Ordering::Equal => true,
        Ordering::Greater => false,
    }
}

#[tactic(auto, unfolding(crate::specs::Fields::next_row_at))]
fn next_row_at<'a>(
    before: &[u8],
    last: &[u8],
    bytes: &'a [u8],
) -> Result<(RowView<'a>, &'a [u8]), FieldError>
    ensures { Gives (λ x. (row_shown x.0, x.1.now)) result (spec.next_row_at before.now last.now bytes.now) }
{
    match row_at(bytes) {
        Ok((row, rest)) => {
            if has_offset(before, last, row.key, rest.len()) {
                Ok((row, rest))
            } else {
                Err(FieldError::Bad { left: bytes.len() })
            }
        }
        Err(FieldError::OutOfMemory) => Err(FieldError::OutOfMemory),
        Err(FieldError::Bad { .. }) => Err(FieldError::Bad { left: bytes.len() }),
    }
}

/// Whether a row is that of the key that is asked for. Where none is, each is.
fn is_asked(key: Option<&[u8]>, row: &RowView<'_>) -> bool
    ensures { result ≡ is_asked (key_asked key.entry) (row_shown row.now) }
{
    match key {
        None => true,
        Some(key) => is_same(row.key, key),
    }
}

/// Takes a row along, where it is asked for.
fn take_asked(
    alloc: Global,
    key: Option<&[u8]>,
    row: &RowView<'_>,
    rows: &mut Rows,
) -> Result<(), OutOfMemory>
    ensures { OnOk result (rows.new ≡ rows.old ++ filter (is_asked (key_asked key.entry)) (row_shown row.now ∷ [])) }
{
    if !is_asked(key, row) {
        return Ok(());
    }
    rows.push(row.to_row(alloc)?)
}

/// Walks over the rows that the bytes are, all of them, behind a key and up to another, and tests each. It gives the
/// row of the key that is asked for, and all rows where none is.
pub(crate) fn rows_at(
    alloc: Global,
    asked: Option<&[u8]>,
    before: &[u8],
    last: &[u8],
    bytes: &[u8],
) -> Result<Rows, FieldError>
    ensures { Gives (λ rows. rows) result (asked_rows (key_asked asked.entry) (spec.all_rows_at before.now last.now bytes.now)) }
{
    let mut rows = Rows::new(alloc);
    let mut key = before;
    let mut rest = bytes;
    // A row has a byte at least.
    for _ in 0..bytes.len() {
        let (row, after) = next_row_at(key, last, rest)?;
        take_asked(alloc, asked, &row, &mut rows)?;
        if after.is_empty() {
            return Ok(rows);
        }
        key = row.key;
        rest = after;
    }
    Err(FieldError::Bad { left: rest.len() })
}

#[tactic(auto, unfolding(crate::specs::Fields::entry_at))]
fn entry_at(alloc: Global, bytes: &[u8]) -> Result<(BlockEntry, &[u8]), FieldError>
    ensures { Gives (λ x. (x.0, x.1.now)) result (spec.entry_at bytes.now) }
{
    let (offset, rest) = u64_at(bytes)?;
    let (size, rest) = u32_at(rest)?;
    let (length, rest) = u32_at(rest)?;
    let (last, rest) = bytes_at(rest, length as usize)?;
    let last = Bytes::from_slice(alloc, last)?;
    Ok((BlockEntry { offset, size, last }, rest))
}

/// Whether a key is over those of the entries before.
fn is_over(entries: &[BlockEntry], key: &[u8]) -> bool
    ensures { result ≡ spec.is_over (spec.last_of None entries.now) key.now }
{
    match entries.last() {
        None => true,
        Some(entry) => is_below(entry.last.as_slice(), key),
    }
}

/// Whether a block with so many bytes of rows ends where the index begins, or before.
fn ends_by(index: u64, offset: u64, size: u32) -> bool
    ensures { result ≡ nat_le (offset + (size + 4)) index }
{
    offset <= index && u64::from(size) + 4 <= index - offset
}

/// Whether an entry is that of the next block, which begins at that offset and ends before the index.
fn entry_fits(index: u64, offset: u64, entries: &[BlockEntry], entry: &BlockEntry) -> bool
    ensures { result ≡ spec.entry_fits index offset (spec.last_of None entries.now) entry.now }
{
    if entry.offset != offset {
        return false;
    }
    if !ends_by(index, offset, entry.size) {
        return false;
    }
    is_over(entries, entry.last.as_slice())
}

#[tactic(auto, using(crate::proofs::Loops::entry_within), unfolding(crate::specs::Fields::next_entry_at))]
fn next_entry_at<'a>(
    alloc: Global,
    index: u64,
    offset: u64,
    entries: &[BlockEntry],
    bytes: &'a [u8],
) -> Result<(BlockEntry, &'a [u8]), FieldError>
    ensures entry { Gives (λ x. (x.0, x.1.now)) result (spec.next_entry_at index offset (spec.last_of None entries.now) bytes.now) }
    ensures within { IfOk result (λ x. offset + (x.0.size + 4) ≤ index) }
{
    match entry_at(alloc, bytes) {
        Ok((entry, rest)) => {
            if entry_fits(index, offset, entries, &entry) {
                Ok((entry, rest))
            } else {
                Err(FieldError::Bad { left: bytes.len() })
            }
        }
        Err(FieldError::OutOfMemory) => Err(FieldError::OutOfMemory),
        Err(FieldError::Bad { .. }) => Err(FieldError::Bad { left: bytes.len() }),
    }
}

/// Whether nothing is left of the index, and the last block ends where it begins.
fn is_at_end(rest: &[u8], offset: u64, index: u64) -> bool
    ensures { result ≡ ((length rest.now == 0) && (offset == index)) }
{
    rest.is_empty() && offset == index
}

/// So many entries of blocks that follow each other up to the index, and nothing behind them.
pub(crate) fn entries_at(
    alloc: Global,
    index: u64,
    blocks: u32,
    bytes: &[u8],
) -> Result<BlockEntries, FieldError>
    ensures { Gives (λ entries. entries) result (spec.entries_at index blocks 0 None bytes.now) }
{
    let mut entries = BlockEntries::new(alloc);
    let mut offset = 0;
    let mut rest = bytes;
    for _ in 0..blocks {
        let (entry, after) = next_entry_at(alloc, index, offset, entries.as_slice(), rest)?;
        offset += u64::from(entry.size) + 4;
        entries.push(entry)?;
        rest = after;
    }
    if is_at_end(rest, offset, index) {
        Ok(entries)
    } else {
        Err(FieldError::Bad { left: rest.len() })
    }
}

#[tactic(auto, unfolding(crate::specs::Fields::footer_at))]
pub(crate) fn footer_at(bytes: &[u8]) -> Result<(Footer, &[u8]), FieldError>
    ensures field { Gives (λ x. (x.0, x.1.now)) result (spec.footer_at bytes.now) }
    ensures no_memory { result ≢ Err FieldError.OutOfMemory }
{
    let (index, rest) = u64_at(bytes)?;
    let (size, rest) = u32_at(rest)?;
    let (blocks, rest) = u32_at(rest)?;
    let (rows, rest) = u64_at(rest)?;
    let (first, rest) = u64_at(rest)?;
    let (last, rest) = u64_at(rest)?;
    Ok((
        Footer {
            index,
            size,
            blocks,
            rows,
            first,
            last,
        },
        rest,
    ))
}
