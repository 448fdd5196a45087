// Reading an edit, field by field.
ghost use Rattle.std.specs.Prelude.{◌≡◌, IfOk};
ghost use Rattle.keel_base.specs.Keys.{key_le};
ghost use Rattle.keel_fields.specs.Reading.{Gives, many_at};
ghost use Rattle.keel_edit.specs.Spelling.{IsEdit, spelling};
ghost use Rattle.keel_edit.specs.Reading as spec;
ghost use Rattle.keel_edit.specs.declared.edit.Edit.{Edit as AnEdit};

use crate::edit::{Added, AddedList, Edit, EditError, Removed, RemovedList};
use keel_base::{Bytes, LAST_NUMBER, LONGEST_KEY};
use keel_fields::{FieldError, bytes_at, u8_at, u32_at, u32_between, u64_between};
use std::alloc::Global;
use std::cmp::Ordering;

const LAST_LEVEL: u8 = 3;

// One byte. One that is below `least` or over `most` is bad where it begins.
#[tactic(auto, unfolding(crate::specs::Reading::bounded_byte_at))]
fn u8_between(bytes: &[u8], least: u8, most: u8) -> Result<(u8, &[u8]), FieldError>
    ensures { Gives (λ x. (x.0, x.1.now)) result (spec.bounded_byte_at least most bytes.now) }
{
    let (byte, rest) = u8_at(bytes)?;
    if least <= byte && byte <= most {
        Ok((byte, rest))
    } else {
        Err(FieldError::Bad { left: bytes.len() })
    }
}

fn is_in_order(least: &[u8], greatest: &[u8]) -> bool
    ensures { result ≡ key_le least.now greatest.now }
{
    least.cmp(greatest) != Ordering::Greater
}

#[tactic(auto, unfolding(crate::specs::Reading::key_at))]
fn key_at(alloc: Global, bytes: &[u8]) -> Result<(Bytes, &[u8]), FieldError>
    ensures { Gives (λ x. (x.0, x.1.now)) result (spec.key_at bytes.now) }
{
    let (size, rest) = u32_between(bytes, 1, LONGEST_KEY as u32)?;
    let (key, rest) = bytes_at(rest, size as usize)?;
    Ok((Bytes::from_slice(alloc, key)?, rest))
}

// A greatest key that is below the least is bad where its bytes begin.
#[tactic(auto, unfolding(crate::specs::Reading::greatest_at))]
fn greatest_at<'a>(
    alloc: Global,
    least: &[u8],
    bytes: &'a [u8],
) -> Result<(Bytes, &'a [u8]), FieldError>
    ensures { Gives (λ x. (x.0, x.1.now)) result (spec.greatest_at least.now bytes.now) }
{
    let (size, front) = u32_between(bytes, 1, LONGEST_KEY as u32)?;
    let (key, rest) = bytes_at(front, size as usize)?;
    if is_in_order(least, key) {
        Ok((Bytes::from_slice(alloc, key)?, rest))
    } else {
        Err(FieldError::Bad { left: front.len() })
    }
}

#[tactic(auto, unfolding(crate::specs::Reading::removed_at))]
fn removed_at(bytes: &[u8]) -> Result<(Removed, &[u8]), FieldError>
    ensures { Gives (λ x. (x.0, x.1.now)) result (spec.removed_at bytes.now) }
{
    let (level, rest) = u8_between(bytes, 0, LAST_LEVEL)?;
    let (number, rest) = u64_between(rest, 1, LAST_NUMBER)?;
    Ok((Removed { level, number }, rest))
}

// The numbers of a table that comes.
#[derive(Clone, Copy)]
struct Numbers {
    level: u8,
    number: u64,
    size: u64,
    rows: u64,
    first: u64,
    last: u64,
}

#[tactic(auto, unfolding(crate::specs::Reading::numbers_at))]
fn numbers_at(bytes: &[u8]) -> Result<(Numbers, &[u8]), FieldError>
    ensures { Gives (λ x. ((((((x.0.level, x.0.number), x.0.size), x.0.rows), x.0.first), x.0.last), x.1.now)) result (spec.numbers_at bytes.now) }
{
    let (level, rest) = u8_between(bytes, 0, LAST_LEVEL)?;
    let (number, rest) = u64_between(rest, 1, LAST_NUMBER)?;
    let (size, rest) = u64_between(rest, 0, LAST_NUMBER)?;
    let (rows, rest) = u64_between(rest, 0, LAST_NUMBER)?;
    let (first, rest) = u64_between(rest, 0, LAST_NUMBER)?;
    let (last, rest) = u64_between(rest, 0, LAST_NUMBER)?;
    Ok((
        Numbers {
            level,
            number,
            size,
            rows,
            first,
            last,
        },
        rest,
    ))
}

#[tactic(auto, unfolding(crate::specs::Reading::added_at))]
fn added_at(alloc: Global, bytes: &[u8]) -> Result<(Added, &[u8]), FieldError>
    ensures { Gives (λ x. (x.0, x.1.now)) result (spec.added_at bytes.now) }
{
    let (numbers, rest) = numbers_at(bytes)?;
    let (least, rest) = key_at(alloc, rest)?;
    let (greatest, rest) = greatest_at(alloc, least.as_slice(), rest)?;
    Ok((
        Added {
            level: numbers.level,
            number: numbers.number,
            size: numbers.size,
            rows: numbers.rows,
            first: numbers.first,
            last: numbers.last,
            least,
            greatest,
        },
        rest,
    ))
}

fn removed_list_at(
    alloc: Global,
    count: u32,
    bytes: &[u8],
) -> Result<(RemovedList, &[u8]), FieldError>
    ensures { Gives (λ x. (x.0, x.1.now)) result (many_at spec.removed_at count bytes.now) }
{
    let mut tables = RemovedList::new(alloc);
    let mut rest = bytes;
    for _ in 0..count {
        let (table, after) = removed_at(rest)?;
        tables.push(table)?;
        rest = after;
    }
    Ok((tables, rest))
}

fn added_list_at(alloc: Global, count: u32, bytes: &[u8]) -> Result<(AddedList, &[u8]), FieldError>
    ensures { Gives (λ x. (x.0, x.1.now)) result (many_at spec.added_at count bytes.now) }
{
    let mut tables = AddedList::new(alloc);
    let mut rest = bytes;
    for _ in 0..count {
        let (table, after) = added_at(alloc, rest)?;
        tables.push(table)?;
        rest = after;
    }
    Ok((tables, rest))
}

#[tactic(auto, unfolding(crate::specs::Reading::edit_at))]
fn edit_at(alloc: Global, bytes: &[u8]) -> Result<(Edit, &[u8]), FieldError>
    ensures { Gives (λ x. (x.0, x.1.now)) result (spec.edit_at bytes.now) }
{
    let (_, rest) = u8_between(bytes, 1, 1)?;
    let (min_log, rest) = u64_between(rest, 0, LAST_NUMBER)?;
    let (next_file, rest) = u64_between(rest, 1, LAST_NUMBER)?;
    let (last_seq, rest) = u64_between(rest, 0, LAST_NUMBER)?;
    let (removed_count, rest) = u32_at(rest)?;
    let (removed, rest) = removed_list_at(alloc, removed_count, rest)?;
    let (added_count, rest) = u32_at(rest)?;
    let (added, rest) = added_list_at(alloc, added_count, rest)?;
    Ok((
        Edit {
            min_log,
            next_file,
            last_seq,
            removed,
            added,
        },
        rest,
    ))
}

fn edit_of(alloc: Global, bytes: &[u8]) -> Result<Edit, FieldError>
    ensures { Gives (λ e. e) result (spec.edit_of bytes.now) }
{
    let (found, rest) = edit_at(alloc, bytes)?;
    if rest.is_empty() {
        Ok(found)
    } else {
        Err(FieldError::Bad { left: rest.len() })
    }
}

fn read(alloc: Global, bytes: &[u8]) -> Result<Edit, EditError>
    ensures { spec.Decodes bytes.now result }
{
    match edit_of(alloc, bytes) {
        Ok(found) => Ok(found),
        Err(FieldError::OutOfMemory) => Err(EditError::OutOfMemory),
        Err(FieldError::Bad { left }) => Err(EditError::BadShape {
            at: bytes.len().saturating_sub(left) as u64,
        }),
    }
}

/// The edit that the bytes are, all of them.
pub fn decode(alloc: Global, bytes: &[u8]) -> Result<Edit, EditError>
    // What is read is an edit, and the bytes are its spelling.
    ensures found { IfOk result (λ e. IsEdit e × (bytes.now ≡ spelling e)) }
    // What spells an edit is read as that edit, unless memory runs out.
    ensures only { (e : AnEdit) → IsEdit e → bytes.now ≡ spelling e → spec.Is result e }
    // Which field is the first bad one.
    ensures exact { spec.Decodes bytes.now result }
{
    read(alloc, bytes)
}
