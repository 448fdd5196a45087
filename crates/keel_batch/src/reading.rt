// Reading a batch, field by field.
ghost use Rattle.std.specs.Prelude.{◌≡◌, ℕ, ◌+◌, ◌-◌, ◌<◌, ◌≤◌, ◌*◌, List, length, IfOk, IfSome, Ok, option_map};
ghost use Rattle.keel_base.specs.declared.op.Op.{Op};
ghost use Rattle.keel_fields.specs.Reading.{Gives, many_at};
ghost use Rattle.keel_batch.specs.Spelling.{IsBatch, spelling};
ghost use Rattle.keel_batch.specs.Reading as spec;

use crate::batch::{BatchError, Numbered};
use keel_base::{Bytes, LAST_NUMBER, LONGEST_KEY, LONGEST_VALUE, MOST_OPS, Op, Ops};
use keel_fields::{FieldError, bytes_at, u8_at, u32_between, u64_between};
use std::alloc::Global;

// The groups above a byte whose top bit is set, with what that byte holds below them. A number in its shortest form has no
// highest group of 0.
fn high_group(byte: u8, high: Option<(u32, &[u8])>) -> Option<(u32, &[u8])>
    requires top { 128 ≤ byte }
    requires bound { IfSome high (λ x. x.0 < 16384) }
    ensures read { spec.Shows (λ x. (x.0, x.1.now)) result (spec.high_group (byte - 128) (option_map (λ x. (x.0, x.1.now)) high.entry)) }
    ensures value { IfSome result (λ x. IfSome high.entry (λ y. x.0 ≡ byte - 128 + 128 * y.0)) }
{
    match high {
        None => None,
        Some((0, _)) => None,
        Some((high, rest)) => Some((u32::from(byte) - 128 + 128 * high, rest)),
    }
}

// A length below 2^7, in one byte.
fn one_group(bytes: &[u8]) -> Option<(u32, &[u8])>
    ensures read { spec.Shows (λ x. (x.0, x.1.now)) result (spec.varint_at 1 bytes.now) }
    ensures bound { IfSome result (λ x. x.0 < 128) }
{
    match bytes {
        [] => None,
        [byte, rest @ ..] if *byte < 128 => Some((u32::from(*byte), rest)),
        [byte, rest @ ..] => None,
    }
}

// A length below 2^14, in its shortest form.
fn two_groups(bytes: &[u8]) -> Option<(u32, &[u8])>
    ensures read { spec.Shows (λ x. (x.0, x.1.now)) result (spec.varint_at 2 bytes.now) }
    ensures bound { IfSome result (λ x. x.0 < 16384) }
{
    match bytes {
        [] => None,
        [byte, rest @ ..] if *byte < 128 => Some((u32::from(*byte), rest)),
        [byte, rest @ ..] => high_group(*byte, one_group(rest)),
    }
}

// A length below 2^21, in its shortest form.
fn three_groups(bytes: &[u8]) -> Option<(u32, &[u8])>
    ensures read { spec.Shows (λ x. (x.0, x.1.now)) result (spec.varint_at 3 bytes.now) }
    ensures bound { IfSome result (λ x. x.0 < 2097152) }
{
    match bytes {
        [] => None,
        [byte, rest @ ..] if *byte < 128 => Some((u32::from(*byte), rest)),
        [byte, rest @ ..] => high_group(*byte, two_groups(rest)),
    }
}

#[tactic(auto, unfolding(crate::specs::Reading::length_at))]
fn length_at(bytes: &[u8], least: u32, most: u32) -> Result<(u32, &[u8]), FieldError>
    ensures { Gives (λ x. (x.0, x.1.now)) result (spec.length_at least most bytes.now) }
{
    match three_groups(bytes) {
        None => Err(FieldError::Bad { left: bytes.len() }),
        Some((size, rest)) => {
            if least <= size && size <= most {
                Ok((size, rest))
            } else {
                Err(FieldError::Bad { left: bytes.len() })
            }
        }
    }
}

#[tactic(auto, unfolding(crate::specs::Reading::key_at))]
fn key_at(alloc: Global, bytes: &[u8]) -> Result<(Bytes, &[u8]), FieldError>
    ensures { Gives (λ x. (x.0, x.1.now)) result (spec.key_at bytes.now) }
{
    let (size, rest) = length_at(bytes, 1, LONGEST_KEY as u32)?;
    let (key, rest) = bytes_at(rest, size as usize)?;
    Ok((Bytes::from_slice(alloc, key)?, rest))
}

#[tactic(auto, unfolding(crate::specs::Reading::value_at))]
fn value_at(alloc: Global, bytes: &[u8]) -> Result<(Bytes, &[u8]), FieldError>
    ensures { Gives (λ x. (x.0, x.1.now)) result (spec.value_at bytes.now) }
{
    let (size, rest) = length_at(bytes, 0, LONGEST_VALUE as u32)?;
    let (value, rest) = bytes_at(rest, size as usize)?;
    Ok((Bytes::from_slice(alloc, value)?, rest))
}

#[tactic(auto, unfolding(crate::specs::Reading::op_at))]
fn op_at(alloc: Global, bytes: &[u8]) -> Result<(Op, &[u8]), FieldError>
    ensures { Gives (λ x. (x.0, x.1.now)) result (spec.op_at bytes.now) }
{
    match bytes {
        [] => Err(FieldError::Bad { left: 0 }),
        [0, rest @ ..] => {
            let (key, rest) = key_at(alloc, rest)?;
            Ok((Op::Del { key }, rest))
        }
        [1, rest @ ..] => {
            let (key, rest) = key_at(alloc, rest)?;
            let (value, rest) = value_at(alloc, rest)?;
            Ok((Op::Put { key, value }, rest))
        }
        [_, ..] => Err(FieldError::Bad { left: bytes.len() }),
    }
}

fn ops_at(alloc: Global, count: u32, bytes: &[u8]) -> Result<(Ops, &[u8]), FieldError>
    ensures { Gives (λ x. (x.0, x.1.now)) result (many_at spec.op_at count bytes.now) }
{
    let mut ops = Ops::new(alloc);
    let mut rest = bytes;
    for _ in 0..count {
        let (op, after) = op_at(alloc, rest)?;
        ops.push(op)?;
        rest = after;
    }
    Ok((ops, rest))
}

/// How many ops a batch may have whose first has that number.
fn most_ops(seq: u64) -> u32
    ensures { result ≡ spec.most_ops seq }
{
    let left = (LAST_NUMBER + 1).saturating_sub(seq);
    left.min(MOST_OPS as u64) as u32
}

#[tactic(auto, unfolding(crate::specs::Reading::batch_at))]
fn batch_at(alloc: Global, bytes: &[u8]) -> Result<(Numbered, &[u8]), FieldError>
    ensures { Gives (λ x. ((x.0.seq, x.0.ops), x.1.now)) result (spec.batch_at bytes.now) }
{
    let (seq, rest) = u64_between(bytes, 1, LAST_NUMBER)?;
    let (count, rest) = u32_between(rest, 1, most_ops(seq))?;
    let (ops, rest) = ops_at(alloc, count, rest)?;
    Ok((Numbered { seq, ops }, rest))
}

fn batch_of(alloc: Global, bytes: &[u8]) -> Result<Numbered, FieldError>
    ensures { Gives (λ b. (b.seq, b.ops)) result (spec.batch_of bytes.now) }
{
    let (found, rest) = batch_at(alloc, bytes)?;
    if rest.is_empty() {
        Ok(found)
    } else {
        Err(FieldError::Bad { left: rest.len() })
    }
}

fn read(alloc: Global, bytes: &[u8]) -> Result<Numbered, BatchError>
    ensures { spec.Decodes bytes.now result }
{
    match batch_of(alloc, bytes) {
        Ok(found) => Ok(found),
        Err(FieldError::OutOfMemory) => Err(BatchError::OutOfMemory),
        Err(FieldError::Bad { left }) => Err(BatchError::BadBatch {
            at: bytes.len().saturating_sub(left) as u64,
        }),
    }
}

/// The batch that the bytes are, all of them.
pub fn decode(alloc: Global, bytes: &[u8]) -> Result<Numbered, BatchError>
    // What is read is a batch, and the bytes are its spelling.
    ensures found { IfOk result (λ b. IsBatch b.seq b.ops × (bytes.now ≡ spelling b.seq b.ops)) }
    // What spells a batch is read as that batch, unless memory runs out.
    ensures only { (seq : ℕ) (ops : List Op) → IsBatch seq ops → bytes.now ≡ spelling seq ops → spec.Is result seq ops }
    // Which field is the first bad one.
    ensures exact { spec.Decodes bytes.now result }
{
    read(alloc, bytes)
}
