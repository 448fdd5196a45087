// Writing a batch.
ghost use Rattle.std.specs.Prelude.{◌≡◌, ◌<◌, ◌≤◌, ◌++◌, length, IfOk, OnOk};
ghost use Rattle.keel_batch.specs.Spelling as spec;

use keel_base::{Batch, Bytes, Op, OutOfMemory};
use std::alloc::Global;

// A length in groups of 7 bits, least group first.
#[tactic(auto, unfolding(crate::specs::Spelling::varint))]
fn put_length(out: &mut Bytes, size: usize) -> Result<(), OutOfMemory>
    requires { size < 2097152 }
    ensures { OnOk result (out.new ≡ out.old ++ spec.varint size) }
{
    if size < 128 {
        out.extend(&[size as u8])
    } else if size < 16384 {
        out.extend(&[(128 + size % 128) as u8, (size / 128) as u8])
    } else {
        out.extend(&[
            (128 + size % 128) as u8,
            (128 + size / 128 % 128) as u8,
            (size / 128 / 128) as u8,
        ])
    }
}

fn put_sized(out: &mut Bytes, bytes: &[u8]) -> Result<(), OutOfMemory>
    requires { length bytes.now < 2097152 }
    ensures { OnOk result (out.new ≡ out.old ++ spec.sized bytes.now) }
{
    put_length(out, bytes.len())?;
    out.extend(bytes)
}

fn put_op(out: &mut Bytes, op: &Op) -> Result<(), OutOfMemory>
    requires { spec.IsOp op.now }
    ensures { OnOk result (out.new ≡ out.old ++ spec.op_bytes op.now) }
{
    match op {
        Op::Put { key, value } => {
            out.extend(&[1])?;
            put_sized(out, key.as_slice())?;
            put_sized(out, value.as_slice())
        }
        Op::Del { key } => {
            out.extend(&[0])?;
            put_sized(out, key.as_slice())
        }
    }
}

// At least as many bytes as the spelling of an op has, or the most that can be told.
fn op_room(op: &Op) -> usize {
    match op {
        Op::Put { key, value } => key.len().saturating_add(value.len()).saturating_add(7),
        Op::Del { key } => key.len().saturating_add(4),
    }
}

// The same of a batch.
fn batch_room(batch: &Batch) -> usize {
    let mut room: usize = 12;
    for op in batch.ops.as_slice() {
        room = room.saturating_add(op_room(op));
    }
    room
}

/// The one spelling of the batch whose first op has that number.
#[tactic(auto, unfolding(crate::specs::Spelling::spelling))]
pub fn encode(alloc: Global, seq: u64, batch: &Batch) -> Result<Bytes, OutOfMemory>
    requires { spec.IsBatch seq batch.now.ops }
    ensures { IfOk result (λ b. b ≡ spec.spelling seq batch.now.ops) }
{
    let mut out = Bytes::new(alloc);
    out.reserve(batch_room(batch))?;
    out.extend(&seq.to_le_bytes())?;
    out.extend(&(batch.ops.len() as u32).to_le_bytes())?;
    for op in batch.ops.as_slice() {
        put_op(&mut out, op)?;
    }
    Ok(out)
}
