// Whether a batch is within its limits.
ghost use Rattle.std.specs.Prelude.{◌≡◌, ◌≤◌, not, nat_lt, None, length};
ghost use Rattle.keel_machine.specs.Admission.{is_key_length, op_refusal as refusal_of_op, ops_refusal as refusal_of_ops, size_refusal as refusal_of_size};
ghost use Rattle.keel_machine.specs.Tests.{when};

use keel_base::{Batch, GREATEST_WEIGHT, LONGEST_KEY, LONGEST_VALUE, MOST_OPS, Op, ops_weight};
use keel_machine::{Admit, Part};

/// Why a batch isn't taken in for its size: of its ops in order, their count and their weight the first that is
/// outside its limits.
pub(crate) fn size_refusal(batch: &Batch) -> Option<Admit>
    ensures { result ≡ refusal_of_size batch.now }
{
    let ops = batch.ops.as_slice();
    if let Some(refusal) = ops_refusal(ops) {
        return Some(refusal);
    }
    let length = ops.len();
    if length == 0 || length > MOST_OPS {
        return Some(bad_batch(length as u64));
    }
    let weight = ops_weight(ops);
    if weight > GREATEST_WEIGHT {
        return Some(bad_batch(weight));
    }
    None
}

fn bad_batch(length: u64) -> Admit
    ensures { result ≡ Admit.BadSize Part.Batch length }
{
    Admit::BadSize {
        part: Part::Batch,
        length,
    }
}

/// The same of ops in order: of the first that is outside its limits.
pub(crate) fn ops_refusal(ops: &[Op]) -> Option<Admit>
    ensures { result ≡ refusal_of_ops ops.now }
{
    for op in ops {
        match op_refusal(op) {
            Some(refusal) => return Some(refusal),
            None => {}
        }
    }
    None
}

fn op_refusal(op: &Op) -> Option<Admit>
    ensures { result ≡ refusal_of_op op.now }
{
    match op {
        Op::Put { key, value } => match key_refusal(key.len()) {
            Some(refusal) => Some(refusal),
            None => value_refusal(value.len()),
        },
        Op::Del { key } => key_refusal(key.len()),
    }
}

fn key_refusal(length: usize) -> Option<Admit>
    ensures { result ≡ when (not (is_key_length length)) (Admit.BadSize Part.Key length) }
{
    if length == 0 || length > LONGEST_KEY {
        Some(Admit::BadSize {
            part: Part::Key,
            length: length as u64,
        })
    } else {
        None
    }
}

fn value_refusal(length: usize) -> Option<Admit>
    ensures { result ≡ when (nat_lt 65536 length) (Admit.BadSize Part.Value length) }
{
    if length > LONGEST_VALUE {
        Some(Admit::BadSize {
            part: Part::Value,
            length: length as u64,
        })
    } else {
        None
    }
}
