// What is counted of batches, and how the front of a list is moved.
ghost use Rattle.std.specs.Prelude.{◌≡◌, ◌+◌, ◌≤◌, ◌++◌, length, take, drop, sum_by, vec_len, vec_capacity};
ghost use Rattle.keel_group.specs.Forming.{EachIsAdmissible, wants_sync};
ghost use Rattle.keel_group.specs.Queue.{ops_count};
ghost use Rattle.keel_group.specs.Sizes as spec;

use crate::formed::{MAX_GROUP_WEIGHT, MAX_WAITING};
use keel_base::{Batch, ops_weight};

// How many batches from the front fit into a group together.
fn fitting(batches: &[Batch]) -> usize
    requires { EachIsAdmissible batches.now }
    ensures fits { result ≡ spec.fitting MAX_GROUP_WEIGHT batches.now }
    ensures within { result ≤ length batches.now }
{
    let mut room = MAX_GROUP_WEIGHT;
    for (count, batch) in batches.iter().enumerate() {
        let weight = ops_weight(batch.ops.as_slice());
        if weight > room {
            return count;
        }
        room -= weight;
    }
    batches.len()
}

/// How many batches from the front form a group: as many as fit, and at least the first.
pub(crate) fn group_size(batches: &[Batch]) -> usize
    requires { EachIsAdmissible batches.now }
    ensures size { result ≡ spec.group_size batches.now }
    ensures within { result ≤ length batches.now }
{
    if batches.is_empty() {
        0
    } else {
        fitting(batches).max(1)
    }
}

/// How many ops the batches have together.
pub(crate) fn ops_count(batches: &[Batch]) -> u64
    requires each { EachIsAdmissible batches.now }
    requires few { length batches.now ≤ MAX_WAITING }
    ensures { result ≡ ops_count batches.now }
{
    let mut total = 0;
    for batch in batches {
        total += batch.ops.len() as u64;
    }
    total
}

/// Whether one of the batches is acknowledged only once it is firm.
pub(crate) fn wants_sync(batches: &[Batch]) -> bool
    ensures { result ≡ wants_sync batches.now }
{
    batches.iter().any(|batch| batch.sync)
}

/// Moves so many elements from the front of one list to the end of the other, which has the room.
pub(crate) fn move_front<T: Drop>(from: &mut Vec<T>, to: &mut Vec<T>, count: usize)
    requires some { count ≤ vec_len from.old }
    requires room { vec_len to.old + count ≤ vec_capacity to.old }
    ensures from { from.new.items ≡ drop count from.old.items }
    ensures to { to.new.items ≡ to.old.items ++ take count from.old.items }
{
    for _ in 0..count {
        to.push_reserved(from.remove(0));
    }
}
