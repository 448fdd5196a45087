// Rows of batches in the memtable.
ghost use Rattle.std.specs.Prelude.{◌≡◌, ◌+◌, ◌<◌, ◌≤◌, ◌^◌, ◌++◌, All, OnOk, IfOk, true};
ghost use Rattle.keel_group.specs.Forming.{EachIsAdmissible};
ghost use Rattle.keel_machine.specs.Admission.{ops_of};
ghost use Rattle.keel_draft.specs.Drafts.{batch_rows, count_ops};
ghost use Rattle.keel_machine.specs.Opening.{ops_replayed};
ghost use Rattle.keel_core.specs.Placing.{HasRoomFor, IsOfBatches, MayBePlaced, bytes_needed};

use crate::sizes::ops_refusal;
use keel_base::{Batch, LAST_NUMBER, MOST_OPS, Op, OutOfMemory};
use keel_directory::Replayed;
use keel_mem::Mem;
use std::alloc::Global;

/// Puts batches, whose room was reserved, numbered from `seq` on.
pub(crate) fn place(mem: &mut Mem, seq: u64, batches: &[Batch])
    requires each { EachIsAdmissible batches.now }
    requires bytes { bytes_needed (ops_of batches.now) ≤ mem.old.bytes }
    requires entries { count_ops (ops_of batches.now) ≤ mem.old.entries }
    requires above { All (λ row. row.seq < seq) mem.old.rows }
    requires last { seq + count_ops (ops_of batches.now) ≤ 2 ^ 56 + 1 }
    ensures rows { mem.new.rows ≡ mem.old.rows ++ batch_rows seq (ops_of batches.now) }
    ensures bytes { mem.new.bytes + bytes_needed (ops_of batches.now) ≡ mem.old.bytes }
    ensures entries { mem.new.entries + count_ops (ops_of batches.now) ≡ mem.old.entries }
{
    let mut next = seq;
    for batch in batches {
        mem.put_reserved(next, batch);
        next += batch.ops.len() as u64;
    }
}

/// Takes the memory for batches.
pub(crate) fn reserve_all(mem: &mut Mem, batches: &[Batch]) -> Result<(), OutOfMemory>
    requires { EachIsAdmissible batches.now }
    ensures { OnOk result (HasRoomFor batches.now mem.old mem.new) }
{
    for batch in batches {
        mem.reserve(batch)?;
    }
    Ok(())
}

/// The memtable of the batches that an opening found, numbered on behind `seq`. `OutOfMemory` comes also for a batch that no log
/// holds: a reading gives none.
pub(crate) fn placed(alloc: Global, seq: u64, batches: &[Replayed]) -> Result<Mem, OutOfMemory>
    ensures { IfOk result (λ mem. IsOfBatches seq (ops_replayed batches.now) mem) }
{
    let mut mem = Mem::new(alloc);
    let mut last = seq;
    for batch in batches {
        let ops = batch.ops.as_slice();
        if !may_be_placed(last, ops) {
            return Err(OutOfMemory);
        }
        mem.reserve_ops(ops)?;
        mem.put_ops(last + 1, ops);
        last += ops.len() as u64;
    }
    Ok(mem)
}

// Whether a log may hold a batch of these ops behind that number.
fn may_be_placed(last: u64, ops: &[Op]) -> bool
    ensures { result ≡ true → MayBePlaced last ops.now }
{
    match ops_refusal(ops) {
        Some(_) => return false,
        None => {}
    }
    let length = ops.len();
    if length == 0 || length > MOST_OPS || last > LAST_NUMBER {
        return false;
    }
    length as u64 <= LAST_NUMBER - last
}
