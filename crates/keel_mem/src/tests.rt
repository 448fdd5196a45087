ghost use Rattle.std.specs.Bool.{OnTrue};
ghost use Rattle.std.specs.Prelude.{◌≤◌, length};
ghost use Rattle.std.specs.List.{AllByRecursion};
ghost use Rattle.keel_base.specs.Weight.{IsWithinLimits};

use crate::Mem;
use keel_base::{Batch, Bytes, Kind, Op, Ops, OutOfMemory};
use std::alloc::Global;
use std::test::Fail;

fn put(alloc: Global, key: &[u8], value: &[u8]) -> Result<Op, OutOfMemory> {
    Ok(Op::Put {
        key: Bytes::from_slice(alloc, key)?,
        value: Bytes::from_slice(alloc, value)?,
    })
}

fn is_within(op: &Op) -> bool
    ensures { OnTrue result (IsWithinLimits op.now) }
{
    match op {
        Op::Put { key, value } => 0 < key.len() && key.len() <= 1024 && value.len() <= 65536,
        Op::Del { key } => 0 < key.len() && key.len() <= 1024,
    }
}

/// A memtable of this batch alone.
fn filled(alloc: Global, batch: &Batch) -> Result<Mem, OutOfMemory>
    requires limits { AllByRecursion IsWithinLimits batch.now.ops }
    requires few { length batch.now.ops ≤ 1000 }
{
    let mut mem = Mem::new(alloc);
    mem.reserve(batch)?;
    mem.put_reserved(1, batch);
    Ok(mem)
}

/// The same, where the ops are within the limits.
fn mem_of(alloc: Global, ops: Ops) -> Result<Mem, OutOfMemory> {
    let batch = Batch { ops, sync: false };
    match batch.ops.as_slice() {
        [one] if is_within(one) => filled(alloc, &batch),
        [one, two, three] if is_within(one) && is_within(two) && is_within(three) => filled(
            alloc, &batch,
        ),
        _ => Err(OutOfMemory),
    }
}

#[test]
fn a_put_weighs_its_bytes_and_sixteen(rt: HostRuntime) -> Result<(), Fail> {
    let alloc = rt.alloc();
    let mut ops = Ops::new(alloc);
    let one = put(alloc, b"a", b"1").ok().ok_or("memory")?;
    ops.push(one).ok().ok_or("memory")?;
    let mem = mem_of(alloc, ops).ok().ok_or("memory")?;
    assert_eq!(rt; mem.weight(), 18);
    assert!(rt; mem.get(b"b").is_none());
    Ok(())
}

#[test]
fn rows_go_by_key_and_the_newest_first(rt: HostRuntime) -> Result<(), Fail> {
    let alloc = rt.alloc();
    let mut ops = Ops::new(alloc);
    for (key, value) in [(b"b", b"1"), (b"a", b"1"), (b"a", b"2")] {
        let op = put(alloc, key, value).ok().ok_or("memory")?;
        ops.push(op).ok().ok_or("memory")?;
    }
    let mem = mem_of(alloc, ops).ok().ok_or("memory")?;
    let found = mem.get(b"a").ok_or("found")?;
    assert_eq!(rt; found.seq, 3);
    assert!(rt; found.kind == Kind::Put && found.value == b"2".as_slice());
    let mut seqs = Vec::new(alloc);
    for row in mem.rows() {
        seqs.push(row.seq)?;
    }
    assert_eq!(rt; seqs.as_slice(), [3, 2, 1].as_slice());
    assert_eq!(rt; (mem.first(), mem.last()), (1, 3));
    Ok(())
}
