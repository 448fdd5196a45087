use crate::{Joined, WaitQueue};
use keel_base::{Batch, Bytes, Op, Ops, OutOfMemory};
use std::alloc::Global;
use std::test::Fail;

/// A batch of so many puts, each with a value of so many bytes.
fn puts(alloc: Global, count: usize, size: usize, sync: bool) -> Result<Batch, OutOfMemory> {
    let mut ops = Ops::new(alloc);
    for _ in 0..count {
        let value = vec![in alloc; b'v'; size]?;
        ops.push(Op::Put {
            key: Bytes::from_slice(alloc, b"k")?,
            value: Bytes::from_slice(alloc, value.as_slice())?,
        })?;
    }
    Ok(Batch { ops, sync })
}

/// Joins a batch of one put or two whose value has so many bytes.
fn joined(queue: &mut WaitQueue, ticket: u64, batch: Batch) -> Joined {
    match batch.ops.as_slice() {
        [Op::Put { key, value }] if key.len() == 1 && value.len() <= 65536 => queue.join(
            ticket, batch,
        ),
        _ => Joined::OutOfMemory,
    }
}

#[test]
fn the_queue_takes_64(rt: HostRuntime) -> Result<(), Fail> {
    let alloc = rt.alloc();
    let mut queue = WaitQueue::new(alloc);
    for ticket in 1..65 {
        assert!(rt; queue.reserve().is_ok());
        let batch = puts(alloc, 1, 1, ticket == 60).ok().ok_or("memory")?;
        assert_eq!(rt; joined(&mut queue, ticket, batch), Joined::Queued);
    }
    let batch = puts(alloc, 1, 1, false).ok().ok_or("memory")?;
    assert_eq!(rt;
        joined(&mut queue, 65, batch),
        Joined::QueueFull { waiting: 64 }
    );
    assert_eq!(rt; queue.waiting_ops(), 64);
    assert_eq!(rt; queue.next().len(), 64);
    assert_eq!(rt; queue.pop(), Some(1));
    assert_eq!(rt; queue.waiting(), 63);
    if queue.waiting() > 0 {
        let formed = queue.form().ok().ok_or("memory")?;
        assert_eq!(rt; formed.batches.len(), 63);
        assert_eq!(rt; formed.tickets.get(0).copied(), Some(2));
        assert!(rt; formed.sync);
    }
    assert_eq!(rt; queue.pop(), None);
    Ok(())
}

#[test]
fn heavy_batches_are_split_by_weight(rt: HostRuntime) -> Result<(), Fail> {
    let alloc = rt.alloc();
    let mut queue = WaitQueue::new(alloc);
    // Each weighs 65553, so that 15 weigh less than 1048576 and 16 more.
    for ticket in 1..18 {
        let batch = puts(alloc, 1, 65536, false).ok().ok_or("memory")?;
        assert_eq!(rt; joined(&mut queue, ticket, batch), Joined::Queued);
    }
    let mut formed = queue.prepare().ok().ok_or("memory")?;
    queue.take_next(&mut formed);
    assert_eq!(rt; formed.batches.len(), 15);
    assert!(rt; !formed.sync);
    assert_eq!(rt; queue.tickets(), [16, 17].as_slice());
    Ok(())
}

#[test]
fn room_is_taken_first(rt: HostRuntime) -> Result<(), Fail> {
    let alloc = rt.alloc();
    let mut queue = WaitQueue::new(alloc);
    let batch = puts(alloc, 1, 1, true).ok().ok_or("memory")?;
    assert!(rt; queue.reserve().is_ok());
    if let [Op::Put { key, value }] = batch.ops.as_slice() {
        assert!(rt; key.len() == 1 && value.len() == 1);
        queue.join_reserved(9, batch);
    }
    assert_eq!(rt; queue.tickets(), [9].as_slice());
    Ok(())
}
