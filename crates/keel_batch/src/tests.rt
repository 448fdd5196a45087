use crate::{BatchError, decode, encode};
use keel_base::{Batch, Bytes, Op, Ops, OutOfMemory};
use std::alloc::Global;
use std::test::Fail;

/// The put of `a` to `1`, numbered 1, byte by byte.
const PUT: [u8; 17] = [1, 0, 0, 0, 0, 0, 0, 0, 1, 0, 0, 0, 1, 1, b'a', 1, b'1'];

fn put(alloc: Global) -> Result<Batch, OutOfMemory> {
    let mut ops = Ops::new(alloc);
    ops.push(Op::Put {
        key: Bytes::from_slice(alloc, b"a")?,
        value: Bytes::from_slice(alloc, b"1")?,
    })?;
    Ok(Batch { ops, sync: true })
}

fn spelled(alloc: Global, batch: &Batch) -> Result<Bytes, OutOfMemory> {
    match batch.ops.as_slice() {
        [Op::Put { key, value }] if key.len() == 1 && value.len() == 1 => encode(alloc, 1, batch),
        _ => Err(OutOfMemory),
    }
}

#[test]
fn a_put_and_what_is_no_batch(rt: HostRuntime) -> Result<(), Fail> {
    let alloc = rt.alloc();
    let bytes = spelled(alloc, &put(alloc).ok().ok_or("memory")?)
        .ok()
        .ok_or("memory")?;
    assert_eq!(rt; bytes.as_slice(), PUT.as_slice());
    match decode(alloc, &PUT) {
        Ok(found) => assert!(rt; found.seq == 1 && found.ops.len() == 1),
        Err(_) => assert!(rt; false, "a batch is read"),
    }
    // A count of 0, a type of 2, a key that is cut short, a byte too many.
    for (changed, value, length, at) in [
        (8, 0, 17, 8),
        (12, 2, 17, 12),
        (13, 9, 17, 14),
        (16, b'1', 18, 17),
    ] {
        let mut wrong = Vec::from_slice(alloc, &PUT)?;
        wrong.push(0)?;
        if let Some(byte) = wrong.get_mut(changed) {
            *byte = value;
        }
        let front = wrong.get(..length).unwrap_or(&PUT);
        match decode(alloc, front) {
            Ok(_) => assert!(rt; false, "no batch"),
            Err(error) => assert_eq!(rt; error, BatchError::BadBatch { at }),
        }
    }
    Ok(())
}
