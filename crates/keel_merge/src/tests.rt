use crate::{Merge, Next, laws};
use keel_base::{Bytes, Kind, OutOfMemory, Row, Rows};
use std::alloc::Global;
use std::test::Fail;

/// A row of a key of one byte: a put of an empty value, or a delete.
fn row(alloc: Global, key: u8, seq: u64, kind: Kind) -> Result<Row, OutOfMemory> {
    Ok(Row {
        seq,
        kind,
        key: Bytes::from_slice(alloc, &[key])?,
        value: Bytes::new(alloc),
    })
}

/// What two lists are fed with in turn, the last first. List 0 is a and then c, list 1 is an older a and a deleted b.
fn pieces(alloc: Global) -> Result<Vec<(Rows, bool)>, OutOfMemory> {
    let mut pieces = Vec::new(alloc);
    let mut last = Rows::new(alloc);
    last.push(row(alloc, b'c', 4, Kind::Put)?)?;
    pieces.push((last, false))?;
    let mut second = Rows::new(alloc);
    second.push(row(alloc, b'a', 3, Kind::Put)?)?;
    second.push(row(alloc, b'b', 8, Kind::Del)?)?;
    pieces.push((second, false))?;
    let mut first = Rows::new(alloc);
    first.push(row(alloc, b'a', 9, Kind::Put)?)?;
    pieces.push((first, true))?;
    Ok(pieces)
}

/// The lists that were asked for, and the numbers of the rows that were handed out.
fn merged(alloc: Global, last_level: bool) -> Result<(Vec<usize>, Vec<u64>), OutOfMemory> {
    let mut pieces = pieces(alloc)?;
    let mut merge = Merge::new(alloc, 2, last_level)?;
    let mut asked = Vec::new(alloc);
    let mut numbers = Vec::new(alloc);
    for _ in 0..9 {
        match merge.next_row() {
            Next::Merged(row) => numbers.push(row.seq)?,
            Next::Refill(list) => {
                asked.push(list)?;
                if let Some((rows, more)) = pieces.pop() {
                    merge.refill(list, rows, more);
                }
            }
            Next::End => return Ok((asked, numbers)),
        }
    }
    Err(OutOfMemory)
}

#[test]
fn the_newest_of_each_key_in_order(rt: HostRuntime) -> Result<(), Fail> {
    laws::hands_out_all();
    let (asked, numbers) = merged(rt.alloc(), false).ok().ok_or("memory")?;
    assert_eq!(rt; asked.as_slice(), [0, 1, 0].as_slice());
    assert_eq!(rt; numbers.as_slice(), [9, 8, 4].as_slice());
    Ok(())
}

#[test]
fn no_delete_on_the_last_level(rt: HostRuntime) -> Result<(), Fail> {
    let (_, numbers) = merged(rt.alloc(), true).ok().ok_or("memory")?;
    assert_eq!(rt; numbers.as_slice(), [9, 4].as_slice());
    Ok(())
}
