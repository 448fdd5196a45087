// Reads through a table of a store.
use keel_base::{Bytes, FileName, Kind, OutOfMemory, Row, RowLists, Rows};
use keel_disk::{Disk, DiskError};
use keel_edit::Added;
use keel_levels::{Levels, laws};
use keel_simdisk::SimDisk;
use std::alloc::Global;
use std::test::Fail;

/// The table of the put of `a` to `1`, numbered 1.
const TABLE: [u8; 92] = [
    // The row, and the check of the block.
    0x01, 0x00, 0x00, 0x00, 0x00, 0x00, 0x00, 0x00, 0x01, 0x01, 0x00, 0x00, 0x00, 0x01, 0x00, 0x00,
    0x00, 0x61, 0x31, 0xeb, 0xc6, 0x8c, 0x08,
    // The index and its check.
    0x00, 0x00, 0x00, 0x00, 0x00, 0x00, 0x00, 0x00, 0x13, 0x00, 0x00, 0x00, 0x01, 0x00, 0x00, 0x00,
    0x61, 0xc2, 0x26, 0x27, 0x2a,
    // The footer.
    0x17, 0x00, 0x00, 0x00, 0x00, 0x00, 0x00, 0x00, 0x11, 0x00, 0x00, 0x00, 0x01, 0x00, 0x00, 0x00,
    0x01, 0x00, 0x00, 0x00, 0x00, 0x00, 0x00, 0x00, 0x01, 0x00, 0x00, 0x00, 0x00, 0x00, 0x00, 0x00,
    0x01, 0x00, 0x00, 0x00, 0x00, 0x00, 0x00, 0x00, 0x4b, 0x54, 0x42, 0x31, 0x4d, 0x6e, 0x68, 0x86,
];

/// Writes the table's file.
fn stored(alloc: Global, disk: &mut SimDisk) -> Result<(), DiskError> {
    disk.create(alloc, FileName::Table(4))?;
    disk.append(alloc, FileName::Table(4), &TABLE)
}

/// The table as the one of a version.
fn levels(alloc: Global) -> Result<Levels, OutOfMemory> {
    let mut entries = Vec::new(alloc);
    entries.push(Added {
        level: 0,
        number: 4,
        size: 92,
        rows: 1,
        first: 1,
        last: 1,
        least: Bytes::from_slice(alloc, b"a")?,
        greatest: Bytes::from_slice(alloc, b"a")?,
    })?;
    Levels::new(alloc, entries.as_slice())
}

fn row(alloc: Global, seq: u64, kind: Kind, key: &[u8]) -> Result<Row, OutOfMemory> {
    Ok(Row {
        seq,
        kind,
        key: Bytes::from_slice(alloc, key)?,
        value: Bytes::new(alloc),
    })
}

/// In memory `a` was deleted and `b` was put.
fn memory(alloc: Global) -> Result<RowLists, OutOfMemory> {
    let mut rows = Rows::new(alloc);
    rows.push(row(alloc, 2, Kind::Del, b"a")?)?;
    rows.push(row(alloc, 3, Kind::Put, b"b")?)?;
    let mut lists = RowLists::new(alloc);
    lists.push(rows)?;
    Ok(lists)
}

/// The numbers of the rows in a range.
fn numbers(rows: &Rows, alloc: Global) -> Result<Vec<u64>, OutOfMemory> {
    let mut numbers = Vec::new(alloc);
    for row in rows.as_slice() {
        numbers.push(row.seq)?;
    }
    Ok(numbers)
}

#[test]
fn a_key_has_the_row_of_its_table(rt: HostRuntime) -> Result<(), Fail> {
    laws::points_exist();
    let alloc = rt.alloc();
    let mut disk = SimDisk::new(alloc, 1000);
    stored(alloc, &mut disk).ok().ok_or("disk")?;
    let mut levels = levels(alloc)?;
    let found = levels.get(alloc, &mut disk, b"a").ok().ok_or("fault")?;
    let row = found.ok_or("absent")?;
    assert_eq!(rt; row.value.as_slice(), b"1".as_slice());
    let other = levels.get(alloc, &mut disk, b"b").ok().ok_or("fault")?;
    assert!(rt; other.is_none());
    Ok(())
}

#[test]
fn a_range_has_the_newest_puts(rt: HostRuntime) -> Result<(), Fail> {
    let alloc = rt.alloc();
    let mut disk = SimDisk::new(alloc, 1000);
    stored(alloc, &mut disk).ok().ok_or("disk")?;
    let mut levels = levels(alloc)?;
    let none = RowLists::new(alloc);
    let rows = levels
        .rows_between(alloc, &mut disk, b"", b"", none)
        .ok()
        .ok_or("fault")?;
    assert_eq!(rt; numbers(&rows, alloc)?.as_slice(), [1].as_slice());
    let newer = memory(alloc)?;
    let rows = levels
        .rows_between(alloc, &mut disk, b"a", b"", newer)
        .ok()
        .ok_or("fault")?;
    assert_eq!(rt; numbers(&rows, alloc)?.as_slice(), [3].as_slice());
    Ok(())
}
