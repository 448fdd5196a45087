// A table from its builder to its file, and back.
ghost use Rattle.std.specs.Prelude.{◌≡◌, IsTrue};
ghost use Rattle.keel_base.specs.Keys.{key_lt};
ghost use Rattle.keel_base.specs.Rows.{IsRow};
ghost use Rattle.keel_table.specs.Building.{key_before};

use keel_base::{Bytes, FileName, Kind, LONGEST_KEY, LONGEST_VALUE, OutOfMemory, Row};
use keel_disk::Disk;
use keel_simdisk::SimDisk;
use keel_table::{Builder, Pieces, Table, TableFault, block_in, laws, open_bytes, open_table};
use std::alloc::Global;
use std::test::Fail;

/// The table of the put of `a` to `1`, numbered 1.
const TABLE: [u8; 92] = [
    // The row, and the check of the block.
    0x01, 0x00, 0x00, 0x00, 0x00, 0x00, 0x00, 0x00, 0x01, 0x01, 0x00, 0x00, 0x00, 0x01, 0x00, 0x00,
    0x00, 0x61, 0x31, 0xeb, 0xc6, 0x8c, 0x08,
    // The index and its check.
    0x00, 0x00, 0x00, 0x00, 0x00, 0x00, 0x00, 0x00, 0x13, 0x00, 0x00, 0x00, 0x01, 0x00, 0x00, 0x00,
    0x61, 0xc2, 0x26, 0x27, 0x2a,
    // The footer.
    0x17, 0x00, 0x00, 0x00, 0x00, 0x00, 0x00, 0x00, 0x11, 0x00, 0x00, 0x00, 0x01, 0x00, 0x00, 0x00,
    0x01, 0x00, 0x00, 0x00, 0x00, 0x00, 0x00, 0x00, 0x01, 0x00, 0x00, 0x00, 0x00, 0x00, 0x00, 0x00,
    0x01, 0x00, 0x00, 0x00, 0x00, 0x00, 0x00, 0x00, 0x4b, 0x54, 0x42, 0x31, 0x4d, 0x6e, 0x68, 0x86,
];

/// The put of a key to as many bytes.
fn put(alloc: Global, key: &[u8], size: usize) -> Result<Row, OutOfMemory> {
    let mut value = Bytes::new(alloc);
    for _ in 0..size {
        value.extend(b"1")?;
    }
    Ok(Row {
        seq: 1,
        kind: Kind::Put,
        key: Bytes::from_slice(alloc, key)?,
        value,
    })
}

/// Whether a put is within the limits of a row.
fn is_row(row: &Row) -> bool
    ensures { IsTrue result → IsRow row.now }
{
    match row.kind {
        Kind::Del => false,
        Kind::Put => {
            1 <= row.key.len()
                && row.key.len() <= LONGEST_KEY
                && row.value.len() <= LONGEST_VALUE
                && row.seq < 9
        }
    }
}

/// Whether a row's key is over the last one.
fn is_over(builder: &Builder, row: &Row) -> bool
    ensures { result ≡ key_lt (key_before builder.now) row.now.key }
{
    builder.last_key().cmp(row.key.as_slice()).is_lt()
}

/// Adds a row that may stand next, and gives the piece that it closed.
fn added(alloc: Global, builder: &mut Builder, row: &Row) -> Result<Option<Bytes>, Fail> {
    if !is_row(row) {
        return Err(Fail::from("no row"));
    }
    if !is_over(builder, row) {
        return Err(Fail::from("no next row"));
    }
    Ok(builder.add(alloc, row).ok().ok_or("memory")?)
}

/// Adds puts of these keys to values of that size, and gives the pieces that they closed, one behind the other.
fn pieces_of(
    alloc: Global,
    builder: &mut Builder,
    keys: &[u8],
    size: usize,
) -> Result<Bytes, Fail> {
    let mut bytes = Bytes::new(alloc);
    for key in keys {
        let row = put(alloc, &[*key], size)?;
        if let Some(piece) = added(alloc, builder, &row)? {
            bytes.extend(piece.as_slice())?;
        }
    }
    Ok(bytes)
}

/// Adds what ends a table.
fn finish(alloc: Global, builder: Builder, bytes: &mut Bytes) -> Result<(), Fail> {
    let Pieces { block, end } = builder.finish(alloc)?;
    if let Some(block) = block {
        bytes.extend(block.as_slice())?;
    }
    bytes.extend(end.as_slice())?;
    Ok(())
}

/// The table of puts of these keys to values of that size.
fn table_of(alloc: Global, keys: &[u8], size: usize) -> Result<Bytes, Fail> {
    let mut builder = Builder::new(alloc, 1, 1)?;
    let mut bytes = pieces_of(alloc, &mut builder, keys, size)?;
    finish(alloc, builder, &mut bytes)?;
    Ok(bytes)
}

/// Makes table 7 of some bytes.
fn write<D: Disk>(alloc: Global, disk: &mut D, bytes: &[u8]) -> bool {
    disk.create(alloc, FileName::Table(7)) == Ok(())
        && disk.append(alloc, FileName::Table(7), bytes) == Ok(())
}

fn opened(
    alloc: Global,
    disk: &mut SimDisk,
    number: u64,
    size: usize,
) -> Result<Table, TableFault> {
    open_table(alloc, disk, number, size as u64)
}

/// Two blocks: `a` and `b` in the first, `c` in the second.
fn two_blocks(alloc: Global) -> Result<(SimDisk, Table), Fail> {
    let bytes = table_of(alloc, b"abc", 3000)?;
    let mut disk = SimDisk::new(alloc, 10_000);
    if !write(alloc, &mut disk, bytes.as_slice()) {
        return Err(Fail::from("memory"));
    }
    let table = opened(alloc, &mut disk, 7, bytes.len())?;
    Ok((disk, table))
}

fn rows_in(alloc: Global, disk: &mut SimDisk, table: &Table, block: u32) -> Result<usize, Fail> {
    if block < table.blocks() {
        Ok(table.block(alloc, disk, block)?.len())
    } else {
        Err(Fail::from("no block"))
    }
}

/// How many bytes the value of a key has, where the table has one.
fn size_of_value(
    alloc: Global,
    disk: &mut SimDisk,
    table: &Table,
    key: &[u8],
) -> Result<Option<usize>, Fail> {
    match table.get(alloc, disk, key)? {
        None => Ok(None),
        Some(row) => Ok(Some(row.value.len())),
    }
}

fn begins(table: &Table, key: &[u8]) -> u32 {
    table.first_block(key)
}

#[test]
fn the_table_of_one_put(rt: HostRuntime) -> Result<(), Fail> {
    let bytes = table_of(rt.alloc(), b"a", 1)?;
    assert!(rt; bytes.as_slice() == TABLE.as_slice());
    Ok(())
}

#[test]
fn what_a_builder_tells(rt: HostRuntime) -> Result<(), Fail> {
    let alloc = rt.alloc();
    let mut builder = Builder::new(alloc, 1, 1)?;
    pieces_of(alloc, &mut builder, b"abc", 3000)?;
    // Two rows and a check of 4 bytes were given, and a row is left.
    assert_eq!(rt; builder.blocks(), 1);
    assert_eq!(rt; builder.size(), 6040);
    assert_eq!(rt; builder.open_size(), 3018);
    Ok(())
}

#[test]
fn a_table_of_two_blocks(rt: HostRuntime) -> Result<(), Fail> {
    let alloc = rt.alloc();
    let (mut disk, table) = two_blocks(alloc)?;
    assert_eq!(rt; rows_in(alloc, &mut disk, &table, 0)?, 2);
    assert_eq!(rt; rows_in(alloc, &mut disk, &table, 1)?, 1);
    Ok(())
}

#[test]
fn gets_of_a_table(rt: HostRuntime) -> Result<(), Fail> {
    let alloc = rt.alloc();
    let (mut disk, table) = two_blocks(alloc)?;
    assert!(rt; size_of_value(alloc, &mut disk, &table, b"b")? == Some(3000));
    assert!(rt; size_of_value(alloc, &mut disk, &table, b"bb")? == None);
    Ok(())
}

#[test]
fn where_a_scan_begins(rt: HostRuntime) -> Result<(), Fail> {
    let (_disk, table) = two_blocks(rt.alloc())?;
    assert!(rt; begins(&table, b"") == 0 && begins(&table, b"b") == 0);
    assert!(rt; begins(&table, b"bb") == 1 && begins(&table, b"d") == 2);
    Ok(())
}

#[test]
fn an_absent_table(rt: HostRuntime) {
    let alloc = rt.alloc();
    let found = opened(alloc, &mut SimDisk::new(alloc, 1), 8, 92);
    assert!(rt; matches!(found, Err(TableFault::Absent)));
}

#[test]
fn a_changed_byte_of_the_index(rt: HostRuntime) -> Result<(), Fail> {
    let alloc = rt.alloc();
    let mut wrong = Vec::from_slice(alloc, &TABLE)?;
    if let Some(byte) = wrong.get_mut(30) {
        *byte = 9;
    }
    let found = open_bytes(alloc, wrong.as_slice());
    assert!(rt; matches!(found, Err(TableFault::BadCheck { .. })));
    Ok(())
}

#[test]
fn a_table_in_memory(rt: HostRuntime) -> Result<(), Fail> {
    let alloc = rt.alloc();
    let (footer, entries) = open_bytes(alloc, &TABLE)?;
    assert_eq!(rt; footer.rows, 1);
    for entry in entries.as_slice() {
        let rows = block_in(alloc, &TABLE, b"", entry)?;
        assert_eq!(rt; rows.len(), 1);
    }
    Ok(())
}

#[test]
fn the_laws_hold() {
    laws::tables_open();
    laws::blocks_are_spelled();
    laws::indexes_are_spelled();
    laws::footers_are_spelled();
    laws::blocks_ascend();
    laws::one_row_size();
    laws::tables_are_small();
    laws::files_are_small();
}
