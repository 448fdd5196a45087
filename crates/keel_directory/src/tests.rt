use crate::{Damaged, Directory, DirectoryRefusal, File, laws, read_directory};
use keel_base::{Bytes, FileName, OutOfMemory};
use std::alloc::Global;
use std::test::Fail;

/// A manifest of one edit: the least log 1, the next file 4, the last number 0.
const EDIT: &[u8] = &[
    0x44, 0x30, 0x33, 0xff, 0x21, 0x00, 0x01, 0x01, 0x01, 0x00, 0x00, 0x00, 0x00, 0x00, 0x00, 0x00,
    0x04, 0x00, 0x00, 0x00, 0x00, 0x00, 0x00, 0x00, 0x00, 0x00, 0x00, 0x00, 0x00, 0x00, 0x00, 0x00,
    0x00, 0x00, 0x00, 0x00, 0x00, 0x00, 0x00, 0x00,
];

/// The same, and a record of the byte 0.
const EDIT_AND_ZERO: &[u8] = &[
    0x44, 0x30, 0x33, 0xff, 0x21, 0x00, 0x01, 0x01, 0x01, 0x00, 0x00, 0x00, 0x00, 0x00, 0x00, 0x00,
    0x04, 0x00, 0x00, 0x00, 0x00, 0x00, 0x00, 0x00, 0x00, 0x00, 0x00, 0x00, 0x00, 0x00, 0x00, 0x00,
    0x00, 0x00, 0x00, 0x00, 0x00, 0x00, 0x00, 0x00, 0x5f, 0xb0, 0xce, 0x81, 0x01, 0x00, 0x01, 0x00,
];

/// A manifest of one edit that adds table 3 of 92 bytes on level 0: the last number is 1.
const ADDS_TABLE: &[u8] = &[
    0xae, 0x34, 0x20, 0xe7, 0x54, 0x00, 0x01, 0x01, 0x01, 0x00, 0x00, 0x00, 0x00, 0x00, 0x00, 0x00,
    0x04, 0x00, 0x00, 0x00, 0x00, 0x00, 0x00, 0x00, 0x01, 0x00, 0x00, 0x00, 0x00, 0x00, 0x00, 0x00,
    0x00, 0x00, 0x00, 0x00, 0x01, 0x00, 0x00, 0x00, 0x00, 0x03, 0x00, 0x00, 0x00, 0x00, 0x00, 0x00,
    0x00, 0x5c, 0x00, 0x00, 0x00, 0x00, 0x00, 0x00, 0x00, 0x01, 0x00, 0x00, 0x00, 0x00, 0x00, 0x00,
    0x00, 0x01, 0x00, 0x00, 0x00, 0x00, 0x00, 0x00, 0x00, 0x01, 0x00, 0x00, 0x00, 0x00, 0x00, 0x00,
    0x00, 0x01, 0x00, 0x00, 0x00, 0x61, 0x01, 0x00, 0x00, 0x00, 0x61,
];

/// The same of a table of 51 bytes, and the last number 0.
const ADDS_51: &[u8] = &[
    0x8c, 0x55, 0xae, 0x51, 0x54, 0x00, 0x01, 0x01, 0x01, 0x00, 0x00, 0x00, 0x00, 0x00, 0x00, 0x00,
    0x04, 0x00, 0x00, 0x00, 0x00, 0x00, 0x00, 0x00, 0x00, 0x00, 0x00, 0x00, 0x00, 0x00, 0x00, 0x00,
    0x00, 0x00, 0x00, 0x00, 0x01, 0x00, 0x00, 0x00, 0x00, 0x03, 0x00, 0x00, 0x00, 0x00, 0x00, 0x00,
    0x00, 0x33, 0x00, 0x00, 0x00, 0x00, 0x00, 0x00, 0x00, 0x01, 0x00, 0x00, 0x00, 0x00, 0x00, 0x00,
    0x00, 0x01, 0x00, 0x00, 0x00, 0x00, 0x00, 0x00, 0x00, 0x01, 0x00, 0x00, 0x00, 0x00, 0x00, 0x00,
    0x00, 0x01, 0x00, 0x00, 0x00, 0x61, 0x01, 0x00, 0x00, 0x00, 0x61,
];

/// The table of the put of `a` to `1`, numbered 1.
const TABLE: &[u8] = &[
    0x01, 0x00, 0x00, 0x00, 0x00, 0x00, 0x00, 0x00, 0x01, 0x01, 0x00, 0x00, 0x00, 0x01, 0x00, 0x00,
    0x00, 0x61, 0x31, 0xeb, 0xc6, 0x8c, 0x08, 0x00, 0x00, 0x00, 0x00, 0x00, 0x00, 0x00, 0x00, 0x13,
    0x00, 0x00, 0x00, 0x01, 0x00, 0x00, 0x00, 0x61, 0xc2, 0x26, 0x27, 0x2a, 0x17, 0x00, 0x00, 0x00,
    0x00, 0x00, 0x00, 0x00, 0x11, 0x00, 0x00, 0x00, 0x01, 0x00, 0x00, 0x00, 0x01, 0x00, 0x00, 0x00,
    0x00, 0x00, 0x00, 0x00, 0x01, 0x00, 0x00, 0x00, 0x00, 0x00, 0x00, 0x00, 0x01, 0x00, 0x00, 0x00,
    0x00, 0x00, 0x00, 0x00, 0x4b, 0x54, 0x42, 0x31, 0x4d, 0x6e, 0x68, 0x86,
];

/// A log of one batch, which puts `a` to `1` as op 1.
const PUT_1: &[u8] =
    b"\xe9\x9f\x78\x19\x11\x00\x01\x01\x00\x00\x00\x00\x00\x00\x00\x01\x00\x00\x00\x01\x01a\x011";

/// A log of one batch, which puts `b` to `2` as op 2.
const PUT_2: &[u8] =
    b"\x8f\x72\xbc\x7a\x11\x00\x01\x02\x00\x00\x00\x00\x00\x00\x00\x01\x00\x00\x00\x01\x01b\x012";

/// A log of one record, the byte 0.
const ZERO: &[u8] = b"\x5f\xb0\xce\x81\x01\x00\x01\x00";

const CURRENT: &[u8] = b"MANIFEST-000002\n";

/// What was read of a directory, with how many keys have a value.
#[derive(Clone, Copy, Debug, PartialEq, Eq)]
enum Read {
    New,
    Held { keys: usize, last: u64 },
    NoCurrent(FileName),
    BadCurrent { bytes: usize },
    DamagedManifest { at: u64 },
    MissingTable(u64),
    BadTable(u64, Damaged),
    BadLog { log: u64, at: u64 },
    LogGap { log: u64, last: u64, found: u64 },
    OutOfMemory,
}

fn summed_up(answer: Result<Directory, DirectoryRefusal>) -> Read {
    match answer {
        Ok(Directory::New) => Read::New,
        Ok(Directory::Held(held)) => Read::Held {
            keys: held.pairs.len(),
            last: held.last,
        },
        Err(DirectoryRefusal::NoCurrent { file }) => Read::NoCurrent(file),
        Err(DirectoryRefusal::BadCurrent { bytes }) => Read::BadCurrent { bytes: bytes.len() },
        Err(DirectoryRefusal::DamagedManifest { at }) => Read::DamagedManifest { at },
        Err(DirectoryRefusal::MissingTable { number }) => Read::MissingTable(number),
        Err(DirectoryRefusal::BadTable { number, damage }) => Read::BadTable(number, damage),
        Err(DirectoryRefusal::BadLog { log, at }) => Read::BadLog { log, at },
        Err(DirectoryRefusal::LogGap { log, last, found }) => Read::LogGap { log, last, found },
        Err(DirectoryRefusal::OutOfMemory) => Read::OutOfMemory,
    }
}

fn file(alloc: Global, name: FileName, bytes: &[u8]) -> Result<File, OutOfMemory> {
    Ok((name, Bytes::from_slice(alloc, bytes)?))
}

/// A directory with CURRENT, its manifest, and another file.
fn with_manifest(
    alloc: Global,
    manifest: &[u8],
    name: FileName,
    bytes: &[u8],
) -> Result<Vec<File>, OutOfMemory> {
    let mut files = Vec::new(alloc);
    files.push(file(alloc, name, bytes)?)?;
    files.push(file(alloc, FileName::Manifest(2), manifest)?)?;
    files.push(file(alloc, FileName::Current, CURRENT)?)?;
    Ok(files)
}

#[test]
fn directories_with_current(rt: HostRuntime) -> Result<(), Fail> {
    let alloc = rt.alloc();
    let shape = Damaged::BadShape { at: 0 };
    let cases = [
        (
            ADDS_TABLE,
            FileName::Log(4),
            b"".as_slice(),
            Read::MissingTable(3),
        ),
        (
            ADDS_51,
            FileName::Table(3),
            &TABLE[..51],
            Read::BadTable(3, shape),
        ),
        (EDIT, FileName::Log(1), ZERO, Read::BadLog { log: 1, at: 0 }),
        (
            EDIT,
            FileName::Log(1),
            PUT_2,
            Read::LogGap {
                log: 1,
                last: 0,
                found: 2,
            },
        ),
        (
            EDIT_AND_ZERO,
            FileName::Log(1),
            PUT_1,
            Read::DamagedManifest { at: 40 },
        ),
        (
            EDIT,
            FileName::Log(1),
            &PUT_1[..3],
            Read::Held { keys: 0, last: 0 },
        ),
        (
            EDIT,
            FileName::Log(1),
            PUT_1,
            Read::Held { keys: 1, last: 1 },
        ),
        (
            ADDS_TABLE,
            FileName::Table(3),
            TABLE,
            Read::Held { keys: 1, last: 1 },
        ),
    ];
    for (manifest, name, bytes, read) in cases {
        let files = with_manifest(alloc, manifest, name, bytes)
            .ok()
            .ok_or("memory")?;
        assert_eq!(rt; summed_up(read_directory(alloc, files.as_slice())), read);
    }
    Ok(())
}

#[test]
fn directories_without_a_manifest(rt: HostRuntime) -> Result<(), Fail> {
    let alloc = rt.alloc();
    let table = FileName::Table(3);
    let cases = [
        (FileName::Log(1), b"".as_slice(), Read::New),
        (table, TABLE, Read::NoCurrent(table)),
        (FileName::Current, TABLE, Read::BadCurrent { bytes: 64 }),
        (FileName::Current, CURRENT, Read::DamagedManifest { at: 0 }),
    ];
    for (name, bytes, read) in cases {
        let files = [file(alloc, name, bytes).ok().ok_or("memory")?];
        assert_eq!(rt; summed_up(read_directory(alloc, files.as_slice())), read);
    }
    Ok(())
}

#[test]
fn rows_of_tables_and_logs_stand_in_one_map(rt: HostRuntime) -> Result<(), Fail> {
    let alloc = rt.alloc();
    let mut files = with_manifest(alloc, ADDS_TABLE, FileName::Table(3), TABLE)
        .ok()
        .ok_or("memory")?;
    files.push(file(alloc, FileName::Log(1), PUT_2).ok().ok_or("memory")?)?;
    let Ok(Directory::Held(held)) = read_directory(alloc, files.as_slice()) else {
        return Err(Fail::from("nothing is held"));
    };
    assert_eq!(rt; (held.manifest, held.last), (2, 2));
    let [first, second] = held.pairs.as_slice() else {
        return Err(Fail::from("no two keys"));
    };
    assert_eq!(rt;
        (first.0.as_slice(), first.1.as_slice()),
        (b"a".as_slice(), b"1".as_slice())
    );
    assert_eq!(rt;
        (second.0.as_slice(), second.1.as_slice()),
        (b"b".as_slice(), b"2".as_slice())
    );
    Ok(())
}

#[test]
fn laws_are_called(_rt: HostRuntime) -> Result<(), Fail> {
    laws::one_reading();
    laws::unneeded_files();
    laws::new_stores();
    laws::settled_stands();
    laws::logs_are_those();
    laws::least_is_least();
    laws::first_is_first();
    Ok(())
}
