use crate::{laws, listed, print, print_current, read, read_current, read_decimal};
use keel_base::{Entry, FileName};
use std::alloc::Global;
use std::test::Fail;

/// Whether a name has this spelling, which is read as the name.
fn is_spelled(alloc: Global, name: FileName, spelling: &[u8]) -> Result<bool, Fail> {
    let printed = print(alloc, name).ok().ok_or("memory")?;
    Ok(printed.as_slice() == spelling && read(spelling) == Some(name))
}

#[test]
fn names_are_printed_and_read(rt: HostRuntime) -> Result<(), Fail> {
    let alloc = rt.alloc();
    assert!(rt; is_spelled(alloc, FileName::Log(1), b"000001.log")?);
    assert!(rt; is_spelled(alloc, FileName::Table(1234567), b"1234567.sst")?);
    assert!(rt; is_spelled(alloc, FileName::Trash(999999), b"999999.sst.trash")?);
    assert!(rt; is_spelled(alloc, FileName::Temp(12), b"000012.dbtmp")?);
    Ok(())
}

#[test]
fn manifests_are_printed_and_read(rt: HostRuntime) -> Result<(), Fail> {
    let alloc = rt.alloc();
    assert!(rt; is_spelled(alloc, FileName::Current, b"CURRENT")?);
    assert!(rt; is_spelled(alloc, FileName::Manifest(3), b"MANIFEST-000003")?);
    assert!(rt;
        is_spelled(
            alloc,
            FileName::Manifest(1 << 56),
            b"MANIFEST-72057594037927936"
        )?
    );
    Ok(())
}

/// A file of a number of seven digits is listed before one of six.
#[test]
fn files_are_listed_as_they_are_printed(rt: HostRuntime) -> Result<(), Fail> {
    let files = [
        Entry {
            name: FileName::Log(999_999),
            size: 1,
        },
        Entry {
            name: FileName::Log(1_000_000),
            size: 2,
        },
    ];
    let listing = listed(rt.alloc(), &files).ok().ok_or("memory")?;
    match listing.as_slice() {
        [first, last] => assert!(rt; first.size == 2 && last.size == 1),
        _ => assert!(rt; false, "two files"),
    }
    Ok(())
}

#[test]
fn current_is_printed_and_read(rt: HostRuntime) -> Result<(), Fail> {
    let current = print_current(rt.alloc(), 2).ok().ok_or("memory")?;
    assert_eq!(rt; current.as_slice(), b"MANIFEST-000002\n".as_slice());
    assert_eq!(rt; read_current(current.as_slice()), Some(2));
    assert_eq!(rt; read_current(b"MANIFEST-000002"), None);
    assert_eq!(rt; read_current(b"000002.log\n"), None);
    Ok(())
}

/// Numbers have six digits or as many more as they need, and go from 1 to 2^56.
#[test]
fn other_numbers_are_refused(rt: HostRuntime) {
    assert_eq!(rt; read(b"0000007.sst"), None);
    assert_eq!(rt; read(b"00007.sst"), None);
    assert_eq!(rt; read(b"000000.log"), None);
    assert_eq!(rt; read(b"72057594037927937.log"), None);
    assert_eq!(rt; read(b"+00007.sst"), None);
}

#[test]
fn other_words_are_refused(rt: HostRuntime) {
    assert_eq!(rt; read(b""), None);
    assert_eq!(rt; read(b"000007.SST"), None);
    assert_eq!(rt; read(b"000007.sst.trash "), None);
    assert_eq!(rt; read(b"MANIFEST-"), None);
    assert_eq!(rt; read(b"CURRENT\n"), None);
}

#[test]
fn decimals_have_no_zeros_in_front(rt: HostRuntime) {
    assert_eq!(rt; read_decimal(b"18446744073709551615"), Some(u64::MAX));
    assert_eq!(rt; read_decimal(b"18446744073709551616"), None);
    assert_eq!(rt; read_decimal(b"0"), Some(0));
    assert_eq!(rt; read_decimal(b"01"), None);
}

#[test]
fn the_laws_hold() {
    laws::one_spelling();
    laws::one_manifest();
    laws::one_order();
}
