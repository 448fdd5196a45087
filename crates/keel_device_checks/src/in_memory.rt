// The device in memory.
use crate::calls::{
    LOG, TABLE, appends, creates, cuts, has, has_free, has_size, is_refused, is_whole,
    lists_the_log, removes, renames, syncs, syncs_names,
};
use keel_base::{Call, Fault};
use keel_disk::{Device, Pick, Rule};
use keel_simdisk::{SimDisk, laws};
use std::alloc::Global;
use std::test::Fail;

/// The fragment of the record `a` in the log format, but for its last byte.
const BAD: &[u8] = b"\xb5\xcd\x0b\xa2\x01\x00\x01b";

/// A device whose directory has one log, with these bytes handed in.
fn with_log(alloc: Global, bytes: &[u8]) -> Result<SimDisk, Fail> {
    let mut disk = SimDisk::new(alloc, 1000);
    if creates(alloc, &mut disk, LOG)
        && syncs_names(alloc, &mut disk)
        && appends(alloc, &mut disk, bytes)
    {
        Ok(disk)
    } else {
        Err(Fail::from("memory"))
    }
}

/// The next append fails and keeps two bytes.
fn fail_next(alloc: Global, disk: &mut SimDisk) -> bool {
    let rule = Rule::Fail {
        call: Call::Append,
        fault: Fault::Retryable,
        skip: 0,
        times: 1,
        keep: 2,
    };
    disk.arrange(alloc, rule) == Ok(true)
}

fn bound(alloc: Global, disk: &mut SimDisk, capacity: u64) -> bool {
    disk.arrange(alloc, Rule::Capacity(capacity)) == Ok(true)
}

/// A crash that does no waiting operation of the directory, and keeps so many bytes before garbage.
fn crash(alloc: Global, disk: &mut SimDisk, keep: u64, garbage: u64, seed: u64) -> bool {
    let pick = Pick {
        dirops: 0,
        keep,
        garbage,
        seed,
    };
    disk.crash(alloc, pick) == Ok(true)
}

#[test]
fn a_failing_append_keeps_a_part_that_no_sync_makes_firm(rt: HostRuntime) -> Result<(), Fail> {
    let alloc = rt.alloc();
    let mut disk = with_log(alloc, b"abc")?;
    assert!(rt; syncs(alloc, &mut disk));
    assert!(rt; fail_next(alloc, &mut disk));
    assert!(rt; is_refused(alloc, &mut disk, b"defg", Fault::Retryable));
    assert!(rt; syncs(alloc, &mut disk));
    assert!(rt; has(alloc, &mut disk, LOG, b"abcde"));
    assert!(rt; crash(alloc, &mut disk, 0, 0, 0));
    assert!(rt; has(alloc, &mut disk, LOG, b"abc"));
    Ok(())
}

#[test]
fn a_crash_keeps_what_it_is_told_and_then_garbage(rt: HostRuntime) -> Result<(), Fail> {
    let alloc = rt.alloc();
    let mut disk = with_log(alloc, b"defgh")?;
    assert!(rt; crash(alloc, &mut disk, 2, 2, 255));
    assert!(rt; has(alloc, &mut disk, LOG, b"de\xff\x00"));
    assert_eq!(rt; disk.forged(), 0);
    Ok(())
}

#[test]
fn garbage_that_makes_a_fragment_good_is_forged(rt: HostRuntime) -> Result<(), Fail> {
    let alloc = rt.alloc();
    let mut disk = with_log(alloc, BAD)?;
    assert!(rt; crash(alloc, &mut disk, 7, 1, 97));
    assert_eq!(rt; disk.forged(), 1);
    Ok(())
}

#[test]
fn names_and_cuts_wait_for_a_sync_of_the_directory(rt: HostRuntime) -> Result<(), Fail> {
    let alloc = rt.alloc();
    let mut disk = with_log(alloc, b"abcd")?;
    assert!(rt; syncs(alloc, &mut disk));
    assert!(rt; cuts(alloc, &mut disk, 2));
    assert!(rt; is_refused(alloc, &mut disk, b"x", Fault::Plain));
    assert!(rt; renames(alloc, &mut disk));
    assert!(rt; has(alloc, &mut disk, TABLE, b"ab"));
    assert!(rt; removes(alloc, &mut disk, TABLE));
    assert!(rt; crash(alloc, &mut disk, 0, 0, 0));
    assert!(rt; has(alloc, &mut disk, LOG, b"abcd"));
    Ok(())
}

#[test]
fn room_ends_at_the_capacity(rt: HostRuntime) -> Result<(), Fail> {
    let alloc = rt.alloc();
    let mut disk = with_log(alloc, b"abc")?;
    assert!(rt; bound(alloc, &mut disk, 5));
    assert!(rt; has_free(alloc, &mut disk, 2));
    assert!(rt; is_refused(alloc, &mut disk, b"def", Fault::NoSpace));
    assert!(rt; appends(alloc, &mut disk, b"de"));
    assert!(rt; has_size(alloc, &mut disk, LOG, 5));
    assert!(rt; lists_the_log(alloc, &mut disk));
    Ok(())
}

#[test]
fn a_file_is_read_whole(rt: HostRuntime) -> Result<(), Fail> {
    let alloc = rt.alloc();
    let mut disk = with_log(alloc, b"abc")?;
    assert!(rt; is_whole(alloc, &mut disk, b"abc"));
    Ok(())
}

#[test]
fn the_law_holds(rt: HostRuntime) {
    assert!(rt; SimDisk::new(rt.alloc(), 1).simulated());
    laws::one_answer();
}
