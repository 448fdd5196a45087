use keel_base::{Call, Fault, FileName};
use keel_disk::{Disk, DiskError};
use keel_simdisk::SimDisk;
use keel_wal::{Log, LogProgress, ReplayError, Rotated, replay};
use std::alloc::Global;
use std::test::Fail;

/// The bytes of a group: these calls don't read them.
const GROUP: [u8; 3] = [1, 2, 3];

/// A device with the empty log 1.
fn with_log(alloc: Global) -> Option<SimDisk> {
    let mut disk = SimDisk::new(alloc, 1000);
    disk.create(alloc, FileName::Log(1)).ok()?;
    disk.sync_dir(alloc).ok()?;
    Some(disk)
}

#[test]
fn a_group_is_appended_and_synced(rt: HostRuntime) -> Result<(), Fail> {
    let alloc = rt.alloc();
    let mut disk = with_log(alloc).ok_or("memory")?;
    let mut log = Log::new(1);
    assert!(rt; log.append_group(alloc, &mut disk, &GROUP).is_ok());
    if let LogProgress::Going = log.progress() {
        assert!(rt; log.sync(alloc, &mut disk).is_ok());
    }
    assert_eq!(rt; log.length(), 3);
    assert!(rt; log.progress() == LogProgress::Going);
    assert!(rt; disk.size(alloc, FileName::Log(1)).ok() == Some(3));
    Ok(())
}

/// Makes the next call of a rotation to the log 2, where there is one.
fn rotates(alloc: Global, disk: &mut SimDisk, log: &mut Log) -> Option<Rotated> {
    match log.progress() {
        LogProgress::Going | LogProgress::Synced | LogProgress::NextMade { next: 2 } => {
            log.rotate_step(alloc, disk, 2).ok()
        }
        LogProgress::NextMade { .. } | LogProgress::Failed => None,
    }
}

#[test]
fn a_rotation_leads_to_the_next_log(rt: HostRuntime) -> Result<(), Fail> {
    let alloc = rt.alloc();
    let mut disk = with_log(alloc).ok_or("memory")?;
    let mut log = Log::new(1);
    assert!(rt; rotates(alloc, &mut disk, &mut log) == Some(Rotated::Moved(Call::Sync)));
    assert!(rt; rotates(alloc, &mut disk, &mut log) == Some(Rotated::Moved(Call::Create)));
    assert!(rt; rotates(alloc, &mut disk, &mut log) == Some(Rotated::Done));
    assert_eq!(rt; log.number(), 2);
    assert_eq!(rt; log.length(), 0);
    assert!(rt; disk.size(alloc, FileName::Log(2)).ok() == Some(0));
    Ok(())
}

/// Without its file a log is refused an append, and takes no group from then on.
#[test]
fn a_failed_append_ends_a_log(rt: HostRuntime) -> Result<(), Fail> {
    let alloc = rt.alloc();
    let mut disk = SimDisk::new(alloc, 1000);
    let mut log = Log::new(1);
    let answer = log.append_group(alloc, &mut disk, &GROUP);
    assert!(rt; answer == Err(DiskError::Fault(Fault::Plain)));
    assert!(rt; log.progress() == LogProgress::Failed);
    Ok(())
}

/// The record of a batch, which puts `a` to `1` as op 1.
const PUT_1: &[u8] =
    b"\xe9\x9f\x78\x19\x11\x00\x01\x01\x00\x00\x00\x00\x00\x00\x00\x01\x00\x00\x00\x01\x01a\x011";

/// The same for `b` and `2` as op 2.
const PUT_2: &[u8] =
    b"\x8f\x72\xbc\x7a\x11\x00\x01\x02\x00\x00\x00\x00\x00\x00\x00\x01\x00\x00\x00\x01\x01b\x012";

/// A record with the byte 0, which is no batch.
const ZERO: &[u8] = b"\x5f\xb0\xce\x81\x01\x00\x01\x00";

/// A device with the logs 1 and 3, which have these bytes, and the empty log 2.
fn with_logs(alloc: Global, first: &[u8], last: &[u8]) -> Option<SimDisk> {
    let mut disk = with_log(alloc)?;
    disk.append(alloc, FileName::Log(1), first).ok()?;
    disk.create(alloc, FileName::Log(2)).ok()?;
    disk.create(alloc, FileName::Log(3)).ok()?;
    disk.append(alloc, FileName::Log(3), last).ok()?;
    Some(disk)
}

#[test]
fn logs_are_replayed_in_order(rt: HostRuntime) -> Result<(), Fail> {
    let alloc = rt.alloc();
    let mut disk = with_logs(alloc, PUT_1, PUT_2).ok_or("memory")?;
    let read = replay(alloc, &mut disk, 1, 0).ok().ok_or("a refusal")?;
    assert_eq!(rt; read.batches.len(), 2);
    assert_eq!(rt; read.last_seq, 2);
    assert!(rt; read.logs.as_slice() == [1u64, 2, 3].as_slice());
    Ok(())
}

/// A bad log comes before the gap of an earlier one.
#[test]
fn a_bad_log_is_refused(rt: HostRuntime) -> Result<(), Fail> {
    let alloc = rt.alloc();
    let mut disk = with_logs(alloc, PUT_2, ZERO).ok_or("memory")?;
    let answer = replay(alloc, &mut disk, 1, 0).err();
    assert!(rt; answer == Some(ReplayError::BadLog { log: 3, at: 0 }));
    Ok(())
}
