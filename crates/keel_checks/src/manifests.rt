use keel_base::{Call, FileName};
use keel_disk::{Disk, DiskError};
use keel_manifest::{Doubt, InUse, Manifest, NextFile, Progress, Roll, Rolled, read_current};
use keel_simdisk::SimDisk;
use std::alloc::Global;
use std::test::Fail;

/// The bytes of an edit of no table: these calls don't read them. Its record has 7 bytes more.
const EDIT: [u8; 3] = [1, 2, 3];

/// What the eight calls of a roll answer.
const ANSWERS: [Rolled; 8] = [
    Rolled::Moved(Call::Create),
    Rolled::Moved(Call::Append),
    Rolled::Moved(Call::Sync),
    Rolled::Moved(Call::Create),
    Rolled::Moved(Call::Append),
    Rolled::Moved(Call::Sync),
    Rolled::Moved(Call::Rename),
    Rolled::Done,
];

/// Whether the next calls of a roll answer so.
fn agree(
    alloc: Global,
    disk: &mut SimDisk,
    manifest: &mut Manifest,
    roll: &mut Roll,
    answers: &[Rolled],
) -> bool {
    for answer in answers {
        if roll.next().is_none() {
            return false;
        }
        match manifest.roll_step(alloc, disk, roll) {
            Ok(rolled) if rolled == *answer => {}
            _ => return false,
        }
    }
    true
}

#[test]
fn a_roll_names_its_manifest(rt: HostRuntime) -> Result<(), Fail> {
    let alloc = rt.alloc();
    let mut disk = SimDisk::new(alloc, 1000);
    let mut manifest = Manifest::named(alloc, None, 0).ok().ok_or("memory")?;
    let mut roll = Roll::new(alloc, 5, &EDIT).ok().ok_or("memory")?;
    assert_eq!(rt; roll.number(), 5);
    assert!(rt; agree(alloc, &mut disk, &mut manifest, &mut roll, &ANSWERS));
    assert!(rt; read_current(alloc, &mut disk).ok() == Some(Some(5)));
    assert!(rt; disk.size(alloc, FileName::Manifest(5)).ok() == Some(10));
    let progress = Progress::Firm { length: 10 };
    let used = InUse {
        number: 5,
        edits: 1,
        progress,
    };
    assert!(rt; manifest.in_use() == Some(used));
    Ok(())
}

/// From the rename on a crash may leave the manifest that was named, or the new one.
#[test]
fn a_rename_is_in_doubt(rt: HostRuntime) -> Result<(), Fail> {
    let alloc = rt.alloc();
    let mut disk = SimDisk::new(alloc, 1000);
    let mut manifest = Manifest::named(alloc, Some(2), 3).ok().ok_or("memory")?;
    let mut roll = Roll::new(alloc, 5, &EDIT).ok().ok_or("memory")?;
    assert!(rt; agree(alloc, &mut disk, &mut manifest, &mut roll, &ANSWERS[..7]));
    let old = Doubt {
        manifest: 2,
        edits: 3,
    };
    let new = Doubt {
        manifest: 5,
        edits: 1,
    };
    assert!(rt; manifest.doubts() == [old, new].as_slice());
    Ok(())
}

/// An edit behind a roll is appended and synced.
#[test]
fn an_edit_follows_a_roll(rt: HostRuntime) -> Result<(), Fail> {
    let alloc = rt.alloc();
    let mut disk = SimDisk::new(alloc, 1000);
    let mut manifest = Manifest::named(alloc, None, 0).ok().ok_or("memory")?;
    let mut roll = Roll::new(alloc, 5, &EDIT).ok().ok_or("memory")?;
    assert!(rt; agree(alloc, &mut disk, &mut manifest, &mut roll, &ANSWERS));
    assert!(rt; adds(alloc, &mut disk, &mut manifest).is_ok());
    assert!(rt; disk.size(alloc, FileName::Manifest(5)).ok() == Some(20));
    assert!(rt; manifest.doubts().len() == 1);
    Ok(())
}

/// Adds the edit, where one may be added.
fn adds(alloc: Global, disk: &mut SimDisk, manifest: &mut Manifest) -> Result<(), DiskError> {
    if let Some(
        InUse {
            progress: Progress::Firm { .. },
            ..
        },
    ) = manifest.in_use()
    {
        manifest.edit_append(alloc, disk, &EDIT)?;
        manifest.edit_sync(alloc, disk)?;
    }
    Ok(())
}

#[test]
fn numbers_are_drawn_in_turn(rt: HostRuntime) -> Result<(), Fail> {
    let mut next = NextFile::new(7);
    assert_eq!(rt; next.draw(), 7);
    assert_eq!(rt; next.number(), 8);
    Ok(())
}
