ghost use Rattle.std.specs.Prelude.{◌≡◌, ◌∷◌, [], IfOk};
ghost use Rattle.keel_trash.specs.State.{AreQueued};

use keel_base::{Bytes, Call, Fault, FileName, OutOfMemory};
use keel_disk::{Device, Disk, DiskError, Rule};
use keel_simdisk::SimDisk;
use keel_space::Space;
use keel_trash::{DeleteStep, Trash, laws};
use std::alloc::Global;
use std::test::Fail;

const TABLE: FileName = FileName::Table(4);

const OTHER: FileName = FileName::Table(5);

const TRASH: FileName = FileName::Trash(4);

#[test]
fn a_table_goes_at_once_where_trash_is_over_its_share(rt: HostRuntime) -> Result<(), Fail> {
    laws::end_is_unseen();
    let large = u128::MAX;
    for (rate, ratio, total, trash, answer) in [
        (1, 250, 200, 50, false),
        (1, 250, 200, 51, true),
        (0, 250, 200, 0, true),
        (1, 0, 200, 0, false),
        (1, 1000, large, large, false),
        (1, 999, large, large, true),
    ] {
        assert_eq!(rt; Trash::immediate(rate, ratio, total, trash), answer);
    }
    Ok(())
}

/// A log that isn't tracked, and a table of 100 bytes beside another one.
fn filled(alloc: Global, disk: &mut SimDisk) -> Result<(), DiskError> {
    let bytes = Bytes::from_slice(alloc, &[7; 100])?;
    disk.create(alloc, FileName::Log(1))?;
    disk.create(alloc, TABLE)?;
    disk.append(alloc, TABLE, bytes.as_slice())
}

/// Both tables are tracked.
fn tracked(alloc: Global) -> Result<Space, OutOfMemory>
    ensures { IfOk result (λ space. space.tracked ≡ record { name = TABLE; size = 100 } ∷ record { name = OTHER; size = 100 } ∷ []) }
{
    let mut space = Space::new(alloc, 0, 0);
    space.grow(2)?;
    space.track(TABLE, 100);
    space.track(OTHER, 100);
    Ok(space)
}

/// A log waits to be purged, and the first table is retired.
fn queued(alloc: Global, rate: u64) -> Result<(Trash, Space), OutOfMemory>
    ensures { IfOk result (λ made. AreQueued made.0 made.1) }
{
    let space = tracked(alloc)?;
    let mut trash = Trash::new(alloc, rate, 250, 40);
    trash.grow(2)?;
    trash.purge(FileName::Log(1));
    trash.retire(TABLE, 100);
    Ok((trash, space))
}

/// Whether the steps at these ticks answer so.
fn agree(
    alloc: Global,
    disk: &mut SimDisk,
    rate: u64,
    steps: &[(u64, DeleteStep)],
) -> Result<bool, OutOfMemory> {
    let (mut trash, mut space) = queued(alloc, rate)?;
    for (now, answer) in steps {
        if trash.delete_step(alloc, disk, &mut space, *now) != *answer {
            return Ok(false);
        }
    }
    Ok(true)
}

#[test]
fn trash_is_cut_and_removed_slowly(rt: HostRuntime) -> Result<(), Fail> {
    let alloc = rt.alloc();
    let mut disk = SimDisk::new(alloc, 1000);
    filled(alloc, &mut disk).ok().ok_or("device")?;
    let steps = [
        (0, DeleteStep::Purged(FileName::Log(1))),
        (0, DeleteStep::Trashed(TABLE)),
        (
            0,
            DeleteStep::Cut {
                name: TRASH,
                length: 60,
            },
        ),
        (999, DeleteStep::Wait { until: 1000 }),
        (
            1000,
            DeleteStep::Cut {
                name: TRASH,
                length: 20,
            },
        ),
        (1000, DeleteStep::Wait { until: 2000 }),
        (2000, DeleteStep::Removed(TRASH)),
        (2000, DeleteStep::Idle),
    ];
    assert_eq!(rt; agree(alloc, &mut disk, 40, &steps), Ok(true));
    Ok(())
}

/// Behind a refused rename both names are removed.
#[test]
fn a_refused_rename_removes_both_names(rt: HostRuntime) -> Result<(), Fail> {
    let alloc = rt.alloc();
    let mut disk = SimDisk::new(alloc, 1000);
    filled(alloc, &mut disk).ok().ok_or("device")?;
    let rule = Rule::Fail {
        call: Call::Rename,
        fault: Fault::Plain,
        skip: 0,
        times: 1,
        keep: 0,
    };
    assert_eq!(rt; disk.arrange(alloc, rule), Ok(true));
    let steps = [
        (0, DeleteStep::Purged(FileName::Log(1))),
        (0, DeleteStep::Refused(Fault::Plain)),
        (0, DeleteStep::Removed(TABLE)),
        (0, DeleteStep::Removed(TRASH)),
        (0, DeleteStep::Idle),
    ];
    assert_eq!(rt; agree(alloc, &mut disk, 40, &steps), Ok(true));
    Ok(())
}
