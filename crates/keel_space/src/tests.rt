use crate::Space;
use keel_base::{FileName, OutOfMemory};
use std::alloc::Global;
use std::test::Fail;

/// Two tables are tracked, and the first of them becomes trash and is cut. Gives the total and trash behind each step.
fn tracked(alloc: Global, limit: u64) -> Result<(Space, [(u128, u128); 4]), OutOfMemory> {
    let mut space = Space::new(alloc, limit, 0);
    space.grow(2)?;
    space.track(FileName::Table(4), 100);
    space.track(FileName::Table(5), 92);
    let first = (space.total(), space.trash());
    space.move_name(FileName::Table(4), FileName::Trash(4));
    let second = (space.total(), space.trash());
    space.shrink(FileName::Trash(4), 60);
    let third = (space.total(), space.trash());
    space.untrack(FileName::Trash(4));
    let last = (space.total(), space.trash());
    Ok((space, [first, second, third, last]))
}

#[test]
fn totals_follow_every_call(rt: HostRuntime) -> Result<(), Fail> {
    let (space, totals) = tracked(rt.alloc(), 92).ok().ok_or("memory")?;
    assert_eq!(rt; totals, [(192, 0), (192, 100), (152, 60), (92, 0)]);
    assert!(rt; space.tracks(FileName::Table(5)));
    assert!(rt; !space.tracks(FileName::Trash(4)));
    assert_eq!(rt; space.size(FileName::Table(5)), Some(92));
    assert_eq!(rt; space.size(FileName::Trash(4)), None);
    assert!(rt; space.reached());
    Ok(())
}

#[test]
fn a_compaction_starts_where_there_is_room(rt: HostRuntime) -> Result<(), Fail> {
    // By limit and buffer: whether the limit is reached by 92 bytes, and whether inputs of 92 have room.
    for (limit, buffer, reached, room) in [
        (92, 0, true, false),
        (184, 0, false, true),
        (184, 1, false, false),
    ] {
        let mut space = Space::new(rt.alloc(), 1, buffer);
        space.grow(1).ok().ok_or("memory")?;
        space.track(FileName::Table(3), 92);
        space.set_limit(limit);
        assert!(rt; space.limit() == limit && space.buffer() == buffer);
        assert_eq!(rt; space.reached(), reached);
        assert_eq!(rt; space.room(92), room);
        // Another compaction holds room until it ends.
        space.reserve(1, 92);
        assert_eq!(rt; space.reserved(), 92);
        assert!(rt; !space.room(92));
        space.release(1);
        assert_eq!(rt; space.reserved(), 0);
    }
    Ok(())
}
