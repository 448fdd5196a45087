ghost use Rattle.std.specs.Prelude.{◌≤◌, ◌^◌, IfOk};
ghost use Rattle.keel_base.specs.Name.{IsFileNumber};
ghost use Rattle.keel_edit.specs.Spelling.{IsAdded, IsEdit};

use crate::entries::is_at_most;
use crate::{ApplyError, Busy, Version, laws};
use keel_base::{Bytes, Options, OutOfMemory};
use keel_edit::{Added, AddedList, Edit, Removed, RemovedList};
use std::alloc::Global;
use std::test::Fail;

fn plain(alloc: Global, next_file: u64) -> Edit
    requires { IsFileNumber next_file }
    ensures { IsEdit result }
{
    Edit {
        min_log: 0,
        next_file,
        last_seq: 0,
        removed: RemovedList::new(alloc),
        added: AddedList::new(alloc),
    }
}

fn removing(alloc: Global, level: u8, number: u64) -> Result<Edit, OutOfMemory>
    requires level { level ≤ 3 }
    requires number { IsFileNumber number }
    ensures { IfOk result (λ edit. IsEdit edit) }
{
    let mut removed = RemovedList::new(alloc);
    removed.push(Removed { level, number })?;
    Ok(Edit {
        min_log: 0,
        next_file: 9,
        last_seq: 0,
        removed,
        added: AddedList::new(alloc),
    })
}

/// A table with these two keys of one byte.
fn table(
    alloc: Global,
    level: u8,
    number: u64,
    size: u64,
    keys: (u8, u8),
) -> Result<Added, OutOfMemory>
    requires level { level ≤ 3 }
    requires number { IsFileNumber number }
    requires size { size ≤ 2 ^ 56 }
    ensures { IfOk result (λ table. IsAdded table) }
{
    let least = Bytes::from_slice(alloc, &[keys.0])?;
    let greatest = Bytes::from_slice(alloc, &[keys.1])?;
    if !is_at_most(least.as_slice(), greatest.as_slice()) {
        return Err(OutOfMemory);
    }
    Ok(Added {
        level,
        number,
        size,
        rows: 1,
        first: 0,
        last: 0,
        least,
        greatest,
    })
}

fn adding(alloc: Global, table: Added) -> Result<Edit, OutOfMemory>
    requires { IsAdded table }
    ensures { IfOk result (λ edit. IsEdit edit) }
{
    let mut added = AddedList::new(alloc);
    added.push(table)?;
    Ok(Edit {
        min_log: 0,
        next_file: 9,
        last_seq: 0,
        removed: RemovedList::new(alloc),
        added,
    })
}

fn with_table(
    alloc: Global,
    version: &Version,
    level: u8,
    number: u64,
    size: u64,
    keys: (u8, u8),
) -> Result<Version, ApplyError>
    requires level { level ≤ 3 }
    requires number { IsFileNumber number }
    requires size { size ≤ 2 ^ 56 }
{
    let edit = adding(alloc, table(alloc, level, number, size, keys)?)?;
    version.apply(alloc, &edit)
}

fn numbers(alloc: Global, tables: &[Added]) -> Result<Vec<u64>, OutOfMemory> {
    let mut numbers = Vec::new(alloc);
    for table in tables {
        numbers.push(table.number)?;
    }
    Ok(numbers)
}

#[test]
fn an_edit_that_does_not_fit(rt: HostRuntime) -> Result<(), Fail> {
    let alloc = rt.alloc();
    let nothing = Version::empty(alloc);
    let refused = nothing.apply(alloc, &removing(alloc, 0, 7)?).err();
    assert_eq!(rt; refused, Some(ApplyError::BadEdit { entry: 0 }));
    let version = nothing.apply(alloc, &plain(alloc, 3))?;
    assert!(rt; version.min_log() == 0 && version.next_file() == 3 && version.last_seq() == 0);
    let refused = version.into_applied(alloc, &plain(alloc, 2)).err();
    assert_eq!(rt; refused, Some(ApplyError::BadEdit { entry: 0 }));
    Ok(())
}

#[test]
fn a_table_that_clashes(rt: HostRuntime) -> Result<(), Fail> {
    let alloc = rt.alloc();
    let version = with_table(alloc, &Version::empty(alloc), 1, 7, 10, (b'a', b'c'))?;
    let refused = with_table(alloc, &version, 1, 8, 10, (b'b', b'd')).err();
    assert_eq!(rt; refused, Some(ApplyError::BadEdit { entry: 0 }));
    let refused = with_table(alloc, &version, 2, 7, 10, (b'x', b'y')).err();
    assert_eq!(rt; refused, Some(ApplyError::BadEdit { entry: 0 }));
    Ok(())
}

#[test]
fn tables_stand_by_level_then_number(rt: HostRuntime) -> Result<(), Fail> {
    let alloc = rt.alloc();
    let version = with_table(alloc, &Version::empty(alloc), 1, 7, 10, (b'a', b'c'))?;
    let version = with_table(alloc, &version, 1, 5, 20, (b'd', b'e'))?;
    let version = with_table(alloc, &version, 0, 9, 40, (b'b', b'd'))?;
    assert_eq!(rt;
        numbers(alloc, version.as_slice())?.as_slice(),
        [9, 5, 7].as_slice()
    );
    assert!(rt; version.count_on(1) == 2 && version.bytes_on(1) == 30);
    let version = version.into_applied(alloc, &removing(alloc, 1, 5)?)?;
    let tables = version.tables(alloc)?;
    assert_eq!(rt;
        numbers(alloc, tables.as_slice())?.as_slice(),
        [9, 7].as_slice()
    );
    Ok(())
}

/// Two tables on level 0, two on level 1 and one on level 2.
fn levels(alloc: Global) -> Result<Version, ApplyError> {
    let version = with_table(alloc, &Version::empty(alloc), 0, 3, 50, (b'a', b'c'))?;
    let version = with_table(alloc, &version, 0, 4, 50, (b'e', b'g'))?;
    let version = with_table(alloc, &version, 1, 5, 90, (b'b', b'd'))?;
    let version = with_table(alloc, &version, 1, 6, 20, (b'm', b'n'))?;
    with_table(alloc, &version, 2, 7, 10, (b'm', b'z'))
}

/// The inputs picked, or none, and their bytes.
fn picked(
    alloc: Global,
    version: &Version,
    trigger: u32,
    base: u64,
    busy: &Busy,
) -> Result<(Vec<u64>, u128), OutOfMemory> {
    let mut options = Options::standard();
    options.level0_trigger = trigger;
    options.level_base = base;
    match version.pick(alloc, &options, busy)? {
        None => Ok((Vec::new(alloc), 0)),
        Some(picked) => Ok((numbers(alloc, picked.inputs.as_slice())?, picked.bytes)),
    }
}

#[test]
fn the_least_level_over_its_trigger_is_picked(rt: HostRuntime) -> Result<(), Fail> {
    let alloc = rt.alloc();
    let version = levels(alloc)?;
    let none: &[u64] = &[];
    let level0: &[u64] = &[3, 4, 5];
    let level1: &[u64] = &[5];
    // The trigger of level 0, the base of level 1, whether levels 0 and 2 are busy, the inputs and their bytes.
    for (trigger, base, first, third, inputs, bytes) in [
        (2, 100, false, false, level0, 190),
        (2, 100, true, false, level1, 90),
        (2, 100, false, true, level0, 190),
        (2, 100, true, true, none, 0),
        (3, 109, false, false, level1, 90),
        (3, 110, false, false, none, 0),
    ] {
        let busy = Busy {
            levels: [first, false, third, false],
        };
        let (found, sum) = picked(alloc, &version, trigger, base, &busy)?;
        assert_eq!(rt; found.as_slice(), inputs);
        assert_eq!(rt; sum, bytes);
    }
    Ok(())
}

#[test]
fn laws_hold() {
    laws::edits_have_levels();
    laws::applied_leaves();
    laws::whole_edit();
    laws::applied_may_come();
    laws::whole_is_edit();
    laws::first_is_least();
    laws::near_is_meeting();
    laws::finds_greatest();
    laws::looks_in_each();
    laws::any_order();
}
