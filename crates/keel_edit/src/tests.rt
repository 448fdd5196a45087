use crate::{Added, AddedList, Edit, EditError, Removed, RemovedList, decode, encode, laws};
use keel_base::{Bytes, OutOfMemory};
use std::alloc::Global;
use std::test::Fail;

/// Table 3 goes from level 0, table 7 of 92 bytes with the keys a to b comes to level 1.
const EDIT: [u8; 93] = [
    1, 4, 0, 0, 0, 0, 0, 0, 0, 8, 0, 0, 0, 0, 0, 0, 0, 9, 0, 0, 0, 0, 0, 0, 0, 1, 0, 0, 0, 0, 3, 0,
    0, 0, 0, 0, 0, 0, 1, 0, 0, 0, 1, 7, 0, 0, 0, 0, 0, 0, 0, 92, 0, 0, 0, 0, 0, 0, 0, 1, 0, 0, 0,
    0, 0, 0, 0, 5, 0, 0, 0, 0, 0, 0, 0, 9, 0, 0, 0, 0, 0, 0, 0, 1, 0, 0, 0, b'a', 1, 0, 0, 0, b'b',
];

/// A byte that is changed, its value, how many bytes are read, and the place that is named.
const BAD: [(usize, u8, usize, u64); 10] = [
    (0, 2, 93, 0),
    (8, 1, 93, 1),
    (9, 0, 93, 9),
    (29, 4, 93, 29),
    (30, 0, 93, 30),
    (83, 0, 93, 83),
    (89, 4, 93, 88),
    (92, b'A', 93, 92),
    (0, 1, 92, 92),
    (0, 1, 94, 93),
];

fn plain(alloc: Global) -> Edit {
    Edit {
        min_log: 4,
        next_file: 8,
        last_seq: 9,
        removed: RemovedList::new(alloc),
        added: AddedList::new(alloc),
    }
}

fn one_of_each(alloc: Global) -> Result<Edit, OutOfMemory> {
    let mut edit = plain(alloc);
    edit.removed.push(Removed {
        level: 0,
        number: 3,
    })?;
    edit.added.push(Added {
        level: 1,
        number: 7,
        size: 92,
        rows: 1,
        first: 5,
        last: 9,
        least: Bytes::from_slice(alloc, b"a")?,
        greatest: Bytes::from_slice(alloc, b"b")?,
    })?;
    Ok(edit)
}

#[test]
fn an_edit_without_tables(rt: HostRuntime) -> Result<(), Fail> {
    let alloc = rt.alloc();
    let bytes = encode(alloc, &plain(alloc)).ok().ok_or("memory")?;
    assert_eq!(rt; bytes.len(), 33);
    laws::one_spelling();
    laws::spelling_length();
    let front = bytes.as_slice().get(..32).unwrap_or(b"");
    match decode(alloc, front) {
        Ok(_) => assert!(rt; false, "no edit"),
        Err(error) => assert_eq!(rt; error, EditError::BadShape { at: 29 }),
    }
    Ok(())
}

#[test]
fn an_edit_and_what_is_none(rt: HostRuntime) -> Result<(), Fail> {
    let alloc = rt.alloc();
    let edit = one_of_each(alloc).ok().ok_or("memory")?;
    for table in edit.added.as_slice() {
        assert_eq!(rt; table.copy(alloc).ok().ok_or("memory")?.number, 7);
    }
    let bytes = encode(alloc, &edit).ok().ok_or("memory")?;
    assert_eq!(rt; bytes.as_slice(), EDIT.as_slice());
    match decode(alloc, &EDIT) {
        Ok(found) => {
            assert!(rt; found.min_log == 4 && found.next_file == 8 && found.last_seq == 9);
            assert!(rt; found.removed.len() == 1 && found.added.len() == 1);
        }
        Err(_) => assert!(rt; false, "an edit is read"),
    }
    for (changed, value, length, at) in BAD {
        let mut wrong = Vec::from_slice(alloc, &EDIT)?;
        wrong.push(0)?;
        if let Some(byte) = wrong.get_mut(changed) {
            *byte = value;
        }
        match decode(alloc, wrong.get(..length).unwrap_or(&EDIT)) {
            Ok(_) => assert!(rt; false, "no edit"),
            Err(error) => assert_eq!(rt; error, EditError::BadShape { at }),
        }
    }
    Ok(())
}
