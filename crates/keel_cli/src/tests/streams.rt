// Streams that fail.
use crate::run_words;
use crate::tests::{sink_of, source_of, word_of};
use keel_simdisk::SimDisk;
use std::alloc::Global;
use std::process::Abort;
use std::test::Fail;

// Which call of each stream fails, counted from 0.
#[derive(Clone, Copy)]
struct Failing {
    read: Option<u64>,
    write: Option<u64>,
    message: Option<u64>,
}

const NONE: Failing = Failing {
    read: None,
    write: None,
    message: None,
};

// How a run is to end.
#[derive(Clone, Copy)]
struct Wanted<'a> {
    status: u8,
    out: &'a [u8],
    err: &'a [u8],
}

// Runs an input with failing streams, and compares how it ends.
fn check<R: Abort + AllocGlobal>(
    rt: &R,
    input: &[u8],
    failing: Failing,
    wanted: &Wanted<'_>,
) -> Result<(), Fail> {
    let alloc = rt.alloc();
    let words = word_of(alloc, "run")?;
    let ended = run_words(
        alloc,
        &words,
        source_of(alloc, input, failing.read)?,
        sink_of(alloc, failing.write)?,
        sink_of(alloc, failing.message)?,
        SimDisk::new(alloc, 1073741824),
    );
    assert_eq!(rt; ended.status, wanted.status);
    assert_eq!(rt; ended.out.held(), wanted.out);
    assert_eq!(rt; ended.err.held(), wanted.err);
    Ok(())
}

#[test]
fn a_run_is_answered(rt: HostRuntime) -> Result<(), Fail> {
    let wanted = Wanted {
        status: 0,
        out: b"opened 0\nquiet\nok 1\nvalue 1\n",
        err: b"",
    };
    check(
        &rt,
        b"open\ndrain 100\nput a 1 sync\nget a\n",
        NONE,
        &wanted,
    )
}

// What was taken before the fault was carried out.
#[test]
fn a_read_fault_ends_a_run(rt: HostRuntime) -> Result<(), Fail> {
    let failing = Failing {
        read: Some(1),
        ..NONE
    };
    let wanted = Wanted {
        status: 4,
        out: b"opened 0\n",
        err: b"read fault\n",
    };
    check(&rt, b"open\nget a", failing, &wanted)
}

#[test]
fn a_write_fault_ends_a_run(rt: HostRuntime) -> Result<(), Fail> {
    let failing = Failing {
        write: Some(0),
        ..NONE
    };
    let wanted = Wanted {
        status: 5,
        out: b"",
        err: b"write fault\n",
    };
    check(&rt, b"open", failing, &wanted)
}

#[test]
fn a_fault_of_the_messages_changes_no_status(rt: HostRuntime) -> Result<(), Fail> {
    let failing = Failing {
        message: Some(0),
        ..NONE
    };
    let wanted = Wanted {
        status: 3,
        out: b"opened 0\n",
        err: b"",
    };
    check(&rt, b"open\nput a\n", failing, &wanted)
}
