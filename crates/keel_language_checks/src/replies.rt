// From a reply to its line.
use keel_base::{Call, Counter, Failure, Fault, FileName, Grade, Reason, SlotName};
use keel_script::{Reply, print_reply};
use std::alloc::Global;

const FAILURE: Failure = Failure {
    reason: Reason::Compaction,
    fault: Fault::DataLoss,
};

// Whether a reply is printed as this line.
fn is_printed(alloc: Global, reply: &Reply, line: &[u8]) -> bool {
    match print_reply(alloc, reply) {
        Ok(printed) => printed.as_slice() == line,
        Err(_) => false,
    }
}

#[test]
fn a_refused_opening_is_printed(rt: HostRuntime) {
    let alloc = rt.alloc();
    assert!(rt;
        is_printed(
            alloc,
            &Reply::RefusedDamagedManifest { at: 33 },
            b"refused damaged-manifest 33"
        )
    );
    assert!(rt;
        is_printed(
            alloc,
            &Reply::RefusedMissingTable { number: 4 },
            b"refused missing-table 4"
        )
    );
    assert!(rt;
        is_printed(
            alloc,
            &Reply::RefusedBadTable { number: 5 },
            b"refused bad-table 5"
        )
    );
}

#[test]
fn a_write_that_waits_is_printed(rt: HostRuntime) {
    let alloc = rt.alloc();
    assert!(rt;
        is_printed(
            alloc,
            &Reply::Spent(Counter::FileNumber),
            b"spent file-number"
        )
    );
    assert!(rt;
        is_printed(
            alloc,
            &Reply::Full {
                active: 65536,
                immutables: 2
            },
            b"full 65536 2"
        )
    );
    assert!(rt; is_printed(alloc, &Reply::Booting, b"booting"));
}

#[test]
fn a_step_is_printed(rt: HostRuntime) {
    let alloc = rt.alloc();
    assert!(rt;
        is_printed(
            alloc,
            &Reply::Moved {
                job: 1,
                call: Call::SyncDir
            },
            b"moved 1 sync-dir"
        )
    );
    assert!(rt;
        is_printed(
            alloc,
            &Reply::Blocked(SlotName::Compact1),
            b"blocked compact-1"
        )
    );
    assert!(rt;
        is_printed(
            alloc,
            &Reply::Cancelled { job: 3, current: 4 },
            b"cancelled 3 4"
        )
    );
}

#[test]
fn a_deletion_is_printed(rt: HostRuntime) {
    let alloc = rt.alloc();
    assert!(rt;
        is_printed(
            alloc,
            &Reply::Purged(FileName::Temp(2)),
            b"purged 000002.dbtmp"
        )
    );
    assert!(rt;
        is_printed(
            alloc,
            &Reply::Cut {
                name: FileName::Trash(7),
                length: 0
            },
            b"cut 000007.sst.trash 0"
        )
    );
    assert!(rt;
        is_printed(
            alloc,
            &Reply::DeleteRefused(Fault::Fenced),
            b"refused fenced"
        )
    );
}

#[test]
fn a_resumption_is_printed(rt: HostRuntime) {
    let alloc = rt.alloc();
    assert!(rt;
        is_printed(
            alloc,
            &Reply::Beyond(FAILURE),
            b"beyond compaction data-loss"
        )
    );
    assert!(rt;
        is_printed(
            alloc,
            &Reply::JobCleared { job: 8, steps: 12 },
            b"cleared 8 12"
        )
    );
    assert!(rt; is_printed(alloc, &Reply::GivenUp { attempts: 16 }, b"given-up 16"));
}

#[test]
fn an_error_is_printed(rt: HostRuntime) {
    let error = Reply::Error {
        failure: FAILURE,
        grade: Grade::Unrecoverable,
    };
    assert!(rt; is_printed(rt.alloc(), &error, b"error compaction data-loss 4"));
}

#[test]
fn levels_are_printed(rt: HostRuntime) {
    let alloc = rt.alloc();
    let level = Reply::Level {
        level: 3,
        files: 2,
        bytes: 100,
    };
    assert!(rt; is_printed(alloc, &level, b"level 3 2 100"));
    let memory = Reply::Memory {
        active: 1,
        immutables: 2,
        waiting: 3,
    };
    assert!(rt; is_printed(alloc, &memory, b"memory 1 2 3"));
}
