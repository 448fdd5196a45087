use crate::{Due, Handler, Noted, laws};
use keel_base::{Failure, Fault, Grade, Reason};
use std::test::Fail;

fn failure(reason: Reason, fault: Fault) -> Failure {
    Failure { reason, fault }
}

#[test]
fn the_first_of_the_worst_failures_stands(rt: HostRuntime) -> Result<(), Fail> {
    let no_space = failure(Reason::Compaction, Fault::NoSpace);
    let plain = failure(Reason::Flush, Fault::Plain);
    let mut handler = Handler::new(true, false, 16, 1000);
    for (noted, answer, standing, stops) in [
        (no_space, Noted::Replaced, no_space, false),
        (plain, Noted::Replaced, plain, true),
        (
            failure(Reason::Wal, Fault::Retryable),
            Noted::Kept,
            plain,
            true,
        ),
        (failure(Reason::Wal, Fault::Plain), Noted::Kept, plain, true),
    ] {
        assert_eq!(rt; handler.note(noted), answer);
        assert_eq!(rt; handler.standing(), Some(standing));
        assert_eq!(rt; handler.stops(), stops);
        // Automatic recovery is off, so that the milder error stops background work, too.
        assert!(rt; handler.work_stops());
    }
    laws::one_standing();
    laws::standing_is_found();
    handler.clear();
    assert_eq!(rt; handler.standing(), None);
    assert!(rt; !handler.work_stops());
    Ok(())
}

#[test]
fn a_doubtful_failure_is_graded_by_the_setting(rt: HostRuntime) {
    let full = failure(Reason::Flush, Fault::NoSpace);
    for (paranoid, grade) in [(true, Grade::Hard), (false, Grade::NoError)] {
        assert_eq!(rt; Handler::new(paranoid, true, 1, 1).grade(full), grade);
    }
}

/// A handler over a standing error of this reason and fault, behind one attempt that ended at a tick where there is one.
fn tried(failed: Failure, attempts: u32, interval: u64, ended: Option<u64>) -> Handler {
    let mut handler = Handler::new(true, true, attempts, interval);
    let _ = handler.note(failed);
    if let Some(tick) = ended {
        if attempts > 0 {
            handler.begin_attempt();
        }
        handler.end_attempt(tick);
    }
    handler
}

#[test]
fn attempts_are_due_in_intervals(rt: HostRuntime) -> Result<(), Fail> {
    let retryable = failure(Reason::Wal, Fault::Retryable);
    let last = u64::MAX;
    for (failed, attempts, interval, ended, now, answer) in [
        (retryable, 2, 10, None, 0, Due::Now),
        (retryable, 2, 10, Some(5), 14, Due::Wait { until: 15 }),
        (retryable, 2, 10, Some(5), 15, Due::Now),
        (retryable, 2, 0, Some(5), 5, Due::Now),
        (retryable, 0, 10, None, 0, Due::GivenUp { attempts: 0 }),
        (retryable, 1, 10, Some(5), 0, Due::GivenUp { attempts: 1 }),
        (
            retryable,
            2,
            10,
            Some(last - 4),
            last - 1,
            Due::Wait { until: last },
        ),
        (retryable, 2, 10, Some(last), last, Due::Now),
        (failure(Reason::Wal, Fault::Plain), 2, 10, None, 0, Due::No),
        (
            failure(Reason::Wal, Fault::SpaceLimit),
            2,
            10,
            None,
            0,
            Due::No,
        ),
        (
            failure(Reason::Compaction, Fault::Retryable),
            2,
            10,
            None,
            0,
            Due::No,
        ),
        (
            failure(Reason::Compaction, Fault::NoSpace),
            2,
            10,
            None,
            0,
            Due::Now,
        ),
    ] {
        assert_eq!(rt; tried(failed, attempts, interval, ended).due(now), answer);
    }
    // Having given up is said once; a clear begins anew.
    let mut handler = tried(retryable, 0, 10, None);
    assert_eq!(rt; handler.due(7), Due::GivenUp { attempts: 0 });
    assert_eq!(rt; handler.due(7), Due::No);
    handler.clear();
    let _ = handler.note(retryable);
    assert_eq!(rt; handler.due(7), Due::GivenUp { attempts: 0 });
    Ok(())
}
