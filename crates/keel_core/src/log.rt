// The log of the active segment.
ghost use Rattle.std.specs.Prelude.{◌≡◌, IsSome, option_map};
ghost use Rattle.keel_machine.specs.States.{new_log};
ghost use Rattle.keel_machine.specs.WritingAfter.{failure_of};
ghost use Rattle.keel_core.specs.Flights.{log_shown};

use keel_base::{Failure, Fault, Reason};

/// The log that batches are appended to, whose name is firm, how many bytes were appended, and whether a call on it failed.
#[derive(Clone, Copy, Debug)]
pub(crate) struct OwnLog {
    pub(crate) number: u64,
    pub(crate) size: u64,
    pub(crate) failed: bool,
}

/// The failure of a call that writes a log.
pub(crate) fn log_failure(fault: Fault) -> Failure
    ensures { result ≡ failure_of fault }
{
    Failure {
        reason: Reason::Wal,
        fault,
    }
}

impl OwnLog {
    ghost use Rattle.std.specs.Prelude.{false};

    /// The log in an empty file of that number, whose name is firm.
    pub(crate) fn new(number: u64) -> OwnLog
        ensures { result ≡ record { number = number; size = 0; failed = false } }
    {
        OwnLog {
            number,
            size: 0,
            failed: false,
        }
    }
}

/// The log of that number where there is one.
pub(crate) fn log_of(number: Option<u64>) -> Option<OwnLog>
    ensures shown { log_shown result ≡ option_map new_log number }
    ensures some { IsSome number → IsSome result }
{
    match number {
        Some(number) => Some(OwnLog::new(number)),
        None => None,
    }
}
