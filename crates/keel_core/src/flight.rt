// The group in flight.
ghost use Rattle.std.specs.Prelude.{◌≡◌};
ghost use Rattle.keel_core.specs.Queues.{first_act};

use keel_base::Batch;

/// What a call of a group is for.
#[derive(Clone, Copy, Debug)]
pub(crate) enum Act {
    /// The log of a full segment gets firm.
    CloseLog,
    /// Another log is made.
    MakeLog,
    /// The name of the log that was made gets firm, and another segment is active.
    SyncDirectory { log: u64 },
    /// The records of the group's batches are appended to the active log.
    AddRecords,
    /// What was appended gets firm.
    SyncLog,
}

/// The group in flight, which has its batches until they are handed to the log.
#[derive(Drop)]
pub(crate) struct Flight {
    pub(crate) tickets: Vec<u64>,
    pub(crate) batches: Vec<Batch>,
    /// Whether the group began behind a full segment.
    pub(crate) switches: bool,
    /// Whether a sync of the log follows the append.
    pub(crate) sync: bool,
    pub(crate) next: Act,
}

/// Behind a full segment a group begins with its log.
pub(crate) fn first_act(switches: bool) -> Act
    ensures { result ≡ first_act switches }
{
    if switches {
        Act::CloseLog
    } else {
        Act::AddRecords
    }
}

impl Act {
    ghost use Rattle.keel_core.specs.Flights.{makes_log};

    /// Whether it draws a file's number.
    pub(crate) fn draws(self) -> bool
        ensures { result ≡ makes_log self }
    {
        matches!(self, Act::MakeLog)
    }
}
