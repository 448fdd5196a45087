// The answers of the steps, each of which makes one changing call of the device at most.
use keel_base::{Call, Counter, Failure};

/// What a write step did.
#[derive(Clone, Copy, Debug)]
pub enum WriteStep {
    /// No group is in flight and nobody waits.
    Idle,
    /// The group of this number made this call, and has others before it.
    Moved { job: u64, call: Call },
    /// The group made its last call: so many batches are published, up to this sequence number.
    Done { job: u64, seq: u64, batches: u32 },
    /// The group's call failed.
    Failed(Failure),
    /// So many batches that waited are turned away, since this failure stands.
    Turned { batches: u32, failure: Failure },
    /// The active segment is full, and as many others as may be are: it weighs so many bytes, and the others are so many.
    Full { active: u64, immutables: u32 },
    /// The group would draw a number past its end.
    Spent(Counter),
    /// The caller holds another number than the group that is or was last in flight.
    Cancelled { job: u64, current: u64 },
    OutOfMemory,
}

/// What a resume step did.
#[derive(Clone, Copy, Debug)]
pub enum ResumeStep {
    /// No boot or resume is under way, and none is to begin.
    Idle,
    /// The boot or resume of this number made this call, and has others before it.
    Moved { job: u64, call: Call },
    /// It made its last call, with so many steps in all: no failure stands, and writes are taken from now on.
    Cleared { job: u64, steps: u64 },
    /// Its call failed, and it is over.
    Failed(Failure),
    /// It would draw a number past its end.
    Spent(Counter),
    /// The caller holds another number than the boot or resume that is or was last under way.
    Cancelled { job: u64, current: u64 },
    OutOfMemory,
}

/// What a step of a flush did.
#[derive(Clone, Copy, Debug)]
pub enum JobStep {
    /// No segment is full, or background work is stopped, or the boot of this opening hasn't cleared.
    Idle,
    /// The job of this number made this call, and has others before it.
    Moved { job: u64, call: Call },
    /// The job made its last call: its table is in use, and its segment is gone.
    Done { job: u64 },
    /// The job's call failed, and the job is over.
    Failed(Failure),
    /// The job would draw a number past its end.
    Spent(Counter),
    /// The caller holds another number than the job that is or was last under way.
    Cancelled { job: u64, current: u64 },
    OutOfMemory,
}
