// The answers of the calls that aren't steps.
use keel_base::{Bytes, Counter, Failure, Rows};
use keel_table::TableFault;

/// Whether a batch is taken in. Only a queued batch changes anything.
#[derive(Clone, Copy, Debug)]
pub enum Admit {
    /// Its outcome is kept under this ticket.
    Queued { ticket: u64 },
    /// This part of the batch has a length, a count or a weight outside the limits.
    BadSize { part: Part, length: u64 },
    /// The store was closed.
    Closing,
    /// The boot of this opening hasn't cleared.
    Booting,
    /// This failure stands, and nothing is written any more.
    Stopped(Failure),
    /// This counter would pass its end.
    Spent(Counter),
    /// The active segment is full, and as many others as may be are: it weighs so many bytes, and the others are so many.
    Full { active: u64, immutables: u32 },
    /// So many batches wait already.
    QueueFull { waiting: u32 },
    OutOfMemory,
}

/// What of a batch is outside its limits.
#[derive(Clone, Copy, Debug)]
pub enum Part {
    /// A key's length in bytes isn't 1 to 1024.
    Key,
    /// A value has more than 65,536 bytes.
    Value,
    /// The batch hasn't 1 to 1000 ops, or its weight is over 1,048,576.
    Batch,
}

/// What became of a batch that was queued.
#[derive(Clone, Copy, Debug)]
pub enum Outcome {
    /// It waits, or its group is in flight.
    Waiting,
    /// It is published, and its last op has this sequence number.
    Done { seq: u64 },
    /// A call of its group failed. A later opening may still show it.
    Failed(Failure),
    /// This failure stood before its group was formed.
    Turned(Failure),
    /// The store was closed before. A later opening may still show it.
    Closed,
    /// The ticket was never given, or its outcome was taken.
    Unknown,
}

/// What became of a call that asks for a resume. Only `Cleared` and `Started` change anything.
#[derive(Clone, Copy, Debug)]
pub enum Start {
    /// The store was closed.
    Closing,
    /// Neither writes nor background work are stopped.
    Nothing,
    /// The boot or resume of this number was started already and isn't over.
    Busy { job: u64 },
    /// This failure stands, and it is too severe for a resume.
    Beyond(Failure),
    /// The failure that stood stopped background work alone, and is forgotten.
    Cleared,
    /// This counter would pass its end.
    Spent(Counter),
    /// A resume has this number, and its calls are made by resume steps. The group in flight and the flush are cancelled.
    Started { job: u64 },
}

/// What a key has.
#[derive(Debug, Drop)]
pub enum Got {
    Value(Bytes),
    Absent,
    /// The table of this number wasn't read.
    ReadFault { number: u64, fault: TableFault },
    OutOfMemory,
}

/// What keys in a range have.
#[derive(Debug, Drop)]
pub enum Scanned {
    /// The puts that count, by key.
    Rows(Rows),
    /// The table of this number wasn't read.
    ReadFault { number: u64, fault: TableFault },
    OutOfMemory,
}

/// What a level holds.
#[derive(Clone, Copy, Debug)]
pub struct LevelView {
    /// How many tables, up to 4,294,967,295.
    pub files: u32,
    /// How many bytes they have together.
    pub bytes: u128,
}

/// What the levels and the memory hold.
#[derive(Clone, Copy, Debug)]
pub struct LevelsView {
    pub level0: LevelView,
    pub level1: LevelView,
    pub level2: LevelView,
    pub level3: LevelView,
    /// The weight of the active segment.
    pub active: u64,
    /// How many full segments there are.
    pub immutables: u32,
    /// How many batches wait.
    pub waiting: u32,
}
