// What the queue of waiting batches answers.
use keel_base::Batch;

/// The most batches that wait.
pub const MAX_WAITING: u32 = 64;

/// What the batches of a group weigh together at most, unless it is one batch.
pub const MAX_GROUP_WEIGHT: u64 = 1_048_576;

/// What became of a batch that was to join the queue.
#[derive(Clone, Copy, Debug, PartialEq, Eq)]
pub enum Joined {
    Queued,
    /// So many batches wait, as many as may.
    QueueFull { waiting: u32 },
    OutOfMemory,
}

/// A group: its batches in the order in which they joined, and their tickets.
#[derive(Debug, Drop)]
pub struct Formed {
    pub batches: Vec<Batch>,
    pub tickets: Vec<u64>,
    /// Whether one of the batches is acknowledged only once it is firm.
    pub sync: bool,
}
