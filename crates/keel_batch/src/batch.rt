// What is read of a batch.
use keel_base::Ops;

/// Ops with the sequence number of the first. The others are numbered behind it.
#[derive(Debug, Drop)]
pub struct Numbered {
    pub seq: u64,
    pub ops: Ops,
}

/// Why bytes aren't read as a batch.
#[derive(Clone, Copy, Debug, PartialEq, Eq)]
pub enum BatchError {
    /// The place where the first field begins that isn't there in full or isn't allowed, or where bytes follow the last op.
    BadBatch { at: u64 },
    OutOfMemory,
}
