// What a step of the deleter answers.
use keel_base::{Fault, FileName};

/// What a step did.
#[derive(Clone, Copy, Debug, PartialEq, Eq)]
pub enum DeleteStep {
    /// No file waits to be deleted.
    Idle,
    /// The first trash file isn't due before this tick.
    Wait { until: u64 },
    /// A file that isn't tracked is gone.
    Purged(FileName),
    /// A retired table has its trash name.
    Trashed(FileName),
    /// A trash file was cut to this length, in bytes.
    Cut { name: FileName, length: u64 },
    /// A table or a trash file is gone.
    Removed(FileName),
    /// The device failed. The entry is at the end of its queue.
    Refused(Fault),
    /// Memory was refused, and all is as before.
    OutOfMemory,
}
