// Full segments.
use keel_mem::Mem;

/// The rows of published batches that are in no table and that no further ones join, and the numbers of the logs that have
/// them.
#[derive(Drop)]
pub(crate) struct Segment {
    pub(crate) mem: Mem,
    pub(crate) logs: Vec<u64>,
}
