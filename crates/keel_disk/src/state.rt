// The parts of a device's state.

use keel_base::{Bytes, FileName};

/// A file. A crash leaves at least its first `firm` bytes.
#[derive(Debug, Drop)]
pub struct File {
    /// All bytes that were handed in.
    pub meant: Bytes,
    pub firm: usize,
    /// An append or a sync failed: no later sync makes it firm.
    pub spoilt: bool,
    /// What a read gives.
    pub read: Bytes,
}

/// A change of a directory that isn't firm yet. Files go by number.
#[derive(Clone, Copy, Debug)]
pub enum Operation {
    Link { name: FileName, file: usize },
    Move { from: FileName, to: FileName },
    Unlink { name: FileName },
    Shorten { file: usize, length: usize },
}
