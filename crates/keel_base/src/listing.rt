// The files of a directory.
use crate::{FileName, Sequence};

/// A file of a directory, with its size in bytes.
#[derive(Clone, Copy, Debug)]
pub struct Entry {
    pub name: FileName,
    pub size: u64,
}

/// The files of a directory.
pub type Listing = Sequence<Entry>;
