// The parts of a table behind its blocks.
use keel_base::{Bytes, Sequence};

/// What the index tells of a block.
#[derive(Debug, Drop)]
pub struct BlockEntry {
    /// Where it begins in the file.
    pub offset: u64,
    /// The bytes of its rows.
    pub size: u32,
    /// The key of its last row.
    pub last: Bytes,
}

/// The entries of a table's blocks, in their order.
pub type BlockEntries = Sequence<BlockEntry>;

/// What the last bytes of a table tell.
#[derive(Clone, Copy, Debug)]
pub struct Footer {
    /// Where the index begins in the file.
    pub index: u64,
    /// The bytes of its entries.
    pub size: u32,
    pub blocks: u32,
    pub rows: u64,
    /// The least sequence number that a row of the table may have.
    pub first: u64,
    /// The greatest.
    pub last: u64,
}
