//! Table files: rows in the order of their keys, in blocks that are read one at a time.
//!
//! A table is made by a `Builder`, row by row, and appended piece by piece. `open_table` reads its footer and its index
//! and tests them. A `Table` keeps both, and reads one block, with its tests, for each `get`.
//!
//! The format is this project's own. All numbers are little-endian, and offsets are in bytes from 0.
//!
//! - A row: its sequence number (8 bytes), its kind (1 byte: put 1, delete 0), the lengths of its key (4) and its value
//!   (4), key and value. A key has 1 to 1024 bytes, a value at most 65536, and that of a delete none. The keys rise.
//! - A block: rows and their check (4). It is closed once its rows have 4096 bytes or more, or at the table's end.
//! - The index: for each block its offset (8), the length of its rows (4), the length of its last key (4), this key;
//!   then the check of all this (4).
//! - The footer, the last 48 bytes: the offset of the index (8), the length of its entries (4), the number of blocks (4)
//!   and of rows (8), the least and the greatest sequence number (8 each), the bytes `KTB1`, and their check (4).
//!
//! A check is CRC32C, masked as RocksDB does it.
//!
//! What is promised:
//!
//! - The pieces of a builder, one behind the other, are the table of its rows: `IsTableOf` of `specs/Spelling`. Each
//!   block is one, and the index and the footer are one. A builder tells how many it gave, and their bytes.
//! - What opening, a block and a `get` answer is what `opened`, `block_found` and `row_found` of `specs/Opening` say of
//!   the file's bytes, with the offset of the first thing that is wrong. Where a file isn't there, they say so.
//! - Over any device, one that tells nothing too, the rows of a block are rows, and rise up to the key that the index
//!   tells: `FitEntry` of `specs/Blocks`. So the blocks of a table can be merged or copied as they are read.
//! - All rows of the blocks before `first_block` are below its key.
//! - `open_bytes` and `block_in` answer the same of a table whose bytes are in memory.
//! - A device's fault is handed on only where the device counted it. Want of memory changes nothing.
//! - `laws`: a table opens, with the entries of its blocks, and each block gives its rows; what reads well as a block,
//!   an index or a footer is what spells it; blocks that are read in order have rows that ascend when they are joined;
//!   and how large tables are.
//!
//! It stands on `keel_fields` for reading, on the checks of `keel_frag`, and on any device of `keel_disk`.
#![tactic(auto)]

mod block;
mod builder;
mod checking;
mod fault;
mod in_memory;
mod index;
pub mod laws;
mod opening;
mod reading;
mod spelling;
mod table;
mod view;

pub use builder::{Builder, FinishRefused, Pieces};
pub use fault::TableFault;
pub use in_memory::{block_in, open_bytes};
pub use index::{BlockEntries, BlockEntry, Footer};
pub use opening::open_table;
pub use table::Table;
