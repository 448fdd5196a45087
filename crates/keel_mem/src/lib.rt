//! A memtable: the rows of published batches, in memory, until they are in a table.
//!
//! - `Mem::reserve` takes the memory that a batch needs, and `put_reserved` then puts its rows, which can't fail. Contracts see
//!   the rows in the order of their arrival, and the room that is reserved and not used yet.
//! - `get` gives the newest row of a key. `rows` gives all rows by key, and of one key the newest first.
//! - `laws` has what the rows are of the map: what the batches made of it.
//!
//! The bytes stand in a `Region` and the entries in an `Index` of `keel_region`.
#![tactic(auto)]

mod found;
pub mod laws;
mod mem;
mod rows;
mod sizes;

pub use found::Found;
pub use mem::{MAX_MEM_WEIGHT, Mem};
pub use rows::{MemRow, MemRows};

#[cfg(test)]
mod tests;
