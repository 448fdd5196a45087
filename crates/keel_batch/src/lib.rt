//! Batches as bytes, after RocksDB's write batch: a first sequence number, a count, and the ops.
//!
//! Each batch has one spelling (`specs/Spelling`): `encode` gives it, and `decode` reads it and nothing else,
//! naming the place of the first field that isn't there in full or isn't allowed. In a log, a batch is one record.
#![tactic(auto)]

mod batch;
mod reading;
mod writing;

pub use batch::{BatchError, Numbered};
pub use reading::decode;
pub use writing::encode;

#[cfg(test)]
mod tests;
