//! Edits of the set of tables as bytes, the records of a manifest: a format byte, three numbers, the tables
//! that go, and the tables that come. The format is this store's own; RocksDB's version edits are its model.
//!
//! Each edit has one spelling (`specs/Spelling`): `encode` gives it, and `decode` reads it and nothing else,
//! naming the place of the first field that isn't there in full or isn't allowed (`specs/Reading`). It
//! stands on `keel_fields`, whose fields are read from left to right. `laws` has what follows for edits as such:
//! no two share a spelling, and how long one is.
#![tactic(auto)]

mod edit;
pub mod laws;
mod reading;
mod writing;

pub use edit::{Added, AddedList, Edit, EditError, Removed, RemovedList};
pub use reading::decode;
pub use writing::encode;

#[cfg(test)]
mod tests;
