//! Merging lists of rows, as a compaction does with its tables.
//!
//! - `Merge` hands out the rows of some lists, each in the order of keys, as one list in that order: for each key the
//!   newest of all its rows, without deletes where there is no level below (`specs/Merging`). The lists are fed piece by
//!   piece: it asks for the next rows of a list when it needs them, and takes no memory itself.
//! - Contracts speak of the rows that may still come to the lists (`specs/Feeding`). For all of them the row that is
//!   handed out is the next of the merge, so that no refill changes it; and at the end all were handed out.
//! - `laws` says that rows have one merge, which has the newest rows and no others, and leaves the map that they leave.
//!
//! Stands on `keel_base`, for rows and their keys.
#![tactic(auto)]

mod input;
pub mod laws;
mod look;
mod merge;
mod next;
mod rows;

pub use merge::Merge;
pub use next::Next;

#[cfg(test)]
mod tests;
