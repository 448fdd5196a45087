//! The deletion of files, after RocksDB's DeleteScheduler.
//!
//! - `Trash` has three queues: files to be purged, retired tables, and trash. A retired table is removed at once, or gets
//!   its trash name and is cut and removed slowly, so that the device isn't swamped.
//! - `delete_step` makes the next deletion, at most one call on the device. Which one it is, or until when it waits, is a
//!   function of the queues, the tracked files and the tick (`next_of`), and so is what it leaves (`Steps`).
//! - What the device refuses comes to the end of its queue. A table whose rename was refused may have either name, and both
//!   are removed.
//! - Law: the count of deleted bytes has an end, which no wait shows.
//!
//! Memory is taken by `grow` alone. It stands on `keel_disk` for the calls, and on `keel_space` for the tracked sizes.
#![tactic(auto)]

mod deletion;
mod entry;
mod formulas;
pub mod laws;
mod step;
mod trash;

pub use entry::{Names, Retired};
pub use step::DeleteStep;
pub use trash::Trash;
