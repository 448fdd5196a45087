//! Log files: the log that takes the groups of writes, the way to the next one, and what logs give back.
//!
//! - `Log` is the log in use. `append_group` and `sync` make one call of the device each, and `rotate_step` the next call of
//!   a rotation to another log. What they ask and leave is in `specs/Logs`.
//! - `LogProgress` is how far a log has come: it takes groups, or a rotation is under way, or a call failed.
//! - `replay` reads the logs of a device from a number on. Where the device tells its directory, the answer is that of
//!   its bytes by `LogsAre` of `keel_directory` (`ReplayAnswers` of `specs/Replays`).
//! - `laws`: a device as calls and crashes leave it is one of which that is said.
//!
//! It stands on the device (`keel_disk`), on what logs give (`keel_directory`), and on listings (`keel_listing`).
#![tactic(auto)]

pub mod laws;
mod log;
mod reading;

pub use log::{Log, LogProgress, Rotated};
pub use reading::{ReplayError, Replayed, replay};

#[cfg(test)]
mod tests;
