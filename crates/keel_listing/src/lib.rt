//! Listings: which log of a listing comes next, and what a listing and the names of a directory say of its files.
//!
//! - `next_log` is the log with the least number of a listing from one on, with its size, or none where no such log is
//!   listed (`IsNextIn` of `specs/Logs`). Whoever asks again from one more than its number on goes through all logs
//!   from the first number on once, from the oldest to the newest, also where the listing has another order.
//! - `specs/Names`: each file of a directory has a name of the store (`AreNames`), as on every device that calls and
//!   crashes leave.
//!
//! Lemmas for the crates above, in `proofs`:
//!
//! - `Telling`: where a device tells its listing, a name of the store that is listed has a file in the device's image,
//!   and one that isn't has none; the size listed for the next log is its file's.
//! - `Names`: what is listed has a name of the store; other names aren't found in a directory; and a device as calls
//!   and crashes leave it has names of the store alone.
//! - `Files`: the image of a device has the bytes that the device tells.
//!
//! It stands on names and entries of `keel_base`, and on the device of `keel_disk` with what it tells of its directory.
#![tactic(auto)]

mod logs;

pub use logs::{ListedLog, next_log};

#[cfg(test)]
mod tests;
