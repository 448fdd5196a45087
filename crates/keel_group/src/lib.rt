//! The queue of batches that wait to be written, and the groups that are formed of it.
//!
//! - `WaitQueue` is the queue, first in, first out, of at most `MAX_WAITING` batches. Contracts see it as a list of
//!   batches under their tickets (`specs/Queue`), with how many more have room.
//! - A group is the longest list from the front of the queue that weighs at most `MAX_GROUP_WEIGHT` together, and at
//!   least the first batch (`specs/Sizes`). The bound is 1 MiB, the default of RocksDB's `max_write_batch_group_size_bytes`.
//! - `form` takes the memory of a group and moves it out of the queue. `prepare` and `take_next` are its two halves,
//!   for a caller that takes all memory of a step before it changes anything. So are `reserve` and `join_reserved`
//!   those of `join`.
//! - `laws` says that the size of a group is that of the longest prefix, and that group and rest are the queue.
//!
//! Stands on `keel_base`, for batches and what they weigh.
#![tactic(auto)]

mod formed;
pub mod laws;
mod sizes;
mod wait_queue;

pub use formed::{Formed, Joined, MAX_GROUP_WEIGHT, MAX_WAITING};
pub use wait_queue::WaitQueue;

#[cfg(test)]
mod tests;
