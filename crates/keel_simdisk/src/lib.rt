//! A device in memory, which fails and crashes as it is told.
//!
//! `SimDisk` meets `Disk` and `Device`. Beside their clauses each of its calls has one more, `exact`: it says which
//! answer comes and what stands behind it, of every call that isn't answered `OutOfMemory`. Behind that answer all
//! is as before.
//!
//! - An append, sync, rename or cut of an absent file, and an append to a file with a waiting cut, fail with `Plain`.
//! - Then the first armed failure of the call's kind that has times left decides.
//! - Then an append for which the capacity leaves no room fails with `NoSpace`.
//! - A crash leaves exactly the image that was picked, and counts it where it is forged.
//!
//! `laws` has that this leaves no choice.
//!
//! A `SimDisk` keeps the model's own soundness in its type: names and files go one to one, whatever waits.
//!
//! It stands on the model of `keel_disk`, on `keel_frag` for what is forged, and on `keel_name` for the order of
//! listings.
#![tactic(auto)]

mod changes;
mod crash;
mod files;
pub mod laws;
mod listing;
mod medium;
mod names;
mod noted;
mod rules;
mod sim_disk;
mod tree;

pub use sim_disk::SimDisk;
