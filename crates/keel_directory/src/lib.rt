//! What a directory with a manifest, tables and logs says as a store.
//!
//! - `read_directory` reads a directory whose files are in memory. It is plain and slow, and its answer is the reading
//!   that is defined here (`Reads` of `specs/Answers`): what faster reading is measured against.
//! - `replay_logs` is what logs that are in memory give: their batches, or the refusal (`LogsGive` of `specs/Replays`).
//! - `laws`: a directory has one reading, which needs few of its files; what a settled device stands for; and that the
//!   logs, the table and the file that a reading picks out are the right ones.
//!
//! The definitions:
//!
//! - `specs/Reading`: the reading of a directory. Without CURRENT it is a new store, or refused. Else CURRENT names a
//!   manifest (`specs/Manifests`), whose edits give a version; its tables are there and open (`specs/TableFiles`); and
//!   the logs from the least number on have batches that run on from the version's last number (`specs/Replays`). What
//!   fails first is the refusal (`specs/Refusals`). Of all rows of all tables and logs the newest of a key counts.
//! - `specs/Sound`: the files are as the store itself makes them.
//! - `specs/Standing`: what it is that a device stands for a story, where it is read so.
//!
//! It stands on the formats: `keel_frag`, `keel_batch`, `keel_edit` with `keel_version`, `keel_table`; and on `keel_disk` for
//! directories and what crashes leave of them.
#![tactic(auto)]

mod answer;
mod files;
pub mod laws;
mod logs;
mod manifest;
mod newest;
mod reading;
mod tables;

pub use answer::{Damaged, Directory, DirectoryRefusal, Held, Pairs};
pub use files::File;
pub use logs::{LogFile, Replayed, replay_logs};
pub use reading::read_directory;

#[cfg(test)]
mod tests;
