//! The manifest: the log of a store's edits, the file CURRENT that names it, and the way to another one.
//!
//! - `read_current` reads which manifest CURRENT names.
//! - `Manifest` is the manifest in use. `edit_append` and `edit_sync` make an edit firm with one call of the device each.
//!   `doubts` lists what the answers so far leave open: at which manifest CURRENT may be after a crash, and with how many
//!   of its edits.
//! - `Roll` is the way to a new manifest with one edit, in eight calls, one a step: `Manifest::roll_step` makes the next.
//!   From the rename on the new manifest is in doubt beside the old one, and after the last call it alone is in use.
//! - `JobMove`, `Ahead`, `Made` and `NextFile` are what the jobs of a store share: what a step answers, what the next call
//!   draws, which files a job has made, and the number of the next file.
//!
//! It stands on the device (`keel_disk`), records (`keel_frag`), edits (`keel_edit`) and names (`keel_name`).
#![tactic(auto)]

mod current;
mod doubts;
mod jobs;
mod manifest;
mod roll;

pub use current::{CurrentError, read_current};
pub use doubts::Doubt;
pub use jobs::{Ahead, JobMove, Made, NextFile};
pub use manifest::{InUse, Manifest, Progress};
pub use roll::{Roll, RollCall, Rolled};
