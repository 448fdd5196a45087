//! What a crash may leave of a store's story.
//!
//! Whatever call fails and wherever a crash falls, each opening gives the map after a prefix of the order of logged
//! writes, which holds every acknowledged synced write, unless the check of a torn record matched by chance. `laws` and
//! `boot_laws` say it in steps.
//!
//! A device keeps a story (`specs::Keeping`) where CURRENT names manifests each of whose versions a crash may bring back,
//! where the tables of each such version are firm and say what the story says at a place, and where logs hold the batches
//! behind that place. Then it stands for the story (`keeping_stands`, from `way_reads`), and this is the one place where
//! images are looked at. Each kind of call of a store that writes leaves what is kept, whatever the answer: a new log
//! (`create_makes`, `create_keeps`, `sync_dir_keeps`), batches that are appended, synced and published
//! (`log_append_keeps`, `log_sync_keeps`, `publish_keeps`). A store that boots keeps more (`specs::Booting`): an opening
//! leaves it so (`opening_boots`), each call of the boot keeps it so or clears it (`boot_call_keeps`, with `roll_gives` for
//! the edit of its roll), and its device stands for the story (`booting_stands`). A crash,
//! between calls or inside one (`call_leaves_prefix`), leaves a device that stands for a prefix of the story
//! (`crash_leaves_prefix`, `reading_leaves_prefix`).
//!
//! A store that flushes has a manifest in use to which one edit more may be appended (`specs::Flushes`). `flush_laws` says
//! what each call of a flush leaves: the table (`table_create_keeps`, `table_append_keeps`, `table_sync_keeps`,
//! `table_name_keeps`), the edit (`edit_append_keeps`, `edit_sync_keeps`, with `edit_gives` for the version that it gives), and
//! the end, behind which the segment's log is needed no more (`flush_ends`). Between the edit's append and its sync a crash
//! leaves the manifest with it or without, and the logs go on from both versions.
//!
//! Of the machine as a whole it says that its device is covered from a device at rest on (`starts_covered`), so that the
//! device of a machine with a story always stands for it (`turn_keeps`, `covered_stands`) and bears out what reads say
//! (`covered_bears`). Whatever a crash leaves is a turn as well (`crash_turns`), and one inside a step's call leaves a
//! prefix of the story before it or behind it (`inside_step`, `steps_are_safe`, `resumes_are_safe`,
//! `flushes_are_safe`). Behind a crash the directory reads as the
//! point that the story leads to (`covered_reads`), so that an opening which goes on with the story is refused for a fault
//! of the device or for want of memory alone (`opening_goes_on`). All this is of a device that is known to bear out the
//! story, as it is until its count of forged images rises (`footing_stays`).
//!
//! There is nothing here to run.
#![tactic(auto)]

pub mod boot_laws;
pub mod flush_laws;
pub mod laws;
#[cfg(test)]
mod tests;
