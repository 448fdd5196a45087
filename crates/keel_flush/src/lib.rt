//! The job that flushes a segment.
//!
//! A flush makes a table of the oldest full memtable, and then the edit that brings it to the version. Each step makes
//! at most one call of the device:
//!
//! - of the table `create`, an `append` for each block and one for the index with the footer, and `sync`;
//! - the `sync_dir` that makes its name firm;
//! - of the edit the `append` to the manifest in use, and its `sync`.
//!
//! The table and its name are firm before the edit that brings it is appended. The edit leaves the segment's log behind.
//! It tells the log of the next segment as the first that is needed, and the segment's last number as the last that is
//! in tables. So a crash leaves the table or the log.
//!
//! - `FlushJob::new` makes the table of a memtable in memory: that of the newest row of each key (`Begins`,
//!   `IsTableFor`).
//! - `step` makes the next call of the plan (`JobSteps`; the plan and what each call asks stand in `specs/Plans`).
//!   Memory is taken before the call, so that where it is wanting all is as before. Behind a failure the job makes no
//!   further call.
//! - `ahead` tells whether the next call draws a file's number or appends the edit, `ends` whether it is the last one,
//!   and `over` whether there is one.
//! - `table`, `added` and `last_seq` tell what the job brings: the number of its table, the table's entry, and the
//!   segment's last number.
//!
//! It stands on tables in memory (`keel_draft`), edits (`keel_edit`), the manifest in use (`keel_manifest`) and the
//! device (`keel_disk`).
#![tactic(auto)]

mod course;
mod job;
mod stage;

pub use job::FlushJob;
