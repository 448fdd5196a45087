//! The job that leads a store to a new manifest.
//!
//! A store that was opened has the batches of its logs in memtables. The job makes a table of each of them, then a new
//! log, and then the roll to a new manifest whose one edit brings the tables and leaves the old logs behind. Each step
//! makes at most one call of the device:
//!
//! - of each table `create`, an `append` for each block and one for the index with the footer, and `sync`;
//! - of the log `create`, and the `sync_dir` that makes the names of tables and log firm;
//! - the eight calls of the roll, from the `create` of the manifest to the `sync_dir` behind its rename.
//!
//! A table is firm before the edit that brings it is appended, and the manifest is firm before CURRENT names it.
//!
//! - `ResumeJob::new` begins with the tables that the version has, and `cover` puts the table of a memtable behind the
//!   others. It is the table of the newest row of each key (`Covers`, `IsTableFor`).
//! - `step` makes the next call of the plan (`JobSteps`; the plan and what each call asks stand in `specs/Plans`).
//!   Memory is taken before the call, so that where it is wanting all is as before. Behind a failure the job makes no
//!   further call.
//! - `ahead` tells whether the next call draws a file's number, `over` whether there is one.
//! - `log`, `manifest` and `into_tables` give what the job made. Behind the last call they take no memory.
//!
//! It stands on tables in memory (`keel_draft`), edits (`keel_edit`), the roll (`keel_manifest`) and the device
//! (`keel_disk`).
#![tactic(auto)]

mod course;
mod job;
mod stage;
mod tables;

pub use job::ResumeJob;
