//! Tests of the engine, on the device in memory.
//!
//! It gives nothing to other crates. A crate with tests of its own is proved twice, so those of the engine stand here.
//! The workloads of `cases` at the top of the repository try the rest of it, by the built program.
#![tactic(auto)]

#[cfg(test)]
mod resumes;
