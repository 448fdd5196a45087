//! Tests of the language of workloads: the lines of an input, the commands that they say, and replies.
//!
//! It gives nothing to other crates. A crate with tests of its own is proved twice, so those of `keel_lines` and
//! `keel_script` stand here. Which lines are refused, and what is answered, shows in the workloads of `cases` at the top
//! of the repository; the replies here are those that no workload shows yet.
#![tactic(auto)]

#[cfg(test)]
mod commands;
#[cfg(test)]
mod lines;
#[cfg(test)]
mod replies;
