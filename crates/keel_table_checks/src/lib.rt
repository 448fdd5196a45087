//! Tests of tables and of reads through them, on the device in memory.
//!
//! It gives nothing to other crates. A crate with tests of its own is proved twice, so those of the tables stand here.
#![tactic(auto)]

#[cfg(test)]
mod levels;
#[cfg(test)]
mod tables;
