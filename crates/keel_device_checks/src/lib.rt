//! Tests of both devices: the one in memory, and a folder of the host.
//!
//! It gives nothing to other crates. A crate with tests of its own is proved twice, so those of the devices stand here.
#![tactic(auto)]

#[cfg(test)]
mod calls;
#[cfg(test)]
mod in_folder;
#[cfg(test)]
mod in_memory;
