//! Tests that stand on several layers and that no workload can say: logs and their rotation, the deleter, and what a
//! crash may leave of manifests, over the device in memory. Openings, boots and flushes are tested by workloads.
//!
//! It gives nothing to other crates. The layers' own tests need no device, so that a change of the device in memory
//! proves the program and these tests again, and no layer between.
#![tactic(auto)]

#[cfg(test)]
mod deletions;
#[cfg(test)]
mod logs;
#[cfg(test)]
mod manifests;
