//! The store as a machine: its states, its calls, and what each of them may answer.
//!
//! A state is plain data, one record for each part: what the device shows, whether a store is open and how
//! the device was left, the story of the batches, the segments with their logs, the queue and the outcomes,
//! the failures, the group in flight, the flush, the numbers with the manifest. `Turn` says of a state, a call and
//! its answer what the call did: each answer has its exact cause, and the next state is a function of the
//! state, the answer and what the device then shows. The store's own code stands in `keel_core`, whose calls
//! are turns of this machine; here are only the answers as types, the definitions, and laws about them.
#![tactic(auto)]

mod answers;
pub mod laws;
mod steps;

pub use answers::{Admit, Got, LevelView, LevelsView, Outcome, Part, Scanned, Start};
pub use steps::{JobStep, ResumeStep, WriteStep};

#[cfg(test)]
mod tests;
