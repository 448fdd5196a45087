//! The standing error of a store, and when to try to recover from it.
//!
//! - `Handler` keeps one failure. For every list of failures that were noted since the last clear, it is the first of the
//!   greatest severity, and none where all severities are 0 (`IsStanding`). `stops` and `work_stops` say what that
//!   error stops, as facts of such a list (`Stops`, `WorkStops`).
//! - `due` says when an automatic attempt to recover is due; `begin_attempt` and `end_attempt` count the attempts
//!   and set the tick of the next one.
//! - Law: every list of failures has one standing error.
//!
//! Nothing here takes memory. It stands on `keel_grade`, whose table gives the severities.
#![tactic(auto)]

mod answers;
mod handler;
pub mod laws;

pub use answers::{Due, Noted};
pub use handler::Handler;

#[cfg(test)]
mod tests;
