//! The store that boots from a manifest, as one state whose calls are the turns of the machine.
//!
//! `Core::open` reads the directory, and changes nothing there. The store then boots: each `resume_step` makes one call,
//! of tables for what was replayed, of a new log, or of the roll to a manifest that names them. Behind the last one it
//! takes writes: `admit` queues a batch, each `write_step` makes one call of the group in flight, or of the switch to a
//! new log where the active segment is full, and `take_outcome` says what became of a ticket. Each `flush_step` makes one
//! call of the flush, which makes a table of the oldest full segment and brings it to the version; behind the last one
//! the segment is gone. `get` and `scan` read the segments in memory, and then tables.
//!
//! A failure of any job is noted in one handler (`keel_handler`), which has the first of the most severe ones. Writes and
//! flushes rest as that one says. A group in flight goes on to its end, since a failure of a flush leaves its log sound.
//!
//! `resume` asks to go on behind such a failure. A soft one is forgotten at once; behind a hard one the group in flight and
//! the flush are cancelled, and the resume steps do what a boot does: the first one takes all segments over, also the
//! active one, and behind the last one all that was published is in tables, a new log is in use, and no failure stands.
//!
//! Each call promises a turn of `keel_machine` (`TakesTurn`, `TakesRead`, `ResumesTurn`, `FlushesTurn` in `specs`): for
//! every state that the core stands for, the answer has its cause there, and the core stands for the state behind.
//! `keel_recovery` says what a crash leaves of such turns. It is the store that the program runs.
#![tactic(auto)]

mod boot;
mod booting;
mod closing;
mod flight;
mod flushing;
mod handling;
mod log;
mod opening;
mod placing;
mod queue;
mod reading;
mod scanning;
mod segments;
mod shutdown;
mod sizes;
mod starting;
mod store;
mod switching;
mod tables;
mod telling;
mod trail;
mod writing;

pub use opening::Refused;
pub use store::Core;
pub use trail::Trail;
