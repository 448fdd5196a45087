//! Bytes, entries and nodes whose memory is taken first, so that putting them in place can't fail.
//!
//! - `Region` holds bytes. `place` puts bytes behind those that are there and gives their `Span`; a span's bytes stay
//!   what was placed there until `reset`.
//! - `Index` holds entries by the bytes of their keys, and of one key the greatest sequence first. Contracts see them as a list.
//! - `Pool` holds nodes in slots. A slot that was taken isn't handed out again before it is given back.
//!
//! Each has a `spare`, the room that is left. `reserve` alone takes memory: it makes `spare` at least what is asked, or
//! leaves all as it was.
#![tactic(auto)]

mod index;
mod path;
mod pool;
mod region;
mod search;
mod span;
mod tree;

pub use index::Index;
pub use path::Path;
pub use pool::{Node, Pool, Slot};
pub use region::Region;
pub use span::{IndexEntry, Span};

#[cfg(test)]
mod tests;
