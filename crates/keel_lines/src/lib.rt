//! The lines of an input, taken one at a time.
//!
//! - `LineReader` gives the lines of any source. It never holds more than one line and one piece of the source.
//! - A line has at most `MAX_LINE` bytes and an input `MAX_INPUT`; behind these nothing is given, and `LineEnd` says
//!   which was passed.
//! - `laws` has what the lines given are of the input: the first of its lines, and at the end all of them.
#![tactic(auto)]

pub mod laws;
mod line;
mod piece;
mod reader;

pub use line::{LineEnd, MAX_INPUT, MAX_LINE};
pub use reader::LineReader;
