//! The language of workloads: commands, one a line, and the lines that they are answered with.
//!
//! - `read_command` and `print_command` go from a line to the command that it says and back; `is_blank` tells
//!   the lines that say none and have no answer. The grammar is one table, `parts_of`, of what each command is
//!   spelled with: words, numbers and texts, in which `%` and two hexadecimal digits stand for a byte.
//! - `print_reply` gives the line of a reply, and `add_reply` adds it to other lines.
//! - `laws` has what follows for the language: a line says one command, and each command's own line says it.
#![tactic(auto)]

mod answering;
mod arguments;
mod command;
pub mod laws;
mod line;
mod names;
mod printing;
mod reading;
mod reply;
mod text;
mod verb;
mod words;

pub use answering::{add_reply, print_reply};
pub use command::{Command, LineError};
pub use printing::print_command;
pub use reading::read_command;
pub use reply::Reply;
pub use words::is_blank;
