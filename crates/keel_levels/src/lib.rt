//! Reads through the tables of a store.
//!
//! `Levels` are the tables of a version. A table is opened at the first read that needs it, and stays open.
//!
//! What is promised, where the device has the files of the tables and they are as the version says (`AreReadable` of
//! `specs/Live`):
//!
//! - `Levels::get` answers the newest row of a key among all rows of all tables. It looks only into tables whose keys
//!   reach from below the key to above it, and into none whose rows are all older than one that was found.
//! - `Levels::rows_between` answers the rows of a range, by key: for each key the newest row of all tables and of the lists
//!   that it is given, where it is a put. In a table it begins at the first block that may have a key of the range, and
//!   stops at the block that reaches its end.
//! - The only other answers are faults that the device counted, and want of memory.
//! - What is open is what the device has (`AreOpened`), and stays so whatever a read answers.
//!
//! Of rows with one key and one number, which no sound store has, the first counts: that of the table that stands first,
//! and rows in memory stand behind all tables.
//!
//! Over any device a read changes nothing of it, and a fault of the device is handed on only where it was counted.
//!
//! `laws` says what rows say of the map: when a batch comes to them, when the table of a segment's newest rows stands in
//! the place of the segment, and that what a scan answers is of the map.
//!
//! It stands on `keel_table` for opening tables and reading their blocks, and on `keel_merge` for merging lists of rows.
#![tactic(auto)]

mod fault;
pub mod laws;
mod levels;
mod live;
mod merging;
mod range;

pub use fault::{LevelFault, ScanFault};
pub use levels::Levels;
pub use live::LiveTable;
