//! Tables in memory, before they are in their files.
//!
//! A job that makes a table of a memtable makes it in memory first, and then appends it to its file piece by piece:
//! each block, and then the index with the footer. A resume and a flush make their tables so.
//!
//! - `TableDraft::of` makes the table of the newest row of each key of a memtable (`IsTableFor`).
//! - `pieces` and `piece` tell what goes into its file, `added` its entry in an edit, `last` the greatest sequence
//!   number of its memtable.
//! - `with_new` places new tables among those of a version.
//!
//! A draft stands in memory as the bytes of its file, with the entries that tell its blocks: what contracts see of it,
//! its rows in their blocks (`specs/Drafts`), is what these bytes give.
//!
//! It stands on memtables (`keel_mem`), tables (`keel_table`) and entries of edits (`keel_edit`).
#![tactic(auto)]

mod draft;
mod gathering;
mod placing;

pub use draft::TableDraft;
pub use placing::with_new;
