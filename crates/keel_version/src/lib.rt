//! The tables of a store on their four levels, what edits make of them, and what is compacted next.
//!
//! - `Version` has the tables by level and number. `apply` gives the version behind an edit, or the number of the
//!   first entry that doesn't fit (`specs/Applying`). Whatever edits were applied, no two tables have one number,
//!   and key ranges on the levels 1 to 3 don't meet (`specs/Tables`).
//! - `Version::pick` says which tables are compacted next: the least level that is over its trigger while neither
//!   it nor the next one is busy (`specs/Picking`). Triggers and levels are this store's own, after RocksDB's
//!   leveled compaction.
//! - `laws` has what follows. Behind an edit stand the tables that come and those that it doesn't name
//!   (`specs/Behind`); the range of tables taken together is met exactly as `pick` tests it (`specs/Ranges`); and
//!   of all rows of a key in all tables the one of the greatest sequence number counts, whatever the order of the
//!   tables (`specs/Lookup`).
//!
//! It stands on `keel_edit`, whose edits it applies.
#![tactic(auto)]

mod copies;
mod entries;
mod error;
pub mod laws;
mod picking;
mod version;

pub use error::ApplyError;
pub use picking::{Busy, Picked};
pub use version::Version;

#[cfg(test)]
mod tests;
