//! The opening of a store: what its directory holds, read over a device without a changing call.
//!
//! - `read_store` reads CURRENT, the edits of its manifest, footer and index of each table, and the logs. Where the device
//!   tells its directory, the answer is the reading of the files' bytes as `keel_directory` defines it (`StoreTells` of
//!   `specs/Stores`): what is held, or the refusal that comes first.
//! - `read_base` is the same short of the logs (`BaseTells` of `specs/Bases`), with the number of the next file
//!   (`IsNextFile` of `specs/NextFiles`).
//! - `OpenRefusal` says why a store isn't opened. A device's fault is answered only where the device counted it.
//! - `laws`: a listing names the directory's first file in use; what stands short of the logs and what the logs give make
//!   up the reading; and a device as calls and crashes leave it is one of which all this is said.
//!
//! It stands on the device (`keel_disk`), on manifests (`keel_manifest`, `keel_edit`, `keel_version`), tables (`keel_table`)
//! and logs (`keel_wal`), on listings (`keel_listing`), and on the reading of a directory (`keel_directory`).
#![tactic(auto)]

mod base;
pub mod laws;
mod listing;
mod manifest;
mod refusal;
mod store;
mod tables;

pub use base::{BaseFound, read_base};
pub use refusal::OpenRefusal;
pub use store::{StoreFound, read_store};
