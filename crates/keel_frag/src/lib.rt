//! The log format, which logs and manifests have: records in checked fragments, in blocks of 32768
//! bytes.
//!
//! It is the log format of LevelDB and RocksDB, with its four types FULL, FIRST, MIDDLE and LAST and
//! its masked CRC32C.
//!
//! - `write_record` gives the bytes of a record: `record_bytes` of `specs/Writing`, a function of the
//!   record's offset and payload.
//! - `read_log` gives the whole records of any bytes, up to the first bad fragment, with their offsets,
//!   and the offset where reading ended: the relation `AreRecords` of `specs/Reading`.
//! - `is_plain` says whether an image that a crash left holds a fragment that was never written:
//!   `IsPlain` of `specs/Images`.
//! - `crc32c` and `mask` are those of `specs/Checksum`.
//! - `laws` has what holds of these definitions: bytes are read in one way, what was written is read
//!   again, and a torn log holds the first of its records.
//!
//! Contracts see a log as pieces laid one behind the other: fragments, and zeros at the end of a block
//! (`specs/Pieces`). Want of memory is the one error, and the one thing that this crate takes from
//! `keel_base` beside the lists.
#![tactic(auto)]

mod checksum;
mod crc_table;
pub mod laws;
mod plain;
mod read;
mod record;
mod write;

pub use checksum::{crc32c, mask};
pub use plain::is_plain;
pub use read::{Records, read_log};
pub use record::{LogRecord, RecordList};
pub use write::write_record;

#[cfg(test)]
mod tests;
