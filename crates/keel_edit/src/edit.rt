// What an edit says.
ghost use Rattle.std.specs.Prelude.{◌≡◌, IfOk};

use keel_base::{Bytes, OutOfMemory, Sequence};
use std::alloc::Global;

/// A table that comes to a level.
#[derive(Debug, Drop)]
pub struct Added {
    /// 0 to 3.
    pub level: u8,
    /// The number of its file.
    pub number: u64,
    /// The bytes of its file.
    pub size: u64,
    /// How many rows it has.
    pub rows: u64,
    /// The least sequence number that its rows may have.
    pub first: u64,
    /// The greatest sequence number that its rows may have.
    pub last: u64,
    /// Its first key.
    pub least: Bytes,
    /// Its last key.
    pub greatest: Bytes,
}

impl Added {
    /// Copies, keys and all.
    pub fn copy(&self, alloc: Global) -> Result<Added, OutOfMemory>
        ensures { IfOk result (λ copy. copy ≡ self.now) }
    {
        Ok(Added {
            level: self.level,
            number: self.number,
            size: self.size,
            rows: self.rows,
            first: self.first,
            last: self.last,
            least: Bytes::from_slice(alloc, self.least.as_slice())?,
            greatest: Bytes::from_slice(alloc, self.greatest.as_slice())?,
        })
    }
}

/// A table that goes from its level.
#[derive(Clone, Copy, Debug, PartialEq, Eq)]
pub struct Removed {
    /// 0 to 3.
    pub level: u8,
    /// The number of its file.
    pub number: u64,
}

/// Tables that come, in order.
pub type AddedList = Sequence<Added>;

/// Tables that go, in order.
pub type RemovedList = Sequence<Removed>;

/// A change of the set of tables, and the numbers that stand behind it.
#[derive(Debug, Drop)]
pub struct Edit {
    /// Logs of this number and more hold what is in no table.
    pub min_log: u64,
    /// The number that the next file gets.
    pub next_file: u64,
    /// The greatest sequence number in the tables.
    pub last_seq: u64,
    /// The tables that go.
    pub removed: RemovedList,
    /// The tables that come, behind those that go.
    pub added: AddedList,
}

/// Why bytes aren't read as an edit.
#[derive(Clone, Copy, Debug, PartialEq, Eq)]
pub enum EditError {
    /// The place where the first field begins that isn't there in full or isn't allowed, or where bytes
    /// follow the last field. Places are counted in bytes from 0.
    BadShape { at: u64 },
    OutOfMemory,
}
