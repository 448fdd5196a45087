// What the reading of a directory answers.
use keel_base::{Bytes, FileName, OutOfMemory, Sequence};
use keel_version::Version;
use std::alloc::AllocFailed;

/// What is wrong with a table's file.
#[derive(Clone, Copy, Debug, PartialEq, Eq)]
pub enum Damaged {
    /// The check that is stored behind some bytes isn't theirs.
    BadCheck { stored: u32, computed: u32 },
    /// What is wrong begins at that place in the file, in bytes.
    BadShape { at: u64 },
}

/// Why a directory isn't read. The tests stand in this order.
#[derive(Debug, Drop)]
pub enum DirectoryRefusal {
    /// There is no CURRENT, and this is the first file of the listing that a new store doesn't have: a table, a
    /// trash file, or a log with a byte.
    NoCurrent { file: FileName },
    /// CURRENT isn't the name of a manifest and a newline. These are its first 64 bytes.
    BadCurrent { bytes: Bytes },
    /// The manifest isn't there or has no whole record (both at 0), or the record that begins at that place isn't an
    /// edit or doesn't apply.
    DamagedManifest { at: u64 },
    /// A table of the version isn't there. It has the least number of those.
    MissingTable { number: u64 },
    /// A table of the version has another size or doesn't open. It has the least number of those.
    BadTable { number: u64, damage: Damaged },
    /// A whole record of this log isn't a batch. Its first fragment stands at that place, in bytes.
    BadLog { log: u64, at: u64 },
    /// A batch of this log begins with the number `found`, where the op before it has the number `last`.
    LogGap { log: u64, last: u64, found: u64 },
    /// Memory was refused.
    OutOfMemory,
}

impl From<OutOfMemory> for DirectoryRefusal {
    ghost use Rattle.std.specs.Prelude.{◌≡◌};
    ghost use Rattle.keel_directory.specs.declared.answer.DirectoryRefusal.TheVariants.{OutOfMemory};

    ghost from_gives = { λ _ e. e ≡ OutOfMemory };

    fn from(_: OutOfMemory) -> Self {
        DirectoryRefusal::OutOfMemory
    }
}

impl<T: Drop> From<AllocFailed<T>> for DirectoryRefusal {
    ghost use Rattle.std.specs.Prelude.{◌≡◌};
    ghost use Rattle.keel_directory.specs.declared.answer.DirectoryRefusal.TheVariants.{OutOfMemory};

    ghost from_gives = { λ _ e. e ≡ OutOfMemory };

    fn from(_: AllocFailed<T>) -> Self {
        DirectoryRefusal::OutOfMemory
    }
}

/// Keys with their values, by key.
pub type Pairs = Sequence<(Bytes, Bytes)>;

/// What a directory with CURRENT holds.
#[derive(Debug, Drop)]
pub struct Held {
    /// The number of the manifest that CURRENT names.
    pub manifest: u64,
    /// What its edits give.
    pub version: Version,
    /// The map: of each key that has a value.
    pub pairs: Pairs,
    /// The number of the last op.
    pub last: u64,
}

/// What a directory says as a store.
#[derive(Debug, Drop)]
pub enum Directory {
    /// It is that of a new store.
    New,
    Held(Held),
}
