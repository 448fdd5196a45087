// Why a store isn't opened.
use keel_base::{Bytes, Fault, FileName, OutOfMemory};
use keel_disk::DiskError;
use keel_table::TableFault;

/// Why a store isn't opened. The device is as it was.
///
/// The tests stand in this order. `Device` and `OutOfMemory` come where a call in between failed.
#[derive(Debug, Drop)]
pub enum OpenRefusal {
    /// A read failed. The device has counted the fault.
    Device(Fault),
    /// There is no CURRENT, and this is the first file of the listing that a new store doesn't have: a table, a
    /// trash file, or a log with a byte.
    NoCurrent { file: FileName },
    /// CURRENT isn't the name of a manifest and a newline. These are its bytes, the first 64 at most.
    BadCurrent { bytes: Bytes },
    /// The manifest isn't there or has no whole record (both at 0), or the record that begins at that place, in
    /// bytes, isn't an edit or doesn't apply.
    DamagedManifest { at: u64 },
    /// A table of the version isn't there. It has the least number of those.
    MissingTable { number: u64 },
    /// A table of the version has another size (`BadShape` at 0) or doesn't open. It has the least number of those.
    /// The fault is `BadCheck` or `BadShape`.
    BadTable { number: u64, fault: TableFault },
    /// A whole record of this log isn't a batch. Its first fragment stands `at` that place, in bytes.
    BadLog { log: u64, at: u64 },
    /// A batch of this log has the number `found`, where the ops before it end with the one before `expected`.
    LogGap { log: u64, expected: u64, found: u64 },
    /// Memory was refused.
    OutOfMemory,
}

impl From<OutOfMemory> for OpenRefusal {
    ghost use Rattle.std.specs.Prelude.{◌≡◌};
    ghost use Rattle.keel_open.specs.declared.refusal.OpenRefusal.TheVariants.{OutOfMemory};

    ghost from_gives = { λ _ e. e ≡ OutOfMemory };

    fn from(_: OutOfMemory) -> Self {
        OpenRefusal::OutOfMemory
    }
}

impl From<DiskError> for OpenRefusal {
    ghost use Rattle.std.specs.Prelude.{◌≡◌};
    ghost use Rattle.keel_open.specs.Refusals.{refusal_for};

    ghost from_gives = { λ error e. e ≡ refusal_for error };

    fn from(error: DiskError) -> Self {
        match error {
            DiskError::Fault(fault) => OpenRefusal::Device(fault),
            DiskError::OutOfMemory => OpenRefusal::OutOfMemory,
        }
    }
}
