// What a device answers where a call isn't done.

use keel_base::{Fault, OutOfMemory};

/// Why a call failed.
#[derive(Clone, Copy, Debug, PartialEq, Eq)]
pub enum DiskError {
    Fault(Fault),
    /// Memory was refused, and the device is as before.
    OutOfMemory,
}

/// Why a file wasn't read.
#[derive(Clone, Copy, Debug, PartialEq, Eq)]
pub enum ReadError {
    Fault(Fault),
    /// No file has the name.
    Absent,
    /// Memory was refused.
    OutOfMemory,
}

impl From<OutOfMemory> for DiskError {
    ghost use Rattle.std.specs.Prelude.{◌≡◌};
    ghost use Rattle.keel_disk.specs.declared.error.DiskError.TheVariants.{OutOfMemory};

    ghost from_gives = { λ _ e. e ≡ OutOfMemory };

    fn from(_: OutOfMemory) -> Self {
        DiskError::OutOfMemory
    }
}

impl From<OutOfMemory> for ReadError {
    ghost use Rattle.std.specs.Prelude.{◌≡◌};
    ghost use Rattle.keel_disk.specs.declared.error.ReadError.TheVariants.{OutOfMemory};

    ghost from_gives = { λ _ e. e ≡ OutOfMemory };

    fn from(_: OutOfMemory) -> Self {
        ReadError::OutOfMemory
    }
}
