// Why work on the folder stopped.
ghost use Rattle.std.specs.Prelude.{◌≡◌};
ghost use Rattle.keel_dirdisk.specs.Answers.{answer_of as answered};

use keel_base::{Fault, OutOfMemory};
use keel_disk::DiskError;
use std::alloc::{AllocError, AllocFailed};
use std::io;

/// Why a call wasn't done.
#[derive(Clone, Copy, Debug, PartialEq, Eq)]
pub enum Stop {
    /// The host failed, whatever it says of it, but for want of room.
    Host,
    /// The host has no room: its storage is full, or a quota is exceeded.
    Full,
    /// Memory was refused, and nothing was done.
    OutOfMemory,
}

impl From<io::Error> for Stop {
    ghost use Rattle.std.specs.IoError.{error_kind};
    ghost use Rattle.keel_dirdisk.specs.Answers.{IsStopOf};

    ghost from_gives = { λ error stop. IsStopOf (error_kind error) stop };

    fn from(error: io::Error) -> Self {
        let kind = error.kind();
        if kind == io::ErrorKind::StorageFull || kind == io::ErrorKind::QuotaExceeded {
            Stop::Full
        } else {
            Stop::Host
        }
    }
}

impl From<OutOfMemory> for Stop {
    ghost use Rattle.keel_dirdisk.specs.declared.stop.Stop.TheVariants as stop;

    ghost from_gives = { λ _ s. s ≡ stop.OutOfMemory };

    fn from(_: OutOfMemory) -> Self {
        Stop::OutOfMemory
    }
}

impl From<AllocError> for Stop {
    ghost use Rattle.keel_dirdisk.specs.declared.stop.Stop.TheVariants as stop;

    ghost from_gives = { λ _ s. s ≡ stop.OutOfMemory };

    fn from(_: AllocError) -> Self {
        Stop::OutOfMemory
    }
}

impl<T: Drop> From<AllocFailed<T>> for Stop {
    ghost use Rattle.keel_dirdisk.specs.declared.stop.Stop.TheVariants as stop;

    ghost from_gives = { λ _ s. s ≡ stop.OutOfMemory };

    fn from(_: AllocFailed<T>) -> Self {
        Stop::OutOfMemory
    }
}

impl From<Stop> for DiskError {
    ghost use Rattle.keel_dirdisk.specs.Answers.{error_of};

    ghost from_gives = { λ stop error. error ≡ error_of stop };

    fn from(stop: Stop) -> Self {
        match stop {
            Stop::Host => DiskError::Fault(Fault::Plain),
            Stop::Full => DiskError::Fault(Fault::NoSpace),
            Stop::OutOfMemory => DiskError::OutOfMemory,
        }
    }
}

/// The answer of a device, by how the work ended.
pub fn answer_of<T>(outcome: Result<T, Stop>) -> Result<T, DiskError>
    ensures { result ≡ answered outcome }
{
    match outcome {
        Ok(value) => Ok(value),
        Err(stop) => Err(DiskError::from(stop)),
    }
}
