// Why an edit isn't applied.
ghost use Rattle.std.specs.Prelude.{◌≡◌};
ghost use Rattle.keel_version.specs.declared.error.ApplyError.TheVariants as errors;

use keel_base::OutOfMemory;
use std::alloc::{AllocError, AllocFailed};

/// Why an edit can't be applied to a version.
#[derive(Clone, Copy, Debug, PartialEq, Eq)]
pub enum ApplyError {
    /// The first entry that doesn't fit, counted from 0 over the tables that go and then those that come. Where
    /// a number of the edit is less than before, it is the count of all entries.
    BadEdit { entry: u64 },
    OutOfMemory,
}

impl From<OutOfMemory> for ApplyError {
    ghost from_gives = { λ _ e. e ≡ errors.OutOfMemory };

    fn from(_: OutOfMemory) -> Self {
        ApplyError::OutOfMemory
    }
}

impl From<AllocError> for ApplyError {
    ghost from_gives = { λ _ e. e ≡ errors.OutOfMemory };

    fn from(_: AllocError) -> Self {
        ApplyError::OutOfMemory
    }
}

impl<T: Drop> From<AllocFailed<T>> for ApplyError {
    ghost from_gives = { λ _ e. e ≡ errors.OutOfMemory };

    fn from(_: AllocFailed<T>) -> Self {
        ApplyError::OutOfMemory
    }
}
