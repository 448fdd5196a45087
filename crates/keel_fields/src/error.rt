// Why reading ends.
ghost use Rattle.std.specs.Prelude.{◌≡◌};
ghost use Rattle.keel_fields.specs.declared.error.FieldError.TheVariants as errors;

use std::alloc::{AllocError, AllocFailed};

/// Why a field could not be read.
#[derive(Clone, Copy, Debug, PartialEq, Eq)]
pub enum FieldError {
    /// A value that owns its bytes could not be made.
    OutOfMemory,
    /// The field isn't there in full, or isn't allowed. So many bytes are left where it begins.
    Bad { left: usize },
}

impl From<keel_base::OutOfMemory> for FieldError {
    ghost from_gives = { λ _ e. e ≡ errors.OutOfMemory };

    fn from(_: keel_base::OutOfMemory) -> Self {
        FieldError::OutOfMemory
    }
}

impl From<AllocError> for FieldError {
    ghost from_gives = { λ _ e. e ≡ errors.OutOfMemory };

    fn from(_: AllocError) -> Self {
        FieldError::OutOfMemory
    }
}

impl<T: Drop> From<AllocFailed<T>> for FieldError {
    ghost from_gives = { λ _ e. e ≡ errors.OutOfMemory };

    fn from(_: AllocFailed<T>) -> Self {
        FieldError::OutOfMemory
    }
}
