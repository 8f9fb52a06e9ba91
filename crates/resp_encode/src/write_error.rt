//! Why a value isn't written.

ghost use Rattle.std.specs.Prelude.{◌≡◌};
ghost use Rattle.resp_encode.specs.declared.write_error.WriteError.TheVariants.{Memory};

use std::alloc::{AllocError, AllocFailed};

/// Why a value isn't written.
#[derive(Clone, Copy)]
pub(crate) enum WriteError {
    /// Memory ran out.
    Memory,
    /// No bytes spell the value.
    NoSpelling,
}

impl From<AllocError> for WriteError {
    ghost from_gives = { λ _ e. e ≡ Memory };

    fn from(_error: AllocError) -> WriteError {
        WriteError::Memory
    }
}

impl<T: Drop> From<AllocFailed<T>> for WriteError {
    ghost from_gives = { λ _ e. e ≡ Memory };

    fn from(_error: AllocFailed<T>) -> WriteError {
        WriteError::Memory
    }
}
