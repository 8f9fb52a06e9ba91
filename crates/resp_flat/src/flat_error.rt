//! Why tokens and a text are not read.

ghost use Rattle.std.specs.Prelude.{◌≡◌};
ghost use Rattle.resp_flat.specs.declared.flat_error.FlatError.TheVariants.{Memory};
ghost use Rattle.resp_flat.specs.Refusals.{RefusalFor};

use resp_errors::{ErrorKind, RedisError};
use std::alloc::{AllocError, AllocFailed};

/// Why tokens and a text are not read.
#[derive(Clone, Copy)]
pub(crate) enum FlatError {
    /// Memory ran out.
    Memory,
    /// They are not those of a reply.
    NotReply,
}

impl From<AllocError> for FlatError {
    ghost from_gives = { λ _ e. e ≡ Memory };

    fn from(_error: AllocError) -> FlatError {
        FlatError::Memory
    }
}

impl<T: Drop> From<AllocFailed<T>> for FlatError {
    ghost from_gives = { λ _ e. e ≡ Memory };

    fn from(_error: AllocFailed<T>) -> FlatError {
        FlatError::Memory
    }
}

/// What a call answers that doesn't read a value.
pub(crate) fn refusal(error: FlatError) -> RedisError
    ensures { RefusalFor error result }
{
    match error {
        FlatError::Memory => RedisError::OutOfMemory,
        FlatError::NotReply => {
            RedisError::from((ErrorKind::Client, "the tokens and the text are no value's"))
        }
    }
}
