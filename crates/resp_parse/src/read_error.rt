//! Why no value can be read.

ghost use Rattle.std.specs.Prelude.{◌≡◌};
ghost use Rattle.resp_parse.specs.declared.read_error.ReadError.TheVariants.{Fault, Memory};

use resp_value::FrameFault;
use std::alloc::{AllocError, AllocFailed};

/// Why no value can be read.
#[derive(Debug, Drop)]
pub(crate) enum ReadError {
    /// Memory ran out.
    Memory,
    /// The bytes can't begin a value.
    Fault(FrameFault),
}

impl From<AllocError> for ReadError {
    ghost from_gives = { λ _ e. e ≡ Memory };

    fn from(_error: AllocError) -> ReadError {
        ReadError::Memory
    }
}

impl<T: Drop> From<AllocFailed<T>> for ReadError {
    ghost from_gives = { λ _ e. e ≡ Memory };

    fn from(_error: AllocFailed<T>) -> ReadError {
        ReadError::Memory
    }
}

impl From<FrameFault> for ReadError {
    ghost from_gives = { λ f e. e ≡ Fault f };

    fn from(fault: FrameFault) -> ReadError {
        ReadError::Fault(fault)
    }
}
