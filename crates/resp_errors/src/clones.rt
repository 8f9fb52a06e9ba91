//! Kinds whose clone is the value.

ghost use Rattle.resp_containers.specs.lemmas.Clones.{of_copies};

use crate::kinds::{ErrorKind, FrameFault, IoKind, RetryMethod, ServerErrorKind};
use resp_containers::ExactClone;

impl ExactClone for ServerErrorKind {
    ghost exact = { of_copies };
}

impl ExactClone for ErrorKind {
    ghost exact = { of_copies };
}

impl ExactClone for IoKind {
    ghost exact = { of_copies };
}

impl ExactClone for RetryMethod {
    ghost exact = { of_copies };
}

impl ExactClone for FrameFault {
    ghost exact = { of_copies };
}
