//! Errors and kinds whose `==` is structural.
//!
//! Of [`RedisError`](crate::RedisError) it is not: see
//! [`law_of_equal_errors`](crate::laws::law_of_equal_errors).

ghost use denote.Enum.Bare.{same_true};
ghost use Rattle.resp_containers.specs.lemmas.Equality.{same_bytes, same_enum, same_options};
ghost use Rattle.resp_containers.specs.lemmas.Equality.{one_field, two_fields};
ghost use Rattle.resp_errors.specs.contracts.kinds.ServerErrorKind as server_kind;
ghost use Rattle.resp_errors.specs.contracts.kinds.ErrorKind as kind;
ghost use Rattle.resp_errors.specs.contracts.kinds.IoKind as io_kind;
ghost use Rattle.resp_errors.specs.contracts.kinds.RetryMethod as retry;
ghost use Rattle.resp_errors.specs.contracts.kinds.FrameFault as fault;
ghost use Rattle.resp_errors.specs.contracts.server_error.ServerError as server;
ghost use Rattle.resp_errors.specs.contracts.parsing_error.ParsingError as parsing;

use crate::description::Description;
use crate::kinds::{ErrorKind, FrameFault, IoKind, RetryMethod, ServerErrorKind};
use crate::parsing_error::ParsingError;
use crate::server_error::ServerError;
use resp_containers::StructuralEq;

impl StructuralEq for ServerErrorKind {
    ghost structural = { same_true server_kind.the_type tt };
}

impl StructuralEq for ErrorKind {
    ghost structural = { same_enum kind.enum _
        (one_field (same_true server_kind.the_type tt), tt) };
}

impl StructuralEq for IoKind {
    ghost structural = { same_true io_kind.the_type tt };
}

impl StructuralEq for RetryMethod {
    ghost structural = { same_true retry.the_type tt };
}

impl StructuralEq for FrameFault {
    ghost structural = { same_true fault.the_type tt };
}

impl StructuralEq for ServerError {
    ghost structural = { same_enum server.enum _ (
      two_fields (same_true server_kind.the_type tt) (same_options same_bytes),
      (two_fields same_bytes (same_options same_bytes), tt),
    ) };
}

impl StructuralEq for ParsingError {
    ghost structural = { same_enum parsing.enum _
        (one_field same_bytes, (one_field (same_true fault.the_type tt), tt)) };
}

impl StructuralEq for Description {
    ghost structural = { same_bytes };
}
