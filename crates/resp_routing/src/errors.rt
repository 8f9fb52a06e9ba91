//! Why a command has no route.

ghost use Rattle.std.specs.Prelude.{◌≡◌, IfOk};
ghost use Rattle.resp_errors.specs.Memory.{OnlyMemory};
ghost use Rattle.resp_routing.specs.Refusals.{redis_error_of, refusal_text};

use resp_containers::Text;
use resp_errors::{ErrorKind, RedisError, RedisResult, ServerError, ServerErrorKind};
use std::alloc::{AllocFailed, Global};

/// Why the keys of a command aren't known, or why it has no node.
#[derive(Debug, Drop)]
pub enum RoutingError {
    /// [`COMMANDS`](crate::COMMANDS) doesn't have the command or the subcommand.
    UnknownCommand,
    /// The command doesn't take so many arguments.
    WrongArity,
    /// A word is missing after which keys have to follow, as `STREAMS`.
    MissingKeyword,
    /// The argument that says how many keys follow is no number of at most 18 digits, or a number
    /// that is too small.
    BadKeyCount,
    /// The keys don't end before the arguments do, or there are none.
    TooFewArguments,
    /// The server has no exact specification of the command's keys: `SORT`, `SORT_RO` and `MIGRATE`.
    Unspecified,
    /// The keys are in more than one slot.
    CrossSlot,
    /// There was no memory.
    OutOfMemory,
}

impl<T: Drop> From<AllocFailed<T>> for RoutingError {
    ghost use Rattle.std.specs.Prelude.{◌≡◌};
    ghost use Rattle.resp_routing.specs.declared.errors.RoutingError.TheVariants.{OutOfMemory};

    ghost from_gives = { λ _ e. e ≡ OutOfMemory };

    fn from(_error: AllocFailed<T>) -> RoutingError {
        RoutingError::OutOfMemory
    }
}

impl RoutingError {
    /// The error that a caller of a connection is given: for `CrossSlot` that of a server,
    /// `CROSSSLOT Keys in request don't hash to the same slot`, for `OutOfMemory` itself, and for the
    /// others one of kind `Client`. Fails only with `OutOfMemory`.
    pub fn to_redis_error(&self, alloc: Global) -> RedisResult<RedisError>
        ensures given { IfOk result (λ e. e ≡ redis_error_of self.now) }
        ensures memory { OnlyMemory result }
    {
        match self {
            RoutingError::OutOfMemory => Ok(RedisError::OutOfMemory),
            RoutingError::CrossSlot => Ok(RedisError::from(ServerError::Known {
                kind: ServerErrorKind::CrossSlot,
                detail: Some(Text::from_str(alloc, self.text())?),
            })),
            _ => Ok(RedisError::from((ErrorKind::Client, self.text()))),
        }
    }

    fn text(&self) -> &'static str
        ensures { result.now ≡ refusal_text self.now }
    {
        match self {
            RoutingError::UnknownCommand => "no such command in the table",
            RoutingError::WrongArity => "wrong number of arguments for the command",
            RoutingError::MissingKeyword => "the word before the keys is missing",
            RoutingError::BadKeyCount => "the number of keys isn't a number, or too small",
            RoutingError::TooFewArguments => "fewer arguments than keys",
            RoutingError::Unspecified => "which arguments are keys isn't specified",
            RoutingError::CrossSlot => "Keys in request don't hash to the same slot",
            RoutingError::OutOfMemory => "out of memory",
        }
    }
}
