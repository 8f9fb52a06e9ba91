//! Why a URL is refused.

ghost use Rattle.std.specs.Prelude.{◌≡◌};
ghost use Rattle.resp_connect.specs.Refusals.{refusal_text};

use resp_errors::{ErrorKind, RedisError};
use std::alloc::AllocError;

/// Why a URL is refused, in the order of the checks.
#[derive(Clone, Copy)]
pub(crate) enum Refusal {
    /// It is no URL, or its scheme is another one.
    NotUrl,
    /// Its scheme is another one.
    NotRedis,
    /// It asks for TLS.
    NoTls,
    /// It has a fragment.
    Fragment,
    /// Its query has a parameter that a URL of its kind doesn't have.
    Parameter,
    /// It names no host.
    Hostname,
    /// Its host stands for every address.
    Wildcard,
    /// It has no path, or something stands before the path.
    Path,
    /// Its path is no UTF-8.
    PathText,
    /// Its database is no number.
    Database,
    /// Its protocol is none of those that are known.
    Protocol,
    /// Its user is no UTF-8.
    Username,
    /// Its password is no UTF-8.
    Password,
    /// Memory ran out.
    OutOfMemory,
}

impl Refusal {
    fn text(self) -> &'static str
        ensures { result.now ≡ refusal_text self }
    {
        match self {
            Refusal::NotUrl => "Redis URL did not parse",
            Refusal::NotRedis => "URL provided is not a redis URL",
            Refusal::NoTls => "can't connect with TLS, the feature is not enabled",
            Refusal::Fragment => "Redis URL has a fragment",
            Refusal::Parameter => "Redis URL has an unknown parameter",
            Refusal::Hostname => "Missing hostname",
            Refusal::Wildcard => "Cannot connect to a wildcard address (0.0.0.0 or ::)",
            Refusal::Path => "Missing path",
            Refusal::PathText => "Path is not valid UTF-8 string",
            Refusal::Database => "Invalid database number",
            Refusal::Protocol => "Invalid protocol version",
            Refusal::Username => "Username is not valid UTF-8 string",
            Refusal::Password => "Password is not valid UTF-8 string",
            Refusal::OutOfMemory => "out of memory",
        }
    }
}

impl From<Refusal> for RedisError {
    ghost use Rattle.resp_connect.specs.Refusals.{error_of};

    ghost from_gives = { λ refusal e. e ≡ error_of refusal };

    fn from(refusal: Refusal) -> RedisError {
        match refusal {
            Refusal::OutOfMemory => RedisError::OutOfMemory,
            other => RedisError::from((ErrorKind::InvalidClientConfig, other.text())),
        }
    }
}

impl From<AllocError> for Refusal {
    ghost use Rattle.resp_connect.specs.declared.address.refusal.Refusal.TheVariants as refused;

    ghost from_gives = { λ _ refusal. refusal ≡ refused.OutOfMemory };

    fn from(_error: AllocError) -> Refusal {
        Refusal::OutOfMemory
    }
}
