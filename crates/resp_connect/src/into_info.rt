//! Values that say where a client connects to.

ghost use Rattle.std.specs.Prelude.{Ok, string_bytes};
ghost use Rattle.resp_connect.specs.Answers.{Gives, answer_of};
ghost use Rattle.resp_connect.specs.Addresses as spec;
ghost use Rattle.resp_connect.specs.Targets.{Target, target_at};
ghost use Rattle.resp_connect.specs.declared.address.ConnectionAddr.TheVariants.{Tcp};

use crate::address::{ConnectionAddr, target_of, target_of_text};
use crate::info::{ConnectionInfo, RedisConnectionInfo};
use resp_containers::Text;
use resp_errors::RedisResult;
use std::alloc::Global;
use url::Url;

/// A value that says where a client connects to, and how it greets the server.
///
/// A text is read as a URL:
///
/// | over | URL |
/// |---|---|
/// | TCP | `redis://[user[:password]@]host[:port][/db][?protocol=..][&client_name=..]` |
/// | a Unix socket | `unix:///path[?db=..][&user=..][&pass=..][&protocol=..][&client_name=..]` |
///
/// `valkey` is `redis`, and `redis+unix` and `valkey+unix` are `unix`. The port is 6379 where none is
/// named, and the database 0. A user and a password are percent-decoded, and an IPv6 address loses
/// its brackets. `protocol` is `resp2` or `2`, as where it isn't given, `resp3` or `3`, or
/// `prefer-resp3` (see [`ProtocolChoice`](crate::ProtocolChoice)). Of parameters of one name the last
/// counts.
///
/// A URL that says something else, be it a parameter that isn't named here, is refused with kind
/// `InvalidClientConfig` and a fixed text, in which nothing of the URL stands. `src/address.rt` has
/// these texts.
pub trait IntoConnectionInfo: Sized {
    ghost use Rattle.std.specs.Prelude.{Result};
    ghost use Rattle.resp_errors.specs.declared.redis_error.RedisError.{RedisError};

    // What the value says, or why it is refused.
    ghost answer: { Self → Result Target RedisError };

    /// What the value says. Fails where it is refused, and else only with `OutOfMemory`.
    fn into_connection_info(self, alloc: Global) -> RedisResult<ConnectionInfo>
        ensures { Gives (answer self) result };
}

/// Itself. Never fails.
impl IntoConnectionInfo for ConnectionInfo {
    ghost answer = { λ target. Ok target };

    fn into_connection_info(self, _alloc: Global) -> RedisResult<ConnectionInfo> {
        Ok(self)
    }
}

/// A URL, as its text says.
impl IntoConnectionInfo for &str {
    ghost answer = { λ text. answer_of (spec.target_of_text text.now) };

    fn into_connection_info(self, alloc: Global) -> RedisResult<ConnectionInfo> {
        target_of_text(alloc, self)
    }
}

/// A URL, as its text says.
impl IntoConnectionInfo for String {
    ghost answer = { λ text. answer_of (spec.target_of_text (string_bytes text)) };

    fn into_connection_info(self, alloc: Global) -> RedisResult<ConnectionInfo> {
        target_of_text(alloc, self.as_str())
    }
}

/// A URL that was parsed before. With a scheme that is no server's it is refused by the text
/// `URL provided is not a redis URL`, where a text is refused by `Redis URL did not parse`.
impl IntoConnectionInfo for Url {
    ghost answer = { λ url. answer_of (spec.target_of url) };

    fn into_connection_info(self, alloc: Global) -> RedisResult<ConnectionInfo> {
        Ok(target_of(alloc, &self)?)
    }
}

/// An address, with the default settings. Never fails.
impl IntoConnectionInfo for ConnectionAddr {
    ghost answer = { λ addr. Ok (target_at addr) };

    fn into_connection_info(self, _alloc: Global) -> RedisResult<ConnectionInfo> {
        Ok(ConnectionInfo::of(self, RedisConnectionInfo::default()))
    }
}

/// A host and a port, with the default settings.
impl IntoConnectionInfo for (&str, u16) {
    ghost answer = { λ pair. Ok (target_at (Tcp pair.0.now pair.1)) };

    fn into_connection_info(self, alloc: Global) -> RedisResult<ConnectionInfo> {
        let addr = ConnectionAddr::Tcp(Text::from_str(alloc, self.0)?, self.1);
        Ok(ConnectionInfo::of(addr, RedisConnectionInfo::default()))
    }
}

/// A host and a port, with the default settings. Never fails.
impl IntoConnectionInfo for (String, u16) {
    ghost answer = { λ pair. Ok (target_at (Tcp (string_bytes pair.0) pair.1)) };

    fn into_connection_info(self, _alloc: Global) -> RedisResult<ConnectionInfo> {
        let (host, port) = self;
        let addr = ConnectionAddr::Tcp(Text::from(host), port);
        Ok(ConnectionInfo::of(addr, RedisConnectionInfo::default()))
    }
}
