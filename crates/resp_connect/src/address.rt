//! Where a server is, and what its URL says.
//!
//! | over | URL |
//! |---|---|
//! | TCP | `redis://[user[:password]@]host[:port][/db][?protocol=..][&client_name=..]` |
//! | a Unix socket | `unix:///path[?db=..][&user=..][&pass=..][&protocol=..][&client_name=..]` |
//!
//! `valkey` is `redis`, and `redis+unix` and `valkey+unix` are `unix`. The port is 6379 where none is
//! named, and the database 0. A user and a password are percent-decoded, and an IPv6 address loses
//! its brackets. `protocol` is `resp2` or `2`, as where it isn't given, `resp3` or `3`, or
//! `prefer-resp3`. In a query `+` is a space, and bytes that are no UTF-8 become U+FFFD; of
//! parameters of one name the last counts.
//!
//! A URL is refused at the first of these that it meets, with kind `InvalidClientConfig` and this
//! text. No refusal has a detail, since a part that was meant for a password may stand anywhere.
//!
//! | text | the URL |
//! |---|---|
//! | `Redis URL did not parse` | is none by the URL standard, or has another scheme; this is said of a text |
//! | `URL provided is not a redis URL` | has another scheme; this is said of a `Url` |
//! | `can't connect with TLS, the feature is not enabled` | begins with `rediss:` or `valkeys:` |
//! | `Redis URL has a fragment` | has a `#` |
//! | `Redis URL has an unknown parameter` | has a parameter that isn't named above |
//! | `Missing hostname` | has no host, or an empty one |
//! | `Cannot connect to a wildcard address (0.0.0.0 or ::)` | has one of these hosts |
//! | `Missing path` | of a Unix socket: its path doesn't begin with `/`, or something other than `localhost` stands before it |
//! | `Path is not valid UTF-8 string` | of a Unix socket: its path, decoded, is no UTF-8 |
//! | `Invalid database number` | has a database that is no integer of 64 bits |
//! | `Invalid protocol version` | has another value of `protocol` |
//! | `Username is not valid UTF-8 string` | over TCP: has a user that, decoded, is no UTF-8 |
//! | `Password is not valid UTF-8 string` | over TCP: has a password that, decoded, is no UTF-8 |
//!
//! The crate `redis` ignores fragments, and parameters that it doesn't know, so that a mistyped one
//! has no effect; it takes a user before a Unix socket's path, and paths that are no UTF-8.
//! `prefer-resp3` and `client_name` are not the crate's.

ghost use Rattle.std.specs.Prelude.{◌≡◌, IfOk};

mod parts;
mod query;
mod reading;
mod refusal;
mod transport;

pub use self::reading::parse_redis_url;
pub(crate) use self::reading::{target_of, target_of_text};
use resp_containers::Text;
use std::alloc::{AllocError, Global};
use std::fmt;

/// Where a server is.
///
/// Two addresses are equal where their texts and ports are.
#[derive(PartialEq, Eq, Debug, Drop)]
pub enum ConnectionAddr {
    /// A host, as a name or an IP address without brackets, and a port.
    Tcp(Text, u16),
    /// The path of a Unix socket.
    Unix(Text),
}

impl ConnectionAddr {
    /// An equal address. Fails only when out of memory.
    pub fn try_clone(&self, alloc: Global) -> Result<ConnectionAddr, AllocError>
        ensures { IfOk result (λ addr. addr ≡ self.now) }
    {
        Ok(match self {
            ConnectionAddr::Tcp(host, port) => ConnectionAddr::Tcp(host.try_clone(alloc)?, *port),
            ConnectionAddr::Unix(path) => ConnectionAddr::Unix(path.try_clone(alloc)?),
        })
    }
}

/// `host:port`, or the path.
impl fmt::Display for ConnectionAddr {
    ghost use Rattle.std.specs.Prelude.{Some};
    ghost use Rattle.resp_connect.specs.Shown.{address_text};

    ghost output = { λ addr. Some (address_text addr) };

    fn fmt<W: fmt::Write>(&self, f: &mut fmt::Formatter<W>) -> fmt::Result {
        match self {
            ConnectionAddr::Tcp(host, port) => write!(f, "{host}:{port}"),
            ConnectionAddr::Unix(path) => write!(f, "{path}"),
        }
    }
}
