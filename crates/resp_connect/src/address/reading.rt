//! URLs of servers.

ghost use Rattle.std.specs.Prelude.{◌≡◌, IfOk};
ghost use Rattle.std.specs.Option.{option_copied};
ghost use Rattle.resp_errors.specs.Memory.{OnlyMemory};
ghost use Rattle.resp_connect.specs.Addresses as spec;
ghost use Rattle.resp_connect.specs.Addresses.{redis_url};
ghost use Rattle.resp_connect.specs.Answers.{Gives, Reads, answer_of};

use crate::address::parts::{
    between_slashes, credential, database, password_part, protocol, tcp_address, unix_address,
};
use crate::address::query::{Pairs, parameters, value_of};
use crate::address::refusal::Refusal;
use crate::address::transport::Transport;
use crate::info::{ConnectionInfo, RedisConnectionInfo};
use resp_containers::Text;
use resp_errors::{RedisError, RedisResult};
use std::alloc::{AllocError, Global};
use url::{ParseError, Url};

/// A text as a URL, if it is one with a scheme of a server.
///
/// The schemes are `redis`, `rediss`, `valkey`, `valkeys`, `unix`, `redis+unix` and `valkey+unix`.
/// Fails only with `OutOfMemory`, as for a URL of 4 GB or more. A `Url` shows its password, where
/// [`ConnectionInfo`](crate::ConnectionInfo) doesn't.
#[tactic(auto, unfolding(crate::specs::Addresses::redis_url))]
pub fn parse_redis_url(alloc: Global, input: &str) -> RedisResult<Option<Url>>
    ensures parsed { IfOk result (λ found. found ≡ redis_url input.now) }
    ensures memory { OnlyMemory result }
{
    match Url::parse(alloc, input) {
        Ok(url) => Ok(if_redis(url)),
        Err(ParseError::OutOfMemory | ParseError::Overflow) => Err(RedisError::OutOfMemory),
        Err(_) => Ok(None),
    }
}

fn if_redis(url: Url) -> Option<Url>
    ensures { result ≡ spec.if_redis url }
{
    match Transport::of(url.scheme()) {
        Some(_) => Some(url),
        None => None,
    }
}

/// What a URL says, or why it is refused.
#[tactic(auto, unfolding(crate::specs::Addresses::target_of))]
pub(crate) fn target_of(alloc: Global, url: &Url) -> Result<ConnectionInfo, Refusal>
    ensures { Reads (spec.target_of url.now) result }
{
    match Transport::of(url.scheme()) {
        Some(Transport::Tcp) => tcp_target(alloc, url),
        Some(Transport::Tls) => Err(Refusal::NoTls),
        Some(Transport::Unix) => unix_target(alloc, url),
        None => Err(Refusal::NotRedis),
    }
}

#[tactic(auto, unfolding(crate::specs::Addresses::tcp_target))]
fn tcp_target(alloc: Global, url: &Url) -> Result<ConnectionInfo, Refusal>
    ensures { Reads (spec.tcp_target url.now) result }
{
    let pairs = parameters(alloc, Transport::Tcp, url)?;
    let addr = tcp_address(alloc, url)?;
    let redis = tcp_settings(alloc, url, &pairs)?;
    Ok(ConnectionInfo::of(addr, redis))
}

#[tactic(auto, unfolding(crate::specs::Addresses::unix_target))]
fn unix_target(alloc: Global, url: &Url) -> Result<ConnectionInfo, Refusal>
    ensures { Reads (spec.unix_target url.now) result }
{
    let pairs = parameters(alloc, Transport::Unix, url)?;
    let addr = unix_address(alloc, url)?;
    let redis = unix_settings(alloc, &pairs)?;
    Ok(ConnectionInfo::of(addr, redis))
}

/// How a server is greeted over TCP.
#[tactic(auto, unfolding(crate::specs::Addresses::tcp_settings))]
fn tcp_settings(alloc: Global, url: &Url, pairs: &Pairs) -> Result<RedisConnectionInfo, Refusal>
    ensures { Reads (spec.tcp_settings url.now pairs.now) result }
{
    let db = database(between_slashes(url.path()))?;
    let protocol = protocol(value_of("protocol", pairs))?;
    let username = credential(alloc, Refusal::Username, url.username())?;
    let password = credential(alloc, Refusal::Password, password_part(url))?;
    let client_name = copy_of(alloc, value_of("client_name", pairs))?;
    Ok(RedisConnectionInfo::of(db, username, password, protocol, client_name))
}

/// How a server is greeted over a Unix socket.
#[tactic(auto, unfolding(crate::specs::Addresses::unix_settings))]
fn unix_settings(alloc: Global, pairs: &Pairs) -> Result<RedisConnectionInfo, Refusal>
    ensures { Reads (spec.unix_settings pairs.now) result }
{
    let db = database(value_of("db", pairs))?;
    let protocol = protocol(value_of("protocol", pairs))?;
    let username = copy_of(alloc, value_of("user", pairs))?;
    let password = copy_of(alloc, value_of("pass", pairs))?;
    let client_name = copy_of(alloc, value_of("client_name", pairs))?;
    Ok(RedisConnectionInfo::of(db, username, password, protocol, client_name))
}

fn copy_of(alloc: Global, text: Option<&str>) -> Result<Option<Text>, AllocError>
    ensures { IfOk result (λ copy. copy ≡ option_copied text.entry) }
{
    match text {
        Some(text) => Ok(Some(Text::from_str(alloc, text)?)),
        None => Ok(None),
    }
}

/// What a text says as a URL, or why it is refused.
#[tactic(auto, unfolding(crate::specs::Addresses::target_of_text))]
pub(crate) fn target_of_text(alloc: Global, text: &str) -> RedisResult<ConnectionInfo>
    ensures { Gives (answer_of (spec.target_of_text text.now)) result }
{
    match parse_redis_url(alloc, text)? {
        Some(url) => Ok(target_of(alloc, &url)?),
        None => Err(RedisError::from(Refusal::NotUrl)),
    }
}
