//! The parts of a URL.

ghost use Rattle.std.specs.Prelude.{◌≡◌, FitsSigned, IfOk};
ghost use Rattle.std.specs.Int.{w64};
ghost use Rattle.std.specs.Option.{option_copied};
ghost use Rattle.url.specs.Host.{borrowed_host};
ghost use Rattle.resp_connect.specs.Addresses as spec;
ghost use Rattle.resp_connect.specs.Answers.{Reads};

use crate::address::ConnectionAddr;
use crate::address::refusal::Refusal;
use crate::protocol::ProtocolChoice;
use percent_encoding::{DecodeError, percent_decode_str};
use resp_containers::Text;
use std::alloc::{AllocError, Global};
use url::{Host, Url};

/// The port of a URL that names none.
const DEFAULT_PORT: u16 = 6379;

/// The host and the port.
#[tactic(auto, unfolding(crate::specs::Addresses::tcp_address))]
pub(crate) fn tcp_address(alloc: Global, url: &Url) -> Result<ConnectionAddr, Refusal>
    ensures { Reads (spec.tcp_address url.now) result }
{
    let Some(host) = url.host() else {
        return Err(Refusal::Hostname);
    };
    let host = host_name(alloc, host)?;
    if is_wildcard(host.as_str()) {
        return Err(Refusal::Wildcard);
    }
    Ok(ConnectionAddr::Tcp(host, url.port().unwrap_or(DEFAULT_PORT)))
}

fn host_name(alloc: Global, host: Host<&str>) -> Result<Text, AllocError>
    ensures { IfOk result (λ name. name ≡ spec.host_name (borrowed_host host.entry)) }
{
    match host {
        Host::Domain(name) => Text::from_str(alloc, name),
        Host::Ipv4(address) => Ok(Text::from(format!(in alloc; "{address}")?)),
        Host::Ipv6(address) => Ok(Text::from(format!(in alloc; "{address}")?)),
    }
}

fn is_wildcard(host: &str) -> bool
    ensures { result ≡ spec.is_wildcard host.now }
{
    host == "0.0.0.0" || host == "::"
}

/// The path, below which nothing but `localhost` may stand.
#[tactic(auto, unfolding(crate::specs::Addresses::unix_address))]
pub(crate) fn unix_address(alloc: Global, url: &Url) -> Result<ConnectionAddr, Refusal>
    ensures { Reads (spec.unix_address url.now) result }
{
    if !is_local(url) || !has_path(url) {
        return Err(Refusal::Path);
    }
    Ok(ConnectionAddr::Unix(unescaped(alloc, Refusal::PathText, url.path())?))
}

fn is_local(url: &Url) -> bool
    ensures { result ≡ spec.is_local url.now }
{
    let authority = url.authority();
    authority.is_empty() || authority == "localhost"
}

fn has_path(url: &Url) -> bool
    ensures { result ≡ spec.has_path url.now }
{
    matches!(url.path().as_bytes(), [b'/', ..])
}

/// A user or a password, if the part isn't empty.
#[tactic(auto, unfolding(crate::specs::Addresses::credential))]
pub(crate) fn credential(
    alloc: Global,
    refusal: Refusal,
    part: &str,
) -> Result<Option<Text>, Refusal>
    ensures { Reads (spec.credential refusal part.now) result }
{
    if part.is_empty() {
        return Ok(None);
    }
    Ok(Some(unescaped(alloc, refusal, part)?))
}

/// The password as the URL has it, empty where there is none.
pub(crate) fn password_part(url: &Url) -> &str
    ensures { result.now ≡ url.now.password }
{
    match url.password() {
        Some(password) => password,
        None => "",
    }
}

/// A part without its escapes.
#[tactic(auto, unfolding(crate::specs::Addresses::unescaped))]
fn unescaped(alloc: Global, refusal: Refusal, part: &str) -> Result<Text, Refusal>
    ensures { Reads (spec.unescaped refusal part.now) result }
{
    match percent_decode_str(part).decode_utf8(alloc) {
        Ok(text) => Ok(Text::from_str(alloc, text.as_str())?),
        Err(DecodeError::OutOfMemory) => Err(Refusal::OutOfMemory),
        Err(DecodeError::Utf8(_)) => Err(refusal),
    }
}

/// What stands in a path between the slashes at its ends, if anything does.
pub(crate) fn between_slashes(path: &str) -> Option<&str>
    ensures { option_copied result ≡ spec.between_slashes path.now }
{
    let text = before_slashes(after_slashes(path));
    if text.is_empty() {
        return None;
    }
    Some(text)
}

/// The text without the slashes at its front.
fn after_slashes(text: &str) -> &str
    ensures { result.now ≡ spec.after_slashes text.now }
{
    let mut rest = text;
    while let Some(next) = rest.strip_prefix('/') {
        rest = next;
    }
    rest
}

/// The text without the slashes at its end.
fn before_slashes(text: &str) -> &str
    ensures { result.now ≡ spec.before_slashes text.now }
{
    let mut rest = text;
    while let Some(next) = rest.strip_suffix('/') {
        rest = next;
    }
    rest
}

/// A database by its number; none is database 0.
#[tactic(auto, unfolding(crate::specs::Addresses::database))]
pub(crate) fn database(text: Option<&str>) -> Result<i64, Refusal>
    ensures read { Reads (spec.database (option_copied text.entry)) result }
    ensures fits { IfOk result (λ db. FitsSigned w64 db) }
{
    match text {
        None => Ok(0),
        Some(text) => match text.parse::<i64>() {
            Ok(db) => Ok(db),
            Err(_) => Err(Refusal::Database),
        },
    }
}

/// A protocol by its name; none is RESP2.
#[tactic(auto, unfolding(crate::specs::Addresses::protocol))]
pub(crate) fn protocol(name: Option<&str>) -> Result<ProtocolChoice, Refusal>
    ensures { Reads (spec.protocol (option_copied name.entry)) result }
{
    match name {
        None => Ok(ProtocolChoice::RESP2),
        Some(name) => match ProtocolChoice::named(name) {
            Some(choice) => Ok(choice),
            None => Err(Refusal::Protocol),
        },
    }
}
