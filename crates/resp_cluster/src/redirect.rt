//! Where a reply sends its command.

ghost use Rattle.std.specs.Prelude.{◌≡◌, ◌==◌, ◌<◌, ℕ, IfOk, MatchOption, length, if◌then◌else◌};
ghost use Rattle.resp_errors.specs.Numerals.{UnsignedText};
ghost use Rattle.resp_cluster.specs.Redirects.{ErrorRedirects, NamesAddr, NamesPlace, Redirects};

use crate::node::NodeAddr;
use resp_containers::Text;
use resp_errors::{ServerError, ServerErrorKind};
use resp_routing::SLOT_COUNT;
use resp_value::Value;
use std::alloc::{AllocError, Global};

/// Where a reply sends its command.
#[derive(Debug, Drop)]
pub enum Redirect {
    /// Nowhere: it is the answer. So are `TRYAGAIN` and `CLUSTERDOWN`, and the failure of a link:
    /// a command that may have run isn't sent again.
    Stays,
    /// To this node, where the slot is from now on: `MOVED`.
    Moved(u16, NodeAddr),
    /// To this node, this once and after `ASKING`: `ASK`.
    Ask(NodeAddr),
}

/// Where a reply sends its command: the errors `MOVED SLOT HOST:PORT` and `ASK SLOT HOST:PORT` send
/// it to that node, and nothing else sends it anywhere. `asked` is the host of the node that
/// replied: it stands for an empty host.
///
/// The slot is below 16384, the port has 16 bits, and the host is what stands before the last
/// colon, so that it may be an address of IPv6. Fails only when out of memory.
pub fn redirect_of(alloc: Global, reply: &Value, asked: &str) -> Result<Redirect, AllocError>
    ensures { IfOk result (Redirects asked.now reply.now) }
{
    match reply {
        Value::ServerError(error) => redirect_of_error(alloc, error, asked),
        _ => Ok(Redirect::Stays),
    }
}

fn redirect_of_error(
    alloc: Global,
    error: &ServerError,
    asked: &str,
) -> Result<Redirect, AllocError>
    ensures { IfOk result (ErrorRedirects asked.now error.now) }
{
    match (error.kind(), error.details()) {
        (Some(ServerErrorKind::Moved), Some(text)) => match place_of(alloc, text, asked)? {
            Some((slot, node)) => Ok(Redirect::Moved(slot, node)),
            None => Ok(Redirect::Stays),
        },
        (Some(ServerErrorKind::Ask), Some(text)) => match place_of(alloc, text, asked)? {
            Some((_, node)) => Ok(Redirect::Ask(node)),
            None => Ok(Redirect::Stays),
        },
        _ => Ok(Redirect::Stays),
    }
}

/// The slot and the node of a text, if it is `SLOT HOST:PORT`.
fn place_of(alloc: Global, text: &str, asked: &str) -> Result<Option<(u16, NodeAddr)>, AllocError>
    ensures { IfOk result (λ place. MatchOption place
        ((slot : ℕ) (node : NodeAddr) → NamesPlace asked.now text.now slot node → ⊥)
        (λ p. NamesPlace asked.now text.now p.0 p.1)) }
{
    let Some((slot, address)) = text.split_once(' ') else {
        return Ok(None);
    };
    let Some(slot) = slot_number(slot) else {
        return Ok(None);
    };
    match node_of(alloc, address, asked)? {
        Some(node) => Ok(Some((slot, node))),
        None => Ok(None),
    }
}

/// The number that a text spells, if it is a slot.
fn slot_number(text: &str) -> Option<u16>
    ensures { MatchOption result
        ((slot : ℕ) → UnsignedText 16 text.now slot → slot < SLOT_COUNT → ⊥)
        (λ slot. UnsignedText 16 text.now slot × (slot < SLOT_COUNT)) }
{
    match text.parse::<u16>() {
        Ok(slot) => { if slot < SLOT_COUNT { Some(slot) } else { None } }
        Err(_) => None,
    }
}

/// The node of a text, if it is `HOST:PORT`.
fn node_of(alloc: Global, text: &str, asked: &str) -> Result<Option<NodeAddr>, AllocError>
    ensures { IfOk result (λ node. MatchOption node
        ((n : NodeAddr) → NamesAddr asked.now text.now n → ⊥) (NamesAddr asked.now text.now)) }
{
    let Some((host, port)) = text.rsplit_once(':') else {
        return Ok(None);
    };
    let Ok(port) = port.parse::<u16>() else {
        return Ok(None);
    };
    Ok(Some(NodeAddr {
        host: Text::from_str(alloc, host_or(host, asked))?,
        port,
    }))
}

/// A host, or that of the node that was asked where it is empty.
fn host_or<'a>(host: &'a str, asked: &'a str) -> &'a str
    ensures { result.now ≡ (if length host.now == 0 then asked.now else host.now) }
{
    if host.is_empty() { asked } else { host }
}
