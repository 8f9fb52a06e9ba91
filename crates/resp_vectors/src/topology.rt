//! Maps of slots.

use crate::rows::{Row, malformed, number_of, text_of};
use crate::texts::add_part;
use resp_cluster::{
    NodeAddr, PortKind, Redirect, RouteError, SendCommand, SlotMap, SlotRange, TopologyError,
    redirect_of, route,
};
use resp_core::{Cmd, RedisError, RedisResult, Text, Value, parse_redis_value};
use std::alloc::{AllocError, Global};

/// `slots-map HOST < BYTES`
pub fn of_slots(alloc: Global, row: &Row) -> RedisResult<String> {
    match row.question()? {
        ([host], incoming) => {
            let asked = text_of(host.as_slice())?;
            slots_in(alloc, &parse_redis_value(alloc, incoming)?, asked)
        }
        _ => Err(malformed()),
    }
}

/// The ranges of the map that a reply gives.
fn slots_in(alloc: Global, reply: &Value, asked: &str) -> RedisResult<String> {
    described(alloc, SlotMap::from_slots_reply(alloc, reply, asked))
}

/// `shards-map HOST PORT-KIND < BYTES`
pub fn of_shards(alloc: Global, row: &Row) -> RedisResult<String> {
    match row.question()? {
        ([host, kind], incoming) => {
            let asked = text_of(host.as_slice())?;
            let kind = port_kind(text_of(kind.as_slice())?)?;
            shards_in(alloc, &parse_redis_value(alloc, incoming)?, asked, &kind)
        }
        _ => Err(malformed()),
    }
}

/// The ranges of the map that a reply gives, with ports of this kind.
fn shards_in(alloc: Global, reply: &Value, asked: &str, kind: &PortKind) -> RedisResult<String> {
    described(alloc, SlotMap::from_shards_reply(alloc, reply, asked, kind))
}

fn port_kind(name: &str) -> RedisResult<PortKind> {
    match name {
        "plain" => Ok(PortKind::Plain),
        "tls" => Ok(PortKind::Tls),
        _ => Err(malformed()),
    }
}

/// The ranges of a map, or its refusal.
fn described(alloc: Global, map: Result<SlotMap, TopologyError>) -> RedisResult<String> {
    match map {
        Ok(map) => {
            let mut text = String::new(alloc);
            for range in map.ranges() {
                add_range(alloc, &mut text, range)?;
            }
            Ok(text)
        }
        Err(TopologyError::OutOfMemory) => Err(RedisError::OutOfMemory),
        Err(error) => Ok(format!(in alloc; "refused: {error:?}")?),
    }
}

/// Appends a range: its slots, its primary or `?`, and its replicas.
fn add_range(alloc: Global, text: &mut String, range: &SlotRange) -> RedisResult<()> {
    let (first, last) = (range.first, range.last);
    add_part(text, format!(in alloc; "{first}-{last}")?.as_str())?;
    match &range.primary {
        Some(primary) => add_part(text, named(alloc, primary)?.as_str())?,
        None => add_part(text, "?")?,
    }
    for replica in range.replicas.as_slice() {
        add_part(text, named(alloc, replica)?.as_str())?;
    }
    Ok(text.push(';')?)
}

fn named(alloc: Global, node: &NodeAddr) -> RedisResult<String> {
    Ok(format!(in alloc; "{}:{}", node.host.as_str(), node.port)?)
}

/// `slot-at HOST SLOT.. < BYTES`
pub fn primaries(alloc: Global, row: &Row) -> RedisResult<String> {
    match row.question()? {
        ([host, slots @ ..], incoming) => {
            let map = map_of(alloc, host.as_slice(), incoming)?;
            let mut text = String::new(alloc);
            for slot in slots {
                add_primary(alloc, &mut text, &map, slot_number(slot.as_slice())?)?;
            }
            Ok(text)
        }
        _ => Err(malformed()),
    }
}

/// Appends the primary of a slot.
fn add_primary(alloc: Global, text: &mut String, map: &SlotMap, slot: u16) -> RedisResult<()> {
    match map.primary_at(slot) {
        Some(primary) => add_part(text, named(alloc, primary)?.as_str()),
        None => add_part(text, "none"),
    }
}

fn map_of(alloc: Global, host: &[u8], incoming: &[u8]) -> RedisResult<SlotMap> {
    map_in(alloc, &parse_redis_value(alloc, incoming)?, text_of(host)?)
}

fn map_in(alloc: Global, reply: &Value, asked: &str) -> RedisResult<SlotMap> {
    SlotMap::from_slots_reply(alloc, reply, asked).map_err(|_| malformed())
}

fn slot_number(word: &[u8]) -> RedisResult<u16> {
    u16::try_from(number_of(word)?).map_err(|_| malformed())
}

/// `follow HOST SLOT BUDGET REPLY.. < BYTES`
pub fn follow(alloc: Global, row: &Row) -> RedisResult<String> {
    match row.question()? {
        ([host, slot, budget, replies @ ..], incoming) => {
            let slot = slot_number(slot.as_slice())?;
            let budget = number_of(budget.as_slice())?;
            let mut map = map_of(alloc, host.as_slice(), incoming)?;
            let script = Script::new(alloc, replies)?;
            let text = followed(alloc, script, &mut map, slot, budget)?;
            with_primary(alloc, text, &map, slot)
        }
        _ => Err(malformed()),
    }
}

/// What was sent to which node, and how the command ended.
fn followed(
    alloc: Global,
    mut script: Script,
    map: &mut SlotMap,
    slot: u16,
    budget: u64,
) -> RedisResult<String> {
    let answer = route(alloc, &mut script, map, &Cmd::new(alloc), slot, budget);
    let mut text = script.into_sends();
    add_part(&mut text, end_of(alloc, answer)?.as_str())?;
    Ok(text)
}

/// The text, and then the primary of a slot.
fn with_primary(alloc: Global, mut text: String, map: &SlotMap, slot: u16) -> RedisResult<String> {
    add_primary(alloc, &mut text, map, slot)?;
    Ok(text)
}

/// How a command ended.
fn end_of(alloc: Global, answer: Result<Reply, RouteError<Reply>>) -> RedisResult<String> {
    match answer {
        Ok(reply) => Ok(format!(in alloc; "reply {}", reply.number)?),
        Err(RouteError::NoNode) => Ok(String::from_str(alloc, "refused: NoNode")?),
        Err(_error) => Err(RedisError::OutOfMemory),
    }
}

/// Nodes that reply with redirects, one after another, and note what they are sent.
#[derive(Drop)]
struct Script {
    alloc: Global,
    redirects: Vec<Redirect>,
    count: u64,
    sends: String,
}

impl Script {
    fn new(alloc: Global, replies: &[Vec<u8>]) -> RedisResult<Script> {
        let mut redirects = Vec::new(alloc);
        for reply in replies.iter().rev() {
            redirects.push(redirect_named(alloc, text_of(reply.as_slice())?)?)?;
        }
        Ok(Script {
            alloc,
            redirects,
            count: 0,
            sends: String::new(alloc),
        })
    }

    fn into_sends(self) -> String {
        let Script {
            alloc: _,
            redirects: _,
            count: _,
            sends,
        } = self;
        sends
    }

    fn note(&mut self, node: &NodeAddr, asking: bool) -> RedisResult<()> {
        if asking {
            add_part(&mut self.sends, "asking")?;
        }
        add_part(&mut self.sends, named(self.alloc, node)?.as_str())
    }
}

/// A reply: which it is, and where it sends its command.
#[derive(Drop)]
struct Reply {
    number: u64,
    redirect: Redirect,
}

impl SendCommand<Reply> for Script {
    ghost use Rattle.std.specs.Prelude.{⊤};

    ghost sends = { λ _ _ _ _ _ _. ⊤ };

    ghost redirects = { λ _ _ _. ⊤ };

    fn send(&mut self, _command: &Cmd, node: &NodeAddr, asking: bool) -> Reply {
        let _ = self.note(node, asking);
        self.count = self.count.saturating_add(1);
        Reply {
            number: self.count,
            redirect: self.redirects.pop().unwrap_or(Redirect::Stays),
        }
    }

    fn redirect_of(&self, _node: &NodeAddr, sent: &Reply) -> Result<Redirect, AllocError> {
        match &sent.redirect {
            Redirect::Stays => Ok(Redirect::Stays),
            Redirect::Moved(slot, node) => {
                Ok(Redirect::Moved(*slot, node.try_clone(self.alloc)?))
            }
            Redirect::Ask(node) => Ok(Redirect::Ask(node.try_clone(self.alloc)?)),
        }
    }
}

/// `redirect HOST < BYTES`
pub fn redirect(alloc: Global, row: &Row) -> RedisResult<String> {
    match row.question()? {
        ([host], incoming) => {
            let host = text_of(host.as_slice())?;
            redirect_in(alloc, &parse_redis_value(alloc, incoming)?, host)
        }
        _ => Err(malformed()),
    }
}

/// Where a reply sends its command.
fn redirect_in(alloc: Global, reply: &Value, host: &str) -> RedisResult<String> {
    where_to(alloc, &redirect_of(alloc, reply, host)?)
}

/// Where a redirect sends its command.
fn where_to(alloc: Global, redirect: &Redirect) -> RedisResult<String> {
    match redirect {
        Redirect::Stays => Ok(String::from_str(alloc, "stays")?),
        Redirect::Moved(slot, node) => {
            let node = named(alloc, node)?;
            Ok(format!(in alloc; "moved {slot} {node}")?)
        }
        Redirect::Ask(node) => {
            let node = named(alloc, node)?;
            Ok(format!(in alloc; "ask {node}")?)
        }
    }
}

/// The redirect of a word: `ok`, `moved:SLOT:PORT` or `ask:PORT`.
fn redirect_named(alloc: Global, word: &str) -> RedisResult<Redirect> {
    match word.split_once(':') {
        None => Ok(Redirect::Stays),
        Some(("ask", port)) => Ok(Redirect::Ask(node_of(alloc, port)?)),
        Some((_, rest)) => match rest.split_once(':') {
            Some((slot, port)) => Ok(Redirect::Moved(
                slot_number(slot.as_bytes())?,
                node_of(alloc, port)?,
            )),
            None => Err(malformed()),
        },
    }
}

/// The node of this port.
fn node_of(alloc: Global, port: &str) -> RedisResult<NodeAddr> {
    Ok(NodeAddr {
        host: Text::from_str(alloc, "h")?,
        port: slot_number(port.as_bytes())?,
    })
}
