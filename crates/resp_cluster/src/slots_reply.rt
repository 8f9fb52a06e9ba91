//! Replies to `CLUSTER SLOTS`.

ghost use Rattle.std.specs.Prelude.{◌≡◌};
ghost use Rattle.std.specs.Option.{option_copied};
ghost use Rattle.resp_cluster.specs.Maps.{covers, is_of};
ghost use Rattle.resp_cluster.specs.Replies.{Gives, IsHost, address, host_in, host_named};
ghost use Rattle.resp_cluster.specs.Replies.{node_in, node_of, nodes_in, number_below, range_in, range_of};
ghost use Rattle.resp_cluster.specs.Replies.{range_over, ranges_in, slots_in};

use crate::node::{NodeAddr, SlotRange, TopologyError};
use resp_containers::{Items, Text};
use resp_value::Value;
use std::alloc::Global;

/// The ranges of the entries, in order.
pub(crate) fn ranges_of(
    alloc: Global,
    asked: &str,
    entries: &[Value],
) -> Result<Items<SlotRange>, TopologyError>
    ensures { Gives (ranges_in asked.now entries.now) result }
{
    let mut ranges = Items::new(alloc);
    for entry in entries {
        ranges.push(range_of(alloc, asked, entry)?)?;
    }
    Ok(ranges)
}

/// The range of an entry.
fn range_of(alloc: Global, asked: &str, entry: &Value) -> Result<SlotRange, TopologyError>
    ensures { Gives (range_in asked.now entry.now) result }
{
    match entry {
        Value::Array(parts) => range_of_parts(alloc, asked, parts.as_slice()),
        _ => Err(TopologyError::BadShape),
    }
}

/// The range of an entry's parts: the first and the last slot, and nodes.
fn range_of_parts(alloc: Global, asked: &str, parts: &[Value]) -> Result<SlotRange, TopologyError>
    ensures { Gives (range_of asked.now parts.now) result }
{
    match parts {
        [first, last, nodes @ ..] => range_over(alloc, asked, slots_of(first, last)?, nodes),
        _ => Err(TopologyError::BadShape),
    }
}

/// The range of these slots and nodes, the primary first.
fn range_over(
    alloc: Global,
    asked: &str,
    slots: (u16, u16),
    nodes: &[Value],
) -> Result<SlotRange, TopologyError>
    ensures { Gives (range_over asked.now slots.0 slots.1 nodes.now) result }
{
    let [primary, replicas @ ..] = nodes else {
        return Err(TopologyError::BadShape);
    };
    let primary = node_of(alloc, asked, primary)?;
    let replicas = nodes_of(alloc, asked, replicas)?;
    Ok(SlotRange {
        first: slots.0,
        last: slots.1,
        primary,
        replicas,
    })
}

/// The first and the last slot of a range.
pub(crate) fn slots_of(first: &Value, last: &Value) -> Result<(u16, u16), TopologyError>
    ensures { result ≡ slots_in (number_below 16384 first.now) (number_below 16384 last.now) }
{
    match (slot_of(first), slot_of(last)) {
        (Some(first), Some(last)) if first <= last => Ok((first, last)),
        _ => Err(TopologyError::BadSlots),
    }
}

/// A number that is a slot.
fn slot_of(value: &Value) -> Option<u16>
    ensures { result ≡ number_below 16384 value.now }
{
    match value {
        Value::Int(number) if *number >= 0 && *number < 16384 => Some(*number as u16),
        _ => None,
    }
}

/// A number that is a port.
pub(crate) fn port_of(value: &Value) -> Option<u16>
    ensures { result ≡ number_below 65536 value.now }
{
    match value {
        Value::Int(number) if *number >= 0 && *number < 65536 => Some(*number as u16),
        _ => None,
    }
}

/// The addresses of nodes, but for those whose host isn't known.
fn nodes_of(alloc: Global, asked: &str, nodes: &[Value]) -> Result<Items<NodeAddr>, TopologyError>
    ensures { Gives (nodes_in asked.now nodes.now) result }
{
    let mut addresses = Items::new(alloc);
    for node in nodes {
        if let Some(address) = node_of(alloc, asked, node)? {
            addresses.push(address)?;
        }
    }
    Ok(addresses)
}

/// The address of a node, if its host is known.
fn node_of(alloc: Global, asked: &str, node: &Value) -> Result<Option<NodeAddr>, TopologyError>
    ensures { Gives (node_in asked.now node.now) result }
{
    match node {
        Value::Array(parts) => node_of_parts(alloc, asked, parts.as_slice()),
        _ => Err(TopologyError::BadNode),
    }
}

/// The address of a node's parts: a host, a port, and more.
fn node_of_parts(
    alloc: Global,
    asked: &str,
    parts: &[Value],
) -> Result<Option<NodeAddr>, TopologyError>
    ensures { Gives (node_of asked.now parts.now) result }
{
    match parts {
        [host, port, ..] => address(alloc, host_of(asked, host)?, port_of(port)),
        _ => Err(TopologyError::BadNode),
    }
}

/// The address of this host and port, if both are known.
pub(crate) fn address(
    alloc: Global,
    host: Option<&str>,
    port: Option<u16>,
) -> Result<Option<NodeAddr>, TopologyError>
    ensures { Gives (address (option_copied host.entry) port) result }
{
    match (host, port) {
        (Some(host), Some(port)) => Ok(Some(NodeAddr {
            host: Text::from_str(alloc, host)?,
            port,
        })),
        (None, Some(_)) => Ok(None),
        (_, None) => Err(TopologyError::BadNode),
    }
}

/// The host that a value names, if it is known.
pub(crate) fn host_of<'a>(asked: &'a str, host: &'a Value) -> Result<Option<&'a str>, TopologyError>
    ensures { IsHost (host_in asked.now host.now) result }
{
    match host {
        Value::Nil => Ok(Some(asked)),
        Value::BulkString(text) => host_named(asked, text.as_slice()),
        _ => Err(TopologyError::BadNode),
    }
}

/// The host that a text names, if it is known.
fn host_named<'a>(asked: &'a str, text: &'a [u8]) -> Result<Option<&'a str>, TopologyError>
    ensures { IsHost (host_named asked.now text.now) result }
{
    if text.is_empty() {
        return Ok(Some(asked));
    }
    if text == b"?".as_slice() {
        return Ok(None);
    }
    match std::str::from_utf8(text) {
        Ok(text) => Ok(Some(text)),
        Err(_) => Err(TopologyError::BadNode),
    }
}

impl SlotRange {
    /// Whether it has a slot.
    pub fn covers(&self, slot: u16) -> bool
        ensures { result ≡ covers slot self.now }
    {
        self.first <= slot && slot <= self.last
    }
    /// Whether it has this slot and no other.
    pub(crate) fn is_of(&self, slot: u16) -> bool
        ensures { result ≡ is_of slot self.now }
    {
        self.first == slot && self.last == slot
    }
}
