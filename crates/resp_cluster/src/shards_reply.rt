//! Replies to `CLUSTER SHARDS`.

ghost use Rattle.std.specs.Prelude.{◌≡◌, ◌∷◌, ◌++◌, [], Ok, Err, IfOk, IfErr, OnOk, MatchResult, map};
ghost use Rattle.std.specs.Option.{option_and_then, option_copied};
ghost use Rattle.resp_cluster.specs.Replies.{Gives, number_below};
ghost use Rattle.resp_cluster.specs.Shards.{AddsAll, addr_in, elements_of, field_in, is_primary};
ghost use Rattle.resp_cluster.specs.Shards.{is_text, port_name, primary_in, range_of_shard};
ghost use Rattle.resp_cluster.specs.Shards.{replicas_in, served_by, shard_in, shards_in, slot_pairs};

use crate::node::{NodeAddr, PortKind, SlotRange, TopologyError};
use crate::slots_reply::{address, host_of, port_of, slots_of};
use resp_containers::Items;
use resp_value::Value;
use std::alloc::{AllocError, Global};

/// The nodes that serve a shard.
#[derive(Debug, Drop)]
pub(crate) struct Served {
    primary: Option<NodeAddr>,
    replicas: Items<NodeAddr>,
}

/// The ranges of the shards, in order.
pub(crate) fn ranges_of_shards(
    alloc: Global,
    asked: &str,
    kind: &PortKind,
    shards: &[Value],
) -> Result<Items<SlotRange>, TopologyError>
    ensures { Gives (shards_in asked.now kind.now shards.now) result }
{
    let mut ranges = Items::new(alloc);
    for shard in shards {
        push_shard(alloc, asked, kind, shard, &mut ranges)?;
    }
    Ok(ranges)
}

/// Appends the ranges of a shard.
fn push_shard(
    alloc: Global,
    asked: &str,
    kind: &PortKind,
    shard: &Value,
    ranges: &mut Items<SlotRange>,
) -> Result<(), TopologyError>
    ensures { AddsAll (shard_in asked.now kind.now shard.now) ranges.old ranges.new result }
{
    let pairs = slot_pairs(alloc, elements(field(shard, b"slots"))?)?;
    let served = served_by(alloc, asked, kind, elements(field(shard, b"nodes"))?)?;
    push_ranges(alloc, &served, pairs.as_slice(), ranges)
}

/// Appends a range for each two slots.
fn push_ranges(
    alloc: Global,
    served: &Served,
    pairs: &[(u16, u16)],
    ranges: &mut Items<SlotRange>,
) -> Result<(), TopologyError>
    ensures ok { OnOk result (ranges.new
        ≡ ranges.old ++ map (range_of_shard served.now) pairs.now) }
    ensures memory { IfErr result (λ e. e ≡ TopologyError.OutOfMemory) }
{
    for pair in pairs {
        ranges.push(range_of_shard(alloc, served, *pair)?)?;
    }
    Ok(())
}

/// A range of these slots.
fn range_of_shard(
    alloc: Global,
    served: &Served,
    slots: (u16, u16),
) -> Result<SlotRange, AllocError>
    ensures { IfOk result (λ range. range ≡ range_of_shard served.now slots) }
{
    Ok(SlotRange {
        first: slots.0,
        last: slots.1,
        primary: clone_addr(alloc, &served.primary)?,
        replicas: clone_addrs(alloc, &served.replicas)?,
    })
}

fn clone_addr(alloc: Global, addr: &Option<NodeAddr>) -> Result<Option<NodeAddr>, AllocError>
    ensures { IfOk result (λ copy. copy ≡ addr.now) }
{
    match addr {
        Some(addr) => Ok(Some(addr.try_clone(alloc)?)),
        None => Ok(None),
    }
}

fn clone_addrs(alloc: Global, addrs: &Items<NodeAddr>) -> Result<Items<NodeAddr>, AllocError>
    ensures { IfOk result (λ copies. copies ≡ addrs.now) }
{
    let mut copies = Items::new(alloc);
    for addr in addrs.as_slice() {
        push_addr(alloc, &mut copies, addr)?;
    }
    Ok(copies)
}

/// Adds an equal address.
fn push_addr(alloc: Global, addrs: &mut Items<NodeAddr>, addr: &NodeAddr) -> Result<(), AllocError>
    ensures { OnOk result (addrs.new ≡ addrs.old ++ addr.now ∷ []) }
{
    addrs.push(addr.try_clone(alloc)?)
}

/// Slots two by two.
fn slot_pairs(alloc: Global, slots: &[Value]) -> Result<Items<(u16, u16)>, TopologyError>
    ensures { Gives (slot_pairs slots.now) result }
{
    let mut pairs = Items::new(alloc);
    let mut rest = slots;
    while let [first, last, more @ ..] = rest {
        pairs.push(slots_of(first, last)?)?;
        rest = more;
    }
    if rest.is_empty() {
        Ok(pairs)
    } else {
        Err(TopologyError::BadSlots)
    }
}

/// The nodes that serve a shard, of these.
fn served_by(
    alloc: Global,
    asked: &str,
    kind: &PortKind,
    nodes: &[Value],
) -> Result<Served, TopologyError>
    ensures { Gives (served_by asked.now kind.now nodes.now) result }
{
    let primary = primary_of(alloc, asked, kind, nodes)?;
    let replicas = replicas_of(alloc, asked, kind, nodes)?;
    Ok(Served { primary, replicas })
}

/// The address of the first primary.
fn primary_of(
    alloc: Global,
    asked: &str,
    kind: &PortKind,
    nodes: &[Value],
) -> Result<Option<NodeAddr>, TopologyError>
    ensures { Gives (primary_in asked.now kind.now nodes.now) result }
{
    for node in nodes {
        if is_primary(node) {
            return addr_of(alloc, asked, kind, node);
        }
    }
    Ok(None)
}

/// The addresses of the others.
fn replicas_of(
    alloc: Global,
    asked: &str,
    kind: &PortKind,
    nodes: &[Value],
) -> Result<Items<NodeAddr>, TopologyError>
    ensures { Gives (replicas_in asked.now kind.now nodes.now) result }
{
    let mut addrs = Items::new(alloc);
    for node in nodes {
        if is_primary(node) {
            continue;
        }
        if let Some(addr) = addr_of(alloc, asked, kind, node)? {
            addrs.push(addr)?;
        }
    }
    Ok(addrs)
}

/// The address of a node, if its host is known.
fn addr_of(
    alloc: Global,
    asked: &str,
    kind: &PortKind,
    node: &Value,
) -> Result<Option<NodeAddr>, TopologyError>
    ensures { Gives (addr_in asked.now kind.now node.now) result }
{
    let host = match field(node, b"endpoint") {
        Some(host) => host_of(asked, host)?,
        None => return Err(TopologyError::BadNode),
    };
    address(alloc, host, port_field(kind, node))
}

/// The port of a node.
fn port_field(kind: &PortKind, node: &Value) -> Option<u16>
    ensures { result ≡ option_and_then (number_below 65536) (field_in (port_name kind.now) node.now) }
{
    let name = match kind {
        PortKind::Plain => b"port".as_slice(),
        PortKind::Tls => b"tls-port".as_slice(),
    };
    port_of(field(node, name)?)
}

/// Whether a node is a primary.
fn is_primary(node: &Value) -> bool
    ensures { result ≡ is_primary node.now }
{
    match field(node, b"role") {
        Some(role) => is_text(role, b"master"),
        None => false,
    }
}

/// The elements of a field that is an array.
fn elements(value: Option<&Value>) -> Result<&[Value], TopologyError>
    ensures { MatchResult result
        (λ elements. elements_of (option_copied value.entry) ≡ Ok elements.now)
        (λ e. elements_of (option_copied value.entry) ≡ Err e) }
{
    match value {
        Some(Value::Array(elements)) => Ok(elements.as_slice()),
        _ => Err(TopologyError::BadShape),
    }
}

/// The value of this key of a map.
fn field<'a>(value: &'a Value, key: &[u8]) -> Option<&'a Value>
    ensures { option_copied result ≡ field_in key.now value.now }
{
    let mut entries = value.as_map_iter()?;
    while let Some((name, field)) = entries.next() {
        if is_text(name, key) {
            return Some(field);
        }
    }
    None
}

/// Whether the value is this text, as a bulk string.
fn is_text(value: &Value, text: &[u8]) -> bool
    ensures { result ≡ is_text text.now value.now }
{
    match value {
        Value::BulkString(bytes) => bytes.as_slice() == text,
        _ => false,
    }
}
