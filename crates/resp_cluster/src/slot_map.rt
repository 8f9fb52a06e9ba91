//! The map of slots.

ghost use Rattle.std.specs.Prelude.{◌≡◌, ◌≢◌, ◌↔◌, ℕ, [], Contains, IfOk, IsTrue, OnErr, OnOk};
ghost use Rattle.std.specs.Prelude.{Some};
ghost use Rattle.resp_cluster.specs.Primaries.{AreNodes, ArePrimaries, AreWithNew, AreWithRange};
ghost use Rattle.resp_cluster.specs.Primaries.{IsNewPrimary, IsPrimaryIn, IsWithNew, IsWithPrimary};
ghost use Rattle.resp_cluster.specs.Maps.{place_in};
ghost use Rattle.std.specs.Option.{option_copied};

use crate::node::{NodeAddr, PortKind, SlotRange, TopologyError};
use crate::shards_reply::ranges_of_shards;
use crate::slot_index::SlotIndex;
use crate::slots_reply::ranges_of;
use resp_containers::Items;
use resp_value::Value;
use std::alloc::{AllocError, Global};
use std::fmt;
use std::marker::Model;

/// Which nodes serve which slots: ranges of slots, of which the first that has a slot says where it
/// is. A slot that none has isn't served.
///
/// A map that a reply gave has an index of 32 KiB beside its ranges: a slot is found in it at once,
/// however many ranges there are.
///
/// Contracts see the list of its ranges.
#[derive(Drop)]
pub struct SlotMap {
    alloc: Global,
    ranges: Vec<SlotRange>,
    index: SlotIndex,
}

impl Model for SlotMap {
    ghost use Rattle.std.specs.Prelude.{List};
    ghost use Rattle.resp_cluster.specs.SlotIndexes.{IsIndex};
    ghost use Rattle.resp_cluster.specs.declared.node.SlotRange.{SlotRange};

    ghost Value = { List SlotRange };

    ghost view = { λ map. map.ranges.items };

    ghost invariant = { λ map. IsIndex map.ranges.items map.index };
}

impl fmt::Debug for SlotMap {
    fn fmt<W: fmt::Write>(&self, f: &mut fmt::Formatter<W>) -> fmt::Result {
        let ranges = self.ranges();
        write!(f, "SlotMap {{ ranges: {ranges:?} }}")
    }
}

impl SlotMap {
    ghost use Rattle.resp_cluster.specs.Maps.{primary_at, range_at, reader_at};
    ghost use Rattle.resp_cluster.specs.Maps.{with_primary, IsOwnPlace};
    ghost use Rattle.resp_cluster.specs.Replies.{Gives, map_in};
    ghost use Rattle.resp_cluster.specs.Shards.{map_of_shards};
    ghost use Rattle.resp_cluster.specs.declared.node.SlotRange.{SlotRange};
    ghost use Rattle.std.specs.Prelude.{◌<◌, length, slice_get, take};

    /// A map without ranges; takes no memory.
    pub fn new(alloc: Global) -> SlotMap
        ensures { result ≡ [] }
    {
        SlotMap {
            alloc,
            ranges: Vec::new(alloc),
            index: SlotIndex::new(alloc),
        }
    }

    /// The map that a reply to `CLUSTER SLOTS` gives: the ranges of its entries, in order. The node
    /// that was asked has this host: it stands for a host that is null or empty. A host `?` isn't
    /// known.
    ///
    /// Fails where the reply isn't as [`TopologyError`] says, and with `OutOfMemory`.
    pub fn from_slots_reply(
        alloc: Global,
        reply: &Value,
        asked: &str,
    ) -> Result<SlotMap, TopologyError>
        ensures { Gives (map_in asked.now reply.now) result }
    {
        match reply {
            Value::Array(entries) => {
                let ranges = ranges_of(alloc, asked, entries.as_slice())?;
                Ok(SlotMap::of(alloc, ranges.into_vec())?)
            }
            _ => Err(TopologyError::BadShape),
        }
    }

    /// The map that a reply to `CLUSTER SHARDS` gives: for each shard, in order, its ranges of
    /// slots with the first of its nodes that is a primary, and the others as replicas, whatever
    /// their health. A node has the host of its `endpoint`, as in
    /// [`from_slots_reply`](SlotMap::from_slots_reply), and the port of this kind.
    ///
    /// Fails where the reply isn't as [`TopologyError`] says, and with `OutOfMemory`.
    pub fn from_shards_reply(
        alloc: Global,
        reply: &Value,
        asked: &str,
        kind: &PortKind,
    ) -> Result<SlotMap, TopologyError>
        ensures { Gives (map_of_shards asked.now kind.now reply.now) result }
    {
        match reply {
            Value::Array(shards) => {
                let ranges = ranges_of_shards(alloc, asked, kind, shards.as_slice())?;
                Ok(SlotMap::of(alloc, ranges.into_vec())?)
            }
            _ => Err(TopologyError::BadShape),
        }
    }

    /// A map of these ranges. Fails only when out of memory.
    fn of(alloc: Global, ranges: Vec<SlotRange>) -> Result<SlotMap, AllocError>
        ensures { IfOk result (λ map. map ≡ ranges.items) }
    {
        let index = SlotIndex::of(alloc, ranges.as_slice())?;
        Ok(SlotMap {
            alloc,
            ranges,
            index,
        })
    }

    /// The ranges, in order.
    pub fn ranges(&self) -> &[SlotRange]
        ensures { result.now ≡ self.now }
    {
        self.ranges.as_slice()
    }

    /// The range that says where a slot is: the first that has it.
    pub fn range_at(&self, slot: u16) -> Option<&SlotRange>
        ensures { option_copied result ≡ range_at self.now slot }
    {
        self.ranges.get(self.place_of(slot))
    }

    /// The place of the range that says where a slot is, or how many ranges there are where none
    /// does.
    fn place_of(&self, slot: u16) -> usize
        ensures { result ≡ place_in slot self.now }
    {
        match self.index.distance(slot) {
            Some(distance) => self.ranges.len() - distance,
            None => place_in(self.ranges.as_slice(), slot),
        }
    }

    /// The primary of a slot, if the range that says where it is knows one.
    pub fn primary_at(&self, slot: u16) -> Option<&NodeAddr>
        ensures { option_copied result ≡ primary_at self.now slot }
    {
        self.range_at(slot)?.primary.as_ref()
    }

    /// The node of a slot that serves reads, where replicas do: of the replicas that the range of the
    /// slot knows, in order, that with the number of the slot modulo how many they are, so that slots
    /// spread over them; or the primary where none is known.
    pub fn reader_at(&self, slot: u16) -> Option<&NodeAddr>
        ensures { option_copied result ≡ reader_at self.now slot }
    {
        let range = self.range_at(slot)?;
        let replicas = range.replicas.as_slice();
        if replicas.is_empty() {
            return range.primary.as_ref();
        }
        replicas.get(usize::from(slot) % replicas.len())
    }

    /// Says that a slot is now at this node, as a server does by `MOVED`; no replica of it is
    /// known. Where the first range that has the slot has no other, its place is taken; else a
    /// range of this slot alone comes before the others. On `AllocError` the map is as it was.
    pub fn set_primary(&mut self, slot: u16, node: NodeAddr) -> Result<(), AllocError>
        ensures set { OnOk result (self.new ≡ with_primary slot node self.old) }
        ensures there { OnOk result (primary_at self.new slot ≡ Some node) }
        ensures elsewhere { OnOk result ((other : ℕ) → other ≢ slot
            → primary_at self.new other ≡ primary_at self.old other) }
        ensures unchanged { OnErr result (self.new ≡ self.old) }
    {
        let range = SlotRange {
            first: slot,
            last: slot,
            primary: Some(node),
            replicas: Items::new(self.alloc),
        };
        match self.own_place(slot) {
            Some(place) => {
                self.ranges[place] = range;
                Ok(())
            }
            None => {
                self.ranges.insert(0, range)?;
                self.index.enter(&self.ranges[0], self.ranges.len());
                Ok(())
            }
        }
    }

    /// The place of the first range that has a slot, if that range has no other.
    fn own_place(&self, slot: u16) -> Option<usize>
        ensures { IsOwnPlace slot self.now result }
    {
        let place = self.place_of(slot);
        let range = self.ranges.get(place)?;
        if range.is_of(slot) { Some(place) } else { None }
    }

    /// The primary of the range at this place, if it has one that no range before it has.
    pub(crate) fn new_primary(&self, place: usize) -> Option<&NodeAddr>
        requires { place < length self.now }
        ensures { (range : SlotRange) → slice_get self.now place ≡ Some range
            → IsNewPrimary (take place self.now) range (option_copied result) }
    {
        let node = self.ranges[place].primary.as_ref()?;
        if is_primary_in(&self.ranges[..place], node) {
            return None;
        }
        Some(node)
    }

    /// The primaries that the map knows, each once.
    pub fn primaries(&self, alloc: Global) -> Result<Items<NodeAddr>, AllocError>
        ensures { IfOk result (ArePrimaries self.now) }
    {
        let mut nodes = Items::new(alloc);
        for range in &self.ranges {
            push_primary(alloc, &mut nodes, range)?;
        }
        Ok(nodes)
    }

    /// The nodes that the map knows, primaries and replicas, each once.
    pub fn nodes(&self, alloc: Global) -> Result<Items<NodeAddr>, AllocError>
        ensures { IfOk result (AreNodes self.now) }
    {
        let mut nodes = Items::new(alloc);
        for range in &self.ranges {
            push_range(alloc, &mut nodes, range)?;
        }
        Ok(nodes)
    }
}

/// The place of the first range that has a slot, or how many ranges there are where none has it.
fn place_in(ranges: &[SlotRange], slot: u16) -> usize
    ensures { result ≡ place_in slot ranges.now }
{
    for (place, range) in ranges.iter().enumerate() {
        if range.covers(slot) {
            return place;
        }
    }
    ranges.len()
}

/// Whether a node is the primary of one of these ranges.
fn is_primary_in(ranges: &[SlotRange], node: &NodeAddr) -> bool
    ensures { IsTrue result ↔ IsPrimaryIn ranges.now node.now }
{
    ranges.iter().any(|range| range.is_led_by(node))
}

/// Adds the primary of a range and its replicas, but for those that are among these.
fn push_range(
    alloc: Global,
    nodes: &mut Items<NodeAddr>,
    range: &SlotRange,
) -> Result<(), AllocError>
    ensures { OnOk result (AreWithRange range.now nodes.old nodes.new) }
{
    push_primary(alloc, nodes, range)?;
    push_each_new(alloc, nodes, range.replicas.as_slice())
}

/// Adds each address that isn't among these.
fn push_each_new(
    alloc: Global,
    nodes: &mut Items<NodeAddr>,
    more: &[NodeAddr],
) -> Result<(), AllocError>
    ensures { OnOk result (AreWithNew more.now nodes.old nodes.new) }
{
    for node in more {
        push_new(alloc, nodes, node)?;
    }
    Ok(())
}

/// Adds the primary of a range, if it has one that isn't among these.
fn push_primary(
    alloc: Global,
    nodes: &mut Items<NodeAddr>,
    range: &SlotRange,
) -> Result<(), AllocError>
    ensures { OnOk result (IsWithPrimary range.now.primary nodes.old nodes.new) }
{
    match &range.primary {
        Some(node) => push_new(alloc, nodes, node),
        None => Ok(()),
    }
}

/// Adds an address that isn't among these.
fn push_new(alloc: Global, nodes: &mut Items<NodeAddr>, node: &NodeAddr) -> Result<(), AllocError>
    ensures { OnOk result (IsWithNew node.now nodes.old nodes.new) }
{
    if is_among(nodes.as_slice(), node) {
        return Ok(());
    }
    nodes.push(node.try_clone(alloc)?)
}

/// Whether an address is among these.
fn is_among(nodes: &[NodeAddr], node: &NodeAddr) -> bool
    ensures { IsTrue result ↔ Contains nodes.now node.now }
{
    nodes.iter().any(|other| other.is(node))
}
