//! The map of slots, as nodes give it.

ghost use Rattle.std.specs.Prelude.{◌≡◌, ◌≢◌, IfOk, None};
ghost use Rattle.resp_cluster.specs.Cluster.{IsMapAnswer, IsMapOf};

use crate::links::{NodeLinks, Nodes};
use crate::node::{NodeAddr, TopologyError};
use crate::slot_map::SlotMap;
use resp_command::ConnectionLike;
use resp_value::{ErrorKind, RedisError, RedisResult, Value};
use std::alloc::Global;

/// Why no map was had.
#[derive(Drop)]
pub enum MapError {
    /// There was no node to ask.
    NoNode,
    /// The node wasn't reached.
    Unreached(RedisError),
    /// The node was asked, and the call failed.
    Failed(RedisError),
    /// Its reply gives no map.
    NoMap(TopologyError),
}

/// As an error of a connection: a node's failure is itself, and so is want of memory; where there was no
/// node to ask it is of kind `ClusterConnectionNotFound`, and where the reply gives no map
/// `UnexpectedReturnType`.
impl From<MapError> for RedisError {
    ghost use Rattle.std.specs.Prelude.{◌≡◌};
    ghost use Rattle.resp_cluster.specs.Cluster.{without_map};

    ghost from_gives = { λ why e. e ≡ without_map why };

    fn from(why: MapError) -> RedisError {
        match why {
            MapError::NoNode => RedisError::from((
                ErrorKind::ClusterConnectionNotFound,
                "no node to ask for the map of slots",
            )),
            MapError::Unreached(error) | MapError::Failed(error) => error,
            MapError::NoMap(TopologyError::OutOfMemory) => RedisError::OutOfMemory,
            MapError::NoMap(_) => RedisError::from((
                ErrorKind::UnexpectedReturnType,
                "the reply gives no map of slots",
            )),
        }
    }
}

/// The bytes of the command `CLUSTER SLOTS`.
const CLUSTER_SLOTS: &[u8] = b"*2\r\n$7\r\nCLUSTER\r\n$5\r\nSLOTS\r\n";

/// The map that a node's answer gives.
fn map_of_answer(
    alloc: Global,
    answer: RedisResult<Value>,
    node: &NodeAddr,
) -> Result<SlotMap, MapError>
    ensures { IsMapAnswer node.now answer result }
{
    match answer {
        Ok(reply) => map_of_reply(alloc, &reply, node),
        Err(error) => Err(MapError::Failed(error)),
    }
}

/// The map that a node's reply gives.
fn map_of_reply(alloc: Global, reply: &Value, node: &NodeAddr) -> Result<SlotMap, MapError>
    ensures { IsMapOf node.now reply.now result }
{
    match SlotMap::from_slots_reply(alloc, reply, node.host.as_str()) {
        Ok(map) => Ok(map),
        Err(error) => Err(MapError::NoMap(error)),
    }
}

impl<N: Nodes> NodeLinks<N> {
    ghost use Rattle.resp_command.specs.Call.{PackedCall};
    ghost use Rattle.resp_cluster.specs.Cluster.{AsksInTurn, AsksMap, AsksPrimaries, AsksReached};
    ghost use Rattle.resp_cluster.specs.Cluster.{slots_bytes};
    ghost use Rattle.resp_cluster.specs.Links.{UsesLast, last_used};

    /// Asks nodes for the map, one after another, until one gives it; where none does, answers why the
    /// last one didn't.
    pub(crate) fn ask_in_turn(&mut self, nodes: &[NodeAddr]) -> Result<SlotMap, MapError>
        ensures { AsksInTurn N.Link.connection nodes.now self.old self.new result }
    {
        let mut refused = MapError::NoNode;
        for node in nodes {
            match self.ask_map(node) {
                Ok(map) => return Ok(map),
                Err(error) => refused = error,
            }
        }
        Err(refused)
    }

    /// The same of the primaries that a map knows, each once. Takes no memory for them.
    pub(crate) fn ask_primaries(&mut self, known: &SlotMap) -> Result<SlotMap, MapError>
        ensures { AsksPrimaries N.Link.connection known.now self.old self.new result }
    {
        let mut why = MapError::NoNode;
        for place in 0..known.ranges().len() {
            let Some(node) = known.new_primary(place) else {
                continue;
            };
            match self.ask_map(node) {
                Ok(map) => return Ok(map),
                Err(error) => why = error,
            }
        }
        Err(why)
    }

    /// Asks a node for the map.
    fn ask_map(&mut self, node: &NodeAddr) -> Result<SlotMap, MapError>
        ensures { AsksMap N.Link.connection node.now self.old self.new result }
    {
        match self.reach(node) {
            Ok(()) => self.ask_reached(node),
            Err(error) => Err(MapError::Unreached(error)),
        }
    }

    /// Asks the node of the link that was used last.
    fn ask_reached(&mut self, node: &NodeAddr) -> Result<SlotMap, MapError>
        requires { last_used self.old ≢ None }
        ensures { AsksReached N.Link.connection node.now self.old self.new result }
    {
        let answer = self.ask_slots();
        map_of_answer(self.alloc, answer, node)
    }

    /// Sends `CLUSTER SLOTS` over the link that was used last.
    fn ask_slots(&mut self) -> RedisResult<Value>
        requires { last_used self.old ≢ None }
        ensures { UsesLast N.Link.connection (λ before after. PackedCall before after slots_bytes
            result) self.old self.new }
    {
        let last = self.last;
        self.links[last].link.req_packed_command(CLUSTER_SLOTS)
    }
}
