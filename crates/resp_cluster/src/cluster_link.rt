//! A cluster's links, and one command over them.

ghost use Rattle.std.specs.Prelude.{◌≡◌, false, IfOk, IfErr, IfSome, Ok};
ghost use Rattle.std.specs.Option.{option_copied};
ghost use Rattle.resp_cluster.specs.Cluster.{any_node, first_node, first_primary, has_failed};
ghost use Rattle.resp_cluster.specs.Cluster.{last_link, new_cluster, no_node, node_at, only_reads};
ghost use Rattle.resp_cluster.specs.Cluster.{EndsWith, IsFirstPlace, Round, RoundOn, RoutedCall};
ghost use Rattle.resp_cluster.specs.Cluster.{answer_of, reached, CannotOpen, OnceMore, Opens, Readies};
ghost use Rattle.resp_cluster.specs.Cluster.{IsReached, ReachesOne, Refreshes, Rounds, RoundsOn};
ghost use Rattle.resp_cluster.specs.Links.{IsLastNode, SentRedirects};
ghost use Rattle.resp_cluster.specs.Routed.{IsUnfollowed};

mod fan_out;
mod spread;
mod transaction;

use crate::links::{NodeLinks, Nodes, Sent};
use crate::map_source::MapError;
use crate::node::NodeAddr;
use crate::one_node::route_to_one;
use crate::read_from::{ReadFrom, ReadOnly};
use crate::redirect::Redirect;
use crate::router::{RouteError, follow, go_on};
use crate::slot_map::SlotMap;
use resp_command::Cmd;
use resp_routing::{Route, args_of, is_readonly_cmd};
use resp_value::{ErrorKind, RedisError, RedisResult, Value};
use std::alloc::{AllocError, Global};
use std::marker::Model;

/// Links to the nodes of a cluster: a command goes over the link of the node that serves its slot.
///
/// Contracts see its links, its map, its budget, and whether the map is to be asked for before the
/// next command.
pub struct ClusterLink<N: Nodes> {
    alloc: Global,
    links: NodeLinks<N>,
    map: SlotMap,
    budget: u64,
    reads: ReadFrom,
    stale: bool,
}

/// By hand, so that the proof of a function that owns one has a call where it is dropped, and not a
/// case for each part.
impl<N: Nodes + Drop> Drop for ClusterLink<N> {
    #[inline(always)]
    fn drop(self) {
        let ClusterLink {
            alloc: _,
            links: _,
            map: _,
            budget: _,
            reads: _,
            stale: _,
        } = self;
    }
}

impl<N: Nodes> Model for ClusterLink<N> {
    ghost use Rattle.resp_cluster.specs.Cluster.{Cluster};

    ghost Value = { Cluster N.Link };

    ghost view = { λ c. record {
      links = c.links;
      map = c.map;
      budget = c.budget;
      reads = c.reads;
      stale = c.stale;
    } };
}

fn no_node() -> RedisError
    ensures { result ≡ no_node }
{
    RedisError::from((
        ErrorKind::ClusterConnectionNotFound,
        "the map has no node for the command",
    ))
}

impl SlotMap {
    /// The first primary that the map knows.
    fn first_primary(&self) -> Option<&NodeAddr>
        ensures { option_copied result ≡ first_primary self.now }
    {
        for range in self.ranges() {
            if let Some(node) = &range.primary {
                return Some(node);
            }
        }
        None
    }
}

impl Sent {
    /// Whether it is the failure of a call.
    fn has_failed(&self) -> bool
        ensures { result ≡ has_failed self.now }
    {
        match self {
            Sent::Answered(answer) => answer.is_err(),
            Sent::Unreached(_) => false,
        }
    }
}

impl<N: Nodes + Drop> ClusterLink<N> {
    /// One that has the map of the first of these nodes that gives one: they are asked in turn. The
    /// link to that node is the one that was used last. A command is sent on at most `budget`
    /// times.
    ///
    /// Fails where no node gives a map, as the last one did.
    pub fn open(
        alloc: Global,
        nodes: N,
        seeds: &[NodeAddr],
        budget: u64,
    ) -> Result<ClusterLink<N>, MapError>
        ensures opened { IfOk result (Opens N.Link.connection seeds.now budget) }
        ensures refused { IfErr result (CannotOpen N.Link.connection seeds.now) }
    {
        let mut links = NodeLinks::new(alloc, nodes);
        let map = links.ask_in_turn(seeds)?;
        Ok(ClusterLink {
            alloc,
            links,
            map,
            budget,
            reads: ReadFrom::Primary,
            stale: false,
        })
    }
}

impl<N: Nodes> ClusterLink<ReadOnly<N>> {
    /// Has commands that only read go to replicas from now on, by [`SlotMap::reader_at`]; those of a
    /// transaction still go to a primary. A replica may not have yet what was written last. Takes no
    /// memory.
    pub fn read_from_replicas(&mut self)
        ensures { self.new ≡ record self.old { reads = ReadFrom.Replica } }
    {
        self.reads = ReadFrom::Replica;
    }
}

impl<N: Nodes> ClusterLink<N> {
    /// One that has this map and opens links to nodes as commands need them. A command is sent on
    /// at most `budget` times. Takes no memory.
    pub fn new(alloc: Global, nodes: N, map: SlotMap, budget: u64) -> ClusterLink<N>
        ensures { result ≡ new_cluster map budget }
    {
        ClusterLink {
            alloc,
            links: NodeLinks::new(alloc, nodes),
            map,
            budget,
            reads: ReadFrom::Primary,
            stale: false,
        }
    }

    /// What gives it memory.
    pub(crate) fn allocator(&self) -> Global {
        self.alloc
    }

    /// The map of slots.
    pub fn map(&self) -> &SlotMap
        ensures { result.now ≡ self.now.map }
    {
        &self.map
    }

    /// The link that was used last, if one was opened.
    pub fn link(&self) -> Option<&N::Link>
        ensures { option_copied result ≡ last_link self.now.links }
    {
        match self.links.last_used() {
            Some(used) => Some(&used.link),
            None => None,
        }
    }

    /// Has a link to a node that works, as the one that was used last: what was opened before, or
    /// another in its place where that broke. Fails where the node isn't reached; nothing changes
    /// then.
    pub fn reach(&mut self, node: &NodeAddr) -> RedisResult<()>
        ensures { ReachesOne N.Link.connection node.now self.old self.new result }
    {
        self.links.reach(node)
    }

    /// The link to a node, as [`reach`](ClusterLink::reach) has it, to send commands over it: those
    /// that go to several nodes, or a scan for each node. Fails where the node isn't reached.
    ///
    /// No clause says what this becomes while the link is lent.
    pub fn link_to(&mut self, node: &NodeAddr) -> RedisResult<&mut N::Link>
        ensures works { IfOk result (λ link. (N.Link.connection link.now).broken ≡ false) }
        ensures reached { IfOk result (λ link. IsReached N.Link.connection node.now self.old
            link.now) }
    {
        self.links.reach(node)?;
        Ok(self.links.last_mut())
    }

    /// The node of the last used link, or the first primary.
    fn any_node(&self) -> Option<&NodeAddr>
        ensures { option_copied result ≡ any_node self.now }
    {
        match self.links.last_used() {
            Some(link) => Some(&link.node),
            None => self.map.first_primary(),
        }
    }

    /// The primary of a slot, or any node.
    fn primary_or_any(&self, route: &Route) -> Option<&NodeAddr>
        ensures { option_copied result ≡ first_node false route.now self.now }
    {
        match route {
            Route::Slot(slot) => self.map.primary_at(*slot),
            Route::Keyless(_) => self.any_node(),
        }
    }

    /// The node that a command is sent to first. Fails only when out of memory.
    #[inline(always)]
    #[tactic(auto, using(crate::proofs::Destinations::primary_to_all))]
    fn first_node(&self, route: &Route, command: &Cmd) -> Result<Option<&NodeAddr>, AllocError>
        ensures { IfOk result (λ node. option_copied node
            ≡ first_node (only_reads command.now) route.now self.now) }
    {
        match (&self.reads, route) {
            (ReadFrom::Replica, Route::Slot(slot)) => self.node_of(*slot, command),
            _ => Ok(self.primary_or_any(route)),
        }
    }

    /// The node of a command whose slot is this, where reads go to replicas. Fails only when out of
    /// memory.
    #[inline(never)]
    fn node_of(&self, slot: u16, command: &Cmd) -> Result<Option<&NodeAddr>, AllocError>
        ensures { IfOk result (λ node. option_copied node
            ≡ node_at (only_reads command.now) ReadFrom.Replica self.now.map slot) }
    {
        let args = args_of(self.alloc, command, b"0")?;
        Ok(self.node_at(slot, is_readonly_cmd(args.as_slice())))
    }

    /// The node that serves a slot, where reads go to replicas.
    fn node_at(&self, slot: u16, only_reads: bool) -> Option<&NodeAddr>
        ensures { option_copied result ≡ node_at only_reads ReadFrom.Replica self.now.map slot }
    {
        if only_reads {
            self.map.reader_at(slot)
        } else {
            self.map.primary_at(slot)
        }
    }

    /// Sends a command to its first node, and on to where redirects point.
    // Not inlined, as others below: a command that its node answers at once comes to none of them,
    // and clears no locals for them.
    #[inline(never)]
    fn round(&mut self, route: &Route, command: &Cmd) -> RedisResult<Sent>
        ensures { Round N.Link.connection command.now route.now self.old self.new result }
    {
        let Some(node) = self.first_node(route, command)? else {
            return Err(no_node());
        };
        let first = node.try_clone(self.alloc)?;
        let budget = self.budget;
        let outcome = follow(
            self.alloc,
            &mut self.links,
            &mut self.map,
            command,
            (first, false),
            budget,
        );
        let (sent, failed) = ended(outcome);
        self.stale = failed;
        Ok(sent)
    }

    /// The place of the link to the first node of a command, if one that works was opened to it.
    fn first_place(&self, route: &Route, command: &Cmd) -> Option<usize>
        ensures { IfSome result (λ place. IsFirstPlace N.Link.connection command.now route.now
            self.now place) }
    {
        match self.first_node(route, command) {
            Ok(Some(node)) => self.links.open_place(route, node),
            _ => None,
        }
    }

    /// Has a command go on from what its node answered: that of the link that was used last.
    #[inline(never)]
    fn round_on(&mut self, command: &Cmd, answer: RedisResult<Value>) -> Sent
        ensures { (node : NodeAddr) → IsLastNode node self.old.links
            → RoundOn N.Link.connection command.now node (Sent.Answered answer) self.old self.new
            result }
    {
        let Some(node) = self.links.last_node() else {
            self.stale = true;
            return Sent::Answered(answer);
        };
        let budget = self.budget;
        let outcome = go_on(
            self.alloc,
            &mut self.links,
            &mut self.map,
            command,
            &node,
            Sent::Answered(answer),
            budget,
        );
        let (sent, failed) = ended(outcome);
        self.stale = failed;
        sent
    }

    /// Asks for the map: the primaries that it knows are asked in turn, and where none gives one the
    /// map stays.
    #[inline(never)]
    fn refresh(&mut self)
        ensures { Refreshes N.Link.connection self.old self.new }
    {
        self.stale = false;
        let Ok(map) = self.links.ask_primaries(&self.map) else {
            return;
        };
        self.map = map;
    }

    /// Asks for the map where it is stale.
    fn make_ready(&mut self)
        ensures { Readies N.Link.connection self.old self.new }
    {
        if self.stale {
            self.refresh();
        }
    }

    /// Sends a command over the link of the node that it belongs to, and answers its reply.
    ///
    /// Refused unsent, with kind `Client`: an empty command; one that subscribes or unsubscribes
    /// and whose reply is waited for; one that goes to several nodes; one that changes what a link
    /// is, as `MULTI` and `SELECT`; one whose keys aren't known. Keys in several slots are refused
    /// as a server does, with `CROSSSLOT`.
    ///
    /// It goes to the primary of its slot, or after [`ClusterLink::read_from_replicas`] to a replica if
    /// it only reads; without keys to the node of the last used link, or to
    /// the first primary. After `MOVED` the map has learnt, and it goes there; after `ASK` it goes
    /// there after `ASKING`; at most so often as the budget says. Every other reply is the answer,
    /// and so is the failure of a call: a command that may have run isn't sent again, but the map
    /// is asked for before the next command. A link that broke is opened anew before anything is
    /// sent over it. Where that fails, the map is asked for, and the command is sent once more by
    /// it. Where memory runs out for a redirect, that is the answer.
    // Inlined, so that a caller who has this as a connection is answered by one function.
    #[inline(always)]
    pub fn req_routed(&mut self, command: &Cmd) -> RedisResult<Value>
        ensures { RoutedCall N.Link.connection command.now self.old self.new result }
    {
        let route = match route_to_one(self.alloc, command) {
            Ok(route) => route,
            Err(why) => return Err(why.to_redis_error(self.alloc)),
        };
        self.make_ready();
        let Some(place) = self.first_place(&route, command) else {
            return self.rounds_anew(&route, command);
        };
        let answer = self.links.send_at(place, &route, command);
        if may_redirect(&answer) {
            return self.rounds_on(&route, command, answer);
        }
        self.stale = answer.is_err();
        answer
    }

    /// Sends a command by its route, and once more where the last node wasn't reached.
    #[inline(never)]
    fn rounds_anew(&mut self, route: &Route, command: &Cmd) -> RedisResult<Value>
        ensures { Rounds N.Link.connection command.now route.now self.old self.new result }
    {
        match reached(self.round(route, command)) {
            Some(answer) => answer,
            None => self.once_more(route, command),
        }
    }

    /// Has a command go on from what its node answered, and sends it once more where the last node
    /// wasn't reached.
    #[inline(never)]
    fn rounds_on(
        &mut self,
        route: &Route,
        command: &Cmd,
        answer: RedisResult<Value>,
    ) -> RedisResult<Value>
        ensures { (node : NodeAddr) → IsLastNode node self.old.links
            → RoundsOn N.Link.connection command.now route.now node (Sent.Answered answer) self.old
            self.new result }
    {
        match reached(Ok(self.round_on(command, answer))) {
            Some(answer) => answer,
            None => self.once_more(route, command),
        }
    }

    /// Asks for the map, and sends a command by its route.
    #[inline(never)]
    fn once_more(&mut self, route: &Route, command: &Cmd) -> RedisResult<Value>
        ensures { OnceMore N.Link.connection command.now route.now self.old self.new result }
    {
        self.refresh();
        answer_of(self.round(route, command))
    }
}

/// What came of the last send, and whether the map is to be asked for: that failed, or memory ran
/// out for where it redirects.
fn ended(outcome: Result<Sent, RouteError<Sent>>) -> (Sent, bool)
    requires { IfErr outcome IsUnfollowed }
    ensures { EndsWith outcome result.0 result.1 }
{
    match outcome {
        Ok(sent) => {
            let failed = sent.has_failed();
            (sent, failed)
        }
        Err(RouteError::Unfollowed(sent)) => (sent, true),
        Err(_) => unreachable!(),
    }
}

/// Whether an answer is a reply that may redirect its command.
fn may_redirect(answer: &RedisResult<Value>) -> bool
    ensures { result ≡ false → (node : NodeAddr) → SentRedirects node (Sent.Answered answer.now)
        Redirect.Stays }
{
    match answer {
        Ok(reply) => reply_may_redirect(reply),
        Err(_) => false,
    }
}

/// Whether a reply may redirect its command: no other than a server's error does.
fn reply_may_redirect(reply: &Value) -> bool
    ensures { result ≡ false → (node : NodeAddr) → SentRedirects node (Sent.Answered (Ok reply.now))
        Redirect.Stays }
{
    match reply {
        Value::ServerError(_) => true,
        _ => false,
    }
}

/// What a caller is answered, but where the last node wasn't reached.
fn reached(outcome: RedisResult<Sent>) -> Option<RedisResult<Value>>
    ensures { result ≡ reached outcome }
{
    match outcome {
        Ok(Sent::Answered(answer)) => Some(answer),
        Ok(Sent::Unreached(_)) => None,
        Err(error) => Some(Err(error)),
    }
}

/// What a caller is answered.
fn answer_of(outcome: RedisResult<Sent>) -> RedisResult<Value>
    ensures { result ≡ answer_of outcome }
{
    match outcome {
        Ok(Sent::Answered(answer)) => answer,
        Ok(Sent::Unreached(error)) | Err(error) => Err(error),
    }
}
