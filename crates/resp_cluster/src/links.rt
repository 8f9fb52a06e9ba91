//! Links to the nodes of a cluster.

ghost use Rattle.std.specs.Prelude.{◌≡◌, ◌≢◌, false, IfOk, IfSome, OnOk, Some, None};
ghost use Rattle.resp_cluster.specs.Links.{IsTold, SendsOver, readonly_bytes, without_reply};

use crate::guesses::Guesses;
use crate::node::NodeAddr;
use crate::redirect::{Redirect, redirect_of};
use crate::router::SendCommand;
use resp_command::{Cmd, ConnectionLike, Unrouted};
use resp_routing::Route;
use resp_value::{RedisError, RedisResult, Value};
use std::alloc::{AllocError, Global};
use std::marker::Model;

/// A way to the nodes of a cluster: it opens a connection to any of them and greets it, as often as
/// it is asked.
pub trait Nodes {
    /// The connections that it opens.
    type Link: Unrouted + Drop;

    /// Opens a connection to a node and greets it. Fails where the node isn't reached, or refuses
    /// the greeting.
    fn connect(&mut self, node: &NodeAddr) -> RedisResult<Self::Link>
        ensures works { IfOk result (λ link. (Self.Link.connection link).broken ≡ false) };
}

/// A link, and the node that it leads to.
#[derive(Drop)]
pub struct NodeLink<L> {
    /// The node.
    pub node: NodeAddr,
    /// The link.
    pub link: L,
}

/// What came of sending a command to a node.
#[derive(Drop)]
pub enum Sent {
    /// No link to the node was had, and nothing was sent.
    Unreached(RedisError),
    /// What its link answered.
    Answered(RedisResult<Value>),
}

/// The links that were opened to nodes, and which of them was used last.
pub(crate) struct NodeLinks<N: Nodes> {
    pub(crate) alloc: Global,
    nodes: N,
    pub(crate) links: Vec<NodeLink<N::Link>>,
    pub(crate) last: usize,
    /// Where the link to the node of a slot is looked for first, by groups of slots.
    guesses: Guesses,
}

/// By hand, so that the proof of a function that owns one has a call where it is dropped, and not a
/// case for each part.
impl<N: Nodes + Drop> Drop for NodeLinks<N> {
    #[inline(always)]
    fn drop(self) {
        let NodeLinks {
            alloc: _,
            nodes: _,
            links: _,
            last: _,
            guesses: _,
        } = self;
    }
}

impl<N: Nodes> Model for NodeLinks<N> {
    ghost use Rattle.resp_cluster.specs.Links.{Links};

    ghost Value = { Links N.Link };

    ghost view = { λ l. record { links = l.links.items; last = l.last } };
}

impl<N: Nodes> NodeLinks<N> {
    ghost use Rattle.resp_command.specs.Call.{AnswersFrom, Call};
    ghost use Rattle.resp_cluster.specs.Links.{IsAt, IsPlaceOf, HasNoLink, Reaches, SendsOver};
    ghost use Rattle.resp_cluster.specs.Links.{IsLastNode, IsOpenAt, UsesLast};
    ghost use Rattle.resp_cluster.specs.Links.{last_used, no_links};
    ghost use Rattle.std.specs.Prelude.{◌<◌, length, option_map, slice_get};
    ghost use Rattle.std.specs.Option.{option_copied};

    /// No link yet. Takes no memory.
    pub(crate) fn new(alloc: Global, nodes: N) -> NodeLinks<N>
        ensures { result ≡ no_links }
    {
        NodeLinks {
            alloc,
            nodes,
            links: Vec::new(alloc),
            last: 0,
            guesses: Guesses::new(),
        }
    }

    /// The link that was used last, with its node.
    pub(crate) fn last_used(&self) -> Option<&NodeLink<N::Link>>
        ensures { option_copied result ≡ last_used self.now }
    {
        self.links.get(self.last)
    }

    /// The node of the link that was used last; None also where there is no memory for its address.
    pub(crate) fn last_node(&self) -> Option<NodeAddr>
        ensures { IfSome result (λ node. IsLastNode node self.now) }
    {
        match self.last_used()?.node.try_clone(self.alloc) {
            Ok(node) => Some(node),
            Err(_) => None,
        }
    }

    /// Has a link to a node that works, as the one that was used last.
    pub(crate) fn reach(&mut self, node: &NodeAddr) -> RedisResult<()>
        ensures { Reaches N.Link.connection node.now self.old self.new result }
    {
        match self.place_of(node) {
            Some(place) => self.reach_at(place, node),
            None => self.open(node),
        }
    }

    /// The place of the link to a node.
    fn place_of(&self, node: &NodeAddr) -> Option<usize>
        ensures { IsPlaceOf node.now self.now result }
    {
        for (place, link) in self.links.iter().enumerate() {
            if link.node.is(node) {
                return Some(place);
            }
        }
        None
    }

    /// The place of the link to a node, the first of a command with this route, if it works.
    pub(crate) fn open_place(&self, route: &Route, node: &NodeAddr) -> Option<usize>
        ensures { IfSome result (λ place. IsOpenAt N.Link.connection place node.now self.now) }
    {
        let place = self.place_near(self.guess(route), node)?;
        let works = self.links[place].link.is_open();
        if works { Some(place) } else { None }
    }

    /// Where the link for a command with this route is looked for first.
    fn guess(&self, route: &Route) -> usize {
        match route {
            Route::Slot(slot) => self.guesses.of(group(*slot)),
            Route::Keyless(_) => self.last,
        }
    }

    /// The place of the link to a node, which may be this one.
    fn place_near(&self, guess: usize, node: &NodeAddr) -> Option<usize>
        ensures { IsPlaceOf node.now self.now result }
    {
        if guess < self.links.len() && self.links[guess].node.is(node) {
            return Some(guess);
        }
        self.place_of(node)
    }

    /// The same of a node whose link is at this place.
    fn reach_at(&mut self, place: usize, node: &NodeAddr) -> RedisResult<()>
        requires { IsPlaceOf node.now self.old (Some place) }
        ensures { Reaches N.Link.connection node.now self.old self.new result }
    {
        if self.links[place].link.is_open() {
            self.last = place;
            return Ok(());
        }
        let link = self.nodes.connect(node)?;
        self.links[place].link = link;
        self.last = place;
        Ok(())
    }

    /// The same of a node to which no link was opened.
    fn open(&mut self, node: &NodeAddr) -> RedisResult<()>
        requires { HasNoLink node.now self.old }
        ensures { Reaches N.Link.connection node.now self.old self.new result }
    {
        let node_of_link = node.try_clone(self.alloc)?;
        let link = self.nodes.connect(node)?;
        let place = self.links.len();
        self.links.push(NodeLink {
            node: node_of_link,
            link,
        })?;
        self.last = place;
        Ok(())
    }

    /// The link that was used last.
    pub(crate) fn last_mut(&mut self) -> &mut N::Link
        requires { last_used self.old ≢ None }
        ensures { option_map (λ link. link.link) (last_used self.old) ≡ Some result.now }
    {
        let last = self.last;
        &mut self.links[last].link
    }

    /// Sends a command with this route over the link at this place.
    pub(crate) fn send_at(
        &mut self,
        place: usize,
        route: &Route,
        command: &Cmd,
    ) -> RedisResult<Value>
        requires { slice_get self.old.links place ≢ None }
        ensures { UsesLast N.Link.connection (λ before after. SendsOver before after false
            command.now result) (record self.old { last = place }) self.new }
    {
        self.last = place;
        if let Route::Slot(slot) = route {
            self.guesses.set(group(*slot), place);
        }
        self.send_over_last(command, false)
    }

    /// Sends a command over the link that was used last, after `ASKING` where that is so.
    fn send_over_last(&mut self, command: &Cmd, asking: bool) -> RedisResult<Value>
        requires { last_used self.old ≢ None }
        ensures { UsesLast N.Link.connection (λ before after. SendsOver before after asking
            command.now result) self.old self.new }
    {
        let last = self.last;
        send_over(&mut self.links[last].link, command, asking)
    }

    /// Sends a request of so many commands over the link that was used last.
    pub(crate) fn send_request_over_last(
        &mut self,
        request: &[u8],
        count: usize,
    ) -> RedisResult<Vec<Value>>
        requires { last_used self.old ≢ None }
        ensures sent { UsesLast N.Link.connection (λ before after. Call before after ⊥ ⊥ request.now count
            result (AnswersFrom (λ vs. vs.items) 0 result)) self.old self.new }
        ensures counted { IfOk result (λ vs. length vs.items ≡ count) }
    {
        let last = self.last;
        self.links[last].link.req_packed_commands(request, 0, count)
    }
}

/// The group of a slot: 16 in a row share a guess.
fn group(slot: u16) -> usize {
    usize::from(slot / 16)
}

/// The bytes of the command `ASKING`.
const ASKING: &[u8] = b"*1\r\n$6\r\nASKING\r\n";

/// The bytes of the command `READONLY`.
const READONLY: &[u8] = b"*1\r\n$8\r\nREADONLY\r\n";

/// Sends a command over a link, after `ASKING` where that is so.
fn send_over<L: ConnectionLike>(link: &mut L, command: &Cmd, asking: bool) -> RedisResult<Value>
    ensures { SendsOver (L.connection link.old) (L.connection link.new) asking command.now result }
{
    if !asking {
        return link.req_command(command);
    }
    tell(link, ASKING)?;
    link.req_command(command)
}

/// Tells a node by `READONLY` that its link only reads, so that a replica serves what it asks for. A
/// node that refuses it redirects instead. Fails where the call over the link does.
pub fn read_only<L: Unrouted>(link: &mut L) -> RedisResult<()>
    ensures told { IsTold readonly_bytes (L.connection link.old) (L.connection link.new) result }
    ensures works { (L.connection link.old).broken ≡ false
        → OnOk result ((L.connection link.new).broken ≡ false) }
{
    tell(link, READONLY)
}

/// Sends a packed command over a link, and leaves its reply.
fn tell<L: ConnectionLike>(link: &mut L, command: &[u8]) -> RedisResult<()>
    ensures { IsTold command.now (L.connection link.old) (L.connection link.new) result }
{
    let answer = link.req_packed_command(command);
    without_reply(answer)
}

/// An answer without its reply.
fn without_reply(answer: RedisResult<Value>) -> RedisResult<()>
    ensures { result ≡ without_reply answer }
{
    match answer {
        Ok(_) => Ok(()),
        Err(error) => Err(error),
    }
}

impl<N: Nodes> SendCommand<Sent> for NodeLinks<N> {
    ghost use Rattle.resp_cluster.specs.Links.{SendsTo, SentRedirects};

    ghost sends = { SendsTo N.Link.connection };

    ghost redirects = { SentRedirects };

    fn send(&mut self, command: &Cmd, node: &NodeAddr, asking: bool) -> Sent {
        match self.reach(node) {
            Ok(()) => Sent::Answered(self.send_over_last(command, asking)),
            Err(error) => Sent::Unreached(error),
        }
    }

    fn redirect_of(&self, node: &NodeAddr, sent: &Sent) -> Result<Redirect, AllocError> {
        match sent {
            Sent::Answered(Ok(reply)) => redirect_of(self.alloc, reply, node.host.as_str()),
            _ => Ok(Redirect::Stays),
        }
    }
}
