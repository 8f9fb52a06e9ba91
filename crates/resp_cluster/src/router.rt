//! One command over the nodes of a cluster.

ghost use Rattle.std.specs.Prelude.{◌≡◌, IfOk, IfErr, OnErr};
ghost use Rattle.resp_cluster.specs.Routed.{DidNotGoOn, Followed, Learns, NotFollowed, NotRouted, Routed, WentOn};

use crate::node::NodeAddr;
use crate::redirect::Redirect;
use crate::slot_map::SlotMap;
use resp_command::Cmd;
use std::alloc::{AllocError, Global};

/// What one command is sent by: the nodes of a cluster, and the links to them.
pub trait SendCommand<T: Drop> {
    ghost use Rattle.std.specs.Prelude.{Bool, IfOk};
    ghost use Rattle.resp_command.specs.Command.{Command};
    ghost use Rattle.resp_cluster.specs.declared.node.NodeAddr.{NodeAddr};
    ghost use Rattle.resp_cluster.specs.declared.redirect.Redirect.{Redirect};

    /// What sending a command to a node does, after `ASKING` or not, and what comes of it.
    ghost sends: { Command → Self → Self → NodeAddr → Bool → T → Type 0 };

    /// Where what came of it at a node sends the command.
    ghost redirects: { NodeAddr → T → Redirect → Type 0 };

    /// Sends the command to a node, after `ASKING` where that is so.
    fn send(&mut self, command: &Cmd, node: &NodeAddr, asking: bool) -> T
        ensures { sends command.now self.old self.new node.now asking result };

    /// Where what came of it at a node sends the command. Fails only when out of memory.
    fn redirect_of(&self, node: &NodeAddr, sent: &T) -> Result<Redirect, AllocError>
        ensures { IfOk result (redirects node.now sent.now) };
}

/// Why a command wasn't sent as far as redirects ask for.
#[derive(Drop)]
pub enum RouteError<T: Drop> {
    /// The map knows no primary of the slot. Nothing was sent.
    NoNode,
    /// There was no memory for the primary's address. Nothing was sent.
    OutOfMemory,
    /// There was no memory for where this, which came of the last send, sends the command.
    Unfollowed(T),
}

impl<T: Drop> From<AllocError> for RouteError<T> {
    ghost use Rattle.std.specs.Prelude.{◌≡◌};
    ghost use Rattle.resp_cluster.specs.declared.router.RouteError.TheVariants.{OutOfMemory};

    ghost from_gives = { λ _ e. e ≡ OutOfMemory };

    fn from(_error: AllocError) -> RouteError<T> {
        RouteError::OutOfMemory
    }
}

/// Sends a command to the primary of its slot, and follows redirects with at most `budget` more
/// sends. The map learns from each `MOVED`.
pub fn route<T: Drop, S: SendCommand<T>>(
    alloc: Global,
    nodes: &mut S,
    map: &mut SlotMap,
    command: &Cmd,
    slot: u16,
    budget: u64,
) -> Result<T, RouteError<T>>
    ensures routed { IfOk result (λ answer. Routed (S.sends command.now) S.redirects slot budget
        nodes.old map.old nodes.new map.new answer) }
    ensures not_routed { IfErr result (NotRouted (S.sends command.now) S.redirects slot budget
        nodes.old map.old nodes.new map.new) }
{
    let Some(primary) = map.primary_at(slot) else {
        return Err(RouteError::NoNode);
    };
    let primary = primary.try_clone(alloc)?;
    follow(alloc, nodes, map, command, (primary, false), budget)
}

/// Sends a command to this node, after `ASKING` where that is so, and on to where redirects point.
pub(crate) fn follow<T: Drop, S: SendCommand<T>>(
    alloc: Global,
    nodes: &mut S,
    map: &mut SlotMap,
    command: &Cmd,
    first: (NodeAddr, bool),
    budget: u64,
) -> Result<T, RouteError<T>>
    ensures followed { IfOk result (λ answer. Followed (S.sends command.now) S.redirects first
        budget nodes.old map.old nodes.new map.new answer) }
    ensures not_followed { IfErr result (NotFollowed (S.sends command.now) S.redirects first budget
        nodes.old map.old nodes.new map.new) }
{
    let (mut node, mut asking) = first;
    let mut left = budget;
    loop {
        let answer = nodes.send(command, &node, asking);
        let Ok(next) = learn(alloc, nodes, map, &node, &answer) else {
            return Err(RouteError::Unfollowed(answer));
        };
        let Some((to, ask)) = next else {
            return Ok(answer);
        };
        if left == 0 {
            return Ok(answer);
        }
        node = to;
        asking = ask;
        left -= 1;
    }
}

/// Sends a command that a node replied to on to where the reply points; one that points nowhere is the
/// answer.
pub(crate) fn go_on<T: Drop, S: SendCommand<T>>(
    alloc: Global,
    nodes: &mut S,
    map: &mut SlotMap,
    command: &Cmd,
    node: &NodeAddr,
    reply: T,
    budget: u64,
) -> Result<T, RouteError<T>>
    ensures went { IfOk result (λ answer. WentOn (S.sends command.now) S.redirects node.now reply
        budget nodes.old map.old nodes.new map.new answer) }
    ensures did_not { IfErr result (DidNotGoOn (S.sends command.now) S.redirects node.now reply budget
        nodes.old map.old nodes.new map.new) }
{
    let Ok(next) = learn(alloc, nodes, map, node, &reply) else {
        return Err(RouteError::Unfollowed(reply));
    };
    let Some(to) = next else {
        return Ok(reply);
    };
    if budget == 0 {
        return Ok(reply);
    }
    follow(alloc, nodes, map, command, to, budget - 1)
}

/// Has the map learn of where an answer sends its command, and says where that is.
fn learn<T: Drop, S: SendCommand<T>>(
    alloc: Global,
    nodes: &S,
    map: &mut SlotMap,
    node: &NodeAddr,
    answer: &T,
) -> Result<Option<(NodeAddr, bool)>, AllocError>
    ensures learns { IfOk result (Learns (S.redirects node.now answer.now) map.old map.new) }
    ensures unchanged { OnErr result (map.new ≡ map.old) }
{
    match nodes.redirect_of(node, answer)? {
        Redirect::Stays => Ok(None),
        Redirect::Moved(slot, node) => {
            let to = node.try_clone(alloc)?;
            map.set_primary(slot, node)?;
            Ok(Some((to, false)))
        }
        Redirect::Ask(node) => Ok(Some((node, true))),
    }
}
