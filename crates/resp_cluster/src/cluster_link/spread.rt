//! Several commands over the nodes of a cluster, and commands whose keys are in several slots.

ghost use Rattle.std.specs.Prelude.{◌≡◌, ◌≢◌, true, false, IfErr, IfOk};
ghost use Rattle.resp_errors.specs.declared.redis_error.RedisError.TheVariants as form;
ghost use Rattle.resp_routing.specs.Commands.{words};
ghost use Rattle.resp_routing.specs.declared.errors.RoutingError.TheVariants as refusal;
ghost use Rattle.resp_cluster.specs.Spread.{AreDestinations, HasNoDestination, IsDestination};
ghost use Rattle.resp_cluster.specs.Spread.{IsPartsOf, IsPlaceAmong, OneHasNone, SplitCall};
ghost use Rattle.resp_cluster.specs.Spread.{HasNoParts, SplitRefused};
ghost use Rattle.resp_cluster.specs.Spread.{SpreadCall, SpreadQuery, SpreadRefused, awaited};
ghost use Rattle.resp_cluster.specs.Transactions.{TransactionQuery};

use super::{ClusterLink, answer_of, no_node, reply_may_redirect};
use crate::gather::{SendGroups, follow_each, gather};
use crate::guesses::Guesses;
use crate::links::{Nodes, Sent};
use crate::merge::merged;
use crate::node::NodeAddr;
use crate::one_node::route_for;
use crate::router::{RouteError, go_on};
use crate::split::{Merge, Parts, entries, merge_of, split, width_of};
use resp_command::Cmd;
use resp_from::FromRedisValue;
use resp_pipeline::Pipeline;
use resp_routing::{RoutingError, args_of, command_info};
use resp_value::{RedisResult, Value};
use std::alloc::{AllocError, Global};

impl<N: Nodes> ClusterLink<N> {
    /// Sends commands to the nodes that they go to, each node one request of its commands in order, and
    /// answers a reply for each command, in its place. Those that `MOVED` and `ASK` redirect go on one
    /// by one, in order, each as often as the budget says.
    ///
    /// Refused unsent where [`ClusterLink::req_routed`] refuses one of them. Where a node isn't reached,
    /// or a call over its link fails, the error is answered: the commands of the nodes before it have
    /// run. After `OutOfMemory` all may have.
    pub fn req_commands(&mut self, commands: &[Cmd]) -> RedisResult<Vec<Value>>
        ensures spread { IfOk result (λ answers. SpreadCall N.Link.connection commands.now self.old
            answers.items self.new) }
        ensures refused { IfErr result (SpreadRefused N.Link.connection commands.now self.old
            self.new) }
    {
        self.make_ready();
        let (nodes, targets) = self.destinations(commands)?;
        let (nodes, targets) = (nodes.as_slice(), targets.as_slice());
        let alloc = self.alloc;
        let replies = gather(alloc, self, nodes, commands, targets)?;
        let answers = follow_each(alloc, self, nodes, commands, targets, replies)?;
        Ok(answers)
    }

    /// Sends a pipeline over the nodes that its commands go to, and converts their replies as
    /// [`Pipeline::query`] does. That may be called over these links, too: its bytes are then read
    /// back into commands.
    ///
    /// A transaction is sent to one node by [`Pipeline::query`]: that of the slot that its keys are in,
    /// or of the link that was used last where it has none. It is refused unsent with `CROSSSLOT` where
    /// its keys are in several slots, and where [`ClusterLink::req_routed`] refuses one of its commands.
    /// One that a node redirects is aborted as a whole, and not sent again: the map is asked for before
    /// the next command.
    ///
    /// Fails as [`ClusterLink::req_commands`] and [`Pipeline::query`] do.
    pub fn query_pipeline<T: FromRedisValue>(&mut self, pipeline: &Pipeline) -> RedisResult<T>
        ensures spread { pipeline.now.atomic ≡ false → SpreadQuery N.Link.connection pipeline.now
            T.of_value self.old self.new result }
        ensures transaction { pipeline.now.atomic ≡ true → TransactionQuery N.Link.connection
            pipeline.now T.of_value self.old self.new result }
    {
        if pipeline.is_transaction() {
            return self.query_transaction(pipeline);
        }
        let answers = self.req_commands(pipeline.commands())?;
        pipeline.outcome(answers)
    }

    /// Sends a command whose keys may be in several slots as one command for each slot, as
    /// [`ClusterLink::req_commands`] does, and answers what their replies make together: the values of
    /// `MGET`, each in the place of its key; the sum of the numbers of `DEL`, `UNLINK`, `EXISTS` and
    /// `TOUCH`; `OK` of `MSET`. It isn't atomic: other clients may see some parts done and others not.
    ///
    /// Refused, with nothing sent and nothing changed: any other command, as a server does, with
    /// `CROSSSLOT`; one that isn't in the table, or whose arguments don't make whole entries, with kind
    /// `Client`. Else it fails as [`ClusterLink::req_commands`] does with its parts; or, where each is
    /// replied to, with the first server's error in the replies, or with kind `UnexpectedReturnType`
    /// where they make no such answer.
    pub fn req_split(&mut self, command: &Cmd) -> RedisResult<Value>
        ensures answered { IfOk result (λ answer. SplitCall N.Link.connection command.now self.old
            answer self.new) }
        ensures refused { IfErr result (SplitRefused N.Link.connection command.now self.old
            self.new) }
    {
        let args = args_of(self.alloc, command, b"0")?;
        let (merge, parts) = match parts_of(self.alloc, args.as_slice()) {
            Ok(found) => found,
            Err(refusal) => return Err(refusal.to_redis_error(self.alloc)?),
        };
        let replies = self.req_commands(parts.commands.as_slice())?;
        let answer = merged(self.alloc, merge, parts.places.as_slice(), replies)?;
        Ok(answer)
    }

    /// The nodes that commands are sent to first, each once, and for each command the place of its node.
    fn destinations(&self, commands: &[Cmd]) -> RedisResult<(Vec<NodeAddr>, Vec<usize>)>
        ensures found { IfOk result (λ found. AreDestinations self.now commands.now found.0.items
            found.1.items) }
        ensures none { IfErr result (λ e. e ≢ form.OutOfMemory → OneHasNone self.now commands.now e) }
    {
        let mut nodes = Vec::new(self.alloc);
        let mut targets = Vec::with_capacity(self.alloc, commands.len())?;
        let mut guesses = Guesses::new();
        for command in commands {
            let node = self.destination(command)?;
            targets.push(place_among(self.alloc, &mut nodes, &mut guesses, node)?)?;
        }
        Ok((nodes, targets))
    }

    /// The node that a command is sent to first.
    fn destination(&self, command: &Cmd) -> RedisResult<&NodeAddr>
        ensures found { IfOk result (λ node. IsDestination self.now command.now node.now) }
        ensures none { IfErr result (λ e. e ≢ form.OutOfMemory
            → HasNoDestination self.now command.now e) }
    {
        let route = route_for(self.alloc, command)?;
        match self.first_node(&route, command)? {
            Some(node) => Ok(node),
            None => Err(no_node()),
        }
    }
}

/// The parts of a command, given its arguments, and how their replies are put together.
fn parts_of(alloc: Global, args: &[&[u8]]) -> Result<(Merge, Parts), RoutingError>
    ensures found { IfOk result (λ found. IsPartsOf (words args.now) found.0 found.1.commands.items
        found.1.places.items) }
    ensures none { IfErr result (λ why. why ≢ refusal.OutOfMemory → HasNoParts (words args.now) why) }
{
    let Some(info) = command_info(args) else {
        return Err(RoutingError::UnknownCommand);
    };
    let Some(merge) = merge_of(info) else {
        return Err(RoutingError::CrossSlot);
    };
    let [name, rest @ ..] = args else {
        return Err(RoutingError::UnknownCommand);
    };
    let entries = entries(alloc, rest, width_of(&info.keys))?;
    match split(alloc, name, entries.as_slice()) {
        Ok(parts) => Ok((merge, parts)),
        Err(_) => Err(RoutingError::OutOfMemory),
    }
}

/// The same command, as one whose reply is waited for.
fn awaited(command: &Cmd) -> Result<Cmd, AllocError>
    ensures { IfOk result (λ c. c ≡ awaited command.now) }
{
    let mut awaited = command.try_clone()?;
    awaited.set_no_response(false);
    Ok(awaited)
}

/// The place of a node among others; it is added where it isn't there.
fn place_among(
    alloc: Global,
    nodes: &mut Vec<NodeAddr>,
    guesses: &mut Guesses,
    node: &NodeAddr,
) -> Result<usize, AllocError>
    ensures { IfOk result (IsPlaceAmong nodes.old.items node.now nodes.new.items) }
{
    let key = hash_of(node);
    let guess = guesses.of(key);
    if guess < nodes.len() && nodes[guess].is(node) {
        return Ok(guess);
    }
    for place in 0..nodes.len() {
        if nodes[place].is(node) {
            return Ok(place);
        }
    }
    let place = nodes.len();
    nodes.push(node.try_clone(alloc)?)?;
    guesses.set(key, place);
    Ok(place)
}

/// A hash of a node's address.
fn hash_of(node: &NodeAddr) -> usize {
    let mut hash = usize::from(node.port);
    for byte in node.host.as_str().as_bytes() {
        hash = hash.wrapping_mul(31).wrapping_add(usize::from(*byte));
    }
    hash
}

impl<N: Nodes> SendGroups for ClusterLink<N> {
    ghost use Rattle.resp_cluster.specs.Spread.{FollowsReply, SendsGroup};

    ghost sends = { SendsGroup N.Link.connection };

    ghost follows = { FollowsReply N.Link.connection };

    fn send_group(
        &mut self,
        node: &NodeAddr,
        request: &[u8],
        count: usize,
    ) -> RedisResult<Vec<Value>> {
        match self.links.reach(node) {
            Ok(()) => {
                let replies = self.links.send_request_over_last(request, count);
                if replies.is_err() {
                    self.stale = true;
                }
                replies
            }
            Err(error) => {
                self.stale = true;
                Err(error)
            }
        }
    }

    fn follow_reply(&mut self, node: &NodeAddr, command: &Cmd, reply: Value) -> RedisResult<Value> {
        if !reply_may_redirect(&reply) {
            return Ok(reply);
        }
        if !command.is_no_response() {
            return self.follow_awaited(node, command, reply);
        }
        let Ok(awaited) = awaited(command) else {
            self.stale = true;
            return Ok(reply);
        };
        self.follow_awaited(node, &awaited, reply)
    }
}

impl<N: Nodes> ClusterLink<N> {
    ghost use Rattle.resp_cluster.specs.Spread.{FollowsReply};

    /// Sends a command whose reply is waited for on to where the reply of a node points.
    fn follow_awaited(&mut self, node: &NodeAddr, command: &Cmd, reply: Value) -> RedisResult<Value>
        requires { command.now.no_response ≡ false }
        ensures { FollowsReply N.Link.connection self.old self.new node.now command.now reply result }
    {
        let (alloc, budget) = (self.alloc, self.budget);
        let sent = Sent::Answered(Ok(reply));
        match go_on(
            alloc,
            &mut self.links,
            &mut self.map,
            command,
            node,
            sent,
            budget,
        ) {
            Ok(sent) => {
                let failed = sent.has_failed();
                let answer = answer_of(Ok(sent));
                if failed {
                    self.stale = true;
                }
                answer
            }
            Err(RouteError::Unfollowed(sent)) => {
                self.stale = true;
                answer_of(Ok(sent))
            }
            Err(_) => unreachable!(),
        }
    }
}
