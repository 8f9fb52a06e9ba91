//! A command that goes to several nodes of a cluster.

ghost use Rattle.std.specs.Prelude.{◌≡◌, ◌≢◌, ◌⊎◌, None, Some, true, IfErr, IfOk, length, replicate};
ghost use Rattle.std.specs.List.{find, range_with_len};
ghost use Rattle.resp_errors.specs.declared.redis_error.RedisError.TheVariants as form;
ghost use Rattle.resp_cluster.specs.FannedOut.{AreNamed, CannotCombine, CannotFanOut, Combines};
ghost use Rattle.resp_cluster.specs.FannedOut.{FanOutCall, FanOutRefused, FansOut, Makes, SentToEach};
ghost use Rattle.resp_cluster.specs.FannedOut.{names_several, not_several};
ghost use Rattle.resp_cluster.specs.FannedOut.{one_is_enough, policy_of, succeeds};
ghost use Rattle.resp_cluster.specs.Gathered.{RefusedGroup};
ghost use Rattle.resp_cluster.specs.Merges.{MakesNone, first_error_in, why_none};
ghost use Rattle.resp_cluster.specs.Spread.{SendsGroup};

use super::{ClusterLink, no_node};
use crate::gather::gather;
use crate::links::Nodes;
use crate::merge::{by_address, joined, least_of, sum_of, unexpected, without_errors};
use crate::node::NodeAddr;
use crate::slot_map::SlotMap;
use crate::truths::logical_and;
use resp_command::Cmd;
use resp_containers::Items;
use resp_routing::{RequestPolicy, ResponsePolicy, Route, args_of, command_info, route_of};
use resp_value::{ErrorKind, RedisError, RedisResult, Value};
use std::alloc::{AllocError, Global};

/// The policies of a command that goes to several nodes.
#[derive(Drop)]
struct Policies {
    to: RequestPolicy,
    makes: Option<ResponsePolicy>,
}

impl<N: Nodes> ClusterLink<N> {
    /// Sends a command without keys to each node that the server's request policy for it names, all
    /// primaries or all nodes, one after the other, and answers what their replies make by its
    /// [`ResponsePolicy`]:
    ///
    /// - `AllSucceeded`, as of `FLUSHALL`, `SCRIPT LOAD` and `CONFIG SET`: the first reply;
    /// - `OneSucceeded`, as of `SCRIPT KILL`: the first reply that is no error;
    /// - `AggLogicalAnd`, as of `SCRIPT EXISTS`: an array of 1 where all have a 1, else 0;
    /// - `AggMin`, as of `WAIT`: the least number;
    /// - `AggSum`, as of `DBSIZE`: the sum;
    /// - `Special`, as of `INFO`: a map of the replies by the nodes' addresses, `HOST:PORT`;
    /// - none, as of `KEYS`: one array of the items of all, where a reply that is no array is an item.
    ///
    /// Refused, with nothing sent and nothing changed: with kind `Client` a command that goes to one
    /// node; and one without a route, as [`ClusterLink::req_routed`] refuses it. Refused unsent where
    /// the map has no such node, with kind `ClusterConnectionNotFound`.
    ///
    /// Where a node isn't reached or a call over its link fails, the error is answered: the nodes before
    /// it have run the command. After `OutOfMemory` all may have. Where all have replied, the first
    /// server's error in the replies is answered, but where one success is enough; or kind
    /// `UnexpectedReturnType` where they make no such answer.
    pub fn req_fan_out(&mut self, command: &Cmd) -> RedisResult<Value>
        ensures answered { IfOk result (λ answer. FanOutCall N.Link.connection command.now self.old
            answer self.new) }
        ensures refused { IfErr result (FanOutRefused N.Link.connection command.now self.old
            self.new) }
    {
        let policies = policies_of(self.alloc, command)?;
        self.make_ready();
        let nodes = self.map.named_by(self.alloc, &policies.to)?;
        if nodes.is_empty() {
            return Err(no_node());
        }
        let replies = self.send_to_each(nodes.as_slice(), command)?;
        let answer = combined(self.alloc, &policies.makes, nodes.as_slice(), replies)?;
        Ok(answer)
    }

    /// Sends a command to each of these nodes, one after the other.
    fn send_to_each(&mut self, nodes: &[NodeAddr], command: &Cmd) -> RedisResult<Vec<Value>>
        ensures sent { IfOk result (λ replies. SentToEach N.Link.connection command.now nodes.now
            self.old replies.items self.new) }
        ensures refused { IfErr result (RefusedGroup (SendsGroup N.Link.connection)
            (replicate (length nodes.now) command.now) (range_with_len 0 (length nodes.now)) nodes.now
            self.old self.new) }
    {
        let alloc = self.alloc;
        let commands = copies(alloc, command, nodes.len())?;
        let places = places(alloc, nodes.len())?;
        let replies = gather(alloc, self, nodes, commands.as_slice(), places.as_slice())?;
        Ok(replies)
    }
}

impl SlotMap {
    /// The nodes that a request policy names.
    fn named_by(&self, alloc: Global, to: &RequestPolicy) -> Result<Items<NodeAddr>, AllocError>
        requires { names_several to.now ≡ true }
        ensures { IfOk result (AreNamed to.now self.now) }
    {
        match to {
            RequestPolicy::AllShards => self.primaries(alloc),
            RequestPolicy::AllNodes => self.nodes(alloc),
            RequestPolicy::MultiShard | RequestPolicy::Special => unreachable!(),
        }
    }
}

/// The policies of a command that goes to several nodes.
fn policies_of(alloc: Global, command: &Cmd) -> RedisResult<Policies>
    ensures found { IfOk result (λ policies. FansOut command.now policies.to policies.makes) }
    ensures refused { IfErr result (λ e. e ≢ form.OutOfMemory → CannotFanOut command.now e) }
{
    let args = args_of(alloc, command, b"0")?;
    let words = args.as_slice();
    let route = match route_of(alloc, words) {
        Ok(route) => route,
        Err(refusal) => return Err(refusal.to_redis_error(alloc)?),
    };
    let Some(info) = command_info(words) else {
        return Err(not_several());
    };
    let Some(to) = policy_of(route) else {
        return Err(not_several());
    };
    if names_several(&to) {
        return Ok(Policies {
            to,
            makes: info.response_policy,
        });
    }
    Err(not_several())
}

/// The request policy of a route, where it has one.
fn policy_of(route: Route) -> Option<RequestPolicy>
    ensures { result ≡ policy_of route }
{
    match route {
        Route::Slot(_) => None,
        Route::Keyless(policy) => policy,
    }
}

/// Whether a request policy names several nodes.
fn names_several(to: &RequestPolicy) -> bool
    ensures { result ≡ names_several to.now }
{
    match to {
        RequestPolicy::AllShards | RequestPolicy::AllNodes => true,
        RequestPolicy::MultiShard | RequestPolicy::Special => false,
    }
}

fn not_several() -> RedisError
    ensures { result ≡ not_several }
{
    RedisError::from((
        ErrorKind::Client,
        "the command isn't sent to several nodes: use link_to",
    ))
}

/// What nodes' replies make by a response policy.
fn combined(
    alloc: Global,
    makes: &Option<ResponsePolicy>,
    nodes: &[NodeAddr],
    replies: Vec<Value>,
) -> RedisResult<Value>
    requires { length replies.items ≡ length nodes.now }
    ensures combined { IfOk result (Combines makes.now nodes.now replies.items) }
    ensures refused { IfErr result (λ e. e ≢ form.OutOfMemory
        → CannotCombine makes.now nodes.now replies.items e) }
{
    if one_is_enough(makes) {
        return first_success(replies);
    }
    let replies = without_errors(alloc, replies)?;
    made(alloc, makes, nodes, replies)
}

/// Whether one reply that is no error is enough.
fn one_is_enough(makes: &Option<ResponsePolicy>) -> bool
    ensures { result ≡ one_is_enough makes.now }
{
    matches!(makes, Some(ResponsePolicy::OneSucceeded))
}

/// The first reply that is no error, or else the first error.
fn first_success(replies: Vec<Value>) -> RedisResult<Value>
    ensures first { IfOk result (λ answer. find succeeds replies.items ≡ Some answer) }
    ensures none { IfErr result (λ e. find succeeds replies.items ≡ None) }
    ensures says { IfErr result (λ e. e ≡ why_none (first_error_in replies.items)) }
{
    let mut failure = None;
    for reply in replies {
        match reply.extract_error() {
            Ok(success) => return Ok(success),
            Err(error) => {
                if failure.is_none() {
                    failure = Some(error);
                }
            }
        }
    }
    match failure {
        Some(error) => Err(error),
        None => Err(unexpected()),
    }
}

/// What nodes' replies without errors make by a response policy.
fn made(
    alloc: Global,
    makes: &Option<ResponsePolicy>,
    nodes: &[NodeAddr],
    replies: Vec<Value>,
) -> RedisResult<Value>
    requires { length replies.items ≡ length nodes.now }
    ensures made { IfOk result (Makes makes.now nodes.now replies.items) }
    ensures refused { IfErr result (λ e. e ≢ form.OutOfMemory
        → MakesNone (Makes makes.now nodes.now replies.items) e) }
{
    match makes {
        None => joined(alloc, replies),
        Some(ResponsePolicy::OneSucceeded) => Err(unexpected()),
        Some(ResponsePolicy::AllSucceeded) => match replies.into_iter().next() {
            Some(first) => Ok(first),
            None => Err(unexpected()),
        },
        Some(ResponsePolicy::AggLogicalAnd) => logical_and(alloc, replies.as_slice()),
        Some(ResponsePolicy::AggMin) => least_of(replies.as_slice()),
        Some(ResponsePolicy::AggSum) => sum_of(replies.as_slice()),
        Some(ResponsePolicy::Special) => Ok(by_address(alloc, nodes, replies)?),
    }
}

/// So many equal commands.
fn copies(alloc: Global, command: &Cmd, count: usize) -> Result<Vec<Cmd>, AllocError>
    ensures { IfOk result (λ commands. commands.items ≡ replicate count command.now) }
{
    let mut commands = Vec::with_capacity(alloc, count)?;
    for made in 0..count {
        commands.push(command.try_clone()?)?;
    }
    Ok(commands)
}

/// The numbers below this one.
fn places(alloc: Global, count: usize) -> Result<Vec<usize>, AllocError>
    ensures { IfOk result (λ places. places.items ≡ range_with_len 0 count) }
{
    let mut places = Vec::with_capacity(alloc, count)?;
    for place in 0..count {
        places.push(place)?;
    }
    Ok(places)
}
