//! A transaction over the nodes of a cluster.

ghost use Rattle.std.specs.Prelude.{◌≡◌, ◌≢◌, IfErr, IfNone, IfOk, IfSome, length};
ghost use Rattle.std.specs.List.{list_any};
ghost use Rattle.resp_errors.specs.declared.redis_error.RedisError.TheVariants as form;
ghost use Rattle.resp_pipeline.specs.Pipeline.{request};
ghost use Rattle.resp_routing.specs.Refusals.{redis_error_of};
ghost use Rattle.resp_cluster.specs.Together.{AreApart, CannotGoTogether, GoTogether, Joins};
ghost use Rattle.resp_cluster.specs.Transactions.{AreTransaction, FindsNode, IsNoTransaction};
ghost use Rattle.resp_cluster.specs.Transactions.{RequestTogether, SendsWhole, TransactionQuery};
ghost use Rattle.resp_cluster.specs.Transactions.{is_server_error, no_exec};

use super::{ClusterLink, no_node};
use crate::gather::SendGroups;
use crate::link_commands::is_alone;
use crate::links::Nodes;
use crate::node::NodeAddr;
use crate::one_node::route_for;
use resp_command::Cmd;
use resp_from::FromRedisValue;
use resp_pipeline::Pipeline;
use resp_routing::{Route, RoutingError};
use resp_value::{ErrorKind, RedisError, RedisResult, Value};
use std::alloc::Global;

impl<N: Nodes> ClusterLink<N> {
    /// Sends a transaction to the node that its commands go to together.
    pub(super) fn query_transaction<T: FromRedisValue>(
        &mut self,
        pipeline: &Pipeline,
    ) -> RedisResult<T>
        ensures { TransactionQuery N.Link.connection pipeline.now T.of_value self.old self.new
            result }
    {
        let request = pipeline.get_packed_pipeline()?;
        let node = self.common_node(pipeline.commands())?;
        self.send_whole(pipeline, request.as_slice(), &node)
    }

    /// The node that commands go to together, by the map that it then has.
    fn common_node(&mut self, commands: &[Cmd]) -> RedisResult<NodeAddr>
        ensures { FindsNode N.Link.connection commands.now self.old self.new result }
    {
        let route = common_route(self.alloc, commands)?;
        self.make_ready();
        let Some(node) = self.primary_or_any(&route) else {
            return Err(no_node());
        };
        let node = node.try_clone(self.alloc)?;
        Ok(node)
    }

    /// Sends the commands of a transaction, packed, `MULTI` and `EXEC` among them, to the node that
    /// the others go to together, and answers their replies. Where one is an error, the map is asked
    /// for before the next command. Refused unsent where they aren't `MULTI`, others and `EXEC`.
    pub(crate) fn req_transaction(
        &mut self,
        commands: &[Cmd],
        request: &[u8],
    ) -> RedisResult<Vec<Value>>
        ensures whole { RequestTogether N.Link.connection commands.now request.now self.old self.new
            result }
        ensures counted { IfOk result (λ replies. length replies.items ≡ length commands.now) }
    {
        let Some(inside) = inside_of(commands) else {
            return Err(no_exec());
        };
        let node = self.common_node(inside)?;
        let replies = self.send_group(&node, request, commands.len())?;
        if has_server_error(replies.as_slice()) {
            self.stale = true;
        }
        Ok(replies)
    }

    /// Sends a transaction, packed, to this node.
    fn send_whole<T: FromRedisValue>(
        &mut self,
        pipeline: &Pipeline,
        bytes: &[u8],
        node: &NodeAddr,
    ) -> RedisResult<T>
        requires { bytes.now ≡ request pipeline.now }
        ensures { SendsWhole N.Link.connection pipeline.now T.of_value node.now self.old self.new
            result }
    {
        let replies = self.send_group(node, bytes, pipeline.replies_needed())?;
        let answer = pipeline.outcome(replies);
        if answer.is_err() {
            self.stale = true;
        }
        answer
    }
}

/// The route by which commands go together.
fn common_route(alloc: Global, commands: &[Cmd]) -> RedisResult<Route>
    ensures together { IfOk result (GoTogether commands.now) }
    ensures refused { IfErr result (λ e. e ≢ form.OutOfMemory → CannotGoTogether commands.now e) }
{
    let mut common = Route::Keyless(None);
    for command in commands {
        let route = route_for(alloc, command)?;
        common = join(alloc, common, route)?;
    }
    Ok(common)
}

/// The route of commands that go by either of two, if they go together.
fn join(alloc: Global, one: Route, other: Route) -> RedisResult<Route>
    ensures joined { IfOk result (Joins one other) }
    ensures apart { IfErr result (λ e. e ≢ form.OutOfMemory → AreApart one other
        × (e ≡ redis_error_of RoutingError.CrossSlot)) }
{
    match (one, other) {
        (Route::Slot(slot), Route::Slot(other)) if slot != other => {
            Err(RoutingError::CrossSlot.to_redis_error(alloc)?)
        }
        (Route::Slot(slot), _) => Ok(Route::Slot(slot)),
        (Route::Keyless(_), route) => Ok(route),
    }
}

/// The commands of a packed transaction between its first, which is `MULTI`, and its last, `EXEC`.
fn inside_of(commands: &[Cmd]) -> Option<&[Cmd]>
    ensures some { IfSome result (λ inside. AreTransaction commands.now inside.now) }
    ensures none { IfNone result (IsNoTransaction commands.now) }
{
    let Some((first, others)) = commands.split_first() else {
        return None;
    };
    let Some((last, inside)) = others.split_last() else {
        return None;
    };
    if is_alone(first, b"MULTI") && is_alone(last, b"EXEC") {
        Some(inside)
    } else {
        None
    }
}

fn no_exec() -> RedisError
    ensures { result ≡ no_exec }
{
    RedisError::from((ErrorKind::Client, "a packed transaction ends with EXEC"))
}

/// Whether one of the replies is a server's error.
fn has_server_error(replies: &[Value]) -> bool
    ensures { result ≡ list_any is_server_error replies.now }
{
    for reply in replies {
        if is_server_error(reply) {
            return true;
        }
    }
    false
}

fn is_server_error(reply: &Value) -> bool
    ensures { result ≡ is_server_error reply.now }
{
    matches!(reply, Value::ServerError(_))
}
