//! What users write of the redirects of a cluster: a query that is sent once more, to a second
//! node, where the first one answers MOVED or ASK.

ghost use Rattle.std.specs.Prelude.{◌≡◌, MatchOption};
ghost use Rattle.resp_core.specs.Connections.{CommandQuery};
ghost use Rattle.resp_core.specs.Replies.{RedirectsTo, retry_of};
ghost use Rattle.example_snippets.specs.Redirected.{AfterAsking, Follows, NamesNode, NamesNone};
ghost use Rattle.example_snippets.specs.Redirected.{Redirected, asking};

use resp_core::{Cmd, ConnectionLike, FromRedisValue, RedisError, RedisResult, RetryMethod, cmd};
use std::alloc::Global;

/// Sends a command to a node, and where its answer is a MOVED or an ASK that names another node, to
/// the second one, once: what that answers is the answer, be it a redirect too.
///
/// That the second connection leads to the node of the address isn't looked at.
pub fn query_redirected<T: FromRedisValue>(
    alloc: Global,
    command: &Cmd,
    first: &mut dyn ConnectionLike,
    second: &mut dyn ConnectionLike,
) -> RedisResult<T>
    ensures { Redirected
        (CommandQuery (connection first.old) (connection first.new) command.now T.of_value)
        (Follows RedirectsTo
        (λ e. retry_of e ≡ RetryMethod.MovedRedirect) (λ e. retry_of e ≡ RetryMethod.AskRedirect)
        (λ old new. CommandQuery old new asking (⟦<() as FromRedisValue>⟧.of_value))
        (λ old new. CommandQuery old new command.now T.of_value))
        (connection second.old) (connection second.new) result }
{
    match command.query(first) {
        Ok(value) => Ok(value),
        Err(error) => follow(alloc, command, error, second),
    }
}

/// Sends a command to the node that an error names; answers the error where it names none.
fn follow<T: FromRedisValue>(
    alloc: Global,
    command: &Cmd,
    error: RedisError,
    node: &mut dyn ConnectionLike,
) -> RedisResult<T>
    ensures { Follows RedirectsTo
        (λ e. retry_of e ≡ RetryMethod.MovedRedirect) (λ e. retry_of e ≡ RetryMethod.AskRedirect)
        (λ old new. CommandQuery old new asking (⟦<() as FromRedisValue>⟧.of_value))
        (λ old new. CommandQuery old new command.now T.of_value)
        error (connection node.old) (connection node.new) result }
{
    match redirect_of(&error) {
        Some(RetryMethod::AskRedirect) => query_after_asking(alloc, command, node),
        Some(_) => command.query(node),
        None => Err(error),
    }
}

/// How an error sends the command to another node, where it does.
fn redirect_of(error: &RedisError) -> Option<RetryMethod>
    ensures { MatchOption result
        (NamesNone RedirectsTo error.now)
        (λ how. NamesNode RedirectsTo error.now × (retry_of error.now ≡ how)) }
{
    match error.redirect_node() {
        Some(_) => Some(error.retry_method()),
        None => None,
    }
}

/// Sends ASKING and then a command to a node, which so answers for a slot that it imports.
pub fn query_after_asking<T: FromRedisValue>(
    alloc: Global,
    command: &Cmd,
    node: &mut dyn ConnectionLike,
) -> RedisResult<T>
    ensures { AfterAsking
        (λ old new. CommandQuery old new asking (⟦<() as FromRedisValue>⟧.of_value))
        (λ old new. CommandQuery old new command.now T.of_value)
        (connection node.old) (connection node.new) result }
{
    cmd(alloc, "ASKING")?.exec(node)?;
    command.query(node)
}
