//! Counters: one that lasts a minute, and what it comes to where its key holds something else; one
//! that is asked again where the server isn't ready, and one where the reply was lost.
//!
//! The error of a wrong key is told by the server's code, which is none that [`ServerErrorKind`]
//! names. No proof file is needed.
//!
//! [`ServerErrorKind`]: resp_core::ServerErrorKind

ghost use Rattle.std.specs.Prelude.{◌≡◌, ◌↔◌, IsTrue, IsSomeAnd, codes};
ghost use Rattle.resp_core.specs.Replies.{first_server_error_of, server_code_of};

use resp_core::{ConnectionLike, RedisError, RedisResult, RetryMethod, cmd, pipe, retrying};
use resp_routing::is_readonly_cmd;
use std::alloc::Global;

/// Counts a call in a transaction, and answers the count of its minute; `None` where the key holds
/// no number.
pub fn count_call(
    alloc: Global,
    con: &mut dyn ConnectionLike,
    key: &str,
) -> RedisResult<Option<i64>> {
    let answer: RedisResult<(i64, bool)> = pipe(alloc)
        .atomic()
        .cmd("INCR")?
        .arg(key)?
        .cmd("EXPIRE")?
        .arg((key, 60, "NX"))?
        .query(con);
    count_of(answer)
}

/// The count of a reply, `None` where the key holds a value of another type.
fn count_of(answer: RedisResult<(i64, bool)>) -> RedisResult<Option<i64>> {
    match answer {
        Ok((count, _)) => Ok(Some(count)),
        Err(error) if is_of_wrong_type(&error) => Ok(None),
        Err(error) => Err(error),
    }
}

/// Whether the first command that failed met a key with a value of another type.
pub fn is_of_wrong_type(error: &RedisError) -> bool
    ensures { IsTrue result ↔ IsSomeAnd (first_server_error_of error.now)
        (λ first. server_code_of first.1 ≡ codes "WRONGTYPE") }
{
    match error.first_server_error() {
        Some((_, first)) => first.code() == "WRONGTYPE",
        None => false,
    }
}

/// Counts a visit of a page. A server that says that it will answer later, as one that is loading
/// its data, is asked up to three times more.
pub fn visits_when_ready(
    alloc: Global,
    con: &mut dyn ConnectionLike,
    page: &str,
) -> RedisResult<i64> {
    let mut asks_to_wait = |error: &RedisError| error.retry_method() == RetryMethod::WaitAndRetry;
    retrying(con, 3, cmd(alloc, "INCR")?.arg(page)?, &mut asks_to_wait)
}

/// The visits of a page. Where the reply is lost the command is sent once more, since it only reads:
/// over a connection that reconnects, by another link.
pub fn visits_read_again(
    alloc: Global,
    con: &mut dyn ConnectionLike,
    page: &str,
) -> RedisResult<Option<i64>> {
    let reads = is_readonly_cmd(&[b"GET".as_slice()]);
    let mut was_lost = |error: &RedisError| reads && error.is_io_error();
    retrying(con, 1, cmd(alloc, "GET")?.arg(page)?, &mut was_lost)
}
