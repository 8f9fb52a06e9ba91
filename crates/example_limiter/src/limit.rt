//! Counting calls.

ghost use Rattle.example_limiter.specs.Counting.{Judges};

use resp_core::{ConnectionLike, Joined, RedisError, RedisResult, pipe};
use std::alloc::Global;

/// Whether a user may call.
#[derive(Drop)]
pub enum Verdict {
    /// It is this call since the last minute began, which is within the limit.
    Allowed(i64),
    /// It is this call, which is past the limit.
    Denied(i64),
    /// What the user's key holds is no counter: the transaction's error.
    NotACounter(RedisError),
}

/// Counts a call of the user.
pub fn check(
    alloc: Global,
    con: &mut dyn ConnectionLike,
    user: &str,
    limit: i64,
) -> RedisResult<Verdict> {
    match count(alloc, con, user) {
        Ok((calls, ())) => Ok(judged(calls, limit)),
        Err(error) => {
            if is_wrong_type(&error) {
                Ok(Verdict::NotACounter(error))
            } else {
                Err(error)
            }
        }
    }
}

/// The verdict on so many calls.
fn judged(calls: i64, limit: i64) -> Verdict
    ensures { Judges calls limit result }
{
    if calls <= limit {
        Verdict::Allowed(calls)
    } else {
        Verdict::Denied(calls)
    }
}

/// Whether the first command that failed found a value of another type at its key.
fn is_wrong_type(error: &RedisError) -> bool {
    match error.first_server_error() {
        Some((_, first)) => first.code() == "WRONGTYPE",
        None => false,
    }
}

/// Counts a call of the user in a transaction, which ends the count a minute after the first.
fn count(alloc: Global, con: &mut dyn ConnectionLike, user: &str) -> RedisResult<(i64, ())> {
    let key = Joined(("limit:", user));
    pipe(alloc)
        .atomic()
        .cmd("INCR")?
        .arg(key)?
        .cmd("EXPIRE")?
        .arg((key, 60, "NX"))?
        .query(con)
}
