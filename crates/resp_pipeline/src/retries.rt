//! Trying again.

ghost use Rattle.std.specs.Prelude.{◌≡◌};
ghost use Rattle.std.specs.Fn.{CalledAt};
ghost use Rattle.resp_pipeline.specs.Retried.{Retried};

use resp_command::{Cmd, ConnectionLike};
use resp_from::FromRedisValue;
use resp_value::{RedisError, RedisResult};

/// Something that can be asked over a connection more than once: a command, a pipeline, or a work
/// of one's own, as a struct of what it needs.
pub trait Attempt<T> {
    ghost use Rattle.std.specs.Prelude.{Result};
    ghost use Rattle.resp_errors.specs.declared.redis_error.RedisError.{RedisError};
    ghost use Rattle.resp_command.specs.Connection.{Connection};

    /// What one attempt answers: of the connection before and after it, and of the answer.
    ghost attempts: { Self → Connection → Connection → Result T RedisError → Type 0 };

    /// Attempts it once.
    fn attempt(&self, con: &mut dyn ConnectionLike) -> RedisResult<T>
        ensures { attempts self.now (connection con.old) (connection con.new) result };
}

impl<T: FromRedisValue> Attempt<T> for Cmd {
    ghost use Rattle.resp_command.specs.CommandQuery.{CommandQuery};

    ghost attempts = { λ command old new result. CommandQuery old new command T.of_value result };

    fn attempt(&self, con: &mut dyn ConnectionLike) -> RedisResult<T> {
        self.query(con)
    }
}

/// Attempts something over a connection, and again after each error of which `again` says so,
/// `budget` more times at most: a budget of 0 is one attempt. Answers what the last attempt did: a
/// value, an error that isn't to be tried again, or any error once the budget is used up.
///
/// `again` is asked once of each error but the one that uses up the budget, and of nothing else. It
/// may wait, which this doesn't; [`RedisError::retry_method`] says what an error asks for:
///
/// ```text
/// let mut asks_to_wait = |error: &RedisError| error.retry_method() == RetryMethod::WaitAndRetry;
/// retrying(con, 3, cmd(alloc, "INCR")?.arg(page)?, &mut asks_to_wait)
/// ```
///
/// In `crates/example_snippets/src/replies/counters.rt`.
///
/// A link that met a fault stays broken, so an attempt over it after `Reconnect` or
/// `RetryImmediately` is refused: stop there, and make a new one.
///
/// It takes no memory but what the attempts take.
pub fn retrying<T, A: Attempt<T>, G: FnMut(&RedisError) -> bool>(
    con: &mut dyn ConnectionLike,
    budget: u64,
    attempt: &A,
    again: &mut G,
) -> RedisResult<T>
    requires callable { G.IsAlwaysCallable again.old }
    ensures { Retried (A.attempts attempt.now) (CalledAt G.FnMut) budget again.old again.new
        (connection con.old) (connection con.new) result }
{
    let mut left = budget;
    loop {
        let error = match attempt.attempt(con) {
            Ok(answer) => return Ok(answer),
            Err(error) => error,
        };
        if left == 0 || !again(&error) {
            return Err(error);
        }
        drop(error);
        left -= 1;
    }
}
