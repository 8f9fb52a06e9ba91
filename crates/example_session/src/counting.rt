//! A number that several clients may raise: a transaction that is tried again where another client
//! was faster.

ghost use Rattle.std.specs.Prelude.{◌≡◌, ◌+ℤ◌, pos, IfOk, OnOk, Ok, Some, codes};
ghost use Rattle.resp_core.specs.Connections.{CommandQuery};
ghost use Rattle.resp_core.specs.Pipelines.{PipelineQuery};
ghost use Rattle.example_session.specs.Counting.{CountedUp, WatchedAndRead, of_key, or_zero};
ghost use Rattle.example_session.specs.Counting.{setting};

use resp_core::{
    Attempt, ConnectionLike, ErrorKind, FromRedisValue, Pipeline, RedisError, RedisResult,
    ServerErrorKind, cmd, pipe, retrying,
};
use std::alloc::Global;

/// How often a transaction is tried again before it is given up.
const RETRIES: u64 = 2;

/// Raises the number of a key by one and answers what it is then. Fails as EXECABORT where other
/// clients changed it during each attempt.
///
/// A number that is answered is one more than was read after the key was watched, and was set by
/// the last request, a transaction that was not aborted.
pub fn count_up(alloc: Global, con: &mut dyn ConnectionLike, key: &str) -> RedisResult<i64>
    ensures { IfOk result (λ number.
        CountedUp (⟦<() as FromRedisValue>⟧.of_value) (⟦<Option<i64> as FromRedisValue>⟧.of_value)
        (⟦<Option<()> as FromRedisValue>⟧.of_value) (connection con.new) key.now number) }
{
    retrying(con, RETRIES, &CountUp { alloc, key }, &mut is_aborted)
}

/// The number of this key, which is to be raised by one.
#[derive(Drop)]
struct CountUp<'a> {
    alloc: Global,
    key: &'a str,
}

impl Attempt<i64> for CountUp<'_> {
    ghost attempts = { λ count _ new result. IfOk result (λ number.
        CountedUp (⟦<() as FromRedisValue>⟧.of_value) (⟦<Option<i64> as FromRedisValue>⟧.of_value)
        (⟦<Option<()> as FromRedisValue>⟧.of_value) new count.key.now number) };

    /// Watches the key, reads its number, and sets it to one more in a transaction.
    fn attempt(&self, con: &mut dyn ConnectionLike) -> RedisResult<i64> {
        let number = one_more(watch_and_read(self.alloc, con, self.key)?)?;
        set_watched(self.alloc, con, self.key, number)?;
        Ok(number)
    }
}

/// Whether a transaction was aborted, as where another client was in between.
fn is_aborted(error: &RedisError) -> bool {
    error.kind() == ErrorKind::Server(ServerErrorKind::ExecAbort)
}

/// Watches the key, and reads its number, where it has one.
fn watch_and_read(
    alloc: Global,
    con: &mut dyn ConnectionLike,
    key: &str,
) -> RedisResult<Option<i64>>
    ensures { IfOk result (λ held. WatchedAndRead (⟦<() as FromRedisValue>⟧.of_value)
        (⟦<Option<i64> as FromRedisValue>⟧.of_value) (connection con.new) key.now held) }
{
    watch(alloc, con, key)?;
    ask(alloc, con, "GET", key)
}

/// Watches the key: a transaction is aborted where another client changes it.
fn watch(alloc: Global, con: &mut dyn ConnectionLike, key: &str) -> RedisResult<()>
    ensures { OnOk result (CommandQuery (connection con.old) (connection con.new)
        (of_key (codes "WATCH") key.now) (⟦<() as FromRedisValue>⟧.of_value) (Ok tt)) }
{
    ask(alloc, con, "WATCH", key)
}

/// Sends the command of this name with a key, and converts its reply.
fn ask<T: FromRedisValue>(
    alloc: Global,
    con: &mut dyn ConnectionLike,
    name: &str,
    key: &str,
) -> RedisResult<T>
    ensures { IfOk result (λ answer. CommandQuery (connection con.old) (connection con.new)
        (of_key name.now key.now) T.of_value (Ok answer)) }
{
    let mut command = cmd(alloc, name)?;
    command.push_arg(key)?;
    command.query(con)
}

/// One more than a number, or than 0 where none is held. Fails with kind `Client` where it would be
/// too great.
fn one_more(held: Option<i64>) -> RedisResult<i64>
    ensures { IfOk result (λ number. number ≡ or_zero held +ℤ pos 1) }
{
    match held.unwrap_or(0).checked_add(1) {
        Some(number) => Ok(number),
        None => Err(RedisError::from((ErrorKind::Client, "the number is too great"))),
    }
}

/// Sets the key to the number in a transaction. Fails as EXECABORT where it was aborted, since
/// another client was in between.
fn set_watched(
    alloc: Global,
    con: &mut dyn ConnectionLike,
    key: &str,
    number: i64,
) -> RedisResult<()>
    ensures { OnOk result (PipelineQuery (connection con.old) (connection con.new)
        (setting key.now number) (⟦<Option<()> as FromRedisValue>⟧.of_value) (Ok (Some tt))) }
{
    match set(alloc, con, key, number)? {
        Some(()) => Ok(()),
        None => Err(RedisError::from((
            ErrorKind::Server(ServerErrorKind::ExecAbort),
            "another client was faster",
        ))),
    }
}

/// Sets the key to the number in a transaction; None where it was aborted.
fn set(
    alloc: Global,
    con: &mut dyn ConnectionLike,
    key: &str,
    number: i64,
) -> RedisResult<Option<()>>
    ensures { IfOk result (λ done. PipelineQuery (connection con.old) (connection con.new)
        (setting key.now number) (⟦<Option<()> as FromRedisValue>⟧.of_value) (Ok done)) }
{
    setting(alloc, key, number)?.query(con)
}

/// The transaction that sets a key to a number.
fn setting(alloc: Global, key: &str, number: i64) -> RedisResult<Pipeline>
    ensures { IfOk result (λ p. p ≡ setting key.now number) }
{
    let mut set = cmd(alloc, "SET")?;
    set.push_arg((key, number))?;
    let mut transaction = pipe(alloc);
    let _ = transaction.atomic();
    transaction.push_command(set)?;
    Ok(transaction)
}
