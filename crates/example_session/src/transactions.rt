//! What transactions come to that a server doesn't run, or that fail.

ghost use Rattle.std.specs.Prelude.{◌≡◌, IfOk, Ok};
ghost use Rattle.resp_core.specs.Pipelines.{PipelineQuery};
ghost use Rattle.example_session.specs.Transactions.{answer_of};

use resp_core::{
    ConnectionLike, FromRedisValue, Items, Pipeline, RedisError, RedisResult, ServerError, cmd,
    pipe,
};
use std::alloc::Global;

/// What a transaction came to.
#[derive(Drop)]
pub enum Outcome {
    /// It ran.
    Done,
    /// It didn't run: a key was changed after it was watched.
    Overtaken,
    /// It didn't run: the commands at these positions were refused.
    Refused(Items<(usize, ServerError)>),
    /// It ran, and the commands at these positions failed.
    Failed(Items<(usize, ServerError)>),
}

/// What three transactions came to: one with a command that lacks its key, one whose watched key
/// was changed before, and one that counts up what is no number.
pub fn try_in_vain(alloc: Global, con: &mut dyn ConnectionLike) -> RedisResult<Vec<Outcome>> {
    let mut outcomes = Vec::new(alloc);
    outcomes.push(query(&lacking_a_key(alloc)?, con)?)?;
    cmd(alloc, "WATCH")?.arg("name")?.exec(con)?;
    cmd(alloc, "SET")?.arg(("name", "Grace"))?.exec(con)?;
    outcomes.push(query(&setting(alloc)?, con)?)?;
    outcomes.push(query(&counting_a_name(alloc)?, con)?)?;
    Ok(outcomes)
}

/// Sends a transaction, and answers what it came to. Fails where that isn't known.
fn query(transaction: &Pipeline, con: &mut dyn ConnectionLike) -> RedisResult<Outcome>
    ensures { IfOk result (λ outcome. PipelineQuery (connection con.old) (connection con.new)
        transaction.now (⟦<Option<()> as FromRedisValue>⟧.of_value) (answer_of outcome)) }
{
    let answer: RedisResult<Option<()>> = transaction.query(con);
    match answer {
        Ok(done) => Ok(outcome_of(done)),
        Err(RedisError::Aborted(causes)) => Ok(Outcome::Refused(causes)),
        Err(RedisError::Pipeline(errors)) => Ok(Outcome::Failed(errors)),
        Err(error) => Err(error),
    }
}

/// The outcome of a transaction whose commands were taken.
fn outcome_of(done: Option<()>) -> Outcome
    ensures { answer_of result ≡ Ok done }
{
    match done {
        Some(()) => Outcome::Done,
        None => Outcome::Overtaken,
    }
}

/// A transaction that sets a name.
fn setting(alloc: Global) -> RedisResult<Pipeline> {
    let mut transaction = pipe(alloc);
    let _ = transaction.atomic();
    transaction.push_cmd("SET")?;
    transaction.push_arg(("name", "Ada"))?;
    Ok(transaction)
}

/// It, and then a GET without a key.
fn lacking_a_key(alloc: Global) -> RedisResult<Pipeline> {
    let mut transaction = setting(alloc)?;
    transaction.push_cmd("GET")?;
    Ok(transaction)
}

/// It, and then the name counted up.
fn counting_a_name(alloc: Global) -> RedisResult<Pipeline> {
    let mut transaction = setting(alloc)?;
    transaction.push_cmd("INCR")?;
    transaction.push_arg("name")?;
    Ok(transaction)
}
