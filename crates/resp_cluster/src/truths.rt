//! Replies of 0 and 1.

ghost use Rattle.std.specs.Prelude.{◌≡◌, ◌≢◌, Bool, IfErr, IfOk, List, length};
ghost use Rattle.resp_errors.specs.declared.redis_error.RedisError.TheVariants as form;
ghost use Rattle.resp_cluster.specs.Merges.{MakesNone, MergesAnd, bit, bits, both, other_replies};

use crate::merge::{number_of, unexpected};
use resp_errors::RedisResult;
use resp_value::{Items, Value};
use std::alloc::{AllocError, Global};

/// In each place of arrays of 0 and 1, which are equally long, 1 where all have a 1 there.
pub(crate) fn logical_and(alloc: Global, replies: &[Value]) -> RedisResult<Value>
    ensures merged { IfOk result (MergesAnd replies.now) }
    ensures refused { IfErr result (λ e. e ≢ form.OutOfMemory
        → MakesNone (MergesAnd replies.now) e) }
{
    let Some((first, others)) = replies.split_first() else {
        return Err(unexpected());
    };
    let mut all = truths_of(alloc, first)?;
    for reply in others {
        let truths = truths_of(alloc, reply)?;
        if truths.len() != all.len() {
            return Err(unexpected());
        }
        all = both(alloc, all.as_slice(), truths.as_slice())?;
    }
    Ok(bits(alloc, all.as_slice())?)
}

/// The truths that a reply is.
fn truths_of(alloc: Global, reply: &Value) -> RedisResult<Vec<bool>>
    ensures are { IfOk result (λ truths. reply.now ≡ bits truths.items) }
    ensures refused { IfErr result (λ e. e ≢ form.OutOfMemory → (e ≡ other_replies)
        × ((truths : List Bool) → reply.now ≡ bits truths → ⊥)) }
{
    let Value::Array(items) = reply else {
        return Err(unexpected());
    };
    let mut truths = Vec::with_capacity(alloc, items.len())?;
    for item in items.as_slice() {
        truths.push(truth_of(item)?)?;
    }
    Ok(truths)
}

/// The truth that a reply is.
fn truth_of(reply: &Value) -> RedisResult<bool>
    ensures is { IfOk result (λ truth. reply.now ≡ bit truth) }
    ensures refused { IfErr result (λ e. (e ≡ other_replies)
        × ((truth : Bool) → reply.now ≡ bit truth → ⊥)) }
{
    let number = number_of(reply)?;
    if number == 1 {
        return Ok(true);
    }
    if number == 0 {
        return Ok(false);
    }
    Err(unexpected())
}

/// In each place, whether both are true there.
fn both(alloc: Global, one: &[bool], other: &[bool]) -> Result<Vec<bool>, AllocError>
    requires { length other.now ≡ length one.now }
    ensures { IfOk result (λ truths. truths.items ≡ both one.now other.now) }
{
    let mut truths = Vec::with_capacity(alloc, one.len())?;
    for place in 0..one.len() {
        truths.push(one[place] && other[place])?;
    }
    Ok(truths)
}

/// Truths as a server replies them.
fn bits(alloc: Global, truths: &[bool]) -> Result<Value, AllocError>
    ensures { IfOk result (λ reply. reply ≡ bits truths.now) }
{
    let mut items = Vec::with_capacity(alloc, truths.len())?;
    for truth in truths {
        items.push(bit(*truth))?;
    }
    Ok(Value::Array(Items::from(items)))
}

/// A truth as a server replies it.
fn bit(truth: bool) -> Value
    ensures { result ≡ bit truth }
{
    if truth { Value::Int(1) } else { Value::Int(0) }
}
