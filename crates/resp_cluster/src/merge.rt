//! What the replies to the parts of a command make together.

ghost use Rattle.std.specs.Prelude.{◌≡◌, ◌≢◌, All, FitsSigned, IfErr, IfOk, IsFalse, IsTrue, List, None, OnOk};
ghost use Rattle.std.specs.Prelude.{length, map, ℤ, ◌<◌};
ghost use Rattle.std.specs.Int.{w64};
ghost use Rattle.std.specs.List.{flat_map};
ghost use Rattle.resp_errors.specs.Memory.{OnlyMemory};
ghost use Rattle.resp_errors.specs.declared.redis_error.RedisError.TheVariants as form;
ghost use Rattle.resp_cluster.specs.FannedOut.{addressed, items_of};
ghost use Rattle.resp_cluster.specs.Gathered.{of_node};
ghost use Rattle.resp_cluster.specs.Gathering.{Enough, from_last};
ghost use Rattle.resp_cluster.specs.Merges.{IsFirstError, MakesError, MakesNone, Merges};
ghost use Rattle.resp_cluster.specs.Merges.{MergesLeast, MergesOkay, MergesSum, MergesValues};
ghost use Rattle.resp_cluster.specs.Merges.{first_error_in, other_replies, sum_of};
ghost use Rattle.resp_value.specs.declared.value.Value.{Array, Int, Map, Value};

use crate::gather::in_places;
use crate::node::NodeAddr;
use crate::split::Merge;
use resp_errors::{ErrorKind, RedisError, RedisResult};
use resp_value::{Bytes, Items, Value};
use std::alloc::{AllocError, Global};

/// What the replies to the parts of a command make together: a server error, if one is or holds
/// one, the first of them; else what `merge` says. Refused with kind `UnexpectedReturnType` where
/// they are others than a server gives.
pub(crate) fn merged(
    alloc: Global,
    merge: Merge,
    places: &[usize],
    replies: Vec<Value>,
) -> RedisResult<Value>
    ensures merged { IfOk result (λ answer. Merges merge places.now replies.items answer) }
    ensures passed { IfOk result (λ answer. first_error_in replies.items ≡ None) }
    ensures refused { IfErr result (λ e. e ≢ form.OutOfMemory
        → MakesError (Merges merge places.now replies.items) replies.items e) }
{
    let replies = without_errors(alloc, replies)?;
    match merge {
        Merge::Values => values_of(alloc, places, replies),
        Merge::Sum => sum_of(replies.as_slice()),
        Merge::AllSucceeded => okay_of(replies.as_slice()),
    }
}

/// The replies, or the first server error in them.
pub(crate) fn without_errors(alloc: Global, replies: Vec<Value>) -> RedisResult<Vec<Value>>
    ensures passed { IfOk result (λ passed. passed.items ≡ replies.items) }
    ensures none { IfOk result (λ passed. first_error_in replies.items ≡ None) }
    ensures refused { IfErr result (λ e. e ≢ form.OutOfMemory → IsFirstError replies.items e) }
{
    let mut passed = Vec::with_capacity(alloc, replies.len())?;
    for reply in replies {
        passed.push(reply.extract_error()?)?;
    }
    Ok(passed)
}

/// The values of arrays, each in the place of its key.
fn values_of(alloc: Global, places: &[usize], replies: Vec<Value>) -> RedisResult<Value>
    ensures merged { IfOk result (MergesValues places.now replies.items) }
    ensures refused { IfErr result (λ e. e ≢ form.OutOfMemory
        → MakesNone (MergesValues places.now replies.items) e) }
{
    let mut groups = elements_of(alloc, replies)?;
    if !fits(groups.as_slice(), places) {
        return Err(unexpected());
    }
    let values = in_places(alloc, &mut groups, places)?;
    Ok(Value::Array(Items::from(values)))
}

/// The elements of arrays, the last one of each first.
fn elements_of(alloc: Global, replies: Vec<Value>) -> RedisResult<Vec<Vec<Value>>>
    ensures arrays { IfOk result (λ groups. replies.items ≡ map Array (map from_last groups.items)) }
    ensures refused { IfErr result (λ e. e ≢ form.OutOfMemory → (e ≡ other_replies)
        × ((groups : List (List Value)) → replies.items ≡ map Array groups → ⊥)) }
{
    let mut groups = Vec::with_capacity(alloc, replies.len())?;
    for reply in replies {
        let Value::Array(items) = reply else {
            return Err(unexpected());
        };
        let mut elements = items.into_vec();
        elements.reverse();
        groups.push(elements)?;
    }
    Ok(groups)
}

/// Whether each place is that of a group, and each group has as many elements as places.
fn fits(groups: &[Vec<Value>], places: &[usize]) -> bool
    ensures known { IsTrue result → All (λ place. place < length groups.now) places.now }
    ensures enough { IsTrue result → Enough (map from_last groups.now) places.now }
    ensures not { IsFalse result → All (λ place. place < length groups.now) places.now
        → Enough (map from_last groups.now) places.now → ⊥ }
{
    for part in 0..groups.len() {
        if groups[part].len() != count_of(places, part) {
            return false;
        }
    }
    are_below(places, groups.len())
}

/// How often a part is among places.
fn count_of(places: &[usize], part: usize) -> usize
    ensures { result ≡ length (of_node part places.now places.now) }
{
    let mut count = 0;
    for place in places {
        if *place == part {
            count += 1;
        }
    }
    count
}

/// Whether each place is below this one.
fn are_below(places: &[usize], count: usize) -> bool
    ensures known { IsTrue result → All (λ place. place < count) places.now }
    ensures not { IsFalse result → All (λ place. place < count) places.now → ⊥ }
{
    for place in places {
        if *place >= count {
            return false;
        }
    }
    true
}

/// The sum of numbers.
pub(crate) fn sum_of(replies: &[Value]) -> RedisResult<Value>
    ensures merged { IfOk result (MergesSum replies.now) }
    ensures refused { IfErr result (MakesNone (MergesSum replies.now)) }
{
    let mut sum: i64 = 0;
    for reply in replies {
        sum = match sum.checked_add(number_of(reply)?) {
            Some(more) => more,
            None => return Err(unexpected()),
        };
    }
    Ok(Value::Int(sum))
}

/// The least of numbers.
pub(crate) fn least_of(replies: &[Value]) -> RedisResult<Value>
    ensures merged { IfOk result (MergesLeast replies.now) }
    ensures refused { IfErr result (MakesNone (MergesLeast replies.now)) }
{
    let Some((first, others)) = replies.split_first() else {
        return Err(unexpected());
    };
    let mut least = number_of(first)?;
    for reply in others {
        least = least.min(number_of(reply)?);
    }
    Ok(Value::Int(least))
}

/// The number that a reply is.
pub(crate) fn number_of(reply: &Value) -> RedisResult<i64>
    ensures is { IfOk result (λ number. reply.now ≡ Int number) }
    ensures fits { IfOk result (FitsSigned w64) }
    ensures refused { IfErr result (λ e. (e ≡ other_replies) × ((n : ℤ) → reply.now ≡ Int n → ⊥)) }
{
    match reply {
        Value::Int(number) => Ok(*number),
        _ => Err(unexpected()),
    }
}

/// One array of the items of replies, where a reply that is no array is an item.
pub(crate) fn joined(alloc: Global, replies: Vec<Value>) -> RedisResult<Value>
    ensures joined { IfOk result (λ answer. answer ≡ Array (flat_map items_of replies.items)) }
    ensures memory { OnlyMemory result }
{
    let mut items = Vec::new(alloc);
    for reply in replies {
        match reply {
            Value::Array(more) => items.append(&mut more.into_vec())?,
            reply => items.push(reply)?,
        }
    }
    Ok(Value::Array(Items::from(items)))
}

/// A map of the replies by the addresses of their nodes.
pub(crate) fn by_address(
    alloc: Global,
    nodes: &[NodeAddr],
    replies: Vec<Value>,
) -> Result<Value, AllocError>
    requires { length replies.items ≡ length nodes.now }
    ensures { IfOk result (λ answer. answer ≡ Map (addressed nodes.now replies.items)) }
{
    let mut pairs = Vec::with_capacity(alloc, nodes.len())?;
    for reply in replies {
        let address = Bytes::from(nodes[pairs.len()].address(alloc)?);
        pairs.push((Value::BulkString(address), reply))?;
    }
    Ok(Value::Map(Items::from(pairs)))
}

/// `OK`, where all are.
fn okay_of(replies: &[Value]) -> RedisResult<Value>
    ensures merged { IfOk result (MergesOkay replies.now) }
    ensures refused { IfErr result (MakesNone (MergesOkay replies.now)) }
{
    for reply in replies {
        let Value::Okay = reply else {
            return Err(unexpected());
        };
    }
    Ok(Value::Okay)
}

pub(crate) fn unexpected() -> RedisError
    ensures { result ≡ other_replies }
{
    RedisError::from((
        ErrorKind::UnexpectedReturnType,
        "the parts of a command have other replies",
    ))
}
