//! The rules that turn a list of replies, or bytes, into many values of one type.

ghost use Rattle.std.specs.Prelude.{◌≡◌, ◌<◌, ◌==◌, ◌∷◌, [], IfOk, MatchResult, length, map, pos};
ghost use Rattle.std.specs.List.{AllZip, list_all};
ghost use Rattle.resp_errors.specs.declared.parsing_error.ParsingError.TheVariants as parsing;
ghost use Rattle.resp_value.specs.declared.value.Value.{Int, out-Value};
ghost use Rattle.resp_from.specs.Conversion.{ConvertsList, Decides};
ghost use Rattle.resp_from.specs.Rules.{AreGroups, ArePieces, OfGroups, OfList, has_values};
ghost use Rattle.resp_from.specs.Rules.{is_one_each};

use crate::conversion::FromRedisValue;
use crate::lists::convert_elements;
use resp_value::{Items, ParsingError, Value};
use std::alloc::{AllocError, Global};

/// One value for each reply.
pub fn convert_each<T: FromRedisValue>(
    alloc: Global,
    replies: Vec<Value>,
) -> Result<Vec<T>, ParsingError>
    ensures converts { ConvertsList (AllZip T.of_value replies.items) result }
{
    convert_elements::<T, Value>(alloc, replies.len(), replies.into_iter())
}

/// One value or refusal for each reply; fails only with `OutOfMemory`.
pub fn answer_each<T: FromRedisValue>(
    alloc: Global,
    replies: Vec<Value>,
) -> Result<Vec<Result<T, ParsingError>>, ParsingError>
    ensures answers { MatchResult result (λ v. AllZip (λ reply r. Decides (T.of_value reply) r)
        replies.items v.items) (λ e. e ≡ parsing.OutOfMemory) }
{
    let mut all = Vec::with_capacity(alloc, replies.len())?;
    for reply in replies {
        all.push_reserved(answer_one(alloc, reply)?);
    }
    Ok(all)
}

fn answer_one<T: FromRedisValue>(
    alloc: Global,
    reply: Value,
) -> Result<Result<T, ParsingError>, ParsingError>
    ensures answers { MatchResult result (λ r. Decides (T.of_value reply) r) (λ e. e
        ≡ parsing.OutOfMemory) }
{
    match T::from_redis_value(alloc, reply) {
        Ok(value) => Ok(Ok(value)),
        Err(error) => match error {
            ParsingError::OutOfMemory => Err(ParsingError::OutOfMemory),
            refusal => Ok(Err(refusal)),
        },
    }
}

/// One value for each byte.
pub fn convert_bytes<T: FromRedisValue>(
    alloc: Global,
    bytes: Vec<u8>,
) -> Result<Vec<T>, ParsingError>
    ensures converts { ConvertsList (AllZip T.of_value (map (λ byte. Int (pos byte)) bytes.items))
        result }
{
    let mut all = Vec::with_capacity(alloc, bytes.len())?;
    for byte in bytes {
        all.push_reserved(T::from_redis_value(alloc, Value::Int(i64::from(byte)))?);
    }
    Ok(all)
}

/// The one value of a reply, in a list.
pub fn convert_one<T: FromRedisValue>(alloc: Global, reply: Value) -> Result<Vec<T>, ParsingError>
    ensures converts { ConvertsList (AllZip T.of_value (reply ∷ [])) result }
{
    let value = T::from_redis_value(alloc, reply)?;
    let mut all = Vec::with_capacity(alloc, 1)?;
    all.push_reserved(value);
    Ok(all)
}

/// Equal replies.
fn copies_of(alloc: Global, replies: &[Value]) -> Result<Vec<Value>, AllocError>
    ensures { IfOk result (λ v. v.items ≡ replies.now) }
{
    let mut copies = Vec::new(alloc);
    for reply in replies {
        copies.push(reply.try_clone(alloc)?)?;
    }
    Ok(copies)
}

/// The values of a list of replies, of a type of this width.
pub fn convert_list<T: FromRedisValue>(
    alloc: Global,
    width: usize,
    replies: Vec<Value>,
) -> Result<Vec<T>, ParsingError>
    ensures converts { ConvertsList (OfList width T.of_value replies.items) result }
{
    if one_each(&replies, width) {
        convert_each(alloc, replies)
    } else {
        convert_groups(alloc, width, replies)
    }
}

/// The values of a list of borrowed replies, of a type of this width.
pub fn convert_list_ref<T: FromRedisValue>(
    alloc: Global,
    width: usize,
    replies: &[Value],
) -> Result<Vec<T>, ParsingError>
    ensures converts { ConvertsList (OfList width T.of_value replies.now) result }
{
    if width == 0 {
        return convert_elements::<T, &Value>(alloc, replies.len(), replies);
    }
    convert_list(alloc, width, copies_of(alloc, replies)?)
}

/// One value for each group of so many replies.
fn convert_groups<T: FromRedisValue>(
    alloc: Global,
    width: usize,
    replies: Vec<Value>,
) -> Result<Vec<T>, ParsingError>
    requires { 0 < width }
    ensures converts { ConvertsList (OfGroups width T.of_value replies.items) result }
{
    if replies.len() % width != 0 {
        return Err(ParsingError::from("Bulk response of wrong dimension"));
    }
    let mut all = Vec::with_capacity(alloc, replies.len() / width)?;
    let mut group = Items::new(alloc);
    for reply in replies {
        group.push(reply)?;
        if group.len() == width {
            all.push(T::from_redis_value(alloc, Value::Array(group))?)?;
            group = Items::new(alloc);
        }
    }
    Ok(all)
}

/// The pieces of a list that stand for one value each, of a type of this width.
pub fn pieces_of(
    alloc: Global,
    width: usize,
    replies: Vec<Value>,
) -> Result<Vec<Value>, ParsingError>
    ensures converts { ConvertsList (ArePieces width replies.items) result }
{
    if one_each(&replies, width) {
        return Ok(replies);
    }
    groups_of(alloc, width, replies)
}

fn one_each(replies: &[Value], width: usize) -> bool
    ensures { result ≡ is_one_each width replies.now }
{
    width == 0 || all_hold(replies, width)
}

fn groups_of(alloc: Global, width: usize, replies: Vec<Value>) -> Result<Vec<Value>, ParsingError>
    requires { 0 < width }
    ensures converts { ConvertsList (AreGroups width replies.items) result }
{
    let mut groups = Vec::with_capacity(alloc, replies.len() / width)?;
    let mut group = Items::new(alloc);
    for reply in replies {
        group.push(reply)?;
        if group.len() == width {
            groups.push(Value::Array(group))?;
            group = Items::new(alloc);
        }
    }
    if !group.is_empty() {
        return Err(ParsingError::from("Bulk response of wrong dimension"));
    }
    Ok(groups)
}

fn all_hold(replies: &[Value], width: usize) -> bool
    ensures { result ≡ list_all (λ reply. has_values width (out-Value reply)) replies.now }
{
    replies.iter().all(|reply| holds_values(reply, width))
}

fn holds_values(reply: &Value, width: usize) -> bool
    ensures { result ≡ has_values width (out-Value reply.now) }
{
    match reply {
        Value::Array(items) => items.len() == width,
        Value::Set(items) => items.len() == width,
        Value::Map(pairs) => width % 2 == 0 && pairs.len() == width / 2,
        _ => false,
    }
}
