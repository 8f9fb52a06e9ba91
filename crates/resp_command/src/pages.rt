//! Replies as pages: a cursor and a list.

ghost use Rattle.std.specs.Prelude.{◌≡◌, true, MatchResult};
ghost use Rattle.resp_errors.specs.declared.parsing_error.ParsingError.TheVariants as parsing;
ghost use Rattle.resp_value.specs.declared.value.Value.{out-Value};
ghost use Rattle.resp_from.specs.Attributes.{stripped};
ghost use Rattle.resp_from.specs.Conversion.{Decides, IsDescribed};
ghost use Rattle.resp_from.specs.Tuples.{in_turn, of_length, values_of_width};
ghost use Rattle.resp_command.specs.PageParts.{HasParts, IsPair, OfItems, is_list_like};
ghost use Rattle.resp_command.specs.ScanReplies.{ReadsPage};

use resp_from::FromRedisValue;
use resp_from::parts::{refuse, strip_attribute};
use resp_value::{Items, ParsingError, Value};
use std::alloc::Global;

/// The next cursor, and for each item of a page its value, or why it is none; or the cursor alone,
/// where memory ran out for those.
#[derive(Drop)]
pub struct Page<T> {
    pub cursor: u64,
    pub results: Option<Vec<Result<T, ParsingError>>>,
}

impl<T: FromRedisValue> Page<T> {
    /// The page of a reply that is a cursor and a list.
    ///
    /// Refused exactly where it is none: the cursor is read without taking memory.
    pub fn of_reply(alloc: Global, reply: Value) -> Result<Page<T>, ParsingError>
        ensures decides { Decides (ReadsPage T.WIDTH T.of_value reply) result }
    {
        let (cursor, list) = cursor_and_list(alloc, reply)?;
        let results = results_of(alloc, list).ok();
        Ok(Page { cursor, results })
    }
}

/// The cursor of a page, and the reply that is its list; takes no memory.
fn cursor_and_list(alloc: Global, reply: Value) -> Result<(u64, Value), ParsingError>
    ensures decides { Decides (λ r. HasParts reply r.0 r.1) result }
{
    let (first, list) = two_values(reply)?;
    let cursor = u64::from_redis_value(alloc, first)?;
    if !is_list(&list) {
        return refuse(list, "Response type not vector compatible.");
    }
    Ok((cursor, list))
}

/// The results of a page's items; fails only with `OutOfMemory`.
fn results_of<T: FromRedisValue>(
    alloc: Global,
    list: Value,
) -> Result<Vec<Result<T, ParsingError>>, ParsingError>
    requires { is_list_like (out-Value list) ≡ true }
    ensures answers { MatchResult result (λ v. OfItems T.WIDTH T.of_value list v.items)
        (λ e. e ≡ parsing.OutOfMemory) }
{
    let items = <Items<Value>>::from_redis_value(alloc, list)?;
    T::from_each_redis_values(alloc, items.into_vec())
}

/// The two values of an array or a set of two, or of a map of one pair.
fn two_values(reply: Value) -> Result<(Value, Value), ParsingError>
    ensures finds { IsPair (values_of_width 2 (out-Value (stripped reply))) result }
{
    match strip_attribute(reply) {
        Value::Array(items) => pair_of(items.into_vec()),
        Value::Set(items) => pair_of(items.into_vec()),
        Value::Map(pairs) => only_pair(pairs.into_vec()),
        other => refuse(other, "Response type not tuple compatible"),
    }
}

fn pair_of(mut values: Vec<Value>) -> Result<(Value, Value), ParsingError>
    ensures finds { IsPair (of_length 2 values.items) result }
{
    if values.len() != 2 {
        return Err(wrong_dimension());
    }
    let first = values.remove(0);
    let second = values.remove(0);
    Ok((first, second))
}

fn only_pair(mut pairs: Vec<(Value, Value)>) -> Result<(Value, Value), ParsingError>
    ensures finds { IsPair (of_length 2 (in_turn pairs.items)) result }
{
    if pairs.len() != 1 {
        return Err(wrong_dimension());
    }
    Ok(pairs.remove(0))
}

fn wrong_dimension() -> ParsingError
    ensures { IsDescribed result }
{
    ParsingError::from("Array response of wrong dimension")
}

fn is_list(value: &Value) -> bool
    ensures { result ≡ is_list_like (out-Value value.now) }
{
    matches!(
        value,
        Value::Array(_) | Value::Set(_) | Value::Map(_) | Value::BulkString(_) | Value::Nil
    )
}
