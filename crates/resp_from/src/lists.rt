//! Replies as lists.

ghost use Rattle.std.specs.Prelude.{◌≡◌, ◌∷◌, [], IfOk, List};
ghost use Rattle.std.specs.List.{AllZip};
ghost use Rattle.resp_value.specs.declared.value.Value.{Value, Map};
ghost use Rattle.resp_from.specs.Conversion.{ConvertsList};
ghost use Rattle.resp_from.specs.Lists.{OfVec, single_maps};

use crate::conversion::FromRedisValue;
use crate::refusals::refuse;
use crate::reply::Reply;
use crate::rules::convert_each;
use resp_value::{Items, ParsingError, Value};
use std::alloc::{AllocError, Global};

/// A map of one pair.
fn map_of_one(alloc: Global, pair: (Value, Value)) -> Result<Value, AllocError>
    ensures { IfOk result (λ map. map ≡ Map (pair ∷ [])) }
{
    let mut single = Items::new(alloc);
    single.push(pair)?;
    Ok(Value::Map(single))
}

/// A map of one pair for each pair.
fn maps_of_one(alloc: Global, pairs: Items<(Value, Value)>) -> Result<Vec<Value>, AllocError>
    ensures { IfOk result (λ v. v.items ≡ single_maps pairs) }
{
    let mut maps = Vec::new(alloc);
    for pair in pairs.into_vec() {
        maps.push(map_of_one(alloc, pair)?)?;
    }
    Ok(maps)
}

/// The values of a reply that is a list of them.
pub fn list_of<T: FromRedisValue>(alloc: Global, value: Value) -> Result<Vec<T>, ParsingError>
    ensures converts { ConvertsList (OfVec T.WIDTH T.BYTES T.of_value value) result }
{
    match value {
        Value::Array(items) => T::from_redis_values(alloc, items.into_vec()),
        Value::Set(items) => T::from_redis_values(alloc, items.into_vec()),
        Value::Map(pairs) => convert_each(alloc, maps_of_one(alloc, pairs)?),
        Value::BulkString(bytes) => T::from_byte_vec(alloc, bytes.into_vec()?),
        Value::Nil => Ok(Vec::new(alloc)),
        other => refuse(other, "Response type not vector compatible."),
    }
}

/// So many values are given room at once: a count of tokens that are no reply may be anything.
const MOST_ROOM: usize = 1024;

/// One value for each element.
pub(crate) fn convert_elements<T: FromRedisValue, R: Reply>(
    alloc: Global,
    room: usize,
    mut elements: R::Elements,
) -> Result<Vec<T>, ParsingError>
    ensures converts { (vs : List Value) → R.show elements vs
        → ConvertsList (AllZip T.of_value vs) result }
{
    let mut all = Vec::with_capacity(alloc, room)?;
    while let Some(element) = R::next_of(&mut elements) {
        all.push(T::from_reply(alloc, element)?)?;
    }
    Ok(all)
}

/// The values of an array or a set of values of a type that is no tuple; of any other value by way
/// of a tree.
pub(crate) fn list_of_reply<T: FromRedisValue, R: Reply>(
    alloc: Global,
    reply: R,
) -> Result<Vec<T>, ParsingError>
    ensures converts { (v : Value) → R.shows reply v
        → ConvertsList (OfVec T.WIDTH T.BYTES T.of_value v) result }
{
    if T::WIDTH != 0 {
        return list_of(alloc, reply.into_value(alloc)?);
    }
    let room = reply.len().min(MOST_ROOM);
    match reply.into_elements() {
        Ok(elements) => convert_elements::<T, R>(alloc, room, elements),
        Err(other) => list_of(alloc, other.into_value(alloc)?),
    }
}

/// A list is an array or a set, value by value as `from_redis_values` says; a map, pair by pair,
/// each as a map of one pair; a bulk string, as `from_byte_vec` says; or nothing, which is empty.
/// No attribute is removed.
impl<T: FromRedisValue> FromRedisValue for Vec<T> {
    const WIDTH: usize = 0;

    const BYTES: bool = false;

    ghost of_value = { λ reply v. OfVec T.WIDTH T.BYTES T.of_value reply v.items };

    ghost reads_tree = { λ _. ⊥ };

    #[tactic(auto, using(crate::proofs::Conversions::as_vector))]
    fn from_redis_value(alloc: Global, value: Value) -> Result<Vec<T>, ParsingError> {
        list_of(alloc, value)
    }

    fn from_reply<R: Reply>(alloc: Global, reply: R) -> Result<Vec<T>, ParsingError> {
        list_of_reply(alloc, reply)
    }
}

/// The same list, of which contracts see only the elements.
impl<T: FromRedisValue> FromRedisValue for Items<T> {
    const WIDTH: usize = 0;

    const BYTES: bool = false;

    ghost of_value = { OfVec T.WIDTH T.BYTES T.of_value };

    ghost reads_tree = { λ _. ⊥ };

    fn from_redis_value(alloc: Global, value: Value) -> Result<Items<T>, ParsingError> {
        let items: Vec<T> = list_of(alloc, value)?;
        Ok(Items::from(items))
    }

    fn from_reply<R: Reply>(alloc: Global, reply: R) -> Result<Items<T>, ParsingError> {
        let items: Vec<T> = list_of_reply(alloc, reply)?;
        Ok(Items::from(items))
    }
}
