//! Replies as maps and as sets.

ghost use Rattle.std.specs.Prelude.{◌≡◌, ◌%◌, List, length};
ghost use Rattle.std.specs.Result.{IsErrAnd};
ghost use Rattle.resp_value.specs.declared.value.Value.{Value};
ghost use Rattle.resp_value.specs.Views.{pairs};
ghost use Rattle.resp_flat.specs.declared.token.TokenKind.TheVariants as kind;
ghost use Rattle.resp_from.specs.Conversion.{Converts};
ghost use Rattle.resp_from.specs.Maps.{OfMap, OfPair, OfSet, HoldsMap, HoldsSet};
ghost use Rattle.resp_from.specs.Replies.{BothShow, RefusesTokens};

use crate::attributes::strip_attribute;
use crate::conversion::FromRedisValue;
use crate::refusals::refuse;
use crate::reply::Reply;
use resp_containers::{FillMap, FillSet};
use resp_value::{ParsingError, Value};
use std::alloc::Global;
use std::collections::{BTreeMap, BTreeSet, HashMap, HashSet};
use std::hash::Hash;

/// Why a reply that is no map is refused.
const NO_MAP: &str = "Response type not hashmap compatible";

fn map_of<K: FromRedisValue, V: FromRedisValue, M: FillMap<K, V>>(
    alloc: Global,
    reply: Value,
) -> Result<M, ParsingError>
    ensures converts { Converts (λ map. OfMap M.keying K.of_value V.of_value reply
        (M.entries map)) result }
{
    match strip_attribute(reply) {
        Value::Nil => Ok(M::none(alloc)),
        Value::Array(elements) => {
            if elements.len() % 2 == 0 {
                map_of_elements(alloc, elements.into_vec())
            } else {
                refuse(Value::Array(elements), NO_MAP)
            }
        }
        value => match value.into_map_iter() {
            Ok(pairs) => map_of_pairs::<K, V, M, Value>(alloc, pairs),
            Err(other) => refuse(other, NO_MAP),
        },
    }
}

fn set_of<T: FromRedisValue, S: FillSet<T>>(alloc: Global, reply: Value) -> Result<S, ParsingError>
    ensures converts { Converts (λ set. OfSet S.keying T.of_value reply (S.members set)) result }
{
    match strip_attribute(reply).into_sequence(alloc) {
        Ok(items) => set_of_elements::<T, S, Value>(alloc, items.into_iter()),
        Err(other) => refuse(other, "Response type not hashset compatible"),
    }
}

/// A key and a value.
fn pair_of_replies<K: FromRedisValue, V: FromRedisValue, R: Reply>(
    alloc: Global,
    key: R,
    value: R,
) -> Result<(K, V), ParsingError>
    ensures converts { (p : Value × Value) → BothShow R.shows (key, value) p
        → Converts (OfPair K.of_value V.of_value p) result }
{
    let key = K::from_reply(alloc, key)?;
    let value = V::from_reply(alloc, value)?;
    Ok((key, value))
}

/// The map that these pairs fill, one after another.
fn map_of_pairs<K: FromRedisValue, V: FromRedisValue, M: FillMap<K, V>, R: Reply>(
    alloc: Global,
    mut pairs: R::Pairs,
) -> Result<M, ParsingError>
    ensures converts { (ps : List (Value × Value)) → R.pairs_show pairs ps
        → Converts (λ map. HoldsMap M.keying K.of_value V.of_value ps (M.entries map)) result }
{
    let mut map = M::none(alloc);
    while let Some(pair) = R::next_pair_of(&mut pairs) {
        let (key, value) = pair_of_replies(alloc, pair.0, pair.1)?;
        map.put(key, value)?;
    }
    Ok(map)
}

/// The map that these keys and values fill in turn. It moves each once, where a pair of them would be
/// moved thrice.
fn map_of_elements<K: FromRedisValue, V: FromRedisValue, M: FillMap<K, V>>(
    alloc: Global,
    elements: Vec<Value>,
) -> Result<M, ParsingError>
    requires { length elements.items % 2 ≡ 0 }
    ensures converts { Converts (λ map. HoldsMap M.keying K.of_value V.of_value
        (pairs elements.items) (M.entries map)) result }
{
    let mut map = M::none(alloc);
    let mut rest = elements.into_iter();
    while let Some(key) = rest.next() {
        // By `match`, since `?` moves what is converted once more.
        let key = match K::from_redis_value(alloc, key) {
            Ok(key) => key,
            Err(error) => return Err(error),
        };
        let Some(value) = rest.next() else {
            return Ok(map);
        };
        let value = match V::from_redis_value(alloc, value) {
            Ok(value) => value,
            Err(error) => return Err(error),
        };
        map.put(key, value)?;
    }
    Ok(map)
}

/// The map that a reply is.
fn map_of_reply<K: FromRedisValue, V: FromRedisValue, M: FillMap<K, V>, R: Reply>(
    alloc: Global,
    reply: R,
) -> Result<M, ParsingError>
    ensures converts { (v : Value) → R.shows reply v
        → Converts (λ map. OfMap M.keying K.of_value V.of_value v (M.entries map)) result }
    ensures refused { (R.token_kind reply ≡ kind.Map → ⊥) → R.shows_nothing reply
        → IsErrAnd result RefusesTokens }
{
    match reply.into_pairs() {
        Ok(pairs) => map_of_pairs::<K, V, M, R>(alloc, pairs),
        Err(other) => map_of(alloc, other.into_value(alloc)?),
    }
}

/// The set that these elements fill, one after another.
fn set_of_elements<T: FromRedisValue, S: FillSet<T>, R: Reply>(
    alloc: Global,
    mut elements: R::Elements,
) -> Result<S, ParsingError>
    ensures converts { (vs : List Value) → R.show elements vs
        → Converts (λ set. HoldsSet S.keying T.of_value vs (S.members set)) result }
{
    let mut set = S::none(alloc);
    while let Some(element) = R::next_of(&mut elements) {
        set.put(T::from_reply(alloc, element)?)?;
    }
    Ok(set)
}

/// The set that a reply is.
fn set_of_reply<T: FromRedisValue, S: FillSet<T>, R: Reply>(
    alloc: Global,
    reply: R,
) -> Result<S, ParsingError>
    ensures converts { (v : Value) → R.shows reply v
        → Converts (λ set. OfSet S.keying T.of_value v (S.members set)) result }
{
    match reply.into_elements() {
        Ok(elements) => set_of_elements::<T, S, R>(alloc, elements),
        Err(other) => set_of(alloc, other.into_value(alloc)?),
    }
}

/// A map is a map, an array of keys and values in turn, or nothing, which is empty; of equal keys
/// the first stays, with the last value. At most one attribute is removed.
impl<K: FromRedisValue + Ord, V: FromRedisValue> FromRedisValue for BTreeMap<K, V> {
    ghost use Rattle.std.specs.Prelude.{◌≡◌};
    ghost use Rattle.resp_containers.specs.Keyed.{sorted};
    ghost use Rattle.resp_flat.specs.declared.token.TokenKind.TheVariants as kind;

    const WIDTH: usize = 0;

    const BYTES: bool = false;

    ghost of_value = { λ reply map. OfMap (sorted K.cmp) K.of_value V.of_value reply map.entries };

    ghost reads_tree = { λ k. k ≡ kind.Map → ⊥ };

    fn from_redis_value(alloc: Global, value: Value) -> Result<BTreeMap<K, V>, ParsingError> {
        map_of(alloc, value)
    }

    fn from_reply<R: Reply>(alloc: Global, reply: R) -> Result<BTreeMap<K, V>, ParsingError> {
        map_of_reply(alloc, reply)
    }
}

/// A map is a map, an array of keys and values in turn, or nothing, which is empty; of equal keys
/// the first stays, with the last value. At most one attribute is removed.
impl<K: FromRedisValue + Eq + Hash, V: FromRedisValue> FromRedisValue for HashMap<K, V> {
    ghost use Rattle.std.specs.Prelude.{◌≡◌};
    ghost use Rattle.resp_containers.specs.Keyed.{hashed};
    ghost use Rattle.resp_flat.specs.declared.token.TokenKind.TheVariants as kind;

    const WIDTH: usize = 0;

    const BYTES: bool = false;

    ghost of_value = { λ reply map. OfMap (hashed K.eq) K.of_value V.of_value reply map.entries };

    ghost reads_tree = { λ k. k ≡ kind.Map → ⊥ };

    fn from_redis_value(alloc: Global, value: Value) -> Result<HashMap<K, V>, ParsingError> {
        map_of(alloc, value)
    }

    fn from_reply<R: Reply>(alloc: Global, reply: R) -> Result<HashMap<K, V>, ParsingError> {
        map_of_reply(alloc, reply)
    }
}

/// A set is an array or a set, item by item, or nothing, which is empty; of equal members the first
/// stays. At most one attribute is removed.
impl<T: FromRedisValue + Ord> FromRedisValue for BTreeSet<T> {
    ghost use Rattle.resp_containers.specs.Keyed.{sorted};

    const WIDTH: usize = 0;

    const BYTES: bool = false;

    ghost of_value = { λ reply set. OfSet (sorted T.cmp) T.of_value reply set.keys };

    ghost reads_tree = { λ _. ⊥ };

    fn from_redis_value(alloc: Global, value: Value) -> Result<BTreeSet<T>, ParsingError> {
        set_of(alloc, value)
    }

    fn from_reply<R: Reply>(alloc: Global, reply: R) -> Result<BTreeSet<T>, ParsingError> {
        set_of_reply(alloc, reply)
    }
}

/// A set is an array or a set, item by item, or nothing, which is empty; of equal members the first
/// stays. At most one attribute is removed.
impl<T: FromRedisValue + Eq + Hash> FromRedisValue for HashSet<T> {
    ghost use Rattle.resp_containers.specs.Keyed.{hashed};

    const WIDTH: usize = 0;

    const BYTES: bool = false;

    ghost of_value = { λ reply set. OfSet (hashed T.eq) T.of_value reply set.keys };

    ghost reads_tree = { λ _. ⊥ };

    fn from_redis_value(alloc: Global, value: Value) -> Result<HashSet<T>, ParsingError> {
        set_of(alloc, value)
    }

    fn from_reply<R: Reply>(alloc: Global, reply: R) -> Result<HashSet<T>, ParsingError> {
        set_of_reply(alloc, reply)
    }
}
