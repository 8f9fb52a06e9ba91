//! Replies as tuples.

ghost use Rattle.std.specs.Prelude.{◌≡◌, ◌∷◌, ◌++◌, [], ⊤, List, IfOk, OnOk};
ghost use Rattle.std.specs.Vec.Iter.{into_iter_items};
ghost use Rattle.resp_value.specs.declared.value.Value.{Value, out-Value};
ghost use Rattle.resp_from.specs.Conversion.{Converts};
ghost use Rattle.resp_from.specs.Attributes.{stripped};
ghost use Rattle.resp_from.specs.Tuples.{FindsValues, HasValues, values_of_width};
ghost use Rattle.resp_from.specs.Tuples.{in_turn, of_length};

use crate::attributes::strip_attribute;
use crate::conversion::FromRedisValue;
use crate::refusals::refuse;
use crate::reply::Reply;
use resp_value::{Items, ParsingError, Value};
use std::alloc::{AllocError, Global};
use std::vec::IntoIter;

/// Adds a key and its value.
fn push_pair(values: &mut Vec<Value>, pair: (Value, Value)) -> Result<(), AllocError>
    ensures { OnOk result (values.new.items ≡ (values.old.items ++ pair.0 ∷ []) ++ pair.1 ∷ []) }
{
    let (key, value) = pair;
    values.push(key)?;
    values.push(value)?;
    Ok(())
}

/// The keys and values of a map, in turn.
fn values_in_turn(alloc: Global, pairs: Items<(Value, Value)>) -> Result<Vec<Value>, AllocError>
    ensures { IfOk result (λ v. v.items ≡ in_turn pairs) }
{
    let mut values = Vec::new(alloc);
    for pair in pairs.into_vec() {
        push_pair(&mut values, pair)?;
    }
    Ok(values)
}

fn require_len(values: Vec<Value>, width: usize) -> Result<Vec<Value>, ParsingError>
    ensures finds { FindsValues (of_length width values.items) result }
{
    if values.len() == width {
        Ok(values)
    } else {
        Err(ParsingError::from("Array response of wrong dimension"))
    }
}

/// The `width` values that a reply holds.
fn find_values(alloc: Global, width: usize, reply: Value) -> Result<Vec<Value>, ParsingError>
    ensures finds { FindsValues (values_of_width width (out-Value (stripped reply))) result }
{
    match reply {
        Value::Array(items) => require_len(items.into_vec(), width),
        other => find_plain_values(alloc, width, strip_attribute(other)),
    }
}

/// The `width` values that a reply holds, of which no attribute is removed.
#[inline(never)]
fn find_plain_values(alloc: Global, width: usize, reply: Value) -> Result<Vec<Value>, ParsingError>
    ensures finds { FindsValues (values_of_width width (out-Value reply)) result }
{
    match reply {
        Value::Array(items) => require_len(items.into_vec(), width),
        Value::Set(items) => require_len(items.into_vec(), width),
        Value::Map(pairs) => require_len(values_in_turn(alloc, pairs)?, width),
        other => refuse(other, "Response type not tuple compatible"),
    }
}

/// What is left of a tuple's elements: none, or one and what is left then.
pub trait Elements: Sized {
    // Holds of values and the elements that they are.
    ghost of_values: { List Value → Self → Type 0 };

    /// Converts all values that are left.
    fn take<R: Reply>(alloc: Global, values: &mut R::Elements) -> Result<Self, ParsingError>
        ensures converts { (vs : List Value) → R.show values.old vs
            → Converts (of_values vs) result };
}

impl Elements for () {
    ghost use Rattle.resp_from.specs.Tuples.{NoMore};

    ghost of_values = { λ values _. NoMore values };

    fn take<R: Reply>(_alloc: Global, values: &mut R::Elements) -> Result<(), ParsingError> {
        if R::next_of(values).is_some() {
            return Err(ParsingError::from("Array response of wrong dimension"));
        }
        Ok(())
    }
}

impl<A: FromRedisValue, E: Elements> Elements for (A, E) {
    ghost use Rattle.resp_from.specs.Tuples.{First};

    ghost of_values = { λ values x. First A.of_value x.0 (λ rest. E.of_values rest x.1) values };

    fn take<R: Reply>(alloc: Global, values: &mut R::Elements) -> Result<(A, E), ParsingError> {
        match R::next_of(values) {
            Some(value) => {
                let first = A::from_reply(alloc, value)?;
                let rest = E::take::<R>(alloc, values)?;
                Ok((first, rest))
            }
            None => Err(ParsingError::from("Array response of wrong dimension")),
        }
    }
}

/// What more there is, whatever it be: the end of elements that others may follow.
pub struct Ignored;

impl Elements for Ignored {
    ghost of_values = { λ _ _. ⊤ };

    fn take<R: Reply>(_alloc: Global, _values: &mut R::Elements) -> Result<Ignored, ParsingError> {
        Ok(Ignored)
    }
}

/// The elements that trees are.
pub fn take_elements<E: Elements>(
    alloc: Global,
    values: &mut IntoIter<Value>,
) -> Result<E, ParsingError>
    ensures converts { Converts (E.of_values (into_iter_items values.old)) result }
{
    E::take::<Value>(alloc, values)
}

/// All elements of a tuple of this width, of a tree.
#[inline(never)]
fn elements_of_tree<E: Elements>(
    alloc: Global,
    width: usize,
    reply: Value,
) -> Result<E, ParsingError>
    ensures converts { Converts
        (λ elements. HasValues width reply (λ values. E.of_values values elements)) result }
{
    take_elements(alloc, &mut find_values(alloc, width, reply)?.into_iter())
}

/// All elements of a tuple of this width: of an array or a set where they stand, and else of a tree.
fn elements_of<E: Elements, R: Reply>(
    alloc: Global,
    width: usize,
    reply: R,
) -> Result<E, ParsingError>
    ensures converts { (v : Value) → R.shows reply v
        → Converts (λ elements. HasValues width v (λ values. E.of_values values elements)) result }
{
    let len = reply.len();
    match reply.into_elements() {
        Ok(mut elements) => {
            if len != width {
                return Err(ParsingError::from("Array response of wrong dimension"));
            }
            E::take::<R>(alloc, &mut elements)
        }
        Err(other) => elements_of_tree(alloc, width, other.into_value(alloc)?),
    }
}

/// A tuple is an array or a set of as many values, or a map of half as many pairs, element by
/// element, each key before its value. At most one attribute is removed.
impl<A: FromRedisValue> FromRedisValue for (A,) {
    ghost use Rattle.resp_from.specs.Tuples.{HasValues, First, NoMore};

    const WIDTH: usize = 1;

    const BYTES: bool = false;

    ghost WIDTH = { 1 };

    ghost of_value = { λ reply x. HasValues 1 reply (First A.of_value x.0 NoMore) };

    ghost reads_tree = { λ _. ⊥ };

    fn from_redis_value(alloc: Global, value: Value) -> Result<(A,), ParsingError> {
        Self::from_reply(alloc, value)
    }

    fn from_reply<R: Reply>(alloc: Global, reply: R) -> Result<(A,), ParsingError> {
        let (a, ()) = elements_of(alloc, 1, reply)?;
        Ok((a,))
    }
}

impl<A: FromRedisValue, B: FromRedisValue> FromRedisValue for (A, B) {
    ghost use Rattle.resp_from.specs.Tuples.{HasValues, First, NoMore};

    const WIDTH: usize = 2;

    const BYTES: bool = false;

    ghost WIDTH = { 2 };

    ghost of_value = { λ reply x. HasValues 2 reply
        (First A.of_value x.0 (First B.of_value x.1 NoMore)) };

    ghost reads_tree = { λ _. ⊥ };

    fn from_redis_value(alloc: Global, value: Value) -> Result<(A, B), ParsingError> {
        Self::from_reply(alloc, value)
    }

    fn from_reply<R: Reply>(alloc: Global, reply: R) -> Result<(A, B), ParsingError> {
        let (a, (b, ())) = elements_of(alloc, 2, reply)?;
        Ok((a, b))
    }
}

impl<A: FromRedisValue, B: FromRedisValue, C: FromRedisValue> FromRedisValue for (A, B, C) {
    ghost use Rattle.resp_from.specs.Tuples.{HasValues, First, NoMore};

    const WIDTH: usize = 3;

    const BYTES: bool = false;

    ghost WIDTH = { 3 };

    ghost of_value = { λ reply x. HasValues 3 reply
        (First A.of_value x.0 (First B.of_value x.1 (First C.of_value x.2 NoMore))) };

    ghost reads_tree = { λ _. ⊥ };

    fn from_redis_value(alloc: Global, value: Value) -> Result<(A, B, C), ParsingError> {
        Self::from_reply(alloc, value)
    }

    fn from_reply<R: Reply>(alloc: Global, reply: R) -> Result<(A, B, C), ParsingError> {
        let (a, (b, (c, ()))) = elements_of(alloc, 3, reply)?;
        Ok((a, b, c))
    }
}

impl<A: FromRedisValue, B: FromRedisValue, C: FromRedisValue, D: FromRedisValue> FromRedisValue
    for (A, B, C, D) {
    ghost use Rattle.resp_from.specs.Tuples.{HasValues, First, NoMore};

    const WIDTH: usize = 4;

    const BYTES: bool = false;

    ghost WIDTH = { 4 };

    ghost of_value = { λ reply x. HasValues 4 reply
        (First A.of_value x.0 (First B.of_value x.1
        (First C.of_value x.2 (First D.of_value x.3 NoMore)))) };

    ghost reads_tree = { λ _. ⊥ };

    fn from_redis_value(alloc: Global, value: Value) -> Result<(A, B, C, D), ParsingError> {
        Self::from_reply(alloc, value)
    }

    fn from_reply<R: Reply>(alloc: Global, reply: R) -> Result<(A, B, C, D), ParsingError> {
        let (a, (b, (c, (d, ())))) = elements_of(alloc, 4, reply)?;
        Ok((a, b, c, d))
    }
}

impl<
    A: FromRedisValue,
    B: FromRedisValue,
    C: FromRedisValue,
    D: FromRedisValue,
    E: FromRedisValue,
> FromRedisValue for (A, B, C, D, E) {
    ghost use Rattle.resp_from.specs.Tuples.{HasValues, First, NoMore};

    const WIDTH: usize = 5;

    const BYTES: bool = false;

    ghost WIDTH = { 5 };

    ghost of_value = { λ reply x. HasValues 5 reply
        (First A.of_value x.0 (First B.of_value x.1
        (First C.of_value x.2 (First D.of_value x.3 (First E.of_value x.4 NoMore))))) };

    ghost reads_tree = { λ _. ⊥ };

    fn from_redis_value(alloc: Global, value: Value) -> Result<(A, B, C, D, E), ParsingError> {
        Self::from_reply(alloc, value)
    }

    fn from_reply<R: Reply>(alloc: Global, reply: R) -> Result<(A, B, C, D, E), ParsingError> {
        let (a, (b, (c, (d, (e, ()))))) = elements_of(alloc, 5, reply)?;
        Ok((a, b, c, d, e))
    }
}

impl<
    A: FromRedisValue,
    B: FromRedisValue,
    C: FromRedisValue,
    D: FromRedisValue,
    E: FromRedisValue,
    F: FromRedisValue,
> FromRedisValue for (A, B, C, D, E, F) {
    ghost use Rattle.resp_from.specs.Tuples.{HasValues, First, NoMore};

    const WIDTH: usize = 6;

    const BYTES: bool = false;

    ghost WIDTH = { 6 };

    ghost of_value = { λ reply x. HasValues 6 reply
        (First A.of_value x.0 (First B.of_value x.1
        (First C.of_value x.2 (First D.of_value x.3
        (First E.of_value x.4 (First F.of_value x.5 NoMore)))))) };

    ghost reads_tree = { λ _. ⊥ };

    fn from_redis_value(alloc: Global, value: Value) -> Result<(A, B, C, D, E, F), ParsingError> {
        Self::from_reply(alloc, value)
    }

    fn from_reply<R: Reply>(alloc: Global, reply: R) -> Result<(A, B, C, D, E, F), ParsingError> {
        let (a, (b, (c, (d, (e, (f, ())))))) = elements_of(alloc, 6, reply)?;
        Ok((a, b, c, d, e, f))
    }
}

impl<
    A: FromRedisValue,
    B: FromRedisValue,
    C: FromRedisValue,
    D: FromRedisValue,
    E: FromRedisValue,
    F: FromRedisValue,
    G: FromRedisValue,
> FromRedisValue for (A, B, C, D, E, F, G) {
    ghost use Rattle.resp_from.specs.Tuples.{HasValues, First, NoMore};

    const WIDTH: usize = 7;

    const BYTES: bool = false;

    ghost WIDTH = { 7 };

    ghost of_value = { λ reply x. HasValues 7 reply
        (First A.of_value x.0 (First B.of_value x.1
        (First C.of_value x.2 (First D.of_value x.3
        (First E.of_value x.4 (First F.of_value x.5 (First G.of_value x.6 NoMore))))))) };

    ghost reads_tree = { λ _. ⊥ };

    fn from_redis_value(
        alloc: Global,
        value: Value,
    ) -> Result<(A, B, C, D, E, F, G), ParsingError> {
        Self::from_reply(alloc, value)
    }

    fn from_reply<R: Reply>(
        alloc: Global,
        reply: R,
    ) -> Result<(A, B, C, D, E, F, G), ParsingError> {
        let (a, (b, (c, (d, (e, (f, (g, ()))))))) = elements_of(alloc, 7, reply)?;
        Ok((a, b, c, d, e, f, g))
    }
}

impl<
    A: FromRedisValue,
    B: FromRedisValue,
    C: FromRedisValue,
    D: FromRedisValue,
    E: FromRedisValue,
    F: FromRedisValue,
    G: FromRedisValue,
    H: FromRedisValue,
> FromRedisValue for (A, B, C, D, E, F, G, H) {
    ghost use Rattle.resp_from.specs.Tuples.{HasValues, First, NoMore};

    const WIDTH: usize = 8;

    const BYTES: bool = false;

    ghost WIDTH = { 8 };

    ghost of_value = { λ reply x. HasValues 8 reply
        (First A.of_value x.0 (First B.of_value x.1
        (First C.of_value x.2 (First D.of_value x.3
        (First E.of_value x.4 (First F.of_value x.5
        (First G.of_value x.6 (First H.of_value x.7 NoMore)))))))) };

    ghost reads_tree = { λ _. ⊥ };

    fn from_redis_value(
        alloc: Global,
        value: Value,
    ) -> Result<(A, B, C, D, E, F, G, H), ParsingError> {
        Self::from_reply(alloc, value)
    }

    fn from_reply<R: Reply>(
        alloc: Global,
        reply: R,
    ) -> Result<(A, B, C, D, E, F, G, H), ParsingError> {
        let (a, (b, (c, (d, (e, (f, (g, (h, ())))))))) = elements_of(alloc, 8, reply)?;
        Ok((a, b, c, d, e, f, g, h))
    }
}

impl<
    A: FromRedisValue,
    B: FromRedisValue,
    C: FromRedisValue,
    D: FromRedisValue,
    E: FromRedisValue,
    F: FromRedisValue,
    G: FromRedisValue,
    H: FromRedisValue,
    I: FromRedisValue,
> FromRedisValue for (A, B, C, D, E, F, G, H, I) {
    ghost use Rattle.resp_from.specs.Tuples.{HasValues, First, NoMore};

    const WIDTH: usize = 9;

    const BYTES: bool = false;

    ghost WIDTH = { 9 };

    ghost of_value = { λ reply x. HasValues 9 reply
        (First A.of_value x.0 (First B.of_value x.1
        (First C.of_value x.2 (First D.of_value x.3
        (First E.of_value x.4 (First F.of_value x.5
        (First G.of_value x.6 (First H.of_value x.7 (First I.of_value x.8 NoMore))))))))) };

    ghost reads_tree = { λ _. ⊥ };

    fn from_redis_value(
        alloc: Global,
        value: Value,
    ) -> Result<(A, B, C, D, E, F, G, H, I), ParsingError> {
        Self::from_reply(alloc, value)
    }

    fn from_reply<R: Reply>(
        alloc: Global,
        reply: R,
    ) -> Result<(A, B, C, D, E, F, G, H, I), ParsingError> {
        let (a, (b, (c, (d, (e, (f, (g, (h, (i, ()))))))))) = elements_of(alloc, 9, reply)?;
        Ok((a, b, c, d, e, f, g, h, i))
    }
}

impl<
    A: FromRedisValue,
    B: FromRedisValue,
    C: FromRedisValue,
    D: FromRedisValue,
    E: FromRedisValue,
    F: FromRedisValue,
    G: FromRedisValue,
    H: FromRedisValue,
    I: FromRedisValue,
    J: FromRedisValue,
> FromRedisValue for (A, B, C, D, E, F, G, H, I, J) {
    ghost use Rattle.resp_from.specs.Tuples.{HasValues, First, NoMore};

    const WIDTH: usize = 10;

    const BYTES: bool = false;

    ghost WIDTH = { 10 };

    ghost of_value = { λ reply x. HasValues 10 reply
        (First A.of_value x.0 (First B.of_value x.1
        (First C.of_value x.2 (First D.of_value x.3
        (First E.of_value x.4 (First F.of_value x.5
        (First G.of_value x.6 (First H.of_value x.7
        (First I.of_value x.8 (First J.of_value x.9 NoMore)))))))))) };

    ghost reads_tree = { λ _. ⊥ };

    fn from_redis_value(
        alloc: Global,
        value: Value,
    ) -> Result<(A, B, C, D, E, F, G, H, I, J), ParsingError> {
        Self::from_reply(alloc, value)
    }

    fn from_reply<R: Reply>(
        alloc: Global,
        reply: R,
    ) -> Result<(A, B, C, D, E, F, G, H, I, J), ParsingError> {
        let (a, (b, (c, (d, (e, (f, (g, (h, (i, (j, ())))))))))) = elements_of(alloc, 10, reply)?;
        Ok((a, b, c, d, e, f, g, h, i, j))
    }
}

impl<
    A: FromRedisValue,
    B: FromRedisValue,
    C: FromRedisValue,
    D: FromRedisValue,
    E: FromRedisValue,
    F: FromRedisValue,
    G: FromRedisValue,
    H: FromRedisValue,
    I: FromRedisValue,
    J: FromRedisValue,
    K: FromRedisValue,
> FromRedisValue for (A, B, C, D, E, F, G, H, I, J, K) {
    ghost use Rattle.resp_from.specs.Tuples.{HasValues, First, NoMore};

    const WIDTH: usize = 11;

    const BYTES: bool = false;

    ghost WIDTH = { 11 };

    ghost of_value = { λ reply x. HasValues 11 reply
        (First A.of_value x.0 (First B.of_value x.1
        (First C.of_value x.2 (First D.of_value x.3
        (First E.of_value x.4 (First F.of_value x.5
        (First G.of_value x.6 (First H.of_value x.7
        (First I.of_value x.8 (First J.of_value x.9 (First K.of_value x.10 NoMore))))))))))) };

    ghost reads_tree = { λ _. ⊥ };

    fn from_redis_value(
        alloc: Global,
        value: Value,
    ) -> Result<(A, B, C, D, E, F, G, H, I, J, K), ParsingError> {
        Self::from_reply(alloc, value)
    }

    fn from_reply<R: Reply>(
        alloc: Global,
        reply: R,
    ) -> Result<(A, B, C, D, E, F, G, H, I, J, K), ParsingError> {
        let (a, (b, (c, (d, (e, (f, (g, (h, (i, (j, (k, ()))))))))))) = elements_of(
            alloc, 11, reply,
        )?;
        Ok((a, b, c, d, e, f, g, h, i, j, k))
    }
}

impl<
    A: FromRedisValue,
    B: FromRedisValue,
    C: FromRedisValue,
    D: FromRedisValue,
    E: FromRedisValue,
    F: FromRedisValue,
    G: FromRedisValue,
    H: FromRedisValue,
    I: FromRedisValue,
    J: FromRedisValue,
    K: FromRedisValue,
    L: FromRedisValue,
> FromRedisValue for (A, B, C, D, E, F, G, H, I, J, K, L) {
    ghost use Rattle.resp_from.specs.Tuples.{HasValues, First, NoMore};

    const WIDTH: usize = 12;

    const BYTES: bool = false;

    ghost WIDTH = { 12 };

    ghost of_value = { λ reply x. HasValues 12 reply
        (First A.of_value x.0 (First B.of_value x.1
        (First C.of_value x.2 (First D.of_value x.3
        (First E.of_value x.4 (First F.of_value x.5
        (First G.of_value x.6 (First H.of_value x.7
        (First I.of_value x.8 (First J.of_value x.9
        (First K.of_value x.10 (First L.of_value x.11 NoMore)))))))))))) };

    ghost reads_tree = { λ _. ⊥ };

    fn from_redis_value(
        alloc: Global,
        value: Value,
    ) -> Result<(A, B, C, D, E, F, G, H, I, J, K, L), ParsingError> {
        Self::from_reply(alloc, value)
    }

    fn from_reply<R: Reply>(
        alloc: Global,
        reply: R,
    ) -> Result<(A, B, C, D, E, F, G, H, I, J, K, L), ParsingError> {
        let (a, (b, (c, (d, (e, (f, (g, (h, (i, (j, (k, (l, ())))))))))))) = elements_of(
            alloc, 12, reply,
        )?;
        Ok((a, b, c, d, e, f, g, h, i, j, k, l))
    }
}
