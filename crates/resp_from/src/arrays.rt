//! Replies as lists of a size of their own: boxed slices and arrays.

ghost use Rattle.std.specs.Prelude.{◌≡◌};
ghost use Rattle.resp_value.specs.declared.value.Value.{out-Value};
ghost use Rattle.resp_from.specs.Conversion.{Converts};
ghost use Rattle.resp_from.specs.Lists.{OfArray, is_array_like};

use crate::conversion::FromRedisValue;
use crate::lists::{list_of, list_of_reply};
use crate::refusals::refuse;
use crate::reply::Reply;
use resp_flat::TokenKind;
use resp_value::{ParsingError, Value};
use std::alloc::Global;
use std::boxed::BoxedSlice;

/// A boxed slice is what a [`Vec`] is.
impl<T: FromRedisValue> FromRedisValue for BoxedSlice<T> {
    ghost use Rattle.std.specs.Box.{boxed_slice_items};
    ghost use Rattle.resp_from.specs.Lists.{OfVec};

    const WIDTH: usize = 0;

    const BYTES: bool = false;

    ghost of_value = { λ reply slice. OfVec T.WIDTH T.BYTES T.of_value reply
        (boxed_slice_items slice) };

    ghost reads_tree = { λ _. ⊥ };

    fn from_redis_value(alloc: Global, value: Value) -> Result<BoxedSlice<T>, ParsingError> {
        let items: Vec<T> = Vec::from_redis_value(alloc, value)?;
        Ok(items.into_boxed_slice())
    }

    fn from_reply<R: Reply>(alloc: Global, reply: R) -> Result<BoxedSlice<T>, ParsingError> {
        let items: Vec<T> = list_of_reply(alloc, reply)?;
        Ok(items.into_boxed_slice())
    }
}

/// Whether the reply is an array, a bulk string or nothing.
fn is_like_array(reply: &Value) -> bool
    ensures { result ≡ is_array_like (out-Value reply.now) }
{
    matches!(reply, Value::Array(_) | Value::BulkString(_) | Value::Nil)
}

/// The array of a tree.
fn array_of<T: FromRedisValue, const N: usize>(
    alloc: Global,
    value: Value,
) -> Result<[T; N], ParsingError>
    ensures converts { Converts (OfArray N T.WIDTH T.BYTES T.of_value value) result }
{
    if !is_like_array(&value) {
        return refuse(value, "Response type not array compatible");
    }
    match <[T; N]>::try_from(list_of(alloc, value)?) {
        Ok(items) => Ok(items),
        Err(_) => Err(ParsingError::from("Response has wrong dimension")),
    }
}

/// An array is what a [`Vec`] of exactly as many items is, of an array, a bulk string or nothing; a
/// set and a map are refused. No attribute is removed.
impl<T: FromRedisValue, const N: usize> FromRedisValue for [T; N] {
    ghost use Rattle.std.specs.Prelude.{◌≡◌};
    ghost use Rattle.resp_flat.specs.declared.token.TokenKind.TheVariants as kind;
    ghost use Rattle.resp_from.specs.Lists.{OfArray};

    const WIDTH: usize = 0;

    const BYTES: bool = false;

    ghost of_value = { λ reply items. OfArray N T.WIDTH T.BYTES T.of_value reply items };

    ghost reads_tree = { λ k. k ≡ kind.Array → ⊥ };

    fn from_redis_value(alloc: Global, value: Value) -> Result<[T; N], ParsingError> {
        array_of(alloc, value)
    }

    fn from_reply<R: Reply>(alloc: Global, reply: R) -> Result<[T; N], ParsingError> {
        match reply.kind() {
            TokenKind::Array => match <[T; N]>::try_from(list_of_reply(alloc, reply)?) {
                Ok(items) => Ok(items),
                Err(_) => Err(ParsingError::from("Response has wrong dimension")),
            },
            _ => array_of(alloc, reply.into_value(alloc)?),
        }
    }
}
