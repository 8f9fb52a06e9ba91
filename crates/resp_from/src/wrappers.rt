//! Replies as values that may be absent, and as values behind pointers.

ghost use Rattle.resp_from.specs.Conversion.{Converts};
ghost use Rattle.resp_from.specs.Wrappers.{OfOption};

use crate::attributes::strip_attribute;
use crate::conversion::FromRedisValue;
use crate::reply::Reply;
use resp_flat::TokenKind;
use resp_value::{ParsingError, Value};
use std::alloc::Global;
use std::rc::Rc;

/// The option of a tree.
fn option_of<T: FromRedisValue>(alloc: Global, value: Value) -> Result<Option<T>, ParsingError>
    ensures converts { Converts (OfOption T.of_value value) result }
{
    match strip_attribute(value) {
        Value::Nil => Ok(None),
        value => Ok(Some(T::from_redis_value(alloc, value)?)),
    }
}

/// `None` is nothing; any other reply is a `Some`. One attribute is removed before, and the type
/// inside may remove one more.
impl<T: FromRedisValue> FromRedisValue for Option<T> {
    ghost use Rattle.std.specs.Prelude.{◌≡◌};
    ghost use Rattle.resp_flat.specs.declared.token.TokenKind.TheVariants as kind;

    const WIDTH: usize = 0;

    const BYTES: bool = false;

    ghost of_value = { OfOption T.of_value };

    ghost reads_tree = { λ k. (k ≡ kind.Nil → ⊥) × ((k ≡ kind.Attribute → ⊥) → T.reads_tree k) };

    fn from_redis_value(alloc: Global, value: Value) -> Result<Option<T>, ParsingError> {
        option_of(alloc, value)
    }

    fn from_reply<R: Reply>(alloc: Global, reply: R) -> Result<Option<T>, ParsingError> {
        match reply.kind() {
            TokenKind::Nil => Ok(None),
            TokenKind::Attribute => option_of(alloc, reply.into_value(alloc)?),
            _ => Ok(Some(T::from_reply(alloc, reply)?)),
        }
    }
}

/// A value in memory of its own.
impl<T: FromRedisValue> FromRedisValue for Box<T> {
    const WIDTH: usize = 0;

    const BYTES: bool = false;

    ghost of_value = { λ reply b. T.of_value reply b.value };

    ghost reads_tree = { T.reads_tree };

    fn from_redis_value(alloc: Global, value: Value) -> Result<Box<T>, ParsingError> {
        let item = T::from_redis_value(alloc, value)?;
        Ok(Box::new(alloc, item)?)
    }

    fn from_reply<R: Reply>(alloc: Global, reply: R) -> Result<Box<T>, ParsingError> {
        let item = T::from_reply(alloc, reply)?;
        Ok(Box::new(alloc, item)?)
    }
}

/// A value in memory that can be shared.
impl<T: FromRedisValue> FromRedisValue for Rc<T> {
    const WIDTH: usize = 0;

    const BYTES: bool = false;

    ghost of_value = { λ reply rc. T.of_value reply rc.value };

    ghost reads_tree = { T.reads_tree };

    fn from_redis_value(alloc: Global, value: Value) -> Result<Rc<T>, ParsingError> {
        let item = T::from_redis_value(alloc, value)?;
        Ok(Rc::new(alloc, item)?)
    }

    fn from_reply<R: Reply>(alloc: Global, reply: R) -> Result<Rc<T>, ParsingError> {
        let item = T::from_reply(alloc, reply)?;
        Ok(Rc::new(alloc, item)?)
    }
}
