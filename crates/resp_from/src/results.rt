//! Replies as results: a value, or an error of the server.

ghost use Rattle.resp_from.specs.Conversion.{Converts};
ghost use Rattle.resp_from.specs.Results.{OfResult};

use crate::conversion::FromRedisValue;
use crate::reply::Reply;
use resp_flat::TokenKind;
use resp_value::{ParsingError, RedisError, Value};
use std::alloc::Global;

/// The result of a tree.
fn result_of<T: FromRedisValue>(
    alloc: Global,
    value: Value,
) -> Result<Result<T, RedisError>, ParsingError>
    ensures converts { Converts (OfResult T.of_value value) result }
{
    match value {
        Value::ServerError(error) => Ok(Err(RedisError::Server(error))),
        value => Ok(Ok(T::from_redis_value(alloc, value)?)),
    }
}

/// An error of the server is an `Err`; any other reply is converted.
impl<T: FromRedisValue> FromRedisValue for Result<T, RedisError> {
    ghost use Rattle.std.specs.Prelude.{◌≡◌};
    ghost use Rattle.resp_flat.specs.declared.token.TokenKind.TheVariants as kind;

    const WIDTH: usize = 0;

    const BYTES: bool = false;

    ghost of_value = { OfResult T.of_value };

    ghost reads_tree = { λ k. (k ≡ kind.ServerError → ⊥) → T.reads_tree k };

    fn from_redis_value(
        alloc: Global,
        value: Value,
    ) -> Result<Result<T, RedisError>, ParsingError> {
        result_of(alloc, value)
    }

    fn from_reply<R: Reply>(
        alloc: Global,
        reply: R,
    ) -> Result<Result<T, RedisError>, ParsingError> {
        match reply.kind() {
            TokenKind::ServerError => result_of(alloc, reply.into_value(alloc)?),
            _ => Ok(Ok(T::from_reply(alloc, reply)?)),
        }
    }
}

/// Every reply but an error of the server, whose text the refusal carries.
impl FromRedisValue for () {
    ghost use Rattle.resp_from.specs.Results.{ErrorOfUnit, OfUnit};

    const WIDTH: usize = 0;

    const BYTES: bool = false;

    ghost of_value = { λ reply _. OfUnit reply };

    ghost error_of_value = { ErrorOfUnit };

    fn from_redis_value(alloc: Global, value: Value) -> Result<(), ParsingError> {
        match value {
            Value::ServerError(error) => Err(ParsingError::from(format!(in alloc; "{error}")?)),
            other => {
                drop(other);
                Ok(())
            }
        }
    }
}
