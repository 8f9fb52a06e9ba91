//! The trait of the types that a reply converts to.

ghost use Rattle.std.specs.Prelude.{◌≡◌, ℕ, Bool, false, IfErr, MatchResult, ⊤};
ghost use Rattle.std.specs.Result.{IsErrAnd};
ghost use Rattle.resp_value.specs.declared.value.Value.{Value};
ghost use Rattle.resp_errors.specs.declared.parsing_error.ParsingError.{ParsingError};
ghost use Rattle.resp_errors.specs.declared.parsing_error.ParsingError.TheVariants as parsing;
ghost use Rattle.resp_flat.specs.declared.token.TokenKind.{TokenKind};
ghost use Rattle.resp_from.specs.Conversion.{AnyError, OfVia, OrMemory, Converts, ConvertsList};
ghost use Rattle.resp_from.specs.Conversion.{ConvertsMaybe};
ghost use Rattle.resp_from.specs.Rules.{OfList, OfEach, OfBytes};
ghost use Rattle.resp_from.specs.Replies.{RefusesTokens};

use crate::reply::Reply;
use crate::rules::{
    answer_each, convert_bytes, convert_list, convert_list_ref, convert_one, pieces_of,
};
use resp_value::{Bytes, ParsingError, Value};
use std::alloc::Global;

/// A type that replies convert to.
///
/// An implementation writes `from_redis_value` and the two constants; the other functions rest on
/// them. For the contract it writes `of_value`, and `WIDTH` and `BYTES` where they aren't 0 and
/// false. No refusal of a conversion carries a `FrameFault`.
pub trait FromRedisValue: Sized + Drop {
    /// How many values of a list make one of the type: `n` for a tuple of `n`, else 0.
    const WIDTH: usize;

    /// Whether each byte of a bulk string is a value of the type: true for `u8` alone.
    const BYTES: bool;

    ghost WIDTH: { ℕ } = { 0 };

    ghost BYTES: { Bool } = { false };

    // Holds of a reply and each value that it converts to.
    ghost of_value: { Value → Self → Type 0 };

    // Holds of a reply and each error that its conversion may answer; of any, by default.
    ghost error_of_value: { Value → ParsingError → Type 0 } = { AnyError };

    // Holds of what `from_reply` reads by way of a tree: of everything, where it is left out.
    ghost reads_tree: { TokenKind → Type 0 } = { λ _. ⊤ };

    /// The value of a reply.
    ///
    /// Refused where the reply is no value of the type, or on `OutOfMemory`.
    fn from_redis_value(alloc: Global, value: Value) -> Result<Self, ParsingError>
        ensures converts { Converts (of_value value) result }
        ensures errors { IfErr result (error_of_value value) };

    /// The value of a borrowed reply; unless the type says more, as `from_reply` reads it.
    ///
    /// Refused where the reply is no value of the type, or on `OutOfMemory`.
    fn from_redis_value_ref(alloc: Global, value: &Value) -> Result<Self, ParsingError>
        ensures converts { Converts (of_value value.now) result }
        ensures errors { IfErr result (OrMemory (error_of_value value.now)) }
    {
        Self::from_reply(alloc, value)
    }

    /// The value of a reply in any form; unless the type says more, by way of a tree.
    ///
    /// Refused where the reply shows no value of the type, or on `OutOfMemory`. Where a cursor in a
    /// flat reply stands at tokens that are no value's, at a value of more than 1,000 levels, or at
    /// one with texts that no parser gives (`IsReadable`), it is refused with the text `the tokens
    /// and the text are no value's` if a tree is read (`reads_tree`), and else it may convert to any
    /// value of the type: [`FlatValue::to_value`](resp_flat::FlatValue::to_value) tells.
    fn from_reply<R: Reply>(alloc: Global, reply: R) -> Result<Self, ParsingError>
        ensures converts { (v : Value) → R.shows reply v → Converts (of_value v) result }
        ensures errors { (v : Value) → R.shows reply v
            → IfErr result (OrMemory (error_of_value v)) }
        ensures refused { reads_tree (R.token_kind reply) → R.shows_nothing reply
            → IsErrAnd result RefusesTokens }
    {
        Self::from_redis_value(alloc, reply.into_value(alloc)?)
    }

    /// The values of a list of replies.
    ///
    /// Each reply is one value. Of a tuple, whose replies don't all hold as many values as it has
    /// elements, each group of that many replies is one value; a short last group is refused.
    ///
    /// Refused where a reply or a group is no value of the type, or on `OutOfMemory`.
    final fn from_redis_values(alloc: Global, values: Vec<Value>) -> Result<Vec<Self>, ParsingError>
        ensures converts { ConvertsList (OfList WIDTH of_value values.items) result }
    {
        convert_list(alloc, Self::WIDTH, values)
    }

    /// The values of a borrowed list of replies, as `from_redis_values` gives them.
    final fn from_redis_value_refs(
        alloc: Global,
        values: &[Value],
    ) -> Result<Vec<Self>, ParsingError>
        ensures converts { ConvertsList (OfList WIDTH of_value values.now) result }
    {
        convert_list_ref(alloc, Self::WIDTH, values)
    }

    /// The values of a list of replies, or in place of each its refusal.
    ///
    /// A list with a short last group is one refusal. Fails only with `OutOfMemory`.
    final fn from_each_redis_values(
        alloc: Global,
        values: Vec<Value>,
    ) -> Result<Vec<Result<Self, ParsingError>>, ParsingError>
        ensures answers { MatchResult result (λ v. OfEach WIDTH of_value values.items v.items)
            (λ e. e ≡ parsing.OutOfMemory) }
    {
        match pieces_of(alloc, Self::WIDTH, values) {
            Ok(pieces) => answer_each(alloc, pieces),
            Err(ParsingError::OutOfMemory) => Err(ParsingError::OutOfMemory),
            Err(error) => {
                let mut answers = Vec::new(alloc);
                answers.push(Err(error))?;
                Ok(answers)
            }
        }
    }

    /// The values of the bytes of a bulk string: of `u8` each byte, of another type the one bulk
    /// string.
    ///
    /// Refused where that is no value of the type, or on `OutOfMemory`.
    final fn from_byte_vec(alloc: Global, bytes: Vec<u8>) -> Result<Vec<Self>, ParsingError>
        ensures converts { ConvertsList (OfBytes BYTES of_value bytes.items) result }
    {
        if Self::BYTES {
            return convert_bytes(alloc, bytes);
        }
        convert_one(alloc, Value::BulkString(Bytes::from(bytes)))
    }

    /// The same of borrowed bytes, or `None` where `from_byte_vec` refuses.
    ///
    /// Fails only with `OutOfMemory`.
    final fn from_byte_slice(alloc: Global, bytes: &[u8]) -> Result<Option<Vec<Self>>, ParsingError>
        ensures converts { ConvertsMaybe (OfBytes BYTES of_value bytes.now) result }
    {
        match Self::from_byte_vec(alloc, Vec::from_slice(alloc, bytes)?) {
            Ok(all) => Ok(Some(all)),
            Err(ParsingError::OutOfMemory) => Err(ParsingError::OutOfMemory),
            Err(_) => Ok(None),
        }
    }
}

/// The value of a reply, as [`FromRedisValue::from_redis_value`] gives it.
pub fn from_redis_value<T: FromRedisValue>(alloc: Global, value: Value) -> Result<T, ParsingError>
    ensures converts { Converts (T.of_value value) result }
    ensures errors { IfErr result (T.error_of_value value) }
{
    T::from_redis_value(alloc, value)
}

/// The value of a borrowed reply, as [`FromRedisValue::from_redis_value_ref`] gives it.
pub fn from_redis_value_ref<T: FromRedisValue>(
    alloc: Global,
    value: &Value,
) -> Result<T, ParsingError>
    ensures converts { Converts (T.of_value value.now) result }
    ensures errors { IfErr result (OrMemory (T.error_of_value value.now)) }
{
    T::from_redis_value_ref(alloc, value)
}

/// A value that is made of the reply's value as a `T`; so a type of one's own converts by way of a
/// tuple.
///
/// Refused where the reply is no `T`, or on `OutOfMemory`.
///
/// ```text
/// impl From<(i64, i64)> for Point {
///     ghost from_gives = { λ t p. (p.x ≡ t.0) × (p.y ≡ t.1) };
///
///     fn from((x, y): (i64, i64)) -> Point {
///         Point { x, y }
///     }
/// }
///
/// impl FromRedisValue for Point {
///     const WIDTH: usize = 0;
///
///     const BYTES: bool = false;
///
///     ghost of_value = { OfVia ⟦<(i64, i64) as FromRedisValue>⟧.of_value
///         ⟦<Point as From<(i64, i64)>>⟧.from_gives };
///
///     fn from_redis_value(alloc: Global, value: Value) -> Result<Point, ParsingError> {
///         from_redis_value_by::<(i64, i64), Point>(alloc, value)
///     }
/// }
/// ```
///
/// In `crates/example_snippets/src/replies/own_types.rt`.
pub fn from_redis_value_by<T: FromRedisValue, X: From<T>>(
    alloc: Global,
    value: Value,
) -> Result<X, ParsingError>
    ensures converts { Converts (OfVia T.of_value X.from_gives value) result }
    ensures errors { IfErr result (T.error_of_value value) }
{
    let via = T::from_redis_value(alloc, value)?;
    Ok(X::from(via))
}
