//! Refusals that name a field.

ghost use Rattle.std.specs.Prelude.{IfOk, IfErr};
ghost use Rattle.std.specs.Prelude.{◌≡◌, string_bytes};
ghost use Rattle.resp_from.specs.Conversion.{Converts, OrMemory};
ghost use Rattle.resp_types.specs.Refusals.{IsMissing, NamesField, refusal_text};

use resp_from::FromRedisValue;
use resp_value::{ParsingError, Value};
use std::alloc::{AllocError, Global};

/// The value of a field, as a `T`.
pub(crate) fn convert_field<T: FromRedisValue>(
    alloc: Global,
    name: &str,
    value: Value,
) -> Result<T, ParsingError>
    ensures converts { Converts (T.of_value value) result }
    ensures errors { IfErr result (OrMemory (NamesField name.now (T.error_of_value value))) }
{
    T::from_redis_value(alloc, value).map_err(|error| in_field(alloc, name, error))
}

/// The refusal of a field that isn't there.
pub(crate) fn missing(alloc: Global, name: &str) -> ParsingError
    ensures { OrMemory (IsMissing name.now) result }
{
    described(alloc, name, "it is missing")
}

/// A refusal of the value of a field, with its name.
fn in_field(alloc: Global, name: &str, error: ParsingError) -> ParsingError
    ensures { OrMemory (NamesField name.now (λ why. why ≡ error)) result }
{
    match error {
        ParsingError::Described(why) => described(alloc, name, why.as_str()),
        other => other,
    }
}

/// A refusal of a field for this reason.
fn described(alloc: Global, name: &str, why: &str) -> ParsingError
    ensures { OrMemory (λ e. e ≡ ParsingError.Described (refusal_text name.now why.now)) result }
{
    match text(alloc, name, why) {
        Ok(text) => ParsingError::from(text),
        Err(_) => ParsingError::OutOfMemory,
    }
}

fn text(alloc: Global, name: &str, why: &str) -> Result<String, AllocError>
    ensures { IfOk result (λ text. string_bytes text ≡ refusal_text name.now why.now) }
{
    let mut text = String::from_str(alloc, "field ")?;
    text.push_str(name)?;
    text.push_str(": ")?;
    text.push_str(why)?;
    Ok(text)
}
