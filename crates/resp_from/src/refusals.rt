//! Refusals of replies.

ghost use Rattle.std.specs.Result.{IsErrAnd};
ghost use Rattle.resp_from.specs.Conversion.{IsDescribed};

use resp_value::{ParsingError, Value};

/// The refusal of a reply, which is dropped here, once for all conversions.
pub fn refuse<T>(reply: Value, why: &'static str) -> Result<T, ParsingError>
    ensures { IsErrAnd result IsDescribed }
{
    drop(reply);
    Err(ParsingError::from(why))
}
