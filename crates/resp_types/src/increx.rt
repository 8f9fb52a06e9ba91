//! The two numbers of an increment.

ghost use Rattle.std.specs.Prelude.{◌≡◌, IfOk};
ghost use Rattle.resp_from.specs.Conversion.{Converts};
ghost use Rattle.resp_types.specs.Increx.{AreIntegers};

use resp_from::FromRedisValue;
use resp_value::{ParsingError, Value};
use std::alloc::{AllocError, Global};

/// What INCREX answers: the value after the increment, and the increment that was made.
///
/// Each is as the server sent it: of BYINT an integer; of BYFLOAT a bulk string, or a double
/// (RESP3).
#[derive(PartialEq, Eq, Debug, Drop)]
pub struct IncrexResult {
    /// The value after the increment.
    pub value: Value,
    /// The increment that was made: less than was asked for where a bound was met, and 0 where the
    /// command was refused for it.
    pub actual_increment: Value,
}

impl IncrexResult {
    /// The value, as a `T`. Refused where it is none, or on `OutOfMemory`.
    pub fn value_as<T: FromRedisValue>(&self, alloc: Global) -> Result<T, ParsingError>
        ensures converts { Converts (T.of_value self.now.value) result }
    {
        T::from_redis_value_ref(alloc, &self.value)
    }

    /// The increment, as a `T`. Refused where it is none, or on `OutOfMemory`.
    pub fn actual_increment_as<T: FromRedisValue>(&self, alloc: Global) -> Result<T, ParsingError>
        ensures converts { Converts (T.of_value self.now.actual_increment) result }
    {
        T::from_redis_value_ref(alloc, &self.actual_increment)
    }

    /// The value and the increment as integers, as of BYINT. Refused where one is none.
    pub fn as_i64(&self, alloc: Global) -> Result<(i64, i64), ParsingError>
        ensures converts { Converts (AreIntegers self.now) result }
    {
        let value = self.value_as(alloc)?;
        Ok((value, self.actual_increment_as(alloc)?))
    }

    /// An equal reply. Fails only when out of memory.
    pub fn try_clone(&self, alloc: Global) -> Result<IncrexResult, AllocError>
        ensures { IfOk result (λ r. r ≡ self.now) }
    {
        let value = self.value.try_clone(alloc)?;
        with_increment(alloc, value, &self.actual_increment)
    }
}

/// A value, and an equal increment.
fn with_increment(
    alloc: Global,
    value: Value,
    increment: &Value,
) -> Result<IncrexResult, AllocError>
    ensures { IfOk result (λ r. r ≡ record { value = value; actual_increment = increment.now }) }
{
    Ok(IncrexResult {
        value,
        actual_increment: increment.try_clone(alloc)?,
    })
}

/// An array of two, which are kept as they are.
impl FromRedisValue for IncrexResult {
    ghost use Rattle.resp_types.specs.Increx.{OfIncrex};

    const WIDTH: usize = 0;

    const BYTES: bool = false;

    ghost of_value = { OfIncrex };

    fn from_redis_value(alloc: Global, value: Value) -> Result<IncrexResult, ParsingError> {
        let [value, actual_increment] = <[Value; 2]>::from_redis_value(alloc, value)?;
        Ok(IncrexResult {
            value,
            actual_increment,
        })
    }
}
