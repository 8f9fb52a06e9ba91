//! Replies as they are.

use crate::conversion::FromRedisValue;
use resp_value::{ParsingError, Value};
use std::alloc::Global;

impl FromRedisValue for Value {
    ghost use Rattle.std.specs.Prelude.{◌≡◌};

    const WIDTH: usize = 0;

    const BYTES: bool = false;

    ghost of_value = { λ reply v. v ≡ reply };

    fn from_redis_value(_alloc: Global, value: Value) -> Result<Value, ParsingError> {
        Ok(value)
    }
}
