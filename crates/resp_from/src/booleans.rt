//! Replies as truth values.

ghost use Rattle.std.specs.Prelude.{IfErr};
ghost use Rattle.resp_from.specs.Conversion.{AnyButMemory, Converts, Decides};
ghost use Rattle.resp_from.specs.Booleans.{OfBool, TruthText};

use crate::attributes::strip_attribute_ref;
use crate::conversion::FromRedisValue;
use crate::reply::Reply;
use resp_value::{ParsingError, Value};
use std::alloc::Global;

fn read_truth_text(text: &[u8]) -> Result<bool, ParsingError>
    ensures decides { Decides (TruthText text.now) result }
{
    if text == "1".as_bytes() {
        return Ok(true);
    }
    if text == "0".as_bytes() {
        return Ok(false);
    }
    Err(ParsingError::from("Response status not valid boolean"))
}

fn read_bool(value: &Value) -> Result<bool, ParsingError>
    ensures decides { Decides (OfBool value.now) result }
{
    match strip_attribute_ref(value) {
        Value::Nil => Ok(false),
        Value::Okay => Ok(true),
        Value::Boolean(truth) => Ok(*truth),
        Value::Int(number) => Ok(*number != 0),
        Value::SimpleString(text) => read_truth_text(text.as_str().as_bytes()),
        Value::BulkString(bytes) => read_truth_text(bytes.as_slice()),
        _ => Err(ParsingError::from("Response type not bool compatible.")),
    }
}

/// A truth value is false for nothing, 0 and the text `0`, and true for `OK`, every other number
/// and the text `1`. At most one attribute is removed. Takes no memory.
impl FromRedisValue for bool {
    const WIDTH: usize = 0;

    const BYTES: bool = false;

    ghost of_value = { OfBool };

    ghost error_of_value = { AnyButMemory };

    ghost reads_tree = { λ _. ⊥ };

    #[tactic(auto, using(crate::proofs::Conversions::decided))]
    fn from_redis_value(_alloc: Global, value: Value) -> Result<bool, ParsingError> {
        let truth = read_bool(&value);
        drop(value);
        truth
    }

    #[tactic(auto, using(crate::proofs::Conversions::decided))]
    fn from_redis_value_ref(_alloc: Global, value: &Value) -> Result<bool, ParsingError>
        ensures converts { Converts (OfBool value.now) result }
        ensures errors { IfErr result (AnyButMemory value.now) }
    {
        read_bool(value)
    }

    fn from_reply<R: Reply>(alloc: Global, reply: R) -> Result<bool, ParsingError> {
        if let Some(truth) = reply.as_bool() {
            return Ok(truth);
        }
        match reply.as_line() {
            Some(text) => read_truth_text(text),
            None => read_bool(&reply.into_value(alloc)?),
        }
    }
}
