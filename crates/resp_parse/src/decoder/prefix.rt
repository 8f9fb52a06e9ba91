//! The value at the start of bytes.

ghost use Rattle.resp_parse.specs.FirstValue.{ParsesFirst};

use crate::decoder::Counter;
use crate::limits::USUAL_DEPTH;
use crate::machine::Machine;
use crate::read_error::ReadError;
use crate::tree_builder::TreeBuilder;
use resp_value::{IoKind, ParsingError, RedisError, RedisResult, Value};
use std::alloc::Global;

/// The value that the bytes begin with; bytes after it are not read.
///
/// Bytes that can't begin a value are refused as [`RedisError::Parse`] with their
/// [`FrameFault`](resp_value::FrameFault), bytes that end before the value does as
/// [`IoKind::UnexpectedEof`]. Values are read down to 100 levels, the outermost being the first.
pub fn parse_redis_value(alloc: Global, bytes: &[u8]) -> RedisResult<Value>
    ensures answers { ParsesFirst bytes.now result }
{
    let mut machine = Machine::<TreeBuilder>::new(alloc, USUAL_DEPTH);
    let mut counts = Counter::new();
    let mut value = Value::Nil;
    match machine.read(alloc, bytes, &mut counts, &mut value) {
        Ok((_, true)) => Ok(value),
        Ok((_, false)) => Err(RedisError::Io(IoKind::UnexpectedEof)),
        Err(ReadError::Fault(fault)) => Err(RedisError::Parse(ParsingError::Fault(fault))),
        Err(ReadError::Memory) => Err(RedisError::OutOfMemory),
    }
}
