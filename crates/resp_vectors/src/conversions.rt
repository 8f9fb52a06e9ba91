//! Conversions of replies.

use crate::replies::agreed;
use crate::rows::{Row, malformed, text_of};
use crate::texts::{add_part, debug_text};
use crate::types::{AtType, at_item_type, at_type};
use resp_core::{
    FromRedisValue, ParsingError, RedisError, RedisResult, from_redis_value, from_redis_value_ref,
    parse_redis_value,
};
use std::alloc::Global;
use std::fmt::Debug;

/// A conversion of a reply, by reference and by move.
#[derive(Drop)]
struct OfReply<'a> {
    alloc: Global,
    bytes: &'a [u8],
}

/// A conversion of the items of a reply, each by itself.
#[derive(Drop)]
struct OfItems<'a> {
    alloc: Global,
    bytes: &'a [u8],
}

/// A conversion of the bytes of a bulk string, by reference and by move.
#[derive(Drop)]
struct OfBulk<'a> {
    alloc: Global,
    bytes: &'a [u8],
}

/// The type and the bytes of a row.
fn type_and_bytes(row: &Row) -> RedisResult<(&str, &[u8])> {
    match row.words() {
        [name, bytes] => Ok((text_of(name.as_slice())?, bytes.as_slice())),
        _ => Err(malformed()),
    }
}

/// `convert TYPE BYTES`
pub fn convert(alloc: Global, row: &Row) -> RedisResult<String> {
    let (name, bytes) = type_and_bytes(row)?;
    at_type(name, &OfReply { alloc, bytes })
}

/// `each TYPE BYTES`
pub fn each(alloc: Global, row: &Row) -> RedisResult<String> {
    let (name, bytes) = type_and_bytes(row)?;
    at_item_type(name, &OfItems { alloc, bytes })
}

/// `bytes TYPE BYTES`
pub fn bytes(alloc: Global, row: &Row) -> RedisResult<String> {
    let (name, bytes) = type_and_bytes(row)?;
    at_item_type(name, &OfBulk { alloc, bytes })
}

/// The Debug text of a value, or that its conversion was refused. Fails where memory ran out.
fn conversion_text<T: Debug + Drop>(
    alloc: Global,
    answer: Result<T, ParsingError>,
) -> RedisResult<String> {
    match answer {
        Ok(value) => debug_text(alloc, &value),
        Err(error) => {
            if error.is_out_of_memory() {
                return Err(RedisError::from(error));
            }
            Ok(String::from_str(alloc, "refused")?)
        }
    }
}

impl<'a> AtType for OfReply<'a> {
    fn at<T: FromRedisValue + Debug>(&self) -> RedisResult<String> {
        let alloc = self.alloc;
        let reply = parse_redis_value(alloc, self.bytes)?;
        let borrowed = conversion_text(alloc, from_redis_value_ref::<T>(alloc, &reply))?;
        let moved = conversion_text(alloc, from_redis_value::<T>(alloc, reply))?;
        agreed(alloc, borrowed, moved, "by move")
    }
}

impl<'a> AtType for OfItems<'a> {
    fn at<T: FromRedisValue + Debug>(&self) -> RedisResult<String> {
        let alloc = self.alloc;
        let items = parse_redis_value(alloc, self.bytes)?
            .into_sequence(alloc)
            .map_err(|_| malformed())?;
        let mut text = String::new(alloc);
        for answer in T::from_each_redis_values(alloc, items)? {
            add_part(&mut text, conversion_text(alloc, answer)?.as_str())?;
        }
        Ok(text)
    }
}

impl<'a> AtType for OfBulk<'a> {
    fn at<T: FromRedisValue + Debug>(&self) -> RedisResult<String> {
        let alloc = self.alloc;
        let owned = Vec::from_slice(alloc, self.bytes)?;
        let moved = conversion_text(alloc, T::from_byte_vec(alloc, owned))?;
        let borrowed = match T::from_byte_slice(alloc, self.bytes)? {
            Some(values) => debug_text(alloc, &values)?,
            None => String::from_str(alloc, "refused")?,
        };
        agreed(alloc, borrowed, moved, "by move")
    }
}
