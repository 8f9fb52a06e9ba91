//! Values that are written as a server sends them, and read again.

use crate::rows::{Row, malformed};
use crate::texts::{add_part, debug_text, quoted};
use resp_core::{
    ErrorKind, FlatReply, Parser, ProtocolVersion, RedisError, RedisResult, Value,
    parse_redis_value,
};
use resp_encode::{as_resp2, encode, encode_reply};
use std::alloc::Global;

/// `encode BYTES`
pub fn encode_both(alloc: Global, row: &Row) -> RedisResult<String> {
    match row.words() {
        [bytes] => both_encoded(alloc, &parse_redis_value(alloc, bytes.as_slice())?),
        _ => Err(malformed()),
    }
}

/// The bytes of a value in each version, or what it shows where it isn't the same, read again.
fn both_encoded(alloc: Global, value: &Value) -> RedisResult<String> {
    if let Some(other) = written_otherwise(alloc, value)? {
        return Ok(other);
    }
    let mut text = encoded(alloc, value, ProtocolVersion::RESP3)?;
    let other = encoded(alloc, value, ProtocolVersion::RESP2)?;
    add_part(&mut text, other.as_str())?;
    Ok(text)
}

/// The bytes of a value, in quotes.
fn encoded(alloc: Global, value: &Value, protocol: ProtocolVersion) -> RedisResult<String> {
    quoted(alloc, bytes_of(alloc, value, protocol)?.as_slice())
}

/// The bytes of a value; refused where its flat reply is sent otherwise.
fn bytes_of(alloc: Global, value: &Value, protocol: ProtocolVersion) -> RedisResult<Vec<u8>> {
    let flat = bytes_of_flat(alloc, value, protocol).ok();
    if_same(bytes_of_tree(alloc, value, protocol), &flat)
}

fn bytes_of_tree(alloc: Global, value: &Value, protocol: ProtocolVersion) -> RedisResult<Vec<u8>> {
    let mut out = Vec::new(alloc);
    encode(value, protocol, &mut out)?;
    Ok(out)
}

fn bytes_of_flat(alloc: Global, value: &Value, protocol: ProtocolVersion) -> RedisResult<Vec<u8>> {
    let mut flat = FlatReply::new(alloc);
    flat.append(value)?;
    let mut out = Vec::new(alloc);
    encode_reply(&flat, protocol, &mut out)?;
    Ok(out)
}

/// The bytes of a value, or its refusal, if its flat reply has the same or is refused, too.
fn if_same(tree: RedisResult<Vec<u8>>, flat: &Option<Vec<u8>>) -> RedisResult<Vec<u8>> {
    if are_same(&tree, flat) {
        return tree;
    }
    Err(RedisError::from((
        ErrorKind::UnexpectedReturnType,
        "the flat reply is sent otherwise",
    )))
}

fn are_same(tree: &RedisResult<Vec<u8>>, flat: &Option<Vec<u8>>) -> bool {
    match (tree, flat) {
        (Ok(bytes), Some(others)) => bytes.as_slice() == others.as_slice(),
        (Err(_), None) => true,
        _ => false,
    }
}

/// What the values show that the bytes begin with, where each is the same when it is written and
/// read again: in RESP3 as itself, and in RESP2 as its form.
pub fn values_written_again(alloc: Global, bytes: &[u8]) -> RedisResult<Option<String>> {
    let mut parser = Parser::new(alloc);
    parser.feed(bytes)?;
    for _ in 0..u64::MAX {
        match parser.take_value() {
            Ok(Some(value)) => {
                if let Some(other) = taken_otherwise(alloc, value)? {
                    return Ok(Some(other));
                }
            }
            _ => break,
        }
    }
    Ok(None)
}

/// What a value that was taken shows where it isn't the same, written and read again.
fn taken_otherwise(alloc: Global, value: Value) -> RedisResult<Option<String>> {
    written_otherwise(alloc, &value)
}

/// What a value shows where it isn't the same, written and read again.
fn written_otherwise(alloc: Global, value: &Value) -> RedisResult<Option<String>> {
    let again = read_again(alloc, value, ProtocolVersion::RESP3)?;
    if again.as_str() != debug_text(alloc, value)?.as_str() {
        return Ok(Some(again));
    }
    match read_again(alloc, value, ProtocolVersion::RESP2) {
        Ok(again) => other_than_form(alloc, value, again),
        // an error with CR LF in it, or a push without a name at the last level
        Err(error) if error.kind() == ErrorKind::Client => Ok(None),
        Err(error) => Err(error),
    }
}

/// The text, where it isn't what the value's form shows.
fn other_than_form(alloc: Global, value: &Value, again: String) -> RedisResult<Option<String>> {
    if is_form(alloc, value, again.as_str())? {
        return Ok(None);
    }
    Ok(Some(again))
}

/// Whether the text is what the value's form shows.
fn is_form(alloc: Global, value: &Value, text: &str) -> RedisResult<bool> {
    let form = as_resp2(alloc, value)?;
    Ok(debug_text(alloc, &form)?.as_str() == text)
}

/// What a value shows that was written and is read again.
fn read_again(alloc: Global, value: &Value, protocol: ProtocolVersion) -> RedisResult<String> {
    let bytes = bytes_of(alloc, value, protocol)?;
    debug_text(alloc, &parse_redis_value(alloc, bytes.as_slice())?)
}
