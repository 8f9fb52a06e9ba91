//! What comes back. The alias stands in a file of its own, so that no file with a clause names
//! [`Value`].

use resp_core::{ConnectionLike, ProtocolVersion, RedisResult, ServerError, Text, Value};
use resp_encode::encode;
use std::alloc::Global;

/// A reply, or why there is none.
pub type Reply = RedisResult<Value>;

/// Whether a server refused a command with it.
pub fn is_error(reply: &Value) -> bool {
    matches!(reply, Value::ServerError(_))
}

/// What a client is sent for a command that isn't passed on.
pub fn refusal(alloc: Global, words: &[Vec<u8>]) -> RedisResult<Value> {
    let mut line = Vec::from_slice(alloc, b"ERR this proxy doesn't pass on '")?;
    if let Some(name) = words.first() {
        line.extend_from_slice(name.as_slice())?;
    }
    line.push(b'\'')?;
    for byte in line.as_mut_slice() {
        if !byte.is_ascii_graphic() {
            *byte = b' ';
        }
    }
    let text = Text::from_utf8_lossy(alloc, line.as_slice())?;
    Ok(Value::ServerError(ServerError::from_text(alloc, text.as_str())?))
}

/// What is sent after `SUBSCRIBE`: the pushes that answer it come before this one's reply.
pub const PING: &[u8] = b"*1\r\n$4\r\nPING\r\n";

/// Appends the reply to `SUBSCRIBE` where it is an error; else only pushes answer it.
pub fn end_subscribing(
    upstream: &mut dyn ConnectionLike,
    protocol: ProtocolVersion,
    reply: &Value,
    replies: &mut Vec<u8>,
) -> RedisResult<()> {
    if !is_error(reply) {
        return Ok(());
    }
    // it answers the command, and so PING is still to be answered: with one more, two replies
    upstream.req_packed_commands(PING, 0, 2)?;
    encode(reply, protocol, replies)
}
