//! A link for tests of code that takes a `&mut dyn ConnectionLike`: it is answered stored replies.

use crate::replies::counted::MemoryLink;
use resp_core::{ByteLink, ConnectionLike, ProtocolVersion, RedisResult, Value, cmd};
use resp_encode::encode;
use std::alloc::Global;
use std::io::Cursor;

/// A link in memory over which these replies come in, and then the end, as from a server that
/// closes the connection.
///
/// Fails where a reply has no bytes, as an error with CR LF in it, and with `OutOfMemory`.
pub fn stored(alloc: Global, replies: &[Value]) -> RedisResult<MemoryLink> {
    let mut bytes = Vec::new(alloc);
    for reply in replies {
        encode(reply, ProtocolVersion::RESP3, &mut bytes)?;
    }
    Ok(ByteLink::new(alloc, Cursor::new(bytes), Vec::new(alloc)))
}

/// A page of a scan, as a reply in a line: the next cursor, and the keys.
pub fn page(alloc: Global, cursor: &str, keys: Vec<Value>) -> RedisResult<Value> {
    let page = vec![in alloc; Value::bulk_string(alloc, cursor)?, Value::from(keys)]?;
    Ok(Value::from(page))
}

/// Code under test: it takes any connection.
pub fn visits(alloc: Global, con: &mut dyn ConnectionLike, page: &str) -> RedisResult<i64> {
    cmd(alloc, "HINCRBY")?.arg((page, "visits", 1))?.query(con)
}
