//! Links over ends of any type, which a function is given or lent.
//!
//! The work is generic in the connection and calls it through the bound: a `&mut dyn ConnectionLike`,
//! which `query` takes, is made of a link whose ends have named types alone.

use resp_core::{ByteLink, ConnectionLike, RedisResult, cmd, from_redis_value};
use std::alloc::Global;
use std::io::{Read, Write};

/// Counts a visit of a page.
pub fn visit<C: ConnectionLike>(alloc: Global, con: &mut C, page: &str) -> RedisResult<i64> {
    let mut command = cmd(alloc, "HINCRBY")?;
    command.push_arg((page, "visits", 1))?;
    let reply = con.req_command(&command)?.extract_error()?;
    Ok(from_redis_value(alloc, reply)?)
}

/// Counts a visit over a reader and a writer that it owns.
pub fn visit_over<R: Read + Drop, W: Write + Drop>(
    alloc: Global,
    reader: R,
    writer: W,
    page: &str,
) -> RedisResult<i64> {
    let mut link = ByteLink::new(alloc, reader, writer);
    visit(alloc, &mut link, page)
}

/// Counts a visit over a reader and a writer that it is lent. What was received after the reply
/// goes with the link.
pub fn visit_between<R: Read, W: Write>(
    alloc: Global,
    reader: &mut R,
    writer: &mut W,
    page: &str,
) -> RedisResult<i64> {
    visit_over(alloc, reader, writer, page)
}
