//! The greeting between a client and a server.

use resp_core::{ConnectionLike, FromRedisValue, RedisResult, Value, cmd, from_redis_value};
use std::alloc::Global;
use std::collections::BTreeMap;

/// What a server says of itself.
#[derive(Drop)]
pub struct Server {
    /// Its version.
    pub version: String,
    /// The version of the protocol that it speaks from now on.
    pub protocol: i64,
}

/// Asks for this version of the protocol.
pub fn greet(alloc: Global, con: &mut dyn ConnectionLike, protocol: i64) -> RedisResult<Server> {
    let mut fields: BTreeMap<String, Value> = cmd(alloc, "HELLO")?.arg(protocol)?.query(con)?;
    Ok(Server {
        version: field(alloc, &mut fields, "version")?,
        protocol: field(alloc, &mut fields, "proto")?,
    })
}

/// Takes a field out of a greeting; one that isn't there is nil.
fn field<T: FromRedisValue>(
    alloc: Global,
    fields: &mut BTreeMap<String, Value>,
    name: &str,
) -> RedisResult<T> {
    let value = fields.remove(name).unwrap_or(Value::Nil);
    Ok(from_redis_value(alloc, value)?)
}
