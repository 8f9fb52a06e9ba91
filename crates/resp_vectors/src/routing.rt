//! Slots, keys of commands, and where commands go.

use crate::rows::{Row, malformed};
use crate::texts::{add_part, quoted, refusal_text};
use resp_core::RedisResult;
use resp_routing::{
    RequestPolicy, Route, RoutingError, crc16, get_slot, is_readonly_cmd, keys_of, route_of,
};
use std::alloc::Global;

/// `checksum BYTES`
pub fn checksum(alloc: Global, row: &Row) -> RedisResult<String> {
    match row.words() {
        [bytes] => Ok(format!(in alloc; "{:04x}", crc16(bytes.as_slice()))?),
        _ => Err(malformed()),
    }
}

/// `slot KEY`
pub fn slot(alloc: Global, row: &Row) -> RedisResult<String> {
    match row.words() {
        [key] => Ok(format!(in alloc; "{}", get_slot(key.as_slice()))?),
        _ => Err(malformed()),
    }
}

/// `keys WORD..`
pub fn keys(alloc: Global, row: &Row) -> RedisResult<String> {
    let args = args_of(alloc, row)?;
    match keys_of(alloc, args.as_slice()) {
        Ok(positions) => shown(alloc, args.as_slice(), positions.as_slice()),
        Err(error) => refused(alloc, error),
    }
}

/// The arguments at these positions, in quotes.
fn shown(alloc: Global, args: &[&[u8]], positions: &[usize]) -> RedisResult<String> {
    let mut text = String::new(alloc);
    for position in positions {
        if let Some(key) = args.get(*position) {
            add_part(&mut text, quoted(alloc, key)?.as_str())?;
        }
    }
    if text.is_empty() {
        text.push_str("none")?;
    }
    Ok(text)
}

/// `route WORD..`
pub fn route(alloc: Global, row: &Row) -> RedisResult<String> {
    let args = args_of(alloc, row)?;
    let access = if is_readonly_cmd(args.as_slice()) {
        "reads"
    } else {
        "may write"
    };
    match route_of(alloc, args.as_slice()) {
        Ok(Route::Slot(slot)) => Ok(format!(in alloc; "slot {slot} {access}")?),
        Ok(Route::Keyless(policy)) => Ok(format!(in alloc; "{} {access}", place_name(policy))?),
        Err(error) => refused(alloc, error),
    }
}

fn place_name(policy: Option<RequestPolicy>) -> &'static str {
    match policy {
        Some(RequestPolicy::AllNodes) => "all_nodes",
        Some(RequestPolicy::AllShards) => "all_shards",
        Some(RequestPolicy::MultiShard) => "multi_shard",
        Some(RequestPolicy::Special) => "special",
        None => "any",
    }
}

/// A refusal, as the server tells it.
fn refused(alloc: Global, error: RoutingError) -> RedisResult<String> {
    let text = match error {
        RoutingError::UnknownCommand => "unknown command",
        RoutingError::WrongArity => "number of arguments",
        RoutingError::MissingKeyword | RoutingError::BadKeyCount | RoutingError::TooFewArguments =>
            "arguments",
        RoutingError::Unspecified => "unspecified",
        RoutingError::CrossSlot => "several slots",
        RoutingError::OutOfMemory => return Err(resp_core::RedisError::OutOfMemory),
    };
    Ok(format!(in alloc; "refused: {text}")?)
}

/// `route-error WORD..`
pub fn route_error(alloc: Global, row: &Row) -> RedisResult<String> {
    let args = args_of(alloc, row)?;
    match route_of(alloc, args.as_slice()) {
        Ok(_) => Err(malformed()),
        Err(error) => refusal_text(alloc, error.to_redis_error(alloc)?),
    }
}

/// The words as the arguments of a command.
fn args_of(alloc: Global, row: &Row) -> RedisResult<Vec<&[u8]>> {
    let mut args = Vec::new(alloc);
    for word in row.words() {
        args.push(word.as_slice())?;
    }
    Ok(args)
}
