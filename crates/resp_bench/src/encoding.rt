//! Rounds of encoding.

use crate::Round;
use crate::packing::set_command;
use resp_core::{Cmd, ProtocolVersion, RedisResult, Value, cmd, parse_redis_value};
use resp_encode::encode;
use std::alloc::Global;

/// How many bulk strings the reply has.
const ITEMS: usize = 100;

const ITEM: &str = "item-of-twenty-bytes";

/// What is encoded, and where to.
#[derive(Drop)]
pub struct Encoding {
    value: Value,
    is_kept: bool,
}

impl Encoding {
    /// What the word names, if it names one.
    pub fn named(alloc: Global, word: &str) -> RedisResult<Option<Encoding>> {
        let (command, is_kept) = match word {
            "set" => (set_command(alloc)?, false),
            "set-kept" => (set_command(alloc)?, true),
            "reply" => (items_command(alloc)?, false),
            "reply-kept" => (items_command(alloc)?, true),
            _ => return Ok(None),
        };
        let bytes = command.get_packed_command()?;
        let value = parse_redis_value(alloc, bytes.as_slice())?;
        Ok(Some(Encoding { value, is_kept }))
    }
}

/// Encodes `count` times, into a new buffer each time or into one that is kept, and adds up the
/// bytes.
#[inline(never)]
pub fn encode_round(alloc: Global, encoding: &Encoding, count: usize) -> RedisResult<Round> {
    let mut bytes: u64 = 0;
    let mut buffer = Vec::new(alloc);
    for _ in 0..count {
        if encoding.is_kept {
            buffer.clear();
        } else {
            buffer = Vec::new(alloc);
        }
        encode(&encoding.value, ProtocolVersion::RESP3, &mut buffer)?;
        bytes = bytes.saturating_add(buffer.len() as u64);
    }
    Ok(Round {
        units: count as u64,
        bytes,
    })
}

/// A command whose packed bytes are a reply of as many bulk strings.
fn items_command(alloc: Global) -> RedisResult<Cmd> {
    let mut command = cmd(alloc, ITEM)?;
    for _ in 1..ITEMS {
        command.push_arg(ITEM)?;
    }
    Ok(command)
}
