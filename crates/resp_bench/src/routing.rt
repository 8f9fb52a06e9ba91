//! Primaries whose links are in memory.

use resp_cluster::{ClusterLink, NodeAddr, Nodes, SlotMap};
use resp_core::{
    ByteLink, ErrorKind, Reading, RedisError, RedisResult, Writing, parse_redis_value,
};
use std::alloc::Global;
use std::fmt::Write;
use std::io::{self, Cursor};
use std::mem::swap;

/// The slot of the query's key.
const SLOT: u16 = 13459;

/// A link over bytes in memory.
pub type MemoryLink = ByteLink<Reading<Cursor<Vec<u8>>>, Writing<io::Sink>>;

/// Nodes of which the one that is asked has the replies.
#[derive(Drop)]
pub struct Answering {
    asked: Option<NodeAddr>,
    replies: Vec<u8>,
}

impl Nodes for Answering {
    type Link = MemoryLink;

    fn connect(&mut self, node: &NodeAddr) -> RedisResult<MemoryLink> {
        let alloc = *self.replies.allocator();
        let mut replies = Vec::new(alloc);
        if self.asked.as_ref() == Some(node) {
            swap(&mut replies, &mut self.replies);
        }
        Ok(ByteLink::new(alloc, Cursor::new(replies), io::sink()))
    }
}

/// A cluster of so many primaries, with a link to each.
pub fn primaries_linked(
    alloc: Global,
    replies: &[u8],
    count: u64,
) -> RedisResult<ClusterLink<Answering>> {
    let map = map_of(alloc, count)?;
    let primaries = map.primaries(alloc)?;
    let asked = match map.primary_at(SLOT) {
        Some(node) => Some(node.try_clone(alloc)?),
        None => None,
    };
    let nodes = Answering {
        asked,
        replies: Vec::from_slice(alloc, replies)?,
    };
    let mut cluster = ClusterLink::new(alloc, nodes, map, 5);
    for node in primaries.as_slice() {
        cluster.reach(node)?;
    }
    Ok(cluster)
}

fn map_of(alloc: Global, count: u64) -> RedisResult<SlotMap> {
    let reply = parse_redis_value(alloc, slots_reply(alloc, count)?.as_bytes())?;
    match SlotMap::from_slots_reply(alloc, &reply, "") {
        Ok(map) => Ok(map),
        Err(_) => Err(RedisError::from((ErrorKind::Client, "no map"))),
    }
}

/// The reply to `CLUSTER SLOTS` of so many primaries, 100 at most, each on a host of its own, with
/// about as many slots each.
fn slots_reply(alloc: Global, count: u64) -> RedisResult<String> {
    let mut reply = format!(in alloc; "*{count}\r\n")?;
    for number in 0..count {
        let first = number.saturating_mul(16384) / count;
        let last = (number + 1).saturating_mul(16384) / count;
        let last = last.saturating_sub(1);
        let host = number.saturating_add(100);
        write!(
            reply,
            "*3\r\n:{first}\r\n:{last}\r\n*2\r\n$10\r\n10.0.0.{host}\r\n:6379\r\n"
        )?;
    }
    Ok(reply)
}
