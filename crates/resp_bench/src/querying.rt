//! Rounds of queries over a connection in memory.

use crate::Round;
use crate::parsing::discard;
use crate::routing::{Answering, primaries_linked};
use resp_cluster::ClusterLink;
use resp_core::{
    ByteLink, Cmd, ConnectionLike, FromRedisValue, Pipeline, RedisResult, cmd, from_redis_value,
    pipe,
};
use std::alloc::Global;
use std::collections::{BTreeMap, HashMap};
use std::io::{self, Cursor};

const KEY: &str = "key:000000001";

const VALUE: &str = "value-of-twenty-byte";

/// The value as a reply.
const FOUND: &[u8] = b"$20\r\nvalue-of-twenty-byte\r\n";

/// How many elements an array has, and commands the pipeline.
const MANY: u64 = 100;

/// What is asked.
#[derive(Clone, Copy)]
pub enum Query {
    Incr,
    Get,
    /// By the links of a cluster with so many primaries.
    Routed(u64),
    Lrange,
    Mget,
    Hgetall,
    Hashed,
    Zrange,
    Pipe,
}

impl Query {
    /// What the word names, if it names one.
    pub fn named(word: &str) -> Option<Query> {
        match word {
            "incr" => Some(Query::Incr),
            "get" => Some(Query::Get),
            "routed" => Some(Query::Routed(3)),
            "spread" => Some(Query::Routed(100)),
            "lrange" => Some(Query::Lrange),
            "mget" => Some(Query::Mget),
            "hgetall" => Some(Query::Hgetall),
            "hashed" => Some(Query::Hashed),
            "zrange" => Some(Query::Zrange),
            "pipe" => Some(Query::Pipe),
            _ => None,
        }
    }

    /// The replies to as many of these queries.
    pub fn replies(self, alloc: Global, count: usize) -> RedisResult<Vec<u8>> {
        let reply = self.reply(alloc)?;
        let mut replies = Vec::new(alloc);
        for _ in 0..count {
            replies.extend_from_slice(reply.as_slice())?;
        }
        Ok(replies)
    }

    /// What one is answered.
    fn reply(self, alloc: Global) -> RedisResult<Vec<u8>> {
        match self {
            Query::Incr => Ok(Vec::from_slice(alloc, b":1234567\r\n")?),
            Query::Get | Query::Routed(_) => Ok(Vec::from_slice(alloc, FOUND)?),
            Query::Pipe => values_found(alloc),
            _ => self.elements(alloc)?.get_packed_command(),
        }
    }

    /// A command whose packed bytes are the array that is answered.
    fn elements(self, alloc: Global) -> RedisResult<Cmd> {
        let mut elements = Cmd::new(alloc);
        for at in 0..MANY {
            match self {
                Query::Mget => elements.push_arg(at + 1000)?,
                Query::Lrange => elements.push_arg(VALUE)?,
                _ if at % 2 == 0 => {
                    elements.push_arg(format!(in alloc; "member:{at:08}")?.as_str())?;
                }
                Query::Zrange => elements.push_arg(at * 17)?,
                _ => elements.push_arg(VALUE)?,
            }
        }
        Ok(elements)
    }

    /// Asks once, and drops the answer.
    fn ask(self, alloc: Global, con: &mut dyn ConnectionLike) -> RedisResult<()> {
        match self {
            Query::Incr => ask_keyed::<i64>(alloc, "INCR", con),
            Query::Get | Query::Routed(_) => ask_keyed::<String>(alloc, "GET", con),
            Query::Lrange => ask_ranged(alloc, con),
            Query::Mget => ask_keyed::<Vec<i64>>(alloc, "MGET", con),
            Query::Hgetall => ask_keyed::<BTreeMap<String, String>>(alloc, "HGETALL", con),
            Query::Hashed => ask_keyed::<HashMap<String, String>>(alloc, "HGETALL", con),
            Query::Zrange => ask_scored(alloc, con),
            Query::Pipe => ask_many(alloc, con),
        }
    }
}

// Each asks in a function of its own: one for all would clear the locals of all at each call, which
// took 250 instructions of a query.

#[inline(never)]
fn ask_keyed<T: FromRedisValue + Drop>(
    alloc: Global,
    name: &str,
    con: &mut dyn ConnectionLike,
) -> RedisResult<()> {
    answer::<T>(&keyed(alloc, name)?, con)
}

#[inline(never)]
fn ask_ranged(alloc: Global, con: &mut dyn ConnectionLike) -> RedisResult<()> {
    answer::<Vec<String>>(&ranged(alloc, "LRANGE")?, con)
}

#[inline(never)]
fn ask_scored(alloc: Global, con: &mut dyn ConnectionLike) -> RedisResult<()> {
    answer::<Vec<(String, i64)>>(&scored(alloc)?, con)
}

#[inline(never)]
fn ask_many(alloc: Global, con: &mut dyn ConnectionLike) -> RedisResult<()> {
    let values: Vec<String> = many(alloc)?.query(con)?;
    discard(values);
    Ok(())
}

/// Asks `count` times over a connection that holds the replies.
#[inline(never)]
pub fn query_round(
    alloc: Global,
    query: Query,
    replies: &[u8],
    count: usize,
) -> RedisResult<Round> {
    match query {
        Query::Routed(primaries) => {
            let mut cluster = primaries_linked(alloc, replies, primaries)?;
            ask_routed_often(alloc, &mut cluster, count)?;
        }
        _ => {
            let incoming = Cursor::new(Vec::from_slice(alloc, replies)?);
            let mut link = ByteLink::new(alloc, incoming, io::sink());
            ask_often(alloc, query, &mut link, count)?;
        }
    }
    Ok(Round {
        units: count as u64,
        bytes: replies.len() as u64,
    })
}

fn ask_often(
    alloc: Global,
    query: Query,
    con: &mut dyn ConnectionLike,
    count: usize,
) -> RedisResult<()> {
    for _ in 0..count {
        query.ask(alloc, con)?;
    }
    Ok(())
}

/// Asks over a cluster's links, by the call that a query makes of them. As a `dyn` connection they
/// would bring their call for packed commands, too, which calls the parser: LLVM inlines that only
/// where it has one caller.
fn ask_routed_often(
    alloc: Global,
    con: &mut ClusterLink<Answering>,
    count: usize,
) -> RedisResult<()> {
    for _ in 0..count {
        ask_routed(alloc, con)?;
    }
    Ok(())
}

#[inline(never)]
fn ask_routed(alloc: Global, con: &mut ClusterLink<Answering>) -> RedisResult<()> {
    answer_routed(alloc, &keyed(alloc, "GET")?, con)
}

/// Asks over a cluster's links, and drops the answer.
#[inline(never)]
fn answer_routed(
    alloc: Global,
    command: &Cmd,
    con: &mut ClusterLink<Answering>,
) -> RedisResult<()> {
    let value = query_routed(alloc, command, con)?;
    discard(value);
    Ok(())
}

/// What [`Cmd::query`] does where the reply holds no error, over a cluster's links.
#[inline(never)]
fn query_routed(
    alloc: Global,
    command: &Cmd,
    con: &mut ClusterLink<Answering>,
) -> RedisResult<String> {
    let reply = match con.req_command(command) {
        Ok(reply) => reply,
        Err(error) => return Err(error),
    };
    match from_redis_value(alloc, reply) {
        Ok(value) => Ok(value),
        Err(error) => Err(error.into()),
    }
}

/// Asks and drops the answer.
#[inline(never)]
fn answer<T: FromRedisValue + Drop>(
    command: &Cmd,
    con: &mut dyn ConnectionLike,
) -> RedisResult<()> {
    let value: T = command.query(con)?;
    discard(value);
    Ok(())
}

fn values_found(alloc: Global) -> RedisResult<Vec<u8>> {
    let mut replies = Vec::new(alloc);
    for _ in 0..MANY {
        replies.extend_from_slice(FOUND)?;
    }
    Ok(replies)
}

fn keyed(alloc: Global, name: &str) -> RedisResult<Cmd> {
    let mut command = cmd(alloc, name)?;
    command.push_arg(KEY)?;
    Ok(command)
}

fn ranged(alloc: Global, name: &str) -> RedisResult<Cmd> {
    let mut command = keyed(alloc, name)?;
    command.push_arg(0)?;
    command.push_arg(-1)?;
    Ok(command)
}

fn scored(alloc: Global) -> RedisResult<Cmd> {
    let mut command = ranged(alloc, "ZRANGE")?;
    command.push_arg("WITHSCORES")?;
    Ok(command)
}

fn many(alloc: Global) -> RedisResult<Pipeline> {
    let mut pipeline = pipe(alloc);
    for _ in 0..MANY {
        pipeline.add_command(keyed(alloc, "GET")?)?;
    }
    Ok(pipeline)
}
