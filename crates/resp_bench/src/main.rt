//! `resp_bench`: how fast replies are parsed, commands packed, values encoded and queries answered.
//!
//! `resp_bench parse FILE PIECE ROUNDS` feeds the bytes of a file to a parser, PIECE bytes at a
//! time (0: 16,384), takes each value and drops it; `resp_bench flat FILE PIECE ROUNDS` takes each
//! into the same flat reply.
//!
//! `resp_bench pack WHAT COUNT ROUNDS` packs COUNT times: `set`, a command of three short arguments,
//! built and packed; `set-only`, the same, packed alone into a buffer at hand; `big`, one of an
//! argument of 1 MiB, built and packed; `big-only`, the same, packed alone; `pipe`, a pipeline of
//! 1,000 of the first.
//!
//! `resp_bench encode WHAT COUNT ROUNDS` encodes a value COUNT times, each into a new buffer:
//! `set`, the array of three bulk strings that is spelled as the command `set` is packed; `reply`,
//! an array of 100 bulk strings of 20 bytes. `set-kept` and `reply-kept` encode them into one
//! buffer, which is cleared each time.
//!
//! `resp_bench query WHAT COUNT ROUNDS` asks COUNT times over a connection in memory that holds the
//! replies, and converts each answer: `incr` to an integer, `get` to a text, `routed` the same over
//! the links of a cluster of three primaries, `spread` of a hundred, `lrange` (100 elements)
//! to texts, `mget` (100) to integers, `hgetall` (50 pairs) to a sorted map and `hashed` to a hashed
//! one, `zrange` (50 pairs) to pairs of a text and an integer, and `pipe`, a pipeline of 100 GET, to
//! texts.
//!
//! `resp_bench hold FILE PIECE LIMIT` feeds a file to a parser of values of at most LIMIT bytes and
//! 1,000 levels, until it refuses, and prints why: what memory that takes shows from outside.
//!
//! Each of the others does one round untimed and then ROUNDS timed ones, and prints how many
//! replies, commands, values or queries a round has, how many bytes those are, and the nanoseconds
//! of CPU time of the best timed round, 0 if there is none. The exit status is 1 for wrong words,
//! and 2 where the file can't be read or a call is refused.
#![tactic(auto)]

mod encoding;
mod packing;
mod parsing;
mod querying;
mod routing;

use encoding::{Encoding, encode_round};
use packing::{Load, Packing, pack_round};
use parsing::{Form, parse_round};
use querying::{Query, query_round};
use resp_core::{Limits, RedisError, RedisResult};
use std::alloc::Global;
use std::process::ExitCode;
use std::time::CpuClock;
use std::{env, fs, io};

/// What one round did.
#[derive(Clone, Copy, Debug)]
pub struct Round {
    /// Replies, commands, values or queries.
    pub units: u64,
    /// The bytes that spell them.
    pub bytes: u64,
}

fn main(rt: HostRuntime) -> ExitCode {
    ExitCode::from(run(&rt))
}

fn run(rt: &HostRuntime) -> u8 {
    let Ok(words) = words(rt) else {
        return 1;
    };
    match words.as_slice() {
        [task, what, size, rounds] => {
            let (Ok(size), Ok(rounds)) = (size.parse::<usize>(), rounds.parse::<u64>()) else {
                return 1;
            };
            match task.as_str() {
                "parse" => parse(rt, Form::Tree, what.as_str(), size, rounds),
                "flat" => parse(rt, Form::Flat, what.as_str(), size, rounds),
                "hold" => hold(rt, what.as_str(), size, rounds as usize),
                "pack" => pack(rt, what.as_str(), size, rounds),
                "encode" => encode(rt, what.as_str(), size, rounds),
                "query" => query(rt, what.as_str(), size, rounds),
                _ => 1,
            }
        }
        _ => 1,
    }
}

/// The words after the program's name.
fn words(rt: &HostRuntime) -> io::Result<Vec<String>> {
    let mut words = Vec::new(rt.alloc());
    for word in env::args(rt)?.skip(1) {
        words.push(word)?;
    }
    Ok(words)
}

/// What a round does.
#[derive(Clone, Copy)]
enum Work<'a> {
    Parse {
        form: Form,
        bytes: &'a [u8],
        piece: usize,
    },
    Pack {
        packing: Packing,
        load: &'a Load,
        count: usize,
    },
    Encode {
        encoding: &'a Encoding,
        count: usize,
    },
    Query {
        query: Query,
        replies: &'a [u8],
        count: usize,
    },
}

impl Work<'_> {
    fn round(&self, alloc: Global) -> RedisResult<Round> {
        match self {
            Work::Parse { form, bytes, piece } => {
                parse_round(alloc, Limits::default(), *form, bytes, *piece)
            }
            Work::Pack {
                packing,
                load,
                count,
            } => pack_round(alloc, *packing, load, *count),
            Work::Encode { encoding, count } => encode_round(alloc, encoding, *count),
            Work::Query {
                query,
                replies,
                count,
            } => query_round(alloc, *query, replies, *count),
        }
    }
}

/// Does one round untimed and then the timed ones, and prints what a round did and the best time.
fn time(rt: &HostRuntime, work: &Work<'_>, rounds: u64) -> u8 {
    let Ok(round) = work.round(rt.alloc()) else {
        return 2;
    };
    let mut best = None;
    for _ in 0..rounds {
        let start = now(rt);
        let Ok(_) = work.round(rt.alloc()) else {
            return 2;
        };
        best = quicker(best, now(rt).saturating_sub(start));
    }
    print(rt, round, best)
}

fn parse(rt: &HostRuntime, form: Form, file: &str, piece: usize, rounds: u64) -> u8 {
    match fs::read(rt, file) {
        Ok(bytes) => {
            let bytes = bytes.as_slice();
            time(rt, &Work::Parse { form, bytes, piece }, rounds)
        }
        Err(_) => 2,
    }
}

fn hold(rt: &HostRuntime, file: &str, piece: usize, limit: usize) -> u8 {
    let Ok(bytes) = fs::read(rt, file) else {
        return 2;
    };
    let limits = Limits {
        depth: 1000,
        bytes: limit,
        ..Limits::default()
    };
    match parse_round(rt.alloc(), limits, Form::Tree, bytes.as_slice(), piece) {
        Ok(_) => say(rt, "none"),
        Err(error) => say_why(rt, &error),
    }
}

/// Prints the fault that a refusal names.
fn say_why(rt: &HostRuntime, error: &RedisError) -> u8 {
    match error.frame_fault() {
        Some(fault) => say(rt, fault.text()),
        None => say(rt, "no fault"),
    }
}

fn say(rt: &HostRuntime, text: &str) -> u8 {
    match println!(rt; "{text}") {
        Ok(()) => 0,
        Err(_) => 2,
    }
}

fn pack(rt: &HostRuntime, what: &str, count: usize, rounds: u64) -> u8 {
    let Some(packing) = Packing::named(what) else {
        return 1;
    };
    match packing.load(rt.alloc()) {
        Ok(load) => {
            let work = Work::Pack {
                packing,
                load: &load,
                count,
            };
            time(rt, &work, rounds)
        }
        Err(_) => 2,
    }
}

fn encode(rt: &HostRuntime, what: &str, count: usize, rounds: u64) -> u8 {
    match Encoding::named(rt.alloc(), what) {
        Ok(Some(encoding)) => {
            let work = Work::Encode {
                encoding: &encoding,
                count,
            };
            time(rt, &work, rounds)
        }
        Ok(None) => 1,
        Err(_) => 2,
    }
}

fn query(rt: &HostRuntime, what: &str, count: usize, rounds: u64) -> u8 {
    let Some(query) = Query::named(what) else {
        return 1;
    };
    match query.replies(rt.alloc(), count) {
        Ok(replies) => {
            let replies = replies.as_slice();
            let work = Work::Query {
                query,
                replies,
                count,
            };
            time(rt, &work, rounds)
        }
        Err(_) => 2,
    }
}

/// The less of two times, of which the first may be missing.
fn quicker(best: Option<u64>, time: u64) -> Option<u64> {
    match best {
        Some(best) => Some(best.min(time)),
        None => Some(time),
    }
}

/// The CPU time of this process in nanoseconds; 0 where it isn't known.
fn now(rt: &HostRuntime) -> u64 {
    match rt.process_cpu_time() {
        Ok(time) => time
            .as_secs()
            .saturating_mul(1_000_000_000)
            .saturating_add(time.subsec_nanos() as u64),
        Err(_) => 0,
    }
}

fn print(rt: &HostRuntime, round: Round, best: Option<u64>) -> u8 {
    let Round { units, bytes } = round;
    let best = best.unwrap_or(0);
    match println!(rt; "{units} {bytes} {best}") {
        Ok(()) => 0,
        Err(_) => 2,
    }
}
