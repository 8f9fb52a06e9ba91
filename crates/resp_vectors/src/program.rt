//! The program `resp` over memory.

use crate::queries::link_over;
use crate::rows::{Row, text_of};
use crate::texts::quoted;
use resp_cli::{Task, pack, print_usage, query, read, task_of};
use resp_core::RedisResult;
use std::alloc::Global;

/// What the program wrote, and its exit status.
#[derive(Drop)]
struct Written {
    status: u8,
    out: Vec<u8>,
    err: Vec<u8>,
}

/// `resp WORD.. < BYTES`
pub fn resp(alloc: Global, row: &Row) -> RedisResult<String> {
    let (question, input) = row.question()?;
    let mut words = Vec::new(alloc);
    for word in question {
        words.push(String::from_str(alloc, text_of(word.as_slice())?)?)?;
    }
    let ran = run(alloc, words.as_slice(), input)?;
    let out = quoted(alloc, ran.out.as_slice())?;
    let err = quoted(alloc, ran.err.as_slice())?;
    Ok(format!(in alloc; "{} {out} {err}", ran.status)?)
}

fn run(alloc: Global, words: &[String], mut input: &[u8]) -> RedisResult<Written> {
    let mut out: Vec<u8> = Vec::new(alloc);
    let mut err: Vec<u8> = Vec::new(alloc);
    let status = match task_of(words) {
        Task::Pack(words) => pack(alloc, words, &mut out, &mut err),
        Task::Read => read(alloc, &mut input, &mut out, &mut err),
        Task::Query(words) => return run_query(alloc, words, input),
        Task::Usage => print_usage(&mut err),
    };
    Ok(Written { status, out, err })
}

fn run_query(alloc: Global, words: &[String], input: &[u8]) -> RedisResult<Written> {
    let mut err: Vec<u8> = Vec::new(alloc);
    let mut link = link_over(alloc, input)?;
    let status = query(alloc, words, &mut link, &mut err);
    let (_source, sink) = link.into_ends();
    Ok(Written {
        status,
        out: sink.into_inner(),
        err,
    })
}
