//! Queries over a link in memory: what they answer, what was sent, and what the link is then.

use crate::commands::{command_of, has_flag, is_comma, pipeline_of, split_flags};
use crate::rows::{Row, malformed, text_of};
use crate::texts::{add_part, answer_text, quoted};
use crate::types::{AtType, at_answer_type};
use resp_core::{
    ByteLink, ConnectionLike, FromRedisValue, PushInfo, Reading, RedisError, RedisResult, Value,
    Writing, cmd,
};
use std::alloc::Global;
use std::fmt::Debug;
use std::io::Cursor;

/// A link over bytes in memory.
pub type MemoryLink = ByteLink<Reading<Cursor<Vec<u8>>>, Writing<Vec<u8>>>;

/// A link on which these bytes come in.
pub fn link_over(alloc: Global, incoming: &[u8]) -> RedisResult<MemoryLink> {
    let bytes = Vec::from_slice(alloc, incoming)?;
    Ok(ByteLink::new(alloc, Cursor::new(bytes), Vec::new(alloc)))
}

/// A query of a command or a pipeline.
#[derive(Drop)]
struct Asked<'a> {
    alloc: Global,
    flags: &'a [Vec<u8>],
    words: &'a [Vec<u8>],
    incoming: &'a [u8],
}

/// `query TYPE [FLAG..] COMMANDS < BYTES`
pub fn query(alloc: Global, row: &Row) -> RedisResult<String> {
    let (question, incoming) = row.question()?;
    let Some((name, words)) = question.split_first() else {
        return Err(malformed());
    };
    let (flags, words) = split_flags(words);
    at_answer_type(
        text_of(name.as_slice())?,
        &Asked {
            alloc,
            flags,
            words,
            incoming,
        },
    )
}

impl<'a> AtType for Asked<'a> {
    fn at<T: FromRedisValue + Debug>(&self) -> RedisResult<String> {
        let mut link = link_over(self.alloc, self.incoming)?;
        let answer = answer_of::<T>(self, &mut link)?;
        with_link(self.alloc, answer, link)
    }
}

/// What the query answers.
fn answer_of<T: FromRedisValue + Debug>(
    query: &Asked<'_>,
    con: &mut dyn ConnectionLike,
) -> RedisResult<String> {
    let no_response = has_flag(query.flags, "--no-response");
    let is_single = query.flags.is_empty() || no_response;
    if is_single && !query.words.iter().any(is_comma) {
        let mut command = command_of(query.alloc, query.words)?;
        let _ = command.set_no_response(no_response);
        return answer_text(query.alloc, command.query::<T>(con));
    }
    let pipeline = pipeline_of(query.alloc, query.flags, query.words)?;
    answer_text(query.alloc, pipeline.query::<T>(con))
}

/// A request after a query, to see what is left.
const PING: &[u8] = b"*1\r\n$4\r\nPING\r\n";

/// What later requests are answered.
#[derive(Drop)]
struct Later {
    text: String,
    requests: usize,
}

/// The answer, and then what was sent, which pushes were set aside, and whether the link is broken
/// or what later requests are answered.
pub fn with_link(alloc: Global, answer: String, mut link: MemoryLink) -> RedisResult<String> {
    let pushes = pushes_text(alloc, link.take_pushes())?;
    let broken = link.is_broken();
    let later = later_replies(alloc, &mut link)?;
    let sent = sent_text(alloc, link, later.requests)?;
    let mut text = format!(in alloc; "{answer} | sent {sent}{pushes}")?;
    if broken {
        text.push_str(" | broken")?;
    } else if !later.text.is_empty() {
        write!(text, " | then {}", later.text)?;
    }
    Ok(text)
}

/// The pushes that were set aside, if there are any.
fn pushes_text(alloc: Global, pushes: Vec<PushInfo>) -> RedisResult<String> {
    if pushes.is_empty() {
        return Ok(String::new(alloc));
    }
    Ok(format!(in alloc; " | pushes {pushes:?}")?)
}

/// What was sent before so many later requests, in quotes.
fn sent_text(alloc: Global, link: MemoryLink, later: usize) -> RedisResult<String> {
    let (_source, sink) = link.into_ends();
    let mut sent = sink.into_inner();
    sent.truncate(sent.len().saturating_sub(later.saturating_mul(PING.len())));
    quoted(alloc, sent.as_slice())
}

/// What requests are answered until the link breaks.
fn later_replies(alloc: Global, link: &mut MemoryLink) -> RedisResult<Later> {
    let mut later = Later {
        text: String::new(alloc),
        requests: 0,
    };
    for _ in 0..100 {
        if link.is_broken() {
            break;
        }
        later.requests = later.requests.saturating_add(1);
        let answer = cmd(alloc, "PING")?.query::<Value>(link);
        later.add(alloc, answer)?;
    }
    Ok(later)
}

impl Later {
    /// Adds what a request is answered, unless the bytes have ended.
    fn add(&mut self, alloc: Global, answer: RedisResult<Value>) -> RedisResult<()> {
        if matches!(&answer, Err(RedisError::Io(_))) {
            return Ok(());
        }
        add_part(&mut self.text, answer_text(alloc, answer)?.as_str())
    }
}
