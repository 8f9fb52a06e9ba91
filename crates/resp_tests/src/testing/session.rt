//! A link, and a parser, over devices, asked one call after another: all that shows as one text.

use crate::testing::device::Device;
use crate::testing::memory::{command, pipeline};
use crate::testing::texts::{answer_text, bytes_text, debug_text, refusal_text};
use resp_core::{
    ByteLink, ConnectionLike, FromRedisValue, Limits, Parser, Reading, RedisResult, Value, Writing,
};
use std::alloc::{AllocError, Global};
use std::fmt::Debug;

/// What is asked of a link.
#[derive(Clone, Copy)]
pub enum Call {
    /// `PING`, for an integer.
    Ping,
    /// `PING` whose reply nobody waits for.
    Unanswered,
    /// A command without arguments.
    Empty,
    /// `SET k 1`, ignored, and `GET k` as a transaction, for an integer.
    Transaction,
    /// Packed bytes.
    Packed(&'static [u8]),
    /// Packed bytes, for so many replies after so many.
    Several(&'static [u8], usize, usize),
}

/// What a link of these limits over the two devices answers to the calls, each with `; ` after it;
/// whether it is broken then; the pushes that it has set aside; how often its reader was read and
/// its writer written and flushed; and the bytes that were sent.
pub fn session_text(
    alloc: Global,
    limits: Limits,
    (reader, writer): (Device, Device),
    calls: &[Call],
) -> String {
    match ByteLink::with_limits(alloc, reader, writer, limits) {
        Ok(link) => asked_text(alloc, link, calls),
        Err(error) => refusal_text(alloc, &error),
    }
}

type DeviceLink = ByteLink<Reading<Device>, Writing<Device>>;

fn asked_text(alloc: Global, mut link: DeviceLink, calls: &[Call]) -> String {
    let answers = answers_text(alloc, &mut link, calls);
    let state = if link.is_broken() { "broken" } else { "usable" };
    let pushes = debug_text(alloc, &link.take_pushes());
    let (source, sink) = link.into_ends();
    let reads = source.into_inner().calls;
    end_text(
        alloc,
        (answers.as_str(), state, pushes.as_str()),
        reads,
        &sink.into_inner(),
    )
}

fn end_text(
    alloc: Global,
    (answers, state, pushes): (&str, &str, &str),
    reads: usize,
    writer: &Device,
) -> String {
    let (writes, flushes) = (writer.calls, writer.flushes);
    let sent = bytes_text(alloc, writer.taken.as_slice());
    let text = format!(in alloc;
        "{answers}{state} {pushes}, {reads} reads, {writes} writes, {flushes} flushes: {sent}"
    );
    text.unwrap_or(String::new(alloc))
}

fn answers_text(alloc: Global, con: &mut dyn ConnectionLike, calls: &[Call]) -> String {
    let mut text = String::new(alloc);
    for call in calls {
        let answer = call_text(alloc, con, *call);
        let _ = add(&mut text, answer.as_str());
    }
    text
}

/// Appends an answer.
fn add(text: &mut String, answer: &str) -> Result<(), AllocError> {
    text.push_str(answer)?;
    text.push_str("; ")
}

fn call_text(alloc: Global, con: &mut dyn ConnectionLike, call: Call) -> String {
    match call {
        Call::Ping => asked::<i64>(alloc, con, &["PING"], false),
        Call::Unanswered => asked::<Value>(alloc, con, &["PING"], true),
        Call::Empty => asked::<Value>(alloc, con, &[], false),
        Call::Transaction => answer_text(alloc, transaction(alloc, con)),
        Call::Packed(bytes) => answer_text(alloc, con.req_packed_command(bytes)),
        Call::Several(bytes, offset, count) => {
            answer_text(alloc, con.req_packed_commands(bytes, offset, count))
        }
    }
}

fn asked<T: FromRedisValue + Debug + Drop>(
    alloc: Global,
    con: &mut dyn ConnectionLike,
    words: &[&str],
    no_response: bool,
) -> String {
    answer_text(alloc, ask::<T>(alloc, con, words, no_response))
}

fn ask<T: FromRedisValue>(
    alloc: Global,
    con: &mut dyn ConnectionLike,
    words: &[&str],
    no_response: bool,
) -> RedisResult<T> {
    let mut command = command(alloc, words)?;
    command.set_no_response(no_response).query(con)
}

fn transaction(alloc: Global, con: &mut dyn ConnectionLike) -> RedisResult<(i64,)> {
    let mut set = pipeline(alloc, &[&["SET", "k", "1"]])?;
    let _ = set.ignore().atomic();
    set.push_command(command(alloc, &["GET", "k"])?)?;
    set.query(con)
}

/// What a parser that is fed these bytes answers over the reader, asked so often, each answer with
/// `; ` after it; in which state it is then; how often the reader was read, and for how many bytes
/// at most. By a source it asks a [`Reading`] of the reader.
pub fn parsing_text(
    alloc: Global,
    fed: &[u8],
    mut reader: Device,
    (by_source, times): (bool, usize),
) -> String {
    let mut parser = Parser::new(alloc);
    let _ = parser.feed(fed);
    if by_source {
        let mut source = Reading::new(reader);
        let text = taken_text(alloc, &mut parser, &mut source, times);
        return reads_text(alloc, text.as_str(), &parser, &source.into_inner());
    }
    let text = read_text(alloc, &mut parser, &mut reader, times);
    reads_text(alloc, text.as_str(), &parser, &reader)
}

fn taken_text(
    alloc: Global,
    parser: &mut Parser,
    source: &mut Reading<Device>,
    times: usize,
) -> String {
    let mut text = String::new(alloc);
    for _ in 0..times {
        let answer = answer_text(alloc, parser.parse_from(source));
        let _ = add(&mut text, answer.as_str());
    }
    text
}

fn read_text(alloc: Global, parser: &mut Parser, reader: &mut Device, times: usize) -> String {
    let mut text = String::new(alloc);
    for _ in 0..times {
        let answer = answer_text(alloc, parser.parse_value(&mut *reader));
        let _ = add(&mut text, answer.as_str());
    }
    text
}

fn reads_text(alloc: Global, answers: &str, parser: &Parser, reader: &Device) -> String {
    let state = state_of(parser);
    let text = format!(in alloc;
        "{answers}{state}, {} reads of {}",
        reader.calls, reader.most
    );
    text.unwrap_or(String::new(alloc))
}

fn state_of(parser: &Parser) -> &'static str {
    match (parser.is_failed(), parser.in_progress()) {
        (true, _) => "failed",
        (false, true) => "waiting",
        (false, false) => "idle",
    }
}
