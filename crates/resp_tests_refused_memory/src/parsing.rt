//! Parsers: after want of memory a parser has failed for good, but for a refused `feed`.

use crate::heap::{Test, equal, has_run_out, made, refuse, unless_out};
use resp_core::{
    FlatParser, FlatReply, Parser, Reading, RedisError, RedisResult, Value, parse_redis_value,
};
use std::process::Abort;

/// Whole replies, of each type that takes memory.
const REPLIES: &[&[u8]] = &[
    b"+a text\r\n",
    b"-MINE of my own\r\n",
    b"!21\r\nSYNTAX invalid syntax\r\n",
    b"$5\r\nhello\r\n",
    b"=8\r\ntxt:abcd\r\n",
    b"=8\r\nown:abcd\r\n",
    b"(3492890328409238509324850943850943825024385\r\n",
    b"*9\r\n:1\r\n:2\r\n:3\r\n:4\r\n:5\r\n:6\r\n:7\r\n:8\r\n:9\r\n",
    b"~2\r\n+a\r\n$1\r\nb\r\n",
    b"%2\r\n+a\r\n:1\r\n+b\r\n*1\r\n_\r\n",
    b"|1\r\n+k\r\n:1\r\n*2\r\n:2\r\n$3\r\nabc\r\n",
    b">2\r\n$4\r\nmine\r\n:1\r\n",
    b"*2\r\n*2\r\n*2\r\n+a\r\n+b\r\n+c\r\n+d\r\n",
    b"*1\r\n*1\r\n*1\r\n*1\r\n*1\r\n*1\r\n*1\r\n*1\r\n*1\r\n+x\r\n",
];

/// Whether an error is the refusal of a parser that has failed.
fn is_failure(error: &RedisError) -> bool {
    match error {
        RedisError::Parse(error) => error.description() == "parser has failed",
        _ => false,
    }
}

/// The refusal of a parser that has failed.
fn says_failed<T: Drop>(rt: &impl Abort, answer: RedisResult<T>) {
    let is_failure = answer.err().is_some_and(|error| is_failure(&error));
    assert!(rt; is_failure);
}

/// Each call of the parser says that it has failed, and asks for no bytes.
fn has_failed(rt: &impl Test, mut parser: Parser) {
    assert!(rt; parser.is_failed());
    says_failed(rt, parser.take_value());
    says_failed(rt, parser.feed(b":1\r\n"));
    says_failed(rt, parser.parse_value(b":1\r\n".as_slice()));
    let mut source = Reading::new(b":1\r\n".as_slice());
    says_failed(rt, parser.parse_from(&mut source));
    equal(rt, source.into_inner().len(), 4);
}

/// Each call of a parser of flat replies says that it has failed.
fn flat_has_failed(rt: &impl Test, mut parser: FlatParser) {
    assert!(rt; parser.is_failed());
    says_failed(rt, parser.take_reply(&mut FlatReply::new(rt.alloc())));
    says_failed(rt, parser.feed(b":1\r\n"));
}

/// A parser of these bytes.
fn fed(rt: &impl Test, bytes: &[u8]) -> Parser {
    let mut parser = Parser::new(rt.alloc());
    parser.feed(bytes).expect(rt, "no refusal");
    parser
}

/// The value is this.
fn is_wanted<T: PartialEq>(rt: &impl Test, value: &T, wanted: &T) {
    assert!(rt; *value == *wanted);
}

/// The parser answered this, or memory ran out and it has failed.
fn answered<T: PartialEq + Drop>(
    rt: &impl Test,
    parser: Parser,
    answer: RedisResult<T>,
    wanted: &T,
) {
    match unless_out(rt, answer) {
        Some(value) => is_wanted(rt, &value, wanted),
        None => has_failed(rt, parser),
    }
}

/// What is fed gives this.
fn takes(rt: &impl Test, bytes: &[u8], wanted: &Option<Value>) {
    let mut parser = fed(rt, bytes);
    refuse(rt.alloc());
    let answer = parser.take_value();
    answered(rt, parser, answer, wanted);
}

/// What is fed gives the flat reply of this, or leaves the reply before as it was.
fn takes_flat(rt: &impl Test, bytes: &[u8], wanted: &Option<Value>) {
    let parser = fed_flat(rt, bytes);
    let mut reply = okay(rt);
    let taken = took_flat(rt, parser, &mut reply, wanted.is_some());
    match wanted {
        Some(value) if taken => is_value(rt, &reply, value),
        _ => is_value(rt, &reply, &Value::Okay),
    }
}

/// A parser of flat replies that was fed these bytes.
fn fed_flat(rt: &impl Test, bytes: &[u8]) -> FlatParser {
    let mut parser = FlatParser::new(rt.alloc());
    parser.feed(bytes).expect(rt, "no refusal");
    parser
}

/// The flat reply of `+OK`.
fn okay(rt: &impl Test) -> FlatReply {
    let mut reply = FlatReply::new(rt.alloc());
    reply.append(&Value::Okay).expect(rt, "no refusal");
    reply
}

/// The parser says as wanted whether there is a reply, or memory ran out and it has failed. Whether
/// it gave one.
fn took_flat(rt: &impl Test, mut parser: FlatParser, reply: &mut FlatReply, wanted: bool) -> bool {
    refuse(rt.alloc());
    match unless_out(rt, parser.take_reply(reply)) {
        Some(taken) => {
            equal(rt, taken, wanted);
            taken
        }
        None => {
            flat_has_failed(rt, parser);
            false
        }
    }
}

/// The flat reply is that of the value.
fn is_value(rt: &impl Test, reply: &FlatReply, wanted: &Value) {
    let shown = reply.to_value(rt.alloc()).expect(rt, "no refusal");
    is_wanted(rt, &shown, wanted);
}

/// What is read gives this.
fn reads(rt: &impl Test, bytes: &[u8], wanted: &Value) {
    let mut parser = Parser::new(rt.alloc());
    refuse(rt.alloc());
    let answer = parser.parse_value(bytes);
    answered(rt, parser, answer, wanted);
}

/// What is read of a source gives this.
fn reads_source(rt: &impl Test, bytes: &[u8], wanted: &Value) {
    let mut parser = Parser::new(rt.alloc());
    let mut source = Reading::new(bytes);
    refuse(rt.alloc());
    let answer = parser.parse_from(&mut source);
    answered(rt, parser, answer, wanted);
}

/// Whether a source of these bytes begins with a bulk string that has a body.
fn finds(rt: &impl Test, bytes: &[u8], wanted: bool) {
    let mut parser = Parser::new(rt.alloc());
    let mut source = Reading::new(bytes);
    refuse(rt.alloc());
    let found = parser.find_bulk(&mut source);
    match unless_out(rt, found) {
        Some(header) => equal(rt, header.is_some(), wanted),
        None => has_failed(rt, parser),
    }
}

/// A source of these bytes gives all of them at once.
fn fills(rt: &impl Test, bytes: &[u8]) {
    let mut parser = Parser::new(rt.alloc());
    let mut source = Reading::new(bytes);
    refuse(rt.alloc());
    if has_run_out(rt, parser.fill_from(&mut source)) {
        has_failed(rt, parser);
    } else {
        equal(rt, parser.unparsed_len(), bytes.len());
    }
}

#[test]
fn bytes_before_a_value(rt: HostRuntime) {
    finds(&rt, b"$3\r\nabc\r\n", true);
    finds(&rt, b":7\r\n", false);
    fills(&rt, b"$3\r\nabc\r\n");
}

/// The bytes give their value, however they come in.
fn gives_value(rt: &impl Test, bytes: &[u8]) {
    let value = parse_redis_value(rt.alloc(), bytes).expect(rt, "no refusal");
    makes! { rt; parse_redis_value(rt.alloc(), bytes) => value }
    reads(rt, bytes, &value);
    reads_source(rt, bytes, &value);
    let wanted = Some(value);
    takes_flat(rt, bytes, &wanted);
    takes(rt, bytes, &wanted);
}

#[test]
fn replies(rt: HostRuntime) {
    for bytes in REPLIES {
        gives_value(&rt, bytes);
        if let Some((_last, front)) = bytes.split_last() {
            takes(&rt, front, &None);
            takes_flat(&rt, front, &None);
        }
    }
}
