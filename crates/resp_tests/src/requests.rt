//! Requests, as a server reads them, and values that are sent over a sink.

use crate::checks::{Test, assert_text, reply, string};
use crate::testing::{answer_text, bytes_text, debug_text, refusal_text};
use resp_core::{Parser, ProtocolVersion, Text, Value, Writing, cmd};
use resp_server::{Request, RequestArgs, send_value};

const REFUSED: &str = "request is not an array of bulk strings - Client";

fn request(rt: &impl Test, bytes: &[u8]) -> Request {
    Request::from_value(reply(rt, bytes)).expect(rt, "a request")
}

/// The words of a request, each as a text.
fn words_text(rt: &impl Test, request: Request) -> String {
    let mut words = Vec::new(rt.alloc());
    for word in request.into_args() {
        let text = Text::from(bytes_text(rt.alloc(), word.as_slice()));
        words.push(text).expect(rt, "memory");
    }
    debug_text(rt.alloc(), &words)
}

/// What the next request of a parser shows: its words, that there is none yet, or its refusal.
fn next_text(rt: &impl Test, parser: &mut Parser) -> String {
    match Request::take(parser) {
        Ok(Some(request)) => words_text(rt, request),
        Ok(None) => string(rt, "none yet"),
        Err(error) => refusal_text(rt.alloc(), &error),
    }
}

/// The parser is fed a piece, and its next request is this.
fn answers_next(rt: &impl Test, parser: &mut Parser, piece: &str, wanted: &str) {
    parser.feed(piece.as_bytes()).expect(rt, "fed");
    assert_text(rt, next_text(rt, parser), wanted);
}

#[test]
fn requests_in_pieces(rt: HostRuntime) {
    let mut parser = Parser::new(rt.alloc());
    answers_next(&rt, &mut parser, "*2\r\n$3\r\nGET\r\n$1", "none yet");
    answers_next(
        &rt,
        &mut parser,
        "\r\nk\r\n*1\r\n$4\r\nPING\r\n",
        "[\"GET\", \"k\"]",
    );
    answers_next(&rt, &mut parser, "", "[\"PING\"]");
    answers_next(&rt, &mut parser, "", "none yet");
}

#[test]
fn other_values_are_taken_and_refused(rt: HostRuntime) {
    let mut parser = Parser::new(rt.alloc());
    answers_next(&rt, &mut parser, "*0\r\n*-1\r\n:1\r\n", REFUSED);
    answers_next(&rt, &mut parser, "*2\r\n$1\r\na\r\n+b\r\n", REFUSED);
    answers_next(&rt, &mut parser, "~1\r\n$1\r\na\r\n", REFUSED);
    answers_next(&rt, &mut parser, "", REFUSED);
    answers_next(&rt, &mut parser, "*1\r\n$4\r\nPING\r\n", REFUSED);
    answers_next(&rt, &mut parser, "?", "[\"PING\"]");
    answers_next(&rt, &mut parser, "", "UnknownType");
    assert!(rt; parser.is_failed());
}

#[test]
fn a_value_is_given_back(rt: HostRuntime) {
    for bytes in [
        b"*0\r\n".as_slice(),
        b"$1\r\na\r\n",
        b"*2\r\n$1\r\na\r\n$-1\r\n",
    ] {
        let back = Request::from_value(reply(&rt, bytes)).err();
        assert!(rt; back.expect(&rt, "given back") == reply(&rt, bytes));
    }
}

fn is_set(rt: &impl Test, request: &Request) {
    assert_eq!(rt; request.name(), b"SeT".as_slice());
    assert!(rt; request.is_named("set") && request.is_named("SET") && !request.is_named("se"));
    assert_eq!(rt; request.len(), 3);
}

/// The arguments are an empty one and CR LF.
fn has_args(rt: &impl Test, args: &mut RequestArgs<'_>) {
    assert_eq!(rt; args.size_hint(), (2, Some(2)));
    assert_eq!(rt; args.next(), Some(b"".as_slice()));
    assert_eq!(rt; args.next(), Some(b"\r\n".as_slice()));
    assert!(rt; args.next().is_none() && args.next().is_none());
}

#[test]
fn names_and_arguments(rt: HostRuntime) {
    let request = request(&rt, b"*3\r\n$3\r\nSeT\r\n$0\r\n\r\n$2\r\n\r\n\r\n");
    is_set(&rt, &request);
    has_args(&rt, &mut request.args());
}

#[test]
fn a_packed_command_is_its_request(rt: HostRuntime) {
    let mut command = cmd(rt.alloc(), "SET").expect(&rt, "memory");
    command.push_arg(&"key").expect(&rt, "memory");
    command.push_arg(&17).expect(&rt, "memory");
    let packed = command.get_packed_command().expect(&rt, "memory");
    let request = request(&rt, packed.as_slice());
    assert_text(&rt, words_text(&rt, request), "[\"SET\", \"key\", \"17\"]");
}

/// What is answered where a value is sent to a writer that holds `:1`, and what that holds then.
fn sent(rt: &impl Test, value: &Value, protocol: ProtocolVersion) -> String {
    let alloc = rt.alloc();
    let mut sink = Writing::new(Vec::from_slice(alloc, b":1").expect(rt, "memory"));
    let answer = answer_text(alloc, send_value(alloc, &mut sink, value, protocol));
    let bytes = bytes_text(alloc, sink.into_inner().as_slice());
    format!(in alloc; "{answer} {bytes}").expect(rt, "memory")
}

#[test]
fn values_over_a_sink(rt: HostRuntime) {
    let value = reply(&rt, b"~1\r\n#t\r\n");
    assert_text(
        &rt,
        sent(&rt, &value, ProtocolVersion::RESP3),
        "() :1~1\r\n#t\r\n",
    );
    assert_text(
        &rt,
        sent(&rt, &value, ProtocolVersion::RESP2),
        "() :1*1\r\n:1\r\n",
    );
    let value = Value::SimpleString(Text::from(string(&rt, "OK")));
    let wanted = "the value has no encoding - Client :1";
    assert_text(&rt, sent(&rt, &value, ProtocolVersion::RESP3), wanted);
}
