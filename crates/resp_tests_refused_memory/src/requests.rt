//! Requests that are taken from a parser, and values that are sent over a sink.

use crate::heap::{equal, ran_out, refuse};
use resp_core::{FlatReply, Parser, ProtocolVersion, Writing, parse_redis_value};
use resp_server::{Request, send_reply, send_value};

#[test]
fn requests_of_a_parser(rt: HostRuntime) {
    let mut parser = Parser::new(rt.alloc());
    let fed = parser.feed(b"*2\r\n$3\r\nGET\r\n$1\r\nk\r\n");
    fed.expect(&rt, "no refusal");
    refuse(rt.alloc());
    let answer = Request::take(&mut parser);
    if ran_out(&rt, &answer) {
        assert!(rt; parser.is_failed());
        return;
    }
    let request = answer.expect(&rt, "no refusal").expect(&rt, "a request");
    equal(&rt, request.len(), 2);
}

#[test]
fn flat_replies_over_a_sink(rt: HostRuntime) {
    let value = parse_redis_value(rt.alloc(), b"~1\r\n#t\r\n").expect(&rt, "no refusal");
    let mut flat = FlatReply::new(rt.alloc());
    flat.append(&value).expect(&rt, "no refusal");
    let room: Vec<u8> = Vec::with_capacity(rt.alloc(), 16).expect(&rt, "no refusal");
    let mut sink = Writing::new(room);
    refuse(rt.alloc());
    let answer = send_reply(rt.alloc(), &mut sink, &flat, ProtocolVersion::RESP2);
    let wanted: &[u8] = if ran_out(&rt, &answer) {
        b""
    } else {
        b"*1\r\n:1\r\n"
    };
    assert_eq!(rt; sink.into_inner().as_slice(), wanted);
}

#[test]
fn values_over_a_sink(rt: HostRuntime) {
    let value = parse_redis_value(rt.alloc(), b"~1\r\n#t\r\n").expect(&rt, "no refusal");
    let room: Vec<u8> = Vec::with_capacity(rt.alloc(), 16).expect(&rt, "no refusal");
    let mut sink = Writing::new(room);
    refuse(rt.alloc());
    let answer = send_value(rt.alloc(), &mut sink, &value, ProtocolVersion::RESP2);
    let wanted: &[u8] = if ran_out(&rt, &answer) {
        b""
    } else {
        b"*1\r\n:1\r\n"
    };
    assert_eq!(rt; sink.into_inner().as_slice(), wanted);
}
