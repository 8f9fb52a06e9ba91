//! Replies whose body is handed on as it comes: cut at each byte, from devices that fail or end
//! early, to takers that fail; and the calls after them.

use crate::checks::{Test, assert_text, link};
use crate::devices::checks::{Spec, TAKES_ALL, assert_ping, device};
use crate::testing::{Device, bytes_text, command, debug_text, refusal_text};
use resp_core::{
    ByteLink, CommandSink, Limits, Reading, RedisResult, ReplySource, Streamed, Writing,
};
use std::io::{Cursor, ErrorKind};

/// What a call answers: how long the body was that was handed on, another reply, or a refusal.
fn answer(rt: &impl Test, streamed: RedisResult<Streamed>) -> String {
    match streamed {
        Ok(streamed) => debug_text(rt.alloc(), &streamed),
        Err(error) => refusal_text(rt.alloc(), &error),
    }
}

/// `GET` over the link is answered so, and the taker has taken this.
fn assert_get<S: ReplySource, K: CommandSink>(
    rt: &impl Test,
    link: &mut ByteLink<S, K>,
    taker: Device,
    (wanted, taken): (&str, &str),
) {
    let get = command(rt.alloc(), &["GET", "k"]).expect(rt, "memory");
    let mut body = Writing::new(taker);
    let streamed = link.req_command_into(&get, &mut body);
    assert_text(rt, answer(rt, streamed), wanted);
    let taker = body.into_inner();
    assert_text(rt, bytes_text(rt.alloc(), taker.taken.as_slice()), taken);
    assert_eq!(rt; taker.flushes, 0);
}

/// Over these devices `GET` is answered so, and the taker has taken this; then `PING` is answered
/// so.
fn assert_streams(rt: &impl Test, (reader, taker): (Spec, Spec), wanted: (&str, &str), next: &str) {
    let reader = device(rt, reader);
    let mut link = ByteLink::new(rt.alloc(), reader, Vec::new(rt.alloc()));
    assert_get(rt, &mut link, device(rt, taker), wanted);
    assert_next(rt, &mut link, next);
}

/// `PING` is answered so, as an integer.
fn assert_next(
    rt: &impl Test,
    link: &mut ByteLink<Reading<Device>, Writing<Vec<u8>>>,
    wanted: &str,
) {
    let ping = command(rt.alloc(), &["PING"]).expect(rt, "memory");
    let mut none = Writing::new(Vec::new(rt.alloc()));
    let answered = link.req_command_into(&ping, &mut none);
    assert_text(rt, answer(rt, answered), wanted);
    assert!(rt; none.into_inner().is_empty());
}

const NEXT: &str = "Reply(int(7))";

#[test]
fn bodies_cut_at_each_byte(rt: HostRuntime) {
    for each in 1..20 {
        let taker = TAKES_ALL;
        assert_streams(
            &rt,
            ((b"$0\r\n\r\n:7\r\n", each, 0, None), taker),
            ("Body(0)", ""),
            NEXT,
        );
        let one = (b"$1\r\na\r\n:7\r\n".as_slice(), each, 0, None);
        assert_streams(&rt, (one, taker), ("Body(1)", "a"), NEXT);
        let five = (b"$5\r\na\r\nbc\r\n:7\r\n".as_slice(), each, 0, None);
        assert_streams(&rt, (five, taker), ("Body(5)", "a\r\nbc"), NEXT);
        assert_streams(&rt, (five, (b"", 1, 0, None)), ("Body(5)", "a\r\nbc"), NEXT);
    }
}

#[test]
fn a_long_body(rt: HostRuntime) {
    let body = b"0123456789".repeat(rt.alloc(), 500).expect(&rt, "memory");
    let mut bytes = Vec::from_slice(rt.alloc(), b"$5000\r\n").expect(&rt, "memory");
    bytes
        .extend_from_slice(body.as_slice())
        .expect(&rt, "memory");
    bytes.extend_from_slice(b"\r\n:7\r\n").expect(&rt, "memory");
    let mut link = link(&rt, bytes.as_slice());
    let get = command(rt.alloc(), &["GET", "k"]).expect(&rt, "memory");
    let mut taker = Writing::new(Vec::new(rt.alloc()));
    let streamed = link.req_command_into(&get, &mut taker);
    assert_text(&rt, answer(&rt, streamed), "Body(5000)");
    assert!(rt; taker.into_inner() == body);
    assert_ping(&rt, &mut link, "7");
}

#[test]
fn other_replies_are_answered(rt: HostRuntime) {
    for each in [1, 2, 99] {
        for (incoming, wanted) in [
            (b"$-1\r\n:7\r\n".as_slice(), "Reply(nil)"),
            (b":5\r\n:7\r\n", "Reply(int(5))"),
            (b"+a\r\n:7\r\n", "Reply(simple-string(\"a\"))"),
            (
                b"*1\r\n$1\r\na\r\n:7\r\n",
                "Reply(array([bulk-string('\"a\"')]))",
            ),
            (
                b"=5\r\ntxt:a\r\n:7\r\n",
                "Reply(verbatim-string(Text,\"a\"))",
            ),
            (b"-ERR x\r\n:7\r\n", "Reply(Server error: `ERR: x`)"),
        ] {
            assert_streams(
                &rt,
                ((incoming, each, 0, None), TAKES_ALL),
                (wanted, ""),
                NEXT,
            );
        }
    }
}

#[test]
fn pushes_before_a_body(rt: HostRuntime) {
    for each in 1..20 {
        let reader = (
            b">1\r\n+x\r\n>1\r\n+y\r\n$2\r\nab\r\n:7\r\n".as_slice(),
            each,
            0,
            None,
        );
        assert_streams(&rt, (reader, TAKES_ALL), ("Body(2)", "ab"), NEXT);
    }
    let mut link = link(&rt, b">1\r\n+x\r\n$2\r\nab\r\n");
    let taker = device(&rt, TAKES_ALL);
    assert_get(&rt, &mut link, taker, ("Body(2)", "ab"));
    assert!(rt; link.pushes().len() == 1);
}

const BROKEN: &str = "link is broken - Io";

/// A body of five bytes and its CR LF.
const FIVE: &[u8] = b"$5\r\nabcde\r\n";

/// The first bytes of the body.
fn front(count: usize) -> &'static str {
    "abcde".get(..count).unwrap_or("abcde")
}

#[test]
fn a_source_that_ends_or_fails_at_each_byte(rt: HostRuntime) {
    for cut in 0..FIVE.len() {
        let taken = front(cut.saturating_sub(4));
        let ends: Spec = (&FIVE[..cut], 1, 0, None);
        assert_streams(&rt, (ends, TAKES_ALL), ("UnexpectedEof", taken), BROKEN);
        let fails = (FIVE, 1, cut + 1, Some(ErrorKind::TimedOut));
        assert_streams(&rt, (fails, TAKES_ALL), ("TimedOut", taken), BROKEN);
    }
}

#[test]
fn a_taker_that_fails_at_each_byte(rt: HostRuntime) {
    let reader: Spec = (FIVE, 3, 0, None);
    for call in 1..=5 {
        let taken = front(call - 1);
        for fault in [Some(ErrorKind::BrokenPipe), None] {
            let taker = (b"".as_slice(), 1, call, fault);
            assert_streams(
                &rt,
                (reader, taker),
                ("body wasn't taken - Io", taken),
                BROKEN,
            );
        }
    }
}

#[test]
fn another_byte_in_the_place_of_cr_lf(rt: HostRuntime) {
    for each in [1, 3, 99] {
        let no_cr = (b"$2\r\nabX".as_slice(), each, 0, None);
        assert_streams(&rt, (no_cr, TAKES_ALL), ("BodyEnd", "ab"), BROKEN);
        let no_lf = (b"$2\r\nab\rX".as_slice(), each, 0, None);
        assert_streams(&rt, (no_lf, TAKES_ALL), ("BodyEnd", "ab"), BROKEN);
        let unknown = (b"?2\r\nab\r\n".as_slice(), each, 0, None);
        assert_streams(&rt, (unknown, TAKES_ALL), ("UnknownType", ""), BROKEN);
        let number = (b"$x\r\nab\r\n".as_slice(), each, 0, None);
        assert_streams(&rt, (number, TAKES_ALL), ("NotInteger", ""), BROKEN);
    }
}

/// Within so many bytes of a value a body of two is answered so, and this is taken of it.
fn assert_within(rt: &impl Test, bytes: usize, wanted: (&str, &str)) {
    let limits = Limits {
        bytes,
        ..Limits::default()
    };
    let incoming = Vec::from_slice(rt.alloc(), b"$2\r\nab\r\n").expect(rt, "memory");
    let writer = Vec::new(rt.alloc());
    let link = ByteLink::with_limits(rt.alloc(), Cursor::new(incoming), writer, limits);
    let mut link = link.expect(rt, "limits");
    assert_get(rt, &mut link, device(rt, TAKES_ALL), wanted);
}

#[test]
fn a_body_over_the_limit(rt: HostRuntime) {
    assert_within(&rt, 8, ("Body(2)", "ab"));
    for bytes in 1..8 {
        assert_within(&rt, bytes, ("TooLong", ""));
    }
}
