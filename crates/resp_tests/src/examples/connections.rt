//! Code over stored replies, over a connection that takes one command at a time, and over a link
//! that is counted.

use crate::checks::{Test, assert_answer, assert_text, reply};
use crate::testing::{MemoryLink, bytes_text, pipeline};
use example_snippets::replies;
use example_snippets::replies::{
    Counted, InPieces, count_call, page, visit_between, visit_over, visits,
};
use resp_core::{
    ByteLink, Cmd, ConnectionLike, ErrorKind, RedisError, RedisResult, Value, Writing,
};
use std::io::Cursor;

/// A link that is answered these replies.
pub fn stored(rt: &impl Test, replies: &[&str]) -> MemoryLink {
    let mut values = Vec::new(rt.alloc());
    for bytes in replies {
        let value = reply(rt, bytes.as_bytes());
        values.push(value).expect(rt, "memory");
    }
    replies::stored(rt.alloc(), values.as_slice()).expect(rt, "memory")
}

/// Takes one command at a time, counts its requests, and runs out of memory at each.
#[derive(Drop)]
struct OneByOne {
    requests: u64,
}

impl ConnectionLike for OneByOne {
    ghost use Rattle.std.specs.Prelude.{false};
    ghost use Rattle.resp_core.specs.Connections.{idle};

    ghost connection = { λ c. idle false };

    fn req_command(&mut self, cmd: &Cmd) -> RedisResult<Value> {
        self.requests = self.requests.saturating_add(1);
        if cmd.is_empty() {
            return Err(RedisError::from((ErrorKind::Client, "empty command")));
        }
        if cmd.is_unanswered() {
            let refusal = "a subscription has no reply: set_no_response, then next_push";
            return Err(RedisError::from((ErrorKind::Client, refusal)));
        }
        Err(RedisError::OutOfMemory)
    }

    fn req_packed_command(&mut self, bytes: &[u8]) -> RedisResult<Value> {
        self.requests = self.requests.saturating_add(1);
        if bytes.is_empty() {
            return Err(RedisError::from((ErrorKind::Client, "empty command")));
        }
        Err(RedisError::OutOfMemory)
    }

    fn req_packed_commands(
        &mut self,
        _bytes: &[u8],
        _offset: usize,
        _count: usize,
    ) -> RedisResult<Vec<Value>> {
        self.requests = self.requests.saturating_add(1);
        Err(RedisError::OutOfMemory)
    }

    fn supports_pipelining(&self) -> bool {
        false
    }

    fn is_open(&self) -> bool {
        true
    }
}

/// A visit is answered this.
fn assert_visit(rt: &impl Test, con: &mut dyn ConnectionLike, wanted: &str) {
    assert_answer(rt, visits(rt.alloc(), con, "home"), wanted);
}

#[test]
fn visits_over_stored_replies(rt: HostRuntime) {
    let mut con = stored(&rt, &[":7\r\n", "-WRONGTYPE x\r\n"]);
    for wanted in [
        "7",
        "\"WRONGTYPE\": x",
        "UnexpectedEof",
        "link is broken - Io",
    ] {
        assert_visit(&rt, &mut con, wanted);
    }
}

#[test]
fn packed_commands_over_stored_replies(rt: HostRuntime) {
    let mut con = stored(&rt, &[":1\r\n", ":2\r\n", ":3\r\n", ":4\r\n", ":5\r\n"]);
    let broken = "link is broken - Io";
    assert_answer(&rt, con.req_packed_commands(b"x", 1, 2), "[int(2), int(3)]");
    assert_answer(&rt, con.req_packed_command(b""), "empty command - Client");
    assert_answer(&rt, con.req_packed_command(b"x"), "int(4)");
    assert_answer(&rt, con.req_packed_commands(b"x", 0, 2), "UnexpectedEof");
    assert_answer(&rt, con.req_packed_command(b""), broken);
    assert_answer(&rt, con.req_packed_commands(b"x", 0, 0), broken);
}

#[test]
fn a_connection_without_pipelining_is_not_asked(rt: HostRuntime) {
    let mut con = OneByOne { requests: 0 };
    let mut two = pipeline(rt.alloc(), &[&["A"], &["B"]]).expect(&rt, "memory");
    let refused = "This connection does not support pipelining. - Client";
    assert_answer(&rt, two.query::<(i64, i64)>(&mut con), refused);
    let _ = two.atomic();
    assert_answer(&rt, two.query::<(i64, i64)>(&mut con), refused);
    assert_eq!(rt; con.requests, 0);
    let packed = con.req_packed_commands(b"x", 0, 2);
    assert_answer(&rt, packed, "out of memory");
    assert_eq!(rt; con.requests, 1);
}

#[test]
fn visits_over_a_source_of_ones_own(rt: HostRuntime) {
    for (size, wanted) in [(1, "7"), (2, "7"), (99, "7"), (0, "UnexpectedEof")] {
        let bytes = Vec::from_slice(rt.alloc(), b":7\r\n").expect(&rt, "memory");
        let sink = Writing::new(Vec::new(rt.alloc()));
        let mut con = ByteLink::over(rt.alloc(), InPieces::new(bytes, size), sink);
        assert_visit(&rt, &mut con, wanted);
    }
}

#[test]
fn requests_are_counted(rt: HostRuntime) {
    let incoming = Vec::from_slice(rt.alloc(), b":7\r\n:1\r\n:2\r\n").expect(&rt, "memory");
    let mut con = Counted::new(rt.alloc(), incoming);
    assert_visit(&rt, &mut con, "7");
    let two = pipeline(rt.alloc(), &[&["A"], &["B"]]).expect(&rt, "memory");
    assert_answer(&rt, two.query::<(i64, i64)>(&mut con), "(1, 2)");
    assert_eq!(rt; con.requests(), 2);
    let wanted = "*4\r\n$7\r\nHINCRBY\r\n$4\r\nhome\r\n$6\r\nvisits\r\n$1\r\n1\r\n\
        *1\r\n$1\r\nA\r\n*1\r\n$1\r\nB\r\n";
    let sent = con.into_sent();
    assert_text(&rt, bytes_text(rt.alloc(), sent.as_slice()), wanted);
}

#[test]
fn a_key_of_another_type_is_no_counter(rt: HostRuntime) {
    let incoming = Vec::from_slice(
        rt.alloc(),
        b"+OK\r\n+QUEUED\r\n+QUEUED\r\n*2\r\n:8\r\n:0\r\n\
        +OK\r\n+QUEUED\r\n+QUEUED\r\n*2\r\n\
        -WRONGTYPE Operation against a key holding the wrong kind of value\r\n:0\r\n\
        +OK\r\n-ERR x\r\n+QUEUED\r\n-EXECABORT y\r\n",
    )
    .expect(&rt, "memory");
    let mut con = Counted::new(rt.alloc(), incoming);
    let mut count_answers = |wanted: &str| {
        assert_answer(&rt, count_call(rt.alloc(), &mut con, "calls"), wanted);
    };
    count_answers("Some(8)");
    count_answers("None");
    count_answers("Transaction aborted: [(Index 0, error: ResponseError: x)]");
}

#[test]
fn visits_over_ends_of_any_type(rt: HostRuntime) {
    let alloc = rt.alloc();
    let mut input = Cursor::new(Vec::from_slice(alloc, b":7\r\n").expect(&rt, "memory"));
    let mut output: Vec<u8> = Vec::new(alloc);
    assert_answer(
        &rt,
        visit_between(alloc, &mut input, &mut output, "home"),
        "7",
    );
    let sent = b"*4\r\n$7\r\nHINCRBY\r\n$4\r\nhome\r\n$6\r\nvisits\r\n$1\r\n1\r\n";
    assert!(rt; output.as_slice() == sent.as_slice());
    let input = Cursor::new(Vec::from_slice(alloc, b":8\r\n").expect(&rt, "memory"));
    assert_answer(&rt, visit_over(alloc, input, output, "home"), "8");
}

#[test]
fn a_reply_is_written_in_a_line(rt: HostRuntime) {
    let keys = vec![in rt.alloc(); Value::from(1), Value::Nil].expect(&rt, "memory");
    let page = page(rt.alloc(), "0", keys).expect(&rt, "memory");
    assert!(rt; page == reply(&rt, b"*2\r\n$1\r\n0\r\n*2\r\n:1\r\n_\r\n"));
}
