//! Links: what they have sent and taken where memory ran out.

use crate::heap::{Test, equal, refuse, shows};
use crate::made::{GET_K, get};
use resp_core::{
    ByteLink, ConnectionLike, Parser, PushInfo, Reading, RedisError, RedisResult, Value, Writing,
};
use std::fmt::Debug;
use std::io::Cursor;

pub type Link = ByteLink<Reading<Cursor<Vec<u8>>>, Writing<Vec<u8>>>;

/// A link on which these bytes come in. What is sent goes to a vector with room for it.
pub fn link(rt: &impl Test, incoming: &[u8]) -> Link {
    let incoming = Vec::from_slice(rt.alloc(), incoming).expect(rt, "no refusal");
    let sent = Vec::with_capacity(rt.alloc(), 1000).expect(rt, "no refusal");
    ByteLink::new(rt.alloc(), Cursor::new(incoming), sent)
}

/// What was sent over a link.
pub fn sent(con: Link) -> Vec<u8> {
    let (_source, sink) = con.into_ends();
    sink.into_inner()
}

/// Whether a request over the link is answered by 7, if it is answered.
fn is_seven(rt: &impl Test, con: &mut Link) -> Option<bool> {
    let next = get(rt).query::<Value>(con).ok()?;
    Some(next == Value::Int(7))
}

/// A call over a link: what comes in, which `:7` ends, and how many bytes its request has.
#[derive(Clone, Copy)]
pub struct Asked<'a> {
    pub incoming: &'a [u8],
    pub request: usize,
}

/// Where memory may run out.
#[derive(Clone, Copy, PartialEq)]
pub enum Until {
    /// Before the last reply is taken.
    Replies,
    /// Later, too, in what the replies are made into.
    Conversion,
}

/// What a call left.
#[derive(Clone, Copy, PartialEq)]
enum Left {
    /// Nothing was sent.
    Nothing,
    /// The request was sent, and the link is broken.
    Broken,
    /// The request was sent, and its replies were taken.
    Taken,
}

/// What the call left of the link, by what a next request over it does.
fn what_is_left(rt: &impl Test, mut con: Link, asked: Asked<'_>) -> Left {
    let broken = con.is_broken();
    let is_seven = is_seven(rt, &mut con);
    let (left, wanted) = match (broken, is_seven) {
        (true, _) => (Left::Broken, asked.request),
        (false, Some(true)) => (Left::Taken, asked.request.saturating_add(GET_K.len())),
        (false, _) => (Left::Nothing, GET_K.len()),
    };
    assert!(rt; !broken || is_seven.is_none());
    equal(rt, sent(con).len(), wanted);
    left
}

/// The push that a value is.
fn push_of(value: Value) -> Option<PushInfo> {
    match value {
        Value::Push { kind, payload } => Some(PushInfo { kind, payload }),
        _other => None,
    }
}

/// The pushes among these bytes.
fn pushes_in(rt: &impl Test, incoming: &[u8]) -> Vec<PushInfo> {
    let mut parser = Parser::new(rt.alloc());
    parser.feed(incoming).expect(rt, "no refusal");
    let mut pushes = Vec::new(rt.alloc());
    for _ in 0..incoming.len() {
        let Some(value) = parser.take_value().expect(rt, "no fault") else {
            break;
        };
        if let Some(push) = push_of(value) {
            pushes.push(push).expect(rt, "no refusal");
        }
    }
    pushes
}

/// Those that the link set aside are the first of these; how many there are.
fn set_aside(rt: &impl Test, con: &Link, pushes: &[PushInfo]) -> usize {
    for (came, wanted) in con.pushes().iter().zip(pushes) {
        assert!(rt; came == wanted);
    }
    con.pushes().len()
}

/// As many pushes are set aside as a call that left this takes, of so many that come.
fn are_aside(rt: &impl Test, left: Left, aside: usize, all: usize) {
    let fits = match left {
        Left::Nothing => aside == 0,
        Left::Broken => aside <= all,
        Left::Taken => aside == all,
    };
    assert!(rt; fits);
}

/// The call over the link answered what shows like this, or memory ran out in it; the link stands
/// as it should, with the pushes that came.
pub fn answered<T: Debug + Drop>(
    rt: &impl Test,
    (con, asked, until): (Link, Asked<'_>, Until),
    answer: RedisResult<T>,
    wanted: &str,
) {
    let ran_out = matches!(&answer, Err(RedisError::OutOfMemory));
    shows(rt, answer, wanted);
    let pushes = pushes_in(rt, asked.incoming);
    let aside = set_aside(rt, &con, pushes.as_slice());
    let left = what_is_left(rt, con, asked);
    are_aside(rt, left, aside, pushes.len());
    let may_be_taken = !ran_out || until == Until::Conversion;
    assert!(rt;
        if left == Left::Taken {
            may_be_taken
        } else {
            ran_out
        }
    );
}

/// A reply, one with pushes before it, and one that is nested.
const INCOMING: &[(&[u8], &str)] = &[
    (b"$3\r\nabc\r\n:7\r\n", "Ok(bulk-string('\"abc\"'))"),
    (
        b">2\r\n+message\r\n+x\r\n>1\r\n+own\r\n$3\r\nabc\r\n:7\r\n",
        "Ok(bulk-string('\"abc\"'))",
    ),
    (
        b"*2\r\n+a\r\n%1\r\n+b\r\n$3\r\nabc\r\n:7\r\n",
        "Ok(array([simple-string(\"a\"), map([(simple-string(\"b\"), bulk-string('\"abc\"'))])]))",
    ),
];

/// `GET k`, where these bytes come in.
pub fn of_get(incoming: &[u8]) -> Asked<'_> {
    Asked {
        incoming,
        request: GET_K.len(),
    }
}

/// A command is answered like this.
fn asks_command(rt: &impl Test, incoming: &[u8], wanted: &str) {
    let command = get(rt);
    let mut con = link(rt, incoming);
    refuse(rt.alloc());
    let answer = con.req_command(&command);
    answered(rt, (con, of_get(incoming), Until::Replies), answer, wanted);
}

/// A packed command is answered like this.
fn asks_packed(rt: &impl Test, incoming: &[u8], wanted: &str) {
    let mut con = link(rt, incoming);
    refuse(rt.alloc());
    let answer = con.req_packed_command(GET_K);
    answered(rt, (con, of_get(incoming), Until::Replies), answer, wanted);
}

#[test]
fn one_command(rt: HostRuntime) {
    for (incoming, wanted) in INCOMING {
        asks_command(&rt, incoming, wanted);
        asks_packed(&rt, incoming, wanted);
    }
}

/// A sink that has no room for a request: memory ran out, and the link is broken.
#[test]
fn sinks_without_room(rt: HostRuntime) {
    let incoming = Vec::from_slice(rt.alloc(), b":7\r\n").expect(&rt, "no refusal");
    let mut con = ByteLink::new(rt.alloc(), Cursor::new(incoming), Vec::new(rt.alloc()));
    refuse(rt.alloc());
    let answer = con.req_packed_command(GET_K);
    let ran_out = matches!(&answer, Err(RedisError::OutOfMemory));
    shows(&rt, answer, "Ok(int(7))");
    equal(&rt, con.is_broken(), ran_out);
    let sent = sent(con);
    assert!(rt; sent.as_slice() == GET_K || ran_out && sent.is_empty());
}

/// What comes in after `:1` for a first call: `abc` for the next, and `:7`.
const LATER: &[u8] = b">1\r\n+own\r\n:1\r\n>1\r\n+x\r\n$3\r\nabc\r\n:7\r\n";

/// A link over which one call was answered, and one push is set aside.
fn called_once(rt: &impl Test) -> Link {
    let mut con = link(rt, LATER);
    let first: i64 = get(rt).query(&mut con).expect(rt, "no refusal");
    equal(rt, first, 1);
    equal(rt, con.pushes().len(), 1);
    con
}

/// The pushes of an earlier call stay where the next one is refused.
#[test]
fn pushes_of_an_earlier_call(rt: HostRuntime) {
    let command = get(&rt);
    let mut con = called_once(&rt);
    refuse(rt.alloc());
    let answer = con.req_command(&command);
    let least = if answer.is_ok() { 2 } else { 1 };
    shows(&rt, answer, "Ok(bulk-string('\"abc\"'))");
    let aside = set_aside(&rt, &con, pushes_in(&rt, LATER).as_slice());
    assert!(rt; aside >= least);
}

const TWO: &[u8] = b"+a\r\n>2\r\n+message\r\n+x\r\n*2\r\n$1\r\nb\r\n$1\r\nc\r\n:7\r\n";

/// How many replies are passed over, how many are answered, and what they show.
const SEVERAL: &[(usize, usize, &str)] = &[
    (
        0,
        2,
        "Ok([simple-string(\"a\"), array([bulk-string('\"b\"'), bulk-string('\"c\"')])])",
    ),
    (
        1,
        1,
        "Ok([array([bulk-string('\"b\"'), bulk-string('\"c\"')])])",
    ),
    (2, 0, "Ok([])"),
];

/// So many replies after so many are these.
fn asks_several(rt: &impl Test, offset: usize, count: usize, wanted: &str) {
    let mut con = link(rt, TWO);
    refuse(rt.alloc());
    let answer = con.req_packed_commands(GET_K, offset, count);
    answered(rt, (con, of_get(TWO), Until::Replies), answer, wanted);
}

#[test]
fn packed_commands(rt: HostRuntime) {
    for (offset, count, wanted) in SEVERAL {
        asks_several(&rt, *offset, *count, wanted);
    }
}

/// The body of a reply is handed on, or another reply is answered, like this.
fn hands_on(rt: &impl Test, incoming: &[u8], wanted: &str) {
    let command = get(rt);
    let mut con = link(rt, incoming);
    let taken = Vec::with_capacity(rt.alloc(), 1000).expect(rt, "no refusal");
    let mut taker = Writing::new(taken);
    refuse(rt.alloc());
    let answer = con.req_command_into(&command, &mut taker);
    answered(rt, (con, of_get(incoming), Until::Replies), answer, wanted);
}

#[test]
fn a_body_that_is_handed_on(rt: HostRuntime) {
    hands_on(&rt, b"$3\r\nabc\r\n:7\r\n", "Ok(Body(3))");
    hands_on(&rt, b">1\r\n+x\r\n$3\r\nabc\r\n:7\r\n", "Ok(Body(3))");
    let array = b"*1\r\n$1\r\na\r\n:7\r\n";
    hands_on(&rt, array, "Ok(Reply(array([bulk-string('\"a\"')])))");
}

#[test]
fn a_body_that_is_read(rt: HostRuntime) {
    let command = get(&rt);
    let incoming = b"+a\r\n:7\r\n";
    let mut con = link(&rt, incoming);
    let mut body = Reading::new(b"abc".as_slice());
    let request = GET_K.len().saturating_add(b"$3\r\nabc\r\n".len());
    refuse(rt.alloc());
    let answer = con.req_command_from(&command, 3, &mut body);
    let asked = Asked { incoming, request };
    answered(
        &rt,
        (con, asked, Until::Replies),
        answer,
        "Ok(simple-string(\"a\"))",
    );
}

/// Messages: a push, and the array that RESP2 has in its place; `:7` follows.
const MESSAGES: &[(&[u8], &str)] = &[
    (
        b">2\r\n+message\r\n$3\r\nabc\r\n:7\r\n",
        "Ok(PushInfo { kind: Message, payload: [bulk-string('\"abc\"')] })",
    ),
    (
        b"*2\r\n$7\r\nmessage\r\n$3\r\nabc\r\n:7\r\n",
        "Ok(PushInfo { kind: Message, payload: [bulk-string('\"abc\"')] })",
    ),
];

/// The next push is this, and 7 is answered after it; or memory ran out, and the link is broken.
fn next_is(rt: &impl Test, incoming: &[u8], wanted: &str) {
    let mut con = link(rt, incoming);
    refuse(rt.alloc());
    let push = con.next_push();
    let is_refused = push.is_err();
    shows(rt, push, wanted);
    equal(rt, con.is_broken(), is_refused);
    assert!(rt; is_refused || is_seven(rt, &mut con) == Some(true));
}

#[test]
fn next_pushes_that_come(rt: HostRuntime) {
    for (incoming, wanted) in MESSAGES {
        next_is(&rt, incoming, wanted);
    }
}
