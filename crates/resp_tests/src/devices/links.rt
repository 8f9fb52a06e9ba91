//! Links in memory: pushes that are taken or waited for, many pushes, and their limits.

use crate::checks::{Test, assert_answer, assert_debug, link};
use crate::devices::checks::assert_ping;
use crate::testing::{Device, MemoryLink, command};
use resp_core::{
    ByteLink, CommandSink, ConnectionLike, Limits, Parser, PushInfo, PushKind, PushSource, Reading,
    RedisResult, ReplySource, Value, Writing,
};
use std::io::{Cursor, ErrorKind};

#[test]
fn pushes_are_taken_once(rt: HostRuntime) {
    let mut link = link(&rt, b">2\r\n+message\r\n+c\r\n:2\r\n>0\r\n:9\r\n");
    assert_ping(&rt, &mut link, "2");
    let message = "[PushInfo { kind: Message, payload: [simple-string(\"c\")] }]";
    assert_debug(&rt, link.pushes(), message);
    assert_debug(&rt, &link.take_pushes(), message);
    assert_debug(&rt, link.pushes(), "[]");
    assert_ping(&rt, &mut link, "9");
    assert_debug(
        &rt,
        link.pushes(),
        "[PushInfo { kind: Other(\"\"), payload: [] }]",
    );
}

#[test]
fn taken_pushes_leave_room_for_others(rt: HostRuntime) {
    let incoming = b">1\r\n+x\r\n:2\r\n>1\r\n+x\r\n:3\r\n>1\r\n+x\r\n:4\r\n";
    let mut link = limited(&rt, incoming, 8);
    assert_ping(&rt, &mut link, "2");
    assert!(&rt; link.take_pushes().len() == 1);
    assert_ping(&rt, &mut link, "3");
    assert_ping(&rt, &mut link, "TooManyPushes");
    assert!(&rt; link.is_broken() && link.take_pushes().len() == 1);
}

/// Whether the push is of kind `x` and has no values.
fn is_x(push: &PushInfo) -> bool {
    matches!(&push.kind, PushKind::Other(name) if name.eq_str("x")) && push.payload.is_empty()
}

#[test]
fn a_thousand_pushes(rt: HostRuntime) {
    let mut bytes = b">1\r\n+x\r\n"
        .repeat(rt.alloc(), 1000)
        .expect(&rt, "memory");
    bytes.extend_from_slice(b":1\r\n").expect(&rt, "memory");
    let mut link = link(&rt, bytes.as_slice());
    assert_ping(&rt, &mut link, "1");
    assert!(rt; link.pushes().len() == 1000 && link.pushes().iter().all(is_x));
}

type Made = RedisResult<(usize, Limits)>;

/// A parser of this limit on levels, as its limits.
fn parser_limits(rt: &impl Test, depth: usize) -> Made {
    let parser = Parser::with_depth_limit(rt.alloc(), depth)?;
    Ok((parser.depth_limit(), parser.limits()))
}

/// The same of a link over a reader and a writer.
fn link_limits(rt: &impl Test, depth: usize) -> Made {
    let (reader, writer) = (Cursor::new(Vec::new(rt.alloc())), Vec::new(rt.alloc()));
    let link = ByteLink::with_depth_limit(rt.alloc(), reader, writer, depth)?;
    Ok((link.depth_limit(), link.limits()))
}

/// The same of a link over a source and a sink.
fn limits_between(rt: &impl Test, depth: usize) -> Made {
    let source = Reading::new(Cursor::new(Vec::new(rt.alloc())));
    let sink = Writing::new(Vec::new(rt.alloc()));
    let link = ByteLink::over_with_depth_limit(rt.alloc(), source, sink, depth)?;
    Ok((link.depth_limit(), link.limits()))
}

#[test]
fn limits_on_levels(rt: HostRuntime) {
    let refused = "depth limit must be 1 to 1000 - InvalidClientConfig";
    let one = "(1, Limits { depth: 1, bytes: 9223372036854775807, pushes: 9223372036854775807 })";
    for (depth, wanted) in [(0, refused), (1, one), (1001, refused)] {
        assert_answer(&rt, parser_limits(&rt, depth), wanted);
        assert_answer(&rt, link_limits(&rt, depth), wanted);
        assert_answer(&rt, limits_between(&rt, depth), wanted);
    }
    assert_eq!(rt; link(&rt, b"").limits(), Limits::default());
}

#[test]
fn a_query_over_a_link_of_one_level(rt: HostRuntime) {
    let reader = Cursor::new(Vec::from_slice(rt.alloc(), b":5\r\n").expect(&rt, "memory"));
    let link = ByteLink::with_depth_limit(rt.alloc(), reader, Vec::new(rt.alloc()), 1);
    let mut link = link.expect(&rt, "a limit");
    let get = command(rt.alloc(), &["GET", "k"]).expect(&rt, "memory");
    assert_answer(&rt, get.query::<i64>(&mut link), "5");
}

/// The calls of `next_push` answer this: pushes and refusals.
fn assert_next<S: ReplySource, K: CommandSink>(
    rt: &impl Test,
    link: &mut ByteLink<S, K>,
    wanted: &[&str],
) {
    for text in wanted {
        assert_answer(rt, link.next_push(), text);
    }
}

/// A link over bytes that come so many at a time.
fn in_pieces(
    rt: &impl Test,
    incoming: &'static [u8],
    each: usize,
) -> ByteLink<Reading<Device>, Writing<Vec<u8>>> {
    let reader = Device::new(rt.alloc(), incoming, each);
    ByteLink::new(rt.alloc(), reader, Vec::new(rt.alloc()))
}

/// Where nothing was asked these bytes are answered so, in any pieces, and nothing is sent.
fn assert_unasked(rt: &impl Test, incoming: &'static [u8], wanted: &[&str]) {
    for each in [1, 2, usize::MAX] {
        let mut link = in_pieces(rt, incoming, each);
        assert_next(rt, &mut link, wanted);
        let (_source, sink) = link.into_ends();
        assert!(rt; sink.into_inner().is_empty());
    }
}

const BROKEN: &str = "link is broken - Io";

/// The specification's push.
const PUSH: &[u8] = b">3\r\n+message\r\n+somechannel\r\n+this is the message\r\n";

const MESSAGE: &str = "PushInfo { kind: Message, payload: \
    [simple-string(\"somechannel\"), simple-string(\"this is the message\")] }";

#[test]
fn a_push_is_waited_for(rt: HostRuntime) {
    assert_unasked(&rt, PUSH, &[MESSAGE, "UnexpectedEof", BROKEN]);
    for cut in 0..PUSH.len() {
        assert_unasked(&rt, &PUSH[..cut], &["UnexpectedEof", BROKEN]);
    }
    assert_unasked(&rt, b">3\r\n?", &["UnknownType", BROKEN]);
}

/// Arrays to a subscriber under RESP2, and the pushes that they are.
const ARRAYS: &[(&[u8], &str)] = &[
    (
        b"*3\r\n$9\r\nsubscribe\r\n$5\r\nfirst\r\n:1\r\n",
        "PushInfo { kind: Subscribe, payload: [bulk-string('\"first\"'), int(1)] }",
    ),
    (
        b"*3\r\n$7\r\nmessage\r\n$6\r\nsecond\r\n$5\r\nHello\r\n",
        "PushInfo { kind: Message, payload: \
            [bulk-string('\"second\"'), bulk-string('\"Hello\"')] }",
    ),
    (
        b"*4\r\n$8\r\npmessage\r\n$1\r\n*\r\n$6\r\nsecond\r\n$5\r\nHello\r\n",
        "PushInfo { kind: PMessage, payload: \
            [bulk-string('\"*\"'), bulk-string('\"second\"'), bulk-string('\"Hello\"')] }",
    ),
    (
        b"*3\r\n$11\r\nunsubscribe\r\n$-1\r\n:0\r\n",
        "PushInfo { kind: Unsubscribe, payload: [nil, int(0)] }",
    ),
    (
        b"*3\r\n$10\r\nssubscribe\r\n$5\r\nfirst\r\n:1\r\n",
        "PushInfo { kind: SSubscribe, payload: [bulk-string('\"first\"'), int(1)] }",
    ),
];

#[test]
fn messages_under_resp2(rt: HostRuntime) {
    for (incoming, wanted) in ARRAYS {
        assert_unasked(&rt, *incoming, &[*wanted, "UnexpectedEof", BROKEN]);
    }
}

/// Values that are no messages: among them arrays of another name, or whose name is no bulk string.
const REPLIES: &[&[u8]] = &[
    b":7\r\n",
    b"+message\r\n",
    b"$7\r\nmessage\r\n",
    b"*0\r\n",
    b"*-1\r\n",
    b"*1\r\n+message\r\n",
    b"*1\r\n$4\r\npong\r\n",
    b"*1\r\n$10\r\ninvalidate\r\n",
    b"*1\r\n$1\r\n\xFF\r\n",
    b"~1\r\n$7\r\nmessage\r\n",
    b"|1\r\n+a\r\n+b\r\n>1\r\n+x\r\n",
    b"|1\r\n+a\r\n+b\r\n-ERR x\r\n",
    b"*1\r\n-ERR x\r\n",
];

#[test]
fn replies_without_a_request(rt: HostRuntime) {
    let refused = "reply without a request - Io";
    for reply in REPLIES {
        assert_unasked(&rt, *reply, &[refused, BROKEN]);
    }
    let mut link = link(&rt, b">1\r\n+x\r\n:7\r\n:8\r\n");
    assert_next(&rt, &mut link, &[X, refused]);
    assert_ping(&rt, &mut link, BROKEN);
    assert!(rt; link.is_broken());
}

/// What a server answers a subscription that its user may not make, and one that it may.
const REFUSED: &[u8] = b"-NOPERM this user has no permissions to run the 'subscribe' command\r\n\
    >3\r\n$9\r\nsubscribe\r\n$4\r\nnews\r\n:1\r\n:7\r\n";

const SUBSCRIBED: &str = "PushInfo { kind: Subscribe, payload: [bulk-string('\"news\"'), int(1)] }";

#[test]
fn a_subscription_that_a_server_refuses(rt: HostRuntime) {
    let mut link = link(&rt, REFUSED);
    let refused = "NoPerm: this user has no permissions to run the 'subscribe' command";
    assert_next(&rt, &mut link, &[refused, SUBSCRIBED]);
    assert_ping(&rt, &mut link, "7");
    assert!(rt; link.is_open());
    assert_unasked(
        &rt,
        b"-ERR x\r\n?",
        &["ResponseError: x", "UnknownType", BROKEN],
    );
}

/// The commands that are answered by messages alone.
const SUBSCRIPTIONS: &[&str] = &[
    "SUBSCRIBE",
    "psubscribe",
    "SSubscribe",
    "Unsubscribe",
    "PUNSUBSCRIBE",
    "sunsubscribE",
];

#[test]
fn a_subscription_whose_reply_is_waited_for(rt: HostRuntime) {
    let refused = "a subscription has no reply: set_no_response, then next_push - Client";
    for name in SUBSCRIPTIONS {
        let subscription = command(rt.alloc(), &[*name, "news"]).expect(&rt, "memory");
        assert!(rt; subscription.is_unanswered());
        let mut link = link(&rt, b":7\r\n");
        assert_answer(&rt, subscription.query::<Value>(&mut link), refused);
        assert_answer(&rt, link.req_command(&subscription), refused);
        assert_ping(&rt, &mut link, "7");
        let (_source, sink) = link.into_ends();
        assert!(rt; sink.into_inner().as_slice() == b"*1\r\n$4\r\nPING\r\n".as_slice());
    }
}

#[test]
fn a_subscription_whose_reply_is_not_waited_for(rt: HostRuntime) {
    let mut subscription = command(rt.alloc(), &["SUBSCRIBE", "news"]).expect(&rt, "memory");
    let _ = subscription.set_no_response(true);
    assert!(rt; !subscription.is_unanswered());
    let mut link = link(&rt, b">3\r\n$9\r\nsubscribe\r\n$4\r\nnews\r\n:1\r\n:7\r\n");
    assert_answer(&rt, subscription.query::<Value>(&mut link), "nil");
    assert_answer(&rt, waits(&mut link), SUBSCRIBED);
    assert_ping(&rt, &mut link, "7");
}

/// Waits over any connection that hands out pushes.
fn waits<C: PushSource>(con: &mut C) -> RedisResult<PushInfo> {
    con.next_push()
}

const X: &str = "PushInfo { kind: Other(\"x\"), payload: [] }";

const Y: &str = "PushInfo { kind: Other(\"y\"), payload: [] }";

#[test]
fn pushes_that_were_set_aside_come_first(rt: HostRuntime) {
    let mut link = link(
        &rt,
        b">1\r\n+x\r\n>1\r\n+y\r\n>1\r\n+x\r\n:1\r\n>1\r\n+y\r\n?",
    );
    assert_ping(&rt, &mut link, "1");
    assert_next(&rt, &mut link, &[X]);
    let left = "[PushInfo { kind: Other(\"y\"), payload: [] }, \
        PushInfo { kind: Other(\"x\"), payload: [] }]";
    assert_debug(&rt, link.pushes(), left);
    assert_debug(&rt, &link.take_pushes(), left);
    assert_next(&rt, &mut link, &[Y, "UnknownType", BROKEN]);
}

#[test]
fn pushes_of_a_broken_link(rt: HostRuntime) {
    let mut link = link(&rt, b">1\r\n+x\r\n>1\r\n+y\r\n?");
    assert_ping(&rt, &mut link, "UnknownType");
    assert_next(&rt, &mut link, &[X, Y, BROKEN]);
}

/// A link that sets so many bytes of pushes aside.
fn limited(rt: &impl Test, incoming: &[u8], pushes: usize) -> MemoryLink {
    let incoming = Vec::from_slice(rt.alloc(), incoming).expect(rt, "memory");
    let limits = Limits {
        pushes,
        ..Limits::default()
    };
    let sent = Vec::new(rt.alloc());
    ByteLink::with_limits(rt.alloc(), Cursor::new(incoming), sent, limits).expect(rt, "limits")
}

/// Three pushes of 8 bytes, and replies.
const LIMITED: &[u8] = b">1\r\n+x\r\n>1\r\n+y\r\n:1\r\n>1\r\n+x\r\n:2\r\n";

#[test]
fn a_push_that_is_waited_for_needs_no_room(rt: HostRuntime) {
    let mut link = limited(&rt, LIMITED, 0);
    assert_next(&rt, &mut link, &[X, Y]);
    assert_ping(&rt, &mut link, "1");
    assert_ping(&rt, &mut link, "TooManyPushes");
}

#[test]
fn the_last_push_leaves_room_for_others(rt: HostRuntime) {
    let mut link = limited(&rt, LIMITED, 16);
    assert_ping(&rt, &mut link, "1");
    assert_next(&rt, &mut link, &[X, Y]);
    assert_ping(&rt, &mut link, "2");
    let mut link = limited(&rt, LIMITED, 16);
    assert_ping(&rt, &mut link, "1");
    assert_next(&rt, &mut link, &[X]);
    assert_ping(&rt, &mut link, "TooManyPushes");
    assert_next(&rt, &mut link, &[Y, BROKEN]);
}

#[test]
fn a_source_that_fails_while_a_push_is_waited_for(rt: HostRuntime) {
    for at in [1, 2] {
        let reader = Device::failing(rt.alloc(), PUSH, 9, at, Some(ErrorKind::TimedOut));
        let mut link = ByteLink::new(rt.alloc(), reader, Vec::new(rt.alloc()));
        assert_next(&rt, &mut link, &["TimedOut", BROKEN]);
    }
}
