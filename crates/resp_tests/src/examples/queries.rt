//! What functions over a connection answer and send: fields and names, a proxy, and two nodes of a
//! cluster. The errors are those of the Redis cluster specification.

use crate::checks::{Test, assert_answer, assert_debug, assert_text, link};
use crate::testing::{MemoryLink, command, sent_text};
use example_snippets::arguments::{fields_of, rename, set_fields};
use example_snippets::proxy::{ClientState, forward, hand_on_pushes, pass_on, relay};
use example_snippets::redirect::query_redirected;
use resp_core::{
    ByteLink, ConnectionLike, ErrorKind, ProtocolVersion, Reading, RedisResult, Value, Writing,
};
use std::alloc::{AllocError, Global};
use std::io::Cursor;

#[test]
fn fields_of_a_hash(rt: HostRuntime) {
    let mut link = link(&rt, b"*2\r\n$1\r\n1\r\n$-1\r\n:3\r\n");
    let found = fields_of(rt.alloc(), &mut link, "h", &["a", "b"]);
    assert_answer(&rt, found, "[Some(\"1\"), None]");
    let set = set_fields(rt.alloc(), &mut link, "h", "ann", &[("x", 5)]);
    assert_answer(&rt, set, "3");
    let wanted = "*4\r\n$5\r\nHMGET\r\n$1\r\nh\r\n$1\r\na\r\n$1\r\nb\r\n\
        *10\r\n$4\r\nHSET\r\n$1\r\nh\r\n$4\r\nname\r\n$3\r\nann\r\n$1\r\nx\r\n$1\r\n5\r\n\
        $6\r\nvisits\r\n$1\r\n1\r\n$5\r\nlevel\r\n$1\r\n2\r\n";
    assert_text(&rt, sent_text(rt.alloc(), link), wanted);
}

#[test]
fn a_pipeline_in_one_chain(rt: HostRuntime) {
    let mut link = link(&rt, b"+OK\r\n$3\r\nAda\r\n:37\r\n");
    let renamed = rename(rt.alloc(), &mut link, "Ada");
    assert_answer(&rt, renamed, "(\"Ada\", 37)");
    let wanted = "*3\r\n$3\r\nSET\r\n$4\r\nname\r\n$3\r\nAda\r\n\
        *2\r\n$3\r\nGET\r\n$4\r\nname\r\n*2\r\n$4\r\nINCR\r\n$3\r\nage\r\n";
    assert_text(&rt, sent_text(rt.alloc(), link), wanted);
}

/// The proxy forwards these bytes and answers this.
fn assert_forwarded(rt: &impl Test, upstream: &mut MemoryLink, bytes: &[u8], wanted: &str) {
    let reply = forward(upstream, bytes).ok();
    assert_debug::<Option<Value>>(rt, &reply, wanted);
}

#[test]
fn a_proxy_forwards_commands_and_replies(rt: HostRuntime) {
    let mut upstream = link(&rt, b":7\r\n-ERR x\r\n");
    let incr = b"*2\r\n$4\r\nINCR\r\n$1\r\nk\r\n";
    assert_forwarded(&rt, &mut upstream, incr, "Some(int(7))");
    let error = "Some(Server error: `ERR: x`)";
    assert_forwarded(&rt, &mut upstream, b"inline\r\n", error);
    assert_forwarded(&rt, &mut upstream, b"", "None");
    let sent = sent_text(rt.alloc(), upstream);
    assert_text(&rt, sent, "*2\r\n$4\r\nINCR\r\n$1\r\nk\r\ninline\r\n");
}

#[test]
fn a_proxy_between_two_versions(rt: HostRuntime) {
    let mut upstream = link(&rt, b"%1\r\n+a\r\n#t\r\n*1\r\n$-1\r\n!4\r\nE\r\nx\r\n");
    let mut replies = Vec::new(rt.alloc());
    for protocol in [ProtocolVersion::RESP2, ProtocolVersion::RESP3] {
        let relayed = relay(&mut upstream, GET.as_bytes(), protocol, &mut replies);
        relayed.expect(&rt, "a reply");
    }
    let refused = relay(
        &mut upstream,
        GET.as_bytes(),
        ProtocolVersion::RESP2,
        &mut replies,
    );
    assert!(&rt; refused.is_err());
    assert_eq!(&rt;
        replies.as_slice(),
        b"*2\r\n+a\r\n:1\r\n*1\r\n_\r\n".as_slice()
    );
}

/// What a client of this version is sent for two requests and the pushes around their replies.
fn client_is_sent(rt: &impl Test, incoming: &str, protocol: ProtocolVersion) -> Vec<u8> {
    let mut upstream = link(rt, incoming.as_bytes());
    let mut replies = Vec::new(rt.alloc());
    for _ in 0..2 {
        relay(&mut upstream, GET.as_bytes(), protocol, &mut replies).expect(rt, "a reply");
        hand_on_pushes(&mut upstream, protocol, &mut replies).expect(rt, "memory");
        assert!(rt; upstream.pushes().is_empty());
    }
    replies
}

#[test]
fn a_proxy_hands_pushes_on(rt: HostRuntime) {
    let of_resp3 = "$1\r\na\r\n>2\r\n$10\r\ninvalidate\r\n*1\r\n$1\r\nx\r\n\
        >3\r\n$7\r\nmessage\r\n$4\r\nnews\r\n_\r\n%1\r\n+a\r\n#t\r\n";
    let of_resp2 = "$-1\r\n*2\r\n:1\r\n*-1\r\n";
    for (incoming, protocol, wanted) in [
        (
            of_resp3,
            ProtocolVersion::RESP3,
            "$1\r\na\r\n%1\r\n+a\r\n#t\r\n>2\r\n$10\r\ninvalidate\r\n*1\r\n$1\r\nx\r\n\
            >3\r\n$7\r\nmessage\r\n$4\r\nnews\r\n_\r\n",
        ),
        (
            of_resp3,
            ProtocolVersion::RESP2,
            "$1\r\na\r\n*2\r\n+a\r\n:1\r\n",
        ),
        (of_resp2, ProtocolVersion::RESP3, "_\r\n*2\r\n:1\r\n_\r\n"),
    ] {
        let sent = client_is_sent(&rt, incoming, protocol);
        assert_eq!(&rt; sent.as_slice(), wanted.as_bytes());
    }
}

/// A client of a proxy in RESP3, in no transaction.
const CLIENT: ClientState = ClientState {
    protocol: ProtocolVersion::RESP3,
    in_transaction: false,
    is_closed: false,
};

/// What a client is sent for these commands where this comes from the server, and what goes there.
fn assert_passed_on(
    rt: &impl Test,
    commands: &[&[&str]],
    incoming: &str,
    replies: &str,
    sent: &str,
) {
    let mut upstream = link(rt, incoming.as_bytes());
    let mut client = CLIENT;
    let mut shown = Vec::new(rt.alloc());
    for command in commands {
        let mut words = Vec::new(rt.alloc());
        for word in *command {
            let word = Vec::from_slice(rt.alloc(), word.as_bytes());
            words.push(word.expect(rt, "memory")).expect(rt, "memory");
        }
        let passed = pass_on(
            rt.alloc(),
            &mut upstream,
            &mut client,
            words.as_slice(),
            &mut shown,
        );
        passed.expect(rt, "a reply");
        hand_on_pushes(&mut upstream, client.protocol, &mut shown).expect(rt, "memory");
    }
    assert_eq!(rt; shown.as_slice(), replies.as_bytes());
    assert_text(rt, sent_text(rt.alloc(), upstream), sent);
}

/// The server's replies are recorded ones of a redis-server 7.0.15, the greeting cut short.
#[test]
fn a_proxy_refuses_commands_without_a_reply(rt: HostRuntime) {
    let commands: [&[&str]; 6] = [
        &["MONITOR"],
        &["client", "Reply", "OFF"],
        &["SUBSCRIBE"],
        &["PSYNC", "?", "-1"],
        &["CLIENT", "ID"],
        &["QUIT"],
    ];
    assert_passed_on(
        &rt,
        &commands,
        ":7\r\n+OK\r\n",
        "-ERR this proxy doesn't pass on 'MONITOR'\r\n-ERR this proxy doesn't pass on 'client'\r\n\
        -ERR this proxy doesn't pass on 'SUBSCRIBE'\r\n-ERR this proxy doesn't pass on 'PSYNC'\r\n\
        :7\r\n+OK\r\n",
        "*2\r\n$6\r\nCLIENT\r\n$2\r\nID\r\n*1\r\n$4\r\nQUIT\r\n",
    );
}

#[test]
fn a_proxy_passes_subscriptions_on(rt: HostRuntime) {
    let commands: [&[&str]; 7] = [
        &["SUBSCRIBE", "news"],
        &["SUBSCRIBE", "x"],
        &["MULTI"],
        &["SUBSCRIBE", "x"],
        &["RESET"],
        &["SUBSCRIBE", "x"],
        &["HELLO", "3"],
    ];
    assert_passed_on(
        &rt,
        &commands,
        ">3\r\n$9\r\nsubscribe\r\n$4\r\nnews\r\n:1\r\n+PONG\r\n\
        -NOPERM this user has no permissions to run the 'subscribe' command\r\n+PONG\r\n+PONG\r\n\
        +OK\r\n+RESET\r\n%1\r\n$5\r\nproto\r\n:3\r\n",
        ">3\r\n$9\r\nsubscribe\r\n$4\r\nnews\r\n:1\r\n\
        -NOPERM this user has no permissions to run the 'subscribe' command\r\n\
        +OK\r\n-ERR this proxy doesn't pass on 'SUBSCRIBE'\r\n+RESET\r\n\
        -ERR this proxy doesn't pass on 'SUBSCRIBE'\r\n%1\r\n$5\r\nproto\r\n:3\r\n",
        "*2\r\n$9\r\nSUBSCRIBE\r\n$4\r\nnews\r\n*1\r\n$4\r\nPING\r\n\
        *2\r\n$9\r\nSUBSCRIBE\r\n$1\r\nx\r\n*1\r\n$4\r\nPING\r\n*1\r\n$4\r\nPING\r\n\
        *1\r\n$5\r\nMULTI\r\n*1\r\n$5\r\nRESET\r\n*2\r\n$5\r\nHELLO\r\n$1\r\n3\r\n",
    );
}

/// A push, one that is nested a hundred levels deep, and a reply.
fn deep_push(alloc: Global) -> Result<Vec<u8>, AllocError> {
    let mut incoming = Vec::from_slice(alloc, b">2\r\n+invalidate\r\n:1\r\n>2\r\n+x\r\n")?;
    for _ in 0..100 {
        incoming.extend_from_slice(b"*1\r\n")?;
    }
    incoming.extend_from_slice(b":1\r\n+OK\r\n")?;
    Ok(incoming)
}

/// A link that reads more levels than can be sent on, on which these bytes come in.
fn deep_link(rt: &impl Test, incoming: Vec<u8>) -> MemoryLink {
    let source = Reading::new(Cursor::new(incoming));
    let sink = Writing::new(Vec::new(rt.alloc()));
    let made = ByteLink::over_with_depth_limit(rt.alloc(), source, sink, 1000);
    made.expect(rt, "a limit")
}

/// The call was refused as the client's own fault.
fn is_refused(rt: &impl Test, answer: RedisResult<()>) {
    match answer {
        Ok(()) => assert_eq!(rt; "handed on", "refused"),
        Err(error) => assert_eq!(rt; error.kind(), ErrorKind::Client),
    }
}

/// The pushes around a reply can't be handed on, and none of them is kept.
fn loses_pushes(rt: &impl Test, upstream: &mut MemoryLink, replies: &mut Vec<u8>) {
    let protocol = ProtocolVersion::RESP3;
    relay(upstream, GET.as_bytes(), protocol, replies).expect(rt, "a reply");
    is_refused(rt, hand_on_pushes(upstream, protocol, replies));
    assert!(rt; upstream.pushes().is_empty());
}

#[test]
fn a_push_without_bytes_is_lost(rt: HostRuntime) {
    let incoming = deep_push(rt.alloc()).expect(&rt, "memory");
    let mut upstream = deep_link(&rt, incoming);
    let mut replies = Vec::new(rt.alloc());
    loses_pushes(&rt, &mut upstream, &mut replies);
    assert_eq!(&rt; replies.as_slice(), b"+OK\r\n".as_slice());
}

const GET: &str = "*2\r\n$3\r\nGET\r\n$1\r\nx\r\n";

const ASKING_AND_GET: &str = "*1\r\n$6\r\nASKING\r\n*2\r\n$3\r\nGET\r\n$1\r\nx\r\n";

#[test]
fn answers_of_two_nodes(rt: HostRuntime) {
    let command = command(rt.alloc(), &["GET", "x"]).expect(&rt, "memory");
    let moved = "-MOVED 3999 127.0.0.1:6381\r\n";
    for (first, second, answer, request) in [
        (":7\r\n", "", Some(7), ""),
        (moved, ":8\r\n", Some(8), GET),
        (
            "-ASK 3999 127.0.0.1:6381\r\n",
            "+OK\r\n:9\r\n",
            Some(9),
            ASKING_AND_GET,
        ),
        (moved, "-MOVED 3999 127.0.0.1:6380\r\n", None, GET),
        ("-MOVED somewhere\r\n", "", None, ""),
        ("-CLUSTERDOWN x\r\n", "", None, ""),
    ] {
        let (mut home, mut node) = (link(&rt, first.as_bytes()), link(&rt, second.as_bytes()));
        let found = query_redirected::<i64>(rt.alloc(), &command, &mut home, &mut node);
        assert_eq!(rt; found.ok(), answer, "{first}");
        assert_text(&rt, sent_text(rt.alloc(), home), GET);
        assert_text(&rt, sent_text(rt.alloc(), node), request);
    }
}
