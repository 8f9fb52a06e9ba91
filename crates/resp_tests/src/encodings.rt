//! Values that are written as a server sends them, or as flat replies: what is refused, and what
//! stands then.

use crate::checks::{Test, assert_equal, assert_text, reply, text, token};
use crate::testing::{answer_text, bytes_text};
use resp_core::{
    Bytes, FlatReply, Items, ProtocolVersion, PushKind, ServerError, Token, TokenKind, Value,
    VerbatimFormat, is_double_text,
};
use resp_encode::{as_resp2, encode, encode_reply, encode_tokens, encode_within};

const REFUSED: &str = "the value has no encoding - Client :1";

/// What is answered where a value of so many levels is appended to `:1`, and what stands then.
fn appended(rt: &impl Test, value: &Value, protocol: ProtocolVersion, depth: usize) -> String {
    let alloc = rt.alloc();
    let mut out = Vec::from_slice(alloc, b":1").expect(rt, "memory");
    let answer = answer_text(alloc, encode_within(value, protocol, depth, &mut out));
    let bytes = bytes_text(alloc, out.as_slice());
    format!(in alloc; "{answer} {bytes}").expect(rt, "memory")
}

fn assert_refused(rt: &impl Test, value: Value) {
    let answer = appended(rt, &value, ProtocolVersion::RESP3, 100);
    assert_text(rt, answer, REFUSED);
}

fn bytes(rt: &impl Test, from: &[u8]) -> Bytes {
    Bytes::from_slice(rt.alloc(), from).expect(rt, "memory")
}

fn push(rt: &impl Test, kind: PushKind) -> Value {
    let payload = Items::new(rt.alloc());
    Value::Push { kind, payload }
}

fn verbatim(rt: &impl Test, format: &str) -> Value {
    Value::VerbatimString {
        format: VerbatimFormat::Unknown(text(rt, format)),
        text: text(rt, "a"),
    }
}

fn extension(rt: &impl Test, code: &str) -> Value {
    Value::ServerError(ServerError::Extension {
        code: text(rt, code),
        detail: None,
    })
}

#[test]
fn texts_that_no_line_holds(rt: HostRuntime) {
    assert_refused(&rt, Value::SimpleString(text(&rt, "a\r\nb")));
    assert_refused(&rt, Value::SimpleString(text(&rt, "OK")));
    assert_refused(&rt, Value::BigNumber(bytes(&rt, b"1\r\n")));
    assert_refused(&rt, Value::BigNumber(bytes(&rt, b"\xFF")));
    assert_refused(&rt, Value::Double(text(&rt, "1.5 ")));
    assert_refused(&rt, Value::Double(text(&rt, "one")));
}

#[test]
fn names_that_stand_for_others(rt: HostRuntime) {
    assert_refused(&rt, verbatim(&rt, "a:b"));
    assert_refused(&rt, verbatim(&rt, "txt"));
    assert_refused(&rt, extension(&rt, "A B"));
    assert_refused(&rt, extension(&rt, "ERR"));
    assert_refused(&rt, push(&rt, PushKind::Disconnection));
    assert_refused(&rt, push(&rt, PushKind::Other(text(&rt, "message"))));
}

#[test]
fn doubles_by_their_texts(rt: HostRuntime) {
    for text in ["1", "-1.5", ".5", "1.", "1e-7", "+InFinity", "-nan"] {
        assert!(&rt; is_double_text(text), "{text}");
    }
    for text in ["", " 1", "1 ", "e1", "1e", "0x1", "infinit", "--1"] {
        assert!(&rt; !is_double_text(text), "{text}");
    }
}

#[test]
fn a_value_below_the_last_level(rt: HostRuntime) {
    let value = reply(&rt, b"*2\r\n:1\r\n*1\r\n:2\r\n");
    let whole = "() :1*2\r\n:1\r\n*1\r\n:2\r\n";
    for protocol in [ProtocolVersion::RESP2, ProtocolVersion::RESP3] {
        assert_text(&rt, appended(&rt, &value, protocol, 0), REFUSED);
        assert_text(&rt, appended(&rt, &value, protocol, 2), REFUSED);
        assert_text(&rt, appended(&rt, &value, protocol, 3), whole);
    }
}

/// Whether a value of so many arrays inside one another is written.
fn is_written(rt: &impl Test, arrays: usize) -> bool {
    let mut value = Value::Int(1);
    for _ in 0..arrays {
        let mut elements = Items::new(rt.alloc());
        elements.push(value).expect(rt, "memory");
        value = Value::Array(elements);
    }
    let mut out = Vec::new(rt.alloc());
    encode(&value, ProtocolVersion::RESP3, &mut out).is_ok()
}

#[test]
fn a_hundred_levels(rt: HostRuntime) {
    assert!(&rt; is_written(&rt, 99));
    assert!(&rt; !is_written(&rt, 100));
}

/// What Redis answers a client of RESP2 where it answers one of RESP3 with the first.
const FORMS: &[(&[u8], &[u8])] = &[
    (b"%1\r\n$1\r\na\r\n:1\r\n", b"*2\r\n$1\r\na\r\n:1\r\n"),
    (b"~1\r\n$1\r\na\r\n", b"*1\r\n$1\r\na\r\n"),
    (
        b"*3\r\n,1.5\r\n(349\r\n#t\r\n",
        b"*3\r\n$3\r\n1.5\r\n$3\r\n349\r\n:1\r\n",
    ),
    (b"*2\r\n=5\r\ntxt:a\r\n_\r\n", b"*2\r\n$1\r\na\r\n$-1\r\n"),
    (b"|1\r\n+k\r\n:1\r\n#f\r\n", b":0\r\n"),
    (
        b">2\r\n$7\r\nmessage\r\n:1\r\n",
        b"*2\r\n$7\r\nmessage\r\n:1\r\n",
    ),
    (b"-ERR x\r\n", b"-ERR x\r\n"),
];

#[test]
fn forms_for_clients_of_resp2(rt: HostRuntime) {
    for (bytes, wanted) in FORMS {
        let value = reply(&rt, bytes);
        assert_equal(&rt, as_resp2(rt.alloc(), &value), &reply(&rt, wanted));
    }
}

#[test]
fn a_flat_reply_has_its_tokens_and_its_text(rt: HostRuntime) {
    let value = reply(&rt, b"%1\r\n+k\r\n>3\r\n+mine\r\n#t\r\n=6\r\ntxt:ab\r\n");
    let mut flat = FlatReply::new(rt.alloc());
    flat.append(&value).expect(&rt, "memory");
    let wanted = [
        token(TokenKind::Map, 1, 0, 0),
        token(TokenKind::SimpleString, 1, 0, 0),
        token(TokenKind::Push, 3, 0, 1),
        token(TokenKind::BulkString, 4, 0, 1),
        token(TokenKind::Boolean, 0, 1, 5),
        token(TokenKind::VerbatimString, 6, 0, 5),
    ];
    assert_eq!(rt; flat.tokens.as_slice(), wanted.as_slice());
    assert_eq!(rt; flat.text.as_slice(), b"kminetxt:ab".as_slice());
}

fn flat_of(rt: &impl Test, bytes: &[u8]) -> FlatReply {
    let mut flat = FlatReply::new(rt.alloc());
    flat.append(&reply(rt, bytes)).expect(rt, "memory");
    flat
}

/// As `appended`, of tokens and a text.
fn appended_tokens(
    rt: &impl Test,
    tokens: &[Token],
    text: &[u8],
    protocol: ProtocolVersion,
    depth: usize,
) -> String {
    let alloc = rt.alloc();
    let mut out = Vec::from_slice(alloc, b":1").expect(rt, "memory");
    let answer = answer_text(
        alloc,
        encode_tokens(tokens, text, protocol, depth, &mut out),
    );
    let bytes = bytes_text(alloc, out.as_slice());
    format!(in alloc; "{answer} {bytes}").expect(rt, "memory")
}

#[test]
fn a_flat_reply_below_the_last_level(rt: HostRuntime) {
    let flat = flat_of(&rt, b"*2\r\n:1\r\n*1\r\n:2\r\n");
    let tokens = flat.tokens.as_slice();
    let whole = "() :1*2\r\n:1\r\n*1\r\n:2\r\n";
    for protocol in [ProtocolVersion::RESP2, ProtocolVersion::RESP3] {
        assert_text(&rt, appended_tokens(&rt, tokens, b"", protocol, 0), REFUSED);
        assert_text(&rt, appended_tokens(&rt, tokens, b"", protocol, 2), REFUSED);
        assert_text(&rt, appended_tokens(&rt, tokens, b"", protocol, 3), whole);
    }
}

/// What is sent for the flat reply of these bytes.
fn sent_flat(rt: &impl Test, bytes: &[u8], protocol: ProtocolVersion) -> Vec<u8> {
    let mut out = Vec::new(rt.alloc());
    encode_reply(&flat_of(rt, bytes), protocol, &mut out).expect(rt, "an encoding");
    out
}

#[test]
fn flat_replies_for_either_client(rt: HostRuntime) {
    for (bytes, wanted) in FORMS {
        let own = sent_flat(&rt, bytes, ProtocolVersion::RESP3);
        assert_eq!(rt; own.as_slice(), *bytes);
        let form = sent_flat(&rt, bytes, ProtocolVersion::RESP2);
        assert_eq!(rt; form.as_slice(), *wanted);
    }
}

/// RESP2 has no bulk errors, and no attributes.
#[test]
fn an_attribute_that_resp2_cannot_spell(rt: HostRuntime) {
    let flat = sent_flat(
        &rt,
        b"|1\r\n+k\r\n!4\r\na\r\nb\r\n:1\r\n",
        ProtocolVersion::RESP2,
    );
    assert_eq!(rt; flat.as_slice(), b":1\r\n".as_slice());
}

fn assert_no_reply(rt: &impl Test, tokens: &[Token], text: &[u8]) {
    for protocol in [ProtocolVersion::RESP2, ProtocolVersion::RESP3] {
        assert_text(
            rt,
            appended_tokens(rt, tokens, text, protocol, 100),
            REFUSED,
        );
    }
}

#[test]
fn tokens_of_no_reply(rt: HostRuntime) {
    let int = token(TokenKind::Int, 0, 7, 0);
    let bulk = token(TokenKind::BulkString, 1, 0, 0);
    assert_no_reply(&rt, &[], b"");
    assert_no_reply(&rt, &[int, int], b"");
    assert_no_reply(&rt, &[int], b"a");
    assert_no_reply(&rt, &[bulk], b"");
    assert_no_reply(&rt, &[token(TokenKind::BulkString, 1, 0, 1)], b"aa");
    assert_no_reply(&rt, &[token(TokenKind::Array, 2, 0, 0), int], b"");
    assert_no_reply(&rt, &[token(TokenKind::Push, 1, 0, 0), int], b"");
    assert_no_reply(&rt, &[token(TokenKind::Boolean, 0, 2, 0)], b"");
}

#[test]
fn tokens_of_texts_that_no_reply_has(rt: HostRuntime) {
    assert_no_reply(&rt, &[token(TokenKind::SimpleString, 1, 0, 0)], b"\xFF");
    assert_no_reply(&rt, &[token(TokenKind::SimpleString, 2, 0, 0)], b"OK");
    assert_no_reply(&rt, &[token(TokenKind::ServerError, 1, 0, 0)], b"\xFF");
    assert_no_reply(&rt, &[token(TokenKind::Double, 1, 0, 0)], b"\xFF");
    assert_no_reply(&rt, &[token(TokenKind::VerbatimString, 1, 0, 0)], b"a");
}
