//! Flat replies that are read back, or looked at where they are; and tokens that are no reply.

use crate::checks::{Test, assert_answer, assert_equal, reply, text, token};
use resp_core::{
    FlatElements, FlatPairs, FlatParser, FlatReply, FlatValue, Items, Limits, PushKind,
    RedisResult, Token, TokenKind, Value, VerbatimFormat,
};
use std::alloc::Global;

const REFUSED: &str = "the tokens and the text are no value's - Client";

/// Replies of all types, as a server may send them.
const REPLIES: &[&[u8]] = &[
    b"_\r\n",
    b"$-1\r\n",
    b"+OK\r\n",
    b"+\r\n",
    b"+a line\r\n",
    b":-9223372036854775808\r\n",
    b"$0\r\n\r\n",
    b"$3\r\n\xFF\x00\r\r\n",
    b"-ERR unknown command\r\n",
    b"-MINE\r\n",
    b"-MINE  two spaces \r\n",
    b"!5\r\nERR\r\n\r\n",
    b"#t\r\n",
    b"#f\r\n",
    b", 1.5\r\n",
    b",inf\r\n",
    b"(3492890328409238509324850943850943825024385\r\n",
    b"=6\r\ntxt:ab\r\n",
    b"=9\r\nown:a:b\xC2\xA9\r\n",
    b"=1\r\n:\r\n",
    b"*0\r\n",
    b"*3\r\n:1\r\n*2\r\n$1\r\na\r\n*0\r\n_\r\n",
    b"~2\r\n+a\r\n~1\r\n:7\r\n",
    b"%0\r\n",
    b"%2\r\n+a\r\n%1\r\n:1\r\n:2\r\n*1\r\n:3\r\n$1\r\nb\r\n",
    b"|1\r\n+ttl\r\n:3600\r\n*1\r\n|0\r\n:3\r\n",
    b">0\r\n",
    b">1\r\n$7\r\nmessage\r\n",
    b">3\r\n+mine\r\n*1\r\n:1\r\n#t\r\n",
];

fn flat(rt: &impl Test, value: &Value) -> FlatReply {
    let mut flat = FlatReply::new(rt.alloc());
    flat.append(value).expect(rt, "memory");
    flat
}

/// The same of bytes.
fn flat_of(rt: &impl Test, bytes: &[u8]) -> FlatReply {
    flat(rt, &reply(rt, bytes))
}

#[test]
fn replies_are_read_back(rt: HostRuntime) {
    for bytes in REPLIES {
        let value = reply(&rt, bytes);
        let flat = flat(&rt, &value);
        assert_equal(&rt, flat.to_value(rt.alloc()), &value);
        let root = flat.root().expect(&rt, "a token");
        assert_equal(&rt, root.to_value(rt.alloc()), &value);
    }
}

/// A list in a list, so many levels deep.
fn nest(rt: &impl Test, lists: usize) -> Value {
    let mut value = Value::Nil;
    for _ in 0..lists {
        let mut elements = Items::new(rt.alloc());
        elements.push(value).expect(rt, "memory");
        value = Value::Array(elements);
    }
    value
}

#[test]
fn a_thousand_levels(rt: HostRuntime) {
    let deepest = nest(&rt, 999);
    assert_equal(&rt, flat(&rt, &deepest).to_value(rt.alloc()), &deepest);
    let deeper = flat(&rt, &nest(&rt, 1_000));
    assert_answer(&rt, deeper.to_value(rt.alloc()), REFUSED);
}

/// The reply of these tokens and this text.
fn made(rt: &impl Test, tokens: &[Token], text: &[u8]) -> FlatReply {
    FlatReply {
        tokens: Vec::from_slice(rt.alloc(), tokens).expect(rt, "memory"),
        text: Vec::from_slice(rt.alloc(), text).expect(rt, "memory"),
    }
}

#[test]
fn tokens_written_by_hand(rt: HostRuntime) {
    let tokens = [
        token(TokenKind::Push, 3, 0, 0),
        token(TokenKind::BulkString, 4, 0, 0),
        token(TokenKind::Int, 0, -7, 4),
        token(TokenKind::VerbatimString, 7, 0, 4),
    ];
    let flat = made(&rt, &tokens, b"minetxt:a:b");
    let mut payload = Items::new(rt.alloc());
    payload.push(Value::Int(-7)).expect(&rt, "memory");
    payload
        .push(Value::VerbatimString {
            format: VerbatimFormat::Text,
            text: text(&rt, "a:b"),
        })
        .expect(&rt, "memory");
    let wanted = Value::Push {
        kind: PushKind::Other(text(&rt, "mine")),
        payload,
    };
    assert_equal(&rt, flat.to_value(rt.alloc()), &wanted);
}

fn assert_refused(rt: &impl Test, tokens: &[Token], text: &[u8]) {
    let flat = made(rt, tokens, text);
    assert_answer(rt, flat.to_value(rt.alloc()), REFUSED);
}

#[test]
fn tokens_that_are_no_reply(rt: HostRuntime) {
    const HUGE: usize = usize::MAX;
    assert_refused(&rt, &[], b"");
    assert_refused(&rt, &[token(TokenKind::Nil, 0, 0, 0)], b"a");
    assert_refused(
        &rt,
        &[
            token(TokenKind::Nil, 0, 0, 0),
            token(TokenKind::Nil, 0, 0, 0),
        ],
        b"",
    );
    assert_refused(&rt, &[token(TokenKind::Nil, 1, 0, 0)], b"");
    assert_refused(&rt, &[token(TokenKind::Okay, 0, 1, 0)], b"");
    assert_refused(&rt, &[token(TokenKind::Int, 1, 7, 0)], b"");
    assert_refused(&rt, &[token(TokenKind::Int, 0, 7, 1)], b"");
    assert_refused(&rt, &[token(TokenKind::Boolean, 0, 2, 0)], b"");
    assert_refused(&rt, &[token(TokenKind::BulkString, 2, 0, 0)], b"a");
    assert_refused(&rt, &[token(TokenKind::BulkString, 1, 0, 0)], b"ab");
    assert_refused(&rt, &[token(TokenKind::BulkString, 1, 5, 0)], b"a");
    assert_refused(&rt, &[token(TokenKind::BulkString, HUGE, 0, 1)], b"a");
    assert_refused(&rt, &[token(TokenKind::SimpleString, 1, 0, 0)], b"\xFF");
    assert_refused(&rt, &[token(TokenKind::Double, 1, 0, 0)], b"\xFF");
    assert_refused(&rt, &[token(TokenKind::ServerError, 1, 0, 0)], b"\xFF");
    assert_refused(&rt, &[token(TokenKind::VerbatimString, 3, 0, 0)], b"txt");
    assert_refused(&rt, &[token(TokenKind::Array, 1, 0, 0)], b"");
    assert_refused(&rt, &[token(TokenKind::Set, HUGE, 0, 0)], b"");
    assert_refused(
        &rt,
        &[
            token(TokenKind::Map, HUGE, 0, 0),
            token(TokenKind::Nil, 0, 0, 0),
        ],
        b"",
    );
    assert_refused(&rt, &[token(TokenKind::Attribute, 0, 0, 0)], b"");
    assert_refused(&rt, &[token(TokenKind::Push, 0, 0, 0)], b"");
    assert_refused(
        &rt,
        &[
            token(TokenKind::Push, 1, 0, 0),
            token(TokenKind::SimpleString, 0, 0, 0),
        ],
        b"",
    );
    assert_refused(
        &rt,
        &[
            token(TokenKind::Push, 1, 0, 0),
            token(TokenKind::BulkString, 1, 0, 0),
        ],
        b"\xFF",
    );
}

/// What a cursor says of a value without others inside it.
fn assert_leaf(rt: &impl Test, leaf: FlatValue<'_>, kind: TokenKind, bytes: Option<&[u8]>) {
    assert!(rt; leaf.kind() == kind);
    assert!(rt; leaf.as_bytes() == bytes);
    assert!(rt; leaf.is_empty());
    assert_eq!(rt; leaf.len(), 0);
    assert!(rt; leaf.elements().next().is_none());
    assert!(rt; leaf.pairs().next().is_none());
    assert!(rt; leaf.described().is_none());
}

/// The next of the elements that are left.
fn next_of<'a>(rt: &impl Test, parts: &mut FlatElements<'a>) -> FlatValue<'a> {
    parts.next().expect(rt, "an element")
}

/// The elements are seven leaves.
fn are_leaves(rt: &impl Test, parts: &mut FlatElements<'_>) {
    let nil = next_of(rt, parts);
    assert_leaf(rt, nil, TokenKind::Nil, None);
    assert!(rt; nil.as_int().is_none());
    assert!(rt; nil.as_bool().is_none());
    let int = next_of(rt, parts);
    assert_leaf(rt, int, TokenKind::Int, None);
    assert_eq!(rt; int.as_int(), Some(5));
    let truth = next_of(rt, parts);
    assert_leaf(rt, truth, TokenKind::Boolean, None);
    assert_eq!(rt; truth.as_bool(), Some(true));
    let (error, verbatim) = (next_of(rt, parts), next_of(rt, parts));
    assert_leaf(rt, error, TokenKind::ServerError, Some(b"ERR x y"));
    assert_leaf(rt, verbatim, TokenKind::VerbatimString, Some(b"txt:a"));
    let (bulk, simple) = (next_of(rt, parts), next_of(rt, parts));
    assert_leaf(rt, bulk, TokenKind::BulkString, Some(b"\xFFa"));
    assert!(rt; bulk.as_str().is_none());
    assert!(rt; simple.as_str() == Some("b"));
    assert!(rt; parts.next().is_none());
}

#[test]
fn cursors_at_leaves(rt: HostRuntime) {
    let flat = flat_of(
        &rt,
        b"*7\r\n_\r\n:5\r\n#t\r\n-ERR x y\r\n=5\r\ntxt:a\r\n$2\r\n\xFFa\r\n+b\r\n",
    );
    let root = flat.root().expect(&rt, "a token");
    assert_eq!(rt; root.len(), 7);
    assert!(rt; !root.is_empty());
    are_leaves(&rt, &mut root.elements());
}

/// The next key and its value.
fn next_pair<'a>(rt: &impl Test, pairs: &mut FlatPairs<'a>) -> (FlatValue<'a>, FlatValue<'a>) {
    pairs.next().expect(rt, "a pair")
}

/// The pairs are of an array and a map, and of 6 and a set of two.
fn are_nested(rt: &impl Test, pairs: &mut FlatPairs<'_>) {
    let (key, value) = next_pair(rt, pairs);
    assert!(rt; key.kind() == TokenKind::Array);
    assert!(rt; value.kind() == TokenKind::Map);
    assert_equal(
        rt,
        value.to_value(rt.alloc()),
        &reply(rt, b"%1\r\n:4\r\n:5\r\n"),
    );
    let (key, value) = next_pair(rt, pairs);
    assert_eq!(rt; key.as_int(), Some(6));
    assert_eq!(rt; value.elements().count(), 2);
    assert!(rt; pairs.next().is_none());
}

/// The cursor stands at an attribute with one pair.
fn is_attribute(rt: &impl Test, root: FlatValue<'_>) {
    assert!(rt; root.kind() == TokenKind::Attribute);
    assert_eq!(rt; root.len(), 1);
    let (key, value) = next_pair(rt, &mut root.pairs());
    assert!(rt; key.as_bytes() == Some(b"ttl".as_slice()));
    assert_eq!(rt; value.len(), 2);
}

#[test]
fn cursors_pass_over_what_is_inside(rt: HostRuntime) {
    let flat = flat_of(
        &rt,
        b"|1\r\n+ttl\r\n*2\r\n:1\r\n:2\r\n%2\r\n*1\r\n:3\r\n%1\r\n:4\r\n:5\r\n:6\r\n~2\r\n+a\r\n*0\r\n",
    );
    let root = flat.root().expect(&rt, "a token");
    is_attribute(&rt, root);
    let map = root.described().expect(&rt, "a value");
    assert!(rt; map.kind() == TokenKind::Map);
    are_nested(&rt, &mut map.pairs());
}

#[test]
fn cursors_at_pushes(rt: HostRuntime) {
    let flat = flat_of(&rt, b">3\r\n+message\r\n*1\r\n:1\r\n+a\r\n");
    let push = flat.root().expect(&rt, "a token");
    assert_eq!(rt; push.len(), 3);
    let mut parts = push.elements();
    let kind = parts.next().expect(&rt, "the kind");
    assert!(rt; kind.as_str() == Some("message"));
    let list = parts.next().expect(&rt, "an element");
    assert!(rt; list.kind() == TokenKind::Array);
    let last = parts.next().expect(&rt, "an element");
    assert!(rt; last.as_str() == Some("a"));
    assert!(rt; parts.next().is_none());
}

#[test]
fn cursors_over_no_reply(rt: HostRuntime) {
    let none = FlatReply::new(rt.alloc());
    assert!(&rt; none.root().is_none());
    let huge = [
        token(TokenKind::Array, usize::MAX, 0, 0),
        token(TokenKind::Attribute, usize::MAX, 0, 0),
        token(TokenKind::BulkString, usize::MAX, 0, 9),
    ];
    let flat = made(&rt, &huge, b"a");
    let root = flat.root().expect(&rt, "a token");
    let mut parts = root.elements();
    let attribute = parts.next().expect(&rt, "an element");
    assert!(rt; parts.next().is_none());
    assert!(rt; attribute.described().is_none());
    let bulk = attribute.pairs().next();
    assert!(rt; bulk.is_none());
    assert_answer(&rt, attribute.to_value(rt.alloc()), REFUSED);
}

fn take_a_flat_reply(alloc: Global) -> RedisResult<FlatReply> {
    let mut parser = FlatParser::new(alloc);
    let mut reply = FlatReply::new(alloc);
    parser.feed(b"*2\r\n:1\r\n$5\r\nhello\r\n")?;
    let taken = parser.take_reply(&mut reply)?; // true: three tokens, and the text `hello`
    if taken {
        Ok(reply)
    } else {
        Ok(FlatReply::new(alloc))
    }
}

#[test]
fn parsers_give_flat_replies(rt: HostRuntime) {
    let reply = take_a_flat_reply(rt.alloc()).expect(&rt, "a reply");
    let wanted = [
        token(TokenKind::Array, 2, 0, 0),
        token(TokenKind::Int, 0, 1, 0),
        token(TokenKind::BulkString, 5, 0, 0),
    ];
    assert_eq!(rt; reply.tokens.as_slice(), wanted.as_slice());
    assert_eq!(rt; reply.text.as_slice(), b"hello".as_slice());
}

/// The sum of the integers in the next reply, a list; None while it is incomplete.
fn sum_of(parser: &mut FlatParser, reply: &mut FlatReply) -> RedisResult<Option<i64>> {
    if !parser.take_reply(reply)? {
        return Ok(None);
    }
    let mut sum: i64 = 0;
    if let Some(list) = reply.root() {
        for element in list.elements() {
            sum = sum.saturating_add(element.as_int().unwrap_or(0));
        }
    }
    Ok(Some(sum))
}

#[test]
fn integers_of_a_flat_reply(rt: HostRuntime) {
    let mut parser = fed(&rt, b"*3\r\n:1\r\n*1\r\n:9\r\n:5\r\n*1\r\n");
    let mut flat = FlatReply::new(rt.alloc());
    assert_answer(&rt, sum_of(&mut parser, &mut flat), "Some(6)");
    assert_answer(&rt, sum_of(&mut parser, &mut flat), "None");
}

/// A parser of these bytes.
fn fed(rt: &impl Test, bytes: &[u8]) -> FlatParser {
    let mut parser = FlatParser::new(rt.alloc());
    parser.feed(bytes).expect(rt, "memory");
    parser
}

#[test]
fn a_reply_that_is_not_taken_stays(rt: HostRuntime) {
    let mut flat = flat(&rt, &Value::Int(7));
    let mut parser = fed(&rt, b"*2\r\n+a\r\n+");
    assert_answer(&rt, parser.take_reply(&mut flat), "false");
    assert_equal(&rt, flat.to_value(rt.alloc()), &Value::Int(7));
    parser.feed(b"b\r\n?").expect(&rt, "memory");
    assert_answer(&rt, parser.take_reply(&mut flat), "true");
    let pair = reply(&rt, b"*2\r\n+a\r\n+b\r\n");
    assert_equal(&rt, flat.to_value(rt.alloc()), &pair);
    assert_answer(&rt, parser.take_reply(&mut flat), "UnknownType");
    assert_answer(
        &rt,
        parser.take_reply(&mut flat),
        "Incompatible type - parser has failed",
    );
    assert_equal(&rt, flat.to_value(rt.alloc()), &pair);
}

#[test]
fn what_was_begun_is_gone_on_with(rt: HostRuntime) {
    let whole = reply(&rt, b"%1\r\n$3\r\nkey\r\n*2\r\n:1\r\n_\r\n");
    let mut flat = FlatReply::new(rt.alloc());
    let mut parser = fed(&rt, b"%1\r\n$3\r\nk");
    assert_answer(&rt, parser.take_reply(&mut flat), "false");
    parser
        .feed(b"ey\r\n*2\r\n:1\r\n_\r\n%1\r\n$3\r\nkey\r\n*2\r")
        .expect(&rt, "memory");
    assert_answer(&rt, parser.take_reply(&mut flat), "true");
    assert_equal(&rt, flat.to_value(rt.alloc()), &whole);
    assert_answer(&rt, parser.take_reply(&mut flat), "false");
    parser.feed(b"\n:1\r\n_\r\n").expect(&rt, "memory");
    assert_answer(&rt, parser.take_reply(&mut flat), "true");
    assert_equal(&rt, flat.to_value(rt.alloc()), &whole);
}

#[test]
fn a_thousand_levels_are_taken(rt: HostRuntime) {
    let limits = Limits {
        depth: 1000,
        ..Limits::default()
    };
    let mut parser = FlatParser::with_limits(rt.alloc(), limits).expect(&rt, "limits");
    for _ in 0..999 {
        parser.feed(b"*1\r\n").expect(&rt, "memory");
    }
    parser.feed(b"_\r\n").expect(&rt, "memory");
    let mut flat = FlatReply::new(rt.alloc());
    assert_answer(&rt, parser.take_reply(&mut flat), "true");
    assert_equal(&rt, flat.to_value(rt.alloc()), &nest(&rt, 999));
}
