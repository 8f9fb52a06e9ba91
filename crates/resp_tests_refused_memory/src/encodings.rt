//! Values that are written: all bytes of one, or none and memory runs out; and as flat replies.

use crate::heap::{Test, made, ran_out, refuse};
use resp_core::{FlatReply, FlatValue, ProtocolVersion, RedisResult, Value, parse_redis_value};
use resp_encode::{as_resp2, encode, encode_reply, encode_tokens, encode_within};

/// Of types that take memory while they are written, and of others.
const REPLY: &[u8] =
    b"*5\r\n-MINE x y\r\n=6\r\nown:xy\r\n>2\r\n$4\r\nmine\r\n:1\r\n%1\r\n+a\r\n,1.5\r\n$-1\r\n";

const IN_RESP3: &[u8] =
    b":1*5\r\n-MINE x y\r\n=6\r\nown:xy\r\n>2\r\n$4\r\nmine\r\n:1\r\n%1\r\n+a\r\n,1.5\r\n_\r\n";

const IN_RESP2: &[u8] =
    b":1*5\r\n-MINE x y\r\n$2\r\nxy\r\n*2\r\n$4\r\nmine\r\n:1\r\n*2\r\n+a\r\n$3\r\n1.5\r\n$-1\r\n";

fn reply(rt: &impl Test, bytes: &[u8]) -> Value {
    parse_redis_value(rt.alloc(), bytes).expect(rt, "no refusal")
}

/// The bytes to which a value is appended.
fn before(rt: &impl Test) -> Vec<u8> {
    Vec::from_slice(rt.alloc(), b":1").expect(rt, "no refusal")
}

/// The value was appended; or memory ran out, and the bytes are as they were.
fn assert_appended(rt: &impl Test, answer: &RedisResult<()>, out: &[u8], wanted: &[u8]) {
    let wanted = if ran_out(rt, answer) { b":1" } else { wanted };
    assert_eq!(rt; out, wanted);
}

#[test]
fn values_in_resp3(rt: HostRuntime) {
    let value = reply(&rt, REPLY);
    let mut out = before(&rt);
    refuse(rt.alloc());
    let answer = encode(&value, ProtocolVersion::RESP3, &mut out);
    assert_appended(&rt, &answer, out.as_slice(), IN_RESP3);
}

#[test]
fn values_in_resp2(rt: HostRuntime) {
    let value = reply(&rt, REPLY);
    let mut out = before(&rt);
    refuse(rt.alloc());
    let answer = encode_within(&value, ProtocolVersion::RESP2, 3, &mut out);
    assert_appended(&rt, &answer, out.as_slice(), IN_RESP2);
}

/// The flat reply of a value.
fn flat_of(rt: &impl Test, bytes: &[u8]) -> FlatReply {
    let mut flat = FlatReply::new(rt.alloc());
    flat.append(&reply(rt, bytes)).expect(rt, "no refusal");
    flat
}

#[test]
fn flat_replies_in_resp3(rt: HostRuntime) {
    let flat = flat_of(&rt, REPLY);
    let mut out = before(&rt);
    refuse(rt.alloc());
    let answer = encode_reply(&flat, ProtocolVersion::RESP3, &mut out);
    assert_appended(&rt, &answer, out.as_slice(), IN_RESP3);
}

#[test]
fn tokens_in_resp2(rt: HostRuntime) {
    let flat = flat_of(&rt, REPLY);
    let tokens = flat.tokens.as_slice();
    let mut out = before(&rt);
    refuse(rt.alloc());
    let answer = encode_tokens(
        tokens,
        flat.text.as_slice(),
        ProtocolVersion::RESP2,
        3,
        &mut out,
    );
    assert_appended(&rt, &answer, out.as_slice(), IN_RESP2);
}

#[test]
fn forms(rt: HostRuntime) {
    let value = reply(&rt, REPLY);
    let wanted = reply(&rt, &IN_RESP2[2..]);
    makes! { rt; as_resp2(rt.alloc(), &value) => wanted }
}

fn flatten(flat: &mut FlatReply, value: &Value) -> RedisResult<()> {
    flat.append(value)?;
    Ok(())
}

#[test]
fn flat_replies(rt: HostRuntime) {
    let value = reply(&rt, REPLY);
    let mut flat = FlatReply::new(rt.alloc());
    refuse(rt.alloc());
    let answer = flatten(&mut flat, &value);
    if !ran_out(&rt, &answer) {
        assert_eq!(rt; flat.tokens.len(), 10);
        assert_eq!(rt; flat.text.as_slice(), b"MINE x yown:xyminea1.5".as_slice());
    }
}

#[test]
fn flat_replies_read_back(rt: HostRuntime) {
    let value = reply(&rt, REPLY);
    let mut flat = FlatReply::new(rt.alloc());
    flat.append(&value).expect(&rt, "no refusal");
    let root: FlatValue<'_> = flat.root().expect(&rt, "a token");
    makes! { rt; flat.to_value(rt.alloc()) => value, root.to_value(rt.alloc()) => value }
}
