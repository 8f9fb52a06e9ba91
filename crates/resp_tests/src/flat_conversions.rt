//! Flat replies convert as their values do.

use crate::checks::{Test, assert_text, reply};
use crate::testing::debug_text;
use resp_core::{
    FlatReply, FromRedisValue, Items, RedisResult, Text, Value, from_flat_reply, from_redis_value,
};
use std::collections::{BTreeMap, BTreeSet};
use std::fmt::Debug;

/// Replies of all types, some of which convert to few types.
const REPLIES: &[&[u8]] = &[
    b"_\r\n",
    b"+OK\r\n",
    b":1\r\n",
    b":-129\r\n",
    b"+ 7\r\n",
    b"$2\r\n42\r\n",
    b"$2\r\n\xFF\x00\r\n",
    b"$0\r\n\r\n",
    b"-ERR no\r\n",
    b"#t\r\n",
    b",1.5\r\n",
    b"(3492890328409238509324850943850943825024385\r\n",
    b"=6\r\ntxt:42\r\n",
    b"*0\r\n",
    b"*2\r\n:1\r\n$1\r\n2\r\n",
    b"*2\r\n*2\r\n+a\r\n:1\r\n*2\r\n+b\r\n:2\r\n",
    b"*4\r\n+a\r\n:1\r\n+b\r\n:2\r\n",
    b"*2\r\n_\r\n-ERR x\r\n",
    b"~2\r\n+a\r\n+a\r\n",
    b"%2\r\n+a\r\n:1\r\n+b\r\n:2\r\n",
    b"|1\r\n+ttl\r\n:3600\r\n:5\r\n",
    b"*1\r\n|1\r\n+ttl\r\n:3600\r\n:5\r\n",
    b">2\r\n+message\r\n:1\r\n",
];

/// The flat form of the reply converts as the reply itself does.
fn agrees<T: FromRedisValue + Debug>(rt: &impl Test, bytes: &[u8]) {
    let value = reply(rt, bytes);
    let mut flat = FlatReply::new(rt.alloc());
    flat.append(&value).expect(rt, "memory");
    let from_flat = from_flat_reply::<T>(rt.alloc(), &flat).ok();
    let from_tree = from_redis_value::<T>(rt.alloc(), value).ok();
    let wanted = debug_text(rt.alloc(), &from_tree);
    assert_text(rt, debug_text(rt.alloc(), &from_flat), wanted.as_str());
}

#[test]
fn single_values_convert_alike(rt: HostRuntime) {
    for bytes in REPLIES {
        agrees::<i8>(&rt, bytes);
        agrees::<u64>(&rt, bytes);
        agrees::<bool>(&rt, bytes);
        agrees::<String>(&rt, bytes);
        agrees::<Text>(&rt, bytes);
        agrees::<Value>(&rt, bytes);
        agrees::<Option<i64>>(&rt, bytes);
        agrees::<RedisResult<i64>>(&rt, bytes);
    }
}

#[test]
fn several_values_convert_alike(rt: HostRuntime) {
    for bytes in REPLIES {
        agrees::<Vec<u8>>(&rt, bytes);
        agrees::<Vec<String>>(&rt, bytes);
        agrees::<Items<Option<i64>>>(&rt, bytes);
        agrees::<(i64, i64)>(&rt, bytes);
        agrees::<Vec<(String, i64)>>(&rt, bytes);
        agrees::<BTreeMap<String, i64>>(&rt, bytes);
        agrees::<BTreeSet<String>>(&rt, bytes);
    }
}

#[test]
fn an_empty_flat_reply_is_no_nil(rt: HostRuntime) {
    let flat = FlatReply::new(rt.alloc());
    let answer = from_flat_reply::<Option<i64>>(rt.alloc(), &flat);
    assert_text(&rt, debug_text(rt.alloc(), &answer.is_err()), "true");
}
