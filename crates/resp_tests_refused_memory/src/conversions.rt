//! Conversions of replies: each gives the whole value, or memory runs out.

use crate::heap::{Test, made, refuse, shows};
use resp_core::{
    DoubleText, FlatReply, FromRedisValue, IncrexResult, Items, ParsingError, RedisError,
    RedisResult, ReplicaInfo, Reply, Role, Text, Value, ValueType, from_flat_reply,
    from_redis_value, from_redis_value_by, from_redis_value_ref, parse_redis_value,
};
use std::boxed::BoxedSlice;
use std::collections::{BTreeMap, BTreeSet, HashMap, HashSet};
use std::fmt::Debug;
use std::rc::Rc;

fn value_of(rt: &impl Test, reply: &[u8]) -> Value {
    parse_redis_value(rt.alloc(), reply).expect(rt, "no refusal")
}

/// The conversion answered what shows like this, or memory ran out in it.
fn converted<T: Debug + Drop>(rt: &impl Test, answer: Result<T, ParsingError>, wanted: &str) {
    shows(rt, answer.map_err(RedisError::from), wanted);
}

/// The reply converts to what shows like this, by value, by reference, and in its flat form.
fn converts<T: FromRedisValue + Debug>(rt: &impl Test, reply: &[u8], wanted: &str) {
    converts_flat::<T>(rt, reply, wanted);
    converts_moved::<T>(rt, value_of(rt, reply), wanted);
    let borrowed = value_of(rt, reply);
    converts_borrowed::<T>(rt, &borrowed, wanted);
    assert!(rt; borrowed == value_of(rt, reply));
}

/// The value converts to what shows like this.
fn converts_moved<T: FromRedisValue + Debug>(rt: &impl Test, moved: Value, wanted: &str) {
    refuse(rt.alloc());
    converted(rt, from_redis_value::<T>(rt.alloc(), moved), wanted);
}

/// The borrowed value converts to what shows like this.
fn converts_borrowed<T: FromRedisValue + Debug>(rt: &impl Test, borrowed: &Value, wanted: &str) {
    refuse(rt.alloc());
    converted(rt, from_redis_value_ref::<T>(rt.alloc(), borrowed), wanted);
}

/// The flat form of a reply converts to what shows like this.
fn converts_flat<T: FromRedisValue + Debug>(rt: &impl Test, reply: &[u8], wanted: &str) {
    let mut flat = FlatReply::new(rt.alloc());
    flat.append(&value_of(rt, reply)).expect(rt, "no refusal");
    refuse(rt.alloc());
    converted(rt, from_flat_reply::<T>(rt.alloc(), &flat), wanted);
    let root = flat.root().expect(rt, "a token");
    refuse(rt.alloc());
    converted(rt, T::from_reply(rt.alloc(), root), wanted);
}

const ABC: &[u8] = b"$3\r\nabc\r\n";

const TEXTS: &[u8] = b"*3\r\n+a\r\n:12\r\n$3\r\nabc\r\n";

const NUMBERS: &[u8] = b"*4\r\n:1\r\n:2\r\n:3\r\n:4\r\n";

const PAIRS: &[u8] = b"%2\r\n+a\r\n:1\r\n+b\r\n:2\r\n";

#[test]
fn single_values(rt: HostRuntime) {
    converts::<String>(&rt, ABC, "Ok(\"abc\")");
    converts::<Text>(&rt, ABC, "Ok(\"abc\")");
    converts::<Option<String>>(&rt, b":12\r\n", "Ok(Some(\"12\"))");
    converts::<Value>(&rt, ABC, "Ok(bulk-string('\"abc\"'))");
    converts::<Box<i64>>(&rt, b":5\r\n", "Ok(5)");
    converts::<Rc<String>>(&rt, ABC, "Ok(\"abc\")");
    converts::<RedisResult<String>>(&rt, b":12\r\n", "Ok(Ok(\"12\"))");
    converts::<RedisResult<i64>>(&rt, b"-MINE x\r\n", "Ok(Err(\"MINE\": x))");
    converts::<()>(&rt, ABC, "Ok(())");
    converts::<()>(&rt, b"-MINE x\r\n", "Err(Incompatible type - \"MINE\": x)");
}

#[test]
fn lists(rt: HostRuntime) {
    converts::<Vec<String>>(&rt, TEXTS, "Ok([\"a\", \"12\", \"abc\"])");
    converts::<Vec<i64>>(&rt, NUMBERS, "Ok([1, 2, 3, 4])");
    converts::<Vec<u8>>(&rt, ABC, "Ok([97, 98, 99])");
    converts::<Vec<(i64, i64)>>(&rt, NUMBERS, "Ok([(1, 2), (3, 4)])");
    converts::<Vec<(String, i64)>>(&rt, PAIRS, "Ok([(\"a\", 1), (\"b\", 2)])");
    converts::<Items<i64>>(&rt, NUMBERS, "Ok([1, 2, 3, 4])");
    converts::<BoxedSlice<i64>>(&rt, NUMBERS, "Ok([1, 2, 3, 4])");
    converts::<[i64; 4]>(&rt, NUMBERS, "Ok([1, 2, 3, 4])");
}

#[test]
fn tuples_maps_and_sets(rt: HostRuntime) {
    converts::<(String, i64, String)>(&rt, TEXTS, "Ok((\"a\", 12, \"abc\"))");
    converts::<(i64, Vec<i64>)>(&rt, b"*2\r\n:1\r\n*2\r\n:2\r\n:3\r\n", "Ok((1, [2, 3]))");
    converts::<BTreeMap<String, i64>>(&rt, PAIRS, "Ok({\"a\": 1, \"b\": 2})");
    converts::<BTreeSet<i64>>(&rt, NUMBERS, "Ok({1, 2, 3, 4})");
    converts::<HashMap<String, i64>>(&rt, b"%1\r\n+a\r\n:1\r\n", "Ok({\"a\": 1})");
    converts::<HashSet<String>>(&rt, b"~1\r\n+a\r\n", "Ok({\"a\"})");
}

const MASTER: &[u8] = b"*3\r\n$6\r\nmaster\r\n:3129659\r\n\
    *1\r\n*3\r\n$9\r\n127.0.0.1\r\n$4\r\n9001\r\n$7\r\n3129242\r\n";

const IS_MASTER: &str = "Ok(Primary { replication_offset: 3129659, replicas: \
    [ReplicaInfo { ip: \"127.0.0.1\", port: 9001, replication_offset: 3129242 }] })";

const REPLICA: &[u8] = b"*3\r\n$1\r\na\r\n$1\r\n5\r\n$1\r\n7\r\n";

const IS_REPLICA: &str = "Ok(ReplicaInfo { ip: \"a\", port: 5, replication_offset: 7 })";

const INCREASED: &str = "Ok(IncrexResult { value: int(5), actual_increment: int(2) })";

#[test]
fn replies_of_single_commands(rt: HostRuntime) {
    converts::<Role>(&rt, MASTER, IS_MASTER);
    converts::<ReplicaInfo>(&rt, REPLICA, IS_REPLICA);
    converts::<ValueType>(&rt, b"+zset\r\n", "Ok(ZSet)");
    converts::<DoubleText>(&rt, b"$3\r\n1.5\r\n", "Ok(DoubleText(1.5))");
    converts::<IncrexResult>(&rt, b"*2\r\n:5\r\n:2\r\n", INCREASED);
}

/// The items of an array.
fn items_of(rt: &impl Test, reply: &[u8]) -> Vec<Value> {
    let items = value_of(rt, reply).into_sequence(rt.alloc());
    items.expect(rt, "an array")
}

#[test]
fn what_a_cursor_stands_at(rt: HostRuntime) {
    let mut flat = FlatReply::new(rt.alloc());
    flat.append(&value_of(&rt, ABC)).expect(&rt, "no refusal");
    let root = flat.root().expect(&rt, "a token");
    refuse(rt.alloc());
    converted(&rt, root.into_text(rt.alloc()), "Ok(\"abc\")");
    refuse(rt.alloc());
    converted(
        &rt,
        root.into_value(rt.alloc()),
        "Ok(bulk-string('\"abc\"'))",
    );
}

/// The conversions of a type, by its own functions.
#[test]
fn by_the_types_functions(rt: HostRuntime) {
    let alloc = rt.alloc();
    let (moved, borrowed) = (value_of(&rt, ABC), value_of(&rt, ABC));
    makes! { rt;
        String::from_redis_value_ref(alloc, &borrowed) => "abc",
        String::from_redis_value(alloc, moved) => "abc",
    }
}

/// Lists that the type makes of several replies.
#[test]
fn several_replies(rt: HostRuntime) {
    let alloc = rt.alloc();
    let replies = items_of(&rt, TEXTS);
    makes! { rt;
        String::from_redis_value_refs(alloc, replies.as_slice()) => ["a", "12", "abc"],
        String::from_redis_values(alloc, replies) => ["a", "12", "abc"],
    }
}

/// The answers that the type makes of several replies.
#[test]
fn each_of_several_replies(rt: HostRuntime) {
    let replies = items_of(&rt, TEXTS);
    refuse(rt.alloc());
    let each = String::from_each_redis_values(rt.alloc(), replies).map_err(RedisError::from);
    shows(&rt, each, "Ok([Ok(\"a\"), Ok(\"12\"), Ok(\"abc\")])");
}

#[test]
fn by_way_of_another_type(rt: HostRuntime) {
    let alloc = rt.alloc();
    let numbers = value_of(&rt, NUMBERS);
    makes! { rt; from_redis_value_by::<Vec<i64>, Items<i64>>(alloc, numbers) => [1, 2, 3, 4] }
}

/// The bytes of a bulk string.
fn digits(rt: &impl Test) -> Vec<u8> {
    Vec::from_slice(rt.alloc(), b"42").expect(rt, "no refusal")
}

#[test]
fn owned_bytes(rt: HostRuntime) {
    let alloc = rt.alloc();
    let (text, bytes) = (digits(&rt), digits(&rt));
    makes! { rt;
        String::from_byte_vec(alloc, text) => ["42"],
        u8::from_byte_vec(alloc, bytes) => b"42",
    }
}

#[test]
fn bytes(rt: HostRuntime) {
    let alloc = rt.alloc();
    makes! { rt;
        String::from_byte_slice(alloc, b"42") => Some(["42"].as_slice()),
        u8::from_byte_slice(alloc, b"42") => Some(b"42".as_slice()),
    }
}
