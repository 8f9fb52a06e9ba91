//! Types of replies: comparisons, calls of their own, and conversions that no row asks for; laws.

use crate::checks::{Test, assert_debug, assert_equal, both, reply};
use resp_core::laws::{
    law_of_completion, law_of_equal_errors, law_of_error_texts, law_of_levels, law_of_limits,
    law_of_packing, law_of_pipelines, law_of_prefixes, law_of_requests, law_of_scans, law_of_sizes,
    law_of_taking,
};
use resp_core::{
    FromRedisValue, IncrexResult, InfoDict, IntegerReplyOrNoOp, Role, Value, ValueType,
};
use std::collections::{BTreeSet, HashMap, HashSet};

#[test]
fn integers_are_compared_exactly(rt: HostRuntime) {
    let longest = IntegerReplyOrNoOp::IntegerReply(9223372036854775808);
    let long = IntegerReplyOrNoOp::IntegerReply(4294967297);
    assert!(rt; longest.raw().is_none() && long.raw() == Some(4294967297));
    assert!(rt; !long.eq_i32(1) && !long.eq_u32(1));
    assert!(rt; long.eq_usize(4294967297) && long.eq_isize(4294967297));
    let gone = IntegerReplyOrNoOp::NotExists;
    assert!(rt; gone.eq_isize(-2) && gone.eq_i32(-2) && !gone.eq_i32(-1));
    assert!(rt; !gone.eq_usize(0) && !gone.eq_usize(18446744073709551614));
    assert!(rt; !gone.eq_u32(4294967294));
    assert_eq!(rt; IntegerReplyOrNoOp::ExistsButNotRelevant.raw(), Some(-1));
}

/// The parts of an increment's reply: both as integers, and each as a byte.
fn parts(rt: &impl Test, bytes: &[u8]) -> (Option<(i64, i64)>, Option<u8>, Option<u8>) {
    let alloc = rt.alloc();
    let parts = IncrexResult::from_redis_value(alloc, reply(rt, bytes)).expect(rt, "an increment");
    let bytes = (
        parts.value_as(alloc).ok(),
        parts.actual_increment_as(alloc).ok(),
    );
    (parts.as_i64(alloc).ok(), bytes.0, bytes.1)
}

#[test]
fn increments(rt: HostRuntime) {
    for (bytes, wanted) in [
        ("*2\r\n:5\r\n:2\r\n", (Some((5, 2)), Some(5), Some(2))),
        ("*2\r\n:300\r\n+7\r\n", (Some((300, 7)), None, Some(7))),
        ("*2\r\n_\r\n:0\r\n", (None, None, Some(0))),
    ] {
        assert_eq!(rt; parts(&rt, bytes.as_bytes()), wanted, "{bytes}");
    }
}

/// The type has this name and equals its copy.
fn copies_name(rt: &impl Test, read: &ValueType, name: &str) {
    assert_equal(rt, read.try_clone(rt.alloc()), read);
    assert_eq!(rt; read.name(), name);
}

/// The increment equals its copy.
fn copies_increment(rt: &impl Test, both: &IncrexResult) {
    assert_equal(rt, both.try_clone(rt.alloc()), both);
}

/// The role equals its copy.
fn copies_role(rt: &impl Test, role: &Role) {
    assert_equal(rt, role.try_clone(rt.alloc()), role);
}

/// The reply's bytes as a value of a type.
fn read_as<T: FromRedisValue>(rt: &impl Test, bytes: &[u8]) -> T {
    T::from_redis_value(rt.alloc(), reply(rt, bytes)).expect(rt, "no refusal")
}

#[test]
fn copies_of_types(rt: HostRuntime) {
    copies_name(&rt, &unknown_type(&rt), "xyz");
    copies_increment(&rt, &read_as(&rt, b"*2\r\n:5\r\n_\r\n"));
    copies_role(&rt, &read_as(&rt, b"*2\r\n$8\r\nsentinel\r\n*0\r\n"));
}

/// A type that the library has no name for.
fn unknown_type(rt: &impl Test) -> ValueType {
    ValueType::read(rt.alloc(), "xyz").expect(rt, "memory")
}

#[test]
fn entries_of_info(rt: HostRuntime) {
    let (info, _): (InfoDict, _) = both(&rt, b"|0\r\n|0\r\n=22\r\ntxt:a:b\nclients:7\nc:x\n\r\n");
    let copy = info.try_clone(rt.alloc()).expect(&rt, "memory");
    assert!(rt; copy.len() == 3 && !copy.is_empty() && copy.as_map().len() == 3);
    assert!(rt; copy.contains_key(&"c") && !copy.contains_key(&"b"));
    assert_debug(&rt, &copy.find(&"a"), "Some(simple-string(\"b\"))");
    for (key, wanted) in [("clients", Some(7u64)), ("c", None), ("gone", None)] {
        let found = info.get(rt.alloc(), key).expect(&rt, "memory");
        assert_eq!(rt; found, wanted, "{key}");
    }
}

#[test]
fn hashed_containers_of_several(rt: HostRuntime) {
    let (map, _): (HashMap<i64, i64>, _) = both(&rt, b"%2\r\n:1\r\n:5\r\n:2\r\n:6\r\n");
    assert!(rt; map.len() == 2 && map.get(&1) == Some(&5) && map.get(&2) == Some(&6));
    let (set, _): (HashSet<i64>, _) = both(&rt, b"~3\r\n:2\r\n:1\r\n:2\r\n");
    assert!(rt; set.len() == 2 && set.contains(&1) && set.contains(&2));
}

#[test]
fn lists_and_refusals_of_replies(rt: HostRuntime) {
    let values = [Value::Int(1), Value::Int(2)];
    let numbers = i64::from_redis_value_refs(rt.alloc(), values.as_slice());
    assert_eq!(rt;
        numbers.expect(&rt, "numbers").as_slice(),
        [1, 2].as_slice()
    );
    let items = reply(&rt, b"*2\r\n:1\r\n:2\r\n");
    let pairs = BTreeSet::<(i64, i64)>::from_redis_value(rt.alloc(), items);
    assert!(rt; pairs.is_err());
    let refused = <()>::from_redis_value(rt.alloc(), reply(&rt, b"-ERR x\r\n")).err();
    assert_eq!(rt;
        refused.expect(&rt, "a refusal").description(),
        "ResponseError: x"
    );
}

#[test]
fn pairs_of_borrowed_replies(rt: HostRuntime) {
    let values = [Value::Int(1), Value::Int(2)];
    let pairs = <(i64, i64)>::from_redis_value_refs(rt.alloc(), values.as_slice());
    assert_eq!(rt; pairs.expect(&rt, "pairs").as_slice(), [(1, 2)].as_slice());
}

#[test]
fn laws_can_be_called() {
    law_of_completion();
    law_of_equal_errors();
    law_of_error_texts();
    law_of_levels();
    law_of_limits();
    law_of_packing();
    law_of_pipelines();
    law_of_prefixes();
    law_of_requests();
    law_of_scans::<i64>();
    law_of_sizes();
    law_of_taking();
}
