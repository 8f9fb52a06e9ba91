//! What calls make: commands, packed bytes, arguments, errors and more, each whole, or memory runs
//! out.

use crate::heap::{Test, made, refuse, shows};
use crate::links::link;
use resp_core::{
    ArgList, Boxed, Bytes, Cmd, DoubleText, IncrexResult, InfoDict, Items, ParsingError, Pipeline,
    RedisError, RedisResult, ServerError, Text, ToRedisArgs, Value, ValueComparison, ValueType,
    cmd, from_redis_value, from_redis_value_ref, pack_command, parse_redis_value, pipe,
};
use std::alloc::Global;
use std::collections::BTreeMap;

/// `GET k`.
pub fn get(rt: &impl Test) -> Cmd {
    let mut get = cmd(rt.alloc(), "GET").expect(rt, "no refusal");
    get.push_arg("k").expect(rt, "no refusal");
    get
}

pub const GET_K: &[u8] = b"*2\r\n$3\r\nGET\r\n$1\r\nk\r\n";

/// `GET k` inside MULTI and EXEC.
const TRANSACTION: &[u8] =
    b"*1\r\n$5\r\nMULTI\r\n*2\r\n$3\r\nGET\r\n$1\r\nk\r\n*1\r\n$4\r\nEXEC\r\n";

/// Longer than the room that a short command has, so that it grows.
pub const LONG: &str = "0123456789012345678901234567890123456789012345678901234567890123456789";

#[test]
fn packed_commands(rt: HostRuntime) {
    let command = get(&rt);
    makes! { rt; command.get_packed_command() => GET_K }
    let args = ("GET", "k").to_redis_args(rt.alloc());
    let args = args.expect(&rt, "no refusal");
    makes! { rt; pack_command(rt.alloc(), args.as_slice()) => GET_K }
}

#[test]
fn packed_pipelines(rt: HostRuntime) {
    let mut pipeline = pipe(rt.alloc());
    pipeline.push_command(get(&rt)).expect(&rt, "no refusal");
    makes! { rt; pipeline.get_packed_pipeline() => GET_K }
    let _ = pipeline.atomic();
    makes! { rt; pipeline.get_packed_pipeline() => TRANSACTION }
}

/// How many arguments a command has.
fn count(command: Cmd) -> usize {
    command.args_iter().len()
}

/// How many commands a pipeline has.
fn commands_of(pipeline: Pipeline) -> usize {
    pipeline.len()
}

/// How many arguments a list has.
fn count_of_list(list: ArgList) -> usize {
    list.len()
}

#[test]
fn commands(rt: HostRuntime) {
    let alloc = rt.alloc();
    makes! { rt;
        cmd(alloc, "GET").map(count) => 1,
        cmd(alloc, LONG).map(count) => 1,
        Cmd::with_capacity(alloc, 100, 1000).map(count) => 0,
        Pipeline::with_capacity(alloc, 10).map(commands_of) => 0,
        ArgList::with_capacity(alloc, 10).map(count_of_list) => 0,
    }
}

/// The value gives these arguments.
fn gives<T: ToRedisArgs>(rt: &impl Test, value: &T, wanted: &[&[u8]]) {
    makes! { rt; value.to_redis_args(rt.alloc()) => wanted }
}

#[test]
fn arguments(rt: HostRuntime) {
    gives(&rt, &"a", &[b"a"]);
    gives(&rt, &12i64, &[b"12"]);
    gives(&rt, &("a", 1i64, Some("b")), &[b"a", b"1", b"b"]);
    let map = BTreeMap::from_array(rt.alloc(), [("a", 1i64), ("b", 2)]);
    let map = map.expect(&rt, "no refusal");
    gives(&rt, &map, &[b"a", b"1", b"b", b"2"]);
}

/// The arguments that a comparison gives.
fn words(alloc: Global, comparison: RedisResult<ValueComparison>) -> RedisResult<Vec<Vec<u8>>> {
    comparison?.to_redis_args(alloc)
}

#[test]
fn comparisons(rt: HostRuntime) {
    let alloc = rt.alloc();
    makes! { rt;
        words(alloc, ValueComparison::ifeq(alloc, "a")) => [b"IFEQ".as_slice(), b"a"],
        words(alloc, ValueComparison::ifne(alloc, "a")) => [b"IFNE".as_slice(), b"a"],
        words(alloc, ValueComparison::ifdeq(alloc, "a")) => [b"IFDEQ".as_slice(), b"a"],
        words(alloc, ValueComparison::ifdne(alloc, "a")) => [b"IFDNE".as_slice(), b"a"],
    }
}

#[test]
fn containers(rt: HostRuntime) {
    let alloc = rt.alloc();
    makes! { rt;
        Text::from_str(alloc, "abc") => "abc",
        Text::from_utf8_lossy(alloc, b"abc") => "abc",
        Items::from_slice(alloc, &[1u8, 2, 3]) => [1, 2, 3],
        Boxed::new(alloc, 5i64) => 5,
        DoubleText::from_str(alloc, "1.5").map(DoubleText::into_text) => "1.5",
    }
}

#[test]
fn values(rt: HostRuntime) {
    let alloc = rt.alloc();
    let bytes = Bytes::from_slice(alloc, LONG.as_bytes()).expect(&rt, "no refusal");
    makes! { rt; Value::bulk_string(alloc, LONG) => Value::BulkString(bytes) }
    let line = Text::from_str(alloc, LONG).expect(&rt, "no refusal");
    makes! { rt; Value::simple_string(alloc, LONG) => Value::SimpleString(line) }
}

#[test]
fn bytes(rt: HostRuntime) {
    let alloc = rt.alloc();
    let long = LONG.as_bytes();
    makes! { rt;
        Bytes::with_capacity(alloc, long.len()).map(|bytes| bytes.len()) => 0,
        Bytes::from_slice(alloc, long) => long,
        Bytes::from_slice(alloc, b"abc").and_then(|bytes| bytes.into_vec()) => b"abc",
    }
}

#[test]
fn errors_of_texts(rt: HostRuntime) {
    let alloc = rt.alloc();
    refuse(alloc);
    let extension = ServerError::from_text(alloc, "MINE x y");
    let wanted = "Ok(Extension { code: \"MINE\", detail: Some(\"x y\") })";
    shows(&rt, extension, wanted);
    refuse(alloc);
    let known = ServerError::from_text(alloc, "ERR x");
    let wanted = "Ok(Known { kind: ResponseError, detail: Some(\"x\") })";
    shows(&rt, known, wanted);
    refuse(alloc);
    let described = ParsingError::from_text(alloc, "a text").map_err(RedisError::from);
    shows(&rt, described, "Ok(Described(\"a text\"))");
}

#[test]
fn into_server_errors(rt: HostRuntime) {
    let alloc = rt.alloc();
    let one = ServerError::from_text(alloc, "MINE x").expect(&rt, "no refusal");
    let one = RedisError::from(one);
    refuse(alloc);
    let listed = one.into_server_errors(alloc);
    let wanted = "Ok(Some([(0, Extension { code: \"MINE\", detail: Some(\"x\") })]))";
    shows(&rt, listed, wanted);
}

/// Three commands.
fn three(rt: &impl Test) -> Pipeline {
    let mut pipeline = pipe(rt.alloc());
    for _command in 0..3usize {
        pipeline.push_cmd("A").expect(rt, "no refusal");
    }
    pipeline
}

/// The error of three commands, of which two are refused.
fn two_errors(rt: &impl Test) -> RedisError {
    let mut con = link(rt, b"-MINE x\r\n+OK\r\n-ERR y z\r\n");
    let answer: RedisResult<Value> = three(rt).query(&mut con);
    answer.expect_err(rt, "a refusal")
}

#[test]
fn into_server_errors_of_a_pipeline(rt: HostRuntime) {
    let two = two_errors(&rt);
    refuse(rt.alloc());
    let listed = two.into_server_errors(rt.alloc());
    let wanted = "Ok(Some([(0, Extension { code: \"MINE\", detail: Some(\"x\") }), \
        (2, Known { kind: ResponseError, detail: Some(\"y z\") })]))";
    shows(&rt, listed, wanted);
}

/// Three replies, each a string.
fn three_replies(rt: &impl Test) -> Vec<Value> {
    let mut replies = Vec::new(rt.alloc());
    for _reply in 0..3usize {
        let reply = parse_redis_value(rt.alloc(), b"$1\r\na\r\n");
        let reply = reply.expect(rt, "no refusal");
        replies.push(reply).expect(rt, "no refusal");
    }
    replies
}

#[test]
fn outcomes(rt: HostRuntime) {
    let pipeline: Pipeline = three(&rt);
    let replies = three_replies(&rt);
    refuse(rt.alloc());
    let answer: RedisResult<Vec<String>> = pipeline.outcome(replies);
    shows(&rt, answer, "Ok([\"a\", \"a\", \"a\"])");
}

/// How many entries a dictionary has.
fn entries(info: InfoDict) -> usize {
    info.len()
}

/// What `INFO` answers.
const INFO: &str = "# S\r\nrole:master\r\nn:7\r\nurl:a:b\r\n";

#[test]
fn dictionaries(rt: HostRuntime) {
    let alloc = rt.alloc();
    makes! { rt; InfoDict::new(alloc, INFO).map(entries) => 3 }
    let reply = b"$27\r\nrole:master\r\nn:7\r\nurl:a:b\r\n\r\n";
    let reply = parse_redis_value(alloc, reply).expect(&rt, "no refusal");
    makes! { rt; from_redis_value_ref::<InfoDict>(alloc, &reply).map(entries) => 3 }
}

#[test]
fn entries_of_dictionaries(rt: HostRuntime) {
    let alloc = rt.alloc();
    let info = InfoDict::new(alloc, INFO).expect(&rt, "no refusal");
    makes! { rt;
        info.get::<String>(alloc, "role") => Some("master"),
        info.get::<i64>(alloc, "n") => Some(7),
        info.get::<i64>(alloc, "gone") => None::<i64>,
    }
}

/// The text of a value type.
fn text_of(alloc: Global, kind: RedisResult<ValueType>) -> RedisResult<String> {
    kind?.into_text(alloc)
}

#[test]
fn value_types(rt: HostRuntime) {
    let alloc = rt.alloc();
    makes! { rt;
        text_of(alloc, ValueType::read(alloc, "xyz")) => "xyz",
        text_of(alloc, ValueType::read(alloc, "zset")) => "zset",
    }
}

/// What `INCREX` answers.
fn increment(rt: &impl Test) -> IncrexResult {
    let reply = parse_redis_value(rt.alloc(), b"*2\r\n$1\r\n5\r\n$1\r\n2\r\n");
    let reply = reply.expect(rt, "no refusal");
    from_redis_value(rt.alloc(), reply).expect(rt, "no refusal")
}

#[test]
fn increments(rt: HostRuntime) {
    let alloc = rt.alloc();
    let increx = increment(&rt);
    makes! { rt;
        increx.value_as::<String>(alloc) => "5",
        increx.actual_increment_as::<String>(alloc) => "2",
        increx.as_i64(alloc) => (5, 2),
    }
}
