//! Copies: each is whole, or memory runs out.

use crate::heap::{Test, made, refuse};
use crate::made::{GET_K, get};
use resp_core::{
    ArgList, Cmd, Description, DoubleText, ErrorKind, FromRedisValue, IncrexResult, InfoDict,
    Items, ParsingError, Pipeline, PushInfo, PushKind, RedisError, RedisResult, RedisWrite,
    ReplicaInfo, Role, ServerError, Text, Value, ValueComparison, ValueType, VerbatimFormat,
    from_redis_value, get_push_kind, parse_redis_value, pipe, verbatim_format,
};
use std::alloc::AllocError;

fn text(rt: &impl Test, text: &str) -> String {
    String::from_str(rt.alloc(), text).expect(rt, "no refusal")
}

fn reply<T: FromRedisValue>(rt: &impl Test, bytes: &[u8]) -> T {
    let value = parse_redis_value(rt.alloc(), bytes).expect(rt, "no refusal");
    from_redis_value(rt.alloc(), value).expect(rt, "no refusal")
}

const REPLIES: &[&[u8]] = &[
    b"*3\r\n$3\r\nabc\r\n%1\r\n+a\r\n=6\r\nown:xy\r\n-MINE x\r\n",
    b"|1\r\n+k\r\n:1\r\n*2\r\n(123\r\n~1\r\n+b\r\n",
    b">2\r\n+mine\r\n*2\r\n:1\r\n+x\r\n",
];

/// A copy of the value is whole.
fn copies(rt: &impl Test, value: &Value) {
    makes! { rt; value.try_clone(rt.alloc()) => value }
}

#[test]
fn replies(rt: HostRuntime) {
    for bytes in REPLIES {
        copies(&rt, &reply(&rt, bytes));
    }
}

#[test]
fn names(rt: HostRuntime) {
    let alloc = rt.alloc();
    let kind: PushKind = get_push_kind(text(&rt, "mine"));
    makes! { rt; kind.try_clone(alloc) => kind }
    let format: VerbatimFormat = verbatim_format(text(&rt, "own"));
    makes! { rt; format.try_clone(alloc) => format }
}

#[test]
fn texts(rt: HostRuntime) {
    let alloc = rt.alloc();
    let short = Text::from(text(&rt, "abc"));
    makes! { rt; short.try_clone(alloc) => short }
    let description = Description::from(text(&rt, "described"));
    makes! { rt; description.try_clone(alloc) => description }
}

/// A push of a kind without a name of its own.
fn push(rt: &impl Test) -> PushInfo {
    let mut payload = Items::new(rt.alloc());
    payload.push(Value::Int(1)).expect(rt, "no refusal");
    let kind = get_push_kind(text(rt, "mine"));
    PushInfo { kind, payload }
}

#[test]
fn pushes(rt: HostRuntime) {
    let push = push(&rt);
    makes! { rt; push.try_clone() => push }
}

#[test]
fn parsing_errors(rt: HostRuntime) {
    let parsing = ParsingError::from(text(&rt, "described"));
    makes! { rt; parsing.try_clone(rt.alloc()) => parsing }
}

#[test]
fn server_errors(rt: HostRuntime) {
    let server = ServerError::from_text(rt.alloc(), "MINE x y").expect(&rt, "no refusal");
    makes! { rt; server.try_clone(rt.alloc()) => server }
}

#[test]
fn errors(rt: HostRuntime) {
    let detailed = RedisError::from((ErrorKind::Client, "what", text(&rt, "detail")));
    makes! { rt; detailed.try_clone(rt.alloc()) => detailed }
}

const SENTINEL: &[u8] = b"*2\r\n$8\r\nsentinel\r\n*2\r\n$2\r\nmy\r\n$1\r\no\r\n";

#[test]
fn roles(rt: HostRuntime) {
    let alloc = rt.alloc();
    let role: Role = reply(&rt, SENTINEL);
    makes! { rt; role.try_clone(alloc) => role }
    let replica: ReplicaInfo = reply(&rt, b"*3\r\n$1\r\na\r\n$4\r\n9001\r\n$1\r\n7\r\n");
    makes! { rt; replica.try_clone(alloc) => replica }
}

#[test]
fn types_and_increments(rt: HostRuntime) {
    let alloc = rt.alloc();
    let of_a_value: ValueType = reply(&rt, b"+xyz\r\n");
    makes! { rt; of_a_value.try_clone(alloc) => of_a_value }
    let increx: IncrexResult = reply(&rt, b"*2\r\n$1\r\n5\r\n$1\r\n2\r\n");
    makes! { rt; increx.try_clone(alloc) => increx }
    let double: DoubleText = reply(&rt, b"$3\r\n1.5\r\n");
    makes! { rt; double.try_clone(alloc) => double }
}

/// Whether a copy has the entries of the dictionary.
fn is_copied(copy: Result<InfoDict, AllocError>, info: &InfoDict) -> Result<bool, AllocError> {
    Ok(copy?.as_map() == info.as_map())
}

#[test]
fn dictionaries(rt: HostRuntime) {
    let info: InfoDict = reply(&rt, b"$25\r\n# S\r\nrole:master\r\nn:7\r\n:a\r\n");
    makes! { rt; is_copied(info.try_clone(rt.alloc()), &info) => true }
}

/// The bytes of a copy.
fn packed(copy: Result<Cmd, AllocError>) -> RedisResult<Vec<u8>> {
    copy?.get_packed_command()
}

/// The bytes of a copy.
fn packed_pipeline(copy: Result<Pipeline, AllocError>) -> RedisResult<Vec<u8>> {
    copy?.get_packed_pipeline()
}

/// The first argument of a copy is `a`.
fn has_first(copy: Result<ArgList, AllocError>) -> Result<bool, AllocError> {
    Ok(copy?.get(0) == Some(b"a".as_slice()))
}

#[test]
fn commands(rt: HostRuntime) {
    let command = get(&rt);
    makes! { rt; packed(command.try_clone()) => GET_K }
}

#[test]
fn pipelines(rt: HostRuntime) {
    let mut pipeline = pipe(rt.alloc());
    pipeline.push_command(get(&rt)).expect(&rt, "no refusal");
    makes! { rt; packed_pipeline(pipeline.try_clone()) => GET_K }
}

#[test]
fn comparisons(rt: HostRuntime) {
    let comparison = ValueComparison::ifeq(rt.alloc(), "a").expect(&rt, "no refusal");
    makes! { rt; comparison.try_clone(rt.alloc()) => comparison }
}

#[test]
fn argument_lists(rt: HostRuntime) {
    let mut list = ArgList::new(rt.alloc());
    list.write_arg(b"a").expect(&rt, "no refusal");
    makes! { rt; has_first(list.try_clone(rt.alloc())) => true }
}
