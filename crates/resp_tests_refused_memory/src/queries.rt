//! Queries of commands and pipelines: where composing or converting is refused, the replies are
//! taken and the link is usable.

use crate::heap::{Test, refuse};
use crate::links::{Asked, Until, answered, link, of_get};
use crate::made::{GET_K, get};
use resp_core::{Attempt, Cmd, FromRedisValue, Pipeline, RedisError, RedisResult, pipe, retrying};
use std::collections::BTreeMap;
use std::fmt::Debug;

/// `GET k` is answered by what shows like this.
fn asks<T: FromRedisValue + Debug>(rt: &impl Test, incoming: &[u8], wanted: &str) {
    let command = get(rt);
    let mut con = link(rt, incoming);
    refuse(rt.alloc());
    let answer = command.query::<T>(&mut con);
    answered(
        rt,
        (con, of_get(incoming), Until::Conversion),
        answer,
        wanted,
    );
}

const TEXT: &[u8] = b"$3\r\nabc\r\n:7\r\n";

const LIST: &[u8] = b">2\r\n+message\r\n+x\r\n*2\r\n+a\r\n+b\r\n:7\r\n";

#[test]
fn commands(rt: HostRuntime) {
    asks::<String>(&rt, TEXT, "Ok(\"abc\")");
    asks::<Option<String>>(&rt, TEXT, "Ok(Some(\"abc\"))");
    asks::<Vec<String>>(&rt, LIST, "Ok([\"a\", \"b\"])");
    let map = b"%1\r\n+a\r\n*2\r\n:1\r\n:2\r\n:7\r\n";
    asks::<BTreeMap<String, Vec<i64>>>(&rt, map, "Ok({\"a\": [1, 2]})");
    asks::<i64>(&rt, b"-MINE x y\r\n:7\r\n", "Err(\"MINE\": x y)");
}

#[test]
fn errors_that_tell_their_command(rt: HostRuntime) {
    let command = get(&rt);
    let incoming = b"-MINE x y\r\n:7\r\n";
    let mut con = link(&rt, incoming);
    refuse(rt.alloc());
    let answer = command
        .query_named::<i64>(&mut con)
        .map_err(|named| named.error);
    answered(
        &rt,
        (con, of_get(incoming), Until::Conversion),
        answer,
        "Err(\"MINE\": x y)",
    );
}

#[test]
fn a_command_without_an_answer(rt: HostRuntime) {
    let command = get(&rt);
    let mut con = link(&rt, LIST);
    refuse(rt.alloc());
    let answer = command.exec(&mut con);
    answered(
        &rt,
        (con, of_get(LIST), Until::Conversion),
        answer,
        "Ok(())",
    );
}

fn never(_error: &RedisError) -> bool {
    false
}

#[test]
fn attempts(rt: HostRuntime) {
    let command = get(&rt);
    let mut con = link(&rt, TEXT);
    refuse(rt.alloc());
    let answer: RedisResult<String> = command.attempt(&mut con);
    answered(
        &rt,
        (con, of_get(TEXT), Until::Conversion),
        answer,
        "Ok(\"abc\")",
    );
}

#[test]
fn commands_that_may_be_tried_again(rt: HostRuntime) {
    let command = get(&rt);
    let mut con = link(&rt, TEXT);
    refuse(rt.alloc());
    let answer = retrying::<String, Cmd, _>(&mut con, 3, &command, &mut never);
    answered(
        &rt,
        (con, of_get(TEXT), Until::Conversion),
        answer,
        "Ok(\"abc\")",
    );
}

/// `SET k 1`, which may be ignored, and `GET k`; and how long they are when packed.
fn two(rt: &impl Test, atomic: bool, ignored: bool) -> (Pipeline, usize) {
    let mut pipeline = pipe(rt.alloc());
    if atomic {
        let _ = pipeline.atomic();
    }
    pipeline.push_cmd("SET").expect(rt, "no refusal");
    pipeline.push_arg(("k", 1i64)).expect(rt, "no refusal");
    if ignored {
        let _ = pipeline.ignore();
    }
    pipeline.push_command(get(rt)).expect(rt, "no refusal");
    let packed = pipeline.get_packed_pipeline().expect(rt, "no refusal");
    (pipeline, packed.len())
}

/// Two commands, sent at once, are answered by what shows like this.
fn asks_two<T: FromRedisValue + Debug>(
    rt: &impl Test,
    (pipeline, request): (Pipeline, usize),
    incoming: &[u8],
    wanted: &str,
) {
    let mut con = link(rt, incoming);
    refuse(rt.alloc());
    let answer = pipeline.query::<T>(&mut con);
    answered(
        rt,
        (con, Asked { incoming, request }, Until::Conversion),
        answer,
        wanted,
    );
}

const REPLIES: &[u8] = b"+OK\r\n$3\r\nabc\r\n:7\r\n";

#[test]
fn pipelines(rt: HostRuntime) {
    asks_two::<(String, String)>(
        &rt,
        two(&rt, false, false),
        REPLIES,
        "Ok((\"OK\", \"abc\"))",
    );
    asks_two::<(String,)>(&rt, two(&rt, false, true), REPLIES, "Ok((\"abc\",))");
    let errors = b"-MINE x\r\n-OTHER y\r\n:7\r\n";
    let both =
        "Err(Pipeline failures: [(Index 0, error: \"MINE\": x), (Index 1, error: \"OTHER\": y)])";
    asks_two::<(String,)>(&rt, two(&rt, false, true), errors, both);
}

#[test]
fn a_pipeline_without_an_answer(rt: HostRuntime) {
    let (whole, request) = two(&rt, false, false);
    let incoming = REPLIES;
    let mut con = link(&rt, incoming);
    refuse(rt.alloc());
    let answer = whole.exec(&mut con);
    answered(
        &rt,
        (con, Asked { incoming, request }, Until::Conversion),
        answer,
        "Ok(())",
    );
}

const ABORTED: &str = "Err(Transaction aborted: [(Index 0, error: \"MINE\": x)])";

#[test]
fn transactions(rt: HostRuntime) {
    let replies = b"+OK\r\n+QUEUED\r\n+QUEUED\r\n*2\r\n+OK\r\n$3\r\nabc\r\n:7\r\n";
    asks_two::<Vec<String>>(&rt, two(&rt, true, false), replies, "Ok([\"OK\", \"abc\"])");
    asks_two::<(String,)>(&rt, two(&rt, true, true), replies, "Ok((\"abc\",))");
    let aborted = b"+OK\r\n-MINE x\r\n>1\r\n+own\r\n+QUEUED\r\n-EXECABORT y\r\n:7\r\n";
    asks_two::<Vec<String>>(&rt, two(&rt, true, false), aborted, ABORTED);
}
