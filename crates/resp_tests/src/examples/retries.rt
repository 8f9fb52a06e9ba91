//! Calls that are tried again. The errors are those of a server that is loading its data, which
//! asks a client to wait, and of a refused command, which doesn't.

use crate::checks::{Test, assert_answer, link};
use crate::examples::connections::stored;
use crate::testing::{MemoryLink, command, pipeline};
use example_snippets::replies::{visits_read_again, visits_when_ready};
use resp_core::{Cmd, Pipeline, RedisError, RedisResult, RetryMethod, retrying};

const LOADING: &str = "-LOADING Redis is loading the dataset in memory\r\n";

fn asks_to_wait(error: &RedisError) -> bool {
    error.retry_method() == RetryMethod::WaitAndRetry
}

/// The number that a command gives over the connection, with this budget, is this.
fn number_is(rt: &impl Test, con: &mut MemoryLink, budget: u64, command: &Cmd, wanted: &str) {
    let number = retrying::<i64, Cmd, _>(con, budget, command, &mut asks_to_wait);
    assert_answer(rt, number, wanted);
}

#[test]
fn a_loading_server_is_asked_again(rt: HostRuntime) {
    let replies = [
        LOADING,
        LOADING,
        ":1\r\n",
        LOADING,
        LOADING,
        LOADING,
        "-ERR x\r\n",
        LOADING,
        ":2\r\n",
    ];
    let mut con = stored(&rt, &replies);
    let incr = command(rt.alloc(), &["INCR", "k"]).expect(&rt, "memory");
    let loading = "BusyLoading: Redis is loading the dataset in memory";
    number_is(&rt, &mut con, 2, &incr, "1");
    number_is(&rt, &mut con, 2, &incr, loading);
    number_is(&rt, &mut con, 2, &incr, "ResponseError: x");
    number_is(&rt, &mut con, 0, &incr, loading);
    number_is(&rt, &mut con, 0, &incr, "2");
    number_is(&rt, &mut con, 9, &incr, "UnexpectedEof");
}

#[test]
fn each_error_is_judged_once(rt: HostRuntime) {
    let mut con = stored(
        &rt,
        &[LOADING, LOADING, LOADING, LOADING, LOADING, ":1\r\n"],
    );
    let incr = command(rt.alloc(), &["INCR", "k"]).expect(&rt, "memory");
    let mut waits = 0_u64;
    let mut twice = |error: &RedisError| {
        waits = waits.saturating_add(1);
        asks_to_wait(error) && waits < 3
    };
    let number = retrying::<i64, Cmd, _>(&mut con, 9, &incr, &mut twice);
    let loading = "BusyLoading: Redis is loading the dataset in memory";
    assert_answer(&rt, number, loading);
    assert_eq!(rt; waits, 3);
    let mut judged = 0_u64;
    let mut always = |_: &RedisError| {
        judged = judged.saturating_add(1);
        true
    };
    let number = retrying::<i64, Cmd, _>(&mut con, 0, &incr, &mut always);
    assert_answer(&rt, number, loading);
    assert_eq!(rt; judged, 0);
    let visits = visits_when_ready(rt.alloc(), &mut con, "home");
    assert_answer(&rt, visits, "1");
}

#[test]
fn a_command_that_only_reads_is_sent_again(rt: HostRuntime) {
    let mut con = stored(&rt, &["+7\r\n"]);
    let first = visits_read_again(rt.alloc(), &mut con, "home");
    assert_answer(&rt, first, "Some(7)");
    let lost = visits_read_again(rt.alloc(), &mut con, "home");
    assert_answer(&rt, lost, "link is broken - Io");
    let mut con = stored(&rt, &[]);
    let lost = visits_when_ready(rt.alloc(), &mut con, "home");
    assert_answer(&rt, lost, "UnexpectedEof");
}

#[test]
fn a_pipeline_is_sent_again(rt: HostRuntime) {
    let incoming = b"-LOADING x\r\n-LOADING x\r\n:1\r\n:2\r\n";
    let mut link = link(&rt, incoming);
    let two = pipeline(rt.alloc(), &[&["A"], &["B"]]).expect(&rt, "memory");
    let pair = retrying::<(i64, i64), Pipeline, _>(&mut link, 1, &two, &mut asks_to_wait);
    assert_answer(&rt, pair, "(1, 2)");
}

/// A pipeline of three commands.
fn three_commands(rt: &impl Test) -> Pipeline {
    pipeline(rt.alloc(), &[&["A"], &["B"], &["C"]]).expect(rt, "memory")
}

/// The refusal is of several server errors, of which this is the first.
fn assert_first_error(rt: &impl Test, refusal: &RedisError) {
    assert_eq!(rt; refusal.code(), None);
    let (position, first) = refusal.first_server_error().expect(rt, "a server error");
    assert_eq!(rt; (position, first.code()), (1, "WRONGTYPE"));
    assert_eq!(rt; first.details(), Some("x"));
}

/// The call was refused, with several server errors, of which this is the first.
fn assert_refused(rt: &impl Test, answer: RedisResult<()>) {
    match answer {
        Ok(()) => panic!(rt; "answered"),
        Err(error) => assert_first_error(rt, &error),
    }
}

/// The error holds no server error.
fn has_no_server_error(rt: &impl Test, error: &RedisError) {
    assert!(rt; error.first_server_error().is_none());
}

#[test]
fn the_first_error_of_a_pipeline(rt: HostRuntime) {
    let incoming = b"+OK\r\n-WRONGTYPE x\r\n-ERR y\r\n";
    let mut link = link(&rt, incoming);
    assert_refused(&rt, three_commands(&rt).exec(&mut link));
    has_no_server_error(&rt, &RedisError::OutOfMemory);
}
