//! Commands and their cursor arguments, between calls.

use crate::checks::{Test, assert_answer, assert_display, assert_packed, assert_text, link};
use crate::testing::{bytes_text, command, listed_text};
use crate::writing::{WIDE, wide_pairs};
use resp_core::{Arg, Cmd, RedisWrite, cmd, pack_command};
use std::collections::BTreeMap;

#[test]
fn arguments_in_a_chain(rt: HostRuntime) {
    let mut set = cmd(rt.alloc(), "SET").expect(&rt, "memory");
    let key = set.arg("my_key").expect(&rt, "memory");
    let _ = key.arg(42i32).expect(&rt, "memory");
    assert_packed(&rt, &set, "*3\r\n$3\r\nSET\r\n$6\r\nmy_key\r\n$2\r\n42\r\n");
    set.clear();
    set.open_arg().expect(&rt, "memory");
    set.extend_arg(b"GET").expect(&rt, "memory");
    assert_packed(&rt, &set, "*1\r\n$3\r\nGET\r\n");
}

#[test]
fn empty_commands(rt: HostRuntime) {
    let command = Cmd::new(rt.alloc());
    assert!(rt; command.is_empty());
    assert_packed(&rt, &command, "");
    let mut buffer = Vec::from_slice(rt.alloc(), b"X").expect(&rt, "memory");
    assert_answer(&rt, command.write_packed_command(&mut buffer), "()");
    assert_text(&rt, bytes_text(rt.alloc(), buffer.as_slice()), "X*0\r\n");
    let packed = pack_command(rt.alloc(), &[]).expect(&rt, "memory");
    assert_text(&rt, bytes_text(rt.alloc(), packed.as_slice()), "*0\r\n");
}

/// A map that no command takes: its key is two arguments.
pub fn refused_map(rt: &impl Test) -> BTreeMap<(i64, i64), i64> {
    BTreeMap::from_array(rt.alloc(), [((1, 2), 3)]).expect(rt, "memory")
}

#[test]
fn refused_argument_changes_nothing(rt: HostRuntime) {
    let mut command = command(rt.alloc(), &["HSET", "key", "7", "x"]).expect(&rt, "memory");
    let pair = command.arg(refused_map(&rt)).err().expect(&rt, "a refusal");
    let midway = command.arg(wide_pairs(&rt)).err().expect(&rt, "a refusal");
    each! { assert_answer, rt;
        Err::<(), _>(pair) => WIDE,
        Err::<(), _>(midway) => WIDE,
        command.push_arg(refused_map(&rt)) => WIDE,
        command.push_arg(&wide_pairs(&rt)) => WIDE,
    }
    let wanted = "*4\r\n$4\r\nHSET\r\n$3\r\nkey\r\n$1\r\n7\r\n$1\r\nx\r\n";
    assert_packed(&rt, &command, wanted);
}

#[test]
fn a_map_is_packed_as_its_pairs(rt: HostRuntime) {
    let pairs = BTreeMap::from_array(rt.alloc(), [("a", 1i64), ("b", 2)]).expect(&rt, "memory");
    let mut set = command(rt.alloc(), &["HSET", "h"]).expect(&rt, "memory");
    assert_answer(&rt, set.push_arg(pairs), "()");
    let wanted = "*6\r\n$4\r\nHSET\r\n$1\r\nh\r\n$1\r\na\r\n$1\r\n1\r\n$1\r\nb\r\n$1\r\n2\r\n";
    assert_packed(&rt, &set, wanted);
}

#[test]
fn a_cleared_command_is_new(rt: HostRuntime) {
    let mut command = cmd(rt.alloc(), "key").expect(&rt, "memory");
    assert!(rt; !command.is_no_response());
    let _ = command.set_no_response(true);
    let copy = command.try_clone().expect(&rt, "memory");
    let mut taken = command.take();
    assert!(rt; command.is_empty() && !command.is_no_response());
    for same in [&copy, &taken] {
        assert!(rt; same.is_no_response());
        assert_packed(&rt, same, "*1\r\n$3\r\nkey\r\n");
    }
    taken.clear();
    assert!(rt; taken.is_empty() && !taken.is_no_response());
}

#[test]
fn room_for_arguments_is_no_bound(rt: HostRuntime) {
    let mut roomy = Cmd::with_capacity(rt.alloc(), 1, 3).expect(&rt, "memory");
    assert!(rt; roomy.is_empty() && !roomy.in_scan_mode() && !roomy.is_no_response());
    let get = roomy.arg("GET").expect(&rt, "memory");
    let _ = get.arg("my_key").expect(&rt, "memory");
    assert_packed(&rt, &roomy, "*2\r\n$3\r\nGET\r\n$6\r\nmy_key\r\n");
}

/// The command's arguments are these, each with a space after it; `@` is a cursor. As many are left
/// before each as are then given.
fn lists(rt: &impl Test, command: &Cmd, wanted: &str) {
    assert_text(rt, listed_text(rt.alloc(), command), wanted);
    let mut shown = command.args_iter();
    for left in (0..=wanted.matches(' ').count()).rev() {
        assert_eq!(rt;
            (shown.len(), shown.size_hint()),
            (left, (left, Some(left)))
        );
        assert_eq!(rt; shown.next().is_some(), left > 0);
    }
}

/// A command of these words, and then a cursor argument.
fn with_cursor(rt: &impl Test, words: &[&str], cursor: u64) -> Cmd {
    let mut command = command(rt.alloc(), words).expect(rt, "memory");
    let _ = command.cursor_arg(cursor).expect(rt, "memory");
    command
}

#[test]
fn cursor_arguments_are_listed(rt: HostRuntime) {
    let command = with_cursor(&rt, &["key", "value", "42", "phone", "barz"], 512);
    lists(&rt, &command, "key value 42 phone barz @ ");
    assert!(rt; command.in_scan_mode());
    let mut shown = command.args_iter();
    assert!(rt; shown.next() == Some(Arg::Simple(b"key".as_slice())));
    let mut again = shown.clone().expect(&rt, "a copy");
    assert!(rt; again.nth(4) == Some(Arg::Cursor) && again.next().is_none());
    assert_eq!(rt; shown.len(), 5);
}

#[test]
fn the_latest_cursor_is_sent(rt: HostRuntime) {
    let mut command = with_cursor(&rt, &["A"], 0);
    assert_answer(&rt, command.push_arg("b"), "()");
    assert_answer(&rt, command.push_cursor_arg(u64::MAX), "()");
    lists(&rt, &command, "A @ b @ ");
    assert_eq!(rt; command.framed(), b"$1\r\nA\r\n$1\r\nb\r\n".as_slice());
    command.set_cursor(7);
    let wanted = "*4\r\n$1\r\nA\r\n$1\r\n7\r\n$1\r\nb\r\n$1\r\n7\r\n";
    assert_packed(&rt, &command, wanted);
}

#[test]
fn a_cleared_command_has_no_cursor(rt: HostRuntime) {
    let mut command = with_cursor(&rt, &["key", "value"], 24);
    let _ = command.set_no_response(true);
    command.clear();
    lists(&rt, &command, "");
    assert_packed(&rt, &command, "");
    assert!(rt; !command.in_scan_mode() && !command.is_no_response());
}

#[test]
fn copies_keep_their_cursor(rt: HostRuntime) {
    let mut command = with_cursor(&rt, &["A"], 3);
    let mut copy = command.try_clone().expect(&rt, "memory");
    let mut taken = command.take();
    assert!(rt; !command.in_scan_mode());
    copy.set_cursor(4);
    assert_packed(&rt, &copy, "*2\r\n$1\r\nA\r\n$1\r\n4\r\n");
    taken.set_cursor(5);
    assert_packed(&rt, &taken, "*2\r\n$1\r\nA\r\n$1\r\n5\r\n");
}

#[test]
fn an_extended_cursor_is_an_ordinary_argument(rt: HostRuntime) {
    let mut command = cmd(rt.alloc(), "A").expect(&rt, "memory");
    let _ = command.cursor_arg(3).expect(&rt, "memory");
    command.extend_arg(b"x").expect(&rt, "memory");
    command.set_cursor(4);
    assert_packed(&rt, &command, "*2\r\n$1\r\nA\r\n$2\r\n3x\r\n");
    lists(&rt, &command, "A 3x ");
}

#[test]
fn an_error_tells_its_command(rt: HostRuntime) {
    let mut link = link(&rt, b"-ERR x\r\n:7\r\n");
    let get = command(rt.alloc(), &["GET", "k"]).expect(&rt, "memory");
    match get.query_named::<i64>(&mut link) {
        Ok(_) => assert_eq!(rt; "answered", "refused"),
        Err(error) => assert_display(&rt, &error, "GET: ResponseError: x"),
    }
    let answer = get
        .query_named::<i64>(&mut link)
        .map_err(|named| named.error);
    assert_answer(&rt, answer, "7");
}
