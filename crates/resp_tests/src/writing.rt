//! Arguments that are written one by one, and those that are refused.

use crate::checks::{Test, assert_answer, assert_args, assert_packed};
use crate::testing::command;
use resp_core::{ArgList, Cmd, RedisWrite, ToRedisArgs, write_each_arg};
use std::collections::BTreeMap;
use std::fmt;

/// A value that shows a part of itself, and then fails.
#[derive(Drop)]
struct Torn;

impl fmt::Display for Torn {
    fn fmt<W: fmt::Write>(&self, f: &mut fmt::Formatter<W>) -> fmt::Result {
        write!(f, "torn")?;
        Err(fmt::Error)
    }
}

#[test]
fn what_values_show_is_an_argument(rt: HostRuntime) {
    let mut command = command(rt.alloc(), &["key"]).expect(&rt, "memory");
    each! { assert_answer, rt;
        command.write_arg_fmt(rt.alloc(), "value") => "()",
        command.write_arg_fmt(rt.alloc(), 42) => "()",
        command.push_arg(["phone", "barz"].as_slice()) => "()",
    }
    let wanted = "*5\r\n$3\r\nkey\r\n$5\r\nvalue\r\n$2\r\n42\r\n$5\r\nphone\r\n$4\r\nbarz\r\n";
    assert_packed(&rt, &command, wanted);
}

#[test]
fn refused_writing_changes_nothing(rt: HostRuntime) {
    let mut command = command(rt.alloc(), &["key"]).expect(&rt, "memory");
    each! { assert_answer, rt;
        command.write_arg_fmt(rt.alloc(), Torn) => "formatting failed - Client",
        command.reserve_space_for_args([usize::MAX, 1]) => "out of memory",
        command.reserve_space_for_args([3usize, 4]) => "()",
    }
    assert_packed(&rt, &command, "*1\r\n$3\r\nkey\r\n");
}

/// Adds an argument that is written in two pieces.
fn write_in_two(rt: &impl Test, command: &mut Cmd, first: &[u8], second: &[u8]) {
    let mut writer = command.writer_for_next_arg().expect(rt, "memory");
    writer.write_all(first).expect(rt, "memory");
    writer.write_all(second).expect(rt, "memory");
    writer.flush().expect(rt, "flushed");
}

#[test]
fn an_argument_is_written_in_pieces(rt: HostRuntime) {
    let mut command = Cmd::new(rt.alloc());
    write_in_two(&rt, &mut command, b"foo", b"bar");
    assert_packed(&rt, &command, "*1\r\n$6\r\nfoobar\r\n");
    write_in_two(&rt, &mut command, b"baz", b"qux");
    write_in_two(&rt, &mut command, b"", b"");
    let wanted = "*3\r\n$6\r\nfoobar\r\n$6\r\nbazqux\r\n$0\r\n\r\n";
    assert_packed(&rt, &command, wanted);
}

#[test]
fn a_length_gains_digits(rt: HostRuntime) {
    let mut command = Cmd::new(rt.alloc());
    write_in_two(&rt, &mut command, b"123456789", b"0");
    assert_packed(&rt, &command, "*1\r\n$10\r\n1234567890\r\n");
    write_in_two(&rt, &mut command, &[b'x'; 99], b"y");
    let packed = command.get_packed_command().expect(&rt, "memory");
    let begins = packed.starts_with(b"*2\r\n$10\r\n1234567890\r\n$100\r\nxx");
    assert!(rt; packed.len() == 129 && begins && packed.ends_with(b"xxy\r\n"));
}

/// Two pairs, of which the second has two values.
pub fn wide_pairs(rt: &impl Test) -> BTreeMap<i64, Vec<i64>> {
    let one = Vec::from_slice(rt.alloc(), &[5]).expect(rt, "memory");
    let two = Vec::from_slice(rt.alloc(), &[6, 7]).expect(rt, "memory");
    BTreeMap::from_array(rt.alloc(), [(1, one), (2, two)]).expect(rt, "memory")
}

/// What the refusal of a key or a value of more than one argument shows.
pub const WIDE: &str = "map key or value is more than one argument - Client";

#[test]
fn a_refused_pair_isnt_written(rt: HostRuntime) {
    let mut list: Vec<Vec<u8>> = Vec::new(rt.alloc());
    list.write_arg(b"x").expect(&rt, "memory");
    assert_answer(&rt, wide_pairs(&rt).write_redis_args(&mut list), WIDE);
    assert_args(&rt, &list, "1:x 1:1 1:5 (3)");
}

#[test]
fn a_list_of_arguments(rt: HostRuntime) {
    let mut list = ArgList::new(rt.alloc());
    let values = [Some(1i64), None, Some(3)];
    list.write_arg(b"SET").expect(&rt, "memory");
    list.open_arg().expect(&rt, "memory");
    list.extend_arg(b"key").expect(&rt, "memory");
    write_each_arg(&[1u64, 2], &mut list).expect(&rt, "memory");
    <Option<i64>>::make_arg_iter_ref(values.iter(), &mut list).expect(&rt, "memory");
    assert!(rt; list.len() == 6 && list.get(6).is_none());
    assert!(rt; list.get(1) == Some(b"key".as_slice()) && list.get(5) == Some(b"3".as_slice()));
    list.truncate(2);
    assert_eq!(rt; list.try_clone(rt.alloc()).expect(&rt, "memory").len(), 2);
    list.clear();
    assert!(rt; list.is_empty());
}
