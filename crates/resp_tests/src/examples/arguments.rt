//! What own types write, and the bytes of the commands that own functions make.

use crate::checks::{Test, assert_args, assert_packed, string};
use example_snippets::arguments::{
    Key, LimitKey, Member, Path, Point, Range, add_all, add_tagged, add_twelve, get, get_name,
};
use resp_core::{Cmd, Joined, RedisResult, cmd};

#[test]
fn fields_one_after_another(rt: HostRuntime) {
    let points = [Point { x: 1, y: 2 }, Point { x: 3, y: 4 }];
    assert_args(&rt, &Point { x: 1, y: -2 }, "1:1 2:-2 (1)");
    assert_args(&rt, &points.as_slice(), "1:1 1:2 1:3 1:4 (2)");
    assert_args(&rt, &Range { first: 0, last: -1 }, "1:0 2:-1 (2)");
    let name = string(&rt, "a b");
    assert_args(&rt, &Member { score: 7, name }, "1:7 3:a b (2)");
    let name = string(&rt, "my_key");
    assert_args(&rt, &Key { name }, "6:my_key (1)");
    let points = points.to_vec(rt.alloc()).expect(&rt, "memory");
    assert_args(&rt, &Path { points }, "1:1 1:2 1:3 1:4 (2)");
}

#[test]
fn parts_are_one_argument(rt: HostRuntime) {
    let name = string(&rt, "ada");
    assert_args(&rt, &Joined(("limit:", &name)), "9:limit:ada (1)");
    assert_args(&rt, &LimitKey { name }, "9:limit:ada (1)");
    assert_args(&rt, &Joined(("", "")), "0: (1)");
    assert_args(
        &rt,
        &Joined(("n", u64::MAX, i64::MIN)),
        "41:n18446744073709551615-9223372036854775808 (1)",
    );
    assert_args(&rt, &Joined(("a", 1u8, ("b", -2i16), "c")), "6:a1b-2c (1)");
    assert_args(&rt, &Joined(("a", 1u8, 2u16, 3u32, -4i8)), "6:a123-4 (1)");
    let bytes = Vec::from_slice(rt.alloc(), b"xy").expect(&rt, "memory");
    assert_args(
        &rt,
        &Joined((b"w".as_slice(), bytes, 1i32, 2u128, 3usize, -4isize)),
        "8:wxy123-4 (1)",
    );
    assert_made(
        &rt,
        get_name(rt.alloc(), 7),
        "*2\r\n$3\r\nGET\r\n$11\r\nuser:7:name\r\n",
    );
}

/// The command that was made is packed as these bytes.
fn assert_made(rt: &impl Test, command: RedisResult<Cmd>, wanted: &str) {
    assert_packed(rt, &command.expect(rt, "no refusal"), wanted);
}

/// The command, where what was added to it was added.
fn with(command: Cmd, added: RedisResult<()>) -> RedisResult<Cmd> {
    added?;
    Ok(command)
}

#[test]
fn commands_of_own_functions(rt: HostRuntime) {
    assert_made(&rt, get(rt.alloc(), "k"), "*2\r\n$3\r\nGET\r\n$1\r\nk\r\n");
    let mut command = cmd(rt.alloc(), "X").expect(&rt, "memory");
    let added = add_all(&mut command, "k", &["l"], &[("p", "q")]);
    let wanted = "*10\r\n$1\r\nX\r\n$1\r\nk\r\n$1\r\nb\r\n$4\r\nname\r\n$3\r\nage\r\n$1\r\nl\r\n\
        $1\r\np\r\n$1\r\nq\r\n$1\r\na\r\n$1\r\n1\r\n";
    assert_made(&rt, with(command, added), wanted);
    let mut command = cmd(rt.alloc(), "XADD").expect(&rt, "memory");
    let added = add_twelve(&mut command, "s", "f", "v");
    let wanted = "*13\r\n$4\r\nXADD\r\n$1\r\ns\r\n$10\r\nNOMKSTREAM\r\n$6\r\nMAXLEN\r\n\
        $1\r\n~\r\n$4\r\n1000\r\n$5\r\nLIMIT\r\n$2\r\n10\r\n\
        $1\r\n*\r\n$1\r\nf\r\n$1\r\nv\r\n$2\r\nat\r\n$1\r\n7\r\n";
    assert_made(&rt, with(command, added), wanted);
    let mut command = cmd(rt.alloc(), "X").expect(&rt, "memory");
    let added = add_tagged(&mut command, "t", ("a", 1));
    let wanted = "*4\r\n$1\r\nX\r\n$1\r\nt\r\n$1\r\na\r\n$1\r\n1\r\n";
    assert_made(&rt, with(command, added), wanted);
}
