//! Calls that change an object: a refused one leaves it as it was, and works when it is made again.

use crate::heap::{Test, equal, has_run_out, has_to_repeat, ran_out, refuse, succeeds};
use crate::made::{LONG, get};
use crate::subjects::{REST, Subject};
use resp_core::{
    ArgList, ArgPart, ArgWriter, Bytes, Cmd, FromRedisValue, Items, Joined, Parser, Pipeline,
    RedisResult, RedisWrite, ToRedisArgs, cmd, from_redis_value, parse_redis_value, write_each_arg,
};
use std::alloc::Global;
use std::borrow::CowStr;
use std::collections::{BTreeMap, BTreeSet, HashMap, HashSet};
use std::rc::Rc;

/// A call that changes an object.
pub trait Change: Clone + Copy {
    type Object: Subject;

    fn apply(self, alloc: Global, to: &mut Self::Object) -> RedisResult<()>;
}

/// The object shows like this.
fn shows(rt: &impl Test, object: &mut impl Subject, wanted: &str) {
    let shown = object.shows(rt);
    equal(rt, shown.as_str(), wanted);
}

/// What an object shows before the call and after it, with ample memory.
fn before_and_after<C: Change>(rt: &impl Test, change: C, size: usize) -> (String, String) {
    let mut object = C::Object::of_size(rt, size);
    let before = object.shows(rt);
    succeeds(rt, change.apply(rt.alloc(), &mut object));
    (before, object.shows(rt))
}

/// The call changes the object; or memory runs out, the object still shows as before, and the call
/// then changes it.
fn applies<C: Change>(rt: &impl Test, change: C, object: &mut C::Object, before: &str) {
    refuse(rt.alloc());
    if has_to_repeat(rt, change.apply(rt.alloc(), object)) {
        shows(rt, object, before);
        succeeds(rt, change.apply(rt.alloc(), object));
    }
}

/// The call makes of the object what it makes with ample memory; or memory runs out, the object
/// still shows as before, and the call then makes that.
fn changes_one<C: Change>(rt: &impl Test, change: C, size: usize) {
    let (before, after) = before_and_after(rt, change, size);
    let mut object = C::Object::of_size(rt, size);
    applies(rt, change, &mut object, before.as_str());
    shows(rt, &mut object, after.as_str());
}

/// The same of objects of each size.
fn changes_each_size<C: Change>(rt: &impl Test, change: C) {
    for size in 0..C::Object::SIZES {
        changes_one(rt, change, size);
    }
}

/// The same of each call.
pub fn changes<C: Change>(rt: &impl Test, calls: &[C]) {
    for change in calls {
        changes_each_size(rt, *change);
    }
}

#[derive(Clone, Copy)]
enum OfCommand {
    Arg,
    PushArg,
    WriteArg,
    WriteArgFmt,
    OpenArg,
    WriterForNextArg,
    ReserveSpaceForArgs,
    ExtendArg,
    CursorArg,
    PushCursorArg,
}

impl Change for OfCommand {
    type Object = Cmd;

    fn apply(self, alloc: Global, to: &mut Cmd) -> RedisResult<()> {
        match self {
            OfCommand::Arg => to.arg("value").map(unit),
            OfCommand::PushArg => to.push_arg((1i64, LONG, Some("y"))),
            OfCommand::WriteArg => to.write_arg(b"value"),
            OfCommand::WriteArgFmt => to.write_arg_fmt(alloc, -42i64),
            OfCommand::OpenArg => to.open_arg(),
            OfCommand::WriterForNextArg => to.writer_for_next_arg().map(unit),
            OfCommand::ReserveSpaceForArgs => to.reserve_space_for_args([1usize, 100]),
            OfCommand::ExtendArg => extend(to),
            OfCommand::CursorArg => to.cursor_arg(u64::MAX).map(unit),
            OfCommand::PushCursorArg => to.push_cursor_arg(7),
        }
    }
}

/// Lets go of an answer.
fn unit<T: Drop>(_answer: T) {}

/// A longer last argument, if there is one.
fn extend(to: &mut Cmd) -> RedisResult<()> {
    if to.is_empty() {
        return Ok(());
    }
    to.extend_arg(&[b'a'; 999])
}

#[test]
fn arguments(rt: HostRuntime) {
    let calls = [
        OfCommand::Arg,
        OfCommand::PushArg,
        OfCommand::WriteArg,
        OfCommand::WriteArgFmt,
        OfCommand::OpenArg,
        OfCommand::WriterForNextArg,
        OfCommand::ReserveSpaceForArgs,
    ];
    changes(&rt, calls.as_slice());
}

#[test]
fn longer_arguments(rt: HostRuntime) {
    changes(&rt, [OfCommand::ExtendArg].as_slice());
}

#[test]
fn cursor_arguments(rt: HostRuntime) {
    let calls = [OfCommand::CursorArg, OfCommand::PushCursorArg];
    changes(&rt, calls.as_slice());
}

#[derive(Clone, Copy)]
enum OfPipeline {
    Cmd,
    PushCmd,
    AddCommand,
    PushCommand,
    Arg,
    PushArg,
}

impl Change for OfPipeline {
    type Object = Pipeline;

    fn apply(self, alloc: Global, to: &mut Pipeline) -> RedisResult<()> {
        match self {
            OfPipeline::Cmd => to.cmd("NAME").map(unit),
            OfPipeline::PushCmd => to.push_cmd(LONG),
            OfPipeline::AddCommand => to.add_command(cmd(alloc, LONG)?).map(unit),
            OfPipeline::PushCommand => to.push_command(cmd(alloc, LONG)?),
            OfPipeline::Arg if !to.is_empty() => to.arg(LONG).map(unit),
            OfPipeline::PushArg if !to.is_empty() => to.push_arg((
                1i64,
                LONG,
                [2i64, 3].as_slice(),
            )),
            _ => Ok(()),
        }
    }
}

#[test]
fn commands_of_pipelines(rt: HostRuntime) {
    let calls = [
        OfPipeline::Cmd,
        OfPipeline::PushCmd,
        OfPipeline::AddCommand,
        OfPipeline::PushCommand,
    ];
    changes(&rt, calls.as_slice());
}

#[test]
fn arguments_of_pipelines(rt: HostRuntime) {
    changes(&rt, [OfPipeline::Arg, OfPipeline::PushArg].as_slice());
}

#[derive(Clone, Copy)]
enum OfList {
    WriteArg,
    OpenArg,
    ExtendArg,
}

impl Change for OfList {
    type Object = ArgList;

    fn apply(self, _alloc: Global, to: &mut ArgList) -> RedisResult<()> {
        match self {
            OfList::WriteArg => to.write_arg(b"new"),
            OfList::OpenArg => to.open_arg(),
            OfList::ExtendArg => extend_last(to),
        }
    }
}

/// A longer last argument, if there is one.
fn extend_last(to: &mut ArgList) -> RedisResult<()> {
    if to.is_empty() {
        return Ok(());
    }
    to.extend_arg(&[b'a'; 999])
}

#[derive(Clone, Copy)]
enum OfItems {
    Push,
    ExtendFromSlice,
}

impl Change for OfItems {
    type Object = Items<u8>;

    fn apply(self, _alloc: Global, to: &mut Items<u8>) -> RedisResult<()> {
        match self {
            OfItems::Push => Ok(to.push(4)?),
            OfItems::ExtendFromSlice => Ok(to.extend_from_slice(&[2; 99])?),
        }
    }
}

/// More bytes at the end.
#[derive(Clone, Copy)]
struct MoreBytes;

impl Change for MoreBytes {
    type Object = Bytes;

    fn apply(self, _alloc: Global, to: &mut Bytes) -> RedisResult<()> {
        Ok(to.extend_from_slice(&[2; 9])?)
    }
}

/// A command, packed behind other bytes.
#[derive(Clone, Copy)]
struct Packed<'a>(&'a Cmd);

impl Change for Packed<'_> {
    type Object = Vec<u8>;

    fn apply(self, _alloc: Global, to: &mut Vec<u8>) -> RedisResult<()> {
        self.0.write_packed_command(to)
    }
}

#[test]
fn lists_and_buffers(rt: HostRuntime) {
    let lists = [OfList::WriteArg, OfList::OpenArg, OfList::ExtendArg];
    changes(&rt, lists.as_slice());
    changes(&rt, [OfItems::Push, OfItems::ExtendFromSlice].as_slice());
    changes(&rt, [MoreBytes].as_slice());
    let command = get(&rt);
    changes(&rt, [Packed(&command)].as_slice());
}

/// The rest of a reply.
#[derive(Clone, Copy)]
struct Fed;

impl Change for Fed {
    type Object = Parser;

    fn apply(self, _alloc: Global, to: &mut Parser) -> RedisResult<()> {
        to.feed(REST)
    }
}

#[test]
fn feed(rt: HostRuntime) {
    changes(&rt, [Fed].as_slice());
}

/// More than the room for an argument.
const LONGER: &[u8] = &[b'z'; 1000];

/// A writer of the command appends to its argument, or memory runs out and its next call does.
fn appends_all(rt: &impl Test, command: &mut Cmd) {
    let mut writer: ArgWriter<'_, Cmd> = command.writer_for_next_arg().expect(rt, "no refusal");
    refuse(rt.alloc());
    if has_to_repeat(rt, writer.write_all(LONGER)) {
        succeeds(rt, writer.write_all(LONGER));
    }
}

/// `GET k` and a longer argument.
fn get_longer(rt: &impl Test) -> Cmd {
    let mut command = get(rt);
    command.write_arg(LONGER).expect(rt, "no refusal");
    command
}

/// A writer appends to its argument, or memory runs out and the argument is as before.
#[test]
fn write_all(rt: HostRuntime) {
    let mut command = get(&rt);
    appends_all(&rt, &mut command);
    let wanted = get_longer(&rt).shows(&rt);
    shows(&rt, &mut command, wanted.as_str());
}

/// A list of one argument.
fn list(rt: &impl Test) -> Vec<Vec<u8>> {
    let mut out: Vec<Vec<u8>> = Vec::new(rt.alloc());
    out.write_arg(b"old").expect(rt, "no refusal");
    out
}

/// The call appended so many arguments, or memory ran out; the old argument is the first.
fn appended(rt: &impl Test, out: &[Vec<u8>], answer: &RedisResult<()>, count: usize) {
    if !ran_out(rt, answer) {
        equal(rt, out.len(), count.saturating_add(1));
    }
    let first = out.first().expect(rt, "the old argument");
    equal(rt, first.as_slice(), b"old".as_slice());
}

/// The value appends so many arguments to a list.
fn appends<T: ToRedisArgs>(rt: &impl Test, value: &T, count: usize) {
    let mut out = list(rt);
    refuse(rt.alloc());
    let answer = value.write_redis_args(&mut out);
    appended(rt, out.as_slice(), &answer, count);
}

#[test]
fn values_in_a_vector(rt: HostRuntime) {
    appends(&rt, &("a", 1i64, Some("b")), 3);
    appends(&rt, &["a", "b"].as_slice(), 2);
    appends(&rt, &(1i64, "a", true, [2i64, 3].as_slice()), 5);
    appends(
        &rt,
        &(
            1i64, "a", 2u8, "b", 3i64, "c", 4u8, "d", 5i64, "e", 6u8, "f",
        ),
        12,
    );
    appends(&rt, &Some(Some("a")), 1);
}

#[test]
fn owners_in_a_vector(rt: HostRuntime) {
    let alloc = rt.alloc();
    let boxed = Box::new(alloc, 7i64).expect(&rt, "no refusal");
    appends(&rt, &boxed, 1);
    appends(&rt, &CowStr::Borrowed("a"), 1);
    let text = String::from_str(alloc, "a").expect(&rt, "no refusal");
    let shared = Rc::new(alloc, text).expect(&rt, "no refusal");
    appends(&rt, &shared, 1);
}

/// The pairs `a`: 1 and `b`: 2.
fn pairs<C: FromRedisValue>(rt: &impl Test) -> C {
    let reply = parse_redis_value(rt.alloc(), b"%2\r\n+a\r\n:1\r\n+b\r\n:2\r\n");
    from_redis_value(rt.alloc(), reply.expect(rt, "no refusal")).expect(rt, "no refusal")
}

/// The members 1 and 2.
fn members<C: FromRedisValue>(rt: &impl Test) -> C {
    let reply = parse_redis_value(rt.alloc(), b"~2\r\n:1\r\n:2\r\n");
    from_redis_value(rt.alloc(), reply.expect(rt, "no refusal")).expect(rt, "no refusal")
}

#[test]
fn maps_and_sets_in_a_vector(rt: HostRuntime) {
    appends(&rt, &pairs::<BTreeMap<String, i64>>(&rt), 4);
    appends(&rt, &pairs::<HashMap<String, i64>>(&rt), 4);
    appends(&rt, &members::<BTreeSet<i64>>(&rt), 2);
    appends(&rt, &members::<HashSet<i64>>(&rt), 2);
}

/// The items of a slice, or of an iterator, one after another.
#[derive(Clone, Copy)]
enum Way {
    Slice,
    Each,
    Free,
    Iterator,
}

fn write(way: Way, items: &[&str], out: &mut Vec<Vec<u8>>) -> RedisResult<()> {
    match way {
        Way::Slice => <&str>::write_args_from_slice(items, out),
        Way::Each => <&str>::write_each_arg(items, out),
        Way::Free => write_each_arg(items, out),
        Way::Iterator => <&str>::make_arg_iter_ref(items.iter(), out),
    }
}

/// Two items are appended to a list.
fn appends_each(rt: &impl Test, way: Way) {
    let mut out = list(rt);
    refuse(rt.alloc());
    let answer = write(way, ["a", "b"].as_slice(), &mut out);
    appended(rt, out.as_slice(), &answer, 2);
}

#[test]
fn items_in_a_vector(rt: HostRuntime) {
    appends_each(&rt, Way::Slice);
    appends_each(&rt, Way::Each);
    appends_each(&rt, Way::Free);
    appends_each(&rt, Way::Iterator);
}

/// A part at the end of the last argument, if there is one.
fn write_part(out: &mut Vec<Vec<u8>>) -> RedisResult<()> {
    if out.is_empty() {
        return Ok(());
    }
    ("-", 12i64).write_part(out)
}

#[test]
fn arguments_of_several_parts(rt: HostRuntime) {
    appends(&rt, &Joined(("user:", 7u64, ":name")), 1);
}

/// Whether this is the old argument and its part, of which a refused one may be there in part.
fn is_extended(only: &[u8], refused: bool) -> bool {
    let is_whole = only.len() == b"old-12".len();
    only.starts_with(b"old") && b"old-12".starts_with(only) && (refused || is_whole)
}

#[test]
fn parts_of_an_argument(rt: HostRuntime) {
    let mut out = list(&rt);
    refuse(rt.alloc());
    let refused = has_run_out(&rt, write_part(&mut out));
    equal(&rt, out.len(), 1);
    let only = out.first().expect(&rt, "the old argument");
    assert!(rt; is_extended(only.as_slice(), refused));
}
