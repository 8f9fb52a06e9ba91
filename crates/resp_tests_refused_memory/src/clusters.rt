//! Clusters over links in memory: what a call leaves where memory runs out in it, and that the next
//! command is answered by the reply to it.

use crate::changes::{Change, changes};
use crate::heap::{
    Test, debug_text, equal, has_run_out, made, refuse, succeeds, unless_out, was_refused,
};
use crate::links::{Asked, Link, Until, answered, link, sent};
use crate::scans::is_one_of;
use crate::subjects::{Subject, taken_text};
use resp_cluster::{
    ClusterLink, NodeAddr, Nodes, PortKind, ReadOnly, Redirect, RouteError, SendCommand, SlotMap,
    TopologyError, read_only, redirect_of, route,
};
use resp_core::{
    ByteLink, Cmd, ConnectionLike, ErrorKind, Parser, Pipeline, RedisError, RedisResult, Text,
    Value, cmd, parse_redis_value, pipe,
};
use std::alloc::{AllocError, Global};
use std::fmt::Debug;
use std::io::Cursor;
use std::mem;

/// The slot of `bar`.
pub const BAR: u16 = 5061;

/// The slot of `foo`.
pub const FOO: u16 = 12182;

/// A reply to `CLUSTER SLOTS`: the lower half of the slots is at `a`, with the replica `c`, and the
/// other at `b`.
const SLOTS: &[u8] = b"*2\r\n\
    *4\r\n:0\r\n:8191\r\n*2\r\n$1\r\na\r\n:7001\r\n*2\r\n$1\r\nc\r\n:7003\r\n\
    *3\r\n:8192\r\n:16383\r\n*2\r\n$1\r\nb\r\n:7002\r\n";

/// The same as a reply to `CLUSTER SHARDS`.
const SHARDS: &[u8] = b"*2\r\n\
    %2\r\n$5\r\nslots\r\n*2\r\n:0\r\n:8191\r\n$5\r\nnodes\r\n*2\r\n\
    %3\r\n$4\r\nport\r\n:7001\r\n$8\r\nendpoint\r\n$1\r\na\r\n$4\r\nrole\r\n$6\r\nmaster\r\n\
    %3\r\n$4\r\nport\r\n:7003\r\n$8\r\nendpoint\r\n$1\r\nc\r\n$4\r\nrole\r\n$7\r\nreplica\r\n\
    %2\r\n$5\r\nslots\r\n*2\r\n:8192\r\n:16383\r\n$5\r\nnodes\r\n*1\r\n\
    %3\r\n$4\r\nport\r\n:7002\r\n$8\r\nendpoint\r\n$1\r\nb\r\n$4\r\nrole\r\n$6\r\nmaster\r\n";

/// What shows of the map.
const RANGES: &str = "[SlotRange { first: 0, last: 8191, \
    primary: Some(NodeAddr { host: \"a\", port: 7001 }), \
    replicas: [NodeAddr { host: \"c\", port: 7003 }] }, \
    SlotRange { first: 8192, last: 16383, \
    primary: Some(NodeAddr { host: \"b\", port: 7002 }), replicas: [] }]";

/// The node of a host of one letter.
pub fn node(rt: &impl Test, host: &str, port: u16) -> NodeAddr {
    let host = Text::from_str(rt.alloc(), host).expect(rt, "no refusal");
    NodeAddr { host, port }
}

fn reply(rt: &impl Test, bytes: &[u8]) -> Value {
    parse_redis_value(rt.alloc(), bytes).expect(rt, "no refusal")
}

/// The map.
pub fn map(rt: &impl Test) -> SlotMap {
    let map = SlotMap::from_slots_reply(rt.alloc(), &reply(rt, SLOTS), "a");
    map.map_err(of_topology).expect(rt, "a map")
}

/// Want of memory, or that there is no map.
fn of_topology(error: TopologyError) -> RedisError {
    match error {
        TopologyError::OutOfMemory => RedisError::OutOfMemory,
        _other => RedisError::from((ErrorKind::Client, "no map")),
    }
}

/// What a map shows.
fn map_text(rt: &impl Test, map: &SlotMap) -> String {
    debug_text(rt, &map.ranges())
}

/// The map shows like this.
fn is_map(rt: &impl Test, map: &SlotMap, wanted: &str) {
    let shown = map_text(rt, map);
    equal(rt, shown.as_str(), wanted);
}

/// The reply gave the map, or memory ran out.
fn gives_map(rt: &impl Test, answer: Result<SlotMap, TopologyError>) {
    if let Some(map) = unless_out(rt, answer.map_err(of_topology)) {
        is_map(rt, &map, RANGES);
    }
}

#[test]
fn maps_of_replies(rt: HostRuntime) {
    let slots = reply(&rt, SLOTS);
    refuse(rt.alloc());
    gives_map(&rt, SlotMap::from_slots_reply(rt.alloc(), &slots, "x"));
    let shards = reply(&rt, SHARDS);
    refuse(rt.alloc());
    let answer = SlotMap::from_shards_reply(rt.alloc(), &shards, "x", &PortKind::Plain);
    gives_map(&rt, answer);
}

#[test]
fn nodes_of_maps(rt: HostRuntime) {
    let a = node(&rt, "a", 7001);
    let (b, c) = (node(&rt, "b", 7002), node(&rt, "c", 7003));
    let map = map(&rt);
    makes! { rt; a.try_clone(rt.alloc()) => a }
    makes! { rt; map.primaries(rt.alloc()) => [&a, &b] }
    makes! { rt; map.nodes(rt.alloc()) => [&a, &c, &b] }
}

/// Redirects as the specification of a cluster has them.
#[test]
fn redirects(rt: HostRuntime) {
    let to = node(&rt, "127.0.0.1", 6381);
    let moved = reply(&rt, b"-MOVED 3999 127.0.0.1:6381\r\n");
    makes! { rt; redirect_of(rt.alloc(), &moved, "a") => Redirect::Moved(3999, to) }
    let to = node(&rt, "a", 6381);
    let ask = reply(&rt, b"-ASK 3999 :6381\r\n");
    makes! { rt; redirect_of(rt.alloc(), &ask, "a") => Redirect::Ask(to) }
}

/// A map of so many ranges, of one slot each.
impl Subject for SlotMap {
    const SIZES: usize = 6;

    fn of_size<R: Test>(rt: &R, size: usize) -> SlotMap {
        let mut map = SlotMap::new(rt.alloc());
        for (slot, _range) in (0u16..100).zip(0..size) {
            let set = map.set_primary(slot, node(rt, "a", 7001));
            set.expect(rt, "no refusal");
        }
        map
    }

    fn shows<R: Test>(&mut self, rt: &R) -> String {
        map_text(rt, self)
    }
}

/// A slot is at another node.
#[derive(Clone, Copy)]
struct SetPrimary(u16);

impl Change for SetPrimary {
    type Object = SlotMap;

    fn apply(self, alloc: Global, to: &mut SlotMap) -> RedisResult<()> {
        let host = Text::from_str(alloc, "b")?;
        Ok(to.set_primary(self.0, NodeAddr { host, port: 7002 })?)
    }
}

/// One slot that has a range of its own, if there is any, and one that has none.
#[test]
fn slots_that_move(rt: HostRuntime) {
    changes(&rt, [SetPrimary(0), SetPrimary(99)].as_slice());
}

/// Nodes of which the first that a command is sent to moves it to `b`. What comes of a send is which
/// one it is.
#[derive(Drop)]
pub struct Moving {
    pub alloc: Global,
    pub sends: usize,
}

impl SendCommand<usize> for Moving {
    ghost use Rattle.std.specs.Prelude.{⊤};

    ghost sends = { λ _ _ _ _ _ _. ⊤ };

    ghost redirects = { λ _ _ _. ⊤ };

    fn send(&mut self, _command: &Cmd, _node: &NodeAddr, _asking: bool) -> usize {
        self.sends = self.sends.saturating_add(1);
        self.sends
    }

    fn redirect_of(&self, _node: &NodeAddr, sent: &usize) -> Result<Redirect, AllocError> {
        if *sent > 1 {
            return Ok(Redirect::Stays);
        }
        let host = Text::from_str(self.alloc, "b")?;
        Ok(Redirect::Moved(BAR, NodeAddr { host, port: 7002 }))
    }
}

/// How a command ended, and which send that was.
fn end_of(answer: Result<usize, RouteError<usize>>) -> (char, usize) {
    match answer {
        Ok(sent) => ('A', sent),
        Err(RouteError::Unfollowed(sent)) => ('U', sent),
        Err(RouteError::OutOfMemory) => ('M', 0),
        Err(RouteError::NoNode) => ('N', 0),
    }
}

/// The port of the primary of `bar`.
fn primary_of_bar(map: &SlotMap) -> u16 {
    match map.primary_at(BAR) {
        Some(node) => node.port,
        None => 0,
    }
}

/// It is answered by the second node, which the map then has; or nothing was sent, or its redirect
/// was not followed, and the map is as it was.
#[test]
fn routes(rt: HostRuntime) {
    let command = get_bar(&rt);
    let mut map = map(&rt);
    let mut nodes = Moving {
        alloc: rt.alloc(),
        sends: 0,
    };
    refuse(rt.alloc());
    let answer = route(rt.alloc(), &mut nodes, &mut map, &command, BAR, 3);
    let refused = was_refused(rt.alloc());
    let (end, sent) = end_of(answer);
    let primary = primary_of_bar(&map);
    let shown = format!(in rt.alloc(); "{end}{sent} {} {primary}", nodes.sends);
    let wanted = ["A2 2 7002", "M0 0 7001", "U1 1 7001"];
    is_one_of(
        &rt,
        (shown.expect(&rt, "no refusal"), refused),
        wanted.as_slice(),
    );
    let node = node(&rt, "a", 7001);
    makes! { rt; nodes.redirect_of(&node, &2) => Redirect::Stays }
}

/// Opens links in memory. Over the first one to `a` these bytes come in. Else the replies are numbers:
/// the first digit is that of the port, and the second says which request of the link it is.
#[derive(Drop)]
pub struct Script {
    pub alloc: Global,
    pub first: &'static [u8],
}

/// The replies of `a`.
const OF_A: &[u8] = b":11\r\n:12\r\n:13\r\n:14\r\n:15\r\n:16\r\n:17\r\n:18\r\n:19\r\n";

/// The replies of `b`.
const OF_B: &[u8] = b":21\r\n:22\r\n:23\r\n:24\r\n:25\r\n:26\r\n:27\r\n:28\r\n:29\r\n";

/// The replies of `c`.
const OF_C: &[u8] = b":31\r\n:32\r\n:33\r\n:34\r\n:35\r\n:36\r\n:37\r\n:38\r\n:39\r\n";

impl Script {
    /// What comes in over the next link to this port.
    fn incoming(&self, port: u16) -> &'static [u8] {
        match port {
            7001 => self.first,
            7002 => OF_B,
            _ => OF_C,
        }
    }
}

impl Nodes for Script {
    type Link = Link;

    fn connect(&mut self, node: &NodeAddr) -> RedisResult<Link> {
        let incoming = Vec::from_slice(self.alloc, self.incoming(node.port))?;
        let sent = Vec::with_capacity(self.alloc, 1000)?;
        if node.port == 7001 {
            self.first = OF_A;
        }
        Ok(ByteLink::new(self.alloc, Cursor::new(incoming), sent))
    }
}

pub type Cluster = ClusterLink<Script>;

/// A script in which these bytes come in first over the first link to `a`.
pub fn scripted(rt: &impl Test, first: &'static [u8]) -> Script {
    Script {
        alloc: rt.alloc(),
        first,
    }
}

/// A cluster over that script, which has the map.
fn cluster(rt: &impl Test, first: &'static [u8]) -> Cluster {
    ClusterLink::new(rt.alloc(), scripted(rt, first), map(rt), 3)
}

/// The command of these words.
fn command(rt: &impl Test, line: &str) -> Cmd {
    let mut command = Cmd::new(rt.alloc());
    for word in line.split(' ') {
        command.push_arg(word).expect(rt, "no refusal");
    }
    command
}

/// `GET bar`.
pub fn get_bar(rt: &impl Test) -> Cmd {
    command(rt, "GET bar")
}

/// How many requests were sent, and whether the map was asked for: no other command here has an `R`
/// in it.
fn requests_in(sent: &[u8]) -> (usize, bool) {
    let (mut count, mut asks_map) = (0usize, false);
    for byte in sent {
        match byte {
            b'*' => count = count.saturating_add(1),
            b'R' => asks_map = true,
            _ => {}
        }
    }
    (count, asks_map)
}

/// What was sent to a node; its link has no more.
fn sent_to(rt: &impl Test, con: &mut Cluster, node: &NodeAddr) -> (usize, bool) {
    let lent: &mut Link = con.link_to(node).expect(rt, "no refusal");
    let used = mem::replace(lent, link(rt, b""));
    let sent = sent(used);
    requests_in(sent.as_slice())
}

/// What shows of the reply that stands at this place among these, counted from 1.
fn nth(rt: &impl Test, replies: &[u8], place: usize) -> String {
    let mut parser = Parser::new(rt.alloc());
    parser.feed(replies).expect(rt, "no refusal");
    let mut text = String::new(rt.alloc());
    for _reply in 0..place {
        text = taken_text(rt, &mut parser);
    }
    text
}

/// The next command is answered by the reply to it: by as many requests as were sent over its link.
/// These bytes came in over the first link to `a`. Whether the map was asked for.
fn answers_in_turn(rt: &impl Test, con: &mut Cluster, first: &[u8]) -> bool {
    let answer = con.req_routed(&get_bar(rt)).expect(rt, "no refusal");
    let (of_a, asks_map) = sent_to(rt, con, &node(rt, "a", 7001));
    let (of_b, _) = sent_to(rt, con, &node(rt, "b", 7002));
    let (one, other) = (nth(rt, first, of_a), nth(rt, OF_A, of_a));
    let third = nth(rt, OF_B, of_b);
    let wanted = [one.as_str(), other.as_str(), third.as_str()];
    is_one_of(rt, (debug_text(rt, &Some(answer)), true), wanted.as_slice());
    asks_map
}

/// Whether the link that was used last is broken.
fn is_broken(con: &Cluster) -> bool {
    match con.link() {
        Some(link) => link.is_broken(),
        None => false,
    }
}

const OUT: &str = "Err(out of memory)";

/// Whether a redirect was not followed.
fn is_redirect(shown: &str) -> bool {
    shown.starts_with("Ok(Server error") || shown.starts_with("Ok([Server error")
}

/// The call answered the first of these, or memory ran out in it, and it answered one of them. The
/// next command is answered; before it the map is asked for where the call broke a link or followed
/// no redirect.
fn asked<T: Debug + Drop>(
    rt: &impl Test,
    mut con: Cluster,
    answer: RedisResult<T>,
    (first, wanted): (&[u8], &[&str]),
) {
    let refused = was_refused(rt.alloc());
    let shown = debug_text(rt, &answer);
    let is_stale = is_broken(&con) || is_redirect(shown.as_str());
    is_one_of(rt, (shown, refused), wanted);
    let asks_map = answers_in_turn(rt, &mut con, first);
    assert!(rt; asks_map || !is_stale);
}

/// The first command is sent on to `b`, and after it come the numbers.
const MOVED: &[u8] = b"-MOVED 5061 b:7002\r\n:12\r\n:13\r\n:14\r\n:15\r\n";

/// The same, this once.
const ASK: &[u8] = b"-ASK 5061 b:7002\r\n:12\r\n:13\r\n:14\r\n:15\r\n";

/// What comes in first, and what is answered: with ample memory, and else.
type Answers = (&'static [u8], &'static [&'static str]);

/// Where a node isn't reached, the primaries are asked for the map, before the command goes once
/// more; where a redirect isn't followed, it is the answer.
const ONE: &[Answers] = &[
    (OF_A, &["Ok(int(11))", OUT, "Ok(int(12))"]),
    (
        MOVED,
        &["Ok(int(21))", OUT, "Ok(int(12))", "Ok(int(22))", UNMOVED],
    ),
    (
        ASK,
        &["Ok(int(22))", OUT, "Ok(int(12))", "Ok(int(13))", UNASKED],
    ),
];

const UNMOVED: &str = "Ok(Server error: `MOVED: 5061 b:7002`)";

const UNASKED: &str = "Ok(Server error: `ASK: 5061 b:7002`)";

fn asks_one(rt: &impl Test, (first, wanted): Answers) {
    let get = get_bar(rt);
    let mut con = cluster(rt, first);
    refuse(rt.alloc());
    let answer = con.req_routed(&get);
    asked(rt, con, answer, (first, wanted));
}

#[test]
fn one_command(rt: HostRuntime) {
    for answers in ONE {
        asks_one(&rt, *answers);
    }
}

/// Of `GET bar` and `GET foo`.
const TWO: &[Answers] = &[
    (OF_A, &["Ok([int(11), int(21)])", OUT]),
    (
        MOVED,
        &[
            "Ok([int(22), int(21)])",
            OUT,
            "Ok([Server error: `MOVED: 5061 b:7002`, int(21)])",
        ],
    ),
    (
        ASK,
        &[
            "Ok([int(23), int(21)])",
            OUT,
            "Ok([Server error: `ASK: 5061 b:7002`, int(21)])",
        ],
    ),
];

fn asks_two(rt: &impl Test, (first, wanted): Answers) {
    let commands = [get_bar(rt), command(rt, "GET foo")];
    let mut con = cluster(rt, first);
    refuse(rt.alloc());
    let answer = con.req_commands(commands.as_slice());
    asked(rt, con, answer, (first, wanted));
}

#[test]
fn several_commands(rt: HostRuntime) {
    for answers in TWO {
        asks_two(&rt, *answers);
    }
}

/// A pipeline of `GET` of these keys.
fn gets(rt: &impl Test, lines: [&str; 2]) -> Pipeline {
    let mut pipeline = pipe(rt.alloc());
    for line in lines {
        pipeline
            .push_command(command(rt, line))
            .expect(rt, "no refusal");
    }
    pipeline
}

#[test]
fn pipelines(rt: HostRuntime) {
    let pipeline = gets(&rt, ["GET bar", "GET foo"]);
    let wanted = ["Ok((11, 21))", OUT];
    let mut con = cluster(&rt, OF_A);
    refuse(rt.alloc());
    let answer: RedisResult<(i64, i64)> = con.query_pipeline(&pipeline);
    asked(&rt, con, answer, (OF_A, wanted.as_slice()));
    let mut con = cluster(&rt, OF_A);
    refuse(rt.alloc());
    let answer: RedisResult<(i64, i64)> = pipeline.query(&mut con);
    asked(&rt, con, answer, (OF_A, wanted.as_slice()));
}

/// What a transaction of two commands is answered.
const DONE: &[u8] = b"+OK\r\n+QUEUED\r\n+QUEUED\r\n*2\r\n:1\r\n:2\r\n:15\r\n:16\r\n:17\r\n";

#[test]
fn transactions(rt: HostRuntime) {
    let mut pipeline = gets(&rt, ["GET bar", "GET {bar}"]);
    let _ = pipeline.atomic();
    let mut con = cluster(&rt, DONE);
    refuse(rt.alloc());
    let answer: RedisResult<(i64, i64)> = con.query_pipeline(&pipeline);
    asked(&rt, con, answer, (DONE, ["Ok((1, 2))", OUT].as_slice()));
}

/// A command that goes to several nodes, what comes in first, and the answer.
type Line = (&'static str, &'static [u8], &'static str);

/// Commands whose keys are in several slots.
const SPLIT: &[Line] = &[
    ("DEL bar foo", OF_A, "Ok(int(32))"),
    (
        "MGET bar {bar}",
        b"*2\r\n+x\r\n$1\r\ny\r\n:12\r\n:13\r\n",
        "Ok(array([simple-string(\"x\"), bulk-string('\"y\"')]))",
    ),
    ("MSET bar 1", b"+OK\r\n:12\r\n:13\r\n", "Ok(ok)"),
];

fn asks_split(rt: &impl Test, (line, first, wanted): Line) {
    let command = command(rt, line);
    let mut con = cluster(rt, first);
    refuse(rt.alloc());
    let answer = con.req_split(&command);
    asked(rt, con, answer, (first, [wanted, OUT].as_slice()));
}

#[test]
fn commands_that_are_split(rt: HostRuntime) {
    for line in SPLIT {
        asks_split(&rt, *line);
    }
}

/// Commands without keys: the sum, all, and the least of the replies of the primaries.
const FANNED_OUT: &[Line] = &[
    ("DBSIZE", OF_A, "Ok(int(32))"),
    ("KEYS x", OF_A, "Ok(array([int(11), int(21)]))"),
    ("WAIT 0 0", OF_A, "Ok(int(11))"),
];

fn asks_each(rt: &impl Test, (line, first, wanted): Line) {
    let command = command(rt, line);
    let mut con = cluster(rt, first);
    refuse(rt.alloc());
    let answer = con.req_fan_out(&command);
    asked(rt, con, answer, (first, [wanted, OUT].as_slice()));
}

#[test]
fn commands_to_each_node(rt: HostRuntime) {
    for line in FANNED_OUT {
        asks_each(&rt, *line);
    }
}

/// The reply to `CLUSTER SLOTS`, and numbers after it.
const MAPPED: &[u8] = b"*2\r\n\
    *4\r\n:0\r\n:8191\r\n*2\r\n$1\r\na\r\n:7001\r\n*2\r\n$1\r\nc\r\n:7003\r\n\
    *3\r\n:8192\r\n:16383\r\n*2\r\n$1\r\nb\r\n:7002\r\n:12\r\n:13\r\n";

/// The first node has no map and the second one has; or memory ran out for the map of the second.
#[test]
fn clusters_that_are_opened(rt: HostRuntime) {
    let seeds = [node(&rt, "b", 7002), node(&rt, "a", 7001)];
    let nodes = scripted(&rt, MAPPED);
    refuse(rt.alloc());
    let opened = ClusterLink::open(rt.alloc(), nodes, seeds.as_slice(), 3).map_err(
        RedisError::from,
    );
    if let Some(mut con) = unless_out(&rt, opened) {
        is_map(&rt, con.map(), RANGES);
        let _ = answers_in_turn(&rt, &mut con, MAPPED);
    }
}

/// What a transaction is answered in which a command is refused, then the map, and then numbers.
const ABORTED: &[u8] = b"+OK\r\n-ERR x\r\n+QUEUED\r\n-EXECABORT y\r\n*2\r\n\
    *4\r\n:0\r\n:8191\r\n*2\r\n$1\r\na\r\n:7001\r\n*2\r\n$1\r\nc\r\n:7003\r\n\
    *3\r\n:8192\r\n:16383\r\n*2\r\n$1\r\nb\r\n:7002\r\n:16\r\n:17\r\n";

/// A cluster that has an older map, in which one slot is elsewhere, and asks for a newer one before the
/// next command.
fn stale(rt: &impl Test) -> Cluster {
    let mut older = map(rt);
    let set = older.set_primary(99, node(rt, "b", 7002));
    set.expect(rt, "no refusal");
    let mut con = ClusterLink::new(rt.alloc(), scripted(rt, ABORTED), older, 3);
    let mut pipeline = gets(rt, ["GET bar", "GET {bar}"]);
    let _ = pipeline.atomic();
    let aborted: RedisResult<()> = con.query_pipeline(&pipeline);
    assert!(rt; aborted.is_err());
    con
}

/// The map is the newer one; or memory ran out for it, and it is the older one.
#[test]
fn a_map_that_is_asked_for(rt: HostRuntime) {
    let get = command(&rt, "GET foo");
    let mut con = stale(&rt);
    let older = map_text(&rt, con.map());
    refuse(rt.alloc());
    let answer = con.req_routed(&get);
    let refused = was_refused(rt.alloc());
    let maps = [RANGES, older.as_str()];
    is_one_of(&rt, (map_text(&rt, con.map()), refused), maps.as_slice());
    let answers = ["Ok(int(22))", OUT, "Ok(int(21))"];
    is_one_of(&rt, (debug_text(&rt, &answer), refused), answers.as_slice());
    let _ = answers_in_turn(&rt, &mut con, ABORTED);
}

/// Has a link to a node, or memory runs out, and the cluster has none; then it has one.
fn reaches(rt: &impl Test, con: &mut Cluster, node: &NodeAddr) {
    refuse(rt.alloc());
    if has_run_out(rt, con.reach(node)) {
        assert!(rt; con.link().is_none());
        succeeds(rt, con.reach(node));
    }
    assert!(rt; con.link().is_some());
}

#[test]
fn links_to_nodes(rt: HostRuntime) {
    let (a, b) = (node(&rt, "a", 7001), node(&rt, "b", 7002));
    let mut con = cluster(&rt, OF_A);
    reaches(&rt, &mut con, &b);
    refuse(rt.alloc());
    let lent = con.link_to(&a).map(|link| link.is_open());
    made(&rt, lent, &true);
    assert!(rt; !answers_in_turn(&rt, &mut con, OF_A));
}

#[test]
fn links_that_only_read(rt: HostRuntime) {
    let incoming = b"+OK\r\n:7\r\n";
    let mut con = link(&rt, incoming);
    refuse(rt.alloc());
    let answer = read_only(&mut con);
    let request = b"*1\r\n$8\r\nREADONLY\r\n".len();
    let asked = Asked { incoming, request };
    answered(&rt, (con, asked, Until::Replies), answer, "Ok(())");
    let mut nodes = ReadOnly {
        nodes: scripted(&rt, OF_A),
    };
    let a = node(&rt, "a", 7001);
    makes! { rt; nodes.connect(&a).map(|link| link.is_open()) => true }
}

/// Commands that only read are answered by the replica, over a link that was told so by `READONLY`.
#[test]
fn reads_from_replicas(rt: HostRuntime) {
    let get = get_bar(&rt);
    let nodes = ReadOnly {
        nodes: scripted(&rt, OF_A),
    };
    let mut con = ClusterLink::new(rt.alloc(), nodes, map(&rt), 3);
    con.read_from_replicas();
    refuse(rt.alloc());
    let answer = con.req_routed(&get);
    let refused = was_refused(rt.alloc());
    let answers = ["Ok(int(32))", OUT];
    is_one_of(&rt, (debug_text(&rt, &answer), refused), answers.as_slice());
    let later = con.req_routed(&get);
    let answers = ["Ok(int(33))", "Ok(int(32))", "Ok(int(34))"];
    is_one_of(&rt, (debug_text(&rt, &later), refused), answers.as_slice());
}
