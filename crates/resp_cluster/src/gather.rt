//! Several commands over the nodes of a cluster.

ghost use Rattle.std.specs.Prelude.{◌≡◌, ◌<◌, [], All, IfOk, IfErr, List, length, map};
ghost use Rattle.resp_errors.specs.Memory.{OnlyMemory};
ghost use Rattle.resp_cluster.specs.Gathered.{FollowedEach, Gathered, InPlaces, NodeRefuses, RefusedGroup};
ghost use Rattle.resp_cluster.specs.Gathered.{SentEach, SentGroup, StopsAt};
ghost use Rattle.resp_cluster.specs.Gathering.{AreGroups, Enough, IsGroupOf, from_last};
ghost use Rattle.resp_command.specs.Command.{Command};

use crate::node::NodeAddr;
use resp_command::Cmd;
use resp_value::{RedisError, RedisResult, Value};
use std::alloc::Global;

/// What several commands are sent by: the nodes of a cluster, and the links to them.
pub trait SendGroups {
    ghost use Rattle.std.specs.Prelude.{◌≡◌, ℕ, IfOk, List, Result, length};
    ghost use Rattle.std.specs.Global.{Vec};
    ghost use Rattle.resp_value.specs.declared.value.Value.{Value};
    ghost use Rattle.resp_errors.specs.declared.redis_error.RedisError.{RedisError};
    ghost use Rattle.resp_command.specs.Command.{Command};
    ghost use Rattle.resp_cluster.specs.declared.node.NodeAddr.{NodeAddr};

    /// What sending a node a request of so many commands does, and which replies it gives.
    ghost sends: { Self → Self → NodeAddr → List ℕ → ℕ → Result (Vec Value) RedisError
        → Type 0 };

    /// Sends a node a request of so many commands, and answers as many replies.
    fn send_group(
        &mut self,
        node: &NodeAddr,
        request: &[u8],
        count: usize,
    ) -> RedisResult<Vec<Value>>
        ensures sent { sends self.old self.new node.now request.now count result }
        ensures counted { IfOk result (λ replies. length replies.items ≡ count) };

    /// What following the reply of a node to a command does, and what is answered then.
    ghost follows: { Self → Self → NodeAddr → Command → Value → Result Value RedisError → Type 0 };

    /// Sends a command on to where the reply of a node points; one that points nowhere is the answer.
    fn follow_reply(&mut self, node: &NodeAddr, command: &Cmd, reply: Value) -> RedisResult<Value>
        ensures { follows self.old self.new node.now command.now reply result };
}

/// The commands that go to a node: their bytes, and how many they are.
#[derive(Drop)]
struct Group {
    request: Vec<u8>,
    count: usize,
}

/// Sends each node the commands that go to it, and puts each reply in the place of its command.
pub(crate) fn gather<C: SendGroups>(
    alloc: Global,
    cluster: &mut C,
    nodes: &[NodeAddr],
    commands: &[Cmd],
    targets: &[usize],
) -> RedisResult<Vec<Value>>
    requires known { All (λ node. node < length nodes.now) targets.now }
    requires each { length targets.now ≡ length commands.now }
    ensures gathered { IfOk result (λ replies. Gathered C.sends commands.now targets.now nodes.now
        cluster.old replies.items cluster.new) }
    ensures refused { IfErr result (RefusedGroup C.sends commands.now targets.now nodes.now
        cluster.old cluster.new) }
{
    let mut groups = send_groups(alloc, cluster, nodes, commands, targets)?;
    let replies = in_places(alloc, &mut groups, targets)?;
    Ok(replies)
}

/// Sends each command on to where its reply points, one after the other.
pub(crate) fn follow_each<C: SendGroups>(
    alloc: Global,
    cluster: &mut C,
    nodes: &[NodeAddr],
    commands: &[Cmd],
    targets: &[usize],
    replies: Vec<Value>,
) -> RedisResult<Vec<Value>>
    requires known { All (λ node. node < length nodes.now) targets.now }
    requires targets { length targets.now ≡ length commands.now }
    requires replies { length replies.items ≡ length commands.now }
    ensures followed { IfOk result (λ answers. FollowedEach C.follows nodes.now cluster.old
        targets.now commands.now replies.items answers.items cluster.new) }
    ensures stopped { IfErr result (λ e. StopsAt C.follows nodes.now cluster.old targets.now
        commands.now replies.items e cluster.new) }
{
    let mut answers = Vec::with_capacity(alloc, commands.len())?;
    for (place, reply) in replies.into_iter().enumerate() {
        let node = &nodes[targets[place]];
        let answer = cluster.follow_reply(node, &commands[place], reply)?;
        answers.push(answer)?;
    }
    Ok(answers)
}

/// Sends each node the commands that go to it; answers its replies, the last one first.
fn send_groups<C: SendGroups>(
    alloc: Global,
    cluster: &mut C,
    nodes: &[NodeAddr],
    commands: &[Cmd],
    targets: &[usize],
) -> RedisResult<Vec<Vec<Value>>>
    requires known { All (λ node. node < length nodes.now) targets.now }
    requires each { length targets.now ≡ length commands.now }
    ensures count { IfOk result (λ groups. length groups.items ≡ length nodes.now) }
    ensures sent { IfOk result (λ groups. SentEach C.sends commands.now targets.now 0 nodes.now
        cluster.old (map from_last groups.items) cluster.new) }
    ensures refused { IfErr result (RefusedGroup C.sends commands.now targets.now nodes.now
        cluster.old cluster.new) }
{
    let groups = groups_of(alloc, nodes.len(), commands, targets)?;
    let mut all_replies = Vec::with_capacity(alloc, nodes.len())?;
    for place in 0..nodes.len() {
        let mut replies = groups[place].send_to(alloc, cluster, &nodes[place])?;
        replies.reverse();
        all_replies.push(replies)?;
    }
    Ok(all_replies)
}

/// The commands that go to each of so many nodes.
fn groups_of(
    alloc: Global,
    nodes: usize,
    commands: &[Cmd],
    targets: &[usize],
) -> RedisResult<Vec<Group>>
    requires known { All (λ node. node < nodes) targets.now }
    requires each { length targets.now ≡ length commands.now }
    ensures count { IfOk result (λ groups. length groups.items ≡ nodes) }
    ensures parted { IfOk result (λ groups. AreGroups targets.now commands.now groups.items) }
    ensures memory { OnlyMemory result }
{
    let mut groups = no_groups(alloc, nodes)?;
    for place in 0..commands.len() {
        let group = &mut groups[targets[place]];
        commands[place].write_packed_command(&mut group.request)?;
        group.count += 1;
    }
    Ok(groups)
}

/// So many groups without commands.
fn no_groups(alloc: Global, count: usize) -> RedisResult<Vec<Group>>
    ensures count { IfOk result (λ groups. length groups.items ≡ count) }
    ensures none { IfOk result (λ groups. AreGroups [] [] groups.items) }
    ensures memory { OnlyMemory result }
{
    let mut groups = Vec::with_capacity(alloc, count)?;
    for _ in 0..count {
        groups.push(Group {
            request: Vec::new(alloc),
            count: 0,
        })?;
    }
    Ok(groups)
}

impl Group {
    /// Sends these commands to a node, if there are any.
    fn send_to<C: SendGroups>(
        &self,
        alloc: Global,
        cluster: &mut C,
        node: &NodeAddr,
    ) -> RedisResult<Vec<Value>>
        ensures sent { (commands : List Command) → IsGroupOf commands self.now
            → IfOk result (λ replies. SentGroup C.sends commands cluster.old node.now replies.items
            cluster.new) }
        ensures refused { (commands : List Command) → IsGroupOf commands self.now
            → IfErr result (λ e. NodeRefuses C.sends commands cluster.old node.now e cluster.new) }
    {
        if self.count == 0 {
            return Ok(Vec::new(alloc));
        }
        cluster.send_group(node, self.request.as_slice(), self.count)
    }
}

/// The replies of each node, which stand with the last one first, in the places of its commands.
pub(crate) fn in_places(
    alloc: Global,
    groups: &mut Vec<Vec<Value>>,
    targets: &[usize],
) -> RedisResult<Vec<Value>>
    requires known { All (λ node. node < length groups.old.items) targets.now }
    requires enough { Enough (map from_last groups.old.items) targets.now }
    ensures whole { IfOk result (λ replies. length replies.items ≡ length targets.now) }
    ensures places { IfOk result (λ replies. InPlaces (map from_last groups.old.items) targets.now
        replies.items) }
    ensures memory { OnlyMemory result }
{
    let mut replies = Vec::with_capacity(alloc, targets.len())?;
    for target in targets {
        match groups[*target].pop() {
            Some(reply) => replies.push(reply)?,
            None => unreachable!(),
        }
    }
    Ok(replies)
}
