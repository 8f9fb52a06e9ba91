//! A cluster's links as one connection.

ghost use Rattle.std.specs.Prelude.{◌≡◌, ◌+◌, ◌∷◌, ◌++◌, [], ℕ, All, IfOk, List, false, length};
ghost use Rattle.resp_command.specs.Call.{AnswersFrom, Call};
ghost use Rattle.resp_command.specs.Parted.{multi_bytes};
ghost use Rattle.resp_cluster.specs.Gathered.{request_of};
ghost use Rattle.resp_cluster.specs.Routing.{RepliedTo, cluster_connection};
ghost use Rattle.resp_cluster.specs.Transactions.{PackedTransaction, RequestTogether};

use crate::cluster_link::ClusterLink;
use crate::gather::SendGroups;
use crate::links::Nodes;
use crate::packed_commands::commands_in;
use resp_command::{Cmd, ConnectionLike};
use resp_value::{ErrorKind, RedisError, RedisResult, Value};

/// The bytes that begin a transaction.
const MULTI: &[u8] = b"*1\r\n$5\r\nMULTI\r\n";

impl<N: Nodes> ClusterLink<N> {
    /// The replies to packed commands: to a transaction as [`Pipeline::query`] sends it over one
    /// node, to one command by [`ClusterLink::req_routed`], and to others by
    /// [`ClusterLink::req_commands`].
    ///
    /// [`Pipeline::query`]: resp_pipeline::Pipeline::query
    fn replies_to(&mut self, commands: &[Cmd], bytes: &[u8]) -> RedisResult<Vec<Value>>
        requires packed { request_of commands.now ≡ bytes.now }
        requires awaited { All (λ c. c.no_response ≡ false) commands.now }
        ensures answered { IfOk result (λ replies. RepliedTo N.Link.connection bytes.now
            (length commands.now) replies.items self.new) }
        ensures counted { IfOk result (λ replies. length replies.items ≡ length commands.now) }
        ensures transaction { (rest : List ℕ) → bytes.now ≡ multi_bytes ++ rest → RequestTogether
            N.Link.connection commands.now bytes.now self.old self.new result }
    {
        if bytes.starts_with(MULTI) {
            return self.req_transaction(commands, bytes);
        }
        if commands.len() == 1 {
            return self.req_one(&commands[0]);
        }
        self.req_commands(commands)
    }

    /// The reply to one command, as a list.
    fn req_one(&mut self, command: &Cmd) -> RedisResult<Vec<Value>>
        requires { command.now.no_response ≡ false }
        ensures answered { IfOk result (λ replies. RepliedTo N.Link.connection
            (request_of (command.now ∷ [])) 1 replies.items self.new) }
        ensures counted { IfOk result (λ replies. length replies.items ≡ 1) }
    {
        let mut replies = Vec::with_capacity(self.allocator(), 1)?;
        let reply = self.req_command(command)?;
        replies.push(reply)?;
        Ok(replies)
    }
}

/// A connection that routes: a command goes by [`ClusterLink::req_routed`], and so does a packed
/// one. Several packed commands go as [`ClusterLink::req_commands`] sends them, and a transaction to
/// one node. Bytes that aren't packed commands, so many as replies are wanted, are refused with kind
/// `Client`, and so is a transaction that doesn't end with `EXEC`.
impl<N: Nodes> ConnectionLike for ClusterLink<N> {
    ghost connection = { cluster_connection N.Link.connection };

    fn req_command(&mut self, cmd: &Cmd) -> RedisResult<Value> {
        self.req_routed(cmd)
    }

    fn req_packed_command(&mut self, bytes: &[u8]) -> RedisResult<Value> {
        let commands = commands_in(self.allocator(), bytes, 1)?;
        self.req_command(&commands[0])
    }

    fn req_packed_commands(
        &mut self,
        bytes: &[u8],
        offset: usize,
        count: usize,
    ) -> RedisResult<Vec<Value>>
        ensures call { Call (cluster_connection N.Link.connection self.old)
            (cluster_connection N.Link.connection self.new) ⊥ ⊥ bytes.now (offset + count) result
            (AnswersFrom (λ vs. vs.items) offset result) }
        ensures counted { IfOk result (λ vs. length vs.items ≡ count) }
        ensures transaction { (rest : List ℕ) → bytes.now ≡ multi_bytes ++ rest → PackedTransaction
            N.Link.connection bytes.now (offset + count) offset self.old self.new result }
    {
        let Some(wanted) = offset.checked_add(count) else {
            return Err(too_many());
        };
        let commands = commands_in(self.allocator(), bytes, wanted)?;
        let mut replies = self.replies_to(commands.as_slice(), bytes)?;
        let answers = replies.split_off(offset)?;
        Ok(answers)
    }

    fn supports_pipelining(&self) -> bool {
        true
    }

    fn is_open(&self) -> bool {
        match self.link() {
            Some(link) => link.is_open(),
            None => false,
        }
    }
}

fn too_many() -> RedisError {
    RedisError::from((
        ErrorKind::Client,
        "more replies are wanted than can be counted",
    ))
}
