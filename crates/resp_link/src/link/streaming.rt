//! Calls that hand on the body of a reply, or read the last argument of a command, in pieces.

ghost use Rattle.std.specs.Prelude.{◌≡◌, ◌<◌, false, length};
ghost use Rattle.resp_args.specs.Args.{Args};
ghost use Rattle.resp_link.specs.SendingBodies.{before_body, SendsFrom, SendsWith};
ghost use Rattle.resp_link.specs.Sink.{Sink};
ghost use Rattle.resp_link.specs.Streaming.{HandsOn, HandsOnReply};

use super::{ByteLink, KEPT, empty_command, link_is_broken, subscription};
use crate::request_body::{request_head, send_with_body};
use crate::sink::{CommandSink, send_all};
use crate::streamed::Streamed;
use resp_command::{Cmd, ConnectionLike};
use resp_parse::ReplySource;
use resp_value::{RedisResult, Value};

impl<S: ReplySource, K: CommandSink> ByteLink<S, K> {
    ghost use Rattle.resp_link.specs.LinkStates.{connection_at};

    /// Sends a command, and hands the body of its reply to `body` as it comes, where the reply is a
    /// bulk string: so it may be larger than memory. At most 4,096 bytes of it are held at a time.
    /// Another reply is answered, and nothing is handed on.
    ///
    /// The taker of the body is any [`CommandSink`], such as [`Writing`](crate::Writing) over a
    /// writer. It isn't flushed.
    ///
    /// The call is refused as [`ConnectionLike::req_command`] is. Once the header of a body was
    /// taken, a refusal leaves a beginning of the body with its taker and the link broken, as does
    /// the taker's own failure, with kind `Io` and the text `body wasn't taken`. A body that is
    /// announced with more bytes than [`ByteLink::limits`] leave it is refused as
    /// [`FrameFault::TooLong`](resp_value::FrameFault) at once.
    pub fn req_command_into<B: CommandSink>(
        &mut self,
        cmd: &Cmd,
        body: &mut B,
    ) -> RedisResult<Streamed>
        ensures { HandsOnReply (⟦<ByteLink<S, K> as ConnectionLike>⟧.connection self.old)
            (⟦<ByteLink<S, K> as ConnectionLike>⟧.connection self.new) cmd.now
            (B.sink body.old) (B.sink body.new) result }
    {
        if self.broken {
            return Err(link_is_broken());
        }
        if cmd.is_empty() {
            return Err(empty_command());
        }
        if cmd.is_unanswered() {
            return Err(subscription());
        }
        let bytes = cmd.get_packed_command()?;
        if cmd.is_no_response() {
            return self.send_alone(bytes.as_slice());
        }
        self.exchange_into(bytes.as_slice(), body)
    }

    /// Sends a command with one argument more, which has `len` bytes and is read from `body` as it is
    /// sent: so it may be larger than memory. At most 4,096 bytes of it are held at a time. The reply
    /// is answered as [`ConnectionLike::req_command`] answers it.
    ///
    /// What gives the body is any [`ReplySource`], such as [`Reading`](resp_parse::Reading) over a
    /// reader. It is asked for `len` bytes and no more.
    ///
    /// The call is refused as [`ConnectionLike::req_command`] is. A body that ends before its `len`
    /// bytes are there is refused with kind `Io` and the text `body ended early`, one that fails with
    /// `body wasn't read`; the link is broken then, since a part of the request was sent. `OutOfMemory`
    /// before anything was sent leaves the link as it was.
    pub fn req_command_from<B: ReplySource>(
        &mut self,
        cmd: &Cmd,
        len: usize,
        body: &mut B,
    ) -> RedisResult<Value>
        ensures { SendsFrom (⟦<ByteLink<S, K> as ConnectionLike>⟧.connection self.old)
            (⟦<ByteLink<S, K> as ConnectionLike>⟧.connection self.new) cmd.now len
            (B.source body.old) (B.source body.new) result }
    {
        if self.broken {
            return Err(link_is_broken());
        }
        if cmd.is_empty() {
            return Err(empty_command());
        }
        if cmd.is_unanswered() {
            return Err(subscription());
        }
        let head = request_head(cmd, len)?;
        let mut chunk = Vec::new(self.alloc);
        chunk.resize(KEPT, 0)?;
        if cmd.is_no_response() {
            return self.send_from(head.as_slice(), body, len, chunk.as_mut_slice());
        }
        self.exchange_from(head.as_slice(), body, len, chunk.as_mut_slice())
    }

    /// Sends a request whose last argument is read, and which needs no reply.
    fn send_from<B: ReplySource>(
        &mut self,
        head: &[u8],
        body: &mut B,
        len: usize,
        chunk: &mut [u8],
    ) -> RedisResult<Value>
        requires works { self.old.broken ≡ false }
        requires chunk { 0 < length chunk.old }
        ensures sends { (args : Args) → head.now ≡ before_body args len → SendsWith
            (connection_at S.source K.sink self.old)
            (connection_at S.source K.sink self.new)
            args len 0 (B.source body.old) (B.source body.new) result }
    {
        self.broken = true;
        send_with_body(&mut self.sink, head, body, len, chunk)?;
        self.broken = false;
        Ok(Value::Nil)
    }

    /// Sends a request whose last argument is read, and takes its reply.
    fn exchange_from<B: ReplySource>(
        &mut self,
        head: &[u8],
        body: &mut B,
        len: usize,
        chunk: &mut [u8],
    ) -> RedisResult<Value>
        requires works { self.old.broken ≡ false }
        requires chunk { 0 < length chunk.old }
        ensures sends { (args : Args) → head.now ≡ before_body args len → SendsWith
            (connection_at S.source K.sink self.old)
            (connection_at S.source K.sink self.new)
            args len 1 (B.source body.old) (B.source body.new) result }
    {
        self.broken = true;
        send_with_body(&mut self.sink, head, body, len, chunk)?;
        let reply = self.inbox.next_reply()?;
        self.broken = false;
        Ok(reply)
    }

    /// Sends a request that needs no reply.
    fn send_alone(&mut self, bytes: &[u8]) -> RedisResult<Streamed>
        requires { self.old.broken ≡ false }
        ensures hands { (b : Sink) → HandsOn
            (connection_at S.source K.sink self.old)
            (connection_at S.source K.sink self.new)
            b b bytes.now 0 result }
    {
        self.broken = true;
        send_all(&mut self.sink, bytes)?;
        self.broken = false;
        Ok(Streamed::Reply(Value::Nil))
    }

    /// Sends a request and hands on the body of its reply.
    fn exchange_into<B: CommandSink>(&mut self, bytes: &[u8], body: &mut B) -> RedisResult<Streamed>
        requires { self.old.broken ≡ false }
        ensures hands { HandsOn
            (connection_at S.source K.sink self.old)
            (connection_at S.source K.sink self.new)
            (B.sink body.old) (B.sink body.new) bytes.now 1 result }
    {
        self.broken = true;
        send_all(&mut self.sink, bytes)?;
        let streamed = self.inbox.next_streamed(body)?;
        self.broken = false;
        Ok(streamed)
    }
}
