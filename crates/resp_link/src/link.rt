//! A connection over bytes.

ghost use Rattle.std.specs.Prelude.{◌≡◌, ◌↔◌, ◌+◌, [], true, false, Ok, IsOk, IfOk, IfErr, length};
ghost use Rattle.resp_parse.specs.State.{IsBetweenValues, IsBetweenValues-prop};
ghost use Rattle.resp_parse.specs.Limits.{AreLimits, RefusesLimits, IsDepthLimit, of_depth, usual};
ghost use Rattle.resp_parse.specs.Limits.{depth_refused};
ghost use Rattle.resp_parse.specs.Source.{fresh_source};
ghost use Rattle.resp_link.specs.Sink.{fresh_sink};
ghost use Rattle.resp_command.specs.Call.{AnswersReply, AnswersFrom, broken_link, no_command};
ghost use Rattle.resp_command.specs.Call.{no_reply};
ghost use Rattle.resp_link.specs.Receiving.{unread};
ghost use Rattle.resp_link.specs.Linking.{BetweenUnless, connection_of};
ghost use Rattle.resp_command.specs.NextPush.{NextPush};
ghost use Rattle.resp_command.specs.Connection.{Exchange};

use crate::inbox::Inbox;
use crate::messages::as_one_result;
use crate::pushes::Pushes;
use crate::sink::{CommandSink, send_all};
use crate::writer_sink::Writing;
use resp_command::{Cmd, ConnectionLike, PushSource, Unrouted};
use resp_parse::{Limits, Parser, Reading, ReplySource};
use resp_value::{ErrorKind, PushInfo, RedisError, RedisResult, Value};
use std::alloc::Global;
use std::collections::VecDeque;
use std::io::{Read, Write};

mod streaming;

/// Room of at most so many bytes is kept from request to request.
const KEPT: usize = 4096;

/// A connection over a source and a sink of bytes.
///
/// A call writes its request whole and flushes, then takes the replies. The source is asked, for at
/// most 4096 bytes a time, only while what was received is no reply yet; later bytes are kept for
/// the next call. Pushes that come before a reply are set aside, up to the limit on their bytes;
/// [`ByteLink::next_push`] waits for one.
pub struct ByteLink<S, K> {
    alloc: Global,
    inbox: Inbox<S>,
    sink: K,
    broken: bool,
    /// Room for the next request.
    room: Vec<u8>,
    ghost between: { BetweenUnless broken inbox.parser } by { Prim.hlevel IsBetweenValues-prop },
}

/// By hand, so that the proof of a function that owns one has a call where it is dropped, and not a
/// case for each part.
impl<S: Drop, K: Drop> Drop for ByteLink<S, K> {
    #[inline(always)]
    fn drop(self) {
        let ByteLink {
            alloc: _,
            inbox: _,
            sink: _,
            broken: _,
            room: _,
        } = self;
    }
}

impl<R: Read, W: Write> ByteLink<Reading<R>, Writing<W>> {
    /// A link over a reader and a writer. Replies are read within [`Limits::default`].
    pub fn new(alloc: Global, reader: R, writer: W) -> ByteLink<Reading<R>, Writing<W>>
        ensures { ⟦<ByteLink<Reading<R>, Writing<W>> as ConnectionLike>⟧.connection result
            ≡ connection_of (unread usual (fresh_source (R.remaining reader)))
            (fresh_sink (W.contents writer)) false }
    {
        ByteLink::over(alloc, Reading::new(reader), Writing::new(writer))
    }
}

impl<R: Read + Drop, W: Write + Drop> ByteLink<Reading<R>, Writing<W>> {
    /// A link over a reader and a writer, whose replies are read within `limits`. Fails as
    /// [`ByteLink::over_with_limits`] does.
    pub fn with_limits(
        alloc: Global,
        reader: R,
        writer: W,
        limits: Limits,
    ) -> RedisResult<ByteLink<Reading<R>, Writing<W>>>
        ensures accepts { IsOk result ↔ AreLimits limits }
        ensures made { IfOk result (λ link.
            ⟦<ByteLink<Reading<R>, Writing<W>> as ConnectionLike>⟧.connection link
            ≡ connection_of (unread limits (fresh_source (R.remaining reader)))
            (fresh_sink (W.contents writer)) false) }
        ensures error { IfErr result (RefusesLimits limits) }
    {
        ByteLink::over_with_limits(alloc, Reading::new(reader), Writing::new(writer), limits)
    }

    /// A link over a reader and a writer, whose replies are read down to `limit` levels. Fails as
    /// [`ByteLink::over_with_depth_limit`] does.
    pub fn with_depth_limit(
        alloc: Global,
        reader: R,
        writer: W,
        limit: usize,
    ) -> RedisResult<ByteLink<Reading<R>, Writing<W>>>
        ensures accepts { IsOk result ↔ IsDepthLimit limit }
        ensures made { IfOk result (λ link.
            ⟦<ByteLink<Reading<R>, Writing<W>> as ConnectionLike>⟧.connection link
            ≡ connection_of (unread (of_depth limit) (fresh_source (R.remaining reader)))
            (fresh_sink (W.contents writer)) false) }
        ensures error { IfErr result (λ e. e ≡ depth_refused) }
    {
        ByteLink::over_with_depth_limit(alloc, Reading::new(reader), Writing::new(writer), limit)
    }
}

impl<S: ReplySource + Drop, K: CommandSink + Drop> ByteLink<S, K> {
    /// A link over a source and a sink, whose replies are read within `limits`: from 1 to 1,000
    /// levels, the outermost value being the first, and from 1 to 2^63 - 1 bytes of a value. Takes
    /// no memory.
    ///
    /// Other limits are refused with kind `InvalidClientConfig`: `depth limit must be 1 to 1000`,
    /// or else `size limit must be 1 to 2^63 - 1 bytes`. The source and the sink are then dropped.
    pub fn over_with_limits(
        alloc: Global,
        source: S,
        sink: K,
        limits: Limits,
    ) -> RedisResult<ByteLink<S, K>>
        ensures accepts { IsOk result ↔ AreLimits limits }
        ensures made { IfOk result (λ link. ⟦<ByteLink<S, K> as ConnectionLike>⟧.connection link
            ≡ connection_of (unread limits (S.source source)) (K.sink sink) false) }
        ensures error { IfErr result (RefusesLimits limits) }
    {
        let parser = Parser::with_limits(alloc, limits)?;
        Ok(ByteLink::around(alloc, parser, source, sink))
    }

    /// A link over a source and a sink, whose replies are read down to `limit` levels, the
    /// outermost value being the first. Takes no memory.
    ///
    /// A limit that is not 1 to 1,000 is refused with kind `InvalidClientConfig`, and the source
    /// and the sink are dropped.
    pub fn over_with_depth_limit(
        alloc: Global,
        source: S,
        sink: K,
        limit: usize,
    ) -> RedisResult<ByteLink<S, K>>
        ensures accepts { IsOk result ↔ IsDepthLimit limit }
        ensures made { IfOk result (λ link. ⟦<ByteLink<S, K> as ConnectionLike>⟧.connection link
            ≡ connection_of (unread (of_depth limit) (S.source source)) (K.sink sink) false) }
        ensures error { IfErr result (λ e. e ≡ depth_refused) }
    {
        let limits = Limits {
            depth: limit,
            ..Limits::default()
        };
        ByteLink::over_with_limits(alloc, source, sink, limits)
    }
}

impl<S: ReplySource, K: CommandSink> ByteLink<S, K> {
    ghost use Rattle.resp_link.specs.LinkStates.{connection_at};

    /// A link over a source and a sink. Replies are read within [`Limits::default`].
    pub fn over(alloc: Global, source: S, sink: K) -> ByteLink<S, K>
        ensures { ⟦<ByteLink<S, K> as ConnectionLike>⟧.connection result
            ≡ connection_of (unread usual (S.source source)) (K.sink sink) false }
    {
        ByteLink::around(alloc, Parser::new(alloc), source, sink)
    }

    /// A link over a source and a sink, with a parser that holds no bytes.
    fn around(alloc: Global, parser: Parser, source: S, sink: K) -> ByteLink<S, K>
        requires rest { IsBetweenValues parser }
        requires empty { parser.unparsed ≡ [] }
        ensures { ⟦<ByteLink<S, K> as ConnectionLike>⟧.connection result
            ≡ connection_of (unread parser.limits (S.source source)) (K.sink sink) false }
    {
        ByteLink {
            alloc,
            inbox: Inbox {
                source,
                parser,
                pushes: Pushes::new(alloc),
            },
            sink,
            broken: false,
            room: Vec::new(alloc),
        }
    }

    /// The limits on the depth and the size of replies and pushes.
    pub fn limits(&self) -> Limits
        ensures { result ≡ (⟦<ByteLink<S, K> as ConnectionLike>⟧.connection self.now).limits }
    {
        self.inbox.parser.limits()
    }

    /// How many levels of values inside values are read, the outermost being the first.
    pub fn depth_limit(&self) -> usize
        ensures { result ≡ (⟦<ByteLink<S, K> as ConnectionLike>⟧.connection self.now).limits.depth }
    {
        self.limits().depth
    }

    /// The pushes that were set aside, the oldest first.
    pub fn pushes(&self) -> &VecDeque<PushInfo>
        ensures { result.now.items
            ≡ (⟦<ByteLink<S, K> as ConnectionLike>⟧.connection self.now).pushes }
    {
        &self.inbox.pushes.list
    }

    /// Hands out the pushes that were set aside, the oldest first, which leaves room for others up
    /// to the limit on them. Takes no memory.
    pub fn take_pushes(&mut self) -> Vec<PushInfo>
        ensures pushes { result.items
            ≡ (⟦<ByteLink<S, K> as ConnectionLike>⟧.connection self.old).pushes }
        ensures left { ⟦<ByteLink<S, K> as ConnectionLike>⟧.connection self.new
            ≡ record (⟦<ByteLink<S, K> as ConnectionLike>⟧.connection self.old)
            { pushes = []; push_bytes = 0 } }
    {
        self.inbox.pushes.take(self.alloc)
    }

    /// Waits for a push: hands out the oldest that was set aside, or else reads the next value, as
    /// [`PushSource::next_push`] says. It is that method, for callers who don't name the trait.
    pub fn next_push(&mut self) -> RedisResult<PushInfo>
        ensures { NextPush (⟦<ByteLink<S, K> as ConnectionLike>⟧.connection self.old)
            (⟦<ByteLink<S, K> as ConnectionLike>⟧.connection self.new) result }
    {
        if let Some(push) = self.inbox.pushes.take_oldest() {
            return Ok(push);
        }
        if self.broken {
            return Err(link_is_broken());
        }
        let message = self.inbox.next_message();
        self.broken = message.is_err();
        as_one_result(message)
    }

    /// Whether the link is broken: it still hands out the pushes that were set aside, and refuses
    /// every other call.
    pub fn is_broken(&self) -> bool
        ensures { result ≡ (⟦<ByteLink<S, K> as ConnectionLike>⟧.connection self.now).broken }
    {
        self.broken
    }

    /// The source and the sink, by move. Bytes and pushes that were received and not taken are
    /// dropped.
    pub fn into_ends(self) -> (S, K)
        ensures source { S.source result.0 ≡ S.source self.inbox.source }
        ensures sink { K.sink result.1 ≡ K.sink self.sink }
    {
        let ByteLink {
            alloc: _,
            inbox,
            sink,
            broken: _,
            room,
        } = self;
        let Inbox {
            source,
            parser,
            pushes,
        } = inbox;
        drop(parser);
        drop(pushes);
        drop(room);
        (source, sink)
    }

    // A call says that the link is broken before it sends, and that it isn't once its replies are
    // there: so one that returns early at a `?` leaves it broken, where what was sent may still be
    // answered, and a later call would take that answer for its own.

    /// Sends a request and takes its reply.
    fn exchange_one(&mut self, bytes: &[u8]) -> RedisResult<Value>
        requires { self.old.broken ≡ false }
        ensures exchanged { Exchange
            (connection_at S.source K.sink self.old)
            (connection_at S.source K.sink self.new)
            bytes.now 1 result (AnswersReply (λ reply. result ≡ Ok reply)) }
    {
        self.broken = true;
        send_all(&mut self.sink, bytes)?;
        let reply = match self.inbox.next_reply() {
            Ok(reply) => reply,
            Err(error) => return Err(error),
        };
        self.broken = false;
        Ok(reply)
    }

    /// Sends a request, drops its first replies and answers the next.
    fn exchange_many(
        &mut self,
        bytes: &[u8],
        offset: usize,
        count: usize,
    ) -> RedisResult<Vec<Value>>
        requires { self.old.broken ≡ false }
        ensures counted { IfOk result (λ vs. length vs.items ≡ count) }
        ensures exchanged { Exchange
            (connection_at S.source K.sink self.old)
            (connection_at S.source K.sink self.new)
            bytes.now (offset + count) result (AnswersFrom (λ vs. vs.items) offset result) }
    {
        self.broken = true;
        send_all(&mut self.sink, bytes)?;
        self.inbox.skip_replies(offset)?;
        let replies = self.inbox.take_replies(self.alloc, count)?;
        self.broken = false;
        Ok(replies)
    }
}

impl<S: ReplySource, K: CommandSink> ConnectionLike for ByteLink<S, K> {
    ghost use Rattle.resp_link.specs.LinkStates.{connection_at};

    ghost connection = { connection_at S.source K.sink };

    fn req_command(&mut self, cmd: &Cmd) -> RedisResult<Value> {
        if self.broken {
            return Err(link_is_broken());
        }
        if cmd.is_empty() {
            return Err(empty_command());
        }
        if cmd.is_unanswered() {
            return Err(subscription());
        }
        self.room.clear();
        cmd.write_packed_command(&mut self.room)?;
        self.broken = true;
        send_all(&mut self.sink, self.room.as_slice())?;
        give_back(self.alloc, &mut self.room);
        if cmd.is_no_response() {
            self.broken = false;
            return Ok(Value::Nil);
        }
        // By `match`, since `?` moves the reply once more.
        let reply = match self.inbox.next_reply() {
            Ok(reply) => reply,
            Err(error) => return Err(error),
        };
        self.broken = false;
        Ok(reply)
    }

    fn req_packed_command(&mut self, bytes: &[u8]) -> RedisResult<Value> {
        if self.broken {
            return Err(link_is_broken());
        }
        if bytes.is_empty() {
            return Err(empty_command());
        }
        self.exchange_one(bytes)
    }

    fn req_packed_commands(
        &mut self,
        bytes: &[u8],
        offset: usize,
        count: usize,
    ) -> RedisResult<Vec<Value>> {
        if self.broken {
            return Err(link_is_broken());
        }
        self.exchange_many(bytes, offset, count)
    }

    fn supports_pipelining(&self) -> bool {
        true
    }

    fn is_open(&self) -> bool {
        !self.broken
    }
}

impl<S: ReplySource, K: CommandSink> Unrouted for ByteLink<S, K> {
    ghost use Rattle.resp_command.specs.lemmas.Policies.{stays_unrouted};

    ghost unrouted = { λ _. stays_unrouted };
}

impl<S: ReplySource, K: CommandSink> PushSource for ByteLink<S, K> {
    fn next_push(&mut self) -> RedisResult<PushInfo> {
        ByteLink::next_push(self)
    }
}

/// Gives room back that is larger than is kept.
fn give_back(alloc: Global, room: &mut Vec<u8>) {
    if room.capacity() > KEPT {
        *room = Vec::new(alloc);
    }
}

/// What a connection answers that broke before.
fn link_is_broken() -> RedisError
    ensures { result ≡ broken_link }
{
    RedisError::from((ErrorKind::Io, "link is broken"))
}

/// What an empty command is refused with.
fn empty_command() -> RedisError
    ensures { result ≡ no_command }
{
    RedisError::from((ErrorKind::Client, "empty command"))
}

/// What a subscription is refused with whose reply is waited for.
fn subscription() -> RedisError
    ensures { result ≡ no_reply }
{
    let text = "a subscription has no reply: set_no_response, then next_push";
    RedisError::from((ErrorKind::Client, text))
}
