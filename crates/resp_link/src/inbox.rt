//! What comes in over a connection: replies, and pushes between them.

ghost use Rattle.std.specs.Prelude.{◌≡◌, ◌∷◌, [], ◌+◌, false, is_err, OnOk, MatchResult};
ghost use Rattle.resp_parse.specs.State.{IsBetweenValues};
ghost use Rattle.resp_link.specs.LinkStates.{inflow_at};
ghost use Rattle.resp_link.specs.Receiving.{Receives, CannotReceive, Skips};
ghost use Rattle.resp_link.specs.Linking.{connection_of};
ghost use Rattle.resp_link.specs.Messages.{as_one_result};
ghost use Rattle.resp_command.specs.NextPush.{ReadsMessage};
ghost use Rattle.resp_link.specs.Sink.{Sink};

use crate::messages::message_of;
use crate::pushes::Pushes;
use resp_parse::{Parser, ReplySource};
use resp_value::{PushInfo, RedisResult, ServerError, Value};
use std::alloc::Global;

/// A source of replies, the parser of its bytes, and the pushes that were set aside.
#[derive(Drop)]
pub(crate) struct Inbox<S> {
    pub(crate) source: S,
    pub(crate) parser: Parser,
    pub(crate) pushes: Pushes,
}

/// The most replies for which room is made before they come.
const AT_ONCE: usize = 1024;

impl<S: ReplySource> Inbox<S> {
    /// The next reply; each push that comes before it is set aside, while the limit leaves room.
    pub(crate) fn next_reply(&mut self) -> RedisResult<Value>
        requires { IsBetweenValues self.old.parser }
        ensures reply { MatchResult result
            (λ v. Receives 1 (inflow_at S.source self.old) (inflow_at S.source self.new) (v ∷ []))
            (λ e. CannotReceive 1 (inflow_at S.source self.old) (inflow_at S.source self.new) e) }
        ensures rest { OnOk result (IsBetweenValues self.new.parser) }
    {
        loop {
            // By `match`, since `?` moves the value once more.
            let value = match self.parser.parse_from(&mut self.source) {
                Ok(value) => value,
                Err(error) => return Err(error),
            };
            match value {
                Value::Push { kind, payload } => {
                    let (size, limit) = (self.parser.value_len(), self.parser.limits().pushes);
                    self.pushes
                        .set_aside(PushInfo { kind, payload }, size, limit)?;
                }
                reply => return Ok(reply),
            }
        }
    }

    /// Takes n replies and drops them.
    pub(crate) fn skip_replies(&mut self, count: usize) -> RedisResult<()>
        requires { IsBetweenValues self.old.parser }
        ensures skipped { MatchResult result
            (λ _. Skips count (inflow_at S.source self.old) (inflow_at S.source self.new))
            (λ e. CannotReceive count (inflow_at S.source self.old) (inflow_at S.source self.new) e) }
        ensures rest { OnOk result (IsBetweenValues self.new.parser) }
    {
        for _ in 0..count {
            let _ = self.next_reply()?;
        }
        Ok(())
    }

    /// Takes n replies and answers them.
    pub(crate) fn take_replies(&mut self, alloc: Global, count: usize) -> RedisResult<Vec<Value>>
        requires { IsBetweenValues self.old.parser }
        ensures replies { MatchResult result
            (λ vs. Receives count (inflow_at S.source self.old) (inflow_at S.source self.new) vs.items)
            (λ e. CannotReceive count (inflow_at S.source self.old) (inflow_at S.source self.new) e) }
        ensures rest { OnOk result (IsBetweenValues self.new.parser) }
    {
        let mut replies = Vec::new(alloc);
        replies.reserve(count.min(AT_ONCE))?;
        for _ in 0..count {
            // By `match`, since `?` moves the reply once more.
            match self.next_reply() {
                Ok(reply) => replies.push(reply)?,
                Err(error) => return Err(error),
            }
        }
        Ok(replies)
    }

    /// The next value, which is to be a message or a server's error. It is as for a link that breaks
    /// on a refusal, over any sink.
    pub(crate) fn next_message(&mut self) -> RedisResult<Result<PushInfo, ServerError>>
        requires { IsBetweenValues self.old.parser }
        ensures message { (sink : Sink) → ReadsMessage
            (connection_of (inflow_at S.source self.old) sink false)
            (connection_of (inflow_at S.source self.new) sink (is_err result))
            (as_one_result result) }
        ensures rest { OnOk result (IsBetweenValues self.new.parser) }
    {
        message_of(self.parser.parse_from(&mut self.source)?)
    }
}
