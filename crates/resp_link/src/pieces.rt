//! Bodies in pieces: what comes in over a connection is handed to a sink.

ghost use Rattle.std.specs.Prelude.{◌≡◌, ℕ, List, OnOk, MatchResult};
ghost use Rattle.resp_parse.specs.PlainReading.{incomplete, read_body};
ghost use Rattle.resp_parse.specs.State.{IsBetweenValues};
ghost use Rattle.resp_parse.specs.BulkBodies.{OpensBulk};
ghost use Rattle.resp_link.specs.LinkStates.{inflow_at};
ghost use Rattle.resp_link.specs.Receiving.{Inflow, CannotReceive};
ghost use Rattle.resp_link.specs.Streaming.{TakesPiece, ComesNext, TookWell, HasByte, TakesByte};
ghost use Rattle.resp_link.specs.Streaming.{body_not_taken as not_taken};
ghost use Rattle.resp_errors.specs.declared.kinds.FrameFault.TheVariants.{BodyEnd, TooLong};
ghost use Rattle.resp_errors.specs.declared.parsing_error.ParsingError.TheVariants.{Fault};
ghost use Rattle.resp_errors.specs.declared.redis_error.RedisError.TheVariants.{Parse};
ghost use Rattle.resp_link.specs.Streaming.{HandsFront, HandsBody, HandsBulk, HandsNext};

use crate::inbox::Inbox;
use crate::sink::CommandSink;
use crate::streamed::{Incoming, Streamed};
use resp_parse::{BulkHeader, ReplySource};
use resp_value::{
    ErrorKind, FrameFault, IoKind, ParsingError, PushInfo, RedisError, RedisResult, Value,
};

impl<S: ReplySource> Inbox<S> {
    /// The next reply, but of a bulk string with a body the header alone; each push that comes
    /// before it is set aside, while the limit leaves room.
    fn next_incoming(&mut self) -> RedisResult<Incoming>
        requires { IsBetweenValues self.old.parser }
        ensures next { MatchResult result
            (λ next. ComesNext (inflow_at S.source self.old) (inflow_at S.source self.new) next)
            (λ e. CannotReceive 1 (inflow_at S.source self.old) (inflow_at S.source self.new) e) }
        ensures rest { OnOk result (IsBetweenValues self.new.parser) }
    {
        loop {
            if let Some(header) = self.parser.find_bulk(&mut self.source)? {
                return Ok(Incoming::Bulk(header));
            }
            match self.parser.parse_from(&mut self.source)? {
                Value::Push { kind, payload } => {
                    let (size, limit) = (self.parser.value_len(), self.parser.limits().pushes);
                    self.pushes
                        .set_aside(PushInfo { kind, payload }, size, limit)?;
                }
                reply => return Ok(Incoming::Reply(reply)),
            }
        }
    }

    /// Asks for bytes where none is held, inside a body.
    fn have_byte(&mut self) -> RedisResult<()>
        requires { IsBetweenValues self.old.parser }
        ensures byte { (n : ℕ) (start : Inflow) (part : List ℕ) →
            TookWell n start (inflow_at S.source self.old) part → read_body n part ≡ incomplete →
            HasByte n start (inflow_at S.source self.new) part result }
        ensures rest { OnOk result (IsBetweenValues self.new.parser) }
    {
        if self.parser.unparsed_len() == 0 {
            self.parser.fill_from(&mut self.source)?;
        }
        Ok(())
    }

    /// Takes this byte, which stands at the end of a body.
    fn take_byte(&mut self, byte: u8) -> RedisResult<()>
        requires { IsBetweenValues self.old.parser }
        ensures taken { (n : ℕ) (start : Inflow) (part : List ℕ) →
            TookWell n start (inflow_at S.source self.old) part → read_body n part ≡ incomplete →
            TakesByte n byte start (inflow_at S.source self.new) part result }
        ensures rest { OnOk result (IsBetweenValues self.new.parser) }
    {
        self.have_byte()?;
        let Some((first, _)) = self.parser.unparsed().split_first() else {
            return Err(body_end());
        };
        if *first != byte {
            return Err(body_end());
        }
        self.parser.skip(1);
        Ok(())
    }

    /// Hands the bytes that are held to the sink, up to `most` of them; answers how many.
    fn hand_front<K: CommandSink>(&mut self, most: usize, sink: &mut K) -> Result<usize, IoKind>
        requires { IsBetweenValues self.old.parser }
        ensures hands { HandsFront most (inflow_at S.source self.old) (inflow_at S.source self.new)
            (K.sink sink.old) (K.sink sink.new) result }
        ensures rest { OnOk result (IsBetweenValues self.new.parser) }
    {
        let held = self.parser.unparsed();
        let count = most.min(held.len());
        send_piece(sink, &held[..count])?;
        self.parser.skip(count);
        Ok(count)
    }

    /// Hands a body of so many bytes to the sink; its CR LF is left.
    fn hand_body<K: CommandSink>(&mut self, len: usize, sink: &mut K) -> RedisResult<()>
        requires { IsBetweenValues self.old.parser }
        ensures hands { HandsBody len (inflow_at S.source self.old) (inflow_at S.source self.new)
            (K.sink sink.old) (K.sink sink.new) result }
        ensures rest { OnOk result (IsBetweenValues self.new.parser) }
    {
        let mut missing = len;
        while missing > 0 {
            self.have_byte()?;
            match self.hand_front(missing, sink) {
                Ok(count) => missing -= count,
                Err(_) => return Err(body_not_taken()),
            }
        }
        Ok(())
    }

    /// Takes the bulk string of this header, and hands its body to the sink.
    fn hand_bulk<K: CommandSink>(&mut self, header: &BulkHeader, sink: &mut K) -> RedisResult<()>
        requires rest { IsBetweenValues self.old.parser }
        requires opens { OpensBulk self.old.parser.unparsed header.now }
        ensures hands { HandsBulk header.now (inflow_at S.source self.old)
            (inflow_at S.source self.new) (K.sink sink.old) (K.sink sink.new) result }
        ensures rest { OnOk result (IsBetweenValues self.new.parser) }
    {
        let BulkHeader {
            header_len,
            body_len,
        } = *header;
        let room = self.parser.limits().bytes.saturating_sub(header_len);
        if room < 2 || room - 2 < body_len {
            return Err(too_long());
        }
        self.parser.skip(header_len);
        self.hand_body(body_len, sink)?;
        self.take_byte(b'\r')?;
        self.take_byte(b'\n')
    }

    /// The next reply, but of a bulk string the body is handed to the sink; each push that comes
    /// before it is set aside, while the limit leaves room.
    pub(crate) fn next_streamed<K: CommandSink>(&mut self, sink: &mut K) -> RedisResult<Streamed>
        requires { IsBetweenValues self.old.parser }
        ensures next { HandsNext (inflow_at S.source self.old) (inflow_at S.source self.new)
            (K.sink sink.old) (K.sink sink.new) result }
        ensures rest { OnOk result (IsBetweenValues self.new.parser) }
    {
        match self.next_incoming()? {
            Incoming::Bulk(header) => {
                self.hand_bulk(&header, sink)?;
                Ok(Streamed::Body(header.body_len))
            }
            Incoming::Reply(reply) => Ok(Streamed::Reply(reply)),
        }
    }
}

/// Sends all of the bytes; nothing is flushed.
pub(crate) fn send_piece<K: CommandSink>(sink: &mut K, bytes: &[u8]) -> Result<(), IoKind>
    ensures { TakesPiece (K.sink sink.old) (K.sink sink.new) bytes.now result }
{
    let mut done: usize = 0;
    while done < bytes.len() {
        done += sink.send(&bytes[done..])?;
    }
    Ok(())
}

/// What a body is refused with where another byte stands in the place of its CR LF.
fn body_end() -> RedisError
    ensures { result ≡ Parse (Fault BodyEnd) }
{
    RedisError::from(ParsingError::from(FrameFault::BodyEnd))
}

/// What a body is refused with that passes the limit on the size of a value.
fn too_long() -> RedisError
    ensures { result ≡ Parse (Fault TooLong) }
{
    RedisError::from(ParsingError::from(FrameFault::TooLong))
}

/// What a call is refused with where the taker of a body failed.
fn body_not_taken() -> RedisError
    ensures { result ≡ not_taken }
{
    RedisError::from((ErrorKind::Io, "body wasn't taken"))
}
