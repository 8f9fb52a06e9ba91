//! Serving a reader and a writer.

ghost use Rattle.std.specs.Prelude.{◌≡◌, ◌++◌, ℕ, List, IfOk, OnOk};
ghost use Rattle.std.specs.Option.{option_map};
ghost use Rattle.example_server.specs.Serving.{Answered, GoesOn, Served, vec_bytes};
ghost use Rattle.example_server.specs.Sessions.{Replied};
ghost use Rattle.example_server.specs.declared.session.Session.{Session};

use crate::command::Request;
use crate::reading::request_of;
use crate::requests::{Requests, Taken};
use crate::session::{Session, answer};
use resp_core::{Bytes, IoKind, RedisError, RedisResult};
use resp_encode::encode;
use std::alloc::Global;
use std::io::{Read, Write};

/// Answers the requests of a reader, until it ends, one is `QUIT`, or one can't be read.
pub fn serve<R: Read, W: Write>(alloc: Global, reader: &mut R, writer: &mut W) -> RedisResult<()> {
    let mut server = Server::new(alloc);
    server.serve(reader, writer)
}

/// A server with its client.
#[derive(Drop)]
pub struct Server {
    alloc: Global,
    /// What the client sent and isn't answered yet.
    pub requests: Requests,
    /// The client, and all that the server keeps.
    pub session: Session,
    /// Whether nothing more is answered.
    pub is_closed: bool,
}

impl Server {
    /// A server with no keys, of which nothing was asked.
    pub fn new(alloc: Global) -> Server {
        Server {
            alloc,
            requests: Requests::new(alloc),
            session: Session::new(alloc),
            is_closed: false,
        }
    }

    /// Answers the requests of a reader.
    fn serve<R: Read, W: Write>(&mut self, reader: &mut R, writer: &mut W) -> RedisResult<()> {
        let mut chunk = [0; 4096];
        for _ in 0..u64::MAX {
            let n = reader.read(&mut chunk[..])?;
            if n == 0 {
                break;
            }
            self.feed(&chunk[..n])?;
            self.answer_all(writer)?;
            writer.flush()?;
            if self.is_closed {
                return Ok(());
            }
        }
        if self.requests.in_progress() {
            return Err(RedisError::from(IoKind::UnexpectedEof));
        }
        Ok(())
    }

    /// Adds what the client sent.
    #[tactic(auto, using(crate::proofs::Exchanges::fed))]
    pub fn feed(&mut self, bytes: &[u8]) -> RedisResult<()>
        ensures fed { OnOk result ((start : Session) (b w : List ℕ) → Served start b w self.old
            → Served start (b ++ bytes.now) w self.new) }
    {
        self.requests.feed(bytes)?;
        Ok(())
    }

    /// Answers the requests that are whole, each before the next one is taken.
    fn answer_all<W: Write>(&mut self, writer: &mut W) -> RedisResult<()> {
        for _ in 0..u64::MAX {
            let Some(reply) = self.next_reply()? else {
                break;
            };
            writer.write_all(reply.as_slice())?;
        }
        Ok(())
    }

    /// What is written for the next request, if it is whole and the connection isn't closed.
    #[tactic(auto, using(crate::proofs::Exchanges::answered, crate::proofs::Exchanges::nothing))]
    pub fn next_reply(&mut self) -> RedisResult<Option<Vec<u8>>>
        ensures goes_on { IfOk result (λ reply. (start : Session) (b w : List ℕ)
            → Served start b w self.old
            → GoesOn start b w self.old self.new (option_map vec_bytes reply)) }
    {
        if self.is_closed {
            return Ok(None);
        }
        match self.requests.take()? {
            Taken::Unfinished => Ok(None),
            Taken::Request(words) => Ok(Some(self.reply_to(words)?)),
            Taken::Wrong(why) => {
                self.is_closed = true;
                Ok(Some(why.reply(self.alloc)?))
            }
        }
    }

    /// The reply to a request of these words, if there are any.
    fn reply_to(&mut self, words: Vec<Bytes>) -> RedisResult<Vec<u8>>
        ensures answered { IfOk result (λ reply.
            Answered words.items self.old.session self.new.session reply.items) }
        ensures kept { self.new.requests ≡ self.old.requests }
    {
        let mut reply = Vec::new(self.alloc);
        if !words.is_empty() {
            self.append_reply(words_of(self.alloc, words)?, &mut reply)?;
        }
        Ok(reply)
    }

    /// Appends the reply to a request of these words.
    fn append_reply(&mut self, words: Vec<Vec<u8>>, reply: &mut Vec<u8>) -> RedisResult<()>
        ensures replied { OnOk result (Replied self.old.session self.new.session reply.old.items
            reply.new.items) }
        ensures kept { self.new.requests ≡ self.old.requests }
    {
        let request = request_of(self.alloc, words)?;
        self.is_closed = matches!(&request, Request::Quit);
        let answer = answer(self.alloc, &mut self.session, request)?;
        let value = answer.into_value(self.alloc)?;
        encode(&value, self.session.state.connection.protocol, reply)
    }
}

/// The words of a request, the name of a command first.
fn words_of(alloc: Global, request: Vec<Bytes>) -> RedisResult<Vec<Vec<u8>>> {
    let mut words = Vec::with_capacity(alloc, request.len())?;
    for word in request {
        words.push(word.into_vec()?)?;
    }
    Ok(words)
}
