//! Objects that calls change: how they are made, and what they show.

use crate::heap::{Test, debug_text};
use crate::links::link;
use resp_core::{ArgList, Bytes, Cmd, Items, Parser, Pipeline, RedisWrite, cmd, pipe};

pub trait Subject: Sized + Drop {
    /// How many there are, with more or less room that is left.
    const SIZES: usize;

    fn of_size<R: Test>(rt: &R, size: usize) -> Self;

    /// What public calls show of it.
    fn shows<R: Test>(&mut self, rt: &R) -> String;
}

/// `GET` with an argument of so many bytes.
impl Subject for Cmd {
    const SIZES: usize = 80;

    fn of_size<R: Test>(rt: &R, size: usize) -> Cmd {
        let mut command = cmd(rt.alloc(), "GET").expect(rt, "no refusal");
        let arg = Vec::<u8>::of_size(rt, size);
        command.write_arg(arg.as_slice()).expect(rt, "no refusal");
        command
    }

    fn shows<R: Test>(&mut self, rt: &R) -> String {
        let packed = self.get_packed_command().expect(rt, "no refusal");
        let scans = self.in_scan_mode();
        let framed = self.framed();
        format!(in rt.alloc(); "{packed:?} {scans} {framed:?}").expect(rt, "no refusal")
    }
}

/// Replies of more commands than any pipeline here has.
const NUMBERS: &[u8] = b":1\r\n:2\r\n:3\r\n:4\r\n:5\r\n:6\r\n:7\r\n:8\r\n:9\r\n:10\r\n:11\r\n";

/// A pipeline of so many commands, of which every other one is ignored. It shows whose replies it
/// keeps.
impl Subject for Pipeline {
    const SIZES: usize = 10;

    fn of_size<R: Test>(rt: &R, size: usize) -> Pipeline {
        let mut pipeline = pipe(rt.alloc());
        for position in 0..size {
            pipeline.push_cmd("A").expect(rt, "no refusal");
            if position % 2 == 0 {
                let _ = pipeline.ignore();
            }
        }
        pipeline
    }

    fn shows<R: Test>(&mut self, rt: &R) -> String {
        let packed = self.get_packed_pipeline().expect(rt, "no refusal");
        let kept = kept(rt, self);
        format!(in rt.alloc(); "{packed:?} {kept:?}").expect(rt, "no refusal")
    }
}

/// The numbers that a pipeline keeps of its replies.
fn kept(rt: &impl Test, pipeline: &Pipeline) -> Vec<i64> {
    let mut con = link(rt, NUMBERS);
    pipeline.query(&mut con).expect(rt, "no refusal")
}

/// A list of one argument of so many bytes.
impl Subject for ArgList {
    const SIZES: usize = 10;

    fn of_size<R: Test>(rt: &R, size: usize) -> ArgList {
        let mut list = ArgList::new(rt.alloc());
        let arg = Vec::<u8>::of_size(rt, size);
        list.write_arg(arg.as_slice()).expect(rt, "no refusal");
        list
    }

    fn shows<R: Test>(&mut self, rt: &R) -> String {
        let args = self.as_slice();
        format!(in rt.alloc(); "{args:?}").expect(rt, "no refusal")
    }
}

/// So many bytes.
impl Subject for Vec<u8> {
    const SIZES: usize = 70;

    fn of_size<R: Test>(rt: &R, size: usize) -> Vec<u8> {
        let mut bytes = Vec::new(rt.alloc());
        bytes.resize(size, b'x').expect(rt, "no refusal");
        bytes
    }

    fn shows<R: Test>(&mut self, rt: &R) -> String {
        format!(in rt.alloc(); "{self:?}").expect(rt, "no refusal")
    }
}

/// So many items.
impl Subject for Items<u8> {
    const SIZES: usize = 10;

    fn of_size<R: Test>(rt: &R, size: usize) -> Items<u8> {
        Items::from(Vec::<u8>::of_size(rt, size))
    }

    fn shows<R: Test>(&mut self, rt: &R) -> String {
        format!(in rt.alloc(); "{self:?}").expect(rt, "no refusal")
    }
}

/// So many bytes.
impl Subject for Bytes {
    const SIZES: usize = 70;

    fn of_size<R: Test>(rt: &R, size: usize) -> Bytes {
        Bytes::from(Vec::<u8>::of_size(rt, size))
    }

    fn shows<R: Test>(&mut self, rt: &R) -> String {
        format!(in rt.alloc(); "{self:?}").expect(rt, "no refusal")
    }
}

/// A beginning of a reply, which `REST` ends.
pub const FIRST: &[u8] = b"*2\r\n:1\r\n$100\r\n01234";

/// More than the room for the first part.
pub const REST: &[u8] = b"56789012345678901234567890123456789012345678901234567890123456789\
    012345678901234567890123456789\r\n";

/// A parser of the first part, which was looked at or not. It shows the reply, if it is there.
impl Subject for Parser {
    const SIZES: usize = 2;

    fn of_size<R: Test>(rt: &R, size: usize) -> Parser {
        let mut parser = Parser::new(rt.alloc());
        parser.feed(FIRST).expect(rt, "no refusal");
        if size > 0 {
            assert!(rt; is_waiting(&mut parser));
        }
        parser
    }

    fn shows<R: Test>(&mut self, rt: &R) -> String {
        let taken = taken_text(rt, self);
        let in_progress = self.in_progress();
        format!(in rt.alloc(); "{taken} {in_progress}").expect(rt, "no refusal")
    }
}

/// Whether the parser waits for more of a reply.
fn is_waiting(parser: &mut Parser) -> bool {
    matches!(parser.take_value(), Ok(None))
}

/// The Debug text of the reply that is taken, if it is there.
pub fn taken_text(rt: &impl Test, parser: &mut Parser) -> String {
    debug_text(rt, &parser.take_value().expect(rt, "no refusal"))
}
