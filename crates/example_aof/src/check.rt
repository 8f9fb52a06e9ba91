//! Checking the bytes of a file.

ghost use Rattle.std.specs.Prelude.{◌≡◌, true};
ghost use Rattle.example_aof.specs.Commands.{is_array_of_some, is_word as a_word};

use crate::report::{Report, Rest};
use resp_core::{Parser, RedisError, RedisResult, Value};
use std::alloc::Global;
use std::io::Read;

/// What is known of a file of which some bytes were read.
#[derive(Drop)]
struct SoFar {
    parser: Parser,
    /// How many bytes were read.
    read: u64,
    /// How many commands are whole, and where the last of them ends.
    commands: u64,
    end: u64,
}

/// The report of the bytes of a reader.
pub fn check<R: Read>(alloc: Global, reader: &mut R) -> RedisResult<Report> {
    let mut file = SoFar::new(alloc);
    let rest = file.read(reader)?;
    Ok(file.report(rest))
}

impl SoFar {
    fn new(alloc: Global) -> SoFar {
        SoFar {
            parser: Parser::new(alloc),
            read: 0,
            commands: 0,
            end: 0,
        }
    }

    /// Takes the bytes of a reader until it ends, or they show that what follows the whole commands
    /// is no command.
    fn read<R: Read>(&mut self, reader: &mut R) -> RedisResult<Rest> {
        let mut chunk = [0; 4096];
        for _ in 0..u64::MAX {
            let n = reader.read(&mut chunk[..])?;
            if n == 0 {
                break;
            }
            if let Some(rest) = self.take(&chunk[..n])? {
                return Ok(rest);
            }
        }
        Ok(self.rest_at_end())
    }

    /// Takes bytes line by line, since a command ends where a line does. Some where they show that
    /// what follows the whole commands is no command.
    fn take(&mut self, bytes: &[u8]) -> RedisResult<Option<Rest>> {
        for line in bytes.split_inclusive(|byte| *byte == b'\n') {
            if let Some(rest) = self.take_line(line)? {
                return Ok(Some(rest));
            }
        }
        Ok(None)
    }

    fn take_line(&mut self, line: &[u8]) -> RedisResult<Option<Rest>> {
        self.parser.feed(line)?;
        self.read = self.read.saturating_add(line.len() as u64);
        match self.parser.take_value() {
            Ok(None) => Ok(None),
            Ok(Some(value)) => Ok(self.count(&value)),
            Err(error) => Ok(Some(self.fault(error)?)),
        }
    }

    /// Counts a value that is a command.
    fn count(&mut self, value: &Value) -> Option<Rest> {
        if !is_command(value) {
            return Some(Rest::NoCommand(self.read));
        }
        self.commands = self.commands.saturating_add(1);
        self.end = self.read;
        None
    }

    /// The fault at its place in the file. Any other error stays one.
    fn fault(&self, error: RedisError) -> RedisResult<Rest> {
        let Some(fault) = error.frame_fault() else {
            return Err(error);
        };
        let after_the_last = self.parser.fault_offset().unwrap_or(0);
        Ok(Rest::Fault(fault, self.end.saturating_add(after_the_last as u64)))
    }

    fn rest_at_end(&self) -> Rest {
        if self.parser.in_progress() {
            Rest::Early
        } else {
            Rest::Nothing
        }
    }

    fn report(&self, rest: Rest) -> Report {
        Report {
            commands: self.commands,
            end: self.end,
            rest,
        }
    }
}

/// Whether a value is a command: an array of words, one at least.
fn is_command(value: &Value) -> bool
    ensures array { result ≡ true → is_array_of_some value.now ≡ true }
{
    match value {
        Value::Array(words) => match words.as_slice() {
            [] => false,
            words => words.iter().all(is_word),
        },
        _ => false,
    }
}

/// Whether a value can be a word of a command.
fn is_word(value: &Value) -> bool
    ensures word { result ≡ a_word value.now }
{
    matches!(value, Value::BulkString(_))
}
