//! What the program does, over any streams.

use resp_core::{
    Cmd, ConnectionLike, Parser, Pipeline, RedisError, RedisResult, RedisWrite, ServerError, Value,
    pipe,
};
use std::alloc::Global;
use std::io;
use std::io::{Read, Write};

/// The exit status of an answer.
const DONE: u8 = 0;

/// The exit status of wrong words.
const WRONG_WORDS: u8 = 1;

/// The exit status of a refusal.
const REFUSED: u8 = 2;

const USAGE: &str =
    "usage: resp pack WORD.. | resp read | resp query [--atomic] WORD.. [, WORD..]..\n";

/// What the words of a call ask for.
#[derive(Debug, Drop)]
pub enum Task<'a> {
    /// `pack WORD..`
    Pack(&'a [String]),
    /// `read`
    Read,
    /// `query [--atomic] WORD.. [, WORD..]..`
    Query(&'a [String]),
    /// Anything else.
    Usage,
}

/// The task of the words after the program's name.
pub fn task_of(words: &[String]) -> Task<'_> {
    let Some((first, rest)) = words.split_first() else {
        return Task::Usage;
    };
    match first.as_str() {
        "pack" => Task::Pack(rest),
        "read" => {
            if rest.is_empty() {
                Task::Read
            } else {
                Task::Usage
            }
        }
        "query" => Task::Query(rest),
        _ => Task::Usage,
    }
}

/// What is printed where the words can't be had: the usage, unless memory ran out.
pub fn print_no_words<E: Write>(error: &io::Error, err: &mut E) -> u8 {
    if error.kind() != io::ErrorKind::OutOfMemory {
        return print_usage(err);
    }
    let _ = writeln!(err, "refused: out of memory");
    REFUSED
}

/// Prints the usage on standard error.
pub fn print_usage<E: Write>(err: &mut E) -> u8 {
    let _ = err.write_all(USAGE.as_bytes());
    WRONG_WORDS
}

/// `resp pack WORD..`: the packed command on standard output.
pub fn pack<O: Write, E: Write>(alloc: Global, words: &[String], out: &mut O, err: &mut E) -> u8 {
    if words.is_empty() {
        return print_usage(err);
    }
    match print_packed(alloc, words, out) {
        Ok(()) => DONE,
        Err(error) => print_refusal(alloc, error, err),
    }
}

/// `resp read`: each reply's Debug text on a line of standard output, as soon as it is whole.
pub fn read<R: Read, O: Write, E: Write>(
    alloc: Global,
    reader: &mut R,
    out: &mut O,
    err: &mut E,
) -> u8 {
    match print_replies(alloc, reader, out) {
        Ok(()) => DONE,
        Err(halt) => print_halt(&halt, err),
    }
}

/// Why reading stopped before the end of the input.
#[derive(Drop)]
enum Halt {
    /// The input ended within a reply.
    Early,
    /// A fault, or out of memory.
    Refused(RedisError),
}

impl From<RedisError> for Halt {
    fn from(error: RedisError) -> Halt {
        Halt::Refused(error)
    }
}

/// Prints the replies of a reader; an end between two replies is success.
fn print_replies<R: Read, O: Write>(
    alloc: Global,
    reader: &mut R,
    out: &mut O,
) -> Result<(), Halt> {
    let mut parser = Parser::new(alloc);
    print_all(alloc, &mut parser, reader, out)?;
    if parser.in_progress() {
        return Err(Halt::Early);
    }
    Ok(())
}

/// Feeds the parser with all that the reader gives, and prints the replies as they are whole.
fn print_all<R: Read, O: Write>(
    alloc: Global,
    parser: &mut Parser,
    reader: &mut R,
    out: &mut O,
) -> RedisResult<()> {
    let mut chunk = [0; 4096];
    for _ in 0..u64::MAX {
        let n = reader.read(&mut chunk[..])?;
        if n == 0 {
            break;
        }
        parser.feed(&chunk[..n])?;
        print_ready(alloc, parser, out)?;
    }
    Ok(())
}

/// Prints the replies that the parser holds whole.
fn print_ready<O: Write>(alloc: Global, parser: &mut Parser, out: &mut O) -> RedisResult<()> {
    for _ in 0..u64::MAX {
        if !print_next(alloc, parser, out)? {
            break;
        }
    }
    Ok(())
}

/// Prints the next reply, if the parser holds it whole. Whether it does.
fn print_next<O: Write>(alloc: Global, parser: &mut Parser, out: &mut O) -> RedisResult<bool> {
    match parser.take_value() {
        Ok(Some(value)) => print_taken(alloc, value, out).map(|()| true),
        Ok(None) => Ok(false),
        Err(error) => Err(error),
    }
}

/// Prints a value that is let go of then.
fn print_taken<O: Write>(alloc: Global, value: Value, out: &mut O) -> RedisResult<()> {
    print_value(alloc, &value, out)
}

/// Prints a value's Debug text on a line.
fn print_value<O: Write>(alloc: Global, value: &Value, out: &mut O) -> RedisResult<()> {
    let line = format!(in alloc; "{value:?}\n")?;
    write_whole(out, line.as_bytes())
}

/// Prints the fault's name, that the input ended early, or the category of the refusal.
fn print_halt<E: Write>(halt: &Halt, err: &mut E) -> u8 {
    let _ = match halt {
        Halt::Early => writeln!(err, "refused: early end"),
        Halt::Refused(error) => match error.frame_fault() {
            Some(fault) => writeln!(err, "refused: {fault:?}"),
            None => writeln!(err, "refused: {}", error.category()),
        },
    };
    REFUSED
}

/// `resp query [--atomic] WORD.. [, WORD..]..`: the commands over the connection, and the Debug
/// text of what they answer on standard error.
///
/// Where a command is empty, the usage is printed and nothing is asked of the connection.
pub fn query<E: Write>(
    alloc: Global,
    words: &[String],
    con: &mut dyn ConnectionLike,
    err: &mut E,
) -> u8 {
    let (atomic, words) = take_flag(words);
    if has_empty_command(words) {
        return print_usage(err);
    }
    match ask(alloc, atomic, words, con) {
        Ok(value) => print_answer(&value, err),
        Err(error) => print_refusal(alloc, error, err),
    }
}

/// Whether the first word is `--atomic`, and the words without it.
fn take_flag(words: &[String]) -> (bool, &[String]) {
    match words.split_first() {
        Some((first, rest)) => {
            if first.as_str() == "--atomic" {
                (true, rest)
            } else {
                (false, words)
            }
        }
        None => (false, words),
    }
}

/// Whether a word is `,`, which parts two commands.
fn is_comma(word: &String) -> bool {
    word.as_str() == ","
}

/// Whether a command is empty: there is no word, or a comma is first or last or follows another.
fn has_empty_command(words: &[String]) -> bool {
    words.split(is_comma).any(|command| command.is_empty())
}

/// The command of these words, each one argument as it stands.
fn command_of(alloc: Global, words: &[String]) -> RedisResult<Cmd> {
    let mut command = Cmd::new(alloc);
    for word in words {
        command.write_arg(word.as_bytes())?;
    }
    Ok(command)
}

fn print_packed<O: Write>(alloc: Global, words: &[String], out: &mut O) -> RedisResult<()> {
    let bytes = command_of(alloc, words)?.get_packed_command()?;
    write_whole(out, bytes.as_slice())
}

fn write_whole<O: Write>(out: &mut O, bytes: &[u8]) -> RedisResult<()> {
    out.write_all(bytes)?;
    out.flush()?;
    Ok(())
}

/// One command goes by itself, unless it is a transaction; several go as a pipeline.
fn ask(
    alloc: Global,
    atomic: bool,
    words: &[String],
    con: &mut dyn ConnectionLike,
) -> RedisResult<Value> {
    if atomic || words.iter().any(is_comma) {
        pipeline_of(alloc, atomic, words)?.query(con)
    } else {
        command_of(alloc, words)?.query(con)
    }
}

/// The pipeline of the commands between commas.
fn pipeline_of(alloc: Global, atomic: bool, words: &[String]) -> RedisResult<Pipeline> {
    let mut pipeline = pipe(alloc);
    if atomic {
        let _ = pipeline.atomic();
    }
    for command in words.split(is_comma) {
        pipeline.push_command(command_of(alloc, command)?)?;
    }
    Ok(pipeline)
}

fn print_answer<E: Write>(value: &Value, err: &mut E) -> u8 {
    match writeln!(err, "{value:?}") {
        Ok(()) => DONE,
        Err(_) => REFUSED,
    }
}

/// Prints the category of a refusal, and the position and code of each server error in it; that
/// memory ran out, where it did for their list.
fn print_refusal<E: Write>(alloc: Global, error: RedisError, err: &mut E) -> u8 {
    let _ = write_refusal(alloc, error, err);
    REFUSED
}

fn write_refusal<E: Write>(alloc: Global, error: RedisError, err: &mut E) -> io::Result<()> {
    let kind = error.kind();
    match error.into_server_errors(alloc) {
        Ok(errors) => {
            write!(err, "refused: {}", kind.category())?;
            if let Some(errors) = errors {
                write_places(errors.as_slice(), err)?;
            }
            writeln!(err)
        }
        Err(refusal) => writeln!(err, "refused: {}", refusal.category()),
    }
}

/// Prints the position and the code of each error.
fn write_places<E: Write>(errors: &[(usize, ServerError)], err: &mut E) -> io::Result<()> {
    for (position, error) in errors {
        let code = error.code();
        write!(err, " {position}:{code}")?;
    }
    Ok(())
}
