//! Commands and pipelines of words, and links over bytes in memory.

use crate::testing::texts::{bytes_text, refusal_text};
use resp_core::{Arg, ByteLink, Cmd, Pipeline, Reading, RedisResult, RedisWrite, Writing, pipe};
use std::alloc::{AllocError, Global};
use std::io::Cursor;

/// A link over bytes in memory.
pub type MemoryLink = ByteLink<Reading<Cursor<Vec<u8>>>, Writing<Vec<u8>>>;

/// A link on which these bytes come in.
pub fn link_over(alloc: Global, incoming: &[u8]) -> RedisResult<MemoryLink> {
    let bytes = Vec::from_slice(alloc, incoming)?;
    Ok(ByteLink::new(alloc, Cursor::new(bytes), Vec::new(alloc)))
}

/// The bytes that a link has sent, as a text.
pub fn sent_text(alloc: Global, link: MemoryLink) -> String {
    let (_source, sink) = link.into_ends();
    bytes_text(alloc, sink.into_inner().as_slice())
}

/// A command of these words.
pub fn command(alloc: Global, words: &[&str]) -> RedisResult<Cmd> {
    let mut command = Cmd::new(alloc);
    for word in words {
        command.write_arg(word.as_bytes())?;
    }
    Ok(command)
}

/// The bytes of a command, as a text.
pub fn command_text(alloc: Global, command: &Cmd) -> String {
    packed_text(alloc, command.get_packed_command())
}

/// The arguments of a command, each with a space after it; `@` is a cursor.
pub fn listed_text(alloc: Global, command: &Cmd) -> String {
    listed(alloc, command).unwrap_or(String::new(alloc))
}

fn listed(alloc: Global, command: &Cmd) -> Result<String, AllocError> {
    let mut text = String::new(alloc);
    for arg in command.args_iter() {
        match arg {
            Arg::Simple(bytes) => text.push_str(bytes_text(alloc, bytes).as_str())?,
            Arg::Cursor => text.push('@')?,
        }
        text.push(' ')?;
    }
    Ok(text)
}

/// A pipeline of commands of these words.
pub fn pipeline(alloc: Global, commands: &[&[&str]]) -> RedisResult<Pipeline> {
    let mut pipeline = pipe(alloc);
    for words in commands {
        pipeline.push_command(command(alloc, words)?)?;
    }
    Ok(pipeline)
}

/// The bytes of a pipeline, as a text.
pub fn pipeline_text(alloc: Global, pipeline: &Pipeline) -> String {
    packed_text(alloc, pipeline.get_packed_pipeline())
}

fn packed_text(alloc: Global, packed: RedisResult<Vec<u8>>) -> String {
    match packed {
        Ok(bytes) => bytes_text(alloc, bytes.as_slice()),
        Err(error) => refusal_text(alloc, &error),
    }
}
