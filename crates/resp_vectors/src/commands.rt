//! Commands and pipelines of words, and their bytes.

use crate::replies::agreed;
use crate::rows::{Row, number_of};
use crate::texts::quoted;
use resp_core::{Cmd, Pipeline, RedisResult, RedisWrite, pack_command, pipe};
use std::alloc::Global;

/// A command of words.
pub fn command_of(alloc: Global, words: &[Vec<u8>]) -> RedisResult<Cmd> {
    let mut command = Cmd::new(alloc);
    for word in words {
        match word.as_slice() {
            [b'@', cursor @ ..] => command.push_cursor_arg(number_of(cursor)?)?,
            arg => command.write_arg(arg)?,
        }
    }
    Ok(command)
}

/// Whether the word stands between two commands.
pub fn is_comma(word: &Vec<u8>) -> bool {
    word.as_slice() == b",".as_slice()
}

/// The flags, which come first, and the words after them.
pub fn split_flags(words: &[Vec<u8>]) -> (&[Vec<u8>], &[Vec<u8>]) {
    let count = words
        .iter()
        .take_while(|word| word.as_slice().starts_with(b"--"))
        .count();
    words.split_at(count.min(words.len()))
}

/// Whether the flag is there.
pub fn has_flag(flags: &[Vec<u8>], name: &str) -> bool {
    flags.iter().any(|flag| flag.as_slice() == name.as_bytes())
}

/// The pipeline of these flags and commands.
pub fn pipeline_of(alloc: Global, flags: &[Vec<u8>], words: &[Vec<u8>]) -> RedisResult<Pipeline> {
    let mut pipeline = pipe(alloc);
    if has_flag(flags, "--atomic") {
        let _ = pipeline.atomic();
    }
    if has_flag(flags, "--ignore-errors") {
        let _ = pipeline.ignore_errors();
    }
    if words.is_empty() {
        return Ok(pipeline);
    }
    for command in words.split(is_comma) {
        push_command(alloc, &mut pipeline, command)?;
    }
    Ok(pipeline)
}

/// Adds a command, which is ignored where its last word says so.
fn push_command(alloc: Global, pipeline: &mut Pipeline, words: &[Vec<u8>]) -> RedisResult<()> {
    let Some((last, front)) = words.split_last() else {
        return pipeline.push_command(Cmd::new(alloc));
    };
    if last.as_slice() == b"!".as_slice() {
        pipeline.push_command(command_of(alloc, front)?)?;
        let _ = pipeline.ignore();
        return Ok(());
    }
    pipeline.push_command(command_of(alloc, words)?)
}

/// `pack WORD..`
pub fn pack(alloc: Global, row: &Row) -> RedisResult<String> {
    let command = command_of(alloc, row.words())?;
    let packed = command.get_packed_command()?;
    let text = quoted(alloc, packed.as_slice())?;
    if command.is_empty() {
        return Ok(text);
    }
    let written = written(alloc, &command)?;
    let text = agreed(alloc, text, written, "written")?;
    if command.in_scan_mode() {
        return Ok(text);
    }
    let listed = pack_command(alloc, row.words())?;
    agreed(alloc, text, quoted(alloc, listed.as_slice())?, "of a list")
}

/// What a command writes after the bytes of a buffer.
fn written(alloc: Global, command: &Cmd) -> RedisResult<String> {
    let mut out = Vec::from_slice(alloc, b"old")?;
    command.write_packed_command(&mut out)?;
    quoted(alloc, out.as_slice().strip_prefix(b"old").unwrap_or(&[]))
}

/// `pipeline [--atomic] COMMANDS`
pub fn pipeline(alloc: Global, row: &Row) -> RedisResult<String> {
    let (flags, words) = split_flags(row.words());
    let packed = pipeline_of(alloc, flags, words)?.get_packed_pipeline()?;
    quoted(alloc, packed.as_slice())
}
