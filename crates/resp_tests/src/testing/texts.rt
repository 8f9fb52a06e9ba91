//! What answers show.

use resp_core::{Parser, RedisError, RedisResult, Text, ToRedisArgs};
use std::alloc::{AllocError, Global};
use std::fmt::{Debug, Display};

/// What `{:?}` prints.
pub fn debug_text<T: Debug>(alloc: Global, value: &T) -> String {
    format!(in alloc; "{value:?}").unwrap_or(String::new(alloc))
}

/// What `{}` prints.
pub fn display_text<T: Display>(alloc: Global, value: &T) -> String {
    format!(in alloc; "{value}").unwrap_or(String::new(alloc))
}

/// Bytes as a text; those that are none are replaced.
pub fn bytes_text(alloc: Global, bytes: &[u8]) -> String {
    match Text::from_utf8_lossy(alloc, bytes) {
        Ok(text) => text.into_string(),
        Err(_) => String::new(alloc),
    }
}

/// The fault of the refused bytes, or else what the error shows.
pub fn refusal_text(alloc: Global, error: &RedisError) -> String {
    match error.frame_fault() {
        Some(fault) => debug_text(alloc, &fault),
        None => display_text(alloc, error),
    }
}

/// The Debug form of an answer, or what its refusal shows.
pub fn answer_text<T: Debug + Drop>(alloc: Global, answer: RedisResult<T>) -> String {
    match answer {
        Ok(value) => debug_text(alloc, &value),
        Err(error) => refusal_text(alloc, &error),
    }
}

/// What a parser answers next: a value, `None` where bytes are awaited, or a refusal.
pub fn next_text(alloc: Global, parser: &mut Parser) -> String {
    match parser.take_value() {
        Ok(Some(value)) => debug_text(alloc, &value),
        Ok(None) => String::from_str(alloc, "None").unwrap_or(String::new(alloc)),
        Err(error) => refusal_text(alloc, &error),
    }
}

/// The arguments that a value gives, each with its length before it, and for how many it counts, as
/// `2:EX 2:10 (1)`; or why it is refused.
pub fn args_text<T: ToRedisArgs>(alloc: Global, value: &T) -> String {
    match value.to_redis_args(alloc) {
        Ok(args) => {
            listed(alloc, args.as_slice(), value.num_of_args()).unwrap_or(String::new(alloc))
        }
        Err(error) => refusal_text(alloc, &error),
    }
}

fn listed(alloc: Global, args: &[Vec<u8>], count: usize) -> Result<String, AllocError> {
    let mut text = String::new(alloc);
    for arg in args {
        write!(text, "{}:", arg.len())?;
        text.push_str(bytes_text(alloc, arg.as_slice()).as_str())?;
        text.push(' ')?;
    }
    write!(text, "({count})")?;
    Ok(text)
}
