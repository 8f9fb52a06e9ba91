//! Answers as texts.

use resp_core::{RedisError, RedisResult, ServerError};
use std::alloc::Global;
use std::fmt::Debug;

/// What `{:?}` prints.
pub fn debug_text<T: Debug>(alloc: Global, value: &T) -> RedisResult<String> {
    Ok(format!(in alloc; "{value:?}")?)
}

/// Appends a part of an answer, with a space between two.
pub fn add_part(text: &mut String, part: &str) -> RedisResult<()> {
    if !text.is_empty() {
        text.push(' ')?;
    }
    Ok(text.push_str(part)?)
}

/// A text with its control characters as escapes.
pub fn escaped(alloc: Global, text: &str) -> RedisResult<String> {
    let mut shown = String::new(alloc);
    for letter in text.chars() {
        if letter.is_ascii_control() {
            add_byte(&mut shown, letter as u32)?;
        } else {
            shown.push(letter)?;
        }
    }
    Ok(shown)
}

/// Appends the escape of a byte.
fn add_byte(shown: &mut String, byte: u32) -> RedisResult<()> {
    match byte {
        13 => shown.push_str("\\r")?,
        10 => shown.push_str("\\n")?,
        9 => shown.push_str("\\t")?,
        _ => write!(shown, "\\x{byte:02X}")?,
    }
    Ok(())
}

/// Bytes in quotes.
pub fn quoted(alloc: Global, bytes: &[u8]) -> RedisResult<String> {
    let mut shown = String::from_str(alloc, "\"")?;
    for byte in bytes {
        add_quoted(&mut shown, *byte)?;
    }
    shown.push('"')?;
    Ok(shown)
}

/// Appends a byte as it stands in quotes.
fn add_quoted(shown: &mut String, byte: u8) -> RedisResult<()> {
    match byte {
        b'"' => shown.push_str("\\\"")?,
        b'\\' => shown.push_str("\\\\")?,
        32..=126 => shown.push(char::from(byte))?,
        _ => add_byte(shown, byte as u32)?,
    }
    Ok(())
}

/// The Debug text of an answer, or what its refusal shows. Fails where memory ran out.
pub fn answer_text<T: Debug + Drop>(alloc: Global, answer: RedisResult<T>) -> RedisResult<String> {
    match answer {
        Ok(value) => debug_text(alloc, &value),
        Err(error) => refusal_text(alloc, error),
    }
}

/// The category of a refusal, each server error that it stands for, and what is known of its cause.
pub fn refusal_text(alloc: Global, error: RedisError) -> RedisResult<String> {
    if matches!(&error, RedisError::OutOfMemory) {
        return Err(error);
    }
    let category = error.kind().category();
    let cause = cause_text(alloc, &error)?;
    let places = places_text(alloc, error)?;
    Ok(format!(in alloc; "refused: {category}{places}{cause}")?)
}

/// What is known of a refusal's cause, in parentheses, where anything is.
fn cause_text(alloc: Global, error: &RedisError) -> RedisResult<String> {
    match cause_of(alloc, error)? {
        Some(cause) => Ok(format!(in alloc; " ({cause})")?),
        None => Ok(String::new(alloc)),
    }
}

/// The position and the code of each server error that a refusal stands for.
fn places_text(alloc: Global, error: RedisError) -> RedisResult<String> {
    let mut text = String::new(alloc);
    if let Some(errors) = error.into_server_errors(alloc)? {
        add_places(&mut text, errors.as_slice())?;
    }
    Ok(text)
}

/// Appends the position and the code of each error.
fn add_places(text: &mut String, errors: &[(usize, ServerError)]) -> RedisResult<()> {
    for (position, error) in errors {
        let code = error.code();
        write!(text, " {position}:{code}")?;
    }
    Ok(())
}

/// The fault of the bytes or of the device, what a refusal of the library's own shows, or a
/// server's detail.
fn cause_of(alloc: Global, error: &RedisError) -> RedisResult<Option<String>> {
    match error {
        RedisError::General { .. } => Ok(Some(format!(in alloc; "{error}")?)),
        RedisError::Io(kind) => Ok(Some(debug_text(alloc, kind)?)),
        RedisError::Parse(cause) => shown(alloc, &cause.frame_fault()),
        RedisError::Server(cause) => shown(alloc, &cause.details()),
        _ => Ok(None),
    }
}

/// The Debug text of what is there.
fn shown<T: Debug>(alloc: Global, part: &Option<T>) -> RedisResult<Option<String>> {
    match part {
        Some(part) => Ok(Some(debug_text(alloc, part)?)),
        None => Ok(None),
    }
}
