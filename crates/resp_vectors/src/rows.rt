//! A row without its answer.

use crate::words::words_of;
use resp_core::{ErrorKind, RedisError, RedisResult};
use std::alloc::Global;

/// A task and its words.
#[derive(Drop)]
pub struct Row {
    task: String,
    words: Vec<Vec<u8>>,
}

/// The refusal of a row that isn't written as its task asks.
pub fn malformed() -> RedisError {
    RedisError::from((ErrorKind::Client, "malformed row"))
}

/// A word that is text.
pub fn text_of(word: &[u8]) -> RedisResult<&str> {
    std::str::from_utf8(word).map_err(|_| malformed())
}

/// A word that is a number.
pub fn number_of(word: &[u8]) -> RedisResult<u64> {
    text_of(word)?.parse::<u64>().map_err(|_| malformed())
}

impl Row {
    /// The row of a line up to its answer.
    pub fn read(alloc: Global, line: &str) -> RedisResult<Row> {
        match line.split_once(' ') {
            Some((task, words)) => Ok(Row {
                task: String::from_str(alloc, task)?,
                words: words_of(alloc, words.as_bytes())?,
            }),
            None => Ok(Row {
                task: String::from_str(alloc, line)?,
                words: Vec::new(alloc),
            }),
        }
    }

    pub fn task(&self) -> &str {
        self.task.as_str()
    }

    pub fn words(&self) -> &[Vec<u8>] {
        self.words.as_slice()
    }

    /// The words before the mark `<` and the word after it.
    pub fn question(&self) -> RedisResult<(&[Vec<u8>], &[u8])> {
        match self.words.as_slice() {
            [question @ .., mark, incoming] => {
                if mark.as_slice() != b"<".as_slice() {
                    return Err(malformed());
                }
                Ok((question, incoming.as_slice()))
            }
            _ => Err(malformed()),
        }
    }
}
