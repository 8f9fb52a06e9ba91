//! Scans over a link in memory.

use crate::commands::command_of;
use crate::queries::{MemoryLink, link_over, with_link};
use crate::rows::{Row, malformed, number_of, text_of};
use crate::texts::{add_part, debug_text, refusal_text};
use crate::types::{AtType, at_item_type};
use resp_core::{FromRedisValue, Iter, RedisError, RedisResult};
use std::alloc::Global;
use std::fmt::Debug;

/// A scan.
#[derive(Drop)]
struct Scanned<'a> {
    alloc: Global,
    budget: u64,
    words: &'a [Vec<u8>],
    incoming: &'a [u8],
}

/// `scan TYPE BUDGET WORD.. < BYTES`
pub fn scan(alloc: Global, row: &Row) -> RedisResult<String> {
    let (question, incoming) = row.question()?;
    match question {
        [name, budget, words @ ..] => at_item_type(
            text_of(name.as_slice())?,
            &Scanned {
                alloc,
                budget: number_of(budget.as_slice())?,
                words,
                incoming,
            },
        ),
        _ => Err(malformed()),
    }
}

impl<'a> AtType for Scanned<'a> {
    fn at<T: FromRedisValue + Debug>(&self) -> RedisResult<String> {
        let mut link = link_over(self.alloc, self.incoming)?;
        let answer = answers::<T>(self, &mut link)?;
        with_link(self.alloc, answer, link)
    }
}

/// What the scan answers, or the refusal of its first request.
fn answers<T: FromRedisValue + Debug>(
    asked: &Scanned<'_>,
    link: &mut MemoryLink,
) -> RedisResult<String> {
    let command = command_of(asked.alloc, asked.words)?;
    let scan: RedisResult<Iter<'_, T, MemoryLink>> = command.iter(link, asked.budget);
    match scan {
        Ok(scan) => all_answers(asked.alloc, scan),
        Err(error) => refusal_text(asked.alloc, error),
    }
}

/// The answers of a scan, up to two calls after the last.
fn all_answers<T: FromRedisValue + Debug>(
    alloc: Global,
    mut scan: Iter<'_, T, MemoryLink>,
) -> RedisResult<String> {
    let mut text = String::new(alloc);
    let mut ends = 0u8;
    for _ in 0..10_000 {
        match scan.next() {
            Some(answer) => add_answer(alloc, &mut text, answer)?,
            None => ends = ends.saturating_add(1),
        }
        if ends == 3 {
            break;
        }
    }
    Ok(text)
}

/// Adds an answer, or the kind of its refusal. Fails where memory ran out.
fn add_answer<T: Debug + Drop>(
    alloc: Global,
    text: &mut String,
    answer: RedisResult<T>,
) -> RedisResult<()> {
    let shown = match answer {
        Ok(value) => debug_text(alloc, &value)?,
        Err(RedisError::OutOfMemory) => return Err(RedisError::OutOfMemory),
        Err(error) => debug_text(alloc, &error.kind())?,
    };
    add_part(text, shown.as_str())
}
