//! What the program does, over any connection.

use crate::call::{budget_of, scan_command};
use resp_core::{ConnectionLike, Iter, RedisResult, Value};
use std::alloc::Global;
use std::io::Write;

/// Sends the scan of the words, and prints its answers.
pub fn run<C: ConnectionLike, E: Write>(
    alloc: Global,
    words: &[String],
    con: &mut C,
    err: &mut E,
) -> u8 {
    let (budget, words) = budget_of(words);
    if words.is_empty() {
        let _ = writeln!(err, "usage: example_scan [BUDGET] WORD..");
        return 1;
    }
    match scan_words(alloc, words, con, budget) {
        Ok(scan) => {
            print_answers(scan, err);
            0
        }
        Err(error) => {
            let _ = writeln!(err, "refused: {error:?}");
            2
        }
    }
}

fn scan_words<'a, C: ConnectionLike>(
    alloc: Global,
    words: &[String],
    con: &'a mut C,
    budget: u64,
) -> RedisResult<Iter<'a, Value, C>> {
    scan_command(alloc, words)?.iter(con, budget)
}

fn print_answers<C: ConnectionLike, E: Write>(scan: Iter<'_, Value, C>, err: &mut E) {
    for answer in scan {
        print_answer(&answer, err);
    }
}

fn print_answer<E: Write>(answer: &RedisResult<Value>, err: &mut E) {
    let _ = writeln!(err, "{answer:?}");
}
