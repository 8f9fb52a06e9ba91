//! How many rows there were, and which don't hold.

use crate::answers::answer_of;
use crate::rows::Row;
use crate::texts::refusal_text;
use resp_core::RedisResult;
use std::alloc::Global;
use std::collections::BTreeMap;
use std::io::Write;

/// The rows that were checked so far.
#[derive(Drop)]
pub struct Tally {
    /// How many rows of each task there were.
    counts: BTreeMap<String, u64>,
    /// How many of all of them don't hold.
    wrong: u64,
}

impl Tally {
    pub fn new(alloc: Global) -> Tally {
        Tally {
            counts: BTreeMap::new(alloc),
            wrong: 0,
        }
    }

    /// Checks the rows of a file, and prints those that don't hold.
    pub fn check<W: Write>(
        &mut self,
        alloc: Global,
        file: &str,
        text: &str,
        out: &mut W,
    ) -> RedisResult<()> {
        let mut number = 0u64;
        for line in text.lines() {
            number = number.saturating_add(1);
            if line.is_empty() || line.starts_with('#') {
                continue;
            }
            if let Some(failure) = self.failure(alloc, line)? {
                writeln!(out, "{file}:{number}: {failure}")?;
            }
        }
        Ok(())
    }

    /// Counts a row. Some where it doesn't hold, which says why.
    fn failure(&mut self, alloc: Global, line: &str) -> RedisResult<Option<String>> {
        let Some((row, wanted)) = line.split_once(" =>") else {
            return self.note(Some(format!(in alloc; "no answer: {line}")?));
        };
        self.count(alloc, row.split_once(' ').map_or(row, |(task, _)| task))?;
        let came = match worked_out(alloc, row) {
            Ok(came) => came,
            Err(error) => refusal_text(alloc, error)?,
        };
        let wanted = wanted.strip_prefix(" ").unwrap_or(wanted);
        if came.as_str() == wanted {
            return Ok(None);
        }
        self.note(Some(format!(in alloc; "{line}\n  came {came}")?))
    }

    /// Counts a failure.
    fn note(&mut self, failure: Option<String>) -> RedisResult<Option<String>> {
        self.wrong = self.wrong.saturating_add(1);
        Ok(failure)
    }

    /// Counts a row of a task.
    fn count(&mut self, alloc: Global, task: &str) -> RedisResult<()> {
        let task = String::from_str(alloc, task)?;
        let count = self.counts.entry(task)?.or_insert(0);
        *count = count.saturating_add(1);
        Ok(())
    }

    /// Prints how many rows of each task there were, and how many of all are wrong.
    pub fn print<W: Write>(&self, out: &mut W) -> RedisResult<()> {
        for (task, count) in &self.counts {
            writeln!(out, "{task}: {count}")?;
        }
        writeln!(out, "wrong: {}", self.wrong)?;
        Ok(())
    }

    pub fn all_hold(&self) -> bool {
        self.wrong == 0
    }
}

/// The answer of a row.
fn worked_out(alloc: Global, row: &str) -> RedisResult<String> {
    answer_of(alloc, &Row::read(alloc, row)?)
}
