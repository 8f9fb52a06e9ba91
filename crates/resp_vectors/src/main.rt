//! `resp_vectors [FILE..]`: worked examples as rows of files, or of standard input.
//!
//! ROWS.md beside this folder says what a row is. Each row whose answer isn't the one that is
//! wanted is printed with its file and line, what was wanted and what came; then how many rows of
//! each task there were, and how many of them are wrong. The exit status is 0 where none is, 1
//! where one is, and 2 where the rows can't be read.
#![tactic(auto)]

mod answers;
mod commands;
mod connecting;
mod conversions;
mod encodings;
mod errors;
mod names;
mod program;
mod queries;
mod replies;
mod routing;
mod rows;
mod scans;
mod tally;
mod texts;
mod topology;
mod types;
mod words;

use resp_core::RedisResult;
use std::io::Write;
use std::process::ExitCode;
use std::{env, fs, io};
use tally::Tally;

fn main(rt: HostRuntime) -> ExitCode {
    match check_all(&rt) {
        Ok(true) => ExitCode::from(0),
        Ok(false) => ExitCode::from(1),
        Err(error) => {
            let _ = writeln!(rt.stderr(), "refused: {error}");
            ExitCode::from(2)
        }
    }
}

/// Checks the rows of the files that are named, or of standard input where none is. Whether all of
/// them hold.
fn check_all(rt: &HostRuntime) -> RedisResult<bool> {
    let mut tally = Tally::new(rt.alloc());
    let files = file_names(rt)?;
    for file in &files {
        let text = fs::read_to_string(rt, file)?;
        tally.check(rt.alloc(), file.as_str(), text.as_str(), &mut rt.stdout())?;
    }
    if files.is_empty() {
        let text = io::read_to_string(rt.alloc(), rt.stdin())?;
        tally.check(rt.alloc(), "row", text.as_str(), &mut rt.stdout())?;
    }
    tally.print(&mut rt.stdout())?;
    Ok(tally.all_hold())
}

/// The words after the program's name.
fn file_names(rt: &HostRuntime) -> io::Result<Vec<String>> {
    let mut words = Vec::new(rt.alloc());
    for word in env::args(rt)?.skip(1) {
        words.push(word)?;
    }
    Ok(words)
}
