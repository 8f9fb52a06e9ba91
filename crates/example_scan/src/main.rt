//! `example_scan`: sends a scan, and prints what it answers.
//!
//! `example_scan [BUDGET] WORD..` writes requests to standard output, reads replies from standard
//! input, and prints the Debug text of each answer on a line of standard error, so that a pipe can
//! join it to a server. The words are a command: of `SCAN` the cursor comes after the first of
//! them, of `HSCAN`, `SSCAN` and `ZSCAN` after the second. The budget, a decimal number, is how
//! many requests may follow the first; without one, as many as there are.
//!
//! The exit status is 0 where the scan began, 1 for no words, 2 where it was refused.
#![tactic(auto)]

mod call;
mod program;
#[cfg(test)]
mod tests;

use program::run;
use resp_core::ByteLink;
use std::process::ExitCode;
use std::{env, io};

fn main(rt: HostRuntime) -> ExitCode {
    let alloc = rt.alloc();
    let mut link = ByteLink::new(alloc, rt.stdin(), rt.stdout());
    let status = match words(&rt) {
        Ok(words) => run(alloc, words.as_slice(), &mut link, &mut rt.stderr()),
        Err(_) => 1,
    };
    ExitCode::from(status)
}

/// The words after the program's name.
fn words(rt: &HostRuntime) -> io::Result<Vec<String>> {
    let mut words = Vec::new(rt.alloc());
    for word in env::args(rt)?.skip(1) {
        words.push(word)?;
    }
    Ok(words)
}
