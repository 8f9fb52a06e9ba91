//! `resp`: packs a command, or sends commands over its standard streams and prints the answer.
//!
//! `resp pack WORD..` prints the bytes that send a command. `resp read` prints the replies on
//! standard input, a line for each. `resp query [--atomic] WORD.. [, WORD..]..` writes commands to
//! standard output, reads their replies from standard input and prints the answer on standard
//! error, so that a pipe can join it to a server. The word `,` parts two commands. The word
//! `--atomic`, where it is the first, makes them a transaction.
//!
//! The exit status is 0 on success; 1 for wrong words, with the usage on standard error; 2 where
//! the answer is a refusal, with `refused: ` and its category on standard error, and then the
//! position and code of each server error in it, as `1:CROSSSLOT`. Where memory runs out for these,
//! it is `refused: out of memory`.
#![tactic(auto)]

use resp_cli::{Task, pack, print_no_words, print_usage, query, read, task_of};
use resp_core::ByteLink;
use std::process::ExitCode;
use std::{env, io};

fn main(rt: HostRuntime) -> ExitCode {
    let status = match words(&rt) {
        Ok(words) => run(&rt, words.as_slice()),
        Err(error) => print_no_words(&error, &mut rt.stderr()),
    };
    ExitCode::from(status)
}

/// Does what the words ask for.
fn run(rt: &HostRuntime, words: &[String]) -> u8 {
    let alloc = rt.alloc();
    match task_of(words) {
        Task::Pack(words) => pack(alloc, words, &mut rt.stdout(), &mut rt.stderr()),
        Task::Read => read(alloc, &mut rt.stdin(), &mut rt.stdout(), &mut rt.stderr()),
        Task::Query(words) => {
            let mut link = ByteLink::new(alloc, rt.stdin(), rt.stdout());
            query(alloc, words, &mut link, &mut rt.stderr())
        }
        Task::Usage => print_usage(&mut rt.stderr()),
    }
}

/// The words after the program's name.
fn words(rt: &HostRuntime) -> io::Result<Vec<String>> {
    let mut words = Vec::new(rt.alloc());
    for word in env::args(rt)?.skip(1) {
        words.push(word)?;
    }
    Ok(words)
}
