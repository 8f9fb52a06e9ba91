//! `example_session [PROTOCOL [CHANNEL COUNT]]`: a session of a client with a server, over version
//! 3 of the protocol where none is named, and then transactions that the server doesn't run or that
//! fail. Where a channel is named, it then waits for so many pushes, of which the first says that
//! the channel is subscribed, and prints the messages among them.
//!
//! It writes requests to standard output, reads replies from standard input, and prints what it
//! learned on standard error, so that a pipe can join it to a server; `run-on-redis.sh` does.
//!
//! The exit status is 0 where all ended, 1 for other words, and 2 where a call was refused.
#![tactic(auto)]

mod counting;
mod printing;
mod server;
mod session;
mod subscriber;
mod transactions;

use printing::{print_learned, print_outcome};
use resp_core::{ByteLink, RedisResult};
use session::session;
use std::alloc::Global;
use std::env;
use std::io::Write;
use std::process::ExitCode;
use subscriber::{Link, message_of, subscribe};
use transactions::try_in_vain;

fn main(rt: HostRuntime) -> ExitCode {
    match words_of(&rt) {
        Some(words) => {
            let mut link = ByteLink::new(rt.alloc(), rt.stdin(), rt.stdout());
            ExitCode::from(run(rt.alloc(), &words, &mut link, &mut rt.stderr()))
        }
        None => ExitCode::from(1),
    }
}

/// What the words ask for.
#[derive(Drop)]
struct Words {
    /// The version of the protocol.
    protocol: i64,
    /// The channel to listen to, and how many pushes are waited for.
    channel: Option<(String, u32)>,
}

fn words_of(rt: &HostRuntime) -> Option<Words> {
    let mut words = env::args(rt).ok()?.skip(1);
    let protocol = match words.next() {
        Some(word) => word.parse::<i64>().ok()?,
        None => 3,
    };
    let channel = match words.next() {
        Some(name) => Some((name, words.next()?.parse::<u32>().ok()?)),
        None => None,
    };
    Some(Words { protocol, channel })
}

/// Leads the session and the transactions, listens, and prints what it learned.
fn run<E: Write>(alloc: Global, words: &Words, link: &mut Link, err: &mut E) -> u8 {
    match lead(alloc, words, link, err) {
        Ok(()) => 0,
        Err(error) => {
            let _ = writeln!(err, "refused: {error:?}");
            2
        }
    }
}

fn lead<E: Write>(alloc: Global, words: &Words, link: &mut Link, err: &mut E) -> RedisResult<()> {
    print_learned(&session(alloc, link, words.protocol, "Ada")?, err)?;
    for outcome in try_in_vain(alloc, link)?.as_slice() {
        print_outcome(outcome, err)?;
    }
    match &words.channel {
        Some((name, count)) => listen(alloc, name.as_str(), *count, link, err),
        None => Ok(()),
    }
}

/// Subscribes, waits for pushes, and prints the messages among them, each on a line.
fn listen<E: Write>(
    alloc: Global,
    channel: &str,
    count: u32,
    link: &mut Link,
    err: &mut E,
) -> RedisResult<()> {
    subscribe(alloc, link, channel)?;
    for _ in 0..count {
        let push = link.next_push()?;
        if let Some(message) = message_of(&push) {
            err.write_all(message)?;
            err.write_all(b"\n")?;
        }
    }
    Ok(())
}
