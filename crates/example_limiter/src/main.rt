//! Limits how often a user may call, by counts that a server keeps, greets the user by a profile
//! that it keeps too, and shows the user a page, by typed commands.
//!
//! It writes requests to standard output, reads replies from standard input, and prints what it
//! learned on standard error, so that a pipe can join it to a server; `run-on-redis.sh` does.
//!
//! The exit status is 0 where the server answered everything, and 2 where a command was refused.
#![tactic(auto)]

mod commands;
mod limit;
mod page;
mod profile;

use limit::{Verdict, check};
use page::visit;
use profile::{Profile, profile_of};
use resp_core::{ByteLink, ConnectionLike, RedisResult};
use std::alloc::Global;
use std::io::{self, Write};
use std::process::ExitCode;

fn main(rt: HostRuntime) -> ExitCode {
    let mut link = ByteLink::new(rt.alloc(), rt.stdin(), rt.stdout());
    ExitCode::from(run(rt.alloc(), &mut link, &mut rt.stderr()))
}

/// Serves the users, and prints why where a command was refused.
fn run<E: Write>(alloc: Global, con: &mut dyn ConnectionLike, err: &mut E) -> u8 {
    match serve(alloc, con, err) {
        Ok(()) => 0,
        Err(error) => {
            let _ = writeln!(err, "refused: {error}");
            2
        }
    }
}

/// Three calls of one user, and one of another, whose key holds something else; then the page that
/// the first user is shown.
fn serve<E: Write>(alloc: Global, con: &mut dyn ConnectionLike, err: &mut E) -> RedisResult<()> {
    for name in ["ada", "ada", "ada", "grace"] {
        let verdict = check(alloc, con, name, 2)?;
        print_verdict(name, verdict, err)?;
    }
    print_profile(&profile_of(alloc, con, "ada")?, err)?;
    let page = visit(alloc, con)?;
    page.print(err)?;
    Ok(())
}

fn print_verdict<E: Write>(name: &str, verdict: Verdict, err: &mut E) -> io::Result<()> {
    match verdict {
        Verdict::Allowed(calls) => writeln!(err, "{name}: call {calls}, allowed"),
        Verdict::Denied(calls) => writeln!(err, "{name}: call {calls}, denied"),
        Verdict::NotACounter(error) => writeln!(err, "{name}: no counter, {error}"),
    }
}

fn print_profile<E: Write>(profile: &Profile, err: &mut E) -> io::Result<()> {
    let city = profile
        .city
        .as_ref()
        .map_or("nowhere", |city| city.as_str());
    writeln!(err, "{}, {}, of {city}", profile.name, profile.age)
}
