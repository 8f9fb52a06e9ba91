//! `example_aof [FILE..]`: checks append-only files of a server, or standard input.
//!
//! Such a file holds the commands that made the data, each an array of bulk strings. The program
//! prints how many there are, on a line for each file. At bytes that can't begin a value it prints
//! their fault and its place in the file, at a value that is no command its place; where the file
//! ends within a command, the place where the last whole one ends, so that the file can be cut
//! there. Places count the bytes up to and with the one that is meant.
//!
//! The exit status is 0 where each file is whole, 1 where one isn't, and 2 where one can't be read.
#![tactic(auto)]

mod check;
mod report;

use check::check;
use resp_core::RedisResult;
use std::fs::File;
use std::io::Write;
use std::process::ExitCode;
use std::{env, io};

fn main(rt: HostRuntime) -> ExitCode {
    match check_all(&rt) {
        Ok(status) => ExitCode::from(status),
        Err(error) => {
            let _ = writeln!(rt.stderr(), "refused: {error}");
            ExitCode::from(2)
        }
    }
}

/// Checks the files that are named, or standard input where none is.
fn check_all(rt: &HostRuntime) -> RedisResult<u8> {
    let files = names(rt)?;
    if files.is_empty() {
        return check_input(rt);
    }
    let mut status = 0;
    for file in &files {
        status = status.max(check_file(rt, file)?);
    }
    Ok(status)
}

/// The words after the program's name.
fn names(rt: &HostRuntime) -> io::Result<Vec<String>> {
    let mut names = Vec::new(rt.alloc());
    for name in env::args(rt)?.skip(1) {
        names.push(name)?;
    }
    Ok(names)
}

fn check_file(rt: &HostRuntime, file: &String) -> RedisResult<u8> {
    let report = check(rt.alloc(), &mut File::open(rt, file)?)?;
    let mut out = rt.stdout();
    write!(out, "{file}: ")?;
    report.print(&mut out)?;
    Ok(report.status())
}

fn check_input(rt: &HostRuntime) -> RedisResult<u8> {
    let report = check(rt.alloc(), &mut rt.stdin())?;
    report.print(&mut rt.stdout())?;
    Ok(report.status())
}
