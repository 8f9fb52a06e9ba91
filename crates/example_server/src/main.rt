//! `example_server`: a mock of a server, with one sorted map from keys to strings and hashes.
//!
//! It reads commands from standard input, each an array of bulk strings or an inline command, and
//! writes their replies to standard output, as a server of Redis 7.0 words them. It knows:
//!
//! - `PING [message]`, `ECHO`, `HELLO [2|3]`, `SELECT 0`, `QUIT`, `COMMAND` and `COMMAND DOCS`
//!   (which are answered with nothing), `CLIENT ID|GETNAME|SETNAME|SETINFO`;
//! - `GET`, `SET` with `NX`, `XX`, `GET`, `EX`, `PX`, `EXAT`, `PXAT` and `KEEPTTL`, `DEL` and
//!   `EXISTS` of several keys, `INCR`, `EXPIRE` with `NX`, `XX`, `GT` and `LT`, `HSET` of several
//!   fields, `HGETALL`;
//! - `MULTI`, `EXEC` and `DISCARD`.
//!
//! Any other command is answered with an error. The clock stands still, in November 2023: a key
//! keeps its time, and goes at once where that has come. There is one client and one database,
//! which live as long as the program runs. After a request that can't be read the client is told
//! why, and nothing more is answered.
//!
//! The exit status is 0 where the input ends between two requests, after `QUIT` or after what can't
//! be read, and 1 where it ends within a request or a stream fails.
#![tactic(auto)]

mod clock;
mod command;
mod connection;
mod counting;
mod expire_options;
mod hashes;
mod inline;
mod integers;
mod keys;
mod lines;
mod names;
mod protocol_error;
mod reading;
mod refusal;
mod reply;
mod requests;
mod server;
mod session;
mod set_options;
mod state;
mod store;
mod strings;

use server::serve;
use std::io::BufWriter;
use std::process::ExitCode;

fn main(rt: HostRuntime) -> ExitCode {
    let Ok(mut out) = BufWriter::new(rt.alloc(), rt.stdout()) else {
        return ExitCode::FAILURE;
    };
    match serve(rt.alloc(), &mut rt.stdin(), &mut out) {
        Ok(()) => ExitCode::SUCCESS,
        Err(_) => ExitCode::FAILURE,
    }
}
