//! What a session learned, as text.

use crate::session::Learned;
use crate::transactions::Outcome;
use resp_core::ServerError;
use std::io;
use std::io::Write;

/// Prints what the session itself learned.
pub fn print_learned<E: Write>(learned: &Learned, err: &mut E) -> io::Result<()> {
    let server = &learned.server;
    writeln!(
        err,
        "redis {}, protocol {}",
        server.version, server.protocol
    )?;
    let entry = &learned.entry;
    writeln!(
        err,
        "name {}: a {} of {} bytes",
        learned.name,
        entry.kind.name(),
        entry.length
    )?;
    for name in &entry.both {
        writeln!(err, "found {name:?}")?;
    }
    writeln!(err, "visit {}", learned.visits)
}

/// Prints what a transaction came to, and of each command in it that was refused or failed why.
pub fn print_outcome<E: Write>(outcome: &Outcome, err: &mut E) -> io::Result<()> {
    match outcome {
        Outcome::Done => writeln!(err, "transaction: done"),
        Outcome::Overtaken => writeln!(err, "transaction: not done, a watched key was changed"),
        Outcome::Refused(causes) => {
            writeln!(err, "transaction: not done, commands were refused")?;
            print_errors(causes.as_slice(), err)
        }
        Outcome::Failed(errors) => {
            writeln!(err, "transaction: done, commands failed")?;
            print_errors(errors.as_slice(), err)
        }
    }
}

fn print_errors<E: Write>(errors: &[(usize, ServerError)], err: &mut E) -> io::Result<()> {
    for (position, error) in errors {
        writeln!(err, "command {position}: {error}")?;
    }
    Ok(())
}
