//! What a file holds.

use resp_core::FrameFault;
use std::io;
use std::io::Write;

/// What a file holds.
#[derive(Clone, Copy, PartialEq, Eq, Debug)]
pub struct Report {
    /// How many whole commands stand at its start.
    pub commands: u64,
    /// Where the last of them ends.
    pub end: u64,
    /// What follows them.
    pub rest: Rest,
}

/// What follows the whole commands of a file.
#[derive(Clone, Copy, PartialEq, Eq, Debug)]
pub enum Rest {
    /// Nothing.
    Nothing,
    /// A command that ends early.
    Early,
    /// Bytes that can't begin a value, as is seen at this place.
    Fault(FrameFault, u64),
    /// A value that is no command, which ends at this place.
    NoCommand(u64),
}

impl Report {
    /// 0 where the file is whole, 1 where it isn't.
    pub fn status(&self) -> u8 {
        match self.rest {
            Rest::Nothing => 0,
            _ => 1,
        }
    }

    /// Prints the report in a line.
    pub fn print<W: Write>(&self, out: &mut W) -> io::Result<()> {
        match self.rest {
            Rest::Nothing => writeln!(out, "whole: {} commands", self.commands),
            Rest::Early => writeln!(
                out,
                "early end: {} commands, the last of which ends at byte {}",
                self.commands, self.end
            ),
            Rest::Fault(fault, at) => writeln!(
                out,
                "{fault:?} at byte {at}: {} commands, the last of which ends at byte {}",
                self.commands, self.end
            ),
            Rest::NoCommand(at) => writeln!(
                out,
                "no command at byte {at}: {} commands, the last of which ends at byte {}",
                self.commands, self.end
            ),
        }
    }
}
