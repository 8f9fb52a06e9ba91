//! Bytes that contracts alone see.

ghost use Rattle.std.specs.Prelude.{◌≡◌, ◌++◌, []};

use boxcar::tag::{Names, Tag};
use std::marker::Model;
use std::mem;

/// All bytes that came or went so far. It takes no memory and no time: contracts alone see it.
///
/// A source, a sink or a connection of one's own keeps the history of its bytes in one.
#[derive(Drop)]
pub struct History {
    bytes: Tag,
}

impl Model for History {
    ghost use Rattle.std.specs.Prelude.{List, ℕ};

    ghost Value = { List ℕ };

    ghost view = { λ s. s.bytes.numbers };
}

/// The bytes of a tag, and these after them.
struct Appended;

impl Names<(Tag, &[u8])> for Appended {
    ghost use Rattle.std.specs.Prelude.{◌++◌};

    ghost numbers = { λ p. p.0.numbers ++ p.1.now };
}

/// These bytes.
struct These;

impl Names<&[u8]> for These {
    ghost numbers = { λ bytes. bytes.now };
}

impl History {
    /// No bytes.
    pub fn new() -> History
        ensures { result ≡ [] }
    {
        History {
            bytes: Tag::empty(),
        }
    }

    /// These bytes came next.
    pub fn append(&mut self, bytes: &[u8])
        ensures { self.new ≡ self.old ++ bytes.now }
    {
        let before = mem::replace(&mut self.bytes, Tag::empty());
        self.bytes = Tag::of::<(Tag, &[u8]), Appended>(&(before, bytes));
    }

    /// These bytes and no others.
    pub(crate) fn restart(&mut self, bytes: &[u8])
        ensures { self.new ≡ bytes.now }
    {
        self.bytes = Tag::of::<&[u8], These>(&bytes);
    }
}
