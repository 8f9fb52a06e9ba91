//! What a parser has done, which contracts alone see.

ghost use Rattle.std.specs.Prelude.{◌≡◌, ◌+◌, length};
ghost use Rattle.resp_parse.specs.Counts.{nothing_done};

use boxcar::tag::{Names, Tag};
use std::marker::Model;
use std::mem;
use std::mem::size_of;

/// What a parser has done since it was made: the iterations of its loops, those of them that looked
/// at a byte of a line, the bytes that came to it, those of them that it has looked at, and the
/// calls. It takes no memory and no time: contracts alone see it.
#[derive(Drop)]
pub(crate) struct Counter {
    iterations: Tag,
    looks: Tag,
    received: Tag,
    examined: Tag,
    calls: Tag,
}

const _: () = prove!(size_of::<Counter>() == 0);

impl Model for Counter {
    ghost use Rattle.std.specs.Prelude.{length};
    ghost use Rattle.resp_parse.specs.Counts.{Counts};

    ghost Value = { Counts };

    ghost view = { λ c. record {
      iterations = length c.iterations.numbers;
      looks = length c.looks.numbers;
      received = length c.received.numbers;
      examined = length c.examined.numbers;
      calls = length c.calls.numbers;
    } };
}

/// A number more.
struct More;

impl Names<(Tag, usize)> for More {
    ghost use Rattle.std.specs.Prelude.{◌++◌, replicate};

    ghost numbers = { λ p. replicate p.1 0 ++ p.0.numbers };
}

fn add(tag: &mut Tag, n: usize)
    ensures { length tag.new.numbers ≡ length tag.old.numbers + n }
{
    let before = mem::replace(tag, Tag::empty());
    *tag = Tag::of::<(Tag, usize), More>(&(before, n));
}

impl Counter {
    /// Nothing was done. The parser and `parse_redis_value` alone can make one, so that each loop
    /// counts in theirs.
    pub(super) fn new() -> Counter
        ensures { result ≡ nothing_done }
    {
        Counter {
            iterations: Tag::empty(),
            looks: Tag::empty(),
            received: Tag::empty(),
            examined: Tag::empty(),
            calls: Tag::empty(),
        }
    }

    /// A loop makes an iteration.
    pub(crate) fn iterate(&mut self)
        ensures { self.new ≡ record self.old { iterations = self.old.iterations + 1 } }
    {
        add(&mut self.iterations, 1);
    }

    /// A loop makes an iteration that looks at one byte of a line.
    pub(crate) fn look(&mut self)
        ensures { self.new ≡ record self.old {
          iterations = self.old.iterations + 1;
          looks = self.old.looks + 1;
        } }
    {
        self.iterate();
        add(&mut self.looks, 1);
    }

    /// Bytes came.
    pub(crate) fn receive(&mut self, n: usize)
        ensures { self.new ≡ record self.old { received = self.old.received + n } }
    {
        add(&mut self.received, n);
    }

    /// Bytes were looked at for the first time.
    pub(crate) fn examine(&mut self, n: usize)
        ensures { self.new ≡ record self.old { examined = self.old.examined + n } }
    {
        add(&mut self.examined, n);
    }

    /// A call was made.
    pub(crate) fn call(&mut self)
        ensures { self.new ≡ record self.old { calls = self.old.calls + 1 } }
    {
        add(&mut self.calls, 1);
    }
}
