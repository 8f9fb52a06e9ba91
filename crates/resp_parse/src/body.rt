//! A body whose bytes come in pieces.

ghost use Rattle.std.specs.Prelude.{◌≡◌, List};
ghost use Rattle.resp_parse.specs.declared.open_aggregates.OpenAggregate.{OpenAggregate};
ghost use Rattle.resp_parse.specs.Building.{filling};
ghost use Rattle.resp_parse.specs.Resume.{FillsBody};

use crate::builder::Builder;
use crate::history::History;
use crate::shape::BodyKind;
use std::alloc::AllocError;

/// A body whose bytes and CR LF aren't all there.
#[derive(Drop)]
pub(crate) struct Body {
    pub(crate) kind: BodyKind,
    /// How many bytes it lacks, its CR LF aside.
    pub(crate) missing: usize,
    /// Which bytes it has; contracts alone see them.
    pub(crate) seen: History,
}

impl Body {
    /// Takes what it lacks, or all of the bytes if they are fewer; answers how many.
    #[inline(always)]
    pub(crate) fn fill<B: Builder>(
        &mut self,
        builder: &mut B,
        bytes: &[u8],
    ) -> Result<usize, AllocError>
        ensures fills { FillsBody self.old bytes.now self.new result }
        ensures stands { (fs : List OpenAggregate) → B.stands builder.old fs (filling self.old.seen) →
            B.stands builder.new fs (filling self.new.seen) }
        ensures values { B.values builder.new ≡ B.values builder.old }
        ensures tokens { B.tokens builder.new ≡ B.tokens builder.old }
    {
        let taken = bytes.len().min(self.missing);
        let part = &bytes[..taken];
        builder.extend_body(part)?;
        self.seen.append(part);
        self.missing -= taken;
        Ok(taken)
    }
}
