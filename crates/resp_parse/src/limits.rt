//! The limits on what is read as a value.

ghost use Rattle.std.specs.Prelude.{◌≡◌, ◌↔◌, IsOk, IfErr};
ghost use Rattle.resp_containers.specs.lemmas.Clones.{of_copies};
ghost use Rattle.resp_containers.specs.lemmas.Equality.{both, same_numbers};
ghost use Rattle.resp_parse.specs.Limits.{AreLimits, RefusesLimits, usual};

use resp_value::{ErrorKind, ExactClone, RedisError, RedisResult, StructuralEq};

/// The limit on the depth where none is chosen.
pub(crate) const USUAL_DEPTH: usize = 100;

/// The greatest limit on the depth.
const MOST_DEPTH: usize = 1000;

/// The greatest limit on the size, and the one where none is chosen.
pub(crate) const LONGEST: usize = isize::MAX as usize;

/// How deep and how long a value may be that is read, and how many bytes of pushes a link sets aside.
///
/// A peer that goes on sending makes a parser hold the value in progress, in more memory than it
/// has bytes: a null takes three bytes to send and as many to keep as a
/// [`Value`](resp_value::Value) has. So whoever reads from strangers chooses limits.
#[derive(Clone, Copy, PartialEq, Eq, Debug)]
pub struct Limits {
    /// How many levels of values inside values are read, the outermost being the first: 1 to 1,000.
    /// A value below them is refused as [`FrameFault::TooDeep`](resp_value::FrameFault).
    pub depth: usize,
    /// How many bytes may spell a value: 1 to 2^63 - 1. A value that has one byte more is refused
    /// as [`FrameFault::TooLong`](resp_value::FrameFault), once that byte is there.
    pub bytes: usize,
    /// How many bytes may spell the pushes that a link sets aside until they are taken. It refuses
    /// the first push that takes it past them as
    /// [`FrameFault::TooManyPushes`](resp_value::FrameFault), once that push is there; at 0 it
    /// refuses every push. A parser sets none aside, and keeps the number for its link.
    pub pushes: usize,
}

impl Default for Limits {
    /// 100 levels, 2^63 - 1 bytes, and as many of pushes.
    fn default() -> Limits
        ensures { result ≡ usual }
    {
        Limits {
            depth: USUAL_DEPTH,
            bytes: LONGEST,
            pushes: LONGEST,
        }
    }
}

impl Limits {
    /// Whether a parser takes them, or what it refuses them with.
    pub(crate) fn check(self) -> RedisResult<()>
        ensures accepts { IsOk result ↔ AreLimits self }
        ensures error { IfErr result (RefusesLimits self) }
    {
        if self.depth == 0 || self.depth > MOST_DEPTH {
            return Err(RedisError::from((
                ErrorKind::InvalidClientConfig,
                "depth limit must be 1 to 1000",
            )));
        }
        if self.bytes == 0 || self.bytes > LONGEST {
            return Err(RedisError::from((
                ErrorKind::InvalidClientConfig,
                "size limit must be 1 to 2^63 - 1 bytes",
            )));
        }
        Ok(())
    }
}

impl StructuralEq for Limits {
    ghost structural = { λ a b h. let first = both _ _ h in let others = both _ _ first.1 in λ i. record {
      depth = same_numbers a.depth b.depth first.0 i;
      bytes = same_numbers a.bytes b.bytes others.0 i;
      pushes = same_numbers a.pushes b.pushes others.1 i;
    } };
}

impl ExactClone for Limits {
    ghost exact = { of_copies };
}
