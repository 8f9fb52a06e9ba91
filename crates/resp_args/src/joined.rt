//! One argument that is made of parts, as a key of a name and a number.

ghost use Rattle.std.specs.Prelude.{◌≡◌, ◌<◌, ℕ, List, length, OnOk, OnErr};
ghost use Rattle.resp_args.specs.Args.{GivesOne, extended};
ghost use Rattle.resp_args.specs.Joined.{ExtendedInPart};
ghost use Rattle.resp_args.specs.Kept.{Stays};
ghost use Rattle.resp_args.specs.SingleArg.{one_argument};
ghost use Rattle.resp_errors.specs.Memory.{OnlyMemory};

use crate::args::{NumericBehavior, ToRedisArgs};
use crate::single_arg::ToSingleRedisArg;
use crate::write::RedisWrite;
use resp_errors::RedisResult;

/// A value that can be a part of an argument: a text, bytes, a whole number, a reference to such a
/// value, or a tuple of two to six of them, which is written as its elements, one after another.
pub trait ArgPart {
    /// What it is written as: a text or bytes as they stand, a number in plain decimal.
    ghost bytes: { Self → List ℕ };

    /// Appends the part to the last argument, which has to be there. Fails only with
    /// `OutOfMemory`; the last argument then has a front of the part's bytes, maybe none, more.
    fn write_part<W: RedisWrite>(&self, out: &mut W) -> RedisResult<()>
        requires there { 0 < length (W.args out.old) }
        ensures ok { OnOk result (W.args out.new ≡ extended (W.args out.old) (bytes self.now)) }
        ensures err { OnErr result
            (ExtendedInPart (bytes self.now) (W.args out.old) (W.args out.new)) }
        ensures memory { OnlyMemory result }
        ensures there { 0 < length (W.args out.new) }
        ensures kept { Stays W.kept out.old out.new };
}

/// One argument: the parts, joined with nothing between them.
///
/// ```text
/// let mut command = cmd(alloc, "GET")?;
/// command.push_arg(Joined(("user:", id, ":name")))?;
/// ```
///
/// In `crates/example_snippets/src/arguments/limit_key.rt`.
///
/// In an own type's impl of [`ToRedisArgs`] it takes the fields by reference, and the type gives
/// `GivesOne` of the joined bytes:
///
/// ```text
/// ghost gives = { GivesOne (λ k. codes "limit:" ++ string_bytes k.name) };
///
/// fn write_redis_args<W: RedisWrite>(&self, out: &mut W) -> RedisResult<()> {
///     Joined(("limit:", &self.name)).write_redis_args(out)
/// }
/// ```
///
/// In `crates/example_snippets/src/arguments/limit_key.rt`.
#[derive(Clone, Copy, Debug, Drop)]
pub struct Joined<T>(pub T);

impl<T: ArgPart> ToRedisArgs for Joined<T> {
    ghost gives = { GivesOne (λ joined. T.bytes joined.0) };

    #[tactic(auto, using(crate::proofs::JoinedArgs::opened, crate::proofs::JoinedArgs::writes_joined))]
    fn write_redis_args<W: RedisWrite>(&self, out: &mut W) -> RedisResult<()> {
        out.open_arg()?;
        self.0.write_part(out)
    }

    fn write_args_from_slice<W: RedisWrite>(items: &[Self], out: &mut W) -> RedisResult<()> {
        Self::write_each_arg(items, out)
    }

    fn num_of_args(&self) -> usize {
        1
    }

    fn describe_numeric_behavior(&self) -> NumericBehavior {
        NumericBehavior::NonNumeric
    }

    fn is_single_vec_arg(items: &[Self]) -> bool {
        items.len() == 1
    }
}

impl<T: ArgPart> ToSingleRedisArg for Joined<T> {
    ghost single = { one_argument (λ joined. T.bytes joined.0) };
}
