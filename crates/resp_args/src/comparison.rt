//! Comparisons of a key's value, or of its digest.

ghost use Rattle.std.specs.Prelude.{◌≡◌, IfOk, IfErr};
ghost use Rattle.resp_args.specs.Options.{GivesOf};
ghost use Rattle.resp_args.specs.Comparisons.{args_of_comparison, IsArgText, ComparesBy};
ghost use Rattle.resp_args.specs.declared.comparison.ValueComparison.TheVariants as compare;
ghost use Rattle.resp_errors.specs.declared.redis_error.RedisError.TheVariants.{OutOfMemory};

use crate::args::{NumericBehavior, ToRedisArgs};
use crate::single_arg::ToSingleRedisArg;
use crate::write::RedisWrite;
use resp_containers::Text;
use resp_errors::RedisResult;
use std::alloc::{AllocError, Global};

/// How a key's value, or its digest, has to compare with a text for a command to change the key:
/// the name of the case and the text.
///
/// The calls that make one take a value that gives one argument; its bytes are taken as text, with
/// U+FFFD for each longest part that is no UTF-8. They fail only with `OutOfMemory`.
#[derive(Debug, Drop)]
pub enum ValueComparison {
    /// The value is equal to this one.
    IFEQ(Text),
    /// The value is not equal to this one.
    IFNE(Text),
    /// The value's digest is equal to this one.
    IFDEQ(Text),
    /// The value's digest is not equal to this one.
    IFDNE(Text),
}

/// The one argument of a value as text.
fn arg_text<T: ToSingleRedisArg + Drop>(alloc: Global, value: T) -> RedisResult<Text>
    ensures text { IfOk result (IsArgText T.gives value) }
    ensures refused { IfErr result (λ e. e ≡ OutOfMemory) }
{
    let args = value.to_redis_args(alloc)?;
    Ok(Text::from_utf8_lossy(alloc, &args[0])?)
}

impl ValueComparison {
    /// Only if the key's value is equal to this one; a key that isn't there is left alone.
    pub fn ifeq<T: ToSingleRedisArg + Drop>(alloc: Global, value: T) -> RedisResult<ValueComparison>
        ensures compares { IfOk result (ComparesBy compare.IFEQ T.gives value) }
        ensures refused { IfErr result (λ e. e ≡ OutOfMemory) }
    {
        Ok(ValueComparison::IFEQ(arg_text(alloc, value)?))
    }

    /// Only if the key's value is not equal to this one; a key that isn't there is set.
    pub fn ifne<T: ToSingleRedisArg + Drop>(alloc: Global, value: T) -> RedisResult<ValueComparison>
        ensures compares { IfOk result (ComparesBy compare.IFNE T.gives value) }
        ensures refused { IfErr result (λ e. e ≡ OutOfMemory) }
    {
        Ok(ValueComparison::IFNE(arg_text(alloc, value)?))
    }

    /// Only if the digest of the key's value is equal to this one; a key that isn't there is left
    /// alone.
    pub fn ifdeq<T: ToSingleRedisArg + Drop>(
        alloc: Global,
        digest: T,
    ) -> RedisResult<ValueComparison>
        ensures compares { IfOk result (ComparesBy compare.IFDEQ T.gives digest) }
        ensures refused { IfErr result (λ e. e ≡ OutOfMemory) }
    {
        Ok(ValueComparison::IFDEQ(arg_text(alloc, digest)?))
    }

    /// Only if the digest of the key's value is not equal to this one; a key that isn't there is
    /// set.
    pub fn ifdne<T: ToSingleRedisArg + Drop>(
        alloc: Global,
        digest: T,
    ) -> RedisResult<ValueComparison>
        ensures compares { IfOk result (ComparesBy compare.IFDNE T.gives digest) }
        ensures refused { IfErr result (λ e. e ≡ OutOfMemory) }
    {
        Ok(ValueComparison::IFDNE(arg_text(alloc, digest)?))
    }

    /// An equal comparison.
    pub fn try_clone(&self, alloc: Global) -> Result<ValueComparison, AllocError>
        ensures { IfOk result (λ comparison. comparison ≡ self.now) }
    {
        Ok(match self {
            ValueComparison::IFEQ(value) => ValueComparison::IFEQ(value.try_clone(alloc)?),
            ValueComparison::IFNE(value) => ValueComparison::IFNE(value.try_clone(alloc)?),
            ValueComparison::IFDEQ(digest) => ValueComparison::IFDEQ(digest.try_clone(alloc)?),
            ValueComparison::IFDNE(digest) => ValueComparison::IFDNE(digest.try_clone(alloc)?),
        })
    }
}

impl ToRedisArgs for ValueComparison {
    ghost gives = { GivesOf args_of_comparison };

    fn write_redis_args<W: RedisWrite>(&self, out: &mut W) -> RedisResult<()> {
        match self {
            ValueComparison::IFEQ(value) => ("IFEQ", value.as_str()).write_redis_args(out),
            ValueComparison::IFNE(value) => ("IFNE", value.as_str()).write_redis_args(out),
            ValueComparison::IFDEQ(digest) => ("IFDEQ", digest.as_str()).write_redis_args(out),
            ValueComparison::IFDNE(digest) => ("IFDNE", digest.as_str()).write_redis_args(out),
        }
    }

    fn write_args_from_slice<W: RedisWrite>(items: &[Self], out: &mut W) -> RedisResult<()> {
        Self::write_each_arg(items, out)
    }

    fn num_of_args(&self) -> usize {
        1
    }

    fn describe_numeric_behavior(&self) -> NumericBehavior {
        NumericBehavior::NonNumeric
    }

    fn is_single_vec_arg(items: &[Self]) -> bool {
        items.len() == 1
    }
}
