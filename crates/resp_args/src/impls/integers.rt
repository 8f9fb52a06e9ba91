//! Whole numbers are written in plain decimal.
//!
//! Each type has its impl written out, since a macro of a repository may not write impls.

ghost use Rattle.std.specs.Prelude.{◌≡◌, [], ◌∷◌, ◌++◌, OnOk, OnErr};
ghost use Rattle.std.specs.Fmt.{decimal, signed_decimal};
ghost use Rattle.resp_args.specs.Args.{GivesOne, bytes_as_one};
ghost use Rattle.resp_args.specs.Args.Slices.{by_rule};
ghost use Rattle.resp_args.specs.Kept.{Stays};
ghost use Rattle.resp_args.specs.declared.args.NumericBehavior.TheVariants.{NumberIsInteger};
ghost use Rattle.resp_errors.specs.Memory.{OnlyMemory};

use crate::args::{NumericBehavior, ToRedisArgs};
use crate::write::RedisWrite;
use itoa::{Buffer, Integer};
use resp_errors::RedisResult;

/// Appends one argument, the decimal text of the number.
fn write_decimal<I: Integer, W: RedisWrite>(n: I, out: &mut W) -> RedisResult<()>
    ensures ok { OnOk result (W.args out.new ≡ W.args out.old ++ I.text n ∷ []) }
    ensures err { OnErr result (W.args out.new ≡ W.args out.old) }
    ensures memory { OnlyMemory result }
    ensures kept { Stays W.kept out.old out.new }
{
    let mut buffer = Buffer::new();
    out.write_arg(buffer.format(n).as_bytes())
}

impl ToRedisArgs for i8 {
    ghost gives = { GivesOne signed_decimal };

    ghost behaviour = { λ _. NumberIsInteger };

    fn write_redis_args<W: RedisWrite>(&self, out: &mut W) -> RedisResult<()> {
        write_decimal(*self, out)
    }

    fn write_args_from_slice<W: RedisWrite>(items: &[Self], out: &mut W) -> RedisResult<()> {
        Self::write_each_arg(items, out)
    }

    fn num_of_args(&self) -> usize {
        1
    }

    fn describe_numeric_behavior(&self) -> NumericBehavior {
        NumericBehavior::NumberIsInteger
    }

    fn is_single_vec_arg(items: &[Self]) -> bool {
        items.len() == 1
    }
}

impl ToRedisArgs for i16 {
    ghost gives = { GivesOne signed_decimal };

    ghost behaviour = { λ _. NumberIsInteger };

    fn write_redis_args<W: RedisWrite>(&self, out: &mut W) -> RedisResult<()> {
        write_decimal(*self, out)
    }

    fn write_args_from_slice<W: RedisWrite>(items: &[Self], out: &mut W) -> RedisResult<()> {
        Self::write_each_arg(items, out)
    }

    fn num_of_args(&self) -> usize {
        1
    }

    fn describe_numeric_behavior(&self) -> NumericBehavior {
        NumericBehavior::NumberIsInteger
    }

    fn is_single_vec_arg(items: &[Self]) -> bool {
        items.len() == 1
    }
}

impl ToRedisArgs for i32 {
    ghost gives = { GivesOne signed_decimal };

    ghost behaviour = { λ _. NumberIsInteger };

    fn write_redis_args<W: RedisWrite>(&self, out: &mut W) -> RedisResult<()> {
        write_decimal(*self, out)
    }

    fn write_args_from_slice<W: RedisWrite>(items: &[Self], out: &mut W) -> RedisResult<()> {
        Self::write_each_arg(items, out)
    }

    fn num_of_args(&self) -> usize {
        1
    }

    fn describe_numeric_behavior(&self) -> NumericBehavior {
        NumericBehavior::NumberIsInteger
    }

    fn is_single_vec_arg(items: &[Self]) -> bool {
        items.len() == 1
    }
}

impl ToRedisArgs for i64 {
    ghost gives = { GivesOne signed_decimal };

    ghost behaviour = { λ _. NumberIsInteger };

    fn write_redis_args<W: RedisWrite>(&self, out: &mut W) -> RedisResult<()> {
        write_decimal(*self, out)
    }

    fn write_args_from_slice<W: RedisWrite>(items: &[Self], out: &mut W) -> RedisResult<()> {
        Self::write_each_arg(items, out)
    }

    fn num_of_args(&self) -> usize {
        1
    }

    fn describe_numeric_behavior(&self) -> NumericBehavior {
        NumericBehavior::NumberIsInteger
    }

    fn is_single_vec_arg(items: &[Self]) -> bool {
        items.len() == 1
    }
}

impl ToRedisArgs for i128 {
    ghost gives = { GivesOne signed_decimal };

    ghost behaviour = { λ _. NumberIsInteger };

    fn write_redis_args<W: RedisWrite>(&self, out: &mut W) -> RedisResult<()> {
        write_decimal(*self, out)
    }

    fn write_args_from_slice<W: RedisWrite>(items: &[Self], out: &mut W) -> RedisResult<()> {
        Self::write_each_arg(items, out)
    }

    fn num_of_args(&self) -> usize {
        1
    }

    fn describe_numeric_behavior(&self) -> NumericBehavior {
        NumericBehavior::NumberIsInteger
    }

    fn is_single_vec_arg(items: &[Self]) -> bool {
        items.len() == 1
    }
}

impl ToRedisArgs for isize {
    ghost gives = { GivesOne signed_decimal };

    ghost behaviour = { λ _. NumberIsInteger };

    fn write_redis_args<W: RedisWrite>(&self, out: &mut W) -> RedisResult<()> {
        write_decimal(*self, out)
    }

    fn write_args_from_slice<W: RedisWrite>(items: &[Self], out: &mut W) -> RedisResult<()> {
        Self::write_each_arg(items, out)
    }

    fn num_of_args(&self) -> usize {
        1
    }

    fn describe_numeric_behavior(&self) -> NumericBehavior {
        NumericBehavior::NumberIsInteger
    }

    fn is_single_vec_arg(items: &[Self]) -> bool {
        items.len() == 1
    }
}

/// A slice of bytes is one argument, the bytes as they stand.
impl ToRedisArgs for u8 {
    ghost gives = { GivesOne decimal };

    ghost slices = { by_rule bytes_as_one };

    fn write_redis_args<W: RedisWrite>(&self, out: &mut W) -> RedisResult<()> {
        write_decimal(*self, out)
    }

    fn write_args_from_slice<W: RedisWrite>(items: &[Self], out: &mut W) -> RedisResult<()> {
        out.write_arg(items)
    }

    fn num_of_args(&self) -> usize {
        1
    }

    fn describe_numeric_behavior(&self) -> NumericBehavior {
        NumericBehavior::NonNumeric
    }

    fn is_single_vec_arg(_items: &[Self]) -> bool {
        true
    }
}

impl ToRedisArgs for u16 {
    ghost gives = { GivesOne decimal };

    ghost behaviour = { λ _. NumberIsInteger };

    fn write_redis_args<W: RedisWrite>(&self, out: &mut W) -> RedisResult<()> {
        write_decimal(*self, out)
    }

    fn write_args_from_slice<W: RedisWrite>(items: &[Self], out: &mut W) -> RedisResult<()> {
        Self::write_each_arg(items, out)
    }

    fn num_of_args(&self) -> usize {
        1
    }

    fn describe_numeric_behavior(&self) -> NumericBehavior {
        NumericBehavior::NumberIsInteger
    }

    fn is_single_vec_arg(items: &[Self]) -> bool {
        items.len() == 1
    }
}

impl ToRedisArgs for u32 {
    ghost gives = { GivesOne decimal };

    ghost behaviour = { λ _. NumberIsInteger };

    fn write_redis_args<W: RedisWrite>(&self, out: &mut W) -> RedisResult<()> {
        write_decimal(*self, out)
    }

    fn write_args_from_slice<W: RedisWrite>(items: &[Self], out: &mut W) -> RedisResult<()> {
        Self::write_each_arg(items, out)
    }

    fn num_of_args(&self) -> usize {
        1
    }

    fn describe_numeric_behavior(&self) -> NumericBehavior {
        NumericBehavior::NumberIsInteger
    }

    fn is_single_vec_arg(items: &[Self]) -> bool {
        items.len() == 1
    }
}

impl ToRedisArgs for u64 {
    ghost gives = { GivesOne decimal };

    ghost behaviour = { λ _. NumberIsInteger };

    fn write_redis_args<W: RedisWrite>(&self, out: &mut W) -> RedisResult<()> {
        write_decimal(*self, out)
    }

    fn write_args_from_slice<W: RedisWrite>(items: &[Self], out: &mut W) -> RedisResult<()> {
        Self::write_each_arg(items, out)
    }

    fn num_of_args(&self) -> usize {
        1
    }

    fn describe_numeric_behavior(&self) -> NumericBehavior {
        NumericBehavior::NumberIsInteger
    }

    fn is_single_vec_arg(items: &[Self]) -> bool {
        items.len() == 1
    }
}

impl ToRedisArgs for u128 {
    ghost gives = { GivesOne decimal };

    ghost behaviour = { λ _. NumberIsInteger };

    fn write_redis_args<W: RedisWrite>(&self, out: &mut W) -> RedisResult<()> {
        write_decimal(*self, out)
    }

    fn write_args_from_slice<W: RedisWrite>(items: &[Self], out: &mut W) -> RedisResult<()> {
        Self::write_each_arg(items, out)
    }

    fn num_of_args(&self) -> usize {
        1
    }

    fn describe_numeric_behavior(&self) -> NumericBehavior {
        NumericBehavior::NumberIsInteger
    }

    fn is_single_vec_arg(items: &[Self]) -> bool {
        items.len() == 1
    }
}

impl ToRedisArgs for usize {
    ghost gives = { GivesOne decimal };

    ghost behaviour = { λ _. NumberIsInteger };

    fn write_redis_args<W: RedisWrite>(&self, out: &mut W) -> RedisResult<()> {
        write_decimal(*self, out)
    }

    fn write_args_from_slice<W: RedisWrite>(items: &[Self], out: &mut W) -> RedisResult<()> {
        Self::write_each_arg(items, out)
    }

    fn num_of_args(&self) -> usize {
        1
    }

    fn describe_numeric_behavior(&self) -> NumericBehavior {
        NumericBehavior::NumberIsInteger
    }

    fn is_single_vec_arg(items: &[Self]) -> bool {
        items.len() == 1
    }
}
