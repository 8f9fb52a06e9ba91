//! A truth value is written as a digit.

ghost use Rattle.resp_args.specs.Args.{GivesOne, digit_of};

use crate::args::{NumericBehavior, ToRedisArgs};
use crate::write::RedisWrite;
use resp_errors::RedisResult;

impl ToRedisArgs for bool {
    ghost gives = { GivesOne digit_of };

    fn write_redis_args<W: RedisWrite>(&self, out: &mut W) -> RedisResult<()> {
        out.write_arg(if *self { b"1" } else { b"0" })
    }

    fn write_args_from_slice<W: RedisWrite>(items: &[Self], out: &mut W) -> RedisResult<()> {
        Self::write_each_arg(items, out)
    }

    fn num_of_args(&self) -> usize {
        1
    }

    fn describe_numeric_behavior(&self) -> NumericBehavior {
        NumericBehavior::NonNumeric
    }

    fn is_single_vec_arg(items: &[Self]) -> bool {
        items.len() == 1
    }
}
