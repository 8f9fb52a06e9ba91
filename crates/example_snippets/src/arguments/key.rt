//! A type that is always one argument.

ghost use Rattle.std.specs.Prelude.{string_bytes};
ghost use Rattle.resp_core.specs.Arguments.{GivesOne};
ghost use Rattle.resp_core.specs.Arguments.{one_argument};

use resp_core::{NumericBehavior, RedisResult, RedisWrite, ToRedisArgs, ToSingleRedisArg};

/// The name of a key.
#[derive(Drop)]
pub struct Key {
    /// Its text.
    pub name: String,
}

impl ToRedisArgs for Key {
    ghost gives = { GivesOne (λ k. string_bytes k.name) };

    fn write_redis_args<W: RedisWrite>(&self, out: &mut W) -> RedisResult<()> {
        self.name.write_redis_args(out)
    }

    fn write_args_from_slice<W: RedisWrite>(items: &[Self], out: &mut W) -> RedisResult<()> {
        Self::write_each_arg(items, out)
    }

    fn num_of_args(&self) -> usize {
        1
    }

    fn describe_numeric_behavior(&self) -> NumericBehavior {
        NumericBehavior::NonNumeric
    }

    fn is_single_vec_arg(items: &[Self]) -> bool {
        items.len() == 1
    }
}

impl ToSingleRedisArg for Key {
    ghost single = { one_argument (λ k. string_bytes k.name) };
}
