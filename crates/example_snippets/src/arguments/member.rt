//! A type that is written as a tuple.

ghost use Rattle.std.specs.Prelude.{◌≡◌, [], ◌∷◌, string_bytes, IfOk};
ghost use Rattle.std.specs.Fmt.{signed_decimal};
ghost use Rattle.resp_core.specs.Arguments.{args_of};

use resp_core::{NumericBehavior, RedisResult, RedisWrite, ToRedisArgs};
use std::alloc::Global;

/// A member of a sorted set: its score, and then its name.
#[derive(Drop)]
pub struct Member {
    /// What it is sorted by.
    pub score: i64,
    /// Its name.
    pub name: String,
}

impl ToRedisArgs for Member {
    ghost gives = { λ m args. args ≡ signed_decimal m.score ∷ string_bytes m.name ∷ [] };

    ghost count = { λ _. 2 };

    fn write_redis_args<W: RedisWrite>(&self, out: &mut W) -> RedisResult<()> {
        (&self.score, &self.name).write_redis_args(out)
    }

    fn write_args_from_slice<W: RedisWrite>(items: &[Self], out: &mut W) -> RedisResult<()> {
        Self::write_each_arg(items, out)
    }

    fn num_of_args(&self) -> usize {
        2
    }

    fn describe_numeric_behavior(&self) -> NumericBehavior {
        NumericBehavior::NonNumeric
    }

    fn is_single_vec_arg(_items: &[Self]) -> bool {
        false
    }
}

/// The arguments of a member. Fails only with `OutOfMemory` or as `to_redis_args` does.
pub fn member_args(alloc: Global, member: &Member) -> RedisResult<Vec<Vec<u8>>>
    ensures { IfOk result (λ args. args_of args.items
        ≡ signed_decimal member.now.score ∷ string_bytes member.now.name ∷ []) }
{
    member.to_redis_args(alloc)
}
