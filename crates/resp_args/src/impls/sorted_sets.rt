//! A sorted set is written as its members, in their order. Refused at the first member that
//! is refused; those before it are written whole.

ghost use Rattle.std.specs.Prelude.{length};
ghost use Rattle.std.specs.List.{Any};
ghost use Rattle.resp_args.specs.Args.{Writes, GivesEach, FailsEach};
ghost use Rattle.resp_args.specs.Kept.{Stays};

use crate::args::{NumericBehavior, ToRedisArgs};
use crate::write::RedisWrite;
use resp_errors::RedisResult;
use std::collections::BTreeSet;

fn write_members<T: ToRedisArgs + Ord, W: RedisWrite>(
    members: &BTreeSet<T>,
    out: &mut W,
) -> RedisResult<()>
    ensures written { Writes (GivesEach T.gives members.now.keys) (Any T.refuses members.now.keys)
        (W.args out.old) (W.args out.new) result }
    ensures failed { FailsEach T.gives T.refuses T.fails members.now.keys (W.args out.old)
        (W.args out.new) result }
    ensures kept { Stays W.kept out.old out.new }
{
    for member in members {
        member.write_redis_args(out)?;
    }
    Ok(())
}

impl<T: ToRedisArgs + Ord> ToRedisArgs for BTreeSet<T> {
    ghost gives = { λ s. GivesEach T.gives s.keys };

    ghost refuses = { λ s. Any T.refuses s.keys };

    ghost fails = { λ s. FailsEach T.gives T.refuses T.fails s.keys };

    ghost count = { λ s. length s.keys };

    fn write_redis_args<W: RedisWrite>(&self, out: &mut W) -> RedisResult<()> {
        write_members(self, out)
    }

    fn write_args_from_slice<W: RedisWrite>(items: &[Self], out: &mut W) -> RedisResult<()> {
        Self::write_each_arg(items, out)
    }

    fn num_of_args(&self) -> usize {
        self.len()
    }

    fn describe_numeric_behavior(&self) -> NumericBehavior {
        NumericBehavior::NonNumeric
    }

    fn is_single_vec_arg(items: &[Self]) -> bool {
        match items {
            [item] => item.num_of_args() <= 1,
            _ => false,
        }
    }
}
