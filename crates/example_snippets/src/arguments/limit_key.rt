//! A type that is one argument, composed of a text and a name, and one with a number in it.

ghost use Rattle.std.specs.Prelude.{◌≡◌, ◌++◌, ◌∷◌, [], IfOk, codes, string_bytes};
ghost use Rattle.std.specs.Fmt.{decimal};
ghost use Rattle.resp_core.specs.Arguments.{GivesOne, one_argument};

use resp_core::{
    Cmd, Joined, NumericBehavior, RedisResult, RedisWrite, ToRedisArgs, ToSingleRedisArg, cmd,
};
use std::alloc::Global;

/// The key under which the calls of a user are counted: `limit:` and the name.
#[derive(Drop)]
pub struct LimitKey {
    /// The name of the user.
    pub name: String,
}

impl ToRedisArgs for LimitKey {
    ghost gives = { GivesOne (λ k. codes "limit:" ++ string_bytes k.name) };

    fn write_redis_args<W: RedisWrite>(&self, out: &mut W) -> RedisResult<()> {
        Joined(("limit:", &self.name)).write_redis_args(out)
    }

    fn write_args_from_slice<W: RedisWrite>(items: &[Self], out: &mut W) -> RedisResult<()> {
        Self::write_each_arg(items, out)
    }

    fn num_of_args(&self) -> usize {
        1
    }

    fn describe_numeric_behavior(&self) -> NumericBehavior {
        NumericBehavior::NonNumeric
    }

    fn is_single_vec_arg(items: &[Self]) -> bool {
        items.len() == 1
    }
}

impl ToSingleRedisArg for LimitKey {
    ghost single = { one_argument (λ k. codes "limit:" ++ string_bytes k.name) };
}

/// The command that asks for the name of a user, by its number: a key that is composed where it is
/// used.
pub fn get_name(alloc: Global, id: u64) -> RedisResult<Cmd>
    ensures { IfOk result (λ c. c.args
        ≡ codes "GET" ∷ (codes "user:" ++ decimal id ++ codes ":name") ∷ []) }
{
    let mut command = cmd(alloc, "GET")?;
    command.push_arg(Joined(("user:", id, ":name")))?;
    Ok(command)
}
