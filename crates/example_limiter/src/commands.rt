//! Typed commands over any connection, generic in what is written and in what is answered.
//!
//! Each fails as [`Cmd::query`] does; and, with the connection as it was, for a value that can't be
//! written, or with `OutOfMemory`.

ghost use Rattle.std.specs.Prelude.{IfErr, IfOk, codes};
ghost use Rattle.resp_core.specs.Arguments.{IsRefusal};
ghost use Rattle.example_limiter.specs.Asking.{Asks, IsNamed};

use resp_core::{Cmd, ConnectionLike, FromRedisValue, RedisResult, ToRedisArgs, cmd};
use std::alloc::Global;

/// The value of a key.
pub fn get<K: ToRedisArgs + Drop, T: FromRedisValue>(
    alloc: Global,
    con: &mut dyn ConnectionLike,
    key: K,
) -> RedisResult<T>
    ensures { Asks (connection con.old) (connection con.new) (codes "GET") (K.gives key)
        (K.refuses key) T.of_value result }
{
    ask(alloc, con, "GET", key)
}

/// The values of several keys.
pub fn mget<K: ToRedisArgs + Drop, T: FromRedisValue>(
    alloc: Global,
    con: &mut dyn ConnectionLike,
    keys: K,
) -> RedisResult<T>
    ensures { Asks (connection con.old) (connection con.new) (codes "MGET") (K.gives keys)
        (K.refuses keys) T.of_value result }
{
    ask(alloc, con, "MGET", keys)
}

/// Sets a key to a value.
pub fn set<K: ToRedisArgs + Drop, V: ToRedisArgs + Drop>(
    alloc: Global,
    con: &mut dyn ConnectionLike,
    key: K,
    value: V,
) -> RedisResult<()>
    ensures { Asks (connection con.old) (connection con.new) (codes "SET")
        (⟦<(K, V) as ToRedisArgs>⟧.gives (key, value))
        (⟦<(K, V) as ToRedisArgs>⟧.refuses (key, value))
        (⟦<() as FromRedisValue>⟧.of_value) result }
{
    ask(alloc, con, "SET", (key, value))
}

/// Adds a number to that of a key, and answers the sum.
pub fn incr<K: ToRedisArgs + Drop, N: ToRedisArgs + Drop, T: FromRedisValue>(
    alloc: Global,
    con: &mut dyn ConnectionLike,
    key: K,
    number: N,
) -> RedisResult<T>
    ensures { Asks (connection con.old) (connection con.new) (codes "INCRBY")
        (⟦<(K, N) as ToRedisArgs>⟧.gives (key, number))
        (⟦<(K, N) as ToRedisArgs>⟧.refuses (key, number)) T.of_value result }
{
    ask(alloc, con, "INCRBY", (key, number))
}

/// The fields of a hash and their values.
pub fn hgetall<K: ToRedisArgs + Drop, T: FromRedisValue>(
    alloc: Global,
    con: &mut dyn ConnectionLike,
    key: K,
) -> RedisResult<T>
    ensures { Asks (connection con.old) (connection con.new) (codes "HGETALL") (K.gives key)
        (K.refuses key) T.of_value result }
{
    ask(alloc, con, "HGETALL", key)
}

/// Sends the command of this name with what the value gives, and converts its reply.
fn ask<A: ToRedisArgs + Drop, T: FromRedisValue>(
    alloc: Global,
    con: &mut dyn ConnectionLike,
    name: &str,
    args: A,
) -> RedisResult<T>
    ensures { Asks (connection con.old) (connection con.new) name.now (A.gives args)
        (A.refuses args) T.of_value result }
{
    command(alloc, name, args)?.query(con)
}

/// The command of this name with what the value gives.
fn command<A: ToRedisArgs + Drop>(alloc: Global, name: &str, args: A) -> RedisResult<Cmd>
    ensures made { IfOk result (IsNamed name.now (A.gives args)) }
    ensures refused { IfErr result (IsRefusal (A.refuses args)) }
{
    let mut command = cmd(alloc, name)?;
    command.push_arg(args)?;
    Ok(command)
}
