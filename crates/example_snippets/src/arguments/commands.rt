//! A caller's own functions that add arguments of every shape to a command.
//!
//! Each is proved with no proof file. A chain of `arg` takes texts of any lifetime side by side: in
//! tuples, arrays, slices, and slices of pairs.

ghost use Rattle.std.specs.Prelude.{◌≡◌, ◌∷◌, [], IfOk, codes};

use resp_core::{Cmd, ConnectionLike, RedisResult, ToRedisArgs, cmd, pipe};
use std::alloc::Global;

/// Asks for the fields of a hash that are there.
pub fn fields_of(
    alloc: Global,
    con: &mut dyn ConnectionLike,
    key: &str,
    fields: &[&str],
) -> RedisResult<Vec<Option<String>>> {
    cmd(alloc, "HMGET")?.arg(key)?.arg(fields)?.query(con)
}

/// Sets pairs of a hash, one of them by name.
pub fn set_fields(
    alloc: Global,
    con: &mut dyn ConnectionLike,
    key: &str,
    name: &str,
    pairs: &[(&str, i64)],
) -> RedisResult<i64> {
    cmd(alloc, "HSET")?
        .arg((key, "name", name))?
        .arg(pairs)?
        .arg(&[("visits", 1), ("level", 2)])?
        .query(con)
}

/// Sets a name and asks for it and for the next age, in one pipeline.
pub fn rename(
    alloc: Global,
    con: &mut dyn ConnectionLike,
    name: &str,
) -> RedisResult<(String, i64)> {
    pipe(alloc)
        .cmd("SET")?
        .arg(("name", name))?
        .ignore()
        .cmd("GET")?
        .arg("name")?
        .cmd("INCR")?
        .arg("age")?
        .query(con)
}

/// The command that asks for a key: a contract that says its arguments.
pub fn get(alloc: Global, key: &str) -> RedisResult<Cmd>
    ensures { IfOk result (λ c. c.args ≡ codes "GET" ∷ key.now ∷ []) }
{
    let mut command = cmd(alloc, "GET")?;
    command.push_arg(key)?;
    Ok(command)
}

/// Adds a tuple, an array, a slice and a slice of pairs in one chain.
pub fn add_all(
    command: &mut Cmd,
    key: &str,
    keys: &[&str],
    pairs: &[(&str, &str)],
) -> RedisResult<()> {
    command
        .arg((key, "b"))?
        .arg(&["name", "age"])?
        .arg(keys)?
        .arg(pairs)?
        .arg(&[("a", 1)])?;
    Ok(())
}

/// Adds twelve arguments at once.
pub fn add_twelve(command: &mut Cmd, stream: &str, field: &str, value: &str) -> RedisResult<()> {
    command.arg((
        stream,
        "NOMKSTREAM",
        "MAXLEN",
        "~",
        1000,
        "LIMIT",
        10,
        "*",
        field,
        value,
        "at",
        7,
    ))?;
    Ok(())
}

/// Adds a tag and then any value: a function of a caller's own that is generic in its argument.
pub fn add_tagged<T: ToRedisArgs + Drop>(
    command: &mut Cmd,
    tag: &str,
    value: T,
) -> RedisResult<()> {
    command.arg(tag)?.arg(value)?;
    Ok(())
}
