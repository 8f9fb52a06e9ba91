//! A session: its steps, and what is learned of them.

ghost use Rattle.std.specs.Prelude.{IfOk, codes};
ghost use Rattle.example_session.specs.Counting.{CountedUp};

use crate::counting::count_up;
use crate::server::{Server, greet};
use resp_core::{ConnectionLike, FromRedisValue, RedisResult, ValueType, cmd, pipe};
use std::alloc::Global;

/// What a server holds of a name.
#[derive(Drop)]
pub struct Entry {
    /// The type of its value.
    pub kind: ValueType,
    /// How many bytes the value has.
    pub length: u64,
    /// The values of the name and of another one.
    pub both: Vec<Option<String>>,
}

/// What a session learned.
#[derive(Drop)]
pub struct Learned {
    /// The server's greeting.
    pub server: Server,
    /// The name as the server gave it back.
    pub name: String,
    /// What else it said of the name.
    pub entry: Entry,
    /// How many visits there were with this one.
    pub visits: i64,
}

/// Greets the server, leaves a name there, looks at it, and counts a visit.
///
/// Visits that are answered are one more than were read after their key was watched, and were set
/// by the last request, a transaction that was not aborted.
pub fn session(
    alloc: Global,
    con: &mut dyn ConnectionLike,
    protocol: i64,
    name: &str,
) -> RedisResult<Learned>
    ensures { IfOk result (λ learned.
        CountedUp (⟦<() as FromRedisValue>⟧.of_value) (⟦<Option<i64> as FromRedisValue>⟧.of_value)
        (⟦<Option<()> as FromRedisValue>⟧.of_value) (connection con.new) (codes "visits")
        learned.visits) }
{
    Ok(Learned {
        server: greet(alloc, con, protocol)?,
        name: rename(alloc, con, name)?,
        entry: look(alloc, con)?,
        visits: count_up(alloc, con, "visits")?,
    })
}

/// Sets the name and reads it back.
fn rename(alloc: Global, con: &mut dyn ConnectionLike, name: &str) -> RedisResult<String> {
    cmd(alloc, "SET")?.arg(("name", name))?.exec(con)?;
    cmd(alloc, "GET")?.arg("name")?.query(con)
}

/// Asks three things of the name at once.
fn look(alloc: Global, con: &mut dyn ConnectionLike) -> RedisResult<Entry> {
    let (kind, length, both) = pipe(alloc)
        .cmd("TYPE")?
        .arg("name")?
        .cmd("STRLEN")?
        .arg("name")?
        .cmd("MGET")?
        .arg(("name", "nobody"))?
        .query(con)?;
    Ok(Entry { kind, length, both })
}
