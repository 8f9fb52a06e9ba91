//! Six fields of a hash as a struct.
//!
//! Two lists say which fields are taken, and one line what the struct has of them. No proof file is
//! needed.

ghost use Rattle.std.specs.Prelude.{◌≡◌, ◌∷◌, [], codes};
ghost use Rattle.resp_core.specs.Replies.{OfVia, OfRow};

use resp_core::{
    ConnectionLike, FromRedisValue, ParsingError, RedisResult, Value, cmd, from_redis_fields_by,
};
use std::alloc::Global;

/// What is known of a user.
#[derive(Debug, Drop)]
pub struct Account {
    /// The name.
    pub name: String,
    /// The age.
    pub age: u16,
    /// What it says.
    pub motto: String,
    /// How often it was visited.
    pub visits: u64,
    /// Whether it is active.
    pub active: bool,
    /// Where the user lives, if that is known.
    pub city: Option<String>,
}

type Row = (String, u16, String, u64, bool, Option<String>);

impl From<Row> for Account {
    ghost from_gives = { λ t a. a ≡ record {
      name = t.0;
      age = t.1;
      motto = t.2;
      visits = t.3;
      active = t.4;
      city = t.5;
    } };

    fn from((name, age, motto, visits, active, city): Row) -> Account {
        Account {
            name,
            age,
            motto,
            visits,
            active,
            city,
        }
    }
}

impl FromRedisValue for Account {
    const WIDTH: usize = 0;

    const BYTES: bool = false;

    ghost of_value = { OfRow (codes "name" ∷ codes "age" ∷ codes "motto" ∷ codes "visits"
        ∷ codes "active" ∷ []) (codes "city" ∷ []) (OfVia ⟦<Row as FromRedisValue>⟧.of_value
        ⟦<Account as From<Row>>⟧.from_gives) };

    fn from_redis_value(alloc: Global, value: Value) -> Result<Account, ParsingError> {
        let needed = ["name", "age", "motto", "visits", "active"];
        from_redis_fields_by::<Row, Account>(alloc, value, &needed, &["city"])
    }
}

/// The account at a key.
pub fn account_of(alloc: Global, con: &mut dyn ConnectionLike, key: &str) -> RedisResult<Account> {
    cmd(alloc, "HGETALL")?.arg(key)?.query(con)
}
