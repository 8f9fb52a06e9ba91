//! Fields of a reply by name: each call gives the whole value, or memory runs out.

ghost use Rattle.std.specs.Prelude.{◌≡◌, ◌∷◌, [], codes};
ghost use Rattle.resp_core.specs.Replies.{OfFields, OfVia, OfRow, Field, AnyOthers};

use crate::heap::{made, refuse, shows};
use resp_core::{
    Fields, FromFields, FromRedisValue, ParsingError, RedisResult, Value, from_redis_fields,
    from_redis_fields_by, from_redis_value, parse_redis_value,
};
use std::alloc::Global;

/// A name that is taken by itself.
#[derive(Debug, Drop)]
struct Named {
    name: String,
}

impl FromFields for Named {
    ghost of_fields = { λ fields n.
        Field (codes "name") ⟦<String as FromRedisValue>⟧.of_value n.name AnyOthers fields };

    fn from_fields(alloc: Global, fields: &mut Fields) -> Result<Named, ParsingError> {
        Ok(Named {
            name: fields.take(alloc, "name")?,
        })
    }
}

impl FromRedisValue for Named {
    const WIDTH: usize = 0;

    const BYTES: bool = false;

    ghost of_value = { OfVia OfFields ⟦<Named as FromFields>⟧.of_fields };

    fn from_redis_value(alloc: Global, value: Value) -> Result<Named, ParsingError> {
        from_redis_fields(alloc, value)
    }
}

/// A name and a city out of a row.
#[derive(Debug, Drop)]
struct User {
    name: String,
    city: Option<String>,
}

type Row = (String, Option<String>);

impl From<Row> for User {
    ghost from_gives = { λ t u. u ≡ record { name = t.0; city = t.1 } };

    fn from((name, city): Row) -> User {
        User { name, city }
    }
}

impl FromRedisValue for User {
    const WIDTH: usize = 0;

    const BYTES: bool = false;

    ghost of_value = { OfRow (codes "name" ∷ []) (codes "city" ∷ [])
        (OfVia ⟦<Row as FromRedisValue>⟧.of_value ⟦<User as From<Row>>⟧.from_gives) };

    fn from_redis_value(alloc: Global, value: Value) -> Result<User, ParsingError> {
        from_redis_fields_by::<Row, User>(alloc, value, &["name"], &["city"])
    }
}

/// A hash of two fields.
const HASH: &[u8] = b"*4\r\n$4\r\nname\r\n$3\r\nann\r\n$3\r\nage\r\n$2\r\n42\r\n";

/// The hash as a value of the type.
fn of_hash<T: FromRedisValue>(alloc: Global) -> RedisResult<T> {
    Ok(from_redis_value(alloc, parse_redis_value(alloc, HASH)?)?)
}

/// A field of the hash.
fn field(alloc: Global, name: &str) -> RedisResult<String> {
    let mut fields: Fields = of_hash(alloc)?;
    Ok(fields.take(alloc, name)?)
}

/// A field of the hash, or a number where it isn't there.
fn field_or(alloc: Global, name: &str) -> RedisResult<i64> {
    let mut fields: Fields = of_hash(alloc)?;
    Ok(fields.take_or(alloc, name, 7)?)
}

/// Why a field of the hash is refused.
fn refusal(alloc: Global, name: &str) -> RedisResult<String> {
    let mut fields: Fields = of_hash(alloc)?;
    match fields.take::<i64>(alloc, name) {
        Err(error) if !error.is_out_of_memory() => {
            Ok(String::from_str(alloc, error.description())?)
        }
        Err(error) => Err(error.into()),
        Ok(_) => Ok(String::new(alloc)),
    }
}

#[test]
fn refusals_that_name_their_field(rt: HostRuntime) {
    let alloc = rt.alloc();
    makes! { rt;
        refusal(alloc, "gone") => "field gone: it is missing",
        refusal(alloc, "name") => "field name: Could not convert from string.",
    }
}

#[test]
fn fields_by_name(rt: HostRuntime) {
    let alloc = rt.alloc();
    makes! { rt;
        field(alloc, "name") => "ann",
        field_or(alloc, "age") => 42,
        field_or(alloc, "city") => 7,
    }
}

/// The name in the hash, by the type's own function.
fn own_fields(alloc: Global) -> RedisResult<Named> {
    let mut fields: Fields = of_hash(alloc)?;
    Ok(Named::from_fields(alloc, &mut fields)?)
}

#[test]
fn structs_of_fields(rt: HostRuntime) {
    refuse(rt.alloc());
    let own = own_fields(rt.alloc());
    shows(&rt, own, "Ok(Named { name: \"ann\" })");
    refuse(rt.alloc());
    let named = of_hash::<Named>(rt.alloc());
    shows(&rt, named, "Ok(Named { name: \"ann\" })");
    refuse(rt.alloc());
    let user = of_hash::<User>(rt.alloc());
    shows(&rt, user, "Ok(User { name: \"ann\", city: None })");
}
