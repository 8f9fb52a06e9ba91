//! The profile of a user: a struct out of a hash, by the names of its fields.

use resp_core::{ConnectionLike, Fields, Joined, RedisResult, cmd};
use std::alloc::Global;

/// What is known of a user.
#[derive(Debug, Drop)]
pub struct Profile {
    /// The name.
    pub name: String,
    /// The age.
    pub age: u16,
    /// Where the user lives, if that is known.
    pub city: Option<String>,
}

/// The profile of a user.
pub fn profile_of(alloc: Global, con: &mut dyn ConnectionLike, user: &str) -> RedisResult<Profile> {
    let key = Joined(("profile:", user));
    let mut fields: Fields = cmd(alloc, "HGETALL")?.arg(key)?.query(con)?;
    Ok(Profile {
        name: fields.take(alloc, "name")?,
        age: fields.take(alloc, "age")?,
        city: fields.take_or(alloc, "city", None)?,
    })
}
