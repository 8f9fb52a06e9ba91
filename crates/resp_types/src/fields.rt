//! The fields of a reply by name.

ghost use Rattle.std.specs.Prelude.{◌≡◌, ◌↔◌, [], IfErr, IsTrue, length};
ghost use Rattle.resp_from.specs.Conversion.{Converts};
ghost use Rattle.resp_types.specs.Fields.{value_of, without, OfField, OfFieldOr};
ghost use Rattle.resp_types.specs.Refusals.{RefusesField, RefusesFieldOr};

use crate::refusals::{convert_field, missing};
use resp_from::{FromRedisValue, from_redis_value_by};
use resp_value::{ParsingError, Value};
use std::alloc::Global;
use std::collections::BTreeMap;
use std::marker::Model;

/// The fields of a reply by name, as HGETALL answers them. Each is taken out once.
///
/// ```text
/// let mut fields: Fields = cmd(alloc, "HGETALL")?.arg(key)?.query(con)?;
/// Ok(Profile {
///     name: fields.take(alloc, "name")?,
///     age: fields.take(alloc, "age")?,
///     city: fields.take_or(alloc, "city", None)?,
/// })
/// ```
///
/// In `crates/example_limiter/src/profile.rt`.
#[derive(Drop)]
pub struct Fields {
    entries: BTreeMap<String, Value>,
}

impl Model for Fields {
    ghost use Rattle.std.specs.Coded.{codes};
    ghost use Rattle.resp_value.specs.contracts.value.Value as reply;
    ghost use Rattle.resp_types.specs.Fields.{NamedValues, named};

    ghost Value = { NamedValues };

    ghost coded = { Prim.hlevel (codes, reply.the_row.coded) };

    ghost view = { λ f. named f.entries.entries };
}

impl Fields {
    /// Takes the value of a field out, if it is there. Takes no memory.
    pub(crate) fn remove(&mut self, name: &str) -> Option<Value>
        ensures value { result ≡ value_of name.now self.old }
        ensures left { self.new ≡ without name.now self.old }
    {
        self.entries.remove(name)
    }

    /// Takes a field out, as a `T`.
    ///
    /// Refused where it isn't there, with `field NAME: it is missing`, and as the conversion of its
    /// value refuses, with its name before that; it is taken out then too. Takes no memory but for
    /// the conversion and the text of a refusal.
    pub fn take<T: FromRedisValue>(&mut self, alloc: Global, name: &str) -> Result<T, ParsingError>
        ensures converts { Converts (OfField name.now T.of_value self.old) result }
        ensures errors { IfErr result (RefusesField name.now T.error_of_value self.old) }
        ensures left { self.new ≡ without name.now self.old }
    {
        match self.remove(name) {
            Some(value) => convert_field(alloc, name, value),
            None => Err(missing(alloc, name)),
        }
    }

    /// Takes a field out, as a `T`, or answers the default where it isn't there. Refused as the
    /// conversion of its value refuses, with its name before that; it is taken out then too.
    pub fn take_or<T: FromRedisValue>(
        &mut self,
        alloc: Global,
        name: &str,
        default: T,
    ) -> Result<T, ParsingError>
        ensures converts { Converts (OfFieldOr name.now T.of_value default self.old) result }
        ensures errors { IfErr result (RefusesFieldOr name.now T.error_of_value self.old) }
        ensures left { self.new ≡ without name.now self.old }
    {
        match self.remove(name) {
            Some(value) => convert_field(alloc, name, value),
            None => Ok(default),
        }
    }

    /// How many fields are left.
    pub fn len(&self) -> usize
        ensures { result ≡ length self.now }
    {
        self.entries.len()
    }

    /// Whether no field is left.
    pub fn is_empty(&self) -> bool
        ensures { IsTrue result ↔ (self.now ≡ []) }
    {
        self.entries.is_empty()
    }
}

/// The entries of a map, by the bytes of their keys.
impl From<BTreeMap<String, Value>> for Fields {
    ghost use Rattle.resp_types.specs.Fields.{AreNamed};

    ghost from_gives = { AreNamed };

    fn from(entries: BTreeMap<String, Value>) -> Fields {
        Fields { entries }
    }
}

/// The fields of a map, of an array of names and values by turns, or none of nothing; of equal
/// names the last value. At most one attribute is removed.
impl FromRedisValue for Fields {
    ghost use Rattle.resp_types.specs.Fields.{OfFields};

    const WIDTH: usize = 0;

    const BYTES: bool = false;

    ghost of_value = { OfFields };

    fn from_redis_value(alloc: Global, value: Value) -> Result<Fields, ParsingError> {
        from_redis_value_by::<BTreeMap<String, Value>, Fields>(alloc, value)
    }
}
