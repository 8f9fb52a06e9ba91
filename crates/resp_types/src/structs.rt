//! Structs that are made of the fields of a reply.

ghost use Rattle.resp_from.specs.Conversion.{Converts, OfVia};
ghost use Rattle.resp_types.specs.Fields.{NamedValues, OfFields};

use crate::fields::Fields;
use resp_from::FromRedisValue;
use resp_value::{ParsingError, Value};
use std::alloc::Global;

/// A type that is made of the fields of a reply, by their names, and that may refuse them.
///
/// What the fields are to the type is said field by field, by the chain of `Field` and `FieldOr`
/// that ends in `AnyOthers` or `NoOthers`. No proof file is needed where the types of the fields
/// are integers, truth values, texts, `Items`, other such types and `Option` of these.
///
/// ```text
/// impl FromFields for Point {
///     ghost of_fields = { λ fields p. Field (codes "x") ⟦<i64 as FromRedisValue>⟧.of_value p.x
///         (Field (codes "y") ⟦<i64 as FromRedisValue>⟧.of_value p.y NoOthers) fields };
///
///     fn from_fields(alloc: Global, fields: &mut Fields) -> Result<Point, ParsingError> {
///         let point = Point {
///             x: fields.take(alloc, "x")?,
///             y: fields.take(alloc, "y")?,
///         };
///         if !fields.is_empty() {
///             return Err(ParsingError::from("unknown field"));
///         }
///         Ok(point)
///     }
/// }
///
/// impl FromRedisValue for Point {
///     const WIDTH: usize = 0;
///
///     const BYTES: bool = false;
///
///     ghost of_value = { OfVia OfFields ⟦<Point as FromFields>⟧.of_fields };
///
///     fn from_redis_value(alloc: Global, value: Value) -> Result<Point, ParsingError> {
///         from_redis_fields(alloc, value)
///     }
/// }
/// ```
///
/// In `crates/example_snippets/src/fields/paths.rt`.
pub trait FromFields: Sized + Drop {
    // Holds of fields and each value that is made of them.
    ghost of_fields: { NamedValues → Self → Type 0 };

    /// Takes the fields of a value out, and makes it of them.
    ///
    /// Refused where there is no value of these fields, or on `OutOfMemory`.
    fn from_fields(alloc: Global, fields: &mut Fields) -> Result<Self, ParsingError>
        ensures converts { Converts (of_fields fields.old) result };
}

/// The value that is made of the fields of a reply.
///
/// Refused where the reply has no fields, or there is no value of them, or on `OutOfMemory`.
pub fn from_redis_fields<X: FromFields>(alloc: Global, value: Value) -> Result<X, ParsingError>
    ensures converts { Converts (OfVia OfFields X.of_fields value) result }
{
    let mut fields = Fields::from_redis_value(alloc, value)?;
    X::from_fields(alloc, &mut fields)
}
