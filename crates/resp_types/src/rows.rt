//! Values that are made of some fields of a reply, in an order of one's own.

ghost use Rattle.std.specs.Prelude.{◌≡◌, ◌++◌, OnOk};
ghost use Rattle.resp_from.specs.Conversion.{Converts, OfVia};
ghost use Rattle.resp_types.specs.Fields.{OfGiven};
ghost use Rattle.resp_types.specs.Rows.{row_of, texts, values_of, values_or_nil, without_all};
ghost use Rattle.resp_types.specs.Rows.{Finds, FindsRow, OfRow};

use crate::fields::Fields;
use crate::refusals::missing;
use resp_from::{FromRedisValue, from_redis_value_by};
use resp_value::{Items, ParsingError, Value};
use std::alloc::{AllocError, Global};

/// Takes the values of these fields out, in this order, and adds them to a row.
///
/// Refused where one isn't there, or on `OutOfMemory`.
fn add_needed(
    alloc: Global,
    fields: &mut Fields,
    names: &[&str],
    row: &mut Vec<Value>,
) -> Result<(), ParsingError>
    ensures added { Finds (values_of (texts names.now) fields.old) row.old.items row.new.items
        result }
    ensures left { OnOk result (fields.new ≡ without_all (texts names.now) fields.old) }
{
    for name in names {
        match fields.remove(name) {
            Some(value) => row.push(value)?,
            None => return Err(missing(alloc, name)),
        }
    }
    Ok(())
}

/// The same, with `Nil` in the place of a field that isn't there. Fails only when out of memory.
fn add_optional(fields: &mut Fields, names: &[&str], row: &mut Vec<Value>) -> Result<(), AllocError>
    ensures added { OnOk result (row.new.items
        ≡ row.old.items ++ values_or_nil (texts names.now) fields.old) }
{
    for name in names {
        row.push(fields.remove(name).unwrap_or(Value::Nil))?;
    }
    Ok(())
}

/// The values of these fields, in this order, as one array; they are taken out.
fn take_row(
    alloc: Global,
    fields: &mut Fields,
    needed: &[&str],
    optional: &[&str],
) -> Result<Value, ParsingError>
    ensures row { FindsRow (row_of (texts needed.now) (texts optional.now) fields.old) result }
{
    let mut row = Vec::new(alloc);
    add_needed(alloc, fields, needed, &mut row)?;
    add_optional(fields, optional, &mut row)?;
    Ok(Value::Array(Items::from(row)))
}

/// What is made of these values.
fn from_row<T: FromRedisValue, X: From<T>>(
    alloc: Global,
    fields: &mut Fields,
    needed: &[&str],
    optional: &[&str],
) -> Result<X, ParsingError>
    ensures converts { Converts (OfGiven (OfVia T.of_value X.from_gives)
        (row_of (texts needed.now) (texts optional.now) fields.old)) result }
{
    let row = take_row(alloc, fields, needed, optional)?;
    from_redis_value_by::<T, X>(alloc, row)
}

/// A value that is made of some fields of a reply: of those that have to be there, in this order,
/// and then of those that may be absent, for which `Nil` stands. Their values are converted
/// together as a `T`, which is mostly a tuple. In which order the reply has them makes no
/// difference, and other fields are ignored.
///
/// Refused where one of the first isn't there, with `field NAME: it is missing`, where the reply has
/// no fields, or the values are no `T`, or on `OutOfMemory`.
///
/// ```text
/// type Row = (String, Vec<Point>, Option<Point>);
///
/// impl From<Row> for Path {
///     ghost from_gives = { λ t p. p ≡ record { name = t.0; points = t.1; start = t.2 } };
///
///     fn from((name, points, start): Row) -> Path {
///         Path {
///             name,
///             points,
///             start,
///         }
///     }
/// }
///
/// impl FromRedisValue for Path {
///     const WIDTH: usize = 0;
///
///     const BYTES: bool = false;
///
///     ghost of_value = { OfRow (codes "name" ∷ codes "points" ∷ []) (codes "start" ∷ [])
///         (OfVia ⟦<Row as FromRedisValue>⟧.of_value ⟦<Path as From<Row>>⟧.from_gives) };
///
///     fn from_redis_value(alloc: Global, value: Value) -> Result<Path, ParsingError> {
///         from_redis_fields_by::<Row, Path>(alloc, value, &["name", "points"], &["start"])
///     }
/// }
/// ```
///
/// In `crates/example_snippets/src/fields/paths.rt`.
pub fn from_redis_fields_by<T: FromRedisValue, X: From<T>>(
    alloc: Global,
    value: Value,
    needed: &[&str],
    optional: &[&str],
) -> Result<X, ParsingError>
    ensures converts { Converts (OfRow (texts needed.now) (texts optional.now)
        (OfVia T.of_value X.from_gives) value) result }
{
    let mut fields = Fields::from_redis_value(alloc, value)?;
    from_row::<T, X>(alloc, &mut fields, needed, optional)
}
