//! What replies to several commands make together.

ghost use Rattle.std.specs.Prelude.{◌≡◌, ◌≢◌, ◌↔◌, [], IsTrue, IfOk, false, slice_index_or};
ghost use Rattle.resp_pipeline.specs.Outcome.{kept, error_in, errors_of};

use resp_value::{Items, ServerError, Value};
use std::alloc::{AllocError, Global};

/// Whether an item is a server error.
pub fn has_server_error(items: &[Value]) -> bool
    ensures { IsTrue result ↔ (errors_of items.now ≢ []) }
{
    for item in items {
        if let Value::ServerError(_) = item {
            return true;
        }
    }
    false
}

/// The items that are server errors, each with its position, by move.
pub fn into_server_errors(
    alloc: Global,
    items: Vec<Value>,
) -> Result<Items<(usize, ServerError)>, AllocError>
    ensures { IfOk result (λ errors. errors ≡ errors_of items.items) }
{
    let mut errors = Items::new(alloc);
    for (position, item) in items.into_iter().enumerate() {
        if let Some(error) = into_server_error(item) {
            errors.push((position, error))?;
        }
    }
    Ok(errors)
}

/// The server error that an item is, if it is one.
fn into_server_error(item: Value) -> Option<ServerError>
    ensures { result ≡ error_in item }
{
    match item {
        Value::ServerError(error) => Some(error),
        _ => None,
    }
}

/// Keeps the items whose position isn't ignored, in order. Takes no memory.
pub fn keep(ignored: &[bool], items: &mut Vec<Value>)
    ensures { items.new.items ≡ kept ignored.now items.old.items }
{
    let mut len = 0;
    for position in 0..items.len() {
        if !is_ignored(ignored, position) {
            items.swap(len, position);
            len += 1;
        }
    }
    items.truncate(len);
}

fn is_ignored(ignored: &[bool], position: usize) -> bool
    ensures { result ≡ slice_index_or ignored.now position false }
{
    match ignored.get(position) {
        Some(mark) => *mark,
        None => false,
    }
}
