//! `INCR`.

ghost use Rattle.std.specs.Prelude.{IfOk, OnErr};
ghost use Rattle.std.specs.BTreeMap.{IsUnchanged};
ghost use Rattle.std.specs.Option.{option_copied};
ghost use Rattle.example_server.specs.KeyCommands.{Increments, CountsUp};

use crate::integers::{digits, integer_of};
use crate::refusal::Refusal;
use crate::reply::Reply;
use crate::store::{Content, Entry, Store, content_of, time_of};
use std::alloc::{AllocError, Global};

/// `INCR`
pub fn incr(alloc: Global, store: &mut Store, key: Vec<u8>) -> Result<Reply, AllocError>
    ensures answers { IfOk result (Increments store.old store.new key) }
    ensures unchanged { OnErr result (IsUnchanged store.old store.new) }
{
    match counted_up(content_of(store.get(&key))) {
        Ok(next) => {
            let expires = time_of(store.get(&key));
            let content = Content::Text(digits(alloc, next)?);
            store.insert(key, Entry { content, expires })?;
            Ok(Reply::Integer(next))
        }
        Err(refusal) => Ok(Reply::Refused(refusal)),
    }
}

/// One more than the integer that is held; 0 is, where nothing is.
fn counted_up(held: Option<&Content>) -> Result<i64, Refusal>
    ensures { CountsUp (option_copied held.entry) result }
{
    match held {
        Some(Content::Text(text)) => next_after(text.as_slice()),
        Some(Content::Hash(_)) => Err(Refusal::WrongType),
        None => Ok(1),
    }
}

/// One more than the integer that a text writes.
fn next_after(text: &[u8]) -> Result<i64, Refusal>
    ensures { CountsUp (Some (Content.Text text.now)) result }
{
    match integer_of(text) {
        Some(i64::MAX) => Err(Refusal::Overflow),
        Some(number) => Ok(number + 1),
        None => Err(Refusal::NotInteger),
    }
}
