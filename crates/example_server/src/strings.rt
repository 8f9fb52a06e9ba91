//! Commands about strings.

ghost use Rattle.std.specs.Prelude.{◌≡◌, IfOk, OnErr, MatchBool};
ghost use Rattle.std.specs.BTreeMap.{IsUnchanged, Updates, get as value_at};
ghost use Rattle.std.specs.Option.{option_copied};
ghost use Rattle.example_server.specs.KeyCommands.{cmp, Gets, Sets, text_in, is_met, living};
ghost use Rattle.example_server.specs.KeyCommands.{content_of, expiry_after};

use crate::clock::Time;
use crate::command::{Condition, Expiry, SetOptions};
use crate::refusal::Refusal;
use crate::reply::Reply;
use crate::store::{Content, Entry, Store, content_of, put, time_of};
use resp_core::Bytes;
use std::alloc::{AllocError, Global};

/// `GET`
pub fn get(alloc: Global, store: &Store, key: &Vec<u8>) -> Result<Reply, AllocError>
    ensures { IfOk result (Gets store.now store.now key.now) }
{
    match text_of(alloc, content_of(store.get(key)))? {
        Ok(text) => Ok(Reply::Found(text)),
        Err(refusal) => Ok(Reply::Refused(refusal)),
    }
}

/// `SET`
pub fn set(
    alloc: Global,
    store: &mut Store,
    key: Vec<u8>,
    value: Bytes,
    options: SetOptions,
) -> Result<Reply, AllocError>
    ensures answers { IfOk result (Sets store.old store.new key value options) }
    ensures unchanged { OnErr result (IsUnchanged store.old store.new) }
{
    if !options.get {
        let is_set = set_where(store, options, key, value)?;
        return Ok(if is_set {
            Reply::Okay
        } else {
            Reply::Found(None)
        });
    }
    match text_of(alloc, content_of(store.get(&key)))? {
        Ok(text) => {
            set_where(store, options, key, value)?;
            Ok(Reply::Found(text))
        }
        Err(refusal) => Ok(Reply::Refused(refusal)),
    }
}

/// Sets a key if the condition is met, and says whether it is.
fn set_where(
    store: &mut Store,
    options: SetOptions,
    key: Vec<u8>,
    value: Bytes,
) -> Result<bool, AllocError>
    ensures met { IfOk result (λ is_set. is_set
        ≡ is_met options.condition (value_at cmp store.old key)) }
    ensures set { IfOk result (λ is_set. MatchBool is_set
        (Updates cmp store.old store.new key (living (Content.Text value)
        (expiry_after options.expiry (value_at cmp store.old key))))
        (IsUnchanged store.old store.new)) }
    ensures unchanged { OnErr result (IsUnchanged store.old store.new) }
{
    if !meets(options.condition, store.get(&key)) {
        return Ok(false);
    }
    let expires = expiry_after(options.expiry, store.get(&key));
    put(store, key, Content::Text(value), expires)?;
    Ok(true)
}

/// Whether a key that holds this is set.
fn meets(condition: Condition, held: Option<&Entry>) -> bool
    ensures { result ≡ is_met condition (option_copied held.entry) }
{
    match condition {
        Condition::Always => true,
        Condition::IfAbsent => held.is_none(),
        Condition::IfPresent => held.is_some(),
    }
}

/// When a key that held this expires after it is set.
fn expiry_after(expiry: Expiry, held: Option<&Entry>) -> Option<Time>
    ensures { result ≡ expiry_after expiry (option_copied held.entry) }
{
    match expiry {
        Expiry::Never => None,
        Expiry::Kept => time_of(held),
        Expiry::At(time) => Some(time),
    }
}

/// A copy of the string that is held, if anything is.
fn text_of(
    alloc: Global,
    held: Option<&Content>,
) -> Result<Result<Option<Bytes>, Refusal>, AllocError>
    ensures { IfOk result (λ text. text ≡ text_in (option_copied held.entry)) }
{
    match held {
        Some(Content::Text(text)) => Ok(Ok(Some(Bytes::from_slice(alloc, text.as_slice())?))),
        Some(Content::Hash(_)) => Ok(Err(Refusal::WrongType)),
        None => Ok(Ok(None)),
    }
}
