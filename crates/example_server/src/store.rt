//! What the server keeps, and the commands about keys.

ghost use Rattle.std.specs.Prelude.{◌≡◌, IfOk, OnOk, OnErr};
ghost use Rattle.std.specs.BTreeMap.{IsUnchanged, Updates};
ghost use Rattle.std.specs.Option.{option_copied};
ghost use Rattle.example_server.specs.KeyCommands.{AnswersKeys, KeepsOnFailure};
ghost use Rattle.example_server.specs.KeyCommands.{cmp, living, content_of, time_of};
ghost use Rattle.example_server.specs.Times.{has_passed};

use crate::clock::{Time, is_past};
use crate::command::KeyCommand;
use crate::counting::incr;
use crate::hashes::{hgetall, hset};
use crate::keys::{del, exists, expire};
use crate::reply::Reply;
use crate::strings::{get, set};
use resp_core::Bytes;
use std::alloc::{AllocError, Global};
use std::collections::BTreeMap;

/// What the keys hold.
pub type Store = BTreeMap<Vec<u8>, Entry>;

/// What a key holds, and how long.
#[derive(Drop)]
pub struct Entry {
    /// What it holds.
    pub content: Content,
    /// When it expires, if it does.
    pub expires: Option<Time>,
}

impl Entry {
    /// What the key held.
    pub fn into_content(self) -> Content
        ensures { result ≡ self.content }
    {
        self.content
    }
}

/// What a key holds.
#[derive(Drop)]
pub enum Content {
    /// A string.
    Text(Bytes),
    /// A hash.
    Hash(Fields),
}

/// Fields and their values.
pub type Fields = BTreeMap<Vec<u8>, Bytes>;

/// Answers a command about keys. Fails only with out of memory; the store is then as it was, but
/// that `HSET` may have taken the hash away.
pub fn answer_keys(
    alloc: Global,
    store: &mut Store,
    command: KeyCommand,
) -> Result<Reply, AllocError>
    ensures answers { IfOk result (AnswersKeys store.old store.new command) }
    ensures kept { OnErr result (KeepsOnFailure store.old store.new command) }
{
    match command {
        KeyCommand::Get(key) => get(alloc, store, &key),
        KeyCommand::Set(key, value, options) => set(alloc, store, key, value, options),
        KeyCommand::Del(keys) => Ok(Reply::Count(del(store, keys))),
        KeyCommand::Exists(keys) => Ok(Reply::Count(exists(store, keys.as_slice()))),
        KeyCommand::Incr(key) => incr(alloc, store, key),
        KeyCommand::Expire(key, time, reach) => Ok(expire(store, &key, time, reach)),
        KeyCommand::HSet(key, fields) => hset(alloc, store, key, fields),
        KeyCommand::HGetAll(key) => hgetall(alloc, store, &key),
    }
}

/// What is held, if anything is.
pub fn content_of(held: Option<&Entry>) -> Option<&Content>
    ensures { option_copied result ≡ content_of (option_copied held.entry) }
{
    match held {
        Some(entry) => Some(&entry.content),
        None => None,
    }
}

/// When it expires, if it does.
pub fn time_of(held: Option<&Entry>) -> Option<Time>
    ensures { result ≡ time_of (option_copied held.entry) }
{
    match held {
        Some(entry) => entry.expires,
        None => None,
    }
}

/// Gives a key what it holds until then; one whose time has come goes.
pub fn put(
    store: &mut Store,
    key: Vec<u8>,
    content: Content,
    expires: Option<Time>,
) -> Result<(), AllocError>
    ensures put { OnOk result (Updates cmp store.old store.new key (living content expires)) }
    ensures unchanged { OnErr result (IsUnchanged store.old store.new) }
{
    if has_passed(expires) {
        store.remove(&key);
    } else {
        store.insert(key, Entry { content, expires })?;
    }
    Ok(())
}

/// Whether it is a time that has come.
fn has_passed(expires: Option<Time>) -> bool
    ensures { result ≡ has_passed expires }
{
    match expires {
        Some(time) => is_past(time),
        None => false,
    }
}
