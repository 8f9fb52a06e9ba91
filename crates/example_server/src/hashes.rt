//! Commands about hashes.

ghost use Rattle.std.specs.Prelude.{◌≡◌, ◌-◌, IfErr, IfOk, OnErr, OnOk, map, length};
ghost use Rattle.std.specs.BTreeMap.{IsUnchanged};
ghost use Rattle.example_server.specs.KeyCommands.{GetsAll, SetsFields, PutsFields, KeepsOtherKeys};
ghost use Rattle.example_server.specs.KeyCommands.{held, content_of, fields_in, with_fields, shown};

use crate::clock::Time;
use crate::refusal::Refusal;
use crate::reply::Reply;
use crate::store::{Content, Entry, Fields, Store, content_of, time_of};
use resp_core::{Bytes, Items};
use std::alloc::{AllocError, Global};
use std::collections::BTreeMap;

/// `HSET`: how many of the fields are new.
pub fn hset(
    alloc: Global,
    store: &mut Store,
    key: Vec<u8>,
    pairs: Vec<(Vec<u8>, Bytes)>,
) -> Result<Reply, AllocError>
    ensures { IfOk result (SetsFields store.old store.new key pairs.items) }
{
    let expires = time_of(store.get(&key));
    match take_fields(alloc, store, &key) {
        Ok(fields) => put_fields(store, key, fields, expires, pairs),
        Err(refusal) => Ok(Reply::Refused(refusal)),
    }
}

/// Takes the fields out of the hash that a key holds; there are none where nothing is held.
fn take_fields(alloc: Global, store: &mut Store, key: &Vec<u8>) -> Result<Fields, Refusal>
    ensures fields { IfOk result (λ fields. fields_in (content_of (held store.old key.now))
        ≡ Ok fields.entries) }
    ensures others { IfOk result (λ _. KeepsOtherKeys store.old store.new key.now) }
    ensures refused { IfErr result (λ why. fields_in (content_of (held store.old key.now))
        ≡ Err why) }
    ensures unchanged { OnErr result (IsUnchanged store.old store.new) }
{
    match content_of(store.get(key)) {
        Some(Content::Text(_)) => Err(Refusal::WrongType),
        Some(Content::Hash(_)) => match store.remove(key).map(Entry::into_content) {
            Some(Content::Hash(fields)) => Ok(fields),
            Some(Content::Text(_text)) => unreachable!(),
            None => unreachable!(),
        },
        None => Ok(BTreeMap::new(alloc)),
    }
}

/// Sets fields, and gives a key the hash that they make.
fn put_fields(
    store: &mut Store,
    key: Vec<u8>,
    fields: Fields,
    expires: Option<Time>,
    pairs: Vec<(Vec<u8>, Bytes)>,
) -> Result<Reply, AllocError>
    ensures { IfOk result (PutsFields store.old store.new key fields.entries expires pairs.items) }
{
    let mut fields = fields;
    let added = set_fields(&mut fields, pairs)?;
    let content = Content::Hash(fields);
    store.insert(key, Entry { content, expires })?;
    Ok(Reply::Count(added))
}

/// Sets fields, the last value of each, and says how many are new.
fn set_fields(fields: &mut Fields, pairs: Vec<(Vec<u8>, Bytes)>) -> Result<usize, AllocError>
    ensures set { OnOk result (fields.new.entries ≡ with_fields fields.old.entries pairs.items) }
    ensures added { IfOk result (λ added. added
        ≡ length fields.new.entries - length fields.old.entries) }
{
    let before = fields.len();
    for (field, value) in pairs {
        fields.insert(field, value)?;
    }
    Ok(fields.len() - before)
}

/// `HGETALL`
pub fn hgetall(alloc: Global, store: &Store, key: &Vec<u8>) -> Result<Reply, AllocError>
    ensures { IfOk result (GetsAll store.now store.now key.now) }
{
    match content_of(store.get(key)) {
        Some(Content::Hash(fields)) => Ok(Reply::Fields(copies(alloc, fields)?)),
        Some(Content::Text(_)) => Ok(Reply::Refused(Refusal::WrongType)),
        None => Ok(Reply::Fields(Items::new(alloc))),
    }
}

/// The fields with their values, in the order of their bytes.
fn copies(alloc: Global, fields: &Fields) -> Result<Items<(Bytes, Bytes)>, AllocError>
    ensures { IfOk result (λ pairs. pairs ≡ map shown fields.now.entries) }
{
    let mut pairs = Items::new(alloc);
    for (field, value) in fields.iter() {
        let field = Bytes::from_slice(alloc, field.as_slice())?;
        pairs.push((field, Bytes::from_slice(alloc, value.as_slice())?))?;
    }
    Ok(pairs)
}
