//! Commands about keys, whatever they hold.

ghost use Rattle.std.specs.Prelude.{◌≡◌, ◌-◌, true, length, count_by, is_some};
ghost use Rattle.std.specs.BTreeMap.{Updates, get as value_at};
ghost use Rattle.std.specs.Option.{option_copied};
ghost use Rattle.example_server.specs.KeyCommands.{cmp, without, Expires, is_given, with_time};
ghost use Rattle.example_server.specs.Times.{reaches};

use crate::clock::{Time, is_past};
use crate::command::Reach;
use crate::reply::Reply;
use crate::store::{Entry, Store};

/// `DEL`: how many keys were removed.
pub fn del(store: &mut Store, keys: Vec<Vec<u8>>) -> usize
    ensures removed { store.new.entries ≡ without keys.items store.old.entries }
    ensures count { result ≡ length store.old.entries - length store.new.entries }
{
    let before = store.len();
    for key in keys {
        store.remove(&key);
    }
    before - store.len()
}

/// `EXISTS`: how many of the keys are there, each counted as often as it is named.
pub fn exists(store: &Store, keys: &[Vec<u8>]) -> usize
    ensures { result ≡ count_by (λ key. is_some (value_at cmp store.now key)) keys.now }
{
    keys.iter().filter(|key| store.contains_key(*key)).count()
}

/// `EXPIRE`: whether the key is there and given the time; it goes where that has come.
pub fn expire(store: &mut Store, key: &Vec<u8>, time: Time, reach: Reach) -> Reply
    ensures { Expires store.old store.new key.now time reach result }
{
    if !is_given(reach, store.get(key), time) {
        return Reply::Count(0);
    }
    give_time(store, key, time);
    Reply::Count(1)
}

/// Whether a key that holds this is given the time.
fn is_given(reach: Reach, held: Option<&Entry>, time: Time) -> bool
    ensures { result ≡ is_given reach (option_copied held.entry) time }
{
    match held {
        Some(entry) => reaches(reach, entry.expires, time),
        None => false,
    }
}

/// Whether a key that has this time, or none, is given another one.
fn reaches(reach: Reach, before: Option<Time>, time: Time) -> bool
    ensures { result ≡ reaches reach before time }
{
    match (reach, before) {
        (Reach::EveryKey, _) => true,
        (Reach::WithoutTime, before) => before.is_none(),
        (Reach::WithTime, before) => before.is_some(),
        (Reach::WithEarlierTime, Some(other)) => other < time,
        (Reach::WithLaterTime, Some(other)) => time < other,
        (Reach::WithLaterOrNoTime, Some(other)) => time < other,
        (Reach::WithLaterOrNoTime, None) => true,
        (_, None) => false,
    }
}

/// Gives a key that is there the time; it goes where that has come.
fn give_time(store: &mut Store, key: &Vec<u8>, time: Time)
    requires { is_some (value_at cmp store.old key.now) ≡ true }
    ensures { Updates cmp store.old store.new key.now
        (with_time (value_at cmp store.old key.now) time) }
{
    if is_past(time) {
        store.remove(key);
        return;
    }
    if let Some(entry) = store.get_mut(key) {
        entry.expires = Some(time);
    }
}
