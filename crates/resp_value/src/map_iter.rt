//! Iterators over the pairs of a reply.

ghost use Rattle.std.specs.Prelude.{◌≡◌};

use crate::value::Value;
use std::vec::IntoIter;

/// The pairs of a borrowed reply, in order; made by [`Value::as_map_iter`].
#[derive(Drop)]
pub struct MapIter<'a> {
    rest: Rest<'a>,
}

#[derive(Drop)]
pub(crate) enum Rest<'a> {
    Entries(&'a [(Value, Value)]),
    Elements(&'a [Value]),
}

impl<'a> MapIter<'a> {
    pub(crate) fn over(rest: Rest<'a>) -> MapIter<'a>
        ensures { result.rest ≡ rest.entry }
    {
        MapIter { rest }
    }
}

impl<'a> Iterator for MapIter<'a> {
    ghost use Rattle.std.specs.Prelude.{◌≡◌, length, IfSome, Some};
    ghost use Rattle.std.specs.Iterator.{YieldsFirstBy, item_count, UpTo, at_most};
    ghost use Rattle.std.specs.Iterator.SizeHint.{IsWithinCount};
    ghost use Rattle.resp_value.specs.MapIters.{pairs_left, referents};

    type Item = (&'a Value, &'a Value);

    ghost next_gives = { YieldsFirstBy referents pairs_left };

    ghost remaining = { item_count pairs_left };

    fn next(&mut self) -> Option<(&'a Value, &'a Value)> {
        match self.rest {
            Rest::Entries(entries) => {
                let (entry, others) = entries.split_first()?;
                self.rest = Rest::Entries(others);
                Some((&entry.0, &entry.1))
            }
            Rest::Elements(elements) => {
                let (key, others) = elements.split_first()?;
                let (value, others) = others.split_first()?;
                self.rest = Rest::Elements(others);
                Some((key, value))
            }
        }
    }

    /// Exactly as many pairs as there are left.
    #[tactic(auto, using(crate::proofs::PairsCounted::pairs_counted))]
    fn size_hint(&self) -> (usize, Option<usize>)
        ensures lower { IsWithinCount result.0 (at_most (length (pairs_left self.now))) }
        ensures upper { IfSome result.1 (UpTo (at_most (length (pairs_left self.now)))) }
        ensures least { result.0 ≡ length (pairs_left self.now) }
        ensures most { result.1 ≡ Some (length (pairs_left self.now)) }
    {
        let pairs = match self.rest {
            Rest::Entries(entries) => entries.len(),
            Rest::Elements(elements) => elements.len() / 2,
        };
        (pairs, Some(pairs))
    }
}

/// The pairs of a reply, in order and by move; made by [`Value::into_map_iter`].
#[derive(Drop)]
pub struct OwnedMapIter {
    rest: OwnedRest,
}

#[derive(Drop)]
pub(crate) enum OwnedRest {
    Entries(IntoIter<(Value, Value)>),
    Elements(IntoIter<Value>),
}

impl OwnedMapIter {
    pub(crate) fn over(rest: OwnedRest) -> OwnedMapIter
        ensures { result.rest ≡ rest }
    {
        OwnedMapIter { rest }
    }
}

impl Iterator for OwnedMapIter {
    ghost use Rattle.std.specs.Prelude.{◌≡◌, length, IfSome, Some};
    ghost use Rattle.std.specs.Iterator.{YieldsFirst, item_count, UpTo, at_most};
    ghost use Rattle.std.specs.Iterator.SizeHint.{IsWithinCount};
    ghost use Rattle.resp_value.specs.MapIters.{owned_pairs_left};

    type Item = (Value, Value);

    ghost next_gives = { YieldsFirst owned_pairs_left };

    ghost remaining = { item_count owned_pairs_left };

    fn next(&mut self) -> Option<(Value, Value)> {
        match &mut self.rest {
            OwnedRest::Entries(entries) => entries.next(),
            OwnedRest::Elements(elements) => {
                let key = elements.next()?;
                elements.next().map(|value| (key, value))
            }
        }
    }

    /// Exactly as many pairs as there are left.
    #[tactic(auto, using(crate::proofs::PairsCounted::pairs_counted))]
    fn size_hint(&self) -> (usize, Option<usize>)
        ensures lower { IsWithinCount result.0 (at_most (length (owned_pairs_left self.now))) }
        ensures upper { IfSome result.1 (UpTo (at_most (length (owned_pairs_left self.now)))) }
        ensures least { result.0 ≡ length (owned_pairs_left self.now) }
        ensures most { result.1 ≡ Some (length (owned_pairs_left self.now)) }
    {
        let pairs = match &self.rest {
            OwnedRest::Entries(entries) => entries.len(),
            OwnedRest::Elements(elements) => elements.len() / 2,
        };
        (pairs, Some(pairs))
    }
}
