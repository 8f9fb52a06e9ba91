//! Iterators over the values inside a value of a flat reply.

ghost use Rattle.std.specs.Prelude.{◌≡◌, ◌<◌, ◌*◌, ◌^◌, ◌-◌, length, min, Some};
ghost use Rattle.resp_flat.specs.FlatValues.{views_from, two_by_two};

use crate::flat_value::{FlatValue, after_value};
use crate::token::Token;

/// The values inside an array, a set or a push, in order; made by [`FlatValue::elements`].
#[derive(Clone, Drop)]
pub struct FlatElements<'a> {
    left: usize,
    /// From the next one's on.
    tokens: &'a [Token],
    /// The text of the whole reply.
    text: &'a [u8],
}

impl<'a> FlatElements<'a> {
    ghost use Rattle.resp_flat.specs.FlatValues.{elements_left};

    /// Over so many values, of which the first begins with the first of these tokens.
    #[tactic(auto, using(crate::proofs::ViewCounts::views_fewer))]
    pub(crate) fn over(left: usize, tokens: &'a [Token], text: &'a [u8]) -> FlatElements<'a>
        ensures left { elements_left result ≡ views_from left tokens.now text.now }
        ensures fits { length (elements_left result) < 2 ^ 64 }
        ensures count { result.left ≡ left }
    {
        FlatElements { left, tokens, text }
    }
}

impl<'a> Iterator for FlatElements<'a> {
    ghost use Rattle.std.specs.Prelude.{IfSome};
    ghost use Rattle.std.specs.Iterator.{YieldsFirstBy, item_count, UpTo, at_most};
    ghost use Rattle.std.specs.Iterator.SizeHint.{IsWithinCount};
    ghost use Rattle.resp_flat.specs.FlatValues.{elements_left, HasAllElements, view_of};

    type Item = FlatValue<'a>;

    ghost next_gives = { YieldsFirstBy view_of elements_left };

    ghost remaining = { item_count elements_left };

    fn next(&mut self) -> Option<FlatValue<'a>> {
        if self.left == 0 {
            return None;
        }
        let (token, others) = self.tokens.split_first()?;
        self.left -= 1;
        if self.left > 0 {
            self.tokens = after_value(token, others);
        }
        Some(FlatValue::at(token, others, self.text))
    }

    /// At most as many values as are left: fewer where tokens are missing.
    #[tactic(auto, using(crate::proofs::ViewCounts::elements_fewer))]
    fn size_hint(&self) -> (usize, Option<usize>)
        ensures lower { IsWithinCount result.0 (at_most (length (elements_left self.now))) }
        ensures upper { IfSome result.1 (UpTo (at_most (length (elements_left self.now)))) }
        ensures least { result.0 ≡ 0 }
        ensures most { HasAllElements self.now
            → result.1 ≡ Some (length (elements_left self.now)) }
    {
        (0, Some(self.left))
    }
}

/// The keys and values of a map or of an attribute, in order; made by [`FlatValue::pairs`].
#[derive(Drop, Clone)]
pub struct FlatPairs<'a> {
    /// The keys and values, one after another.
    parts: FlatElements<'a>,
}

impl<'a> FlatPairs<'a> {
    ghost use Rattle.resp_flat.specs.FlatValues.{pairs_left};

    /// Over so many pairs, of which the first key begins with the first of these tokens.
    #[tactic(auto, using(crate::proofs::ViewCounts::pairs_counted))]
    pub(crate) fn over(left: usize, tokens: &'a [Token], text: &'a [u8]) -> FlatPairs<'a>
        ensures left { pairs_left result
            ≡ two_by_two (views_from (min (left * 2) (2 ^ 64 - 1)) tokens.now text.now) }
        ensures fits { length (pairs_left result) < 2 ^ 64 }
        ensures count { result.parts.left ≡ min (left * 2) (2 ^ 64 - 1) }
    {
        FlatPairs {
            parts: FlatElements::over(left.saturating_mul(2), tokens, text),
        }
    }
}

impl<'a> Iterator for FlatPairs<'a> {
    ghost use Rattle.std.specs.Prelude.{IfSome};
    ghost use Rattle.std.specs.Iterator.{YieldsFirstBy, item_count, UpTo, at_most};
    ghost use Rattle.std.specs.Iterator.SizeHint.{IsWithinCount};
    ghost use Rattle.resp_flat.specs.FlatValues.{pairs_left, HasAllPairs, views_of};

    type Item = (FlatValue<'a>, FlatValue<'a>);

    ghost next_gives = { YieldsFirstBy views_of pairs_left };

    ghost remaining = { item_count pairs_left };

    fn next(&mut self) -> Option<(FlatValue<'a>, FlatValue<'a>)> {
        let key = self.parts.next()?;
        let value = self.parts.next()?;
        Some((key, value))
    }

    /// At most as many pairs as are left: fewer where tokens are missing.
    #[tactic(auto, using(crate::proofs::ViewCounts::elements_fewer, crate::proofs::ViewCounts::pairs_counted))]
    fn size_hint(&self) -> (usize, Option<usize>)
        ensures lower { IsWithinCount result.0 (at_most (length (pairs_left self.now))) }
        ensures upper { IfSome result.1 (UpTo (at_most (length (pairs_left self.now)))) }
        ensures least { result.0 ≡ 0 }
        ensures most { HasAllPairs self.now
            → result.1 ≡ Some (length (pairs_left self.now)) }
    {
        (0, Some(self.parts.left / 2))
    }
}
