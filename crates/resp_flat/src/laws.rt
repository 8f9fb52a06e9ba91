//! Tokens whose `==` is structural, and copies that are the values.

ghost use denote.Enum.Bare.{same_true};
ghost use Rattle.resp_containers.specs.lemmas.Clones.{of_copies};
ghost use Rattle.resp_containers.specs.lemmas.Equality.{both, same_integers, same_numbers};
ghost use Rattle.resp_flat.specs.contracts.token.TokenKind as kind;

use crate::flat_iter::{FlatElements, FlatPairs};
use crate::flat_value::FlatValue;
use crate::token::{Token, TokenKind};
use resp_value::{ExactClone, StructuralEq};

impl StructuralEq for TokenKind {
    ghost structural = { same_true kind.the_type tt };
}

impl ExactClone for TokenKind {
    ghost exact = { of_copies };
}

impl StructuralEq for Token {
    ghost structural = { λ a b h.
        let p = both _ _ h in
        let q = both _ _ p.1 in
        let r = both _ _ q.1 in
        λ i. record {
          kind = same_true kind.the_type tt a.kind b.kind p.0 i;
          size = same_numbers a.size b.size q.0 i;
          number = same_integers a.number b.number r.0 i;
          start = same_numbers a.start b.start r.1 i;
        } };
}

impl ExactClone for Token {
    ghost exact = { of_copies };
}

impl ExactClone for FlatValue<'_> {
    ghost exact = { of_copies };
}

impl ExactClone for FlatElements<'_> {
    ghost use Rattle.std.proofs.Common.{rules};

    ghost exact = { record { same = Prim.search rules; succeeds = Prim.search rules } };
}

impl ExactClone for FlatPairs<'_> {
    ghost use Rattle.std.proofs.Common.{rules};

    ghost exact = { record { same = Prim.search rules; succeeds = Prim.search rules } };
}
