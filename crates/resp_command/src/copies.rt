//! Shown arguments whose `==` is structural, and whose clone is the value; and an iterator whose clone
//! is the iterator.

use crate::args_iter::{Arg, ArgsIter};
use resp_value::{ExactClone, StructuralEq};

impl<D: StructuralEq> StructuralEq for Arg<D> {
    ghost use Rattle.resp_containers.specs.lemmas.Equality.{one_field, same_enum};
    ghost use Rattle.resp_command.specs.contracts.args_iter.Arg as arg;

    ghost structural = { same_enum (arg.enum D.row) _ (one_field D.structural, tt) };
}

impl<D: ExactClone> ExactClone for Arg<D> {
    ghost use Rattle.std.proofs.Common.{rules};

    ghost exact = { record { same = Prim.search rules; succeeds = Prim.search rules } };
}

impl ExactClone for ArgsIter<'_> {
    ghost use Rattle.std.proofs.Common.{rules};

    ghost exact = { record { same = Prim.search rules; succeeds = Prim.search rules } };
}
