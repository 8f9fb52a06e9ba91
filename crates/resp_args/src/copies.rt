//! Options whose `==` is structural, or whose clone is the value.

ghost use denote.Enum.Bare.{same_true};
ghost use Rattle.std.proofs.Common.{rules};
ghost use Rattle.resp_args.specs.contracts.args.NumericBehavior as behavior;
ghost use Rattle.resp_args.specs.contracts.options.ProtocolVersion as version;
ghost use Rattle.resp_containers.specs.lemmas.Clones.{of_copies};

use crate::args::NumericBehavior;
use crate::joined::Joined;
use crate::options::{
    ExistenceCheck, ExpireOption, Expiry, FieldExistenceCheck, ProtocolVersion, SetExpiry,
};
use resp_containers::{ExactClone, StructuralEq};

impl StructuralEq for NumericBehavior {
    ghost structural = { same_true behavior.the_type tt };
}

impl StructuralEq for ProtocolVersion {
    ghost structural = { same_true version.the_type tt };
}

impl ExactClone for Expiry {
    ghost exact = { record { same = Prim.search rules; succeeds = Prim.search rules } };
}

impl ExactClone for SetExpiry {
    ghost exact = { of_copies };
}

impl ExactClone for ExistenceCheck {
    ghost exact = { of_copies };
}

impl ExactClone for FieldExistenceCheck {
    ghost exact = { of_copies };
}

impl ExactClone for ExpireOption {
    ghost exact = { of_copies };
}

impl ExactClone for ProtocolVersion {
    ghost exact = { of_copies };
}

impl ExactClone for NumericBehavior {
    ghost exact = { of_copies };
}

impl<T: ExactClone> ExactClone for Joined<T> {
    ghost exact = { record { same = Prim.search rules; succeeds = Prim.search rules } };
}
