//! Replies whose `==` is structural, and one whose clone is the value.

ghost use Rattle.std.specs.Prelude.{◌≡◌};
ghost use Rattle.resp_containers.specs.lemmas.Equality.{both, one_field, two_fields, same_bytes};
ghost use Rattle.resp_containers.specs.lemmas.Equality.{same_enum, same_integers, same_lists};
ghost use Rattle.resp_containers.specs.lemmas.Equality.{same_numbers};

use crate::double::DoubleText;
use crate::increx::IncrexResult;
use crate::integer_reply::IntegerReplyOrNoOp;
use crate::role::{ReplicaInfo, Role};
use crate::value_type::ValueType;
use resp_value::{ExactClone, StructuralEq};

impl StructuralEq for DoubleText {
    ghost structural = { same_bytes };
}

impl StructuralEq for IntegerReplyOrNoOp {
    ghost use Rattle.std.proofs.Common.{rules};

    ghost structural = { Prim.search (rules, same_numbers) };
}

impl ExactClone for IntegerReplyOrNoOp {
    ghost use Rattle.std.proofs.Common.{rules};

    ghost exact = { record { same = Prim.search rules; succeeds = Prim.search rules } };
}

impl StructuralEq for ValueType {
    ghost use Rattle.resp_types.specs.contracts.value_type.ValueType.{enum};

    ghost structural = { same_enum enum _ (one_field same_bytes, tt) };
}

impl StructuralEq for IncrexResult {
    ghost use Rattle.resp_value.specs.contracts.equality.ValueStructuralEq.TheImpl.Laws as values;

    ghost structural = { λ a b h. let parts = both _ _ h in λ i. record {
      value = values.structural-law a.value b.value parts.0 i;
      actual_increment =
          values.structural-law a.actual_increment b.actual_increment parts.1 i;
    } };
}

impl StructuralEq for ReplicaInfo {
    ghost structural = { λ a b h. let p = both _ _ h in let q = both _ _ p.1 in λ i. record {
      ip = same_bytes a.ip b.ip p.0 i;
      port = same_numbers a.port b.port q.0 i;
      replication_offset =
          same_integers a.replication_offset b.replication_offset q.1 i;
    } };
}

impl StructuralEq for Role {
    ghost use Rattle.resp_types.specs.contracts.role.Role.{enum};
    ghost use Rattle.resp_types.specs.contracts.equality.ReplicaInfoStructuralEq.TheImpl.Laws as it;

    ghost structural = { same_enum enum _ (
      two_fields same_numbers (same_lists it.structural-law),
      (
        λ u v h. let p = both _ _ h in let q = both _ _ p.1 in let r = both _ _ q.1 in λ i. (
          same_bytes u.0 v.0 p.0 i,
          (
            same_numbers u.1.0 v.1.0 q.0 i,
            (same_bytes u.1.1.0 v.1.1.0 r.0 i, (same_numbers u.1.1.1.0 v.1.1.1.0 r.1 i, tt)),
          ),
        ),
        (one_field (same_lists same_bytes), tt),
      ),
    ) };
}
