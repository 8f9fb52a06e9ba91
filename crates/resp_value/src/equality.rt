//! Replies, and names in them, whose `==` is structural.

ghost use Rattle.resp_containers.specs.lemmas.Equality.{both, one_field, same_bytes, same_enum};
ghost use Rattle.resp_containers.specs.lemmas.Equality.{same_lists};
ghost use Rattle.resp_errors.specs.contracts.equality.ServerErrorStructuralEq.TheImpl.Laws as error;
ghost use Rattle.resp_value.specs.contracts.names.PushKind as kind;
ghost use Rattle.resp_value.specs.contracts.names.VerbatimFormat as format;

use crate::names::{PushKind, VerbatimFormat};
use crate::value::{PushInfo, Value};
use resp_containers::StructuralEq;
use resp_errors::ServerError;

impl StructuralEq for PushKind {
    ghost structural = { same_enum kind.enum _ (one_field same_bytes, tt) };
}

impl StructuralEq for VerbatimFormat {
    ghost structural = { same_enum format.enum _ (one_field same_bytes, tt) };
}

impl StructuralEq for Value {
    ghost use Rattle.std.proofs.Common.{rules};
    ghost use Rattle.resp_value.specs.contracts.value.ValuePartialEq.TheImpl.Laws as own;
    ghost use Rattle.resp_value.specs.lemmas.Equality.{same_values};

    ghost structural = { same_values ⟦<Value as PartialEq>⟧.eq ⟦<ServerError as PartialEq>⟧.eq
        ⟦<VerbatimFormat as PartialEq>⟧.eq ⟦<PushKind as PartialEq>⟧.eq error.structural-law
        (same_enum format.enum _ (one_field same_bytes, tt))
        (same_enum kind.enum _ (one_field same_bytes, tt)) (Prim.search (rules, own.is)) };
}

impl StructuralEq for PushInfo {
    ghost use Rattle.resp_value.specs.contracts.equality.ValueStructuralEq.TheImpl.Laws as values;

    ghost structural = { λ a b h. let parts = both _ _ h in λ i. record {
      kind = same_enum kind.enum _ (one_field same_bytes, tt) a.kind b.kind parts.0 i;
      payload = same_lists values.structural-law a.payload b.payload parts.1 i;
    } };
}
