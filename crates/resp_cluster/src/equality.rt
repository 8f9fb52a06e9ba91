//! Types whose `==` is structural, and whose clone is the value.

ghost use Rattle.resp_cluster.specs.contracts.split.Merge as merge;
ghost use Rattle.resp_containers.specs.lemmas.Clones.{of_copies};
ghost use Rattle.resp_containers.specs.lemmas.Equality.{both, same_bytes, same_numbers};

use crate::node::NodeAddr;
use crate::split::Merge;
use resp_containers::{ExactClone, StructuralEq};

impl StructuralEq for NodeAddr {
    ghost structural = { λ a b h. let p = both _ _ h in λ i. record {
      host = same_bytes a.host b.host p.0 i;
      port = same_numbers a.port b.port p.1 i;
    } };
}

impl StructuralEq for Merge {
    ghost use denote.Enum.Bare.{same_true};

    ghost structural = { same_true merge.the_type tt };
}

impl ExactClone for Merge {
    ghost exact = { of_copies };
}
