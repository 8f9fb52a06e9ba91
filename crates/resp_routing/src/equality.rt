//! Types whose `==` is structural, and whose clone is the value.

ghost use Rattle.resp_routing.specs.contracts.commands.Access as access;
ghost use Rattle.resp_routing.specs.contracts.commands.RequestPolicy as request;
ghost use Rattle.resp_routing.specs.contracts.commands.ResponsePolicy as response;
ghost use Rattle.resp_containers.specs.lemmas.Clones.{of_copies};

use crate::commands::{Access, RequestPolicy, ResponsePolicy};
use resp_containers::{ExactClone, StructuralEq};

impl StructuralEq for Access {
    ghost use denote.Enum.Bare.{same_true};

    ghost structural = { same_true access.the_type tt };
}

impl ExactClone for Access {
    ghost exact = { of_copies };
}

impl StructuralEq for RequestPolicy {
    ghost use denote.Enum.Bare.{same_true};

    ghost structural = { same_true request.the_type tt };
}

impl ExactClone for RequestPolicy {
    ghost exact = { of_copies };
}

impl StructuralEq for ResponsePolicy {
    ghost use denote.Enum.Bare.{same_true};

    ghost structural = { same_true response.the_type tt };
}

impl ExactClone for ResponsePolicy {
    ghost exact = { of_copies };
}
