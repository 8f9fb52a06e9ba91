//! Types whose `==` is structural, or whose clone is the value.

ghost use Rattle.resp_connect.specs.contracts.greeting.GreetingStep as step;
ghost use Rattle.resp_connect.specs.contracts.protocol.ProtocolChoice as choice;
ghost use Rattle.resp_containers.specs.lemmas.Clones.{of_copies};
ghost use Rattle.resp_containers.specs.lemmas.Equality.{one_field, two_fields, same_bytes};
ghost use Rattle.resp_containers.specs.lemmas.Equality.{same_enum, same_numbers};

use crate::address::ConnectionAddr;
use crate::greeting::GreetingStep;
use crate::protocol::ProtocolChoice;
use resp_containers::{ExactClone, StructuralEq};

impl StructuralEq for ConnectionAddr {
    ghost use Rattle.resp_connect.specs.contracts.address.ConnectionAddr.{enum};

    ghost structural = { same_enum enum _
        (two_fields same_bytes same_numbers, (one_field same_bytes, tt)) };
}

impl StructuralEq for ProtocolChoice {
    ghost use denote.Enum.Bare.{same_true};

    ghost structural = { same_true choice.the_type tt };
}

impl ExactClone for ProtocolChoice {
    ghost exact = { of_copies };
}

impl StructuralEq for GreetingStep {
    ghost use denote.Enum.Bare.{same_true};

    ghost structural = { same_true step.the_type tt };
}

impl ExactClone for GreetingStep {
    ghost exact = { of_copies };
}
