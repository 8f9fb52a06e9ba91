//! The fields of a reply.

use crate::single_valued::SingleValued;
use resp_types::Fields;

impl SingleValued for Fields {
    ghost use Rattle.resp_types.specs.Fields.{NamedValues};
    ghost use Rattle.resp_types.specs.lemmas.OneReply.{same_fields};

    ghost Seen = { NamedValues };

    ghost seen = { λ fields. fields };

    ghost single = { same_fields };
}
