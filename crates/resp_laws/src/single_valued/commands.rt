//! Types of single commands.

use crate::single_valued::SingleValued;
use resp_types::{IncrexResult, InfoDict, IntegerReplyOrNoOp, ReplicaInfo, Role, ValueType};

impl SingleValued for IncrexResult {
    ghost use Rattle.resp_types.specs.declared.increx.IncrexResult.{IncrexResult};
    ghost use Rattle.resp_laws.specs.lemmas.Commands.{one_increx};

    ghost Seen = { IncrexResult };

    ghost seen = { λ x. x };

    ghost single = { one_increx };
}

impl SingleValued for InfoDict {
    ghost use Rattle.std.specs.Prelude.{ℕ, List, map};
    ghost use Rattle.resp_value.specs.declared.value.Value.{Value};
    ghost use Rattle.resp_types.specs.Info.{entries_of};
    ghost use Rattle.resp_laws.specs.lemmas.Commands.{entry_seen, one_info};

    ghost Seen = { List (List ℕ × Value) };

    ghost seen = { λ dict. map entry_seen (entries_of dict) };

    ghost single = { one_info };
}

impl SingleValued for IntegerReplyOrNoOp {
    ghost use Rattle.resp_types.specs.declared.integer_reply.IntegerReplyOrNoOp as type;
    ghost use Rattle.resp_laws.specs.lemmas.Commands.{one_integer_reply};

    ghost Seen = { type.IntegerReplyOrNoOp };

    ghost seen = { λ x. x };

    ghost single = { one_integer_reply };
}

impl SingleValued for ReplicaInfo {
    ghost use Rattle.resp_types.specs.declared.role.ReplicaInfo.{ReplicaInfo};
    ghost use Rattle.resp_laws.specs.lemmas.Commands.{one_replica};

    ghost Seen = { ReplicaInfo };

    ghost seen = { λ x. x };

    ghost single = { one_replica };
}

impl SingleValued for Role {
    ghost use Rattle.resp_types.specs.declared.role.Role.{Role};
    ghost use Rattle.resp_laws.specs.lemmas.Commands.{one_role};

    ghost Seen = { Role };

    ghost seen = { λ x. x };

    ghost single = { one_role };
}

impl SingleValued for ValueType {
    ghost use Rattle.resp_types.specs.declared.value_type.ValueType.{ValueType};
    ghost use Rattle.resp_laws.specs.lemmas.Commands.{one_value_type};

    ghost Seen = { ValueType };

    ghost seen = { λ x. x };

    ghost single = { one_value_type };
}
