//! Truth values, texts, replies as they are, and `()`.

use crate::single_valued::{SingleKey, SingleValued};
use resp_value::{Text, Value};

impl SingleValued for bool {
    ghost use Rattle.std.specs.Prelude.{Bool};
    ghost use Rattle.resp_types.specs.lemmas.Scalars.{one_truth};

    ghost Seen = { Bool };

    ghost seen = { λ x. x };

    ghost single = { one_truth };
}

impl SingleKey for bool {
    ghost use Rattle.resp_types.specs.lemmas.Scalars.{goes_by_itself};

    ghost goes_by_seen = { goes_by_itself ⟦<bool as Ord>⟧.cmp };
}

impl SingleValued for String {
    ghost use Rattle.std.specs.Prelude.{ℕ, List, string_bytes};
    ghost use Rattle.resp_types.specs.lemmas.Scalars.{one_string};

    ghost Seen = { List ℕ };

    ghost seen = { string_bytes };

    ghost single = { one_string };
}

impl SingleKey for String {
    ghost use Rattle.std.specs.Prelude.{string_bytes};
    ghost use Rattle.std.specs.Ordering.{nat_cmp};
    ghost use Rattle.std.specs.Cmp.Lexicographic.{slice_cmp};
    ghost use Rattle.std.proofs.Common.{ap};

    ghost goes_by_seen = { λ x y z same. ap (slice_cmp nat_cmp (string_bytes z)) same };
}

impl SingleValued for Text {
    ghost use Rattle.std.specs.Prelude.{ℕ, List};
    ghost use Rattle.resp_types.specs.lemmas.Scalars.{one_text};

    ghost Seen = { List ℕ };

    ghost seen = { λ x. x };

    ghost single = { one_text };
}

impl SingleValued for Value {
    ghost use Rattle.std.proofs.Common.{sym, ◌∙◌};
    ghost use Rattle.resp_value.specs.declared.value.Value.{Value};

    ghost Seen = { Value };

    ghost seen = { λ x. x };

    ghost single = { λ reply x y h k. h ∙ sym k };
}

impl SingleValued for () {
    ghost use Rattle.std.proofs.Common.{refl};

    ghost Seen = { Unit {0} };

    ghost seen = { λ x. x };

    ghost single = { λ reply x y h k. refl };
}
