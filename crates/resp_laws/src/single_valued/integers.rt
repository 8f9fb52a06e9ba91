//! Integers.
//!
//! Each type has its impl written out, since a macro of a repository may not write impls.

use crate::single_valued::{SingleKey, SingleValued};

impl SingleValued for i8 {
    ghost use Rattle.std.specs.Prelude.{ℤ};
    ghost use Rattle.std.specs.Int.{w8};
    ghost use Rattle.resp_types.specs.lemmas.Scalars.{one_signed};

    ghost Seen = { ℤ };

    ghost seen = { λ x. x };

    ghost single = { one_signed w8 };
}

impl SingleKey for i8 {
    ghost use Rattle.resp_types.specs.lemmas.Scalars.{goes_by_itself};

    ghost goes_by_seen = { goes_by_itself ⟦<i8 as Ord>⟧.cmp };
}

impl SingleValued for i16 {
    ghost use Rattle.std.specs.Prelude.{ℤ};
    ghost use Rattle.std.specs.Int.{w16};
    ghost use Rattle.resp_types.specs.lemmas.Scalars.{one_signed};

    ghost Seen = { ℤ };

    ghost seen = { λ x. x };

    ghost single = { one_signed w16 };
}

impl SingleKey for i16 {
    ghost use Rattle.resp_types.specs.lemmas.Scalars.{goes_by_itself};

    ghost goes_by_seen = { goes_by_itself ⟦<i16 as Ord>⟧.cmp };
}

impl SingleValued for i32 {
    ghost use Rattle.std.specs.Prelude.{ℤ};
    ghost use Rattle.std.specs.Int.{w32};
    ghost use Rattle.resp_types.specs.lemmas.Scalars.{one_signed};

    ghost Seen = { ℤ };

    ghost seen = { λ x. x };

    ghost single = { one_signed w32 };
}

impl SingleKey for i32 {
    ghost use Rattle.resp_types.specs.lemmas.Scalars.{goes_by_itself};

    ghost goes_by_seen = { goes_by_itself ⟦<i32 as Ord>⟧.cmp };
}

impl SingleValued for i64 {
    ghost use Rattle.std.specs.Prelude.{ℤ};
    ghost use Rattle.std.specs.Int.{w64};
    ghost use Rattle.resp_types.specs.lemmas.Scalars.{one_signed};

    ghost Seen = { ℤ };

    ghost seen = { λ x. x };

    ghost single = { one_signed w64 };
}

impl SingleKey for i64 {
    ghost use Rattle.resp_types.specs.lemmas.Scalars.{goes_by_itself};

    ghost goes_by_seen = { goes_by_itself ⟦<i64 as Ord>⟧.cmp };
}

impl SingleValued for i128 {
    ghost use Rattle.std.specs.Prelude.{ℤ};
    ghost use Rattle.std.specs.Int.{w128};
    ghost use Rattle.resp_types.specs.lemmas.Scalars.{one_signed};

    ghost Seen = { ℤ };

    ghost seen = { λ x. x };

    ghost single = { one_signed w128 };
}

impl SingleKey for i128 {
    ghost use Rattle.resp_types.specs.lemmas.Scalars.{goes_by_itself};

    ghost goes_by_seen = { goes_by_itself ⟦<i128 as Ord>⟧.cmp };
}

impl SingleValued for isize {
    ghost use Rattle.std.specs.Prelude.{ℤ};
    ghost use Rattle.std.specs.Int.{w64};
    ghost use Rattle.resp_types.specs.lemmas.Scalars.{one_signed};

    ghost Seen = { ℤ };

    ghost seen = { λ x. x };

    ghost single = { one_signed w64 };
}

impl SingleKey for isize {
    ghost use Rattle.resp_types.specs.lemmas.Scalars.{goes_by_itself};

    ghost goes_by_seen = { goes_by_itself ⟦<isize as Ord>⟧.cmp };
}

impl SingleValued for u8 {
    ghost use Rattle.std.specs.Prelude.{ℕ};
    ghost use Rattle.resp_types.specs.lemmas.Scalars.{one_unsigned};

    ghost Seen = { ℕ };

    ghost seen = { λ x. x };

    ghost single = { one_unsigned 8 };
}

impl SingleKey for u8 {
    ghost use Rattle.resp_types.specs.lemmas.Scalars.{goes_by_itself};

    ghost goes_by_seen = { goes_by_itself ⟦<u8 as Ord>⟧.cmp };
}

impl SingleValued for u16 {
    ghost use Rattle.std.specs.Prelude.{ℕ};
    ghost use Rattle.resp_types.specs.lemmas.Scalars.{one_unsigned};

    ghost Seen = { ℕ };

    ghost seen = { λ x. x };

    ghost single = { one_unsigned 16 };
}

impl SingleKey for u16 {
    ghost use Rattle.resp_types.specs.lemmas.Scalars.{goes_by_itself};

    ghost goes_by_seen = { goes_by_itself ⟦<u16 as Ord>⟧.cmp };
}

impl SingleValued for u32 {
    ghost use Rattle.std.specs.Prelude.{ℕ};
    ghost use Rattle.resp_types.specs.lemmas.Scalars.{one_unsigned};

    ghost Seen = { ℕ };

    ghost seen = { λ x. x };

    ghost single = { one_unsigned 32 };
}

impl SingleKey for u32 {
    ghost use Rattle.resp_types.specs.lemmas.Scalars.{goes_by_itself};

    ghost goes_by_seen = { goes_by_itself ⟦<u32 as Ord>⟧.cmp };
}

impl SingleValued for u64 {
    ghost use Rattle.std.specs.Prelude.{ℕ};
    ghost use Rattle.resp_types.specs.lemmas.Scalars.{one_unsigned};

    ghost Seen = { ℕ };

    ghost seen = { λ x. x };

    ghost single = { one_unsigned 64 };
}

impl SingleKey for u64 {
    ghost use Rattle.resp_types.specs.lemmas.Scalars.{goes_by_itself};

    ghost goes_by_seen = { goes_by_itself ⟦<u64 as Ord>⟧.cmp };
}

impl SingleValued for u128 {
    ghost use Rattle.std.specs.Prelude.{ℕ};
    ghost use Rattle.resp_types.specs.lemmas.Scalars.{one_unsigned};

    ghost Seen = { ℕ };

    ghost seen = { λ x. x };

    ghost single = { one_unsigned 128 };
}

impl SingleKey for u128 {
    ghost use Rattle.resp_types.specs.lemmas.Scalars.{goes_by_itself};

    ghost goes_by_seen = { goes_by_itself ⟦<u128 as Ord>⟧.cmp };
}

impl SingleValued for usize {
    ghost use Rattle.std.specs.Prelude.{ℕ};
    ghost use Rattle.resp_types.specs.lemmas.Scalars.{one_unsigned};

    ghost Seen = { ℕ };

    ghost seen = { λ x. x };

    ghost single = { one_unsigned 64 };
}

impl SingleKey for usize {
    ghost use Rattle.resp_types.specs.lemmas.Scalars.{goes_by_itself};

    ghost goes_by_seen = { goes_by_itself ⟦<usize as Ord>⟧.cmp };
}
