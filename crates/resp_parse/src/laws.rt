//! The laws of the grammar: functions that do nothing, and whose clauses are proved.

ghost use Rattle.std.specs.Prelude.{ℕ, List, length, ◌*◌, ◌≤◌};
ghost use Rattle.resp_value.specs.declared.value.Value.{Value};
ghost use Rattle.resp_parse.specs.Built.{built};
ghost use Rattle.resp_parse.specs.Grammar.{WellFormed};
ghost use Rattle.resp_parse.specs.declared.limits.Limits.{Limits};
ghost use Rattle.resp_parse.specs.Limited.{Found, OneReading};
ghost use Rattle.resp_parse.specs.Laws.{Completion, LawOfPrefixes, MoreLevels};
ghost use Rattle.resp_parse.specs.Prefixes.{IsIncomplete};

/// Bytes have at most one reading, however they go on.
///
/// At each number of levels, of two prefixes of the same bytes that spell a value or end in a
/// fault, both are one prefix, and have the same value or the same fault.
pub fn law_of_prefixes()
    ensures law { (d : ℕ) (a x b y : List ℕ) → LawOfPrefixes d a x b y }
{}

/// Incomplete bytes never stay incomplete whatever follows: of any that are, at each number of
/// levels, some go on to where a fault shows. So a parser that waits for more waits for something.
pub fn law_of_completion()
    ensures law { (d : ℕ) (b : List ℕ) → IsIncomplete d b → Completion d b }
{}

/// A value is built of at most one third as many values as it has bytes, itself and the first
/// elements of pushes among them, whatever lengths its headers announce.
pub fn law_of_sizes()
    ensures law { (d : ℕ) (b : List ℕ) (v : Value) → WellFormed d b v → 3 * built v ≤ length b }
{}

/// What is read within a limit on the levels, and isn't too deep, is read the same within a higher.
///
/// Bytes that spell a value within the lower limit spell the same value within the higher one, and
/// bytes that end in a fault there, other than that of a value too deep, end in the same fault.
pub fn law_of_levels()
    ensures law { (d e : ℕ) (b : List ℕ) → d ≤ e → MoreLevels d e b }
{}

/// Within limits on depth and size too, bytes have one reading: a value stands at their start, or a
/// fault shows, or more are awaited; and only one of these, in one way.
pub fn law_of_limits()
    ensures some { (l : Limits) (b : List ℕ) → Found l b }
    ensures one { (l : Limits) (b : List ℕ) → OneReading l b }
{}
