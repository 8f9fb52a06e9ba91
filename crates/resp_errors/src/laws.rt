//! Laws of errors: functions that do nothing, and whose clauses are proved.

ghost use Rattle.std.specs.Prelude.{◌≡◌, ◌↔◌, ℕ, List, IsTrue};
ghost use Rattle.resp_errors.specs.Equality.{without_words};
ghost use Rattle.resp_errors.specs.ServerErrors.{server_error, text_of};

use crate::redis_error::RedisError;

/// Two errors are equal exactly where they have one form and all of their parts are equal; of a
/// refusal of the library's own the kind alone counts, and not what it says.
///
/// So two faults of a device are equal by their `IoKind`, two parsing errors by their text or their
/// fault, two lists of server errors by their positions, codes and details.
pub fn law_of_equal_errors()
    ensures { (a b : RedisError) → IsTrue (⟦<RedisError as PartialEq>⟧.eq a b)
        ↔ (without_words a ≡ without_words b) }
{}

/// The code and the detail of the error that a text is read as join to that text, with a space
/// between them where there is a detail: of every error that a server answers, nothing is lost.
#[tactic(auto, using(crate::proofs::ErrorTexts::joined))]
pub fn law_of_error_texts()
    ensures joins { (text : List ℕ) → text_of (server_error text) ≡ text }
{}
