ghost use Rattle.std.specs.Prelude.{◌≡◌, List, ℕ, IfOk, string_bytes};

use std::alloc::{AllocError, Global};
use std::fmt;
use std::fmt::InlineText;
use std::marker::Model;

/// How many bytes of a fixed text an error keeps.
const ROOM: usize = 64;

/// What an error says: a fixed text, or one that was made for it.
///
/// A fixed text of up to 64 bytes is kept whole, in the value itself, so an error takes no memory
/// and has no lifetime. Of a longer one the characters are kept that fit before three dots.
/// Contracts see only the bytes.
#[derive(Drop)]
pub struct Description {
    wording: Wording,
}

#[derive(Drop)]
enum Wording {
    Fixed(InlineText<ROOM>),
    Owned(String),
}

impl Model for Description {
    ghost use Rattle.std.specs.Prelude.{List, ℕ};
    ghost use Rattle.resp_errors.specs.Descriptions.{bytes_of};

    ghost Value = { List ℕ };

    ghost view = { λ d. bytes_of d.wording };
}

impl Description {
    /// The text.
    pub fn as_str(&self) -> &str
        ensures { result.now ≡ self.now }
    {
        match &self.wording {
            Wording::Fixed(text) => text.as_str(),
            Wording::Owned(text) => text.as_str(),
        }
    }

    /// An equal text; a fixed one takes no memory.
    pub fn try_clone(&self, alloc: Global) -> Result<Description, AllocError>
        ensures { IfOk result (λ d. d ≡ self.now) }
    {
        let wording = match &self.wording {
            Wording::Fixed(text) => Wording::Fixed(*text),
            Wording::Owned(text) => Wording::Owned(String::from_str(alloc, text.as_str())?),
        };
        Ok(Description { wording })
    }
}

impl From<&'static str> for Description {
    ghost use Rattle.std.specs.Prelude.{◌≡◌};
    ghost use Rattle.resp_errors.specs.Descriptions.{fitting};

    ghost from_gives = { λ s d. d ≡ fitting s.now };

    fn from(text: &'static str) -> Description {
        Description {
            wording: Wording::Fixed(InlineText::new().and_str(text, ROOM)),
        }
    }
}

impl From<String> for Description {
    ghost use Rattle.std.specs.Prelude.{◌≡◌, string_bytes};

    ghost from_gives = { λ s d. d ≡ string_bytes s };

    fn from(text: String) -> Description {
        Description {
            wording: Wording::Owned(text),
        }
    }
}

impl fmt::Debug for Description {
    fn fmt<W: fmt::Write>(&self, f: &mut fmt::Formatter<W>) -> fmt::Result {
        let text = self.as_str();
        write!(f, "{text:?}")
    }
}

impl fmt::Display for Description {
    ghost use Rattle.std.specs.Prelude.{Some};

    ghost output = { λ d. Some d };

    fn fmt<W: fmt::Write>(&self, f: &mut fmt::Formatter<W>) -> fmt::Result {
        let text = self.as_str();
        write!(f, "{text}")
    }
}

impl PartialEq for Description {
    ghost use Rattle.std.specs.Prelude.{nat_eq};
    ghost use Rattle.std.specs.Cmp.{partial_equiv_from_equiv};
    ghost use Rattle.std.specs.Cmp.Lexicographic.{pointwise};
    ghost use Rattle.std.proofs.lemmas.Cmp.{nat_list_eq_equiv};

    ghost eq = { pointwise nat_eq };

    ghost laws = { partial_equiv_from_equiv nat_list_eq_equiv };

    fn eq(&self, other: &Description) -> bool {
        self.as_str() == other.as_str()
    }
}

impl Eq for Description {
    ghost use Rattle.std.proofs.lemmas.Cmp.{nat_list_eq_equiv};

    ghost laws = { nat_list_eq_equiv };
}
