//! Where something was found last.

/// How many guesses there are.
const GUESSES: usize = 1024;

/// For each key the place in a list that was found for it last, 0 at first: where it is looked for
/// before the others. Keys share guesses, so that one may be wrong, or past the list's end.
#[derive(Drop)]
pub(crate) struct Guesses {
    places: [u16; GUESSES],
}

impl Guesses {
    /// None was found yet.
    pub(crate) fn new() -> Guesses {
        Guesses {
            places: [0; GUESSES],
        }
    }

    /// Where the place for this key is looked for first.
    pub(crate) fn of(&self, key: usize) -> usize {
        usize::from(self.places[key % GUESSES])
    }

    /// Keeps the place that was found for this key. One past 65535 is kept as 0.
    pub(crate) fn set(&mut self, key: usize, place: usize) {
        self.places[key % GUESSES] = u16::try_from(place).unwrap_or(0);
    }
}
