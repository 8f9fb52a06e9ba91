//! Iterators over the arguments of a command.

ghost use Rattle.std.specs.Prelude.{◌≡◌, slice_get};

use crate::encoded_args::EncodedArgs;

/// An argument of a command, as [`Cmd::args_iter`](crate::Cmd::args_iter) shows it.
#[derive(Clone, Debug, PartialEq, Eq, Drop)]
pub enum Arg<D> {
    /// An ordinary argument.
    Simple(D),
    /// A cursor argument, made by [`Cmd::cursor_arg`](crate::Cmd::cursor_arg): it is sent as the
    /// command's latest cursor, in decimal.
    Cursor,
}

/// The arguments of a command, in order; made by [`Cmd::args_iter`](crate::Cmd::args_iter).
#[derive(Clone, Drop)]
pub struct ArgsIter<'a> {
    encoded_args: &'a EncodedArgs,
    taken: usize,
    cursors: &'a [usize],
    passed: usize,
}

impl<'a> ArgsIter<'a> {
    ghost use Rattle.std.specs.Prelude.{◌+◌, ◌<◌, ◌∷◌, [], ℕ, List, IsTrue, not, length};
    ghost use Rattle.std.specs.Prelude.{None, Some};
    ghost use Rattle.resp_command.specs.declared.args_iter.Arg.TheVariants.{Cursor, Simple};
    ghost use Rattle.resp_command.specs.Pieces.{interleaved};
    ghost use Rattle.resp_command.specs.ShownArgs.{args_left};

    /// These arguments, and cursors at these places.
    pub(crate) fn over(encoded_args: &'a EncodedArgs, cursors: &'a [usize]) -> ArgsIter<'a>
        ensures { args_left result ≡ interleaved 0 cursors.now encoded_args.now }
    {
        ArgsIter {
            encoded_args,
            taken: 0,
            cursors,
            passed: 0,
        }
    }

    /// Whether a cursor comes next.
    fn is_at_cursor(&self) -> bool
        ensures cursor { IsTrue result → (self.now.passed < length self.now.cursors.now)
            × (args_left self.now
            ≡ Cursor ∷ args_left (record self.now { passed = self.now.passed + 1 })) }
        ensures simple { IsTrue (not result) → (arg : List ℕ)
            → slice_get self.now.encoded_args.now self.now.taken ≡ Some arg → args_left self.now
            ≡ Simple arg ∷ args_left (record self.now { taken = self.now.taken + 1 }) }
        ensures nothing { IsTrue (not result)
            → slice_get self.now.encoded_args.now self.now.taken ≡ None → args_left self.now ≡ [] }
    {
        let has_arg = self.taken < self.encoded_args.len();
        match place_at(self.cursors, self.passed) {
            Some(place) => !has_arg || place.saturating_sub(self.passed) <= self.taken,
            None => false,
        }
    }
}

/// The place at this index, if there is one.
fn place_at(places: &[usize], index: usize) -> Option<usize>
    ensures { result ≡ slice_get places.now index }
{
    if index < places.len() {
        Some(places[index])
    } else {
        None
    }
}

impl<'a> Iterator for ArgsIter<'a> {
    ghost use Rattle.std.specs.Prelude.{◌≡◌, length, IfSome, Some};
    ghost use Rattle.std.specs.Iterator.{YieldsFirstBy, item_count, UpTo, at_most};
    ghost use Rattle.std.specs.Iterator.SizeHint.{IsWithinCount};
    ghost use Rattle.resp_command.specs.ShownArgs.{args_left, referent};

    type Item = Arg<&'a [u8]>;

    ghost next_gives = { YieldsFirstBy referent args_left };

    ghost remaining = { item_count args_left };

    fn next(&mut self) -> Option<Arg<&'a [u8]>> {
        if self.is_at_cursor() {
            self.passed += 1;
            return Some(Arg::Cursor);
        }
        let arg = self.encoded_args.get(self.taken)?;
        self.taken += 1;
        Some(Arg::Simple(arg))
    }

    /// Exactly as many arguments as there are left.
    #[tactic(auto, using(crate::proofs::PiecesAgree::left_counted))]
    fn size_hint(&self) -> (usize, Option<usize>)
        ensures lower { IsWithinCount result.0 (at_most (length (args_left self.now))) }
        ensures upper { IfSome result.1 (UpTo (at_most (length (args_left self.now)))) }
        ensures least { result.0 ≡ length (args_left self.now) }
        ensures most { result.1 ≡ Some (length (args_left self.now)) }
    {
        let left = self.encoded_args.len().saturating_sub(self.taken)
            + self.cursors.len().saturating_sub(self.passed);
        (left, Some(left))
    }
}

impl<'a> ExactSizeIterator for ArgsIter<'a> {
    #[tactic(auto, using(crate::proofs::PiecesAgree::left_counted))]
    fn len(&self) -> usize {
        self.encoded_args.len().saturating_sub(self.taken)
            + self.cursors.len().saturating_sub(self.passed)
    }
}
