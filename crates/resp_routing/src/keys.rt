//! The keys of a command.

ghost use Rattle.std.specs.Prelude.{◌≡◌, ◌≢◌, All, Ok, Err, IfOk, IfErr};
ghost use Rattle.std.specs.Prelude.{◌+◌, ◌<◌, ◌^◌, length, drop};
ghost use Rattle.std.specs.Str.{all_ascii_digits, str_eq_ignore_ascii_case};
ghost use Rattle.resp_routing.specs.Commands.{words};
ghost use Rattle.resp_routing.specs.Keys.{after_word, beginning, both, counted, every_second, found};
ghost use Rattle.resp_routing.specs.Keys.{fits, has_keys, is_number, keys_in, keys_of, named, number_of, numbered, word_text};
ghost use Rattle.resp_routing.specs.Keys.{Adds};

use crate::commands::{BeginSearch, CommandInfo, FindKeys, KeySpec, Keys, Keyword};
use crate::errors::RoutingError;
use crate::lookup::command_info;
use std::alloc::Global;

/// The positions of a command's keys among its arguments, where the name is at 0.
///
/// They are those of `COMMAND GETKEYS`, by the key specifications of [`COMMANDS`](crate::COMMANDS).
/// A command without keys has none, nor has one whose arguments are shard channels. Fails as
/// [`RoutingError`] says, but not with `CrossSlot`.
pub fn keys_of(alloc: Global, args: &[&[u8]]) -> Result<Vec<usize>, RoutingError>
    ensures found { IfOk result (λ positions. keys_of (words args.now) ≡ Ok positions.items) }
    ensures within { IfOk result (λ positions. All (λ place. place < length args.now)
        positions.items) }
    ensures refused { IfErr result (λ e. e ≢ RoutingError.OutOfMemory → keys_of (words args.now) ≡ Err e) }
{
    let Some(command) = command_info(args) else {
        return Err(RoutingError::UnknownCommand);
    };
    if !command.fits(args.len()) {
        return Err(RoutingError::WrongArity);
    }
    let mut positions = Vec::new(alloc);
    command.keys.push_keys(args, &mut positions)?;
    Ok(positions)
}

impl CommandInfo {
    /// Whether it may have so many arguments: that is asked of a command with keys alone.
    pub(crate) fn fits(&self, count: usize) -> bool
        ensures { result ≡ fits self.now count }
    {
        !self.keys.are_some() || self.arity.takes(count)
    }
}

impl Keys {
    /// Whether a command with such keys has some.
    fn are_some(&self) -> bool
        ensures { result ≡ has_keys self.now }
    {
        match self {
            Keys::NoKeys | Keys::Channels(_) => false,
            Keys::One(_) | Keys::Two(_, _) | Keys::Three(_, _, _) => true,
            Keys::Unspecified | Keys::OfSubcommand => true,
        }
    }

    /// Appends the positions of the keys.
    #[tactic(auto, unfolding(crate::specs::Keys::keys_in))]
    pub(crate) fn push_keys(
        &self,
        args: &[&[u8]],
        positions: &mut Vec<usize>,
    ) -> Result<(), RoutingError>
        ensures { Adds (keys_in self.now (words args.now)) positions.old.items positions.new.items
            result }
    {
        match self {
            Keys::NoKeys | Keys::Channels(_) => Ok(()),
            Keys::One(spec) => spec.push_keys(args, positions),
            Keys::Two(first, second) => push_both(first, second, args, positions),
            Keys::Three(first, second, third) => {
                push_both(first, second, args, positions)?;
                third.push_keys(args, positions)
            }
            Keys::Unspecified => Err(RoutingError::Unspecified),
            Keys::OfSubcommand => Err(RoutingError::UnknownCommand),
        }
    }
}

impl KeySpec {
    /// Appends the positions of the keys that it names.
    pub(crate) fn push_keys(
        &self,
        args: &[&[u8]],
        positions: &mut Vec<usize>,
    ) -> Result<(), RoutingError>
        ensures { Adds (named self.now (words args.now)) positions.old.items positions.new.items
            result }
    {
        match self.begin.place(args)? {
            Some(first) => self
                .find
                .push_keys(first, args_from(args, first), positions),
            None => Ok(()),
        }
    }
}

/// Appends the positions of the keys that the one names, and then those of the other.
fn push_both(
    first: &KeySpec,
    second: &KeySpec,
    args: &[&[u8]],
    positions: &mut Vec<usize>,
) -> Result<(), RoutingError>
    ensures { Adds (both (named first.now (words args.now)) (named second.now (words args.now)))
        positions.old.items positions.new.items result }
{
    first.push_keys(args, positions)?;
    second.push_keys(args, positions)
}

/// The arguments from this position on.
fn args_from<'a, 'b>(args: &'a [&'b [u8]], first: usize) -> &'a [&'b [u8]]
    ensures { words result.now ≡ drop first (words args.now) }
{
    if first < args.len() {
        &args[first..]
    } else {
        &[]
    }
}

impl BeginSearch {
    /// Where the keys begin, if they do.
    fn place(&self, args: &[&[u8]]) -> Result<Option<usize>, RoutingError>
        ensures { result ≡ beginning self.now (words args.now) }
    {
        match self {
            BeginSearch::Index(place) => Ok(Some(*place)),
            BeginSearch::Keyword(keyword, from) => match keyword.place_after(*from, args) {
                Some(place) => Ok(Some(place)),
                None => Err(RoutingError::MissingKeyword),
            },
            BeginSearch::AnyKeyword(keyword, from) => Ok(keyword.place_after(*from, args)),
        }
    }
}

impl Keyword {
    /// The position after the first argument that is this word, of those from this one on and but
    /// for the last.
    fn place_after(&self, from: usize, args: &[&[u8]]) -> Option<usize>
        ensures { result ≡ after_word self.now from (words args.now) }
    {
        for place in from..args.len().saturating_sub(1) {
            if self.is(args[place]) {
                return Some(place + 1);
            }
        }
        None
    }

    /// Whether the argument is this word.
    fn is(&self, arg: &[u8]) -> bool
        ensures { result ≡ str_eq_ignore_ascii_case (word_text self.now) arg.now }
    {
        self.text().eq_ignore_ascii_case(arg)
    }

    fn text(&self) -> &'static [u8]
        ensures { result.now ≡ word_text self.now }
    {
        match self {
            Keyword::Store => b"store",
            Keyword::StoreDist => b"storedist",
            Keyword::Streams => b"streams",
        }
    }
}

impl FindKeys {
    /// Appends the positions of the keys, where the rest of the arguments begins at this one.
    fn push_keys(
        &self,
        first: usize,
        rest: &[&[u8]],
        positions: &mut Vec<usize>,
    ) -> Result<(), RoutingError>
        requires { first + length rest.now < 2 ^ 64 }
        ensures { Adds (found self.now first (words rest.now)) positions.old.items
            positions.new.items result }
    {
        let left = rest.len();
        match self {
            FindKeys::First(count) => push_counted(first, *count, left, positions),
            FindKeys::AllBut(count) => {
                push_counted(first, left.saturating_sub(*count), left, positions)
            }
            FindKeys::FirstHalf => push_counted(first, left / 2, left, positions),
            FindKeys::EverySecond => push_every_second(first, left, positions),
            FindKeys::Counted(least) => match rest {
                [text, keys @ ..] => push_numbered(*least, text, first + 1, keys.len(), positions),
                [] => Err(RoutingError::TooFewArguments),
            },
        }
    }
}

/// Appends so many positions, the first one and those after it, where so many arguments are left.
fn push_counted(
    first: usize,
    count: usize,
    left: usize,
    positions: &mut Vec<usize>,
) -> Result<(), RoutingError>
    requires { first + left < 2 ^ 64 }
    ensures { Adds (counted first count left) positions.old.items positions.new.items result }
{
    if count == 0 || count > left {
        return Err(RoutingError::TooFewArguments);
    }
    for position in first..first + count {
        positions.push(position)?;
    }
    Ok(())
}

/// Appends every second position of the arguments that are left, from the first one on.
fn push_every_second(
    first: usize,
    left: usize,
    positions: &mut Vec<usize>,
) -> Result<(), RoutingError>
    requires { first + left < 2 ^ 64 }
    ensures { Adds (every_second first left) positions.old.items positions.new.items result }
{
    if left == 0 {
        return Err(RoutingError::TooFewArguments);
    }
    for position in first..first + left {
        if (position - first) % 2 == 0 {
            positions.push(position)?;
        }
    }
    Ok(())
}

/// Appends as many positions as the text says, at least so many, from the first one on.
fn push_numbered(
    least: usize,
    text: &[u8],
    first: usize,
    left: usize,
    positions: &mut Vec<usize>,
) -> Result<(), RoutingError>
    requires { first + left < 2 ^ 64 }
    ensures { Adds (numbered least first left (number_of text.now)) positions.old.items
        positions.new.items result }
{
    match number(text) {
        Some(0) if least == 0 => Ok(()),
        Some(count) if count >= least => push_counted(first, count, left, positions),
        _ => Err(RoutingError::BadKeyCount),
    }
}

/// The number that a text writes.
fn number(text: &[u8]) -> Option<usize>
    ensures { result ≡ number_of text.now }
{
    if !is_number(text) {
        return None;
    }
    let mut number: usize = 0;
    for digit in text {
        number = number * 10 + usize::from(*digit - b'0');
    }
    Some(number)
}

/// Whether a text is 1 to 18 digits, the first one not 0 unless it stands alone.
fn is_number(text: &[u8]) -> bool
    ensures { result ≡ is_number text.now }
{
    if text.is_empty() || text.len() > 18 || !are_digits(text) {
        return false;
    }
    text[0] != b'0' || text.len() == 1
}

/// Whether each byte is a digit.
fn are_digits(text: &[u8]) -> bool
    ensures { result ≡ all_ascii_digits text.now }
{
    for byte in text {
        if !byte.is_ascii_digit() {
            return false;
        }
    }
    true
}
