//! Options of `SET`.

use crate::clock::{Time, at_second, in_milliseconds, in_seconds};
use crate::command::{Condition, Expiry, SetOptions};
use crate::integers::integer_of;
use crate::names::CommandName;
use crate::refusal::Refusal;
use std::vec;

/// The options of these words; a word may stand twice, but those that differ on one thing may not
/// stand together.
pub fn set_options(words: vec::IntoIter<Vec<u8>>) -> Result<SetOptions, Refusal> {
    let mut reading = Reading::new();
    for word in words {
        reading.read(word)?;
    }
    reading.options()
}

/// When the key expires.
#[derive(Clone, Copy, PartialEq, Eq)]
enum Lifetime {
    Seconds,
    Milliseconds,
    TimeInSeconds,
    TimeInMilliseconds,
    Kept,
}

/// The options that were read so far.
#[derive(Drop)]
struct Reading {
    options: SetOptions,
    lifetime: Option<Lifetime>,
    /// The number of the lifetime.
    number: Option<Vec<u8>>,
    /// Whether the next word is the number.
    awaits_number: bool,
}

impl Reading {
    fn new() -> Reading {
        Reading {
            options: SetOptions {
                condition: Condition::Always,
                get: false,
                expiry: Expiry::Never,
            },
            lifetime: None,
            number: None,
            awaits_number: false,
        }
    }

    /// Reads the next word.
    fn read(&mut self, word: Vec<u8>) -> Result<(), Refusal> {
        if self.awaits_number {
            self.awaits_number = false;
            self.number = Some(word);
            return Ok(());
        }
        if let Some(lifetime) = lifetime_named(word.as_slice()) {
            return self.expire(lifetime);
        }
        if word.as_slice().eq_ignore_ascii_case(b"GET") {
            self.options.get = true;
            return Ok(());
        }
        self.set_only(condition_named(word.as_slice())?)
    }

    fn expire(&mut self, lifetime: Lifetime) -> Result<(), Refusal> {
        if self.lifetime.is_some_and(|other| other != lifetime) {
            return Err(Refusal::Syntax);
        }
        self.lifetime = Some(lifetime);
        self.awaits_number = lifetime != Lifetime::Kept;
        Ok(())
    }

    fn set_only(&mut self, condition: Condition) -> Result<(), Refusal> {
        match (self.options.condition, condition) {
            (Condition::IfAbsent, Condition::IfPresent)
            | (Condition::IfPresent, Condition::IfAbsent) => Err(Refusal::Syntax),
            _ => {
                self.options.condition = condition;
                Ok(())
            }
        }
    }

    /// The options, after the last word.
    fn options(self) -> Result<SetOptions, Refusal> {
        if self.awaits_number {
            return Err(Refusal::Syntax);
        }
        let mut options = self.options;
        if let Some(lifetime) = self.lifetime {
            options.expiry = expiry_of(lifetime, self.number)?;
        }
        Ok(options)
    }
}

fn lifetime_named(word: &[u8]) -> Option<Lifetime> {
    if word.eq_ignore_ascii_case(b"EX") {
        Some(Lifetime::Seconds)
    } else if word.eq_ignore_ascii_case(b"PX") {
        Some(Lifetime::Milliseconds)
    } else if word.eq_ignore_ascii_case(b"EXAT") {
        Some(Lifetime::TimeInSeconds)
    } else if word.eq_ignore_ascii_case(b"PXAT") {
        Some(Lifetime::TimeInMilliseconds)
    } else if word.eq_ignore_ascii_case(b"KEEPTTL") {
        Some(Lifetime::Kept)
    } else {
        None
    }
}

fn condition_named(word: &[u8]) -> Result<Condition, Refusal> {
    if word.eq_ignore_ascii_case(b"NX") {
        Ok(Condition::IfAbsent)
    } else if word.eq_ignore_ascii_case(b"XX") {
        Ok(Condition::IfPresent)
    } else {
        Err(Refusal::Syntax)
    }
}

/// The lifetime, of this number if it has one.
fn expiry_of(lifetime: Lifetime, number: Option<Vec<u8>>) -> Result<Expiry, Refusal> {
    match number {
        Some(number) => Ok(Expiry::At(time_of(lifetime, number.as_slice())?)),
        None => Ok(Expiry::Kept),
    }
}

/// A lifetime has a positive number, and its time is of 64 bits.
fn time_of(lifetime: Lifetime, number: &[u8]) -> Result<Time, Refusal> {
    let Some(number) = integer_of(number) else {
        return Err(Refusal::NotInteger);
    };
    if number <= 0 {
        return Err(Refusal::ExpireTime(CommandName::Set));
    }
    let time = match lifetime {
        Lifetime::Seconds => in_seconds(number),
        Lifetime::Milliseconds => in_milliseconds(number),
        Lifetime::TimeInSeconds => at_second(number),
        _ => Some(number),
    };
    time.ok_or(Refusal::ExpireTime(CommandName::Set))
}
