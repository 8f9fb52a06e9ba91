//! Options of `EXPIRE`.

use crate::clock::{Time, in_seconds};
use crate::command::Reach;
use crate::integers::integer_of;
use crate::names::CommandName;
use crate::refusal::Refusal;
use std::vec;

/// The time in so many seconds, and to which keys these words give it; a word may stand twice.
///
/// What is wrong is refused in the order in which a server looks: an unknown option, options that
/// exclude each other, a time that is no integer, and one whose milliseconds aren't of 64 bits.
pub fn expire_options(
    seconds: &[u8],
    words: vec::IntoIter<Vec<u8>>,
) -> Result<(Time, Reach), Refusal> {
    let mut options = Options {
        nx: false,
        xx: false,
        gt: false,
        lt: false,
    };
    for word in words {
        options.read(word)?;
    }
    options.check()?;
    Ok((time_of(seconds)?, options.reach()))
}

/// The options that were read so far.
#[derive(Clone, Copy)]
struct Options {
    nx: bool,
    xx: bool,
    gt: bool,
    lt: bool,
}

impl Options {
    fn read(&mut self, word: Vec<u8>) -> Result<(), Refusal> {
        let name = word.as_slice();
        if name.eq_ignore_ascii_case(b"NX") {
            self.nx = true;
        } else if name.eq_ignore_ascii_case(b"XX") {
            self.xx = true;
        } else if name.eq_ignore_ascii_case(b"GT") {
            self.gt = true;
        } else if name.eq_ignore_ascii_case(b"LT") {
            self.lt = true;
        } else {
            return Err(Refusal::ExpireOption(word));
        }
        Ok(())
    }

    fn check(&self) -> Result<(), Refusal> {
        if self.nx && (self.xx || self.gt || self.lt) {
            Err(Refusal::NxWithOthers)
        } else if self.gt && self.lt {
            Err(Refusal::GtWithLt)
        } else {
            Ok(())
        }
    }

    fn reach(&self) -> Reach {
        if self.nx {
            Reach::WithoutTime
        } else if self.gt {
            Reach::WithEarlierTime
        } else if self.lt && self.xx {
            Reach::WithLaterTime
        } else if self.lt {
            Reach::WithLaterOrNoTime
        } else if self.xx {
            Reach::WithTime
        } else {
            Reach::EveryKey
        }
    }
}

fn time_of(number: &[u8]) -> Result<Time, Refusal> {
    let Some(seconds) = integer_of(number) else {
        return Err(Refusal::NotInteger);
    };
    in_seconds(seconds).ok_or(Refusal::ExpireTime(CommandName::Expire))
}
