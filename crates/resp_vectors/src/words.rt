//! The words of a row, with their escapes undone.

use crate::rows::{malformed, number_of};
use resp_core::RedisResult;
use std::alloc::Global;

/// Where the reader of a line stands.
#[derive(Clone, Copy)]
enum Place {
    /// Before a part of a word; in a word, if it has a part already.
    Between,
    /// In a part without quotes.
    Bare,
    /// In quotes.
    Quoted,
    /// After a backslash.
    Escaped,
    /// After `\x`.
    High,
    /// After `\x` and this digit.
    Low(u8),
}

/// What was read of a line.
#[derive(Drop)]
struct Line {
    words: Vec<Vec<u8>>,
    /// The parts of the word that is being read, if one is.
    word: Vec<u8>,
    in_word: bool,
    /// The part that is being read, and how often it stands in the word.
    part: Vec<u8>,
    times: u64,
    place: Place,
}

/// The words of a line.
pub fn words_of(alloc: Global, line: &[u8]) -> RedisResult<Vec<Vec<u8>>> {
    let mut read = Line {
        words: Vec::new(alloc),
        word: Vec::new(alloc),
        in_word: false,
        part: Vec::new(alloc),
        times: 1,
        place: Place::Between,
    };
    for byte in line {
        read.take(alloc, *byte)?;
    }
    read.take(alloc, b' ')?;
    match read.place {
        Place::Between => Ok(read.words),
        _ => Err(malformed()),
    }
}

impl Line {
    fn take(&mut self, alloc: Global, byte: u8) -> RedisResult<()> {
        match self.place {
            Place::Between | Place::Bare => self.outside(alloc, byte),
            Place::Quoted => self.quoted(byte),
            Place::Escaped => self.escaped(byte),
            Place::High => self.high(byte),
            Place::Low(high) => self.low(high, byte),
        }
    }

    fn outside(&mut self, alloc: Global, byte: u8) -> RedisResult<()> {
        match byte {
            b' ' => self.end_word(alloc),
            b'"' => self.open_quotes(),
            _ => {
                self.in_word = true;
                self.place = Place::Bare;
                self.part.push(byte)?;
                Ok(())
            }
        }
    }

    /// Ends the word, if there is one.
    fn end_word(&mut self, alloc: Global) -> RedisResult<()> {
        self.end_part()?;
        if self.in_word {
            let word = std::mem::replace(&mut self.word, Vec::new(alloc));
            self.words.push(word)?;
        }
        self.in_word = false;
        Ok(())
    }

    /// Appends the part to the word.
    fn end_part(&mut self) -> RedisResult<()> {
        for _ in 0..self.times {
            self.word.extend_from_slice(self.part.as_slice())?;
        }
        self.part.clear();
        self.times = 1;
        self.place = Place::Between;
        Ok(())
    }

    /// Begins a part in quotes; what stands before them says how often it is wanted.
    fn open_quotes(&mut self) -> RedisResult<()> {
        if let Some((last, digits)) = self.part.as_slice().split_last() {
            if *last != b'*' {
                return Err(malformed());
            }
            self.times = number_of(digits)?;
        }
        self.part.clear();
        self.in_word = true;
        self.place = Place::Quoted;
        Ok(())
    }

    fn quoted(&mut self, byte: u8) -> RedisResult<()> {
        match byte {
            b'"' => self.end_part(),
            b'\\' => {
                self.place = Place::Escaped;
                Ok(())
            }
            _ => Ok(self.part.push(byte)?),
        }
    }

    fn escaped(&mut self, byte: u8) -> RedisResult<()> {
        self.place = Place::Quoted;
        match byte {
            b'r' => Ok(self.part.push(b'\r')?),
            b'n' => Ok(self.part.push(b'\n')?),
            b't' => Ok(self.part.push(b'\t')?),
            b'"' | b'\\' => Ok(self.part.push(byte)?),
            b'x' => {
                self.place = Place::High;
                Ok(())
            }
            _ => Err(malformed()),
        }
    }

    fn high(&mut self, byte: u8) -> RedisResult<()> {
        self.place = Place::Low(digit_of(byte)?);
        Ok(())
    }

    fn low(&mut self, high: u8, byte: u8) -> RedisResult<()> {
        self.place = Place::Quoted;
        let low = digit_of(byte)?;
        self.part.push(high.wrapping_mul(16) | low)?;
        Ok(())
    }
}

/// The value of a hexadecimal digit.
fn digit_of(byte: u8) -> RedisResult<u8> {
    match byte {
        b'0'..=b'9' => Ok(byte - b'0'),
        b'A'..=b'F' => Ok(byte - b'A' + 10),
        b'a'..=b'f' => Ok(byte - b'a' + 10),
        _ => Err(malformed()),
    }
}
