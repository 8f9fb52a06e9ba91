//! The words of an inline command.

ghost use Rattle.std.specs.Prelude.{◌≡◌, ◌<◌, length, IfOk, IfSome};
ghost use Rattle.example_server.specs.Inline.{bare, closing, ends_word, escape, escaped, hex_digit};
ghost use Rattle.example_server.specs.Inline.{hex_escape};
ghost use Rattle.example_server.specs.declared.inline.Place.TheVariants as place;
ghost use Rattle.example_server.specs.Inline.{after, at_end, is_space, piece_at, single, words_in};
ghost use Rattle.std.specs.Option.{option_map};
ghost use Rattle.example_server.specs.Inline.{vec_items};

use crate::lines::rest;
use resp_core::Bytes;
use std::alloc::{AllocError, Global};
use std::mem;

/// The words of a line; None where its quotes aren't balanced.
#[tactic(auto, using(crate::proofs::Splitting::splitting))]
pub fn words(alloc: Global, line: &[u8]) -> Result<Option<Vec<Bytes>>, AllocError>
    ensures { IfOk result (λ words. option_map vec_items words ≡ words_in line.now) }
{
    let mut words = Vec::new(alloc);
    let mut word = Bytes::new(alloc);
    let mut place = Place::Between;
    let mut skip = 0;
    for at in 0..line.len() {
        if skip > 0 {
            skip -= 1;
            continue;
        }
        match first_piece(place, rest(line, at)) {
            Piece::Byte(byte, more, next) => {
                word.extend_from_slice(&[byte])?;
                skip = more;
                place = next;
            }
            Piece::Goes(next) => place = next,
            Piece::Ends => {
                words.push(mem::replace(&mut word, Bytes::new(alloc)))?;
                place = Place::Between;
            }
            Piece::Unbalanced => return Ok(None),
        }
    }
    finish(words, word, place)
}

/// The words, after the last byte.
fn finish(words: Vec<Bytes>, word: Bytes, place: Place) -> Result<Option<Vec<Bytes>>, AllocError>
    ensures { IfOk result (λ all. option_map vec_items all
        ≡ after words.items word (at_end place)) }
{
    let mut words = words;
    match place {
        Place::Between => Ok(Some(words)),
        Place::Bare => {
            words.push(word)?;
            Ok(Some(words))
        }
        _ => Ok(None),
    }
}

/// Where a byte stands.
#[derive(Clone, Copy)]
pub enum Place {
    /// Before a word.
    Between,
    /// In a word, outside quotes.
    Bare,
    /// In double quotes.
    Double,
    /// In single quotes.
    Single,
}

/// What bytes begin with.
#[derive(Clone, Copy)]
pub enum Piece {
    /// This byte of a word, for which so many bytes more stand, and then this place.
    Byte(u8, usize, Place),
    /// Nothing of a word, and then this place.
    Goes(Place),
    /// The end of a word.
    Ends,
    /// A quote with no white space after it.
    Unbalanced,
}

/// What bytes begin with at a place.
fn first_piece(place: Place, bytes: &[u8]) -> Piece
    requires { 0 < length bytes.now }
    ensures { result ≡ piece_at place bytes.now }
{
    match place {
        Place::Between => if is_space(bytes[0]) {
            Piece::Goes(Place::Between)
        } else {
            bare(bytes[0])
        },
        Place::Bare => if ends_word(bytes[0]) {
            Piece::Ends
        } else {
            bare(bytes[0])
        },
        Place::Double => double(bytes),
        Place::Single => single(bytes),
    }
}

fn bare(byte: u8) -> Piece
    ensures { result ≡ bare byte }
{
    match byte {
        b'"' => Piece::Goes(Place::Double),
        b'\'' => Piece::Goes(Place::Single),
        _ => Piece::Byte(byte, 0, Place::Bare),
    }
}

fn double(bytes: &[u8]) -> Piece
    requires { 0 < length bytes.now }
    ensures { result ≡ piece_at place.Double bytes.now }
{
    match bytes[0] {
        b'"' => closing(bytes),
        b'\\' => escape(bytes),
        byte => Piece::Byte(byte, 0, Place::Double),
    }
}

fn single(bytes: &[u8]) -> Piece
    requires { 0 < length bytes.now }
    ensures { result ≡ single bytes.now }
{
    if bytes[0] == b'\'' {
        closing(bytes)
    } else if bytes[0] == b'\\' && bytes.len() >= 2 && bytes[1] == b'\'' {
        Piece::Byte(b'\'', 1, Place::Single)
    } else {
        Piece::Byte(bytes[0], 0, Place::Single)
    }
}

/// A quote that would end a word.
fn closing(bytes: &[u8]) -> Piece
    ensures { result ≡ closing bytes.now }
{
    if bytes.len() < 2 || is_space(bytes[1]) {
        Piece::Ends
    } else {
        Piece::Unbalanced
    }
}

/// A backslash in double quotes, and what follows it.
fn escape(bytes: &[u8]) -> Piece
    ensures { result ≡ escape bytes.now }
{
    if let Some(byte) = hex_escape(bytes) {
        Piece::Byte(byte, 3, Place::Double)
    } else if bytes.len() >= 2 {
        Piece::Byte(escaped(bytes[1]), 1, Place::Double)
    } else {
        Piece::Byte(b'\\', 0, Place::Double)
    }
}

/// The byte of two hexadecimal digits after `\x`.
fn hex_escape(bytes: &[u8]) -> Option<u8>
    ensures { result ≡ hex_escape bytes.now }
{
    if bytes.len() >= 4 && bytes[1] == b'x' {
        Some(16 * hex_digit(bytes[2])? + hex_digit(bytes[3])?)
    } else {
        None
    }
}

fn hex_digit(byte: u8) -> Option<u8>
    ensures value { result ≡ hex_digit byte }
    ensures bound { IfSome result (λ digit. digit < 16) }
{
    match byte {
        b'0'..=b'9' => Some(byte - b'0'),
        b'a'..=b'f' => Some(byte - b'a' + 10),
        b'A'..=b'F' => Some(byte - b'A' + 10),
        _ => None,
    }
}

fn escaped(byte: u8) -> u8
    ensures { result ≡ escaped byte }
{
    match byte {
        b'n' => b'\n',
        b'r' => b'\r',
        b't' => b'\t',
        b'b' => 8,
        b'a' => 7,
        other => other,
    }
}

fn is_space(byte: u8) -> bool
    ensures { result ≡ is_space byte }
{
    byte == b' ' || (9..=13).contains(&byte)
}

fn ends_word(byte: u8) -> bool
    ensures { result ≡ ends_word byte }
{
    matches!(byte, b' ' | b'\t' | b'\n' | b'\r')
}
