//! Rounds of parsing.

ghost use Rattle.std.specs.Prelude.{◌<◌};

use crate::Round;
use resp_core::{FlatParser, FlatReply, Limits, Parser, RedisResult};
use std::alloc::Global;

/// How many bytes are fed at a time where nothing is said of it.
const PIECE: usize = 16_384;

/// What values are taken as.
#[derive(Clone, Copy)]
pub enum Form {
    /// Trees, which are dropped.
    Tree,
    /// One flat reply, into which each value is taken.
    Flat,
}

/// Feeds all of the bytes piece by piece, and takes each value as soon as it is whole.
#[inline(never)]
pub fn parse_round(
    alloc: Global,
    limits: Limits,
    form: Form,
    bytes: &[u8],
    piece: usize,
) -> RedisResult<Round> {
    let piece = if piece == 0 { PIECE } else { piece };
    let units = match form {
        Form::Tree => parse_trees(Parser::with_limits(alloc, limits)?, bytes, piece)?,
        Form::Flat => {
            let parser = FlatParser::with_limits(alloc, limits)?;
            parse_flat(parser, FlatReply::new(alloc), bytes, piece)?
        }
    };
    Ok(Round {
        units,
        bytes: bytes.len() as u64,
    })
}

/// How many values the bytes spell, which come in pieces.
fn parse_trees(mut parser: Parser, bytes: &[u8], piece: usize) -> RedisResult<u64>
    requires some { 0 < piece }
{
    let mut units: u64 = 0;
    for part in bytes.chunks(piece) {
        parser.feed(part)?;
        units = units.saturating_add(take_all(&mut parser)?);
    }
    Ok(units)
}

/// The same, as flat replies.
fn parse_flat(
    mut parser: FlatParser,
    mut reply: FlatReply,
    bytes: &[u8],
    piece: usize,
) -> RedisResult<u64>
    requires some { 0 < piece }
{
    let mut units: u64 = 0;
    for part in bytes.chunks(piece) {
        parser.feed(part)?;
        units = units.saturating_add(take_all_flat(&mut parser, &mut reply)?);
    }
    Ok(units)
}

/// Takes the values that are whole, drops them, and counts them.
fn take_all(parser: &mut Parser) -> RedisResult<u64> {
    let mut taken: u64 = 0;
    for _ in 0..u64::MAX {
        let Some(value) = parser.take_value()? else {
            break;
        };
        discard(value);
        taken = taken.saturating_add(1);
    }
    Ok(taken)
}

/// Takes the values that are whole into the reply, and counts them.
fn take_all_flat(parser: &mut FlatParser, reply: &mut FlatReply) -> RedisResult<u64> {
    let mut taken: u64 = 0;
    for _ in 0..u64::MAX {
        if !parser.take_reply(reply)? {
            break;
        }
        taken = taken.saturating_add(1);
    }
    Ok(taken)
}

/// Drops a value where no optimizer sees what it was made for.
#[inline(never)]
pub fn discard<T: Drop>(value: T) {
    let _ = value;
}
