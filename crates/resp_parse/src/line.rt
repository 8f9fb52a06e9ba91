//! The ends of lines and bodies.

ghost use Rattle.std.specs.Prelude.{◌≡◌, ◌-◌, suc, get_or, IfSome, Ok, take};
ghost use Rattle.resp_parse.specs.Lines.{Scanned};
ghost use Rattle.resp_parse.specs.Number.{IsNumeral};
ghost use Rattle.resp_parse.specs.Resume.{FindsLine, FindsNumeral, EndsBody, BeginsWithBody, BeginsWithBulk, len_of};
ghost use Rattle.resp_parse.specs.Resume.{IsShortBulk};
ghost use Rattle.resp_parse.specs.Costs.{LooksAt, LooksForNumeral};

use crate::decoder::Counter;
use crate::type_byte::TypeByte;

/// The least number that has one digit too many to be read with its line.
const LARGE: u64 = 100_000_000_000_000_000;

/// The first line of bytes.
#[derive(Clone, Copy, Debug)]
pub(crate) struct Line {
    /// The length of its text.
    pub(crate) len: usize,
    /// The number that it writes, where it is few digits alone.
    pub(crate) number: Option<u64>,
}

/// The first line after a type byte, where the first `looked` bytes, this one among them, hold no
/// CR LF.
#[inline(always)]
pub(crate) fn first_line(bytes: &[u8], looked: usize, counts: &mut Counter) -> Option<Line>
    requires looked { Scanned bytes.now (looked - 1) }
    ensures line { FindsLine bytes.now (len_of result) }
    ensures number { IfSome result (λ line.
        IfSome line.number (IsNumeral (take line.len bytes.now))) }
    ensures looks { LooksAt (looked - 1) bytes.now counts.old counts.new (len_of result) }
{
    if let Some(line) = short_line(bytes) {
        return Some(line);
    }
    if looked > 1 {
        let len = line_end(bytes, looked - 1, counts)?;
        return Some(Line { len, number: None });
    }
    match numeral(bytes, counts) {
        Ok(line) => Some(line),
        Err(looked) => {
            let len = line_end(bytes, looked, counts)?;
            Some(Line { len, number: None })
        }
    }
}

/// The first line, where it is one digit or two.
#[inline(always)]
pub(crate) fn short_line(bytes: &[u8]) -> Option<Line>
    ensures line { IfSome result (λ line. FindsNumeral bytes.now (Ok line)) }
    ensures cr { IfSome result (λ line. get_or bytes.now line.len 0 ≡ 13) }
    ensures lf { IfSome result (λ line. get_or bytes.now (suc line.len) 0 ≡ 10) }
{
    if bytes.len() < 3 || !bytes[0].is_ascii_digit() {
        return None;
    }
    let digit = (bytes[0] - b'0') as u64;
    if bytes[1] == b'\r' {
        if bytes[2] != b'\n' {
            return None;
        }
        return Some(Line {
            len: 1,
            number: Some(digit),
        });
    }
    if bytes.len() < 4 || !bytes[1].is_ascii_digit() || bytes[2] != b'\r' || bytes[3] != b'\n' {
        return None;
    }
    Some(Line {
        len: 2,
        number: Some(digit * 10 + (bytes[1] - b'0') as u64),
    })
}

/// The first line, where it is few digits alone. Err: so many bytes hold no CR LF.
fn numeral(bytes: &[u8], counts: &mut Counter) -> Result<Line, usize>
    ensures line { FindsNumeral bytes.now result }
    ensures looks { LooksForNumeral bytes.now counts.old counts.new result }
{
    let Some(first) = bytes.first() else {
        return Err(0);
    };
    if !first.is_ascii_digit() {
        return Err(1);
    }
    let mut value = (*first - b'0') as u64;
    for at in 1..bytes.len() {
        counts.look();
        let byte = bytes[at];
        if !byte.is_ascii_digit() || value >= LARGE {
            if byte == b'\r' && at + 1 < bytes.len() && bytes[at + 1] == b'\n' {
                return Ok(Line {
                    len: at,
                    number: Some(value),
                });
            }
            return Err(at + 1);
        }
        value = value * 10 + (byte - b'0') as u64;
    }
    Err(bytes.len())
}

/// The length of the text up to the first CR LF, where the first `scanned` bytes hold none.
fn line_end(bytes: &[u8], scanned: usize, counts: &mut Counter) -> Option<usize>
    requires scanned { Scanned bytes.now scanned }
    ensures line { FindsLine bytes.now result }
    ensures looks { LooksAt scanned bytes.now counts.old counts.new result }
{
    for at in scanned.max(1)..bytes.len() {
        counts.look();
        if bytes[at] == b'\n' && bytes[at - 1] == b'\r' {
            return Some(at - 1);
        }
    }
    None
}

/// The body of n bytes at the start, where it and its CR LF are at hand.
pub(crate) fn body_at_hand(bytes: &[u8], n: usize) -> Option<&[u8]>
    ensures body { IfSome result (λ body. BeginsWithBody n bytes.now body.now) }
{
    if bytes.len() < 2 || n > bytes.len() - 2 {
        return None;
    }
    let (body, end) = bytes.split_at(n);
    match body_ends(end) {
        Ok(true) => Some(body),
        _ => None,
    }
}

/// Whether the CR LF after a body is there. Err where another byte is in its place, with how
/// many bytes show it.
#[tactic(auto, using(crate::proofs::BodyEnds::ends))]
pub(crate) fn body_ends(bytes: &[u8]) -> Result<bool, usize>
    ensures end { EndsBody bytes.now result }
{
    if bytes.is_empty() {
        return Ok(false);
    }
    if bytes[0] != b'\r' {
        return Err(1);
    }
    if bytes.len() == 1 {
        return Ok(false);
    }
    if bytes[1] != b'\n' {
        return Err(2);
    }
    Ok(true)
}

/// The body of a bulk string whose line writes this number, where it and its CR LF are at hand.
pub(crate) fn bulk_at_hand(kind: TypeByte, number: Option<u64>, rest: &[u8]) -> Option<&[u8]>
    ensures body { IfSome result (λ body. BeginsWithBulk kind number rest.now body.now) }
{
    match (kind, number) {
        (TypeByte::BulkString, Some(n)) => body_at_hand(rest, n as usize),
        _ => None,
    }
}

/// A bulk string whose length has one digit or two.
#[derive(Clone, Copy, Debug)]
pub(crate) struct ShortBulk<'a> {
    /// The length of its line's text.
    pub(crate) len: usize,
    pub(crate) body: &'a [u8],
}

/// The bulk string of this type byte and the bytes after it, where its length has one digit or two,
/// and all of it is at hand.
#[inline(always)]
pub(crate) fn short_bulk(first: u8, after: &[u8]) -> Option<ShortBulk<'_>>
    ensures dollar { IfSome result (λ bulk. first ≡ 36) }
    ensures bulk { IfSome result (λ bulk. IsShortBulk after.now bulk.len bulk.body.now) }
{
    if first != b'$' || after.len() < 4 || !after[0].is_ascii_digit() {
        return None;
    }
    let digit = (after[0] - b'0') as usize;
    if after[1] == b'\r' {
        if after[2] != b'\n' {
            return None;
        }
        let body = body_at_hand(&after[3..], digit)?;
        return Some(ShortBulk { len: 1, body });
    }
    if !after[1].is_ascii_digit() || after[2] != b'\r' || after[3] != b'\n' {
        return None;
    }
    let body = body_at_hand(&after[4..], digit * 10 + (after[1] - b'0') as usize)?;
    Some(ShortBulk { len: 2, body })
}
