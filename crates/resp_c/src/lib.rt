//! The parser and the packer for C: `resp_c.h` says what a C program calls.
#![tactic(auto)]

ghost use Rattle.std.specs.Prelude.{◌≡◌, None, length};
ghost use Rattle.resp_parse.specs.Limits.{usual};
ghost use Rattle.resp_c.specs.Calls.{Called, Opened, Shown, Told, FirstRead, FaultIs};
ghost use Rattle.resp_c.specs.Sessions.{Fed, Next, StateIs};
ghost use Rattle.resp_c.specs.Packing.{PackedInto, FitBoth, total, cuts, request_of};
ghost use Rattle.resp_c.specs.Replies.{EncodedInto};
ghost use Rattle.resp_command.specs.Packed.{packed_or_none};

mod encoding;
mod given_tokens;
mod handle;
mod packing;
mod parts;
mod session;
mod slot;
mod status;
mod token;
mod view;

use crate::encoding::encode;
use crate::handle::RespParser;
use crate::packing::{give, pack, pack_pipeline};
use crate::session::Session;
use crate::status::{CLOSED, DONE, MEMORY, RANGE};
use crate::token::RespToken;
use crate::view::RespView;
use resp_parse::Limits;
use std::alloc::Global;

/// Opens a parser of usual limits, 100 levels and 2^63 - 1 bytes; one that was open is closed.
#[unsafe(no_mangle)]
pub extern "C" fn resp_parser_open(alloc: Global, parser: &mut RespParser) -> u32
    ensures opened { Opened usual parser.old.slot.value parser.new.slot.value result }
{
    open(alloc, parser, Limits::default())
}

/// Opens a parser of values of up to `depth` levels and `bytes` bytes; one that was open is closed.
#[unsafe(no_mangle)]
pub extern "C" fn resp_parser_open_within(
    alloc: Global,
    parser: &mut RespParser,
    depth: usize,
    bytes: usize,
) -> u32
    ensures opened { Opened (record usual { depth = depth; bytes = bytes }) parser.old.slot.value
        parser.new.slot.value result }
{
    let limits = Limits {
        depth,
        bytes,
        ..Limits::default()
    };
    open(alloc, parser, limits)
}

/// Opens a parser within limits.
fn open(alloc: Global, parser: &mut RespParser, limits: Limits) -> u32
    ensures opened { Opened limits parser.old.slot.value parser.new.slot.value result }
{
    let Ok(session) = Session::within(alloc, limits) else {
        return RANGE;
    };
    let Ok(session) = Box::new(alloc, session) else {
        return MEMORY;
    };
    resp_parser_close(alloc, parser);
    parser.put(session);
    DONE
}

/// Closes a parser, and frees what it holds.
#[unsafe(no_mangle)]
pub extern "C" fn resp_parser_close(alloc: Global, parser: &mut RespParser)
    ensures closed { parser.new.slot.value ≡ None }
{
    if let Some(session) = parser.take(alloc) {
        drop(session);
    }
}

/// Adds bytes.
#[unsafe(no_mangle)]
pub extern "C" fn resp_parser_feed(alloc: Global, parser: &mut RespParser, bytes: &[u8]) -> u32
    ensures fed { Called (Fed bytes.now) parser.old.slot.value parser.new.slot.value result }
{
    let Some(mut session) = parser.take(alloc) else {
        return CLOSED;
    };
    let status = session.feed(bytes);
    parser.put(session);
    status
}

/// Takes the next value, and shows it.
#[unsafe(no_mangle)]
pub extern "C" fn resp_parser_next(
    alloc: Global,
    parser: &mut RespParser,
    view: &mut RespView,
) -> u32
    ensures taken { Called Next parser.old.slot.value parser.new.slot.value result }
    ensures shown { Shown parser.new.slot.value view.old view.new }
{
    let Some(mut session) = parser.take(alloc) else {
        return CLOSED;
    };
    let status = session.next();
    view.show(&session.reply);
    parser.put(session);
    status
}

/// Reads the value at the start of bytes that are all there, and shows it: what the parser holds
/// isn't touched, but for the reply that it gave last.
#[unsafe(no_mangle)]
pub extern "C" fn resp_parser_first(
    alloc: Global,
    parser: &mut RespParser,
    bytes: &[u8],
    view: &mut RespView,
    taken: &mut usize,
) -> u32
    ensures first { Called (FirstRead bytes.now taken.new) parser.old.slot.value
        parser.new.slot.value result }
    ensures shown { Shown parser.new.slot.value view.old view.new }
    ensures closed { parser.old.slot.value ≡ None → taken.new ≡ taken.old }
{
    let Some(mut session) = parser.take(alloc) else {
        return CLOSED;
    };
    let status = session.first(alloc, bytes, taken);
    view.show(&session.reply);
    parser.put(session);
    status
}

/// The state of a parser: 0 for none; 1 where it holds no bytes; 2 where it holds bytes that aren't
/// part of a value that was taken; 3 after a failure.
#[unsafe(no_mangle)]
pub extern "C" fn resp_parser_state(alloc: Global, parser: &mut RespParser) -> u32
    ensures state { Told StateIs parser.old.slot.value parser.new.slot.value result }
{
    let Some(session) = parser.take(alloc) else {
        return 0;
    };
    let state = session.state();
    parser.put(session);
    state
}

/// The number of the fault that was met last, or 0; `offset` is after how many bytes it showed: since
/// the last value, or of those that were read by themselves. Both are 0 where no parser is open.
#[unsafe(no_mangle)]
pub extern "C" fn resp_parser_fault(
    alloc: Global,
    parser: &mut RespParser,
    offset: &mut usize,
) -> u32
    ensures fault { Told (FaultIs offset.new) parser.old.slot.value parser.new.slot.value result }
    ensures closed { parser.old.slot.value ≡ None → offset.new ≡ 0 }
{
    *offset = 0;
    let Some(session) = parser.take(alloc) else {
        return 0;
    };
    let fault = session.fault;
    *offset = session.place;
    parser.put(session);
    fault
}

/// Packs a command: its arguments' bytes stand one after another in `args`, and `sizes` has the size
/// of each. `size` is how many bytes the request has.
#[unsafe(no_mangle)]
pub extern "C" fn resp_pack(
    alloc: Global,
    args: &[u8],
    sizes: &[usize],
    out: &mut [u8],
    size: &mut usize,
) -> u32
    ensures packed { PackedInto (total sizes.now ≡ length args.now)
        (packed_or_none (cuts sizes.now args.now)) out.old out.new size.new result }
{
    *size = 0;
    match pack(alloc, args, sizes) {
        Ok(bytes) => give(bytes.as_slice(), out, size),
        Err(status) => status,
    }
}

/// Packs commands, in a transaction where `atomic`: `counts` has how many arguments each has.
#[unsafe(no_mangle)]
pub extern "C" fn resp_pack_pipeline(
    alloc: Global,
    args: &[u8],
    sizes: &[usize],
    counts: &[usize],
    atomic: bool,
    out: &mut [u8],
    size: &mut usize,
) -> u32
    ensures packed { PackedInto (FitBoth counts.now sizes.now args.now)
        (request_of atomic (cuts counts.now (cuts sizes.now args.now))) out.old out.new size.new
        result }
{
    *size = 0;
    match pack_pipeline(alloc, args, sizes, counts, atomic) {
        Ok(bytes) => give(bytes.as_slice(), out, size),
        Err(status) => status,
    }
}

/// Encodes a reply, as a server sends it: its tokens in preorder, and the bytes of its leaves. `size`
/// is how many bytes it has.
#[unsafe(no_mangle)]
pub extern "C" fn resp_encode_reply(
    alloc: Global,
    tokens: &[RespToken],
    text: &[u8],
    protocol: u32,
    out: &mut [u8],
    size: &mut usize,
) -> u32
    ensures encoded { EncodedInto protocol tokens.now text.now out.old out.new size.new result }
{
    *size = 0;
    match encode(alloc, tokens, text, protocol) {
        Ok(bytes) => give(bytes.as_slice(), out, size),
        Err(status) => status,
    }
}

/// The version: major, minor and patch, 8 bits each.
#[unsafe(no_mangle)]
pub extern "C" fn resp_version() -> u32
    ensures version { result ≡ 256 }
{
    256
}
