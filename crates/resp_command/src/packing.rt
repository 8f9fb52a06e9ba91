//! Requests as bytes.

ghost use Rattle.std.specs.Prelude.{◌≡◌, ◌++◌, length, map, take, IfOk, OnOk};
ghost use Rattle.resp_errors.specs.Memory.{OnlyMemory};
ghost use Rattle.resp_args.specs.Args.{args_of};
ghost use Rattle.resp_command.specs.Packed.{packed};
ghost use Rattle.resp_command.specs.Pieces.{IsInterleaved, sent, interleaved};

use crate::encoded_args::EncodedArgs;
use crate::framing::{FRAME, write_frame, write_length_line};
use resp_value::RedisResult;
use std::alloc::{AllocError, Global};

/// The bytes that send a command of these arguments (RESP, "Sending commands to a Redis server").
///
/// `*`, the number of arguments and CR LF; then for each argument `$`, its length in bytes, CR LF,
/// its bytes and CR LF. No arguments at all give `*0` and CR LF. Fails only with `OutOfMemory`.
pub fn pack_command(alloc: Global, args: &[Vec<u8>]) -> RedisResult<Vec<u8>>
    ensures packed { IfOk result (λ bytes. bytes.items ≡ packed (args_of args.now)) }
    ensures memory { OnlyMemory result }
{
    let mut bytes = Vec::new(alloc);
    append_packed(&mut bytes, args)?;
    Ok(bytes)
}

/// Appends a packed command of these arguments; refused, it leaves more behind the old bytes.
pub fn append_frames(out: &mut Vec<u8>, encoded_args: &EncodedArgs) -> Result<(), AllocError>
    ensures written { OnOk result (out.new.items ≡ out.old.items ++ packed encoded_args.now) }
    ensures prefix { take (length out.old.items) out.new.items ≡ out.old.items }
{
    let bytes = encoded_args.as_bytes();
    out.reserve(bytes.len() + FRAME)?;
    write_length_line(out, b'*', encoded_args.len())?;
    out.extend_from_slice(bytes)
}

/// Appends a packed command of these arguments with cursors of this text at the places; refused, it
/// leaves more behind the old bytes. Not inlined, so that commands without cursors save no registers
/// for it.
#[inline(never)]
pub fn append_pieces(
    out: &mut Vec<u8>,
    encoded_args: &EncodedArgs,
    cursors: &[usize],
    text: &[u8],
) -> Result<(), AllocError>
    requires { IsInterleaved cursors.now encoded_args.now }
    ensures written { OnOk result (out.new.items ≡ out.old.items
        ++ packed (map (sent text.now) (interleaved 0 cursors.now encoded_args.now))) }
    ensures prefix { take (length out.old.items) out.new.items ≡ out.old.items }
{
    let room = cursors.len().saturating_mul(text.len() + FRAME);
    out.reserve(
        encoded_args
            .as_bytes()
            .len()
            .saturating_add(room)
            .saturating_add(FRAME),
    )?;
    write_length_line(out, b'*', encoded_args.len() + cursors.len())?;
    let mut done = 0;
    let mut passed = 0;
    for place in cursors {
        let next = *place - passed;
        out.extend_from_slice(encoded_args.range(done, next))?;
        write_frame(out, text)?;
        done = next;
        passed += 1;
    }
    out.extend_from_slice(encoded_args.range(done, encoded_args.len()))?;
    Ok(())
}

fn append_packed(out: &mut Vec<u8>, args: &[Vec<u8>]) -> Result<(), AllocError>
    ensures written { OnOk result (out.new.items ≡ out.old.items ++ packed (args_of args.now)) }
    ensures prefix { take (length out.old.items) out.new.items ≡ out.old.items }
{
    write_length_line(out, b'*', args.len())?;
    for arg in args {
        write_frame(out, arg.as_slice())?;
    }
    Ok(())
}
