//! Frames in a buffer.

ghost use Rattle.std.specs.Prelude.{◌≡◌, ◌+◌, ◌-◌, ◌≤◌, ◌<◌, ◌^◌, ◌++◌, ℕ, is_ok, length};
ghost use Rattle.std.specs.Prelude.{if◌then◌else◌, take, drop, decimal, OnOk, OnErr, IfOk, IsOk};
ghost use Rattle.std.specs.Prelude.{vec_len, vec_capacity};
ghost use Rattle.resp_command.specs.EncodedArgs.{longer};
ghost use Rattle.resp_command.specs.Packed.{bulk, length_line};

use itoa::Buffer;
use std::alloc::AllocError;

/// The room for what stands around an argument.
pub const FRAME: usize = 25;

/// The room that is made for the first argument's frame and for later arguments.
pub const SPARE: usize = 96;

/// Appends an argument's frame, and answers where the argument ends; refused, the bytes are as they
/// were.
pub fn append_frame(bytes: &mut Vec<u8>, arg: &[u8]) -> Result<usize, AllocError>
    ensures items { bytes.new.items
        ≡ (if is_ok result then bytes.old.items ++ bulk arg.now else bytes.old.items) }
    ensures end { IfOk result (λ to. to + 2 ≡ vec_len bytes.new) }
{
    let before = bytes.len();
    if let Err(refused) = write_frame(bytes, arg) {
        bytes.truncate(before);
        return Err(refused);
    }
    Ok(bytes.len() - 2)
}

/// Appends an argument's frame; refused, it leaves more behind the old bytes.
pub fn write_frame(bytes: &mut Vec<u8>, arg: &[u8]) -> Result<(), AllocError>
    ensures written { OnOk result (bytes.new.items ≡ bytes.old.items ++ bulk arg.now) }
    ensures prefix { take (length bytes.old.items) bytes.new.items ≡ bytes.old.items }
{
    let spare = if bytes.is_empty() { SPARE } else { FRAME };
    bytes.reserve(arg.len() + spare)?;
    write_length_line(bytes, b'$', arg.len())?;
    bytes.extend_from_slice(arg)?;
    bytes.extend_from_slice(b"\r\n")
}

/// Appends a mark, a length in decimal and CR LF; refused, it leaves more behind the old bytes.
#[inline]
pub fn write_length_line(bytes: &mut Vec<u8>, mark: u8, len: usize) -> Result<(), AllocError>
    ensures written { OnOk result (bytes.new.items ≡ bytes.old.items ++ length_line mark len) }
    ensures prefix { take (length bytes.old.items) bytes.new.items ≡ bytes.old.items }
{
    if len < 10 {
        return bytes.extend_from_slice(&[mark, digit(len), b'\r', b'\n']);
    }
    if len < 100 {
        return bytes.extend_from_slice(&[mark, digit(len / 10), digit(len % 10), b'\r', b'\n']);
    }
    write_any_length_line(bytes, mark, len)
}

/// As [`write_length_line`]; not inlined, so that short lines save no registers for it.
#[inline(never)]
fn write_any_length_line(bytes: &mut Vec<u8>, mark: u8, len: usize) -> Result<(), AllocError>
    ensures written { OnOk result (bytes.new.items ≡ bytes.old.items ++ length_line mark len) }
    ensures prefix { take (length bytes.old.items) bytes.new.items ≡ bytes.old.items }
{
    bytes.push(mark)?;
    bytes.extend_from_slice(Buffer::new().format(len).as_bytes())?;
    bytes.extend_from_slice(b"\r\n")
}

/// The digit of a number below ten.
pub fn digit(number: usize) -> u8
    requires { number < 10 }
    ensures { result ≡ 48 + number }
{
    b'0' + number as u8
}

/// Appends bytes to the argument at the end, whose length starts at `start` and whose bytes start
/// at `from`, and answers how many digits its length has; refused, the bytes are as they were.
pub fn extend_frame(
    bytes: &mut Vec<u8>,
    start: usize,
    from: usize,
    more: &[u8],
) -> Result<usize, AllocError>
    requires place { (start + 2 ≤ from) × (from + 2 ≤ vec_len bytes.old) }
    requires grows { (n : ℕ) → n < 2 ^ 64 → (vec_len bytes.old - 2) - from ≤ n
        → (from - 2) - start ≤ length (decimal n) }
    ensures items { bytes.new.items
        ≡ (if is_ok result then longer bytes.old.items start from more.now else bytes.old.items) }
    ensures digits { IfOk result (λ n. n
        ≡ length (decimal ((vec_len bytes.old - 2) - from + length more.now))) }
    ensures short { IfOk result (λ n. n ≤ 40) }
{
    let to = bytes.len() - 2;
    let old = from - 2 - start;
    let mut buffer = Buffer::new();
    let text = buffer.format((to - from) + more.len()).as_bytes();
    bytes.reserve(more.len() + (text.len() - old))?;
    replace_length(bytes, start, old, text)?;
    bytes.truncate(bytes.len() - 2);
    bytes.extend_from_slice(more)?;
    bytes.extend_from_slice(b"\r\n")?;
    Ok(text.len())
}

/// Puts a text in the place of the `old` bytes from `start` on, and moves what follows; refused,
/// the bytes are as they were.
fn replace_length(
    bytes: &mut Vec<u8>,
    start: usize,
    old: usize,
    text: &[u8],
) -> Result<(), AllocError>
    requires place { start + old ≤ vec_len bytes.old }
    requires grows { old ≤ length text.now }
    ensures items { bytes.new.items ≡ (if is_ok result
        then take start bytes.old.items ++ (text.now ++ drop (start + old) bytes.old.items)
        else bytes.old.items) }
    ensures succeeds { vec_len bytes.old + (length text.now - old) ≤ vec_capacity bytes.old
        → IsOk result }
    ensures capacity { vec_capacity bytes.old ≤ vec_capacity bytes.new }
{
    let gain = text.len() - old;
    bytes.extend_from_slice(&text[..gain])?;
    overwrite_front(&mut bytes[start..], gain, text);
    Ok(())
}

/// Moves the last bytes to the front, and writes the text over the front.
fn overwrite_front(tail: &mut [u8], gain: usize, text: &[u8])
    requires gain { gain ≤ length text.now }
    requires room { length text.now ≤ length tail.old }
    ensures { tail.new
        ≡ text.now ++ drop (length text.now - gain) (take (length tail.old - gain) tail.old) }
{
    tail.rotate_right(gain);
    tail[..text.len()].copy_from_slice(text);
}
