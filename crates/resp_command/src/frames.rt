//! Frames in one piece, few of them without an allocation of their own.

ghost use Rattle.std.specs.Prelude.{◌≡◌, ◌+◌, ◌-◌, ◌≤◌, ◌<◌, ◌^◌, ◌++◌, [], ℕ, is_ok, length};
ghost use Rattle.std.specs.Prelude.{if◌then◌else◌, take, drop, decimal, IfOk};
ghost use Rattle.resp_command.specs.EncodedArgs.{longer};
ghost use Rattle.resp_command.specs.Packed.{bulk, length_line};

use crate::framing::{FRAME, SPARE, append_frame, digit, extend_frame};
use std::alloc::{AllocError, Global};
use std::marker::Model;

/// How many bytes are kept without an allocation of their own.
const FEW: usize = 64;

/// The most bytes that stand around an argument of two digits' length.
const AROUND: usize = 7;

/// Bytes in one piece: the first `used` of `few` where `many` is empty, and else `many`. Contracts
/// see the bytes alone.
#[derive(Drop)]
pub struct Frames {
    few: [u8; FEW],
    used: usize,
    many: Vec<u8>,
}

impl Model for Frames {
    ghost use Rattle.std.specs.Prelude.{List, ℕ, ◌++◌, take};
    ghost use Rattle.resp_command.specs.Frames.{IsOneOf};

    ghost Value = { List ℕ };

    ghost view = { λ f. take f.used f.few ++ f.many.items };

    ghost invariant = { λ f. IsOneOf 64 f.used f.few f.many.items };
}

impl Frames {
    /// No bytes; takes no memory.
    #[inline]
    pub fn new(alloc: Global) -> Frames
        ensures { result ≡ [] }
    {
        Frames {
            few: [0; FEW],
            used: 0,
            many: Vec::new(alloc),
        }
    }

    /// Makes room for `size` more bytes.
    pub fn reserve(&mut self, size: usize) -> Result<(), AllocError>
        ensures { self.new ≡ self.old }
    {
        if self.many.is_empty() && size <= FEW - self.used {
            return Ok(());
        }
        self.many.reserve(size.saturating_add(self.used))
    }

    /// How many bytes there are.
    #[inline]
    pub fn len(&self) -> usize
        ensures len { result ≡ length self.now }
        ensures bounded { result < 2 ^ 63 }
    {
        if self.many.is_empty() {
            self.used
        } else {
            self.many.len()
        }
    }

    /// The bytes as a slice.
    #[inline]
    pub fn as_slice(&self) -> &[u8]
        ensures { result.now ≡ self.now }
    {
        if self.many.is_empty() {
            &self.few[..self.used]
        } else {
            self.many.as_slice()
        }
    }

    /// Appends an argument's frame, and answers where the argument ends; refused, the bytes are as
    /// they were.
    #[inline]
    pub fn push(&mut self, arg: &[u8]) -> Result<usize, AllocError>
        ensures items { self.new ≡ (if is_ok result then self.old ++ bulk arg.now else self.old) }
        ensures end { IfOk result (λ to. to + 2 ≡ length self.new) }
    {
        if self.many.is_empty() && arg.len() < FEW && FEW - self.used >= arg.len() + AROUND {
            let end = self.used + put_frame(&mut self.few[self.used..], arg);
            self.used = end;
            return Ok(end - 2);
        }
        self.push_many(arg)
    }

    /// As [`Frames::push`], where the bytes are many; not inlined, so that few save no registers
    /// for it.
    #[inline(never)]
    fn push_many(&mut self, arg: &[u8]) -> Result<usize, AllocError>
        ensures items { self.new ≡ (if is_ok result then self.old ++ bulk arg.now else self.old) }
        ensures end { IfOk result (λ to. to + 2 ≡ length self.new) }
    {
        if self.used > 0 {
            spill(&self.few[..self.used], &mut self.many, arg.len())?;
            self.used = 0;
        }
        append_frame(&mut self.many, arg)
    }

    /// Appends bytes to the argument at the end, whose length starts at `start` and whose bytes
    /// start at `from`, and answers how many digits its length has; refused, the bytes are as they
    /// were.
    pub fn extend_last(
        &mut self,
        start: usize,
        from: usize,
        more: &[u8],
    ) -> Result<usize, AllocError>
        requires place { (start + 2 ≤ from) × (from + 2 ≤ length self.old) }
        requires grows { (n : ℕ) → n < 2 ^ 64 → (length self.old - 2) - from ≤ n
            → (from - 2) - start ≤ length (decimal n) }
        ensures items { self.new
            ≡ (if is_ok result then longer self.old start from more.now else self.old) }
        ensures digits { IfOk result (λ n. n
            ≡ length (decimal ((length self.old - 2) - from + length more.now))) }
        ensures short { IfOk result (λ n. n ≤ 40) }
    {
        if self.used > 0 {
            spill(&self.few[..self.used], &mut self.many, more.len())?;
            self.used = 0;
        }
        extend_frame(&mut self.many, start, from, more)
    }

    /// Keeps the first bytes, as many as this; does nothing where there are no more.
    pub fn truncate(&mut self, len: usize)
        ensures { self.new ≡ take len self.old }
    {
        if self.many.is_empty() {
            self.used = self.used.min(len);
        } else {
            self.many.truncate(len);
        }
    }

    /// Leaves no bytes.
    pub fn clear(&mut self)
        ensures { self.new ≡ [] }
    {
        self.used = 0;
        self.many.clear();
    }

    /// Equal bytes.
    pub fn try_clone(&self, alloc: Global) -> Result<Frames, AllocError>
        ensures { IfOk result (λ frames. frames ≡ self.now) }
    {
        Ok(Frames {
            few: self.few,
            used: self.used,
            many: Vec::from_slice(alloc, self.many.as_slice())?,
        })
    }
}

/// Copies the few bytes to the many, with room for an argument of this length; refused, the many are
/// as they were.
fn spill(few: &[u8], many: &mut Vec<u8>, len: usize) -> Result<(), AllocError>
    ensures { many.new.items
        ≡ (if is_ok result then many.old.items ++ few.now else many.old.items) }
{
    let spare = if many.capacity() == 0 { SPARE } else { FRAME };
    many.reserve(len.saturating_add(few.len() + spare))?;
    many.extend_from_slice(few)
}

/// Writes an argument's frame over the front, and answers how many bytes it has.
fn put_frame(free: &mut [u8], arg: &[u8]) -> usize
    requires short { length arg.now < 100 }
    requires room { length arg.now + 7 ≤ length free.old }
    ensures items { free.new ≡ bulk arg.now ++ drop (length (bulk arg.now)) free.old }
    ensures size { result ≡ length (bulk arg.now) }
{
    let from = put_line(free, arg.len());
    let to = from + arg.len();
    put(free, from, arg);
    put(free, to, b"\r\n");
    to + 2
}

/// Writes `$`, a length and CR LF over the front, and answers how many bytes these are.
fn put_line(free: &mut [u8], len: usize) -> usize
    requires short { len < 100 }
    requires room { 5 ≤ length free.old }
    ensures items { free.new ≡ length_line 36 len ++ drop (length (length_line 36 len)) free.old }
    ensures size { result ≡ length (length_line 36 len) }
    ensures few { result ≤ 5 }
{
    if len < 10 {
        put(free, 0, &[b'$', digit(len), b'\r', b'\n']);
        return 4;
    }
    put(
        free,
        0,
        &[b'$', digit(len / 10), digit(len % 10), b'\r', b'\n'],
    );
    5
}

/// Writes bytes over those from this place on.
fn put(free: &mut [u8], at: usize, bytes: &[u8])
    requires { at + length bytes.now ≤ length free.old }
    ensures { free.new
        ≡ take at free.old ++ (bytes.now ++ drop (at + length bytes.now) free.old) }
{
    free[at..at + bytes.len()].copy_from_slice(bytes);
}
