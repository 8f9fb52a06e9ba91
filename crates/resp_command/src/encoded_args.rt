//! Arguments that are kept framed, as they are sent.

ghost use Rattle.std.specs.Prelude.{◌≡◌, ◌+◌, ◌-◌, ◌≤◌, ◌<◌, ◌^◌, ◌∷◌, [], ◌++◌, ◌↔◌, is_ok};
ghost use Rattle.std.specs.Prelude.{if◌then◌else◌, length, take, drop, OnOk, IfOk, IsTrue};
ghost use Rattle.std.specs.Prelude.{slice_get, slice_range, IfSome};
ghost use Rattle.std.specs.List.{flat_map};
ghost use Rattle.std.specs.Option.{option_copied};
ghost use Rattle.resp_args.specs.Args.{extended};
ghost use Rattle.resp_command.specs.Packed.{bulk};
ghost use Rattle.resp_command.specs.EncodedArgs.{IsFramed, args_at};

use crate::frames::Frames;
use crate::framing::FRAME;
use resp_args::RedisWrite;
use resp_value::{RedisError, RedisResult};
use smallvec::SmallVec;
use std::alloc::{AllocError, Global};
use std::marker::Model;

/// How many places are kept without an allocation of their own.
const FEW: usize = 4;

/// Where an argument stands in a buffer.
#[derive(Clone, Copy, Default)]
pub struct Span {
    pub from: usize,
    pub to: usize,
}

/// Arguments in order, each framed (`$`, its length, CR LF, its bytes, CR LF), joined in one
/// buffer. Contracts see a list of byte lists.
#[derive(Drop)]
pub struct EncodedArgs {
    bytes: Frames,
    spans: SmallVec<Span, FEW>,
}

impl Model for EncodedArgs {
    ghost use Rattle.resp_args.specs.Args.{Args};
    ghost use Rattle.resp_command.specs.EncodedArgs.{IsFramed, args_at};

    ghost Value = { Args };

    ghost view = { λ f. args_at f.bytes f.spans.items };

    ghost invariant = { λ f. IsFramed f.bytes f.spans.items };
}

impl EncodedArgs {
    /// No arguments; takes no memory.
    pub fn new(alloc: Global) -> EncodedArgs
        ensures { result ≡ [] }
    {
        EncodedArgs {
            bytes: Frames::new(alloc),
            spans: SmallVec::new(alloc),
        }
    }

    /// Makes room for `count` arguments of `size` bytes in all.
    pub fn reserve(&mut self, count: usize, size: usize) -> Result<(), AllocError>
        ensures { self.new ≡ self.old }
    {
        self.spans.reserve(count)?;
        self.bytes
            .reserve(size.saturating_add(count.saturating_mul(FRAME)))
    }

    /// How many arguments there are.
    pub fn len(&self) -> usize
        ensures len { result ≡ length self.now }
        ensures bounded { result < 2 ^ 63 }
    {
        self.spans.as_slice().len()
    }

    /// The frames, joined in order.
    pub fn as_bytes(&self) -> &[u8]
        ensures { result.now ≡ flat_map bulk self.now }
    {
        self.bytes.as_slice()
    }

    /// The bytes of the argument at this index, if there is one.
    pub fn get(&self, index: usize) -> Option<&[u8]>
        ensures found { option_copied result ≡ slice_get self.now index }
        ensures small { IfSome result (λ arg. index < 2 ^ 63) }
    {
        if index < self.spans.len() {
            let Span { from, to } = self.spans[index];
            Some(part(self.bytes.as_slice(), from, to))
        } else {
            None
        }
    }

    /// The frames of the arguments from one index to another, joined.
    pub fn range(&self, from: usize, to: usize) -> &[u8]
        requires { (from ≤ to) × (to ≤ length self.now) }
        ensures { result.now ≡ flat_map bulk (take (to - from) (drop from self.now)) }
    {
        let start = self.start_of(from);
        let end = self.start_of(to);
        part(self.bytes.as_slice(), start, end)
    }

    /// Where the frame of the argument at this index starts, or where all frames end.
    fn start_of(&self, index: usize) -> usize
        requires { index ≤ length self.now }
        ensures place { result ≡ length (flat_map bulk (take index self.now)) }
        ensures bounded { result < 2 ^ 63 }
    {
        // Not used: reading it tells the prover that the buffer has fewer than 2^63 bytes, so that no
        // sum below wraps.
        let _size = self.bytes.len();
        if index == 0 {
            0
        } else {
            self.spans[index - 1].to + 2
        }
    }

    /// Appends an argument; refused, all is as it was.
    pub fn push(&mut self, arg: &[u8]) -> Result<(), AllocError>
        ensures { self.new ≡ (if is_ok result then self.old ++ arg.now ∷ [] else self.old) }
    {
        // `reserve` asks the same, by a call that most arguments don't need.
        if self.spans.len() == self.spans.capacity() {
            self.spans.reserve(1)?;
        }
        let to = self.bytes.push(arg)?;
        self.spans.push_reserved(Span {
            from: to - arg.len(),
            to,
        });
        Ok(())
    }

    /// Appends bytes to the last argument; refused, all is as it was.
    pub fn extend_last(&mut self, more: &[u8]) -> Result<(), AllocError>
        requires { 0 < length self.old }
        ensures { self.new ≡ (if is_ok result then extended self.old more.now else self.old) }
    {
        let last = self.spans.len() - 1;
        let start = self.start_of(last) + 1;
        let from = self.spans[last].from;
        let digits = self.bytes.extend_last(start, from, more)?;
        self.spans[last] = Span {
            from: start + digits + 2,
            to: self.bytes.len() - 2,
        };
        Ok(())
    }

    /// Appends an argument of these bytes and then more; refused, all is as it was.
    pub fn push_both(&mut self, arg: &[u8], more: &[u8]) -> Result<(), AllocError>
        ensures { self.new
            ≡ (if is_ok result then self.old ++ (arg.now ++ more.now) ∷ [] else self.old) }
    {
        let before = self.len();
        self.push(arg)?;
        if let Err(refused) = self.extend_last(more) {
            self.truncate(before);
            return Err(refused);
        }
        Ok(())
    }

    /// Keeps the first arguments, as many as this; does nothing where there are no more.
    pub fn truncate(&mut self, len: usize)
        ensures { self.new ≡ take len self.old }
    {
        if len < self.spans.len() {
            let end = self.start_of(len);
            self.bytes.truncate(end);
            self.spans.truncate(len);
        }
    }

    /// Leaves no arguments.
    pub fn clear(&mut self)
        ensures { self.new ≡ [] }
    {
        self.bytes.clear();
        self.spans.clear();
    }

    /// Equal arguments.
    pub fn try_clone(&self, alloc: Global) -> Result<EncodedArgs, AllocError>
        ensures { IfOk result (λ encoded_args. encoded_args ≡ self.now) }
    {
        Ok(EncodedArgs {
            bytes: self.bytes.try_clone(alloc)?,
            spans: SmallVec::from_slice(alloc, self.spans.as_slice())?,
        })
    }
}

fn part(bytes: &[u8], from: usize, to: usize) -> &[u8]
    requires { (from ≤ to) × (to ≤ length bytes.now) }
    ensures { result.now ≡ slice_range bytes.now from to }
{
    &bytes[from..to]
}

impl RedisWrite for EncodedArgs {
    ghost args = { λ f. f };

    fn write_arg(&mut self, arg: &[u8]) -> RedisResult<()> {
        self.push(arg)?;
        Ok(())
    }

    fn open_arg(&mut self) -> RedisResult<()> {
        self.push(&[])?;
        Ok(())
    }

    fn extend_arg(&mut self, more: &[u8]) -> RedisResult<()> {
        self.extend_last(more)?;
        Ok(())
    }

    fn reserve_space_for_args<I: IntoIterator<Item = usize> + Drop>(
        &mut self,
        additional: I,
    ) -> RedisResult<()> {
        let mut count = 0usize;
        let mut size = 0usize;
        for length in additional {
            count = count.saturating_add(1);
            size = size.checked_add(length).ok_or(RedisError::OutOfMemory)?;
        }
        self.reserve(count, size)?;
        Ok(())
    }
}
