//! What arguments are written to.

ghost use Rattle.std.specs.Prelude.{◌≡◌, ◌<◌, [], ◌∷◌, ◌++◌, length, OnOk, OnErr, IfOk, IfErr};
ghost use Rattle.std.specs.Iterator.{IsFiniteIterable};
ghost use Rattle.resp_args.specs.Args.{Args, AppendsShown, IsUnformatted, args_of, extended};
ghost use Rattle.resp_args.specs.Kept.{Kept, Stays, nothing};
ghost use Rattle.resp_errors.specs.Memory.{OnlyMemory};

use crate::shown::shown_bytes;
use crate::writer::ArgWriter;
use resp_errors::{RedisError, RedisResult};
use std::alloc::Global;
use std::fmt::Display;

/// A list of arguments that grows at its end.
///
/// What [`ToRedisArgs`](crate::ToRedisArgs) writes to. The arguments that are there stay, but for
/// the last one under [`extend_arg`](RedisWrite::extend_arg).
pub trait RedisWrite {
    /// The arguments so far.
    ghost args: { Self → Args };

    /// What else of it writing leaves as it is; by default nothing is said.
    ghost kept: { Kept Self } = { nothing };

    /// Appends one argument of these bytes. Fails only with `OutOfMemory`, and then leaves the
    /// arguments as they were.
    fn write_arg(&mut self, arg: &[u8]) -> RedisResult<()>
        ensures ok { OnOk result (args self.new ≡ args self.old ++ arg.now ∷ []) }
        ensures err { OnErr result (args self.new ≡ args self.old) }
        ensures memory { OnlyMemory result }
        ensures kept { Stays kept self.old self.new };

    /// Appends an empty argument. Fails only with `OutOfMemory`, and then leaves the arguments as
    /// they were.
    fn open_arg(&mut self) -> RedisResult<()>
        ensures ok { OnOk result (args self.new ≡ args self.old ++ [] ∷ []) }
        ensures err { OnErr result (args self.new ≡ args self.old) }
        ensures memory { OnlyMemory result }
        ensures kept { Stays kept self.old self.new };

    /// Appends bytes to the last argument, which has to be there. Fails only with `OutOfMemory`,
    /// and then leaves the arguments as they were.
    fn extend_arg(&mut self, more: &[u8]) -> RedisResult<()>
        requires { 0 < length (args self.old) }
        ensures ok { OnOk result (args self.new ≡ extended (args self.old) more.now) }
        ensures err { OnErr result (args self.new ≡ args self.old) }
        ensures memory { OnlyMemory result }
        ensures kept { Stays kept self.old self.new };

    /// Appends an empty argument, and hands out a writer that appends to it. Fails only with
    /// `OutOfMemory`, and then leaves the arguments as they were.
    final fn writer_for_next_arg(&mut self) -> RedisResult<ArgWriter<'_, Self>>
    where
        Self: Sized,
        ensures same_reference { IfOk result (λ w. w.out.ghost_name ≡ self.entry.ghost_name) }
        ensures opened { IfOk result (λ w. args w.out.now ≡ args self.old ++ [] ∷ []) }
        ensures kept { IfOk result (λ w. Stays kept self.old w.out.now) }
        ensures memory { OnlyMemory result }
    {
        self.open_arg()?;
        Ok(ArgWriter { out: self })
    }

    /// Appends one argument: what `{}` writes of the value.
    ///
    /// Fails with kind `Client` where the value fails to format itself, and else only with
    /// `OutOfMemory`, and then leaves the arguments as they were.
    final fn write_arg_fmt<D: Display + Drop>(&mut self, alloc: Global, arg: D) -> RedisResult<()>
        ensures ok { OnOk result (AppendsShown (D.output arg) (args self.old) (args self.new)) }
        ensures err { OnErr result (args self.new ≡ args self.old) }
        ensures refused { IfErr result IsUnformatted }
        ensures kept { Stays kept self.old self.new }
    {
        let shown = shown_bytes(alloc, arg)?;
        self.write_arg(shown.as_slice())
    }

    /// Makes room for arguments of these lengths, as far as the list can; by default none. Nothing
    /// is promised of the room, and the arguments stay.
    ///
    /// Fails only with `OutOfMemory`, as where the lengths add up to more than the greatest
    /// `usize`.
    fn reserve_space_for_args<I: IntoIterator<Item = usize> + Drop>(
        &mut self,
        additional: I,
    ) -> RedisResult<()>
        requires { IsFiniteIterable I.into_iter_gives I.IntoIter.can_next I.IntoIter.remaining
            additional }
        ensures same { args self.new ≡ args self.old }
        ensures memory { OnlyMemory result }
        ensures kept { Stays kept self.old self.new }
    {
        drop(additional);
        Ok(())
    }
}

/// How many lengths there are. Fails with `OutOfMemory` where they add up to more than the greatest
/// `usize`.
fn count_of_lengths<I: IntoIterator<Item = usize>>(lengths: I) -> RedisResult<usize>
    requires { IsFiniteIterable I.into_iter_gives I.IntoIter.can_next I.IntoIter.remaining lengths }
    ensures memory { OnlyMemory result }
{
    let mut count = 0usize;
    let mut bytes = 0usize;
    for length in lengths {
        let (Some(one_more), Some(longer)) = (count.checked_add(1), bytes.checked_add(length))
        else {
            return Err(RedisError::OutOfMemory);
        };
        count = one_more;
        bytes = longer;
    }
    Ok(count)
}

impl RedisWrite for Vec<Vec<u8>> {
    ghost args = { λ v. args_of v.items };

    fn write_arg(&mut self, arg: &[u8]) -> RedisResult<()> {
        let alloc = *self.allocator();
        self.push(Vec::from_slice(alloc, arg)?)?;
        Ok(())
    }

    fn open_arg(&mut self) -> RedisResult<()> {
        let alloc = *self.allocator();
        self.push(Vec::new(alloc))?;
        Ok(())
    }

    fn extend_arg(&mut self, more: &[u8]) -> RedisResult<()> {
        let last = self.len() - 1;
        self[last].extend_from_slice(more)?;
        Ok(())
    }

    fn reserve_space_for_args<I: IntoIterator<Item = usize> + Drop>(
        &mut self,
        additional: I,
    ) -> RedisResult<()> {
        self.reserve(count_of_lengths(additional)?)?;
        Ok(())
    }
}
