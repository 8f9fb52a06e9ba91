//! What can be an argument of a command.

ghost use Rattle.std.specs.Prelude.{◌≡◌, ℕ, Bool, List, IfOk, IfErr};
ghost use Rattle.std.specs.List.{Any};
ghost use Rattle.resp_args.specs.Args.{Args, args_of, Writes, IsRefusal, Never, GivesEach};
ghost use Rattle.std.specs.Iterator.{IsFinite};
ghost use Rattle.resp_args.specs.Args.{WritesItems, Failure, AnyFailure, IsFailure, FailsEach};
ghost use Rattle.resp_args.specs.Args.{FailsLast};
ghost use Rattle.resp_args.specs.Args.{GivesSlice, RefusesSlice, FailsSlice, is_single_slice};
ghost use Rattle.resp_args.specs.Args.{Slices};
ghost use Rattle.resp_args.specs.Args.Slices.{by_item};
ghost use Rattle.resp_args.specs.Kept.{Stays};
ghost use Rattle.resp_args.specs.declared.args.NumericBehavior.{NumericBehavior};
ghost use Rattle.resp_args.specs.declared.args.NumericBehavior.TheVariants.{NonNumeric};

use crate::write::RedisWrite;
use resp_errors::RedisResult;
use std::alloc::Global;

/// What kind of number a value is written as, if it is one.
#[derive(Clone, Copy, PartialEq, Eq, Debug)]
pub enum NumericBehavior {
    /// It is no number.
    NonNumeric,
    /// A whole number.
    NumberIsInteger,
    /// A number that may have a fraction.
    NumberIsFloat,
}

/// A value that can be written as arguments of a command.
///
/// An own type says in a line which arguments a value gives, and has five short functions. The
/// other ghost members have defaults: no value is refused, nothing more is said of how one fails,
/// each counts for one argument and is no number, and a slice is written item by item.
///
/// ```text
/// impl ToRedisArgs for Member {
///     ghost gives = { λ m args. args ≡ signed_decimal m.score ∷ string_bytes m.name ∷ [] };
///
///     ghost count = { λ _. 2 };
///
///     fn write_redis_args<W: RedisWrite>(&self, out: &mut W) -> RedisResult<()> {
///         (&self.score, &self.name).write_redis_args(out)
///     }
///
///     fn write_args_from_slice<W: RedisWrite>(items: &[Self], out: &mut W) -> RedisResult<()> {
///         Self::write_each_arg(items, out)
///     }
///
///     fn num_of_args(&self) -> usize {
///         2
///     }
///
///     fn describe_numeric_behavior(&self) -> NumericBehavior {
///         NumericBehavior::NonNumeric
///     }
///
///     fn is_single_vec_arg(_items: &[Self]) -> bool {
///         false
///     }
/// }
/// ```
///
/// In `crates/example_snippets/src/arguments/member.rt`.
///
/// Fields may also be written one after another, or as a slice; a tuple of them takes references. A
/// type that is written as another one says so by that one's members, and where that one can be
/// refused, it says this too, and may say how:
///
/// ```text
/// ghost gives = { λ f. ⟦<BTreeMap<String, Vec<i64>> as ToRedisArgs>⟧.gives f.values };
///
/// ghost refuses = { λ f. ⟦<BTreeMap<String, Vec<i64>> as ToRedisArgs>⟧.refuses f.values };
/// ```
///
/// In `crates/example_snippets/src/arguments/fields.rt`.
pub trait ToRedisArgs: Sized {
    /// Which arguments a value gives.
    ghost gives: { Self → Args → Type 0 };

    /// The value can't be written.
    ghost refuses: { Self → Type 0 } = { Never };

    /// How writing a value fails: what it answers then, and what is written before.
    ghost fails: { Self → Failure } = { AnyFailure };

    /// What `num_of_args` answers.
    ghost count: { Self → ℕ } = { λ _. 1 };

    /// What `describe_numeric_behavior` answers.
    ghost behaviour: { Self → NumericBehavior } = { λ _. NonNumeric };

    /// How slices of values are written: item by item, unless the type has a rule of its own.
    ghost slices: { Slices Self } = { by_item };

    /// Appends the value's arguments. Fails with kind `Client` for a value that can't be written,
    /// and else only with `OutOfMemory`; the old arguments then come first.
    fn write_redis_args<W: RedisWrite>(&self, out: &mut W) -> RedisResult<()>
        ensures written { Writes (gives self.now) (refuses self.now) (W.args out.old)
            (W.args out.new) result }
        ensures failed { fails self.now (W.args out.old) (W.args out.new) result }
        ensures kept { Stays W.kept out.old out.new };

    /// Appends the arguments of a slice of values: item by item, by `write_each_arg`, unless the
    /// type has a rule of its own, as `u8`, whose slices are one argument. Fails as
    /// `write_redis_args` does.
    fn write_args_from_slice<W: RedisWrite>(items: &[Self], out: &mut W) -> RedisResult<()>
        ensures written { Writes (GivesSlice slices gives items.now)
            (RefusesSlice slices refuses items.now) (W.args out.old) (W.args out.new) result }
        ensures failed { FailsSlice slices gives refuses fails items.now (W.args out.old)
            (W.args out.new) result }
        ensures kept { Stays W.kept out.old out.new };

    /// How many arguments the value counts for, which need not be as many as it writes.
    fn num_of_args(&self) -> usize
        ensures { result ≡ count self.now };

    /// What kind of number the value is written as, if it is one.
    fn describe_numeric_behavior(&self) -> NumericBehavior
        ensures { result ≡ behaviour self.now };

    /// Whether a slice of values counts as a single argument.
    fn is_single_vec_arg(items: &[Self]) -> bool
        ensures { result ≡ is_single_slice slices count items.now };

    /// Appends the arguments of each item, in order. Fails as `write_redis_args` does, at the
    /// first item that fails.
    fn write_each_arg<W: RedisWrite>(items: &[Self], out: &mut W) -> RedisResult<()>
        ensures written { Writes (GivesEach gives items.now) (Any refuses items.now)
            (W.args out.old) (W.args out.new) result }
        ensures failed { FailsEach gives refuses fails items.now (W.args out.old) (W.args out.new)
            result }
        ensures kept { Stays W.kept out.old out.new }
    {
        for item in items {
            item.write_redis_args(out)?;
        }
        Ok(())
    }

    /// Appends the arguments of each value that an iterator gives, in order. Fails as
    /// `write_redis_args` does, at the first value that fails, and asks for no more then.
    final fn make_arg_iter_ref<'a, I: Iterator<Item = &'a Self> + Drop, W: RedisWrite>(
        values: I,
        out: &mut W,
    ) -> RedisResult<()>
    where
        Self: 'a,
        requires { I.can_next values × IsFinite (I.remaining values) }
        ensures written { WritesItems I.next_gives values (GivesEach gives) (Any refuses)
            (FailsLast gives refuses fails) (W.args out.old) (W.args out.new) result }
        ensures kept { Stays W.kept out.old out.new }
    {
        for value in values {
            value.write_redis_args(out)?;
        }
        Ok(())
    }

    /// The value's arguments. Fails with kind `Client` for a value that can't be written, and else
    /// only with `OutOfMemory`.
    final fn to_redis_args(&self, alloc: Global) -> RedisResult<Vec<Vec<u8>>>
        ensures given { IfOk result (λ args. gives self.now (args_of args.items)
            × (refuses self.now → ⊥)) }
        ensures refused { IfErr result (IsRefusal (refuses self.now)) }
        ensures failed { IfErr result (IsFailure (fails self.now)) }
    {
        let mut args = Vec::new(alloc);
        self.write_redis_args(&mut args)?;
        Ok(args)
    }
}

/// Appends the arguments of each item, in order: what `write_args_from_slice` of an ordinary type
/// is. Fails as `write_redis_args` does, at the first item that fails.
pub fn write_each_arg<T: ToRedisArgs, W: RedisWrite>(items: &[T], out: &mut W) -> RedisResult<()>
    ensures written { Writes (GivesEach T.gives items.now) (Any T.refuses items.now)
        (W.args out.old) (W.args out.new) result }
    ensures failed { FailsEach T.gives T.refuses T.fails items.now (W.args out.old) (W.args out.new)
        result }
    ensures kept { Stays W.kept out.old out.new }
{
    T::write_each_arg(items, out)
}
