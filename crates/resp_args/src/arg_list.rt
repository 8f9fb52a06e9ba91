ghost use Rattle.std.specs.Prelude.{◌≡◌, ◌<◌, ◌↔◌, [], length, take, IsTrue, IfOk};
ghost use Rattle.std.specs.Prelude.{slice_get, slice_set};
ghost use Rattle.std.specs.Option.{option_copied};
ghost use Rattle.resp_args.specs.Args.{args_of};

use crate::write::RedisWrite;
use resp_errors::RedisResult;
use std::alloc::{AllocError, Global};
use std::marker::Model;

/// The arguments of a command, in order. Contracts see a list of byte lists.
#[derive(Drop)]
pub struct ArgList {
    args: Vec<Vec<u8>>,
}

impl Model for ArgList {
    ghost use Rattle.resp_args.specs.Args.{Args, args_of};

    ghost Value = { Args };

    ghost view = { λ list. args_of list.args.items };
}

impl ArgList {
    /// No arguments; takes no memory.
    pub fn new(alloc: Global) -> ArgList
        ensures { result ≡ [] }
    {
        ArgList {
            args: Vec::new(alloc),
        }
    }

    /// No arguments, with room for this many.
    pub fn with_capacity(alloc: Global, capacity: usize) -> Result<ArgList, AllocError>
        ensures { IfOk result (λ list. list ≡ []) }
    {
        Ok(ArgList {
            args: Vec::with_capacity(alloc, capacity)?,
        })
    }

    /// How many arguments there are.
    pub fn len(&self) -> usize
        ensures { result ≡ length self.now }
    {
        self.args.len()
    }

    /// Whether there is no argument.
    pub fn is_empty(&self) -> bool
        ensures { IsTrue result ↔ (self.now ≡ []) }
    {
        self.args.is_empty()
    }

    /// The arguments as vectors of their bytes.
    pub fn as_slice(&self) -> &[Vec<u8>]
        ensures { args_of result.now ≡ self.now }
    {
        self.args.as_slice()
    }

    /// The bytes of the argument at this index, if there is one.
    pub fn get(&self, index: usize) -> Option<&[u8]>
        ensures { option_copied result ≡ slice_get self.now index }
    {
        match self.args.get(index) {
            Some(arg) => Some(arg.as_slice()),
            None => None,
        }
    }

    /// Puts an argument of these bytes in the place of the one at this index; does nothing where
    /// there is none. Takes no memory.
    #[tactic(auto, using(crate::proofs::ReplacedArg::replaced))]
    pub fn replace(&mut self, index: usize, arg: Vec<u8>)
        ensures { self.new ≡ slice_set self.old index arg.items }
    {
        if index < self.args.len() {
            self.args[index] = arg;
        }
    }

    /// An equal list.
    pub fn try_clone(&self, alloc: Global) -> Result<ArgList, AllocError>
        ensures { IfOk result (λ list. list ≡ self.now) }
    {
        let mut args = Vec::new(alloc);
        for arg in &self.args {
            args.push(Vec::from_slice(alloc, arg)?)?;
        }
        Ok(ArgList { args })
    }

    /// Keeps the first arguments, as many as this; does nothing where there are no more.
    pub fn truncate(&mut self, len: usize)
        ensures { self.new ≡ take len self.old }
    {
        self.args.truncate(len);
    }

    /// Leaves no arguments.
    pub fn clear(&mut self)
        ensures { self.new ≡ [] }
    {
        self.args.clear();
    }
}

impl RedisWrite for ArgList {
    ghost args = { λ list. list };

    fn write_arg(&mut self, arg: &[u8]) -> RedisResult<()> {
        self.args.write_arg(arg)
    }

    fn open_arg(&mut self) -> RedisResult<()> {
        self.args.open_arg()
    }

    fn extend_arg(&mut self, more: &[u8]) -> RedisResult<()> {
        self.args.extend_arg(more)
    }

    fn reserve_space_for_args<I: IntoIterator<Item = usize> + Drop>(
        &mut self,
        additional: I,
    ) -> RedisResult<()> {
        self.args.reserve_space_for_args(additional)
    }
}
