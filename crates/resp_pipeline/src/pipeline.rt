//! Pipelines.

ghost use Rattle.std.specs.Prelude.{◌≡◌, ◌↔◌, ◌<◌, [], ◌∷◌, ◌++◌, List, length, drop, IsTrue};
ghost use Rattle.std.specs.Prelude.{IfOk, IfErr, OnOk, OnErr, true, vec_len, vec_capacity};
ghost use Rattle.std.specs.List.{flat_map};
ghost use Rattle.std.specs.Slice.Iter.{iter_rest};
ghost use Rattle.resp_errors.specs.Memory.{OnlyMemory};
ghost use Rattle.resp_args.specs.Args.{Args, IsFailure, IsRefusal};
ghost use Rattle.resp_pipeline.specs.Outcome.{Aborts, Composes, Concludes, Outcome};
ghost use Rattle.resp_pipeline.specs.Outcome.{unexpected_exec_reply};
ghost use Rattle.resp_command.specs.Command.{new_command};
ghost use Rattle.resp_command.specs.Packed.{packed};
ghost use Rattle.resp_pipeline.specs.Pipeline.{Plan, new_plan, with_command, AppendsToLast};
ghost use Rattle.resp_pipeline.specs.Pipeline.{last_marked, args_of_commands, request};
ghost use Rattle.resp_pipeline.specs.Pipeline.{replies_needed};
ghost use Rattle.resp_pipeline.specs.PipelineQuery.{PipelineQuery, no_pipelining};

use crate::composing::{has_server_error, into_server_errors, keep};
use resp_args::ToRedisArgs;
use resp_command::{Cmd, ConnectionLike, cmd};
use resp_from::FromRedisValue;
use resp_value::{ErrorKind, Items, RedisError, RedisResult, ServerError, Value};
use std::alloc::{AllocError, Global};
use std::marker::Model;
use std::slice;

/// The room for what stands before a command's arguments, or around a transaction's commands.
const SPARE: usize = 32;

/// Commands that are sent at once, and whose replies are answered together.
///
/// ```text
/// pipe(alloc)
///     .cmd("SET")?
///     .arg(("name", name))?
///     .ignore()
///     .cmd("GET")?
///     .arg("name")?
///     .cmd("INCR")?
///     .arg("age")?
///     .query(con)
/// ```
///
/// In `crates/example_snippets/src/arguments/commands.rt`.
///
/// As a transaction ([`Pipeline::atomic`]) the commands are sent between `MULTI` and `EXEC`. The
/// no-response flag of a command changes nothing here.
pub struct Pipeline {
    alloc: Global,
    commands: Vec<Cmd>,
    ignored: Vec<bool>,
    atomic: bool,
    ignores_errors: bool,
}

/// By hand, so that the proof of a function that owns one has a call where it is dropped, and not a
/// case for each part.
impl Drop for Pipeline {
    #[inline(always)]
    fn drop(self) {
        let Pipeline {
            alloc: _,
            commands: _,
            ignored: _,
            atomic: _,
            ignores_errors: _,
        } = self;
    }
}

impl Model for Pipeline {
    ghost use Rattle.std.specs.Prelude.{◌≡◌, length};
    ghost use Rattle.resp_pipeline.specs.Pipeline.{Plan};

    ghost Value = { Plan };

    ghost view = { λ p. record {
      commands = p.commands.items;
      ignored = p.ignored.items;
      atomic = p.atomic;
      ignores_errors = p.ignores_errors;
    } };

    ghost invariant = { λ p. length p.ignored.items ≡ length p.commands.items };
}

/// A pipeline without commands; takes no memory.
pub fn pipe(alloc: Global) -> Pipeline
    ensures { result ≡ new_plan }
{
    Pipeline::new(alloc)
}

impl Pipeline {
    /// A pipeline without commands, which is no transaction and doesn't ignore errors. Takes no
    /// memory.
    pub fn new(alloc: Global) -> Pipeline
        ensures { result ≡ new_plan }
    {
        Pipeline {
            alloc,
            commands: Vec::new(alloc),
            ignored: Vec::new(alloc),
            atomic: false,
            ignores_errors: false,
        }
    }

    /// A new pipeline with room for this many commands. Fails only with `OutOfMemory`.
    pub fn with_capacity(alloc: Global, capacity: usize) -> RedisResult<Pipeline>
        ensures new { IfOk result (λ p. p ≡ new_plan) }
        ensures memory { OnlyMemory result }
    {
        Ok(Pipeline {
            alloc,
            commands: Vec::with_capacity(alloc, capacity)?,
            ignored: Vec::with_capacity(alloc, capacity)?,
            atomic: false,
            ignores_errors: false,
        })
    }

    /// Adds a command, whose reply isn't ignored.
    ///
    /// Fails only with `OutOfMemory`; the pipeline is then as it was, and the command is dropped.
    pub fn add_command(&mut self, command: Cmd) -> RedisResult<&mut Self>
        ensures same { IfOk result (λ p. p.ghost_name ≡ self.entry.ghost_name) }
        ensures added { IfOk result (λ p. p.now ≡ with_command self.old command) }
        ensures memory { OnlyMemory result }
    {
        make_room(&mut self.commands, &mut self.ignored)?;
        self.commands.push_reserved(command);
        self.ignored.push_reserved(false);
        Ok(self)
    }

    /// Adds a command as [`Pipeline::add_command`] does, and answers nothing.
    pub fn push_command(&mut self, command: Cmd) -> RedisResult<()>
        ensures added { OnOk result (self.new ≡ with_command self.old command) }
        ensures memory { OnlyMemory result }
        ensures unchanged { OnErr result (self.new ≡ self.old) }
    {
        make_room(&mut self.commands, &mut self.ignored)?;
        self.commands.push_reserved(command);
        self.ignored.push_reserved(false);
        Ok(())
    }

    /// Adds a command of this name, without arguments so far.
    ///
    /// Fails only with `OutOfMemory`; the pipeline is then as it was.
    pub fn cmd(&mut self, name: &str) -> RedisResult<&mut Self>
        ensures same { IfOk result (λ p. p.ghost_name ≡ self.entry.ghost_name) }
        ensures added { IfOk result (λ p. p.now ≡ with_command self.old
            (record new_command { args = name.now ∷ [] })) }
        ensures memory { OnlyMemory result }
    {
        self.push_cmd(name)?;
        Ok(self)
    }

    /// Adds a command of this name as [`Pipeline::cmd`] does, and answers nothing.
    pub fn push_cmd(&mut self, name: &str) -> RedisResult<()>
        ensures added { OnOk result (self.new ≡ with_command self.old
            (record new_command { args = name.now ∷ [] })) }
        ensures memory { OnlyMemory result }
        ensures unchanged { OnErr result (self.new ≡ self.old) }
    {
        let command = cmd(self.alloc, name)?;
        self.push_command(command)
    }

    /// Adds an argument to the last command, or as many as it gives.
    ///
    /// Fails with kind `Client` for a value that can't be written, and else only with
    /// `OutOfMemory`; the pipeline is then as it was.
    pub fn arg<T: ToRedisArgs + Drop>(&mut self, arg: T) -> RedisResult<&mut Self>
        requires { 0 < length self.old.commands }
        ensures same { IfOk result (λ p. p.ghost_name ≡ self.entry.ghost_name) }
        ensures given { IfOk result (λ p. AppendsToLast (T.gives arg) self.old p.now) }
        ensures accepted { OnOk result (T.refuses arg → ⊥) }
        ensures refused { IfErr result (IsRefusal (T.refuses arg)) }
        ensures failed { IfErr result (IsFailure (T.fails arg)) }
    {
        self.push_arg(arg)?;
        Ok(self)
    }

    /// Adds an argument as [`Pipeline::arg`] does, and answers nothing.
    pub fn push_arg<T: ToRedisArgs + Drop>(&mut self, arg: T) -> RedisResult<()>
        requires { 0 < length self.old.commands }
        ensures given { OnOk result (AppendsToLast (T.gives arg) self.old self.new) }
        ensures accepted { OnOk result (T.refuses arg → ⊥) }
        ensures refused { IfErr result (IsRefusal (T.refuses arg)) }
        ensures failed { IfErr result (IsFailure (T.fails arg)) }
        ensures unchanged { OnErr result (self.new ≡ self.old) }
    {
        let last = self.commands.len() - 1;
        self.commands[last].push_arg(arg)
    }

    /// Ignores the reply to the last command; does nothing where there is none. Takes no memory.
    pub fn ignore(&mut self) -> &mut Self
        ensures same { result.ghost_name ≡ self.entry.ghost_name }
        ensures marked { result.now
            ≡ record self.old { ignored = last_marked self.old.ignored } }
    {
        let len = self.ignored.len();
        if len > 0 {
            self.ignored[len - 1] = true;
        }
        self
    }

    /// Makes the pipeline a transaction: its commands are sent between `MULTI` and `EXEC`.
    pub fn atomic(&mut self) -> &mut Self
        ensures same { result.ghost_name ≡ self.entry.ghost_name }
        ensures set { result.now ≡ record self.old { atomic = true } }
    {
        self.atomic = true;
        self
    }

    /// Takes server errors among the replies as values: they are converted with the others, and
    /// aren't answered as an error.
    pub fn ignore_errors(&mut self) -> &mut Self
        ensures same { result.ghost_name ≡ self.entry.ghost_name }
        ensures set { result.now ≡ record self.old { ignores_errors = true } }
    {
        self.ignores_errors = true;
        self
    }

    /// Whether the pipeline is a transaction.
    pub fn is_transaction(&self) -> bool
        ensures { result ≡ self.now.atomic }
    {
        self.atomic
    }

    /// The commands, in order.
    pub fn cmd_iter(&self) -> slice::Iter<'_, Cmd>
        ensures rest { iter_rest result ≡ self.now.commands }
    {
        self.commands.as_slice().iter()
    }

    /// The commands, in order.
    pub fn commands(&self) -> &[Cmd]
        ensures { result.now ≡ self.now.commands }
    {
        &self.commands[..]
    }

    /// Takes all commands away; a transaction stays one, and ignored errors stay ignored. Takes no
    /// memory.
    pub fn clear(&mut self)
        ensures { self.new ≡ record self.old { commands = []; ignored = [] } }
    {
        self.commands.clear();
        self.ignored.clear();
    }

    /// How many commands there are.
    pub fn len(&self) -> usize
        ensures { result ≡ length self.now.commands }
    {
        self.commands.len()
    }

    /// Whether there is no command.
    pub fn is_empty(&self) -> bool
        ensures { IsTrue result ↔ (self.now.commands ≡ []) }
    {
        self.commands.is_empty()
    }

    /// The bytes that send the pipeline: its commands packed, in order, and of a transaction
    /// `MULTI` before them and `EXEC` after them. A command without a name gives `*0` and CR LF.
    /// Fails only with `OutOfMemory`.
    pub fn get_packed_pipeline(&self) -> RedisResult<Vec<u8>>
        ensures packed { IfOk result (λ bytes. bytes.items ≡ request self.now) }
        ensures memory { OnlyMemory result }
    {
        let mut bytes = Vec::new(self.alloc);
        bytes.reserve(room_for(self.commands.as_slice()))?;
        if !self.atomic {
            append_commands(&mut bytes, self.commands.as_slice())?;
            return Ok(bytes);
        }
        bytes.extend_from_slice(b"*1\r\n$5\r\nMULTI\r\n")?;
        append_commands(&mut bytes, self.commands.as_slice())?;
        bytes.extend_from_slice(b"*1\r\n$4\r\nEXEC\r\n")?;
        Ok(bytes)
    }

    /// Sends the pipeline and converts its replies together: those that aren't ignored, as one
    /// array.
    ///
    /// Fails with kind `Client`, and sends nothing, over a connection that doesn't support
    /// pipelining; and where the connection's `req_packed_commands` fails. Of the replies:
    ///
    /// - where server errors are among them, ignored ones included, all are answered, each with the
    ///   position of its command; where none is, the first server error inside a reply that isn't
    ///   ignored; after [`Pipeline::ignore_errors`] neither;
    /// - else kind `Parse` where the array doesn't convert.
    ///
    /// Of a transaction the reply to `EXEC` decides:
    ///
    /// - the items of an array are composed in the same way, and `Nil` is converted by itself;
    /// - where it is a server error, those that its commands were refused with are answered as
    ///   [`RedisError::Aborted`], each with the position of its command, or where there are none
    ///   it itself; [`Pipeline::ignore`] and [`Pipeline::ignore_errors`] change nothing of this;
    /// - anything else is of kind `UnexpectedReturnType`.
    pub fn query<T: FromRedisValue>(&self, con: &mut dyn ConnectionLike) -> RedisResult<T>
        ensures { PipelineQuery (connection con.old) (connection con.new) self.now T.of_value
            result }
    {
        if !con.supports_pipelining() {
            return Err(unsupported());
        }
        let request = self.get_packed_pipeline()?;
        let replies = con.req_packed_commands(request.as_slice(), 0, self.replies_needed())?;
        self.outcome(replies)
    }

    /// Sends the pipeline, and asks of its replies only that they hold no server error.
    ///
    /// Fails as [`Pipeline::query`] does.
    pub fn exec(&self, con: &mut dyn ConnectionLike) -> RedisResult<()>
        ensures { PipelineQuery (connection con.old) (connection con.new) self.now
            (⟦<() as FromRedisValue>⟧.of_value) result }
    {
        self.query(con)
    }

    /// How many replies there are to the pipeline: one to each command, and of a transaction one to
    /// `MULTI` and one to `EXEC`, too.
    pub fn replies_needed(&self) -> usize
        ensures { result ≡ replies_needed self.now }
    {
        if self.atomic {
            self.commands.len() + 2
        } else {
            self.commands.len()
        }
    }

    /// An equal pipeline. Fails only with `OutOfMemory`.
    pub fn try_clone(&self) -> Result<Pipeline, AllocError>
        ensures { IfOk result (λ p. p ≡ self.now) }
    {
        Ok(Pipeline {
            alloc: self.alloc,
            commands: clone_commands(self.alloc, self.commands.as_slice())?,
            ignored: Vec::from_slice(self.alloc, self.ignored.as_slice())?,
            atomic: self.atomic,
            ignores_errors: self.ignores_errors,
        })
    }

    /// What all replies to the pipeline make, where they were had otherwise than by
    /// [`Pipeline::query`], as from several nodes: one to each command; of a transaction one to `MULTI`
    /// before them and one to `EXEC` after them, which decides. Those that are kept are moved, never
    /// copied.
    ///
    /// Fails as [`Pipeline::query`] does over such replies, and with kind `UnexpectedReturnType` where
    /// a transaction has fewer than two.
    pub fn outcome<T: FromRedisValue>(&self, mut replies: Vec<Value>) -> RedisResult<T>
        ensures { Outcome self.now T.of_value result replies.items }
    {
        if !self.atomic {
            return self.compose(replies);
        }
        if replies.len() < 2 {
            return Err(unexpected_exec_reply());
        }
        match replies.pop() {
            Some(last) => self.conclude(replies, last),
            None => unreachable!(),
        }
    }

    /// What the reply to `EXEC` makes, after those to `MULTI` and to the commands.
    fn conclude<T: FromRedisValue>(&self, before: Vec<Value>, last: Value) -> RedisResult<T>
        requires { 0 < length before.items }
        ensures { Concludes self.now T.of_value result (drop 1 before.items) last }
    {
        match last {
            Value::Nil => Ok(T::from_redis_value(self.alloc, Value::Nil)?),
            Value::Array(items) => self.compose(items.into_vec()),
            Value::ServerError(error) => self.abort(before, error),
            _ => Err(unexpected_exec_reply()),
        }
    }

    /// What a server error in the place of the reply to `EXEC` makes: a list of the errors that the
    /// commands were refused with, or where there are none this one.
    fn abort<T: FromRedisValue>(&self, mut before: Vec<Value>, error: ServerError) -> RedisResult<T>
        requires { 0 < length before.items }
        ensures { Aborts result (drop 1 before.items) error }
    {
        before.remove(0);
        if has_server_error(before.as_slice()) {
            return Err(RedisError::Aborted(into_server_errors(self.alloc, before)?));
        }
        Err(RedisError::Server(error))
    }

    /// What the replies to the commands make, or of a transaction the items of that to `EXEC`.
    fn compose<T: FromRedisValue>(&self, mut items: Vec<Value>) -> RedisResult<T>
        ensures { Composes self.now T.of_value result items.items }
    {
        if !self.ignores_errors && has_server_error(items.as_slice()) {
            return Err(RedisError::Pipeline(into_server_errors(self.alloc, items)?));
        }
        keep(self.ignored.as_slice(), &mut items);
        let mut reply = Value::Array(Items::from(items));
        if !self.ignores_errors {
            reply = reply.extract_error()?;
        }
        Ok(T::from_redis_value(self.alloc, reply)?)
    }
}

/// Makes room for a command and its mark.
fn make_room(commands: &mut Vec<Cmd>, ignored: &mut Vec<bool>) -> Result<(), AllocError>
    ensures commands { commands.new.items ≡ commands.old.items }
    ensures ignored { ignored.new.items ≡ ignored.old.items }
    ensures room { OnOk result (vec_len commands.new < vec_capacity commands.new
        × vec_len ignored.new < vec_capacity ignored.new) }
{
    ignored.reserve(1)?;
    commands.reserve(1)
}

/// What is answered where the reply to `EXEC` is another than a server gives.
fn unexpected_exec_reply() -> RedisError
    ensures { result ≡ unexpected_exec_reply }
{
    RedisError::from((
        ErrorKind::UnexpectedReturnType,
        "Invalid response when parsing multi response",
    ))
}

/// What a connection is refused with that takes one command at a time.
fn unsupported() -> RedisError
    ensures { result ≡ no_pipelining }
{
    RedisError::from((
        ErrorKind::Client,
        "This connection does not support pipelining.",
    ))
}

/// As many bytes as packed commands take that have no cursor arguments, and some more.
fn room_for(commands: &[Cmd]) -> usize {
    let mut room = SPARE;
    for command in commands {
        room = room
            .saturating_add(command.framed().len())
            .saturating_add(SPARE);
    }
    room
}

fn append_commands(out: &mut Vec<u8>, commands: &[Cmd]) -> RedisResult<()>
    ensures written { OnOk result (out.new.items
        ≡ out.old.items ++ flat_map packed (args_of_commands commands.now)) }
    ensures memory { OnlyMemory result }
{
    for command in commands {
        command.write_packed_command(out)?;
    }
    Ok(())
}

fn clone_commands(alloc: Global, commands: &[Cmd]) -> Result<Vec<Cmd>, AllocError>
    ensures { IfOk result (λ copies. copies.items ≡ commands.now) }
{
    let mut copies = Vec::new(alloc);
    for command in commands {
        copies.push(command.try_clone()?)?;
    }
    Ok(copies)
}
