//! Commands.

ghost use Rattle.std.specs.Prelude.{◌≡◌, ◌∷◌, [], ◌++◌, ◌↔◌, is_ok, if◌then◌else◌, IfOk, IfErr};
ghost use Rattle.std.specs.Prelude.{OnOk, OnErr, IsTrue, true, false, length, take, ◌<◌, is_some};
ghost use Rattle.std.specs.Prelude.{Err, None, Some, MatchResult, slice_get};
ghost use Rattle.std.specs.Iterator.{IsFiniteIterable};
ghost use Rattle.resp_errors.specs.Memory.{OnlyMemory};
ghost use Rattle.resp_value.specs.FirstError.{first_error};
ghost use Rattle.resp_args.specs.Args.{Appends, IsFailure, IsRefusal, extended};
ghost use Rattle.resp_command.specs.Command.{new_command};
ghost use Rattle.resp_command.specs.Cursors.{HoldsCursor, with_cursor, with_cursor_arg};
ghost use Rattle.resp_command.specs.Cursors.{with_extended_arg};
ghost use Rattle.resp_command.specs.ShownArgs.{EndsInCursor, args_left, framed_args, shown_args};
ghost use Rattle.resp_command.specs.Packed.{packed, packed_or_none};
ghost use Rattle.resp_command.specs.Call.{Answers};
ghost use Rattle.resp_command.specs.CommandQuery.{CommandQuery};
ghost use Rattle.resp_command.specs.Scans.{CannotStart, FirstRequest, Starts, scan_request};
ghost use Rattle.resp_command.specs.ScanStates.{borrowed, scan_state, state_of};
ghost use Rattle.resp_command.specs.Subscriptions.{IsUnanswered, is_subscription};

use crate::args_iter::ArgsIter;
use crate::connection::ConnectionLike;
use crate::encoded_args::EncodedArgs;
use crate::packing::{append_frames, append_pieces};
use crate::progress::ScanProgress;
use crate::scan::{Iter, Scan};
use crate::subscriptions::is_subscription_name;
use itoa::Buffer;
use resp_args::{RedisWrite, ToRedisArgs};
use resp_from::FromRedisValue;
use resp_value::{RedisError, RedisResult, Value};
use std::alloc::{AllocError, Global};
use std::marker::Model;
use std::mem;

/// A command: its name and arguments, in order. It takes no memory while these have at most 64 bytes,
/// as they are sent, and are at most four.
///
/// ```text
/// let visits: i64 = cmd(rt.alloc(), "INCR")?.arg("visits")?.query(&mut link)?;
/// ```
///
/// In `crates/example_counter/src/main.rt`.
pub struct Cmd {
    pub(crate) alloc: Global,
    encoded_args: EncodedArgs,
    cursor: Option<u64>,
    cursors: Vec<usize>,
    no_response: bool,
}

/// By hand, so that the proof of a function that owns one has a call where it is dropped, and not a
/// case for each part.
impl Drop for Cmd {
    #[inline(always)]
    fn drop(self) {
        let Cmd {
            alloc: _,
            encoded_args: _,
            cursor: _,
            cursors: _,
            no_response: _,
        } = self;
    }
}

impl Model for Cmd {
    ghost use Rattle.resp_command.specs.Command.{Command};
    ghost use Rattle.resp_command.specs.Pieces.{Keeps, sent_args};

    ghost Value = { Command };

    ghost view = { λ c. record {
      args = sent_args c.cursor c.cursors.items c.encoded_args;
      no_response = c.no_response;
      cursor = c.cursor;
      cursors = c.cursors.items;
    } };

    ghost invariant = { λ c. Keeps c.cursor c.cursors.items c.encoded_args };
}

impl Cmd {
    /// A command without a name; takes no memory.
    pub fn new(alloc: Global) -> Cmd
        ensures { result ≡ new_command }
    {
        Cmd {
            alloc,
            encoded_args: EncodedArgs::new(alloc),
            cursor: None,
            cursors: Vec::new(alloc),
            no_response: false,
        }
    }

    /// A new command with room for `arg_count` arguments of `size_of_data` bytes in all. Fails only
    /// with `OutOfMemory`.
    pub fn with_capacity(alloc: Global, arg_count: usize, size_of_data: usize) -> RedisResult<Cmd>
        ensures new { IfOk result (λ c. c ≡ new_command) }
        ensures memory { OnlyMemory result }
    {
        let mut command = Cmd::new(alloc);
        command.encoded_args.reserve(arg_count, size_of_data)?;
        Ok(command)
    }

    /// Adds an argument, or as many as it gives.
    ///
    /// Fails with kind `Client` for a value that can't be written, and else only with
    /// `OutOfMemory`; the command is then as it was.
    pub fn arg<T: ToRedisArgs + Drop>(&mut self, arg: T) -> RedisResult<&mut Self>
        ensures same { IfOk result (λ c. c.ghost_name ≡ self.entry.ghost_name) }
        ensures given { IfOk result (λ c. Appends (T.gives arg) self.old.args c.now.args) }
        ensures rest { IfOk result (λ c. c.now ≡ record self.old { args = c.now.args }) }
        ensures accepted { OnOk result (T.refuses arg → ⊥) }
        ensures refused { IfErr result (IsRefusal (T.refuses arg)) }
        ensures failed { IfErr result (IsFailure (T.fails arg)) }
    {
        self.push_arg(arg)?;
        Ok(self)
    }

    /// Adds an argument as [`Cmd::arg`] does, and answers nothing.
    pub fn push_arg<T: ToRedisArgs + Drop>(&mut self, arg: T) -> RedisResult<()>
        ensures given { OnOk result (Appends (T.gives arg) self.old.args self.new.args) }
        ensures accepted { OnOk result (T.refuses arg → ⊥) }
        ensures rest { OnOk result (self.new ≡ record self.old { args = self.new.args }) }
        ensures refused { IfErr result (IsRefusal (T.refuses arg)) }
        ensures failed { IfErr result (IsFailure (T.fails arg)) }
        ensures unchanged { OnErr result (self.new ≡ self.old) }
    {
        let before = self.encoded_args.len();
        let written = arg.write_redis_args(&mut self.encoded_args);
        if written.is_err() {
            self.encoded_args.truncate(before);
        }
        written
    }

    /// Adds a cursor argument, and sets the command's cursor: every cursor argument is sent as the
    /// latest one, in decimal.
    ///
    /// Fails only with `OutOfMemory`; the command is then as it was.
    pub fn cursor_arg(&mut self, cursor: u64) -> RedisResult<&mut Self>
        ensures same { IfOk result (λ c. c.ghost_name ≡ self.entry.ghost_name) }
        ensures added { IfOk result (λ c. c.now ≡ with_cursor_arg cursor self.old) }
        ensures memory { OnlyMemory result }
    {
        self.push_cursor_arg(cursor)?;
        Ok(self)
    }

    /// Adds a cursor argument as [`Cmd::cursor_arg`] does, and answers nothing.
    pub fn push_cursor_arg(&mut self, cursor: u64) -> RedisResult<()>
        ensures added { OnOk result (self.new ≡ with_cursor_arg cursor self.old) }
        ensures memory { OnlyMemory result }
        ensures unchanged { OnErr result (self.new ≡ self.old) }
    {
        let place = self.count();
        self.cursors.push(place)?;
        self.cursor.replace(cursor);
        Ok(())
    }

    /// Sets the command's cursor: every cursor argument is sent as this one, in decimal. It is what
    /// a scan does between its requests, and adds no argument. Takes no memory.
    pub fn set_cursor(&mut self, cursor: u64)
        ensures { self.new ≡ with_cursor cursor self.old }
    {
        self.cursor = Some(cursor);
    }

    /// Whether a cursor was set.
    pub fn in_scan_mode(&self) -> bool
        ensures { result ≡ is_some self.now.cursor }
    {
        self.cursor.is_some()
    }

    /// The arguments in order, the name first, each with its bytes or as a cursor. Takes no memory.
    pub fn args_iter(&self) -> ArgsIter<'_>
        ensures shown { args_left result ≡ shown_args self.now.args self.now.cursors }
        ensures count { length (args_left result) ≡ length self.now.args }
        ensures cursors { HoldsCursor self.now.args self.now.cursor self.now.cursors }
    {
        ArgsIter::over(&self.encoded_args, self.cursors.as_slice())
    }

    /// The frames of the ordinary arguments (`$`, the length, CR LF, the bytes, CR LF), joined in
    /// order. Takes no memory.
    pub fn framed(&self) -> &[u8]
        ensures { result.now ≡ framed_args self.now.args self.now.cursors }
    {
        self.encoded_args.as_bytes()
    }

    /// Takes all arguments and the cursor away, and waits for a reply again, as a new command does.
    /// Takes no memory.
    pub fn clear(&mut self)
        ensures { self.new ≡ new_command }
    {
        self.encoded_args.clear();
        self.cursor = None;
        self.cursors.clear();
        self.no_response = false;
    }

    /// Hands the command out and leaves a new one in its place. Takes no memory.
    pub fn take(&mut self) -> Cmd
        ensures taken { result ≡ self.old }
        ensures left { self.new ≡ new_command }
    {
        let new = Cmd::new(self.alloc);
        mem::replace(self, new)
    }

    /// An equal command. Fails only with `OutOfMemory`.
    pub fn try_clone(&self) -> Result<Cmd, AllocError>
        ensures { IfOk result (λ c. c ≡ self.now) }
    {
        Ok(Cmd {
            alloc: self.alloc,
            encoded_args: self.encoded_args.try_clone(self.alloc)?,
            cursor: self.cursor,
            cursors: Vec::from_slice(self.alloc, self.cursors.as_slice())?,
            no_response: self.no_response,
        })
    }

    /// Whether there is no argument, not even a name.
    pub fn is_empty(&self) -> bool
        ensures { IsTrue result ↔ (self.now.args ≡ []) }
    {
        self.count() == 0
    }

    /// Whether the last argument is a cursor argument.
    fn ends_in_cursor(&self) -> bool
        requires { 0 < length self.now.args }
        ensures { IsTrue result ↔ EndsInCursor self.now.args self.now.cursors }
    {
        match self.cursors.last() {
            Some(place) => *place == self.count() - 1,
            None => false,
        }
    }

    /// How many arguments there are.
    fn count(&self) -> usize
        ensures { result ≡ length self.now.args }
    {
        self.encoded_args.len() + self.cursors.len()
    }

    /// The bytes that send the command, as [`pack_command`](crate::pack_command) gives them; no
    /// bytes for an empty command. Fails only with `OutOfMemory`.
    pub fn get_packed_command(&self) -> RedisResult<Vec<u8>>
        ensures packed { IfOk result (λ bytes. bytes.items ≡ packed_or_none self.now.args) }
        ensures memory { OnlyMemory result }
    {
        self.get_packed_command_with_cursor(self.cursor.unwrap_or(0))
    }

    /// The bytes that send the command with this cursor. Fails only with `OutOfMemory`.
    pub(crate) fn get_packed_command_with_cursor(&self, cursor: u64) -> RedisResult<Vec<u8>>
        ensures packed { IfOk result (λ bytes. bytes.items ≡ scan_request self.now cursor) }
        ensures memory { OnlyMemory result }
    {
        let mut bytes = Vec::new(self.alloc);
        if self.is_empty() {
            return Ok(bytes);
        }
        self.append_packed(cursor, &mut bytes)?;
        Ok(bytes)
    }

    /// Appends the bytes that send the command with this cursor; refused, it leaves more behind the
    /// old bytes.
    fn append_packed(&self, cursor: u64, out: &mut Vec<u8>) -> Result<(), AllocError>
        ensures written { OnOk result (out.new.items
            ≡ out.old.items ++ packed (with_cursor cursor self.now).args) }
        ensures prefix { take (length out.old.items) out.new.items ≡ out.old.items }
    {
        if self.cursors.is_empty() {
            return append_frames(out, &self.encoded_args);
        }
        let mut buffer = Buffer::new();
        let text = buffer.format(cursor).as_bytes();
        append_pieces(out, &self.encoded_args, self.cursors.as_slice(), text)
    }

    /// Appends the bytes that send the command; an empty command gives `*0` and CR LF. On
    /// `OutOfMemory` the buffer's bytes are as they were.
    pub fn write_packed_command(&self, out: &mut Vec<u8>) -> RedisResult<()>
        ensures written { OnOk result (out.new.items ≡ out.old.items ++ packed self.now.args) }
        ensures unchanged { OnErr result (out.new.items ≡ out.old.items) }
        ensures memory { OnlyMemory result }
    {
        let before = out.len();
        if let Err(refused) = self.append_packed(self.cursor.unwrap_or(0), out) {
            out.truncate(before);
            return Err(refused.into());
        }
        Ok(())
    }

    /// Says whether a reply is waited for; `true`: none is.
    pub fn set_no_response(&mut self, no_response: bool) -> &mut Self
        ensures same { result.ghost_name ≡ self.entry.ghost_name }
        ensures flag { result.now ≡ record self.old { no_response = no_response } }
    {
        self.no_response = no_response;
        self
    }

    /// Whether no reply is waited for.
    pub fn is_no_response(&self) -> bool
        ensures { result ≡ self.now.no_response }
    {
        self.no_response
    }

    /// Whether a reply is waited for that wouldn't come: the command is `SUBSCRIBE`, `UNSUBSCRIBE`,
    /// or one of these after `P` or `S`, in letters of either case, which a server answers by
    /// messages alone, and [`Cmd::set_no_response`] wasn't called. Takes no memory.
    pub fn is_unanswered(&self) -> bool
        ensures { IsTrue result ↔ IsUnanswered self.now }
    {
        !self.no_response && self.is_subscription()
    }

    /// Whether the first argument is the name of a subscription.
    fn is_subscription(&self) -> bool
        ensures { result ≡ is_subscription self.now.args }
    {
        match self.encoded_args.get(0) {
            // By its name first, since hardly any is one.
            Some(name) => is_subscription_name(name) && !self.begins_with_cursor(),
            None => false,
        }
    }

    /// Whether the first argument is a cursor argument.
    fn begins_with_cursor(&self) -> bool
        ensures { IsTrue result ↔ (slice_get self.now.cursors 0 ≡ Some 0) }
    {
        match self.cursors.first() {
            Some(place) => *place == 0,
            None => false,
        }
    }

    /// Sends the command and converts its reply.
    ///
    /// Fails with the first server error in the reply, with kind `Parse` where the reply doesn't
    /// convert, and where the connection's `req_command` fails.
    // Not inlined, so that what is answered is written once, to the caller's place.
    #[inline(never)]
    pub fn query<T: FromRedisValue>(&self, con: &mut dyn ConnectionLike) -> RedisResult<T>
        ensures { CommandQuery (connection con.old) (connection con.new) self.now T.of_value
            result }
    {
        // By `match` and `let`, since `?` moves the reply and the value once more, and so do arms that
        // end in `Ok`.
        let reply = match con.req_command(self) {
            Ok(reply) => reply,
            Err(error) => return Err(error),
        };
        if may_hold_error(&reply) {
            return answer(self.alloc, reply);
        }
        let value = match T::from_redis_value(self.alloc, reply) {
            Ok(value) => value,
            Err(error) => return Err(RedisError::from(error)),
        };
        Ok(value)
    }

    /// Sends the command, and asks of its reply only that it holds no server error.
    ///
    /// Fails as [`Cmd::query`] does.
    pub fn exec(&self, con: &mut dyn ConnectionLike) -> RedisResult<()>
        ensures { CommandQuery (connection con.old) (connection con.new) self.now
            (⟦<() as FromRedisValue>⟧.of_value) result }
    {
        self.query(con)
    }

    /// Sends the command, and iterates over the results of its reply and of those that follow: a
    /// reply is a cursor and a list, and with each cursor but 0 the command is sent again, up to
    /// `budget` times. See [`Scan`] for what its items are.
    ///
    /// A first reply that is no array of a bulk string and an array is a list alone, which is all.
    /// Fails with kind `Parse` where the first reply is neither, with `OutOfMemory`, also where
    /// memory runs out for its items alone, and where the connection's `req_command` fails. Server
    /// errors in a reply are values as others are, and aren't looked for. The command is dropped where
    /// it fails.
    ///
    /// ```text
    /// let mut scan = cmd(alloc, "SCAN")?;
    /// scan.push_cursor_arg(0)?;
    /// for key in scan.iter::<String, _>(link, 1_000)? {
    ///     keys.push(key?)?;
    /// }
    /// ```
    ///
    /// In `crates/example_scan/src/tests.rt`.
    pub fn iter<'a, T: FromRedisValue, C: ConnectionLike>(
        self,
        con: &'a mut C,
        budget: u64,
    ) -> RedisResult<Iter<'a, T, C>>
        ensures same_connection { IfOk result (λ scan. (borrowed scan).ghost_name
            ≡ con.entry.ghost_name) }
        ensures starts { IfOk result (λ scan. Starts T.WIDTH T.of_value (C.connection con.old)
            (C.connection (borrowed scan).now) self budget (scan_state scan)) }
        ensures refused { IfErr result
            (CannotStart T.WIDTH T.of_value (C.connection con.old) self) }
    {
        let progress = self.start_scan(con, budget)?;
        Ok(Scan::over(con, progress))
    }

    /// Sends the command as [`Cmd::iter`] does, and answers a scan that doesn't hold the
    /// connection: it is lent one at each call.
    ///
    /// Fails as [`Cmd::iter`] does; the connection is then as the command's request left it, and the
    /// command is dropped.
    pub fn start_scan<T: FromRedisValue, C: ConnectionLike>(
        self,
        con: &mut C,
        budget: u64,
    ) -> RedisResult<ScanProgress<T>>
        ensures { MatchResult result
            (λ p. Starts T.WIDTH T.of_value (C.connection con.old) (C.connection con.new) self
            budget (state_of p))
            (λ e. FirstRequest T.WIDTH T.of_value (C.connection con.old) (C.connection con.new)
            self (Err e)) }
    {
        ScanProgress::start(self.alloc, con, self, budget)
    }
}

/// What any reply is answered with; not inlined, so that others aren't moved for it.
#[inline(never)]
fn answer<T: FromRedisValue>(alloc: Global, reply: Value) -> RedisResult<T>
    ensures { Answers T.of_value result reply }
{
    let value = reply.extract_error()?;
    Ok(T::from_redis_value(alloc, value)?)
}

/// Whether a reply may hold a server error; false of those that are one line or one string, as most
/// are.
fn may_hold_error(reply: &Value) -> bool
    ensures { result ≡ false → first_error reply.now ≡ None }
{
    !matches!(
        reply,
        Value::Nil | Value::Okay | Value::Int(_) | Value::SimpleString(_) | Value::BulkString(_)
    )
}

impl RedisWrite for Cmd {
    ghost use Rattle.std.specs.Prelude.{ℕ, Bool, Option};

    ghost args = { λ c. c.args };

    /// Whether a reply is waited for, and the cursor.
    ghost kept = { record { What = Bool × Option ℕ; of = λ c. (c.no_response, c.cursor) } };

    fn write_arg(&mut self, arg: &[u8]) -> RedisResult<()>
        ensures ok { OnOk result (self.new.args ≡ self.old.args ++ arg.now ∷ []) }
        ensures err { OnErr result (self.new.args ≡ self.old.args) }
        ensures memory { OnlyMemory result }
        ensures rest { self.new ≡ record self.old { args = self.new.args } }
    {
        self.encoded_args.push(arg)?;
        Ok(())
    }

    fn open_arg(&mut self) -> RedisResult<()>
        ensures ok { OnOk result (self.new.args ≡ self.old.args ++ [] ∷ []) }
        ensures err { OnErr result (self.new.args ≡ self.old.args) }
        ensures memory { OnlyMemory result }
        ensures rest { self.new ≡ record self.old { args = self.new.args } }
    {
        self.encoded_args.push(&[])?;
        Ok(())
    }

    /// Appends bytes to the last argument, which has to be there. A cursor argument keeps its text
    /// and becomes an ordinary argument. Fails only with `OutOfMemory`, and then leaves the command
    /// as it was.
    fn extend_arg(&mut self, more: &[u8]) -> RedisResult<()>
        requires { 0 < length self.old.args }
        ensures ok { OnOk result (self.new.args ≡ extended self.old.args more.now) }
        ensures err { OnErr result (self.new.args ≡ self.old.args) }
        ensures memory { OnlyMemory result }
        ensures whole { OnOk result (self.new ≡ with_extended_arg more.now self.old) }
        ensures unchanged { OnErr result (self.new ≡ self.old) }
    {
        if !self.ends_in_cursor() {
            self.encoded_args.extend_last(more)?;
            return Ok(());
        }
        let mut buffer = Buffer::new();
        let text = buffer.format(self.cursor.unwrap_or(0)).as_bytes();
        self.encoded_args.push_both(text, more)?;
        self.cursors.pop();
        Ok(())
    }

    fn reserve_space_for_args<I: IntoIterator<Item = usize> + Drop>(
        &mut self,
        additional: I,
    ) -> RedisResult<()>
        requires { IsFiniteIterable I.into_iter_gives I.IntoIter.can_next I.IntoIter.remaining
            additional }
        ensures same { self.new.args ≡ self.old.args }
        ensures memory { OnlyMemory result }
        ensures rest { self.new ≡ self.old }
    {
        self.encoded_args.reserve_space_for_args(additional)
    }
}
