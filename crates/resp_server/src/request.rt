//! Requests, as a server reads them.

ghost use Rattle.std.specs.Prelude.{◌≡◌, ◌↔◌, ◌<◌, true, false, ℕ, List, length, Err};
ghost use Rattle.std.specs.Prelude.{IsOk, IfOk, IfErr, OnOk, IsTrue};
ghost use Rattle.std.specs.List.{list_all};
ghost use Rattle.std.specs.Str.{str_eq_ignore_ascii_case};
ghost use Rattle.resp_parse.specs.State.{StandsAfter, has_failed, KeepsFaultOffset};
ghost use Rattle.resp_parse.specs.Bounds.{Bounded, OneCall};
ghost use Rattle.resp_value.specs.Views.{is_bulk_string};
ghost use Rattle.resp_command.specs.Packed.{as_value};
ghost use Rattle.resp_server.specs.Requests.{after_name, are_words, is_request, name_of, words_of};
ghost use Rattle.resp_server.specs.ArgIters.{request_args_left, owned_args_left};
ghost use Rattle.resp_server.specs.Taking.{TakesRequest, no_request};

use crate::args::{OwnedArgs, RequestArgs, bytes};
use resp_parse::Parser;
use resp_value::{ErrorKind, Items, RedisError, RedisResult, Value};
use std::marker::Model;

/// A request of a client: the name of a command and its arguments, any bytes each.
///
/// Contracts see the list of them, the name first; there is always a name.
#[derive(Drop)]
pub struct Request {
    words: Items<Value>,
}

impl Model for Request {
    ghost use Rattle.std.specs.Prelude.{◌≡◌, true};
    ghost use Rattle.resp_args.specs.Args.{Args};
    ghost use Rattle.resp_server.specs.Requests.{are_words, words_of};

    ghost Value = { Args };

    ghost view = { λ r. words_of r.words };

    ghost invariant = { λ r. are_words r.words ≡ true };
}

impl Request {
    /// The request that a value is: an array of at least one bulk string. Any other value comes
    /// back as the `Err`. Takes no memory.
    #[tactic(auto, using(crate::proofs::Words::words_are))]
    pub fn from_value(value: Value) -> Result<Request, Value>
        ensures accepts { IsOk result ↔ (is_request value ≡ true) }
        ensures made { IfOk result (λ request. value ≡ as_value request) }
        ensures given_back { IfErr result (λ other. other ≡ value) }
    {
        match value {
            Value::Array(words) => {
                if !words.is_empty() && are_bulk_strings(words.as_slice()) {
                    Ok(Request { words })
                } else {
                    Err(Value::Array(words))
                }
            }
            other => Err(other),
        }
    }

    /// The next request of a parser; None while the bytes since the last value are incomplete.
    ///
    /// Fails as [`Parser::take_value`] does; and with kind `Client` where the next value is no
    /// request. That value is then taken, and the parser can go on with the bytes after it.
    pub fn take(parser: &mut Parser) -> RedisResult<Option<Request>>
        ensures failed { parser.old.failed ≡ true → (result ≡ Err has_failed)
            × (parser.new ≡ parser.old) }
        ensures takes { (b : List ℕ) → StandsAfter parser.old b → TakesRequest b parser.new result }
        ensures limits { parser.new.limits ≡ parser.old.limits }
        ensures bounds { Bounded parser.new }
        ensures offset { parser.old.failed ≡ false → KeepsFaultOffset parser.new result }
        ensures counts { parser.old.failed ≡ false
            → OneCall parser.old.counts parser.new.counts }
    {
        match parser.take_value()? {
            Some(value) => match Request::from_value(value) {
                Ok(request) => Ok(Some(request)),
                Err(_) => Err(not_a_request()),
            },
            None => Ok(None),
        }
    }

    /// How many words there are: the name and the arguments, so at least one.
    pub fn len(&self) -> usize
        ensures len { result ≡ length self.now }
        ensures named { 0 < result }
    {
        self.words.len()
    }

    /// The name of the command.
    pub fn name(&self) -> &[u8]
        ensures { result.now ≡ name_of self.now }
    {
        match self.words.as_slice() {
            [name, ..] => bytes(name),
            [] => &[],
        }
    }

    /// Whether this is the name of the command, in upper or lower case.
    pub fn is_named(&self, name: &str) -> bool
        ensures { result ≡ str_eq_ignore_ascii_case (name_of self.now) name.now }
    {
        self.name().eq_ignore_ascii_case(name.as_bytes())
    }

    /// The arguments after the name, in order.
    pub fn args(&self) -> RequestArgs<'_>
        ensures { request_args_left result ≡ after_name self.now }
    {
        match self.words.as_slice() {
            [_, args @ ..] => RequestArgs::over(args),
            [] => RequestArgs::over(&[]),
        }
    }

    /// The name and the arguments, in order and by move. Takes no memory.
    pub fn into_args(self) -> OwnedArgs
        ensures { owned_args_left result ≡ self }
    {
        let Request { words } = self;
        OwnedArgs::over(words.allocator(), words.into_vec())
    }
}

/// Whether each value is a bulk string.
fn are_bulk_strings(words: &[Value]) -> bool
    ensures { result ≡ list_all is_bulk_string words.now }
{
    for word in words {
        if !matches!(word, Value::BulkString(_)) {
            return false;
        }
    }
    true
}

/// What a client is refused with that sends another value.
fn not_a_request() -> RedisError
    ensures { result ≡ no_request }
{
    RedisError::from((ErrorKind::Client, "request is not an array of bulk strings"))
}
