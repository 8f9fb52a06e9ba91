//! Iterators over the words of a request.

ghost use Rattle.std.specs.Prelude.{◌≡◌};
ghost use Rattle.resp_server.specs.Requests.{bytes_of};

use resp_value::{Bytes, Value};
use std::alloc::Global;
use std::{slice, vec};

/// The arguments of a request, in order; made by [`Request::args`](crate::Request::args).
#[derive(Drop)]
pub struct RequestArgs<'a> {
    rest: &'a [Value],
}

impl<'a> RequestArgs<'a> {
    ghost use Rattle.std.specs.Prelude.{map};
    ghost use Rattle.resp_server.specs.ArgIters.{request_args_left};

    /// Over the bytes of these values.
    pub(crate) fn over(rest: &'a [Value]) -> RequestArgs<'a>
        ensures { request_args_left result ≡ map bytes_of rest.now }
    {
        RequestArgs { rest }
    }
}

impl<'a> Iterator for RequestArgs<'a> {
    ghost use Rattle.std.specs.Prelude.{length, IfSome, Some};
    ghost use Rattle.std.specs.Iterator.{YieldsFirstBy, item_count, UpTo, at_most};
    ghost use Rattle.std.specs.Iterator.SizeHint.{IsWithinCount};
    ghost use Rattle.resp_server.specs.ArgIters.{request_args_left, referent};

    type Item = &'a [u8];

    ghost next_gives = { YieldsFirstBy referent request_args_left };

    ghost remaining = { item_count request_args_left };

    fn next(&mut self) -> Option<&'a [u8]> {
        let (word, others) = self.rest.split_first()?;
        self.rest = others;
        Some(bytes(word))
    }

    /// Exactly as many arguments as there are left.
    fn size_hint(&self) -> (usize, Option<usize>)
        ensures lower { IsWithinCount result.0 (at_most (length (request_args_left self.now))) }
        ensures upper { IfSome result.1 (UpTo (at_most (length (request_args_left self.now)))) }
        ensures least { result.0 ≡ length (request_args_left self.now) }
        ensures most { result.1 ≡ Some (length (request_args_left self.now)) }
    {
        (self.rest.len(), Some(self.rest.len()))
    }
}

/// The words of a request, in order and by move; made by
/// [`Request::into_args`](crate::Request::into_args).
#[derive(Drop)]
pub struct OwnedArgs {
    alloc: Global,
    rest: vec::IntoIter<Value>,
}

impl OwnedArgs {
    ghost use Rattle.std.specs.Prelude.{map};
    ghost use Rattle.resp_server.specs.ArgIters.{owned_args_left};

    /// Over the bytes of these values.
    pub(crate) fn over(alloc: Global, words: Vec<Value>) -> OwnedArgs
        ensures { owned_args_left result ≡ map bytes_of words.items }
    {
        OwnedArgs {
            alloc,
            rest: words.into_iter(),
        }
    }
}

impl Iterator for OwnedArgs {
    ghost use Rattle.std.specs.Prelude.{length, IfSome, Some};
    ghost use Rattle.std.specs.Iterator.{YieldsFirst, item_count, UpTo, at_most};
    ghost use Rattle.std.specs.Iterator.SizeHint.{IsWithinCount};
    ghost use Rattle.resp_server.specs.ArgIters.{owned_args_left};

    type Item = Bytes;

    ghost next_gives = { YieldsFirst owned_args_left };

    ghost remaining = { item_count owned_args_left };

    fn next(&mut self) -> Option<Bytes> {
        let word = self.rest.next()?;
        Some(into_bytes(self.alloc, word))
    }

    /// Exactly as many words as there are left.
    fn size_hint(&self) -> (usize, Option<usize>)
        ensures lower { IsWithinCount result.0 (at_most (length (owned_args_left self.now))) }
        ensures upper { IfSome result.1 (UpTo (at_most (length (owned_args_left self.now)))) }
        ensures least { result.0 ≡ length (owned_args_left self.now) }
        ensures most { result.1 ≡ Some (length (owned_args_left self.now)) }
    {
        let left = self.rest.len();
        (left, Some(left))
    }
}

/// The bytes of a bulk string; of any other value, none.
pub(crate) fn bytes(word: &Value) -> &[u8]
    ensures { result.now ≡ bytes_of word.now }
{
    match word {
        Value::BulkString(bytes) => bytes.as_slice(),
        _ => &[],
    }
}

/// The bytes of a bulk string, by move; of any other value, none.
fn into_bytes(alloc: Global, word: Value) -> Bytes
    ensures { result ≡ bytes_of word }
{
    match word {
        Value::BulkString(bytes) => bytes,
        _ => Bytes::new(alloc),
    }
}
