//! What a reply gives a scan.

ghost use Rattle.std.specs.Prelude.{◌≡◌};
ghost use Rattle.resp_from.specs.Conversion.{Converts};
ghost use Rattle.resp_command.specs.ScanReplies.{IsBatch, IsFirstPage, IsPage};

use crate::pages::Page;
use resp_from::FromRedisValue;
use resp_value::{Items, ParsingError, Value};
use std::alloc::Global;

/// The next cursor, and for each item of a page its value, or why it is none.
#[derive(Drop)]
pub struct Batch<T> {
    pub cursor: u64,
    pub results: Vec<Result<T, ParsingError>>,
}

impl<T: FromRedisValue> Batch<T> {
    /// The batch of a reply that is a cursor and a list.
    ///
    /// Refused where it is none, or on `OutOfMemory`.
    pub fn of_page(alloc: Global, reply: Value) -> Result<Batch<T>, ParsingError>
        ensures converts { Converts (IsBatch IsPage T.WIDTH T.of_value reply) result }
    {
        let page = Page::of_reply(alloc, reply)?;
        let cursor = page.cursor;
        match page.results {
            Some(results) => Ok(Batch { cursor, results }),
            None => Err(ParsingError::OutOfMemory),
        }
    }

    /// The batch of the first reply, which may also be a list without a cursor.
    ///
    /// Refused where it is neither, or on `OutOfMemory`.
    pub fn of_first_page(alloc: Global, reply: Value) -> Result<Batch<T>, ParsingError>
        ensures converts { Converts (IsBatch IsFirstPage T.WIDTH T.of_value reply) result }
    {
        if reply.looks_like_cursor() {
            return Batch::of_page(alloc, reply);
        }
        let items = <Items<Value>>::from_redis_value(alloc, reply)?;
        let results = T::from_each_redis_values(alloc, items.into_vec())?;
        Ok(Batch { cursor: 0, results })
    }
}
