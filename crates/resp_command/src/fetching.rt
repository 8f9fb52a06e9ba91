//! The requests of a scan.

ghost use Rattle.std.specs.Prelude.{◌≡◌, ◌∷◌, []};
ghost use Rattle.resp_command.specs.Scans.{LaterRequest, SendsPacked, scan_request};
ghost use Rattle.resp_command.specs.ScanReplies.{answers_of, as_answers, latest};
ghost use Rattle.resp_command.specs.Fetching.{IsFetchedPage, Fetches};

use crate::command::Cmd;
use crate::connection::ConnectionLike;
use crate::pages::Page;
use resp_from::FromRedisValue;
use resp_value::{ParsingError, RedisError, RedisResult, Value};
use std::alloc::Global;

/// What was fetched.
#[derive(Drop)]
pub enum FetchedPage<T> {
    /// The results of a batch, one or more.
    Results(Vec<Result<T, ParsingError>>),
    /// The error of a request, or of its reply, or `OutOfMemory` in place of a page's results.
    Failed(RedisError),
    /// Nothing: the cursor is 0, or the budget is used up.
    Nothing,
}

/// What was fetched, the latest cursor, and how many requests may still be made.
#[derive(Drop)]
pub struct Fetched<T> {
    pub page: FetchedPage<T>,
    pub cursor: u64,
    pub left: u64,
}

/// Fetches a page that has results: asks while pages have none, the cursor isn't 0, and the budget
/// lasts.
pub fn fetch<T: FromRedisValue, C: ConnectionLike>(
    alloc: Global,
    con: &mut C,
    command: &Cmd,
    from: u64,
    budget: u64,
) -> Fetched<T>
    ensures { Fetches T.WIDTH T.of_value (C.connection con.old) (C.connection con.new) command.now
        from budget result }
{
    let mut cursor = from;
    let mut left = budget;
    while cursor != 0 && left > 0 {
        left -= 1;
        let given = ask(alloc, con, command, cursor);
        cursor = cursor_after(&given, cursor);
        match page_in(given) {
            FetchedPage::Nothing => {}
            page => {
                return Fetched { page, cursor, left };
            }
        }
    }
    Fetched {
        page: FetchedPage::Nothing,
        cursor,
        left,
    }
}

/// The cursor that a request gave, also where its page has no results; this one where it failed.
fn cursor_after<T>(given: &RedisResult<Page<T>>, cursor: u64) -> u64
    ensures { result ≡ latest cursor (given.now ∷ []) }
{
    match given {
        Ok(page) => page.cursor,
        Err(_) => cursor,
    }
}

/// What was fetched by what a request gave; a page has no results where memory ran out for them.
fn page_in<T: Drop>(given: RedisResult<Page<T>>) -> FetchedPage<T>
    ensures { IsFetchedPage result (answers_of given) }
{
    match given {
        Ok(page) => match page.results {
            Some(results) => page_among(results),
            None => FetchedPage::Failed(RedisError::OutOfMemory),
        },
        Err(error) => FetchedPage::Failed(error),
    }
}

fn page_among<T: Drop>(results: Vec<Result<T, ParsingError>>) -> FetchedPage<T>
    ensures { IsFetchedPage result (as_answers results.items) }
{
    if results.is_empty() {
        FetchedPage::Nothing
    } else {
        FetchedPage::Results(results)
    }
}

/// Sends the command with this cursor, and reads its reply as a page.
fn ask<T: FromRedisValue, C: ConnectionLike>(
    alloc: Global,
    con: &mut C,
    command: &Cmd,
    cursor: u64,
) -> RedisResult<Page<T>>
    ensures { LaterRequest T.WIDTH T.of_value (C.connection con.old) (C.connection con.new)
        command.now cursor result }
{
    let reply = send(con, command, cursor)?;
    Ok(Page::of_reply(alloc, reply)?)
}

fn send<C: ConnectionLike>(con: &mut C, command: &Cmd, cursor: u64) -> RedisResult<Value>
    ensures { SendsPacked (C.connection con.old) (C.connection con.new) (scan_request command.now cursor)
        result }
{
    let bytes = command.get_packed_command_with_cursor(cursor)?;
    con.req_packed_command(bytes.as_slice())
}
