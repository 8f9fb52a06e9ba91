//! Where a scan stands.

ghost use Rattle.std.specs.Prelude.{◌≡◌, ◌<◌, OnSome, MatchResult, Err};
ghost use Rattle.std.specs.Result.{result_map_both};
ghost use Rattle.resp_errors.specs.Errors.{error_of_parsing};
ghost use Rattle.resp_command.specs.Scans.{FirstRequest, Next, Starts, budget_used_up};
ghost use Rattle.resp_command.specs.ScanStates.{answers_left, state_of};

use crate::batch::Batch;
use crate::command::Cmd;
use crate::connection::ConnectionLike;
use crate::fetching::{FetchedPage, fetch};
use resp_from::FromRedisValue;
use resp_value::{ErrorKind, ParsingError, RedisError, RedisResult};
use std::alloc::Global;
use std::vec::IntoIter;

/// A scan that doesn't hold its connection; made by [`Cmd::start_scan`](crate::Cmd::start_scan).
///
/// It has the command, the latest cursor, the results that wait, and how many requests may still be
/// made. Each call is to be lent the same connection.
#[derive(Drop)]
pub struct ScanProgress<T> {
    alloc: Global,
    command: Cmd,
    cursor: u64,
    waiting: IntoIter<Result<T, ParsingError>>,
    left: Option<u64>,
}

impl<T: FromRedisValue> ScanProgress<T> {
    /// Sends the command for the first time, and stands after its reply.
    pub(crate) fn start<C: ConnectionLike>(
        alloc: Global,
        con: &mut C,
        command: Cmd,
        budget: u64,
    ) -> RedisResult<ScanProgress<T>>
        ensures { MatchResult result
            (λ p. Starts T.WIDTH T.of_value (C.connection con.old) (C.connection con.new) command
            budget (state_of p))
            (λ e. FirstRequest T.WIDTH T.of_value (C.connection con.old) (C.connection con.new)
            command (Err e)) }
    {
        let batch: Batch<T> = first_batch(alloc, con, &command)?;
        Ok(ScanProgress {
            alloc,
            command,
            cursor: batch.cursor,
            waiting: batch.results.into_iter(),
            left: Some(budget),
        })
    }

    /// The next answer, as [`Scan`](crate::Scan) says; requests are made where none waits, and else
    /// none is.
    ///
    /// `None` at the end, and ever after.
    pub fn next<C: ConnectionLike>(&mut self, con: &mut C) -> Option<RedisResult<T>>
        ensures next { Next T.WIDTH T.of_value (C.connection con.old) (C.connection con.new)
            (state_of self.old) result (state_of self.new) }
        ensures fewer { OnSome result (answers_left self.new < answers_left self.old) }
    {
        if let Some(result) = self.waiting.next() {
            return Some(as_answer(result));
        }
        let left = self.left?;
        let fetched = fetch(self.alloc, con, &self.command, self.cursor, left);
        self.cursor = fetched.cursor;
        self.left = Some(fetched.left);
        match fetched.page {
            FetchedPage::Results(results) => {
                self.waiting = results.into_iter();
                Some(as_answer(self.waiting.next()?))
            }
            FetchedPage::Failed(error) => Some(Err(error)),
            FetchedPage::Nothing => {
                if self.cursor == 0 {
                    return None;
                }
                self.left = None;
                Some(Err(budget_error()))
            }
        }
    }
}

fn first_batch<T: FromRedisValue, C: ConnectionLike>(
    alloc: Global,
    con: &mut C,
    command: &Cmd,
) -> RedisResult<Batch<T>>
    ensures { FirstRequest T.WIDTH T.of_value (C.connection con.old) (C.connection con.new)
        command.now result }
{
    let reply = con.req_command(command)?;
    Ok(Batch::of_first_page(alloc, reply)?)
}

fn as_answer<T: Drop>(converted: Result<T, ParsingError>) -> RedisResult<T>
    ensures { result ≡ result_map_both (λ x. x) error_of_parsing converted }
{
    Ok(converted?)
}

fn budget_error() -> RedisError
    ensures { result ≡ budget_used_up }
{
    RedisError::from((ErrorKind::Client, "scan budget used up"))
}
