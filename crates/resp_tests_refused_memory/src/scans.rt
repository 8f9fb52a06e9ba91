//! Scans: want of memory is an item, and takes one of the budget.

use crate::heap::{Test, refuse, was_refused};
use crate::links::{Asked, Link, Until, answered, link, sent};
use resp_core::{Cmd, ConnectionLike, ErrorKind, RedisResult, ScanProgress, cmd};
use std::process::Abort;

/// Pages: cursor 7 and nothing; cursor 4 and `b`; cursor 0 and nothing.
const PAGES: &[u8] = b"*2\r\n$1\r\n7\r\n*0\r\n\
    *2\r\n$1\r\n4\r\n*1\r\n$1\r\nb\r\n\
    *2\r\n$1\r\n0\r\n*0\r\n";

/// A request, with its cursor of one digit.
const REQUEST: &[u8] = b"*2\r\n$4\r\nSCAN\r\n$1\r\n0\r\n";

/// `SCAN 0`.
pub fn scan_command(rt: &impl Test) -> Cmd {
    let mut command = cmd(rt.alloc(), "SCAN").expect(rt, "no refusal");
    command.push_cursor_arg(0).expect(rt, "no refusal");
    command
}

/// The last page, and what follows it.
const LAST_PAGE: &[u8] = b"*2\r\n$1\r\n0\r\n*1\r\n$1\r\nb\r\n:7\r\n";

const OF_SCAN: Asked<'static> = Asked {
    incoming: LAST_PAGE,
    request: REQUEST.len(),
};

/// The first item of a scan that is lent its connection.
fn first_of(
    con: &mut Link,
    started: RedisResult<ScanProgress<String>>,
) -> RedisResult<Option<RedisResult<String>>> {
    let mut scan = started?;
    Ok(scan.next(con))
}

/// The first request is refused: nothing was sent, or the link is broken; or the reply is taken.
#[test]
fn first_requests(rt: HostRuntime) {
    let command = scan_command(&rt);
    let mut con = link(&rt, LAST_PAGE);
    refuse(rt.alloc());
    let started = command.start_scan(&mut con, 9);
    let answer = first_of(&mut con, started);
    answered(
        &rt,
        (con, OF_SCAN, Until::Conversion),
        answer,
        "Ok(Some(Ok(\"b\")))",
    );
}

/// The first item of a scan that holds its connection.
fn first_item(command: Cmd, con: &mut Link) -> RedisResult<Option<RedisResult<String>>> {
    let mut scan = command.iter::<String, Link>(con, 9)?;
    Ok(scan.next())
}

/// The same of a scan that holds its connection.
#[test]
fn first_requests_of_iterators(rt: HostRuntime) {
    let command = scan_command(&rt);
    let mut con = link(&rt, LAST_PAGE);
    refuse(rt.alloc());
    let answer = first_item(command, &mut con);
    answered(
        &rt,
        (con, OF_SCAN, Until::Conversion),
        answer,
        "Ok(Some(Ok(\"b\")))",
    );
}

/// One letter for an answer: the item, memory, the budget, a broken link, or the end.
fn letter(answer: &Option<RedisResult<String>>) -> char {
    match answer {
        None => '.',
        Some(Ok(text)) => text.chars().next().unwrap_or('?'),
        Some(Err(error)) => match error.kind() {
            ErrorKind::OutOfMemory => 'M',
            ErrorKind::Client => 'C',
            ErrorKind::Io => 'I',
            _ => '?',
        },
    }
}

/// What the next call answers.
fn next_letter<C: ConnectionLike>(scan: &mut ScanProgress<String>, con: &mut C) -> char {
    letter(&scan.next(con))
}

/// What three calls answered, the first with a request refused, and whether one was.
pub fn three<C: ConnectionLike>(rt: &impl Test, budget: u64, con: &mut C) -> (String, bool) {
    let scan = scan_command(rt).start_scan(con, budget);
    let mut scan: ScanProgress<String> = scan.expect(rt, "no refusal");
    refuse(rt.alloc());
    let first = next_letter(&mut scan, con);
    let refused = was_refused(rt.alloc());
    let second = next_letter(&mut scan, con);
    let third = next_letter(&mut scan, con);
    let answers = format!(in rt.alloc(); "{first}{second}{third}");
    (answers.expect(rt, "no refusal"), refused)
}

/// Three calls over a link, and then the cursors that were sent.
fn over_link(rt: &impl Test, budget: u64) -> (String, bool) {
    let mut con = link(rt, PAGES);
    let (mut shown, refused) = three(rt, budget, &mut con);
    for request in sent(con).as_slice().chunks(REQUEST.len()) {
        let digit = request.get(18).copied().unwrap_or(b'?');
        shown.push(char::from(digit)).expect(rt, "no refusal");
    }
    (shown, refused)
}

/// A request refused in the first call gives one of these, and none refused the first.
pub fn is_one_of(rt: &impl Abort, (shown, refused): (String, bool), wanted: &[&str]) {
    let place = wanted.iter().position(|text| *text == shown.as_str());
    assert!(rt; place.is_some(), "{shown}");
    assert!(rt; refused || place == Some(0), "{shown}");
}

/// Nothing was refused; the request wasn't made, and is made at the next call; the items are lost;
/// the reply is lost, and the link is broken.
#[test]
fn later_requests(rt: HostRuntime) {
    let wanted = ["b..074", "Mb.074", "M..074", "MII07"];
    is_one_of(&rt, over_link(&rt, 9), wanted.as_slice());
}

/// With a budget of two, the refused call has taken one.
#[test]
fn a_refusal_takes_one_of_the_budget(rt: HostRuntime) {
    let wanted = ["b..074", "MbC07", "M..074", "MIC07"];
    is_one_of(&rt, over_link(&rt, 2), wanted.as_slice());
}
