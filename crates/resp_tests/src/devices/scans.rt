//! Scans that are lent their connection, that lose it, and that never end.

use crate::checks::{Test, assert_answer, assert_text, link};
use crate::devices::checks::assert_ping;
use crate::testing::{MemoryLink, command, refusal_text, sent_text};
use resp_core::{Cmd, RedisResult, ScanProgress};

/// `SCAN` with cursor 0.
fn scan_command(rt: &impl Test) -> Cmd {
    let mut command = command(rt.alloc(), &["SCAN"]).expect(rt, "memory");
    command.push_cursor_arg(0).expect(rt, "memory");
    command
}

/// A scan of integers over the link with this budget.
fn start(rt: &impl Test, link: &mut MemoryLink, budget: u64) -> RedisResult<ScanProgress<i64>> {
    scan_command(rt).start_scan(link, budget)
}

/// The scan answers these texts next; `end` is nothing.
fn assert_next(
    rt: &impl Test,
    scan: &mut ScanProgress<i64>,
    link: &mut MemoryLink,
    wanted: &[&str],
) {
    for wanted in wanted {
        match scan.next(link) {
            Some(answer) => assert_answer(rt, answer, wanted),
            None => assert_eq!(rt; "end", *wanted),
        }
    }
}

#[test]
fn a_scan_that_is_lent_its_connection(rt: HostRuntime) {
    let replies = b"*2\r\n$1\r\n7\r\n*1\r\n:4\r\n:9\r\n*2\r\n$1\r\n0\r\n*0\r\n";
    let mut link = link(&rt, replies);
    let mut scan = start(&rt, &mut link, 1).expect(&rt, "a scan");
    assert_next(&rt, &mut scan, &mut link, &["4"]);
    assert_ping(&rt, &mut link, "9");
    assert_next(&rt, &mut scan, &mut link, &["end", "end"]);
}

const USED_UP: &str = "scan budget used up - Client";

#[test]
fn a_scan_over_a_link_that_breaks(rt: HostRuntime) {
    let mut link = link(&rt, b"*2\r\n$1\r\n7\r\n*0\r\n");
    let mut scan = start(&rt, &mut link, 2).expect(&rt, "a scan");
    let wanted = [
        "UnexpectedEof",
        "link is broken - Io",
        USED_UP,
        "end",
        "end",
    ];
    assert_next(&rt, &mut scan, &mut link, wanted.as_slice());
    // The second request found a broken link.
    let sent = "*2\r\n$4\r\nSCAN\r\n$1\r\n0\r\n*2\r\n$4\r\nSCAN\r\n$1\r\n7\r\n";
    assert_text(&rt, sent_text(rt.alloc(), link), sent);
}

#[test]
fn a_scan_that_never_ends(rt: HostRuntime) {
    let replies = b"*2\r\n$1\r\n7\r\n*0\r\n"
        .repeat(rt.alloc(), 1002)
        .expect(&rt, "memory");
    let mut link = link(&rt, replies.as_slice());
    let mut scan = start(&rt, &mut link, 1000).expect(&rt, "a scan");
    assert_next(&rt, &mut scan, &mut link, &[USED_UP, "end", "end"]);
    assert!(rt; !link.is_broken());
    let sent = sent_text(rt.alloc(), link);
    assert_eq!(rt; sent.len(), 1001 * "*2\r\n$4\r\nSCAN\r\n$1\r\n7\r\n".len());
}

/// How a scan of integers by this command over the link is refused, or nothing.
fn refusal(rt: &impl Test, link: &mut MemoryLink, command: Cmd) -> String {
    match command.iter::<i64, MemoryLink>(link, 9) {
        Ok(_) => String::new(rt.alloc()),
        Err(error) => refusal_text(rt.alloc(), &error),
    }
}

#[test]
fn a_refused_scan_asks_once(rt: HostRuntime) {
    for replies in [
        b"-ERR x\r\n:9\r\n".as_slice(),
        b"*2\r\n$1\r\nx\r\n*0\r\n:9\r\n",
    ] {
        let mut link = link(&rt, replies);
        assert!(rt; refusal(&rt, &mut link, scan_command(&rt)).starts_with("Incompatible type"));
        assert_ping(&rt, &mut link, "9");
        let sent = "*2\r\n$4\r\nSCAN\r\n$1\r\n0\r\n*1\r\n$4\r\nPING\r\n";
        assert_text(&rt, sent_text(rt.alloc(), link), sent);
    }
    let mut link = link(&rt, b"");
    let refused = refusal(&rt, &mut link, Cmd::new(rt.alloc()));
    assert_text(&rt, refused, "empty command - Client");
    assert_text(&rt, sent_text(rt.alloc(), link), "");
}
