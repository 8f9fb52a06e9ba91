//! Links over devices that fail at each call, that end after each byte, and that are asked after
//! failures: what is answered, whether the link is broken then, its pushes, and what was asked of
//! the devices.

use crate::checks::{Test, assert_text};
use crate::devices::checks::{Spec, TAKES_ALL, assert_ping, assert_session, device};
use crate::testing::{Call, session_text};
use resp_core::{ByteLink, IoKind, Limits, ReplySource, Writing};
use std::io::ErrorKind;

/// `PING` is sent once over a link that reads so; this shows before what is sent.
fn assert_one_ping(rt: &impl Test, reader: Spec, wanted: &str) {
    let devices = (device(rt, reader), device(rt, TAKES_ALL));
    let text = session_text(rt.alloc(), Limits::default(), devices, &[Call::Ping]);
    let sent = ", 1 writes, 1 flushes: *1\r\n$4\r\nPING\r\n";
    assert_eq!(rt; text.strip_suffix(sent), Some(wanted));
}

const RESET: Option<ErrorKind> = Some(ErrorKind::ConnectionReset);

#[test]
fn a_query_flushes_its_writer(rt: HostRuntime) {
    assert_one_ping(&rt, (b"$2\r\n42\r\n", 1, 0, None), "42; usable [], 8 reads");
    // The second reply is there already, and nothing is asked for it.
    let reader = (b"$2\r\n42\r\n:7\r\n".as_slice(), 99, 2, RESET);
    let wanted = "42; 7; ConnectionReset; broken [], 2 reads, 42 writes, 3 flushes: \
        *1\r\n$4\r\nPING\r\n*1\r\n$4\r\nPING\r\n*1\r\n$4\r\nPING\r\n";
    assert_session(&rt, (reader, (b"", 1, 0, None)), &[Call::Ping; 3], wanted);
}

#[test]
fn nothing_is_asked_after_a_refusal(rt: HostRuntime) {
    each! { assert_one_ping, rt;
        (b":x\r\n:1\r\n", 4, 0, None) => "NotInteger; broken [], 1 reads",
        (b":1\r\n", 2, 2, None) => "UnexpectedEof; broken [], 2 reads",
        (b":1\r\n", 4, 1, Some(ErrorKind::Interrupted)) => "Interrupted; broken [], 1 reads",
        (b"$1\r\n1\r\n", 4, 2, Some(ErrorKind::TimedOut)) => "TimedOut; broken [], 2 reads",
    }
}

#[test]
fn a_full_writer_breaks_it(rt: HostRuntime) {
    let reader: Spec = (b":7\r\n", 4, 0, None);
    let full = (b"".as_slice(), 1, 4, Some(ErrorKind::BrokenPipe));
    let wanted = "BrokenPipe; broken [], 0 reads, 4 writes, 0 flushes: *1\r";
    assert_session(&rt, (reader, full), &[Call::Ping], wanted);
    let deaf = (b"".as_slice(), 99, 1, None);
    let wanted = "WriteZero; broken [], 0 reads, 1 writes, 0 flushes: ";
    assert_session(&rt, (reader, deaf), &[Call::Ping], wanted);
}

#[test]
fn asks_for_at_most_4096(rt: HostRuntime) {
    let reader = device(&rt, (b"", 1, 0, None));
    let mut link = ByteLink::new(rt.alloc(), reader, Vec::new(rt.alloc()));
    assert_ping(&rt, &mut link, "UnexpectedEof");
    let (source, _sink) = link.into_ends();
    assert_eq!(rt; source.into_inner().most, 4096);
}

const REQUEST: &str = "*1\r\n$5\r\nMULTI\r\n*3\r\n$3\r\nSET\r\n$1\r\nk\r\n$1\r\n1\r\n\
    *2\r\n$3\r\nGET\r\n$1\r\nk\r\n*1\r\n$4\r\nEXEC\r\n";

const REPLIES: &[u8] = b"+OK\r\n+QUEUED\r\n+QUEUED\r\n*2\r\n+OK\r\n$1\r\n1\r\n";

/// The transaction over devices that move one byte a call and fail at these calls is answered so,
/// with so many reads, writes and flushes, and so many bytes of the request are sent.
fn assert_transaction(
    rt: &impl Test,
    (incoming, read, write): (&'static [u8], usize, usize),
    answer: &str,
    (reads, writes, flushes, sent): (usize, usize, usize, usize),
) {
    let reader = (incoming, 1, read, Some(ErrorKind::TimedOut));
    let writer = (b"".as_slice(), 1, write, Some(ErrorKind::BrokenPipe));
    let sent = REQUEST.get(..sent).unwrap_or("");
    let wanted = format!(in rt.alloc();
        "{answer} [], {reads} reads, {writes} writes, {flushes} flushes: {sent}"
    );
    let wanted = wanted.expect(rt, "memory");
    assert_session(rt, (reader, writer), &[Call::Transaction], wanted.as_str());
}

#[test]
fn a_writer_that_fails_at_each_call(rt: HostRuntime) {
    assert_eq!(rt; (REQUEST.len(), REPLIES.len()), (76, 39));
    for k in 1..=76 {
        assert_transaction(&rt, (REPLIES, 0, k), "BrokenPipe; broken", (0, k, 0, k - 1));
    }
}

#[test]
fn a_writer_that_fails_to_flush(rt: HostRuntime) {
    let reader = device(&rt, (REPLIES, 1, 0, None));
    let mut writer = device(&rt, (b"", 1, 0, None));
    writer.flush_fault = Some(ErrorKind::BrokenPipe);
    let calls = &[Call::Transaction];
    let text = session_text(rt.alloc(), Limits::default(), (reader, writer), calls);
    let wanted = "BrokenPipe; broken [], 0 reads, 76 writes, 1 flushes: ";
    assert_eq!(rt; text.strip_prefix(wanted), Some(REQUEST));
}

#[test]
fn a_reader_that_fails_at_each_call(rt: HostRuntime) {
    for k in 1..=39 {
        assert_transaction(&rt, (REPLIES, k, 0), "TimedOut; broken", (k, 76, 1, 76));
    }
}

#[test]
fn a_reader_that_ends_after_each_byte(rt: HostRuntime) {
    for n in 0..39 {
        let early = (&REPLIES[..n], 0, 0);
        assert_transaction(&rt, early, "UnexpectedEof; broken", (n + 1, 76, 1, 76));
    }
    assert_transaction(&rt, (REPLIES, 0, 0), "(1,); usable", (39, 76, 1, 76));
}

/// Each call there is, after one that breaks the link.
const ALL: &[Call] = &[
    Call::Ping,
    Call::Ping,
    Call::Unanswered,
    Call::Empty,
    Call::Packed(b"x"),
    Call::Packed(b""),
    Call::Several(b"x", 0, 1),
    Call::Several(b"", 0, 0),
    Call::Transaction,
];

/// Each call over devices of single bytes that fail at these calls shows this, where a point is the
/// refusal of a broken link.
fn assert_shown(
    rt: &impl Test,
    (incoming, read, write): (&'static [u8], usize, usize),
    wanted: &str,
) {
    let reader = (incoming, 1, read, Some(ErrorKind::TimedOut));
    let writer = (b"".as_slice(), 1, write, Some(ErrorKind::BrokenPipe));
    let devices = (device(rt, reader), device(rt, writer));
    let text = session_text(rt.alloc(), Limits::default(), devices, ALL);
    let text = text.replace(rt.alloc(), "link is broken - Io; ", ".");
    assert_text(rt, text.expect(rt, "memory"), wanted);
}

#[test]
fn a_broken_link_asks_nothing(rt: HostRuntime) {
    const FAULTY: &[u8] = b">2\r\n+message\r\n:1\r\n:x\r\n:2\r\n:3\r\n";
    // Bytes that are no reply, an early end, a reader that fails, and a writer that fails.
    each! { assert_shown, rt;
        (FAULTY, 0, 0) => "NotInteger; ........broken \
            [PushInfo { kind: Message, payload: [int(1)] }], \
            22 reads, 14 writes, 1 flushes: *1\r\n$4\r\nPING\r\n",
        (&FAULTY[..18], 0, 0) => "UnexpectedEof; ........broken \
            [PushInfo { kind: Message, payload: [int(1)] }], \
            19 reads, 14 writes, 1 flushes: *1\r\n$4\r\nPING\r\n",
        (FAULTY, 20, 0) => "TimedOut; ........broken \
            [PushInfo { kind: Message, payload: [int(1)] }], \
            20 reads, 14 writes, 1 flushes: *1\r\n$4\r\nPING\r\n",
        (FAULTY, 0, 3) => "BrokenPipe; ........broken [], 0 reads, 3 writes, 0 flushes: *1",
    }
}

#[test]
fn calls_that_leave_a_link_usable(rt: HostRuntime) {
    let reader: Spec = (b":7\r\n:1\r\n:2\r\n:3\r\n+x\r\n:8\r\n", 4, 0, None);
    let calls = [
        Call::Packed(b"a"),
        Call::Packed(b""),
        Call::Empty,
        Call::Several(b"b", 1, 2),
        Call::Unanswered,
        Call::Ping,
        Call::Ping,
    ];
    let wanted = "int(7); empty command - Client; empty command - Client; [int(2), int(3)]; nil; \
        Incompatible type - Could not convert from string.; 8; \
        usable [], 6 reads, 5 writes, 5 flushes: \
        ab*1\r\n$4\r\nPING\r\n*1\r\n$4\r\nPING\r\n*1\r\n$4\r\nPING\r\n";
    assert_session(&rt, (reader, TAKES_ALL), calls.as_slice(), wanted);
}

/// A link of these limits over these bytes answers two calls so, and then this shows.
fn assert_limited(
    rt: &impl Test,
    (incoming, depth, bytes): (&'static [u8], usize, usize),
    wanted: &str,
) {
    let devices = (device(rt, (incoming, 5, 0, None)), device(rt, TAKES_ALL));
    let limits = Limits {
        depth,
        bytes,
        ..Limits::default()
    };
    let text = session_text(rt.alloc(), limits, devices, &[Call::Ping, Call::Ping]);
    assert_eq!(rt;
        text.split_once(" []").unwrap_or((text.as_str(), "")).0,
        wanted
    );
}

#[test]
fn links_of_limits(rt: HostRuntime) {
    each! { assert_limited, rt;
        (b":5\r\n*1\r\n:7\r\n", 1, 100) => "5; TooDeep; broken",
        (b":5\r\n:67\r\n", 1, 4) => "5; TooLong; broken",
        (b":5\r\n:6\r\n", 1, 4) => "5; 6; usable",
        (b"", 1, 0) => "size limit must be 1 to 2^63 - 1 bytes - InvalidClientConfig",
        (b"", 0, 1) => "depth limit must be 1 to 1000 - InvalidClientConfig",
        (b"", 1001, 1) => "depth limit must be 1 to 1000 - InvalidClientConfig",
    }
}

/// A link that sets so many bytes of pushes aside, over these bytes, answers a call for one reply
/// and a call for two so, and then shows this.
fn assert_push_limit(rt: &impl Test, (incoming, pushes): (&'static [u8], usize), wanted: &str) {
    let devices = (device(rt, (incoming, 3, 0, None)), device(rt, TAKES_ALL));
    let limits = Limits {
        pushes,
        ..Limits::default()
    };
    let calls = [Call::Ping, Call::Several(b"x", 0, 2)];
    let text = session_text(rt.alloc(), limits, devices, &calls);
    assert!(rt; text.starts_with(wanted));
}

#[test]
fn pushes_are_set_aside_up_to_a_limit(rt: HostRuntime) {
    each! { assert_push_limit, rt;
        // A push of eight bytes before, between and after the replies.
        (b">1\r\n+a\r\n:5\r\n:6\r\n:7\r\n", 8) => "5; [int(6), int(7)]; usable [PushInfo",
        (b">1\r\n+a\r\n:5\r\n:6\r\n:7\r\n", 7) => "TooManyPushes; link is broken - Io; broken []",
        (b":5\r\n:6\r\n>1\r\n+a\r\n:7\r\n", 8) => "5; [int(6), int(7)]; usable [PushInfo",
        (b":5\r\n:6\r\n>1\r\n+a\r\n:7\r\n", 7) => "5; TooManyPushes; broken []",
        (b":5\r\n:6\r\n:7\r\n>1\r\n+a\r\n", 0) => "5; [int(6), int(7)]; usable []",
        // Two pushes together, and one without elements, which takes four bytes.
        (b">1\r\n+a\r\n:5\r\n>1\r\n+b\r\n:6\r\n:7\r\n", 16) => "5; [int(6), int(7)]; usable [PushInfo",
        (b">1\r\n+a\r\n:5\r\n>1\r\n+b\r\n:6\r\n:7\r\n", 15) => "5; TooManyPushes; broken [PushInfo",
        (b">0\r\n:5\r\n:6\r\n:7\r\n", 4) => "5; [int(6), int(7)]; usable [PushInfo",
        (b">0\r\n:5\r\n:6\r\n:7\r\n", 0) => "TooManyPushes; link is broken - Io; broken []",
    }
}

/// A source that fails, and whose count of failures is full.
#[derive(Drop)]
struct WornOut {
    failures: u64,
}

impl ReplySource for WornOut {
    ghost use Rattle.std.specs.Prelude.{None, []};

    ghost source = { λ s. record { came = []; to_come = None; failures = s.failures } };

    fn fill(&mut self, _buf: &mut [u8]) -> Result<usize, IoKind> {
        self.failures = self.failures.saturating_add(1);
        Err(IoKind::TimedOut)
    }
}

#[test]
fn a_source_whose_count_of_failures_is_full(rt: HostRuntime) {
    let source = WornOut { failures: u64::MAX };
    let sink = Writing::new(device(&rt, TAKES_ALL));
    let mut link = ByteLink::over(rt.alloc(), source, sink);
    assert_ping(&rt, &mut link, "TimedOut");
    assert!(rt; link.is_broken());
    let (source, _sink) = link.into_ends();
    assert_eq!(rt; source.failures, u64::MAX);
}
