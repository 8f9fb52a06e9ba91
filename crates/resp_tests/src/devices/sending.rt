//! Commands whose last argument is read as it is sent: from readers that give a byte a call, end
//! early or fail, and over writers that fail.

use crate::checks::{Test, assert_answer, assert_text};
use crate::devices::checks::{Spec, TAKES_ALL, device};
use crate::testing::{Device, bytes_text, command};
use resp_core::{ByteLink, Cmd, Reading, RedisResult};
use std::io::ErrorKind;

/// The command `SET k`, without its value.
fn set_key(rt: &impl Test) -> Cmd {
    command(rt.alloc(), &["SET", "k"]).expect(rt, "memory")
}

/// The writer was sent this, and flushed where the command went through.
fn assert_written(rt: &impl Test, writer: &Device, sent: &str, broken: bool) {
    assert_text(rt, bytes_text(rt.alloc(), writer.taken.as_slice()), sent);
    assert!(rt; writer.flushes == usize::from(!broken));
}

/// A link is broken exactly where its call was refused.
fn assert_broken(rt: &impl Test, broken: bool, refused: bool) {
    assert!(rt; broken == refused);
}

/// `SET k` and a body of so many bytes, over a link to a peer that says `+OK` for ever.
fn assert_set(
    rt: &impl Test,
    (body, writer): (Spec, Spec),
    len: usize,
    (wanted, sent): (&str, &str),
) {
    let peer = device(rt, (b"+OK\r\n+OK\r\n", 99, 0, None));
    let mut link = ByteLink::new(rt.alloc(), peer, device(rt, writer));
    let mut body = Reading::new(device(rt, body));
    let answered = link.req_command_from(&set_key(rt), len, &mut body);
    let broken = link.is_broken();
    assert_broken(rt, broken, answered.is_err());
    assert_answer(rt, answered, wanted);
    let (_source, sink) = link.into_ends();
    assert_written(rt, &sink.into_inner(), sent, broken);
}

const REQUEST: &str = "*3\r\n$3\r\nSET\r\n$1\r\nk\r\n$5\r\nabcde\r\n";

#[test]
fn a_body_of_five_bytes(rt: HostRuntime) {
    for each in 1..8 {
        let body: Spec = (b"abcde", each, 0, None);
        assert_set(&rt, (body, TAKES_ALL), 5, ("ok", REQUEST));
        assert_set(&rt, (body, (b"", 1, 0, None)), 5, ("ok", REQUEST));
        let more = (b"abcdefgh".as_slice(), each, 0, None);
        assert_set(&rt, (more, TAKES_ALL), 5, ("ok", REQUEST));
    }
}

#[test]
fn a_body_of_no_bytes(rt: HostRuntime) {
    let body: Spec = (b"abcde", 1, 1, Some(ErrorKind::TimedOut));
    let request = "*3\r\n$3\r\nSET\r\n$1\r\nk\r\n$0\r\n\r\n";
    assert_set(&rt, (body, TAKES_ALL), 0, ("ok", request));
}

/// The call succeeded.
fn succeeds<T: Drop>(rt: &impl Test, answered: RedisResult<T>) {
    assert!(rt; answered.is_ok());
}

#[test]
fn only_the_body_is_read(rt: HostRuntime) {
    let peer = device(&rt, (b"+OK\r\n", 99, 0, None));
    let mut link = ByteLink::new(rt.alloc(), peer, Vec::new(rt.alloc()));
    let mut body = Reading::new(device(&rt, (b"abcdefgh", 2, 0, None)));
    succeeds(&rt, link.req_command_from(&set_key(&rt), 5, &mut body));
    asked_at_most(&rt, &body.into_inner(), 5);
}

/// The most bytes that a call asked of the device.
fn asked_at_most(rt: &impl Test, reader: &Device, wanted: usize) {
    assert_eq!(rt; reader.most, wanted);
}

/// What was sent where the body stopped after so many bytes.
fn front(count: usize) -> &'static str {
    REQUEST.get(..count.saturating_add(24)).unwrap_or("")
}

#[test]
fn a_body_that_ends_or_fails_early(rt: HostRuntime) {
    for count in 0..5 {
        let ends: Spec = (&b"abcde"[..count], 1, 0, None);
        let wanted = ("body ended early - Io", front(count));
        assert_set(&rt, (ends, TAKES_ALL), 5, wanted);
        let fails = (b"abcde".as_slice(), 1, count + 1, Some(ErrorKind::TimedOut));
        let wanted = ("body wasn't read - Io", front(count));
        assert_set(&rt, (fails, TAKES_ALL), 5, wanted);
    }
}

#[test]
fn a_writer_that_fails_at_each_byte(rt: HostRuntime) {
    assert_eq!(rt; REQUEST.len(), 31);
    let body: Spec = (b"abcde", 2, 0, None);
    for call in 1..=31 {
        let writer = (b"".as_slice(), 1, call, Some(ErrorKind::BrokenPipe));
        let sent = REQUEST.get(..call - 1).unwrap_or("");
        assert_set(&rt, (body, writer), 5, ("BrokenPipe", sent));
    }
}
