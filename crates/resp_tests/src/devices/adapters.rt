//! Readers as sources and writers as sinks: one call of the device for one call, which isn't
//! repeated.

use crate::devices::checks::device;
use resp_core::{CommandSink, IoKind, Reading, ReplySource, Writing};
use std::io::ErrorKind;

#[test]
fn one_read_a_fill(rt: HostRuntime) {
    let reader = device(&rt, (b":7\r\n", 9, 1, Some(ErrorKind::Interrupted)));
    let mut source = Reading::new(reader);
    let mut buf = [0; 16];
    assert_eq!(rt; source.fill(&mut buf[..]), Err(IoKind::Interrupted));
    assert_eq!(rt; source.into_inner().calls, 1);
}

/// A second read, at the end, would fail.
#[test]
fn one_read_at_the_end(rt: HostRuntime) {
    let reader = device(&rt, (b"", 9, 2, Some(ErrorKind::ConnectionReset)));
    let mut source = Reading::new(reader);
    let mut buf = [0; 16];
    assert_eq!(rt; source.fill(&mut buf[..]), Ok(0));
    assert_eq!(rt; source.into_inner().calls, 1);
}

/// A flush, before all is written, would fail.
#[test]
fn no_flush_at_a_part(rt: HostRuntime) {
    let mut writer = device(&rt, (b"", 1, 2, Some(ErrorKind::ConnectionReset)));
    writer.flush_fault = Some(ErrorKind::ConnectionReset);
    let mut sink = Writing::new(writer);
    assert_eq!(rt; sink.send(b"xy"), Ok(1));
    let writer = sink.into_inner();
    assert_eq!(rt; (writer.calls, writer.flushes), (1, 0));
}

#[test]
fn one_write_a_send(rt: HostRuntime) {
    let writer = device(&rt, (b"", 9, 1, Some(ErrorKind::Interrupted)));
    let mut sink = Writing::new(writer);
    assert_eq!(rt; sink.send(b"x"), Err(IoKind::Interrupted));
    let writer = sink.into_inner();
    assert_eq!(rt; (writer.calls, writer.flushes), (1, 0));
}

#[test]
fn a_write_of_nothing(rt: HostRuntime) {
    let mut sink = Writing::new(device(&rt, (b"", 9, 1, None)));
    assert_eq!(rt; sink.send(b"x"), Err(IoKind::WriteZero));
    assert_eq!(rt; sink.send(b"x"), Ok(1));
}

#[test]
fn one_flush_a_flush(rt: HostRuntime) {
    let mut writer = device(&rt, (b"", 9, 0, None));
    writer.flush_fault = Some(ErrorKind::Interrupted);
    let mut sink = Writing::new(writer);
    assert_eq!(rt; sink.flush(), Err(IoKind::Interrupted));
    let writer = sink.into_inner();
    assert_eq!(rt; (writer.calls, writer.flushes), (0, 1));
}
