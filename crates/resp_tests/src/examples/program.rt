//! The program `resp` where its streams fail, where its words can't be had, and over many replies.

use crate::checks::{Test, assert_text, link, string};
use crate::testing::{Device, bytes_text};
use resp_cli::{pack, print_no_words, query, read};
use std::io;

/// The words `GET` and `k`.
fn words(rt: &impl Test) -> Vec<String> {
    let mut words = Vec::new(rt.alloc());
    for word in ["GET", "k"] {
        words.push(string(rt, word)).expect(rt, "memory");
    }
    words
}

/// A stream that fails at its first call.
fn closed(rt: &impl AllocGlobal) -> Device {
    Device::failing(rt.alloc(), b"", 9, 1, Some(io::ErrorKind::BrokenPipe))
}

/// The bytes are this text.
fn assert_bytes(rt: &impl Test, bytes: Vec<u8>, wanted: &str) {
    assert_text(rt, bytes_text(rt.alloc(), bytes.as_slice()), wanted);
}

#[test]
fn words_that_cannot_be_had(rt: HostRuntime) {
    let usage = "usage: resp pack WORD.. | resp read | resp query [--atomic] WORD.. [, WORD..]..\n";
    for (kind, printed, status) in [
        (io::ErrorKind::OutOfMemory, "refused: out of memory\n", 2),
        (io::ErrorKind::InvalidData, usage, 1),
    ] {
        let mut err: Vec<u8> = Vec::new(rt.alloc());
        assert_eq!(rt; print_no_words(&io::Error::from(kind), &mut err), status);
        assert_bytes(&rt, err, printed);
    }
}

#[test]
fn a_reader_that_fails(rt: HostRuntime) {
    let mut out: Vec<u8> = Vec::new(rt.alloc());
    let mut err: Vec<u8> = Vec::new(rt.alloc());
    let fault = Some(io::ErrorKind::ConnectionReset);
    let mut reader = Device::failing(rt.alloc(), b":1\r\n", 9, 2, fault);
    assert_eq!(rt; read(rt.alloc(), &mut reader, &mut out, &mut err), 2);
    assert_bytes(&rt, out, "int(1)\n");
    assert_bytes(&rt, err, "refused: I/O error\n");
}

#[test]
fn streams_that_fail(rt: HostRuntime) {
    let words = words(&rt);
    let mut err: Vec<u8> = Vec::new(rt.alloc());
    assert_eq!(rt;
        pack(rt.alloc(), words.as_slice(), &mut closed(&rt), &mut err),
        2
    );
    assert_bytes(&rt, err, "refused: I/O error\n");
    assert_eq!(rt;
        pack(
            rt.alloc(),
            words.as_slice(),
            &mut closed(&rt),
            &mut closed(&rt)
        ),
        2
    );
    // The status of wrong words stays, and an answer that can't be printed is a refusal.
    assert_eq!(rt;
        pack(rt.alloc(), &[], &mut closed(&rt), &mut closed(&rt)),
        1
    );
    let mut link = link(&rt, b":1\r\n");
    assert_eq!(rt;
        query(rt.alloc(), words.as_slice(), &mut link, &mut closed(&rt)),
        2
    );
}

#[test]
fn many_replies(rt: HostRuntime) {
    let pairs = b"*2\r\n+a\r\n:1\r\n$3\r\nabc\r\n".repeat(rt.alloc(), 50_000);
    let pairs = pairs.expect(&rt, "memory");
    let mut out: Vec<u8> = Vec::new(rt.alloc());
    let mut err: Vec<u8> = Vec::new(rt.alloc());
    assert_eq!(rt;
        read(rt.alloc(), &mut pairs.as_slice(), &mut out, &mut err),
        0
    );
    let lines = out.iter().filter(|byte| **byte == b'\n').count();
    assert_eq!(rt; (lines, err.len()), (100_000, 0));
}
