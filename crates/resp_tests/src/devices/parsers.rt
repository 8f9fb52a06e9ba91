//! Parsers over readers and sources: what they answer, their state then, how often they read, and
//! for how many bytes at most.

use crate::checks::{Test, assert_answer, assert_text};
use crate::devices::checks::{Spec, device};
use crate::testing::{next_text, parsing_text};
use resp_core::Parser;
use std::io::ErrorKind;

/// A parser that was fed these bytes answers so over the reader, asked so often; over a source of
/// it, too.
fn assert_parsing(rt: &impl Test, fed: &str, reader: Spec, times: usize, wanted: &str) {
    for by_source in [false, true] {
        let reader = device(rt, reader);
        let asked = (by_source, times);
        assert_text(
            rt,
            parsing_text(rt.alloc(), fed.as_bytes(), reader, asked),
            wanted,
        );
    }
}

#[test]
fn a_readers_fault_is_its_own(rt: HostRuntime) {
    for (kind, wanted) in [
        (
            ErrorKind::TimedOut,
            "TimedOut; int(7); idle, 2 reads of 4096",
        ),
        (
            ErrorKind::BrokenPipe,
            "BrokenPipe; int(7); idle, 2 reads of 4096",
        ),
        (
            ErrorKind::Interrupted,
            "Interrupted; int(7); idle, 2 reads of 4096",
        ),
    ] {
        assert_parsing(&rt, "", (b":7\r\n", 9, 1, Some(kind)), 2, wanted);
    }
}

#[test]
fn a_buffered_value_asks_for_nothing(rt: HostRuntime) {
    let fails = (b"".as_slice(), 9, 1, Some(ErrorKind::TimedOut));
    let three = "int(1); int(2); int(3); idle, 0 reads of 0";
    assert_parsing(&rt, ":1\r\n:2\r\n:3\r\n", fails, 3, three);
    let fourth = "int(1); int(2); int(3); TimedOut; waiting, 1 reads of 4096";
    assert_parsing(&rt, ":1\r\n:2\r\n:3\r\n:", fails, 4, fourth);
}

#[test]
fn parse_value_reads_no_further(rt: HostRuntime) {
    let reader = (b":1\r\n:2\r\n".as_slice(), 3, 0, None);
    assert_parsing(&rt, "", reader, 1, "int(1); waiting, 2 reads of 4096");
    assert_parsing(&rt, "", reader, 2, "int(1); int(2); idle, 3 reads of 4096");
    assert_parsing(
        &rt,
        "",
        (b":7\r\n+x\r\n", 99, 0, None),
        1,
        "int(7); waiting, 1 reads of 4096",
    );
}

/// More bytes than one read may be asked for.
const LONG: [u8; 10_000] = [b'x'; 10_000];

#[test]
fn at_most_4096_bytes_a_read(rt: HostRuntime) {
    let wanted = "BodyEnd; failed, 3 reads of 4096";
    assert_parsing(&rt, "$9000\r\n", (&LONG, 5000, 0, None), 1, wanted);
}

#[test]
fn a_parser_goes_on_after_a_failure(rt: HostRuntime) {
    for at in 1..=12 {
        let reader = (
            b"*2\r\n:1\r\n:2\r\n".as_slice(),
            1,
            at,
            Some(ErrorKind::TimedOut),
        );
        let wanted = "TimedOut; array([int(1), int(2)]); idle, 13 reads of 4096";
        assert_parsing(&rt, "", reader, 2, wanted);
    }
}

#[test]
fn a_reader_that_ends_within_a_value(rt: HostRuntime) {
    for text in [
        b"".as_slice(),
        b"$2\r\nab",
        b"$2\r\nab\r",
        b"*9223372036854775807\r\n:1\r\n",
        b"$9223372036854775807\r\n",
        b"*9223372036854775807\r\n",
        b"~9223372036854775807\r\n",
        b"!9223372036854775807\r\n",
        b"=9223372036854775807\r\n",
        b"%9223372036854775807\r\n",
        b"|9223372036854775807\r\n",
        b">9223372036854775807\r\n",
    ] {
        let calls = if text.is_empty() { 1 } else { 2 };
        let failed = "Incompatible type - parser has failed";
        let wanted = format!(in rt.alloc();
            "UnexpectedEof; {failed}; failed, {calls} reads of 4096"
        );
        let wanted = wanted.expect(&rt, "memory");
        assert_parsing(&rt, "", (text, 99, 0, None), 2, wanted.as_str());
    }
}

/// The parser reads from a reader of these bytes, and answers this.
fn reads(rt: &impl Test, parser: &mut Parser, bytes: &[u8], wanted: &str) {
    assert_answer(rt, parser.parse_value(bytes), wanted);
}

/// The parser answers these without a reader.
fn takes(rt: &impl Test, parser: &mut Parser, wanted: &[&str]) {
    for wanted in wanted {
        assert_text(rt, next_text(rt.alloc(), parser), wanted);
    }
}

#[test]
fn a_parser_over_one_reader_after_another(rt: HostRuntime) {
    let mut parser = Parser::new(rt.alloc());
    reads(&rt, &mut parser, b":1\r\n:2\r\n+a", "int(1)");
    takes(&rt, &mut parser, &["int(2)", "None"]);
    reads(&rt, &mut parser, b"b\r\n:", "simple-string(\"ab\")");
    let failing = device(&rt, (b"", 9, 1, Some(ErrorKind::TimedOut)));
    assert_answer(&rt, parser.parse_value(failing), "TimedOut");
    parser.feed(b"3\r\n$2\r\na").expect(&rt, "fed");
    takes(&rt, &mut parser, &["int(3)", "None"]);
    reads(&rt, &mut parser, b"b", "UnexpectedEof");
    assert!(rt; parser.is_failed() && parser.fault_offset().is_none());
}
