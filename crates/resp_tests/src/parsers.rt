//! Parsers between calls, and the limits that are chosen.

use crate::checks::{Test, assert_answer, assert_text};
use crate::testing::next_text;
use resp_core::{Limits, Parser, RedisResult, Value, parse_redis_value};

/// The parser is fed a piece, and then answers this.
fn answers_next(rt: &impl Test, parser: &mut Parser, piece: &[u8], wanted: &str) {
    parser.feed(piece).expect(rt, "fed");
    assert_text(rt, next_text(rt.alloc(), parser), wanted);
}

/// The parser is fed each piece, and then answers the text beside it.
fn answers_in_turn(rt: &impl Test, parser: &mut Parser, steps: &[(&str, &str)]) {
    for (piece, wanted) in steps {
        answers_next(rt, parser, piece.as_bytes(), wanted);
    }
}

#[test]
fn a_parser_in_pieces(rt: HostRuntime) {
    let mut parser = Parser::new(rt.alloc());
    assert!(rt; !parser.in_progress() && parser.value_len() == 0);
    answers_next(&rt, &mut parser, b"+a\r", "None");
    assert!(rt; parser.in_progress());
    let steps = [
        ("\n:1\r\n", "simple-string(\"a\")"),
        ("", "int(1)"),
        ("", "None"),
        ("$3\r\nab", "None"),
        ("c", "None"),
        ("\r", "None"),
        ("\n", "bulk-string('\"abc\"')"),
    ];
    answers_in_turn(&rt, &mut parser, steps.as_slice());
    assert!(rt; !parser.in_progress() && parser.fault_offset().is_none());
    assert_eq!(rt; parser.value_len(), 9);
}

#[test]
fn a_failed_parser_takes_nothing(rt: HostRuntime) {
    let mut parser = Parser::new(rt.alloc());
    let steps = [(":1\r\n$3\r\nabc\r", "int(1)"), ("", "None")];
    answers_in_turn(&rt, &mut parser, steps.as_slice());
    assert!(rt; !parser.is_failed() && parser.fault_offset().is_none());
    answers_next(&rt, &mut parser, b"X", "BodyEnd");
    let failed = "Incompatible type - parser has failed";
    assert_text(&rt, next_text(rt.alloc(), &mut parser), failed);
    assert_answer(&rt, parser.feed(b":1\r\n"), failed);
    assert_answer(&rt, parser.parse_value(b":1\r\n".as_slice()), failed);
    assert!(rt; parser.is_failed() && parser.in_progress());
    assert_eq!(rt; parser.fault_offset(), Some(9));
}

#[test]
fn a_fault_shows_after_so_many_bytes(rt: HostRuntime) -> RedisResult<()> {
    let alloc = rt.alloc();
    let limits = Limits {
        depth: 8,
        bytes: 1_000_000,
        ..Limits::default()
    };
    let mut parser = Parser::with_limits(alloc, limits)?;
    parser.feed(b":1\r\n$2\r\nabX")?;
    let one = parser.take_value()?; // Some(Value::Int(1))
    let fault = parser.take_value(); // FrameFault::BodyEnd, shown by the X
    let offset = parser.fault_offset(); // Some(7)
    assert!(rt; one == Some(Value::Int(1)) && offset == Some(7));
    assert_answer(&rt, fault, "BodyEnd");
    Ok(())
}

/// Feeds the bytes; whether more are awaited then.
fn is_awaiting(parser: &mut Parser, bytes: &[u8]) -> bool {
    parser.feed(bytes).is_ok() && matches!(parser.take_value(), Ok(None))
}

/// Feeds the bytes one by one; after each, more are awaited.
fn awaits_more(rt: &impl Test, parser: &mut Parser, bytes: &[u8]) {
    for single in bytes.chunks(1) {
        assert!(rt; is_awaiting(parser, single), "after {single:?}");
    }
}

/// The bytes again and again and then the last ones, one by one: more are awaited until the last of
/// all, and then there is a value. Its Debug form.
fn shown_at_the_end(
    rt: &impl Test,
    parser: &mut Parser,
    bytes: &[u8],
    times: usize,
    last: &[u8],
) -> String {
    for _ in 0..times {
        awaits_more(rt, parser, bytes);
    }
    let (end, front) = last.split_last().expect(rt, "a byte");
    awaits_more(rt, parser, front);
    parser.feed(&[*end]).expect(rt, "fed");
    next_text(rt.alloc(), parser)
}

#[test]
fn nested_arrays_in_single_bytes(rt: HostRuntime) {
    for (limit, times, last, inner, len) in [
        (100, 99, ":1\r\n", "array([array([int(1)])])", 897),
        (1000, 999, ":1\r\n", "array([array([int(1)])])", 8997),
        (1000, 999, "*0\r\n", "array([array([array([])])])", 9000),
    ] {
        let mut parser = Parser::with_depth_limit(rt.alloc(), limit).expect(&rt, "a limit");
        assert_eq!(rt; parser.depth_limit(), limit);
        let shown = shown_at_the_end(&rt, &mut parser, b"*1\r\n", times, last.as_bytes());
        assert!(rt; shown.contains(inner), "{limit}");
        assert_eq!(rt; (shown.len(), parser.in_progress()), (len, false));
    }
}

#[test]
fn a_long_line_in_single_bytes(rt: HostRuntime) {
    let mut parser = Parser::new(rt.alloc());
    awaits_more(&rt, &mut parser, b"+");
    let shown = shown_at_the_end(&rt, &mut parser, b"a", 1_048_576, b"\r\n");
    let text = shown.strip_prefix("simple-string(\"").unwrap_or("");
    assert_eq!(rt;
        (text.len(), text.trim_start_matches('a')),
        (1_048_578, "\")")
    );
}

/// How the large array's elements are shown but for the last: each is a bulk string.
fn shown_strings(rt: &impl Test) -> String {
    let shown = "bulk-string('\"a\\r\\nb\"'), ".repeat(rt.alloc(), 99_999);
    shown.expect(rt, "memory")
}

#[test]
fn a_large_array_in_single_bytes(rt: HostRuntime) {
    let mut parser = Parser::new(rt.alloc());
    awaits_more(&rt, &mut parser, b"*100000\r\n");
    let shown = shown_at_the_end(&rt, &mut parser, b"$4\r\na\r\nb\r\n", 99_999, b"_\r\n");
    let elements = shown
        .strip_prefix("array([")
        .and_then(|text| text.strip_suffix("nil])"));
    assert!(rt; elements == Some(shown_strings(&rt).as_str()));
}

#[test]
fn nulls_without_end(rt: HostRuntime) {
    let limits = Limits {
        depth: 100,
        bytes: 1_000_000,
        ..Limits::default()
    };
    let mut parser = Parser::with_limits(rt.alloc(), limits).expect(&rt, "limits");
    assert_eq!(rt; parser.limits(), limits);
    answers_next(&rt, &mut parser, b"*9223372036854775807\r\n", "None");
    for _ in 0..333_326 {
        answers_next(&rt, &mut parser, b"_\r\n", "None");
    }
    answers_next(&rt, &mut parser, b"_\r\n", "TooLong");
    assert_eq!(rt; parser.fault_offset(), Some(1_000_001));
}

#[test]
fn whole_bytes(rt: HostRuntime) {
    for (bytes, wanted) in [
        (":7\r\n@", "int(7)"),
        ("", "UnexpectedEof"),
        ("$2\r\nab", "UnexpectedEof"),
        ("*9223372036854775807\r\n:1\r\n", "UnexpectedEof"),
        ("@", "UnknownType"),
        ("$1\r\nabc", "BodyEnd"),
    ] {
        assert_answer(&rt, parse_redis_value(rt.alloc(), bytes.as_bytes()), wanted);
    }
    let usual = Limits {
        depth: 100,
        bytes: 9_223_372_036_854_775_807,
        pushes: 9_223_372_036_854_775_807,
    };
    assert!(rt; Limits::default() == usual && Parser::new(rt.alloc()).limits() == usual);
}
