//! Errors by hand: their forms, their copies, what they print and which are equal.

use crate::checks::{Test, assert_debug, assert_display, assert_equal, link, string};
use crate::testing::pipeline;
use resp_core::{
    ErrorKind, FrameFault, IoKind, ParsingError, RedisError, RetryMethod, ServerError,
    ServerErrorKind, Value, make_extension_error,
};
use std::io;

/// The error prints this, with `{}` and with `{:?}`, and equals itself and its copy.
fn prints(rt: &impl Test, error: &RedisError, wanted: &str) {
    assert_display(rt, error, wanted);
    assert_debug(rt, error, wanted);
    assert_equal(rt, error.try_clone(rt.alloc()), error);
    assert!(rt; *error == *error);
}

/// The error that was made prints this.
fn made_prints(rt: &impl Test, error: RedisError, wanted: &str) {
    prints(rt, &error, wanted);
}

/// A server's error of this line.
fn server_error(rt: &impl Test, line: &str) -> ServerError {
    ServerError::from_text(rt.alloc(), line).expect(rt, "memory")
}

/// A refusal of kind `Client`.
fn refused(text: &'static str) -> RedisError {
    RedisError::from((ErrorKind::Client, text))
}

/// The error of a parse error.
fn parse(error: impl Into<ParsingError> + Drop) -> RedisError {
    RedisError::from(error.into())
}

#[test]
fn errors_print_their_form(rt: HostRuntime) {
    each! { made_prints, rt;
        refused("empty command") => "empty command - Client",
        RedisError::OutOfMemory => "out of memory",
        RedisError::from(server_error(&rt, "WRONGTYPE x")) => "\"WRONGTYPE\": x",
        RedisError::from(server_error(&rt, "LOADING x")) => "BusyLoading: x",
        parse("not a number") => "Incompatible type - not a number",
        parse(FrameFault::TooDeep) => "Incompatible type - value is nested too deeply",
        RedisError::from(IoKind::ConnectionReset) => "ConnectionReset",
        RedisError::from(IoKind::BrokenPipe) => "BrokenPipe",
        RedisError::from(IoKind::TimedOut) => "TimedOut",
        RedisError::from(IoKind::PermissionDenied) => "PermissionDenied",
    }
}

/// A refusal with a detail.
fn detailed(rt: &impl Test) -> RedisError {
    RedisError::from((ErrorKind::Client, "other", string(rt, "why")))
}

#[test]
fn details_of_errors(rt: HostRuntime) {
    let error = detailed(&rt);
    prints(&rt, &error, "other - Client: why");
    assert!(rt; error.detail() == Some("why") && error.code().is_none());
    let described = parse("not a number");
    assert_eq!(rt; described.detail(), Some("not a number"));
}

/// Whether the two errors are equal.
fn alike(a: RedisError, b: RedisError) -> bool {
    a == b
}

#[test]
fn equal_errors(rt: HostRuntime) {
    let broken = ErrorKind::Io;
    assert!(rt; alike(refused("empty command"), refused("formatting failed")));
    assert!(rt; alike(detailed(&rt), refused("empty command")));
    assert!(rt; !alike(refused("x"), RedisError::from((broken, "x"))));
    assert!(rt;
        !alike(
            RedisError::from((broken, "x")),
            RedisError::from(IoKind::Other)
        )
    );
    assert!(rt;
        !alike(
            RedisError::from(IoKind::TimedOut),
            RedisError::from(IoKind::Other)
        )
    );
    assert!(rt; !alike(parse("unknown type byte"), parse(FrameFault::UnknownType)));
    let by_hand = RedisError::Parse(ParsingError::OutOfMemory);
    assert!(rt; by_hand.kind() == ErrorKind::Parse && !alike(by_hand, RedisError::OutOfMemory));
    assert!(rt; alike(parse(ParsingError::OutOfMemory), RedisError::OutOfMemory));
}

#[test]
fn parsing_errors(rt: HostRuntime) {
    let fixed = ParsingError::from("not a number");
    assert!(rt; fixed.frame_fault().is_none() && !fixed.is_out_of_memory());
    assert_display(&rt, &fixed, "Incompatible type - not a number");
    let made = ParsingError::from_text(rt.alloc(), "not a number");
    assert_equal(&rt, made, &fixed);
    assert_equal(&rt, fixed.try_clone(rt.alloc()), &fixed);
    assert!(rt; ParsingError::from(string(&rt, "not a number")) == fixed);
    let fault = ParsingError::from(FrameFault::NotDouble);
    assert_eq!(rt; fault.frame_fault(), Some(FrameFault::NotDouble));
    assert!(rt; ParsingError::OutOfMemory.is_out_of_memory());
}

/// The error is a device's, of this kind.
fn is_of_device(rt: &impl Test, error: RedisError, wanted: IoKind) {
    assert_eq!(rt; error.io_kind(), Some(wanted));
}

#[test]
fn errors_of_the_standard_library(rt: HostRuntime) {
    for (kind, wanted) in [
        (io::ErrorKind::TimedOut, IoKind::TimedOut),
        (io::ErrorKind::BrokenPipe, IoKind::BrokenPipe),
        (io::ErrorKind::WriteZero, IoKind::WriteZero),
        (io::ErrorKind::AlreadyExists, IoKind::Other),
    ] {
        is_of_device(&rt, RedisError::from(io::Error::from(kind)), wanted);
    }
    let refused = io::Error::from(io::ErrorKind::OutOfMemory);
    assert!(rt; alike(RedisError::from(refused), RedisError::OutOfMemory));
    assert!(rt;
        alike(
            RedisError::from(IoKind::OutOfMemory),
            RedisError::OutOfMemory
        )
    );
}

#[test]
fn errors_of_a_server(rt: HostRuntime) {
    let detail = Some(string(&rt, "1 a:1"));
    let error = make_extension_error(string(&rt, "ASK"), detail);
    prints(&rt, &error, "\"ASK\": 1 a:1");
    assert_eq!(rt;
        (error.kind(), error.code()),
        (ErrorKind::Extension, Some("ASK"))
    );
    assert!(rt; error.redirect_node().is_none());
    made_prints(&rt, make_extension_error(string(&rt, "X"), None), "\"X\"");
    let server = ServerError::try_from(error).expect(&rt, "a server's");
    assert_eq!(rt; (server.kind(), server.details()), (None, Some("1 a:1")));
    assert_equal(&rt, server.try_clone(rt.alloc()), &server);
    let back = ServerError::try_from(RedisError::from(IoKind::TimedOut)).err();
    assert_eq!(rt;
        back.and_then(|error| error.io_kind()),
        Some(IoKind::TimedOut)
    );
    assert!(rt; ServerErrorKind::from_code("WRONGTYPE").is_none());
    assert_eq!(rt;
        ErrorKind::from(ServerErrorKind::Ask).category(),
        "key moved (ask)"
    );
}

/// The server errors that an error stands for, each with its position.
fn listed(rt: &impl Test, error: RedisError) -> Vec<(usize, ServerError)> {
    let errors = error.into_server_errors(rt.alloc()).expect(rt, "memory");
    errors.expect(rt, "server errors")
}

/// A general error of this kind, with an address as its detail.
fn addressed(rt: &impl Test, kind: ErrorKind) -> RedisError {
    RedisError::from((kind, "x", string(rt, "3999 h:1")))
}

/// The error has this code, and sends to this node.
fn sends(rt: &impl Test, error: RedisError, code: Option<&str>, node: Option<(&str, u16)>) {
    assert_eq!(rt; error.code(), code);
    assert_eq!(rt; error.redirect_node(), node);
}

#[test]
fn general_errors_of_a_servers_kind(rt: HostRuntime) {
    let moved = ErrorKind::Server(ServerErrorKind::Moved);
    let crossed = ErrorKind::Server(ServerErrorKind::CrossSlot);
    let node = Some(("h:1", 3999));
    made_prints(&rt, addressed(&rt, moved), "x - Server(Moved): 3999 h:1");
    sends(&rt, RedisError::from((moved, "x")), Some("MOVED"), None);
    sends(&rt, addressed(&rt, moved), Some("MOVED"), node);
    sends(&rt, addressed(&rt, crossed), Some("CROSSSLOT"), None);
    sends(&rt, addressed(&rt, ErrorKind::Client), None, None);
}

/// A pipeline's error with one error in it.
fn lone_failure(rt: &impl Test) -> RedisError {
    let list = vec![in rt.alloc(); (1, server_error(rt, "CROSSSLOT"))].expect(rt, "memory");
    RedisError::Pipeline(list.into())
}

#[test]
fn lists_of_errors(rt: HostRuntime) {
    made_prints(
        &rt,
        lone_failure(&rt),
        "Pipeline failure: [(Index 1, error: CrossSlot)]",
    );
    let mut list = vec![in rt.alloc(); (1, server_error(&rt, "CROSSSLOT"))].expect(&rt, "memory");
    list.push((3, server_error(&rt, "ERR x")))
        .expect(&rt, "memory");
    let pipeline = RedisError::Pipeline(list.into());
    let wanted =
        "Pipeline failures: [(Index 1, error: CrossSlot), (Index 3, error: ResponseError: x)]";
    prints(&rt, &pipeline, wanted);
    assert!(rt; pipeline.kind() == ErrorKind::Server(ServerErrorKind::CrossSlot));
    assert_eq!(rt; listed(&rt, pipeline).len(), 2);
    let lone = RedisError::from(server_error(&rt, "WRONGTYPE x"));
    assert!(rt; listed(&rt, lone).as_slice() == [(0, server_error(&rt, "WRONGTYPE x"))].as_slice());
}

/// What a transaction of two commands is refused with where the second is unknown.
fn refused_transaction(rt: &impl Test) -> RedisError {
    let replies = b"+OK\r\n+QUEUED\r\n-ERR unknown command\r\n-EXECABORT x\r\n";
    let mut link = link(rt, replies);
    let mut transaction = pipeline(rt.alloc(), &[&["SET"], &["FOO"]]).expect(rt, "memory");
    let answer = transaction.atomic().query::<Value>(&mut link);
    answer.expect_err(rt, "a refusal")
}

#[test]
fn aborted_transactions(rt: HostRuntime) {
    let aborted = refused_transaction(&rt);
    let wanted = "Transaction aborted: [(Index 1, error: ResponseError: unknown command)]";
    prints(&rt, &aborted, wanted);
    assert!(rt; aborted.kind() == ErrorKind::Server(ServerErrorKind::ExecAbort));
    assert!(rt; aborted.code() == Some("EXECABORT") && aborted.detail().is_none());
    assert_eq!(rt; aborted.category(), "script execution aborted");
    assert_eq!(rt; aborted.retry_method(), RetryMethod::NoRetry);
    let cause = server_error(&rt, "ERR unknown command");
    assert!(rt; listed(&rt, aborted).as_slice() == [(1, cause)].as_slice());
}
