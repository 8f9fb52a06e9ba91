//! Calls of errors that take no memory, by name, as in `no_memory`.

use crate::heap::{Test, equal, refuse_all};
use crate::no_memory::{is_ok, text, took_none};
use resp_core::{
    Description, ErrorKind, FrameFault, IoKind, ParsingError, RedisError, RetryMethod, ServerError,
    ServerErrorKind, make_extension_error,
};
use std::alloc::{AllocError, AllocFailed};
use std::io;

/// A server's error.
fn redirect(rt: &impl Test) -> ServerError {
    ServerError::from_text(rt.alloc(), "MOVED 1 a:7").expect(rt, "no refusal")
}

#[test]
fn server_errors(rt: HostRuntime) {
    let redirect = redirect(&rt);
    refuse_all(rt.alloc());
    equal(&rt, redirect.kind(), Some(ServerErrorKind::Moved));
    equal(&rt, redirect.code(), "MOVED");
    equal(&rt, redirect.details(), Some("1 a:7"));
    took_none(&rt);
}

#[test]
fn questions(rt: HostRuntime) {
    let redirect = redirect(&rt);
    refuse_all(rt.alloc());
    let error = RedisError::from(redirect);
    equal(&rt, error.kind(), ErrorKind::Server(ServerErrorKind::Moved));
    equal(&rt, error.redirect_node(), Some(("a:7", 1u16)));
    equal(&rt, error.retry_method(), RetryMethod::MovedRedirect);
    equal(&rt, error.category(), error.kind().category());
    equal(&rt, error.code(), Some("MOVED"));
    equal(&rt, error.detail(), Some("1 a:7"));
    took_none(&rt);
}

/// Whether the error is a server's that says to go to another node.
fn is_redirect(error: &RedisError) -> bool {
    error.is_cluster_error()
        && !error.is_unrecoverable_error()
        && matches!(error.first_server_error(), Some((0, _)))
}

/// Whether the error comes of a device.
fn is_of_device(error: &RedisError) -> bool {
    error.io_kind().is_some()
        || error.is_io_error()
        || error.is_timeout()
        || error.is_connection_dropped()
        || error.is_connection_refusal()
}

#[test]
fn kinds(rt: HostRuntime) {
    let redirect = redirect(&rt);
    refuse_all(rt.alloc());
    let error = RedisError::from(redirect);
    assert!(rt; is_redirect(&error));
    assert!(rt; !is_of_device(&error) && error.frame_fault().is_none());
    assert!(rt; is_ok(ServerError::try_from(error)));
    took_none(&rt);
}

#[test]
fn conversions(rt: HostRuntime) {
    let detail = text(&rt, "detail");
    refuse_all(rt.alloc());
    let general = RedisError::from((ErrorKind::Client, "what", detail));
    assert!(rt; !is_ok(ServerError::try_from(general)));
    let general = RedisError::from((ErrorKind::Client, "what"));
    equal(&rt, general.detail(), None);
    took_none(&rt);
}

#[test]
fn conversions_of_parsing_errors(rt: HostRuntime) {
    let described = text(&rt, "described");
    refuse_all(rt.alloc());
    let described = ParsingError::from(described);
    equal(&rt, described.description(), "described");
    equal(&rt, kind_of(RedisError::from(described)), ErrorKind::Parse);
    took_none(&rt);
}

/// The kind of an error.
fn kind_of(error: RedisError) -> ErrorKind {
    error.kind()
}

#[test]
fn conversions_of_failures(rt: HostRuntime) {
    refuse_all(rt.alloc());
    let failed = RedisError::from(AllocFailed { value: 1u8 });
    equal(&rt, kind_of(failed), ErrorKind::OutOfMemory);
    let failed = RedisError::from(AllocError);
    equal(&rt, kind_of(failed), ErrorKind::OutOfMemory);
    took_none(&rt);
}

#[test]
fn conversions_of_faults(rt: HostRuntime) {
    let io = io::Error::from(io::ErrorKind::TimedOut);
    refuse_all(rt.alloc());
    let timed_out = RedisError::from(IoKind::TimedOut);
    equal(&rt, timed_out, RedisError::from(io));
    let kind = IoKind::from(io::ErrorKind::TimedOut);
    equal(&rt, kind, IoKind::TimedOut);
    took_none(&rt);
}

#[test]
fn codes(rt: HostRuntime) {
    let code = text(&rt, "MINE");
    refuse_all(rt.alloc());
    equal(&rt, make_extension_error(code, None).code(), Some("MINE"));
    let ask = ErrorKind::from(ServerErrorKind::Ask);
    equal(&rt, ask.category(), "key moved (ask)");
    let ask = ServerErrorKind::from_code("ASK");
    equal(&rt, ask, Some(ServerErrorKind::Ask));
    equal(&rt, ServerErrorKind::Ask.code(), "ASK");
    took_none(&rt);
}

#[test]
fn descriptions(rt: HostRuntime) {
    let long = text(&rt, "a description");
    refuse_all(rt.alloc());
    equal(&rt, Description::from(long).as_str(), "a description");
    equal(&rt, Description::from("short").as_str(), "short");
    equal(&rt, ParsingError::from("text").description(), "text");
    took_none(&rt);
}

#[test]
fn faults(rt: HostRuntime) {
    refuse_all(rt.alloc());
    let fault = ParsingError::from(FrameFault::NotInteger);
    equal(&rt, fault.frame_fault(), Some(FrameFault::NotInteger));
    equal(&rt, fault.description(), FrameFault::NotInteger.text());
    assert!(rt; ParsingError::from(AllocError).is_out_of_memory());
    assert!(rt; ParsingError::from(AllocFailed { value: 1u8 }).is_out_of_memory());
    took_none(&rt);
}

/// Bytes that aren't UTF-8.
#[test]
fn faults_of_texts(rt: HostRuntime) {
    let borrowed = std::str::from_utf8(b"\xff").expect_err(&rt, "no text");
    refuse_all(rt.alloc());
    let borrowed = ParsingError::from(borrowed);
    equal(&rt, borrowed.description(), "Invalid UTF-8");
    took_none(&rt);
}

/// Owned bytes that aren't UTF-8.
#[test]
fn faults_of_strings(rt: HostRuntime) {
    let bytes = Vec::from_slice(rt.alloc(), b"\xff").expect(&rt, "no refusal");
    let owned = String::from_utf8(bytes).expect_err(&rt, "no text");
    refuse_all(rt.alloc());
    let owned = ParsingError::from(owned);
    equal(&rt, owned.description(), "Cannot convert from UTF-8");
    took_none(&rt);
}
