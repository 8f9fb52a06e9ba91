//! What is asked of errors.

use crate::replies::agreed;
use crate::rows::{Row, malformed};
use crate::texts::debug_text;
use resp_core::{
    ErrorKind, IoKind, RedisError, RedisResult, ServerErrorKind, Value, parse_redis_value,
};
use std::alloc::Global;
use std::io;

/// `error BYTES`
pub fn error(alloc: Global, row: &Row) -> RedisResult<String> {
    match reply_of(alloc, row)? {
        Value::ServerError(error) => known_of(alloc, &RedisError::from(error)),
        _ => Err(malformed()),
    }
}

/// `first-error BYTES`
pub fn first_error(alloc: Global, row: &Row) -> RedisResult<String> {
    match reply_of(alloc, row)?.extract_error().err() {
        Some(error) => known_of(alloc, &error),
        None => Ok(String::from_str(alloc, "none")?),
    }
}

fn reply_of(alloc: Global, row: &Row) -> RedisResult<Value> {
    match row.words() {
        [bytes] => parse_redis_value(alloc, bytes.as_slice()),
        _ => Err(malformed()),
    }
}

/// What is known of a server's error.
fn known_of(alloc: Global, error: &RedisError) -> RedisResult<String> {
    let mut text = format!(in alloc; "kind: {:?}; code: {:?}", error.kind(), error.code())?;
    add_known(&mut text, error)?;
    let display = format!(in alloc; "{error}")?;
    write!(text, "; display: {display:?}")?;
    Ok(text)
}

/// Appends what its functions answer.
fn add_known(text: &mut String, error: &RedisError) -> RedisResult<()> {
    let redirect = error.redirect_node();
    write!(text, "; detail: {:?}", error.detail())?;
    write!(text, "; category: {:?}", error.category())?;
    write!(
        text,
        "; retry: {:?}; redirect: {redirect:?}",
        error.retry_method()
    )?;
    write!(text, "; cluster: {}", error.is_cluster_error())?;
    write!(text, " unrecoverable: {}", error.is_unrecoverable_error())?;
    Ok(())
}

/// The kinds of errors that a server answers.
const SERVER_KINDS: [ServerErrorKind; 14] = [
    ServerErrorKind::ResponseError,
    ServerErrorKind::ExecAbort,
    ServerErrorKind::BusyLoading,
    ServerErrorKind::NoScript,
    ServerErrorKind::Moved,
    ServerErrorKind::Ask,
    ServerErrorKind::TryAgain,
    ServerErrorKind::ClusterDown,
    ServerErrorKind::CrossSlot,
    ServerErrorKind::MasterDown,
    ServerErrorKind::ReadOnly,
    ServerErrorKind::NotBusy,
    ServerErrorKind::NoSub,
    ServerErrorKind::NoPerm,
];

/// The other kinds.
const OTHER_KINDS: [ErrorKind; 13] = [
    ErrorKind::Parse,
    ErrorKind::AuthenticationFailed,
    ErrorKind::UnexpectedReturnType,
    ErrorKind::InvalidClientConfig,
    ErrorKind::Io,
    ErrorKind::Client,
    ErrorKind::Extension,
    ErrorKind::MasterNameNotFoundBySentinel,
    ErrorKind::NoValidReplicasFoundBySentinel,
    ErrorKind::EmptySentinelList,
    ErrorKind::ClusterConnectionNotFound,
    ErrorKind::RESP3NotSupported,
    ErrorKind::OutOfMemory,
];

/// The kinds of faults of devices.
const IO_KINDS: [IoKind; 15] = [
    IoKind::NotFound,
    IoKind::PermissionDenied,
    IoKind::ConnectionRefused,
    IoKind::ConnectionReset,
    IoKind::ConnectionAborted,
    IoKind::NotConnected,
    IoKind::BrokenPipe,
    IoKind::WouldBlock,
    IoKind::TimedOut,
    IoKind::Interrupted,
    IoKind::Unsupported,
    IoKind::UnexpectedEof,
    IoKind::WriteZero,
    IoKind::OutOfMemory,
    IoKind::Other,
];

/// The kinds of the standard library's errors; those of [`IO_KINDS`] have the same names.
const STANDARD_KINDS: [io::ErrorKind; 42] = [
    io::ErrorKind::NotFound,
    io::ErrorKind::PermissionDenied,
    io::ErrorKind::ConnectionRefused,
    io::ErrorKind::ConnectionReset,
    io::ErrorKind::HostUnreachable,
    io::ErrorKind::NetworkUnreachable,
    io::ErrorKind::ConnectionAborted,
    io::ErrorKind::NotConnected,
    io::ErrorKind::AddrInUse,
    io::ErrorKind::AddrNotAvailable,
    io::ErrorKind::NetworkDown,
    io::ErrorKind::BrokenPipe,
    io::ErrorKind::AlreadyExists,
    io::ErrorKind::WouldBlock,
    io::ErrorKind::NotADirectory,
    io::ErrorKind::IsADirectory,
    io::ErrorKind::DirectoryNotEmpty,
    io::ErrorKind::ReadOnlyFilesystem,
    io::ErrorKind::FilesystemLoop,
    io::ErrorKind::StaleNetworkFileHandle,
    io::ErrorKind::InvalidInput,
    io::ErrorKind::InvalidData,
    io::ErrorKind::TimedOut,
    io::ErrorKind::WriteZero,
    io::ErrorKind::StorageFull,
    io::ErrorKind::NotSeekable,
    io::ErrorKind::QuotaExceeded,
    io::ErrorKind::FileTooLarge,
    io::ErrorKind::ResourceBusy,
    io::ErrorKind::ExecutableFileBusy,
    io::ErrorKind::Deadlock,
    io::ErrorKind::CrossesDevices,
    io::ErrorKind::TooManyLinks,
    io::ErrorKind::InvalidFilename,
    io::ErrorKind::ArgumentListTooLong,
    io::ErrorKind::Interrupted,
    io::ErrorKind::Unsupported,
    io::ErrorKind::UnexpectedEof,
    io::ErrorKind::OutOfMemory,
    io::ErrorKind::InProgress,
    io::ErrorKind::Other,
    io::ErrorKind::Uncategorized,
];

/// Whether the row's word is the name that a kind shows.
fn is_named(row: &Row, shown: &str) -> bool {
    match row.words() {
        [word] => word.as_slice() == shown.as_bytes(),
        _ => false,
    }
}

/// `kind NAME`
pub fn kind(alloc: Global, row: &Row) -> RedisResult<String> {
    for kind in SERVER_KINDS {
        if is_named(row, debug_text(alloc, &kind)?.as_str()) {
            return meaning(alloc, RedisError::from((ErrorKind::Server(kind), "x")));
        }
    }
    other_kind(alloc, row)
}

fn other_kind(alloc: Global, row: &Row) -> RedisResult<String> {
    for kind in OTHER_KINDS {
        if is_named(row, debug_text(alloc, &kind)?.as_str()) {
            return meaning(alloc, RedisError::from((kind, "x")));
        }
    }
    Err(malformed())
}

/// `io NAME`
pub fn io(alloc: Global, row: &Row) -> RedisResult<String> {
    let standard = standard_kind(alloc, row)?;
    for kind in IO_KINDS {
        if is_named(row, debug_text(alloc, &kind)?.as_str()) {
            let text = meaning(alloc, RedisError::from(kind))?;
            return agreed(alloc, text, standard, "by the standard library's");
        }
    }
    Ok(standard)
}

fn standard_kind(alloc: Global, row: &Row) -> RedisResult<String> {
    for kind in STANDARD_KINDS {
        if is_named(row, debug_text(alloc, &kind)?.as_str()) {
            return meaning(alloc, RedisError::from(io::Error::from(kind)));
        }
    }
    Err(malformed())
}

/// What an error means for its connection.
fn meaning(alloc: Global, error: RedisError) -> RedisResult<String> {
    meaning_of(alloc, &error)
}

/// The same of an error that is kept.
fn meaning_of(alloc: Global, error: &RedisError) -> RedisResult<String> {
    let mut text = format!(in alloc; "category: {:?}", error.category())?;
    write!(text, "; retry: {:?}", error.retry_method())?;
    write!(text, "; io: {}", error.is_io_error())?;
    write!(text, " cluster: {}", error.is_cluster_error())?;
    write!(text, " refusal: {}", error.is_connection_refusal())?;
    write!(text, " timeout: {}", error.is_timeout())?;
    write!(text, " dropped: {}", error.is_connection_dropped())?;
    write!(text, " unrecoverable: {}", error.is_unrecoverable_error())?;
    Ok(text)
}
