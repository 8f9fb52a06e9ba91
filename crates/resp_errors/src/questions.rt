//! What an error means for its connection, and how a call that met it may be tried again.

ghost use Rattle.std.specs.Prelude.{◌≡◌};
ghost use Rattle.resp_errors.specs.Errors.{kind_of};
ghost use Rattle.resp_errors.specs.Retries.{is_io, is_of_cluster, is_fault_of};
ghost use Rattle.resp_errors.specs.Retries.{refuses_connection, times_out, drops_connection};
ghost use Rattle.resp_errors.specs.Retries.{is_dropped};
ghost use Rattle.resp_errors.specs.Retries.{retry_of_server_kind, retry_of_kind, retry_of};
ghost use Rattle.resp_errors.specs.Retries.{replaces_connection};
ghost use Rattle.resp_errors.specs.declared.redis_error.RedisError.TheVariants as form;

use crate::kinds::{ErrorKind, IoKind, RetryMethod, ServerErrorKind};
use crate::redis_error::RedisError;

impl RedisError {
    /// Whether the kind is `Io`: a device has failed, or the link was broken before.
    pub fn is_io_error(&self) -> bool
        ensures { result ≡ is_io (kind_of self.now) }
    {
        matches!(self.kind(), ErrorKind::Io)
    }

    /// Whether it is an error of a cluster: MOVED, ASK, TRYAGAIN or CLUSTERDOWN.
    pub fn is_cluster_error(&self) -> bool
        ensures { result ≡ is_of_cluster (kind_of self.now) }
    {
        match self.kind() {
            ErrorKind::Server(kind) => matches!(
                kind,
                ServerErrorKind::Moved
                    | ServerErrorKind::Ask
                    | ServerErrorKind::TryAgain
                    | ServerErrorKind::ClusterDown
            ),
            _ => false,
        }
    }

    /// Whether no connection was taken: a device's `ConnectionRefused`, or `NotFound`, as where a
    /// socket's file isn't there.
    pub fn is_connection_refusal(&self) -> bool
        ensures { result ≡ is_fault_of refuses_connection self.now }
    {
        match self {
            RedisError::Io(kind) => matches!(kind, IoKind::ConnectionRefused | IoKind::NotFound),
            _ => false,
        }
    }

    /// Whether a device took longer than it may: its `TimedOut` or `WouldBlock`.
    pub fn is_timeout(&self) -> bool
        ensures { result ≡ is_fault_of times_out self.now }
    {
        match self {
            RedisError::Io(kind) => matches!(kind, IoKind::TimedOut | IoKind::WouldBlock),
            _ => false,
        }
    }

    /// Whether the connection is gone: a device's fault says so, or it is a refusal of kind `Io`,
    /// as of a link that was broken before.
    pub fn is_connection_dropped(&self) -> bool
        ensures { result ≡ is_dropped self.now }
    {
        match self {
            RedisError::General { kind, .. } => matches!(kind, ErrorKind::Io),
            RedisError::Io(kind) => kind.drops_connection(),
            _ => false,
        }
    }

    /// How the call may be tried again, by the kind of the error and, of a device's, by its fault.
    pub fn retry_method(&self) -> RetryMethod
        ensures { result ≡ retry_of self.now }
    {
        match self {
            RedisError::Io(fault) => fault.retry_method(),
            other => other.kind().retry_method(),
        }
    }

    /// Whether the connection has to be replaced before anything is tried again.
    pub fn is_unrecoverable_error(&self) -> bool
        ensures { result ≡ replaces_connection (retry_of self.now) }
    {
        matches!(
            self.retry_method(),
            RetryMethod::Reconnect | RetryMethod::ReconnectFromInitialConnections
        )
    }
}

impl IoKind {
    fn drops_connection(self) -> bool
        ensures { result ≡ drops_connection self }
    {
        matches!(
            self,
            IoKind::BrokenPipe
                | IoKind::ConnectionReset
                | IoKind::ConnectionRefused
                | IoKind::ConnectionAborted
                | IoKind::UnexpectedEof
                | IoKind::NotConnected
                | IoKind::NotFound
        )
    }

    fn retry_method(self) -> RetryMethod
        ensures { result ≡ retry_of (form.Io self) }
    {
        if self.drops_connection() {
            return RetryMethod::Reconnect;
        }
        match self {
            IoKind::PermissionDenied | IoKind::Unsupported => RetryMethod::NoRetry,
            _ => RetryMethod::RetryImmediately,
        }
    }
}

impl ErrorKind {
    fn retry_method(self) -> RetryMethod
        ensures { result ≡ retry_of_kind self }
    {
        match self {
            ErrorKind::Server(kind) => kind.retry_method(),
            ErrorKind::Parse | ErrorKind::AuthenticationFailed | ErrorKind::Io => {
                RetryMethod::Reconnect
            }
            ErrorKind::MasterNameNotFoundBySentinel | ErrorKind::NoValidReplicasFoundBySentinel =>
                RetryMethod::WaitAndRetry,
            ErrorKind::ClusterConnectionNotFound => RetryMethod::ReconnectFromInitialConnections,
            _ => RetryMethod::NoRetry,
        }
    }
}

impl ServerErrorKind {
    fn retry_method(self) -> RetryMethod
        ensures { result ≡ retry_of_server_kind self }
    {
        match self {
            ServerErrorKind::BusyLoading
            | ServerErrorKind::TryAgain
            | ServerErrorKind::ClusterDown
            | ServerErrorKind::MasterDown => RetryMethod::WaitAndRetry,
            ServerErrorKind::Moved => RetryMethod::MovedRedirect,
            ServerErrorKind::Ask => RetryMethod::AskRedirect,
            ServerErrorKind::ReadOnly => RetryMethod::RefreshSlotsAndRetry,
            _ => RetryMethod::NoRetry,
        }
    }
}
