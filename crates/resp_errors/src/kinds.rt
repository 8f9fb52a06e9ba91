//! The kinds of errors, as plain enums.

ghost use Rattle.std.specs.Prelude.{◌≡◌, IfSome};
ghost use Rattle.resp_errors.specs.ServerErrors.{code_of_kind, kind_of_code};
ghost use Rattle.resp_errors.specs.Errors.{category_of_kind, category_of_server_kind, fault_text};
ghost use Rattle.resp_errors.specs.Errors.{io_kind_of_kind};
ghost use Rattle.resp_errors.specs.declared.kinds.ErrorKind.TheVariants as kind;

use std::io;

/// The codes of server errors that this library knows by name.
#[derive(Clone, Copy, PartialEq, Eq, Debug)]
pub enum ServerErrorKind {
    /// `ERR`: a general error.
    ResponseError,
    /// `EXECABORT`: a transaction was aborted.
    ExecAbort,
    /// `LOADING`: the server is reading its data from disk.
    BusyLoading,
    /// `NOSCRIPT`: no script has this digest.
    NoScript,
    /// `MOVED`: the key lives on another node of the cluster.
    Moved,
    /// `ASK`: the key is moving; the next request alone goes to another node.
    Ask,
    /// `TRYAGAIN`: the request can be served once a migration is done.
    TryAgain,
    /// `CLUSTERDOWN`: the cluster serves no requests.
    ClusterDown,
    /// `CROSSSLOT`: the keys of the request lie in different slots.
    CrossSlot,
    /// `MASTERDOWN`: the replica has lost its primary.
    MasterDown,
    /// `READONLY`: a write was sent to a replica.
    ReadOnly,
    /// `NOTBUSY`: no script is running that could be stopped.
    NotBusy,
    /// `NOSUB`: an unsubscribe command on a connection without subscriptions.
    NoSub,
    /// `NOPERM`: the user may not run this command.
    NoPerm,
}

impl ServerErrorKind {
    /// The code that a server sends for this kind, as `ERR`.
    pub fn code(self) -> &'static str
        ensures { result.now ≡ code_of_kind self }
    {
        match self {
            ServerErrorKind::ResponseError => "ERR",
            ServerErrorKind::ExecAbort => "EXECABORT",
            ServerErrorKind::BusyLoading => "LOADING",
            ServerErrorKind::NoScript => "NOSCRIPT",
            ServerErrorKind::Moved => "MOVED",
            ServerErrorKind::Ask => "ASK",
            ServerErrorKind::TryAgain => "TRYAGAIN",
            ServerErrorKind::ClusterDown => "CLUSTERDOWN",
            ServerErrorKind::CrossSlot => "CROSSSLOT",
            ServerErrorKind::MasterDown => "MASTERDOWN",
            ServerErrorKind::ReadOnly => "READONLY",
            ServerErrorKind::NotBusy => "NOTBUSY",
            ServerErrorKind::NoSub => "NOSUB",
            ServerErrorKind::NoPerm => "NOPERM",
        }
    }

    /// The kind that a code stands for, if it is one of the known codes.
    #[tactic(auto, unfolding(crate::specs::ServerErrors::kind_of_code))]
    pub fn from_code(code: &str) -> Option<ServerErrorKind>
        ensures kind { result ≡ kind_of_code code.now }
        ensures code { IfSome result (λ k. code_of_kind k ≡ code.now) }
    {
        match code {
            "ERR" => Some(ServerErrorKind::ResponseError),
            "EXECABORT" => Some(ServerErrorKind::ExecAbort),
            "LOADING" => Some(ServerErrorKind::BusyLoading),
            "NOSCRIPT" => Some(ServerErrorKind::NoScript),
            "MOVED" => Some(ServerErrorKind::Moved),
            "ASK" => Some(ServerErrorKind::Ask),
            "TRYAGAIN" => Some(ServerErrorKind::TryAgain),
            "CLUSTERDOWN" => Some(ServerErrorKind::ClusterDown),
            "CROSSSLOT" => Some(ServerErrorKind::CrossSlot),
            "MASTERDOWN" => Some(ServerErrorKind::MasterDown),
            "READONLY" => Some(ServerErrorKind::ReadOnly),
            "NOTBUSY" => Some(ServerErrorKind::NotBusy),
            "NOSUB" => Some(ServerErrorKind::NoSub),
            "NOPERM" => Some(ServerErrorKind::NoPerm),
            _ => None,
        }
    }

    fn category(self) -> &'static str
        ensures { result.now ≡ category_of_server_kind self }
    {
        match self {
            ServerErrorKind::ResponseError => "response error",
            ServerErrorKind::ExecAbort => "script execution aborted",
            ServerErrorKind::BusyLoading => "busy loading",
            ServerErrorKind::NoScript => "no script",
            ServerErrorKind::Moved => "key moved",
            ServerErrorKind::Ask => "key moved (ask)",
            ServerErrorKind::TryAgain => "try again",
            ServerErrorKind::ClusterDown => "cluster down",
            ServerErrorKind::CrossSlot => "cross-slot",
            ServerErrorKind::MasterDown => "master down",
            ServerErrorKind::ReadOnly => "read-only",
            ServerErrorKind::NotBusy => "not busy",
            ServerErrorKind::NoSub => {
                "Server declined unsubscribe related command in non-subscribed mode"
            }
            ServerErrorKind::NoPerm => "",
        }
    }
}

/// The kind of a [`RedisError`](crate::RedisError).
#[derive(Clone, Copy, PartialEq, Eq, Debug)]
pub enum ErrorKind {
    /// The server answered an error with a known code.
    Server(ServerErrorKind),
    /// Bytes that are no reply, or a reply that doesn't convert.
    Parse,
    /// The server refused the credentials.
    AuthenticationFailed,
    /// A reply of a type that the call can't use.
    UnexpectedReturnType,
    /// The client was set up with values that it can't use.
    InvalidClientConfig,
    /// The connection failed.
    Io,
    /// A request that was refused before it was sent.
    Client,
    /// The server answered an error with a code that is not known.
    Extension,
    /// The sentinels know no primary of this name.
    MasterNameNotFoundBySentinel,
    /// The sentinels know no usable replica of this name.
    NoValidReplicasFoundBySentinel,
    /// No sentinel was named.
    EmptySentinelList,
    /// No connection to a node of the cluster could be had.
    ClusterConnectionNotFound,
    /// The server is too old for RESP3.
    RESP3NotSupported,
    /// Memory ran out.
    OutOfMemory,
}

impl ErrorKind {
    /// The name of the kind for display, as `parse error`.
    pub fn category(self) -> &'static str
        ensures { result.now ≡ category_of_kind self }
    {
        match self {
            ErrorKind::Server(kind) => kind.category(),
            ErrorKind::Parse => "parse error",
            ErrorKind::AuthenticationFailed => "authentication failed",
            ErrorKind::UnexpectedReturnType => "type error",
            ErrorKind::InvalidClientConfig => "invalid client config",
            ErrorKind::Io => "I/O error",
            ErrorKind::Client => "client error",
            ErrorKind::Extension => "extension error",
            ErrorKind::MasterNameNotFoundBySentinel => "master name not found by sentinel",
            ErrorKind::NoValidReplicasFoundBySentinel => "no valid replicas found by sentinel",
            ErrorKind::EmptySentinelList => "empty sentinel list",
            ErrorKind::ClusterConnectionNotFound => "connection to node in cluster not found",
            ErrorKind::RESP3NotSupported => "resp3 is not supported by server",
            ErrorKind::OutOfMemory => "out of memory",
        }
    }
}

impl From<ServerErrorKind> for ErrorKind {
    ghost from_gives = { λ k e. e ≡ kind.Server k };

    fn from(kind: ServerErrorKind) -> ErrorKind {
        ErrorKind::Server(kind)
    }
}

/// The kind of a fault of a reader or a writer.
///
/// A fault of the standard library with one of the first fourteen kinds has the kind of that name;
/// every other is `Other`.
#[derive(Clone, Copy, PartialEq, Eq, Debug)]
pub enum IoKind {
    /// There is nothing of this name.
    NotFound,
    /// It is not allowed.
    PermissionDenied,
    /// The other side takes no connection.
    ConnectionRefused,
    /// The other side ended the connection at once.
    ConnectionReset,
    /// The connection was ended before it was used.
    ConnectionAborted,
    /// There is no connection yet.
    NotConnected,
    /// The other side reads no more.
    BrokenPipe,
    /// It would have to wait, and must not.
    WouldBlock,
    /// It took longer than it may.
    TimedOut,
    /// A signal came in between; the call may be repeated.
    Interrupted,
    /// This device or system can't do it.
    Unsupported,
    /// The bytes end too early.
    UnexpectedEof,
    /// A write took no byte.
    WriteZero,
    /// Memory ran out. As an error of a call it is `RedisError::OutOfMemory`.
    OutOfMemory,
    /// A fault of any other kind.
    Other,
}

impl From<io::ErrorKind> for IoKind {
    ghost from_gives = { λ k e. e ≡ io_kind_of_kind k };

    fn from(kind: io::ErrorKind) -> IoKind {
        match kind {
            io::ErrorKind::NotFound => IoKind::NotFound,
            io::ErrorKind::PermissionDenied => IoKind::PermissionDenied,
            io::ErrorKind::ConnectionRefused => IoKind::ConnectionRefused,
            io::ErrorKind::ConnectionReset => IoKind::ConnectionReset,
            io::ErrorKind::ConnectionAborted => IoKind::ConnectionAborted,
            io::ErrorKind::NotConnected => IoKind::NotConnected,
            io::ErrorKind::BrokenPipe => IoKind::BrokenPipe,
            io::ErrorKind::WouldBlock => IoKind::WouldBlock,
            io::ErrorKind::TimedOut => IoKind::TimedOut,
            io::ErrorKind::Interrupted => IoKind::Interrupted,
            io::ErrorKind::Unsupported => IoKind::Unsupported,
            io::ErrorKind::UnexpectedEof => IoKind::UnexpectedEof,
            io::ErrorKind::WriteZero => IoKind::WriteZero,
            io::ErrorKind::OutOfMemory => IoKind::OutOfMemory,
            _ => IoKind::Other,
        }
    }
}

/// How a call that met an error may be tried again.
#[derive(Clone, Copy, PartialEq, Eq, Debug)]
pub enum RetryMethod {
    /// Over a new connection, since this one can't be used any more.
    Reconnect,
    /// Not at all: it would be met again.
    NoRetry,
    /// At once.
    RetryImmediately,
    /// After a while, so that the server isn't overloaded.
    WaitAndRetry,
    /// At the node that the error names, this one time (cluster).
    AskRedirect,
    /// At the node that the error names, which has the key from now on (cluster).
    MovedRedirect,
    /// Over a new connection to one of the nodes that were given at first (cluster).
    ReconnectFromInitialConnections,
    /// At the slot's owner, once the map of slots is fetched anew: it is out of date (cluster).
    RefreshSlotsAndRetry,
}

/// What is wrong with bytes that can't begin a reply, however they go on, or can't within the limits
/// of a parser.
#[derive(Clone, Copy, PartialEq, Eq, Debug)]
pub enum FrameFault {
    /// A value begins below the deepest level that is read.
    TooDeep,
    /// A value begins with a byte that is no type byte.
    UnknownType,
    /// A line is not UTF-8.
    LineNotUtf8,
    /// A line that should hold an integer of 64 bits doesn't.
    NotInteger,
    /// A length that can't be negative is.
    NegativeLength,
    /// A body is not followed by CR LF.
    BodyEnd,
    /// A boolean that is neither `t` nor `f`.
    NotBoolean,
    /// A double whose text is none.
    NotDouble,
    /// A verbatim text without a format before a colon.
    NoVerbatimFormat,
    /// A push whose first value can't name a kind.
    BadPushKind,
    /// A value is spelled by more bytes than the limit on its size.
    TooLong,
    /// A push would take a link past its limit on the bytes of pushes that wait to be taken.
    TooManyPushes,
}

impl FrameFault {
    /// The fault in a few words.
    pub fn text(self) -> &'static str
        ensures { result.now ≡ fault_text self }
    {
        match self {
            FrameFault::TooDeep => "value is nested too deeply",
            FrameFault::UnknownType => "unknown type byte",
            FrameFault::LineNotUtf8 => "line is not UTF-8",
            FrameFault::NotInteger => "line is not an integer",
            FrameFault::NegativeLength => "length is negative",
            FrameFault::BodyEnd => "body does not end in CR LF",
            FrameFault::NotBoolean => "line is not a boolean",
            FrameFault::NotDouble => "line is not a double",
            FrameFault::NoVerbatimFormat => "verbatim text names no format",
            FrameFault::BadPushKind => "push names no kind",
            FrameFault::TooLong => "value is too long",
            FrameFault::TooManyPushes => "too many pushes",
        }
    }
}
