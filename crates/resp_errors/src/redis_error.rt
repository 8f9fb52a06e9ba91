//! The error of every call of the library.

ghost use Rattle.std.specs.Prelude.{◌≡◌, ◌↔◌, IsTrue, IfOk, Some, None, string_bytes, option_map};
ghost use Rattle.std.specs.Option.{option_copied};
ghost use Rattle.resp_errors.specs.Errors.{kind_of, detail_of, code_of, category_of_kind, fault_of};
ghost use Rattle.resp_errors.specs.Errors.{io_kind_of, server_errors_of, first_server_error_of};
ghost use Rattle.resp_errors.specs.Errors.{error_of_io, error_of_parsing};
ghost use Rattle.resp_errors.specs.Descriptions.{fitting};
ghost use Rattle.resp_errors.specs.Memory.{OnlyMemory};
ghost use Rattle.resp_errors.specs.declared.redis_error.RedisError.TheVariants as form;
ghost use Rattle.resp_errors.specs.declared.server_error.ServerError.TheVariants as server;

use crate::description::Description;
use crate::kinds::{ErrorKind, FrameFault, IoKind, ServerErrorKind};
use crate::parsing_error::ParsingError;
use crate::server_error::ServerError;
use resp_containers::{Items, Text};
use std::alloc::{AllocError, AllocFailed, Global};
use std::error::Error;
use std::{fmt, io};

/// What a call of the library answers.
pub type RedisResult<T> = Result<T, RedisError>;

/// The error of every call of the library, in one of seven forms.
///
/// Errors of different forms differ. Two refusals of the library's own are equal where their kinds
/// are, whatever they say; two errors of another form are equal where all of their parts are.
#[derive(Drop)]
#[derive_where(PartialEq, Eq)]
pub enum RedisError {
    /// A refusal of the library's own: its kind, a fixed text, and perhaps a detail.
    General {
        /// What sort of refusal it is.
        kind: ErrorKind,
        /// Its fixed text.
        #[derive_where(skip)]
        text: Description,
        /// What more is known of the case, if anything is.
        #[derive_where(skip)]
        detail: Option<Text>,
    },
    /// A fault of a reader or a writer. One that is for want of memory is `OutOfMemory`.
    Io(IoKind),
    /// Bytes that are no reply, or a reply that doesn't convert.
    Parse(ParsingError),
    /// An error that the server answered.
    Server(ServerError),
    /// The errors among the replies to a pipeline, each with the position of its reply.
    Pipeline(Items<(usize, ServerError)>),
    /// The errors for which a transaction was aborted, each with the position of its command.
    Aborted(Items<(usize, ServerError)>),
    /// Memory ran out.
    OutOfMemory,
}

impl RedisError {
    /// The kind of the error.
    pub fn kind(&self) -> ErrorKind
        ensures { result ≡ kind_of self.now }
    {
        match self {
            RedisError::General { kind, .. } => *kind,
            RedisError::Io(_) => ErrorKind::Io,
            RedisError::Parse(_) => ErrorKind::Parse,
            RedisError::Server(error) => kind_of_server_error(error),
            RedisError::Pipeline(errors) => match errors.as_slice().first() {
                Some((_, error)) => kind_of_server_error(error),
                None => ErrorKind::Extension,
            },
            RedisError::Aborted(_) => ErrorKind::Server(ServerErrorKind::ExecAbort),
            RedisError::OutOfMemory => ErrorKind::OutOfMemory,
        }
    }

    /// What is known beyond the kind: the detail of a refusal or of a server error, or what a
    /// parse error says.
    pub fn detail(&self) -> Option<&str>
        ensures { option_copied result ≡ detail_of self.now }
    {
        match self {
            RedisError::General { detail, .. } => match detail {
                Some(detail) => Some(detail.as_str()),
                None => None,
            },
            RedisError::Parse(error) => Some(error.description()),
            RedisError::Server(error) => error.details(),
            _ => None,
        }
    }

    /// The server's code: that of the kind where it is a server's, else a server error's own.
    pub fn code(&self) -> Option<&str>
        ensures { option_copied result ≡ code_of self.now }
    {
        if let ErrorKind::Server(kind) = self.kind() {
            return Some(kind.code());
        }
        match self {
            RedisError::Server(error) => Some(error.code()),
            _ => None,
        }
    }

    /// The name of the kind for display, as `parse error`.
    pub fn category(&self) -> &str
        ensures { result.now ≡ category_of_kind (kind_of self.now) }
    {
        self.kind().category()
    }

    /// The fault, where the bytes can't begin a reply.
    pub fn frame_fault(&self) -> Option<FrameFault>
        ensures { result ≡ fault_of self.now }
    {
        match self {
            RedisError::Parse(error) => error.frame_fault(),
            _ => None,
        }
    }

    /// The kind of the reader's or writer's fault, where it is one.
    pub fn io_kind(&self) -> Option<IoKind>
        ensures { result ≡ io_kind_of self.now }
    {
        match self {
            RedisError::Io(kind) => Some(*kind),
            _ => None,
        }
    }

    /// The server errors inside, each with its position: the list of a pipeline or of an aborted
    /// transaction, or a lone server error at position 0. Fails only with `OutOfMemory`.
    pub fn into_server_errors(self, alloc: Global) -> RedisResult<Option<Vec<(usize, ServerError)>>>
        ensures listed { IfOk result (λ errors. option_map (λ v. v.items) errors
            ≡ server_errors_of self) }
        ensures memory { OnlyMemory result }
    {
        match self {
            RedisError::Server(error) => Ok(Some(vec![in alloc; (0, error)]?)),
            RedisError::Pipeline(errors) | RedisError::Aborted(errors) => {
                Ok(Some(errors.into_vec()))
            }
            _ => Ok(None),
        }
    }

    /// The first of the server errors inside, with its position: of a list its first item, and of a
    /// lone server error that one, at position 0. `None` where there is none.
    ///
    /// It takes no memory and leaves the error whole. [`code`](RedisError::code) of a pipeline's
    /// error knows the codes of [`ServerErrorKind`] alone; this tells any other one by its code:
    ///
    /// ```text
    /// match error.first_server_error() {
    ///     Some((_, first)) => first.code() == "WRONGTYPE",
    ///     None => false,
    /// }
    /// ```
    ///
    /// In `crates/example_snippets/src/replies/counters.rt`.
    pub fn first_server_error(&self) -> Option<(usize, &ServerError)>
        ensures { option_map (λ found. (found.0, found.1.now)) result
            ≡ first_server_error_of self.now }
    {
        match self {
            RedisError::Server(error) => Some((0, error)),
            RedisError::Pipeline(errors) | RedisError::Aborted(errors) => {
                let (position, error) = errors.as_slice().first()?;
                Some((*position, error))
            }
            _ => None,
        }
    }

    /// An equal error, its texts included. Fails only with `OutOfMemory`.
    pub fn try_clone(&self, alloc: Global) -> Result<RedisError, AllocError>
        ensures { IfOk result (λ e. e ≡ self.now) }
    {
        match self {
            RedisError::General { kind, text, detail } => Ok(RedisError::General {
                kind: *kind,
                text: text.try_clone(alloc)?,
                detail: match detail {
                    Some(detail) => Some(detail.try_clone(alloc)?),
                    None => None,
                },
            }),
            RedisError::Io(kind) => Ok(RedisError::Io(*kind)),
            RedisError::Parse(error) => Ok(RedisError::Parse(error.try_clone(alloc)?)),
            RedisError::Server(error) => Ok(RedisError::Server(error.try_clone(alloc)?)),
            RedisError::Pipeline(errors) => {
                Ok(RedisError::Pipeline(clone_errors(alloc, errors.as_slice())?))
            }
            RedisError::Aborted(errors) => {
                Ok(RedisError::Aborted(clone_errors(alloc, errors.as_slice())?))
            }
            RedisError::OutOfMemory => Ok(RedisError::OutOfMemory),
        }
    }
}

fn clone_errors(
    alloc: Global,
    errors: &[(usize, ServerError)],
) -> Result<Items<(usize, ServerError)>, AllocError>
    ensures { IfOk result (λ copies. copies ≡ errors.now) }
{
    let mut copies = Items::new(alloc);
    for (position, error) in errors {
        copies.push((*position, error.try_clone(alloc)?))?;
    }
    Ok(copies)
}

fn kind_of_server_error(error: &ServerError) -> ErrorKind
    ensures { result ≡ kind_of (form.Server error.now) }
{
    match error.kind() {
        Some(kind) => ErrorKind::Server(kind),
        None => ErrorKind::Extension,
    }
}

impl From<(ErrorKind, &'static str)> for RedisError {
    ghost from_gives = { λ p e. e ≡ form.General p.0 (fitting p.1.now) None };

    fn from(parts: (ErrorKind, &'static str)) -> RedisError {
        RedisError::General {
            kind: parts.0,
            text: Description::from(parts.1),
            detail: None,
        }
    }
}

impl From<(ErrorKind, &'static str, String)> for RedisError {
    ghost from_gives = { λ p e. e ≡ form.General p.0 (fitting p.1.now) (Some (string_bytes p.2)) };

    fn from(parts: (ErrorKind, &'static str, String)) -> RedisError {
        let (kind, text, detail) = parts;
        RedisError::General {
            kind,
            text: Description::from(text),
            detail: Some(Text::from(detail)),
        }
    }
}

/// An error of a code of its own, as a server answers it: its kind is `Extension`, even where the
/// code is one that [`ServerErrorKind`] names.
pub fn make_extension_error(code: String, detail: Option<String>) -> RedisError
    ensures { result ≡ form.Server
        (server.Extension (string_bytes code) (option_map string_bytes detail)) }
{
    let detail = match detail {
        Some(detail) => Some(Text::from(detail)),
        None => None,
    };
    RedisError::Server(ServerError::Extension {
        code: Text::from(code),
        detail,
    })
}

impl From<ServerError> for RedisError {
    ghost from_gives = { λ s e. e ≡ form.Server s };

    fn from(error: ServerError) -> RedisError {
        RedisError::Server(error)
    }
}

/// The server's error of an error of that form; of another form the error itself comes back.
impl TryFrom<RedisError> for ServerError {
    ghost use Rattle.resp_errors.specs.Errors.{server_error_or_back};

    type Error = RedisError;

    ghost try_from_gives = { λ e r. r ≡ server_error_or_back e };

    fn try_from(error: RedisError) -> Result<ServerError, RedisError> {
        match error {
            RedisError::Server(error) => Ok(error),
            other => Err(other),
        }
    }
}

impl From<ParsingError> for RedisError {
    ghost from_gives = { λ p e. e ≡ error_of_parsing p };

    fn from(error: ParsingError) -> RedisError {
        match error {
            ParsingError::OutOfMemory => RedisError::OutOfMemory,
            other => RedisError::Parse(other),
        }
    }
}

impl From<IoKind> for RedisError {
    ghost from_gives = { λ k e. e ≡ error_of_io k };

    fn from(kind: IoKind) -> RedisError {
        match kind {
            IoKind::OutOfMemory => RedisError::OutOfMemory,
            other => RedisError::Io(other),
        }
    }
}

impl From<io::Error> for RedisError {
    ghost use Rattle.resp_errors.specs.Errors.{error_of_io, io_kind_of_kind};
    ghost use Rattle.std.specs.IoError.{error_kind};

    ghost from_gives = { λ x e. e ≡ error_of_io (io_kind_of_kind (error_kind x)) };

    fn from(error: io::Error) -> RedisError {
        RedisError::from(IoKind::from(error.kind()))
    }
}

impl From<AllocError> for RedisError {
    ghost from_gives = { λ _ e. e ≡ form.OutOfMemory };

    fn from(_error: AllocError) -> RedisError {
        RedisError::OutOfMemory
    }
}

impl<T: Drop> From<AllocFailed<T>> for RedisError {
    ghost from_gives = { λ _ e. e ≡ form.OutOfMemory };

    fn from(_error: AllocFailed<T>) -> RedisError {
        RedisError::OutOfMemory
    }
}

impl fmt::Display for RedisError {
    fn fmt<W: fmt::Write>(&self, f: &mut fmt::Formatter<W>) -> fmt::Result {
        match self {
            RedisError::General { kind, text, detail } => {
                write!(f, "{text} - {kind:?}")?;
                match detail {
                    Some(detail) => write!(f, ": {detail}"),
                    None => Ok(()),
                }
            }
            RedisError::Io(kind) => write!(f, "{kind:?}"),
            RedisError::Parse(error) => write!(f, "{error}"),
            RedisError::Server(error) => write!(f, "{error}"),
            RedisError::Pipeline(errors) => {
                let several = if errors.len() > 1 { "s" } else { "" };
                write!(f, "Pipeline failure{several}: ")?;
                write_errors(f, errors.as_slice())
            }
            RedisError::Aborted(errors) => {
                write!(f, "Transaction aborted: ")?;
                write_errors(f, errors.as_slice())
            }
            RedisError::OutOfMemory => write!(f, "out of memory"),
        }
    }
}

fn write_errors<W: fmt::Write>(
    f: &mut fmt::Formatter<W>,
    errors: &[(usize, ServerError)],
) -> fmt::Result {
    write!(f, "[")?;
    for (place, (position, error)) in errors.iter().enumerate() {
        let comma = if place > 0 { ", " } else { "" };
        write!(f, "{comma}(Index {position}, error: {error})")?;
    }
    write!(f, "]")
}

impl fmt::Debug for RedisError {
    fn fmt<W: fmt::Write>(&self, f: &mut fmt::Formatter<W>) -> fmt::Result {
        write!(f, "{self}")
    }
}

impl Error for RedisError {}
