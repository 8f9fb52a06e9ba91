//! Errors that a server answers.

ghost use Rattle.std.specs.Prelude.{◌≡◌, IfOk};
ghost use Rattle.std.specs.Option.{option_copied};
ghost use Rattle.resp_errors.specs.ServerErrors.{server_kind_of, server_code_of};
ghost use Rattle.resp_errors.specs.ServerErrors.{server_details_of};
ghost use Rattle.resp_errors.specs.ServerErrors.{server_error, error_with, name_of_server_kind};
ghost use Rattle.resp_errors.specs.ServerErrors.{display_of};
ghost use Rattle.resp_errors.specs.Memory.{OnlyMemory};

use crate::kinds::ServerErrorKind;
use crate::redis_error::RedisResult;
use resp_containers::Text;
use std::alloc::{AllocError, Global};
use std::error::Error;
use std::fmt;

/// An error that a server answered: a code, and what it says about it.
///
/// An error reply is a line such as `ERR unknown command` (RESP, "Simple errors" and "Bulk
/// errors"). Its first word is the code, the rest the detail.
#[derive(PartialEq, Eq, Debug, Drop)]
pub enum ServerError {
    /// An error with one of the codes that [`ServerErrorKind`] names.
    Known {
        /// Which code.
        kind: ServerErrorKind,
        /// What stands after the code, if anything does.
        detail: Option<Text>,
    },
    /// An error with a code of its own.
    Extension {
        /// The code.
        code: Text,
        /// What stands after the code, if anything does.
        detail: Option<Text>,
    },
}

impl ServerError {
    /// The error of an error reply's text: the code up to the first space, then the detail.
    ///
    /// Without a space the whole text is the code and there is no detail. Code and detail join to
    /// the text ([`law_of_error_texts`](crate::laws::law_of_error_texts)). Fails only with
    /// `OutOfMemory`.
    #[tactic(auto, unfolding(crate::specs::ServerErrors::server_error))]
    pub fn from_text(alloc: Global, text: &str) -> RedisResult<ServerError>
        ensures read { IfOk result (λ e. e ≡ server_error text.now) }
        ensures memory { OnlyMemory result }
    {
        match text.split_once(' ') {
            Some((code, detail)) => {
                let detail = Text::from_str(alloc, detail)?;
                ServerError::with_code(alloc, code, Some(detail))
            }
            None => ServerError::with_code(alloc, text, None),
        }
    }

    fn with_code(alloc: Global, code: &str, detail: Option<Text>) -> RedisResult<ServerError>
        ensures read { IfOk result (λ e. e ≡ error_with code.now detail) }
        ensures memory { OnlyMemory result }
    {
        match ServerErrorKind::from_code(code) {
            Some(kind) => Ok(ServerError::Known { kind, detail }),
            None => Ok(ServerError::Extension {
                code: Text::from_str(alloc, code)?,
                detail,
            }),
        }
    }

    /// The kind, if the code is a known one.
    pub fn kind(&self) -> Option<ServerErrorKind>
        ensures { result ≡ server_kind_of self.now }
    {
        match self {
            ServerError::Known { kind, .. } => Some(*kind),
            ServerError::Extension { .. } => None,
        }
    }

    /// The code, as `ERR`.
    pub fn code(&self) -> &str
        ensures { result.now ≡ server_code_of self.now }
    {
        match self {
            ServerError::Known { kind, .. } => kind.code(),
            ServerError::Extension { code, .. } => code.as_str(),
        }
    }

    /// What the server says after the code, if it says anything.
    pub fn details(&self) -> Option<&str>
        ensures { option_copied result ≡ server_details_of self.now }
    {
        match self {
            ServerError::Known { detail, .. } | ServerError::Extension { detail, .. } => {
                match detail {
                    Some(detail) => Some(detail.as_str()),
                    None => None,
                }
            }
        }
    }

    /// An equal error.
    pub fn try_clone(&self, alloc: Global) -> Result<ServerError, AllocError>
        ensures { IfOk result (λ e. e ≡ self.now) }
    {
        match self {
            ServerError::Known { kind, detail } => Ok(ServerError::Known {
                kind: *kind,
                detail: clone_detail(alloc, detail)?,
            }),
            ServerError::Extension { code, detail } => Ok(ServerError::Extension {
                code: code.try_clone(alloc)?,
                detail: clone_detail(alloc, detail)?,
            }),
        }
    }
}

fn clone_detail(alloc: Global, detail: &Option<Text>) -> Result<Option<Text>, AllocError>
    ensures { IfOk result (λ d. d ≡ detail.now) }
{
    match detail {
        Some(detail) => Ok(Some(detail.try_clone(alloc)?)),
        None => Ok(None),
    }
}

impl ServerErrorKind {
    fn name(self) -> &'static str
        ensures { result.now ≡ name_of_server_kind self }
    {
        match self {
            ServerErrorKind::ResponseError => "ResponseError",
            ServerErrorKind::ExecAbort => "ExecAbort",
            ServerErrorKind::BusyLoading => "BusyLoading",
            ServerErrorKind::NoScript => "NoScript",
            ServerErrorKind::Moved => "Moved",
            ServerErrorKind::Ask => "Ask",
            ServerErrorKind::TryAgain => "TryAgain",
            ServerErrorKind::ClusterDown => "ClusterDown",
            ServerErrorKind::CrossSlot => "CrossSlot",
            ServerErrorKind::MasterDown => "MasterDown",
            ServerErrorKind::ReadOnly => "ReadOnly",
            ServerErrorKind::NotBusy => "NotBusy",
            ServerErrorKind::NoSub => "NoSub",
            ServerErrorKind::NoPerm => "NoPerm",
        }
    }
}

/// The name of the kind, or the code in quotes; then, with details, a colon, a space and these.
impl fmt::Display for ServerError {
    ghost output = { display_of };

    fn fmt<W: fmt::Write>(&self, f: &mut fmt::Formatter<W>) -> fmt::Result {
        match self {
            ServerError::Known { kind, .. } => {
                let name = kind.name();
                write!(f, "{name}")?;
            }
            ServerError::Extension { code, .. } => {
                let code = code.as_str();
                write!(f, "{code:?}")?;
            }
        }
        match self.details() {
            Some(detail) => write!(f, ": {detail}"),
            None => Ok(()),
        }
    }
}

impl Error for ServerError {}
