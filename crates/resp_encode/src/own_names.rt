//! Codes, formats and kinds that the grammar reads by their names.

ghost use Rattle.std.specs.Prelude.{◌≡◌, ◌&&◌, IfOk};
ghost use Rattle.std.specs.Str.{is_utf8};
ghost use Rattle.resp_value.specs.Names.{kind_named};
ghost use Rattle.resp_encode.specs.Encoding.{is_own_code, is_own_format, is_own_kind};
ghost use Rattle.resp_encode.specs.Encoding.{is_new_code, is_new_format, is_other};

use resp_errors::{ServerError, ServerErrorKind};
use resp_value::{PushKind, VerbatimFormat, get_push_kind, verbatim_format};
use std::alloc::{AllocError, Global};

/// Whether an error of this code is read as this error.
pub(crate) fn has_own_code(error: &ServerError) -> bool
    ensures { result ≡ is_own_code error.now }
{
    match error {
        ServerError::Known { .. } => true,
        ServerError::Extension { code, .. } => is_code_of_no_kind(code.as_str()),
    }
}

/// Whether an extension may have the code: no known kind has it, and a space doesn't end it.
fn is_code_of_no_kind(code: &str) -> bool
    ensures { result ≡ is_new_code code.now }
{
    code.split_once(' ').is_none() && ServerErrorKind::from_code(code).is_none()
}

/// Whether this format's name is read as this format.
pub(crate) fn has_own_format(alloc: Global, format: &VerbatimFormat) -> Result<bool, AllocError>
    ensures { IfOk result (λ own. own ≡ is_own_format format.now) }
{
    match format {
        VerbatimFormat::Unknown(name) => is_new_name(alloc, name.as_str()),
        _ => Ok(true),
    }
}

/// Whether a format of its own may have the name.
fn is_new_name(alloc: Global, name: &str) -> Result<bool, AllocError>
    ensures { IfOk result (λ own. own ≡ is_new_format name.now) }
{
    if name.split_once(':').is_some() {
        return Ok(false);
    }
    let named = verbatim_format(String::from_str(alloc, name)?);
    Ok(matches!(named, VerbatimFormat::Unknown(_)))
}

/// Whether this kind's name is read as this kind.
pub(crate) fn has_own_kind(alloc: Global, kind: &PushKind) -> Result<bool, AllocError>
    ensures { IfOk result (λ own. own ≡ is_own_kind kind.now) }
{
    match kind {
        PushKind::Disconnection => Ok(false),
        PushKind::Other(name) => is_new_kind(alloc, name.as_str()),
        _ => Ok(true),
    }
}

/// Whether a kind of its own may have the name.
fn is_new_kind(alloc: Global, name: &str) -> Result<bool, AllocError>
    ensures { IfOk result (λ own. own ≡ (is_utf8 name.now && is_other (kind_named name.now))) }
{
    let named = get_push_kind(String::from_str(alloc, name)?);
    Ok(matches!(named, PushKind::Other(_)))
}
