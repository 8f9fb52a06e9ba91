//! Why bytes are no reply, or a reply is no value of a type.

ghost use Rattle.std.specs.Prelude.{◌≡◌, ◌↔◌, IsTrue, IfOk, IfErr, string_bytes};
ghost use Rattle.resp_errors.specs.Errors.{description_of};
ghost use Rattle.resp_errors.specs.Errors as errors;
ghost use Rattle.resp_errors.specs.declared.parsing_error.ParsingError.TheVariants as parsing;

use crate::description::Description;
use crate::kinds::FrameFault;
use std::alloc::{AllocError, AllocFailed, Global};
use std::error::Error;
use std::fmt;
use std::str::Utf8Error;
use std::string::FromUtf8Error;

/// Why bytes are no reply, or a reply is no value of a type.
#[derive(PartialEq, Eq, Debug, Drop)]
pub enum ParsingError {
    /// A reply that doesn't convert, or a call on a parser that has failed.
    Described(Description),
    /// Bytes that can't begin a reply.
    Fault(FrameFault),
    /// Memory ran out.
    OutOfMemory,
}

impl ParsingError {
    /// A refusal with a copy of this text, or `OutOfMemory`.
    pub fn from_text(alloc: Global, text: &str) -> Result<ParsingError, ParsingError>
        ensures text { IfOk result (λ e. e ≡ ParsingError.Described text.now) }
        ensures memory { IfErr result (λ e. e ≡ ParsingError.OutOfMemory) }
    {
        let text = String::from_str(alloc, text)?;
        Ok(ParsingError::from(text))
    }

    /// What is wrong, in a few words.
    pub fn description(&self) -> &str
        ensures { result.now ≡ description_of self.now }
    {
        match self {
            ParsingError::Described(text) => text.as_str(),
            ParsingError::Fault(fault) => fault.text(),
            ParsingError::OutOfMemory => "out of memory",
        }
    }

    /// The fault, where the bytes can't begin a reply.
    pub fn frame_fault(&self) -> Option<FrameFault>
        ensures { result ≡ errors.fault_of_parsing self.now }
    {
        match self {
            ParsingError::Fault(fault) => Some(*fault),
            _ => None,
        }
    }

    /// Whether memory ran out.
    pub fn is_out_of_memory(&self) -> bool
        ensures { IsTrue result ↔ (self.now ≡ ParsingError.OutOfMemory) }
    {
        matches!(self, ParsingError::OutOfMemory)
    }

    /// An equal error.
    pub fn try_clone(&self, alloc: Global) -> Result<ParsingError, AllocError>
        ensures { IfOk result (λ e. e ≡ self.now) }
    {
        match self {
            ParsingError::Described(text) => Ok(ParsingError::Described(text.try_clone(alloc)?)),
            ParsingError::Fault(fault) => Ok(ParsingError::Fault(*fault)),
            ParsingError::OutOfMemory => Ok(ParsingError::OutOfMemory),
        }
    }
}

impl From<&'static str> for ParsingError {
    ghost use Rattle.resp_errors.specs.Descriptions.{fitting};

    ghost from_gives = { λ s e. e ≡ parsing.Described (fitting s.now) };

    fn from(text: &'static str) -> ParsingError {
        ParsingError::Described(Description::from(text))
    }
}

impl From<String> for ParsingError {
    ghost from_gives = { λ s e. e ≡ parsing.Described (string_bytes s) };

    fn from(text: String) -> ParsingError {
        ParsingError::Described(Description::from(text))
    }
}

impl From<FrameFault> for ParsingError {
    ghost from_gives = { λ f e. e ≡ parsing.Fault f };

    fn from(fault: FrameFault) -> ParsingError {
        ParsingError::Fault(fault)
    }
}

impl From<Utf8Error> for ParsingError {
    ghost use Rattle.std.specs.Prelude.{codes};

    ghost from_gives = { λ _ e. e ≡ parsing.Described (codes "Invalid UTF-8") };

    fn from(_error: Utf8Error) -> ParsingError {
        ParsingError::from("Invalid UTF-8")
    }
}

impl From<FromUtf8Error> for ParsingError {
    ghost use Rattle.std.specs.Prelude.{codes};

    ghost from_gives = { λ _ e. e ≡ parsing.Described (codes "Cannot convert from UTF-8") };

    fn from(_error: FromUtf8Error) -> ParsingError {
        ParsingError::from("Cannot convert from UTF-8")
    }
}

impl From<AllocError> for ParsingError {
    ghost from_gives = { λ _ e. e ≡ parsing.OutOfMemory };

    fn from(_error: AllocError) -> ParsingError {
        ParsingError::OutOfMemory
    }
}

impl<T: Drop> From<AllocFailed<T>> for ParsingError {
    ghost from_gives = { λ _ e. e ≡ parsing.OutOfMemory };

    fn from(_error: AllocFailed<T>) -> ParsingError {
        ParsingError::OutOfMemory
    }
}

impl fmt::Display for ParsingError {
    ghost use Rattle.std.specs.Prelude.{Some, codes, ◌++◌};

    ghost output = { λ e. Some (codes "Incompatible type - " ++ description_of e) };

    fn fmt<W: fmt::Write>(&self, f: &mut fmt::Formatter<W>) -> fmt::Result {
        let description = self.description();
        write!(f, "Incompatible type - {description}")
    }
}

impl Error for ParsingError {}
