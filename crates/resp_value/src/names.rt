//! Names inside replies: kinds of push messages and formats of verbatim texts.

ghost use Rattle.std.specs.Prelude.{◌≡◌, IfOk, Some, string_bytes};
ghost use Rattle.resp_value.specs.Names.{kind_named, name_of_push_kind};
ghost use Rattle.resp_value.specs.Names.{format_named, name_of_format};

use resp_containers::Text;
use std::alloc::{AllocError, Global};
use std::fmt;

/// The kind of a push message (RESP3, "Pushes").
#[derive(PartialEq, Eq, Debug, Drop)]
pub enum PushKind {
    /// The connection was lost; never sent by a server.
    Disconnection,
    /// A kind without a variant of its own.
    Other(Text),
    /// `invalidate`
    Invalidate,
    /// `message`
    Message,
    /// `pmessage`
    PMessage,
    /// `smessage`
    SMessage,
    /// `unsubscribe`
    Unsubscribe,
    /// `punsubscribe`
    PUnsubscribe,
    /// `sunsubscribe`
    SUnsubscribe,
    /// `subscribe`
    Subscribe,
    /// `psubscribe`
    PSubscribe,
    /// `ssubscribe`
    SSubscribe,
}

/// The kind of push messages with this name. Takes no memory.
#[tactic(auto, unfolding(crate::specs::Names::kind_named))]
pub fn get_push_kind(name: String) -> PushKind
    ensures kind { result ≡ kind_named (string_bytes name) }
    ensures named { name_of_push_kind result ≡ string_bytes name }
{
    match name.as_str() {
        "invalidate" => PushKind::Invalidate,
        "message" => PushKind::Message,
        "pmessage" => PushKind::PMessage,
        "smessage" => PushKind::SMessage,
        "unsubscribe" => PushKind::Unsubscribe,
        "punsubscribe" => PushKind::PUnsubscribe,
        "sunsubscribe" => PushKind::SUnsubscribe,
        "subscribe" => PushKind::Subscribe,
        "psubscribe" => PushKind::PSubscribe,
        "ssubscribe" => PushKind::SSubscribe,
        _ => PushKind::Other(Text::from(name)),
    }
}

impl PushKind {
    /// The name of the kind, as a server sends it.
    pub fn name(&self) -> &str
        ensures { result.now ≡ name_of_push_kind self.now }
    {
        match self {
            PushKind::Disconnection => "disconnection",
            PushKind::Other(name) => name.as_str(),
            PushKind::Invalidate => "invalidate",
            PushKind::Message => "message",
            PushKind::PMessage => "pmessage",
            PushKind::SMessage => "smessage",
            PushKind::Unsubscribe => "unsubscribe",
            PushKind::PUnsubscribe => "punsubscribe",
            PushKind::SUnsubscribe => "sunsubscribe",
            PushKind::Subscribe => "subscribe",
            PushKind::PSubscribe => "psubscribe",
            PushKind::SSubscribe => "ssubscribe",
        }
    }

    /// An equal kind.
    pub fn try_clone(&self, alloc: Global) -> Result<PushKind, AllocError>
        ensures { IfOk result (λ k. k ≡ self.now) }
    {
        match self {
            PushKind::Disconnection => Ok(PushKind::Disconnection),
            PushKind::Other(name) => Ok(PushKind::Other(name.try_clone(alloc)?)),
            PushKind::Invalidate => Ok(PushKind::Invalidate),
            PushKind::Message => Ok(PushKind::Message),
            PushKind::PMessage => Ok(PushKind::PMessage),
            PushKind::SMessage => Ok(PushKind::SMessage),
            PushKind::Unsubscribe => Ok(PushKind::Unsubscribe),
            PushKind::PUnsubscribe => Ok(PushKind::PUnsubscribe),
            PushKind::SUnsubscribe => Ok(PushKind::SUnsubscribe),
            PushKind::Subscribe => Ok(PushKind::Subscribe),
            PushKind::PSubscribe => Ok(PushKind::PSubscribe),
            PushKind::SSubscribe => Ok(PushKind::SSubscribe),
        }
    }
}

impl fmt::Display for PushKind {
    ghost output = { λ k. Some (name_of_push_kind k) };

    fn fmt<W: fmt::Write>(&self, f: &mut fmt::Formatter<W>) -> fmt::Result {
        let name = self.name();
        write!(f, "{name}")
    }
}

/// The format of a verbatim text (RESP3, "Verbatim strings").
#[derive(PartialEq, Eq, Debug, Drop)]
pub enum VerbatimFormat {
    /// A format without a variant of its own.
    Unknown(Text),
    /// `mkd`
    Markdown,
    /// `txt`
    Text,
}

/// The format with this name. Takes no memory.
#[tactic(auto, unfolding(crate::specs::Names::format_named))]
pub fn verbatim_format(name: String) -> VerbatimFormat
    ensures format { result ≡ format_named (string_bytes name) }
    ensures named { name_of_format result ≡ string_bytes name }
{
    match name.as_str() {
        "mkd" => VerbatimFormat::Markdown,
        "txt" => VerbatimFormat::Text,
        _ => VerbatimFormat::Unknown(Text::from(name)),
    }
}

impl VerbatimFormat {
    /// The name of the format, as a server sends it.
    pub fn name(&self) -> &str
        ensures { result.now ≡ name_of_format self.now }
    {
        match self {
            VerbatimFormat::Unknown(name) => name.as_str(),
            VerbatimFormat::Markdown => "mkd",
            VerbatimFormat::Text => "txt",
        }
    }

    /// An equal format.
    pub fn try_clone(&self, alloc: Global) -> Result<VerbatimFormat, AllocError>
        ensures { IfOk result (λ f. f ≡ self.now) }
    {
        match self {
            VerbatimFormat::Unknown(name) => Ok(VerbatimFormat::Unknown(name.try_clone(alloc)?)),
            VerbatimFormat::Markdown => Ok(VerbatimFormat::Markdown),
            VerbatimFormat::Text => Ok(VerbatimFormat::Text),
        }
    }
}

impl fmt::Display for VerbatimFormat {
    ghost output = { λ f. Some (name_of_format f) };

    fn fmt<W: fmt::Write>(&self, f: &mut fmt::Formatter<W>) -> fmt::Result {
        let name = self.name();
        write!(f, "{name}")
    }
}
