//! Which version of the protocol a client asks a server for.

ghost use Rattle.std.specs.Prelude.{◌≡◌};
ghost use Rattle.resp_connect.specs.Protocols.{choice_of_version, protocol_named};
ghost use Rattle.resp_connect.specs.Shown.{choice_text};
ghost use Rattle.resp_connect.specs.declared.protocol.ProtocolChoice.TheVariants as choice;

use resp_args::ProtocolVersion;

/// Which version of the protocol a client asks a server for.
///
/// A server learns of RESP3 by the command `HELLO`, which servers before Redis 6 don't have.
#[derive(Clone, Copy, PartialEq, Eq, Debug)]
pub enum ProtocolChoice {
    /// RESP2: `protocol=resp2` or `protocol=2` in a URL, or no `protocol`.
    RESP2,
    /// RESP3, and no connection to a server without it: `protocol=resp3` or `protocol=3`.
    RESP3,
    /// RESP3, or RESP2 where the server has no `HELLO`: `protocol=prefer-resp3`.
    PreferRESP3,
}

impl Default for ProtocolChoice {
    ghost is_default = { λ c. c ≡ choice.RESP2 };

    fn default() -> ProtocolChoice {
        ProtocolChoice::RESP2
    }
}

/// That version exactly.
impl From<ProtocolVersion> for ProtocolChoice {
    ghost from_gives = { λ version c. c ≡ choice_of_version version };

    fn from(version: ProtocolVersion) -> ProtocolChoice {
        match version {
            ProtocolVersion::RESP2 => ProtocolChoice::RESP2,
            ProtocolVersion::RESP3 => ProtocolChoice::RESP3,
        }
    }
}

impl ProtocolChoice {
    /// The name of the choice, as `Debug` shows it.
    pub(crate) fn name(self) -> &'static str
        ensures { result.now ≡ choice_text self }
    {
        match self {
            ProtocolChoice::RESP2 => "RESP2",
            ProtocolChoice::RESP3 => "RESP3",
            ProtocolChoice::PreferRESP3 => "PreferRESP3",
        }
    }

    /// The choice that a URL's `protocol` names.
    #[tactic(auto, unfolding(crate::specs::Protocols::protocol_named))]
    pub(crate) fn named(name: &str) -> Option<ProtocolChoice>
        ensures { result ≡ protocol_named name.now }
    {
        match name {
            "2" | "resp2" => Some(ProtocolChoice::RESP2),
            "3" | "resp3" => Some(ProtocolChoice::RESP3),
            "prefer-resp3" => Some(ProtocolChoice::PreferRESP3),
            _ => None,
        }
    }
}
