//! How a server is reached.

ghost use Rattle.std.specs.Prelude.{◌≡◌};
ghost use Rattle.resp_connect.specs.Queries.{takes};
ghost use Rattle.resp_connect.specs.Schemes.{transport_of};

/// How a server is reached, by the scheme of its URL.
#[derive(Clone, Copy)]
pub(crate) enum Transport {
    /// `redis` or `valkey`
    Tcp,
    /// `rediss` or `valkeys`
    Tls,
    /// `unix`, `redis+unix` or `valkey+unix`
    Unix,
}

impl Transport {
    #[tactic(auto, unfolding(crate::specs::Schemes::transport_of))]
    pub(crate) fn of(scheme: &str) -> Option<Transport>
        ensures { result ≡ transport_of scheme.now }
    {
        match scheme {
            "redis" | "valkey" => Some(Transport::Tcp),
            "rediss" | "valkeys" => Some(Transport::Tls),
            "unix" | "redis+unix" | "valkey+unix" => Some(Transport::Unix),
            _ => None,
        }
    }

    /// Whether a URL of this kind has a parameter of this name.
    #[tactic(auto, unfolding(crate::specs::Queries::takes))]
    pub(crate) fn takes(self, name: &str) -> bool
        ensures { result ≡ takes self name.now }
    {
        match self {
            Transport::Tcp | Transport::Tls => matches!(name, "protocol" | "client_name"),
            Transport::Unix => {
                matches!(name, "protocol" | "client_name" | "db" | "user" | "pass")
            }
        }
    }
}
