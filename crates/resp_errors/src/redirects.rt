//! Where the errors of a cluster send a client.

ghost use Rattle.std.specs.Prelude.{◌≡◌, ℕ, List, MatchOption};
ghost use Rattle.resp_errors.specs.Errors.{kind_of};
ghost use Rattle.resp_errors.specs.Redirects.{is_redirect, NamesNode, RedirectsTo, words};

use crate::kinds::{ErrorKind, ServerErrorKind};
use crate::redis_error::RedisError;

impl RedisError {
    /// The address of the node that a MOVED or an ASK sends to, and the slot of the key, as of
    /// `MOVED 3999 127.0.0.1:6381`.
    ///
    /// `None` of an error of another kind, and where the detail doesn't begin with a number of 16
    /// bits in decimal and, after white space, an address. The number is a slot as the server
    /// wrote it: that it is below 16,384 isn't checked.
    pub fn redirect_node(&self) -> Option<(&str, u16)>
        ensures { MatchOption result
            ((address : List ℕ) (slot : ℕ) → RedirectsTo self.now address slot → ⊥)
            (λ node. RedirectsTo self.now node.0.now node.1) }
    {
        if !self.is_redirect() {
            return None;
        }
        node_of(self.detail()?)
    }

    fn is_redirect(&self) -> bool
        ensures { result ≡ is_redirect (kind_of self.now) }
    {
        match self.kind() {
            ErrorKind::Server(kind) => {
                matches!(kind, ServerErrorKind::Moved | ServerErrorKind::Ask)
            }
            _ => false,
        }
    }
}

fn node_of(detail: &str) -> Option<(&str, u16)>
    ensures { MatchOption result
        ((address : List ℕ) (slot : ℕ) → NamesNode (words detail.now) address slot → ⊥)
        (λ node. NamesNode (words detail.now) node.0.now node.1) }
{
    let mut words = detail.split_ascii_whitespace();
    let slot = words.next()?.parse::<u16>().ok()?;
    let address = words.next()?;
    Some((address, slot))
}
