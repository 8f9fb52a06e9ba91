//! Where a connection comes from.

ghost use Rattle.std.specs.Prelude.{◌≡◌, false, IfOk, ⊤};

use resp_command::Unrouted;
use resp_value::RedisResult;

/// A way to a server: it opens a connection and greets it, as often as it is asked.
///
/// [`Reconnecting`](crate::Reconnecting) and [`Pool`](crate::Pool) ask it, one call for one
/// connection, and keep no clock: who wants to wait between two attempts, or to give up after some
/// time, does so in `dial`.
pub trait Dial {
    /// The connections that it opens.
    type Link: Unrouted + Drop;

    /// What is known of a link when it was opened: how it was greeted, say, as `Greeted` of
    /// `specs/Greeting.antt` puts it. It is nothing where an implementation doesn't say it.
    ghost greeted: { Self.Link → Type 0 } = { λ link. ⊤ };

    /// Opens a connection and greets it, as by [`greet`](crate::greet). Fails where the server
    /// isn't reached, or refuses the greeting.
    fn dial(&mut self) -> RedisResult<Self::Link>
        ensures works { IfOk result (λ link. (Self.Link.connection link).broken ≡ false) }
        ensures greeted { IfOk result greeted };
}
