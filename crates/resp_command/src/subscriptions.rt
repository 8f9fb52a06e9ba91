//! Commands that subscribe or unsubscribe.

ghost use Rattle.std.specs.Prelude.{◌≡◌};
ghost use Rattle.resp_command.specs.Subscriptions.{is_subscription_name};

/// Whether this is the name of one, in letters of either case.
#[tactic(auto, using(crate::proofs::FirstArgument::few))]
pub(crate) fn is_subscription_name(name: &[u8]) -> bool
    ensures { result ≡ is_subscription_name name.now }
{
    // Most names have fewer bytes than any of these.
    name.len() >= 9 && is_long_subscription_name(name)
}

/// The same of a name of any length; not inlined, for the sake of the others.
#[inline(never)]
#[tactic(auto, unfolding(crate::specs::Subscriptions::is_subscription_name))]
fn is_long_subscription_name(name: &[u8]) -> bool
    ensures { result ≡ is_subscription_name name.now }
{
    name.eq_ignore_ascii_case(b"SUBSCRIBE")
        || name.eq_ignore_ascii_case(b"PSUBSCRIBE")
        || name.eq_ignore_ascii_case(b"SSUBSCRIBE")
        || name.eq_ignore_ascii_case(b"UNSUBSCRIBE")
        || name.eq_ignore_ascii_case(b"PUNSUBSCRIBE")
        || name.eq_ignore_ascii_case(b"SUNSUBSCRIBE")
}
