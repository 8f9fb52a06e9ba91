//! Where a command goes.

ghost use Rattle.std.specs.Prelude.{◌≡◌, ◌≢◌, ⊤, IfOk, IfErr, IsSomeAnd, IsTrue, MatchOption};
ghost use Rattle.resp_routing.specs.Commands.{words};
ghost use Rattle.resp_routing.specs.Keys.{Adds};
ghost use Rattle.resp_routing.specs.Routes.{AreApart, HasNoRoute, IsCommon, IsFirstKey, IsRoute};
ghost use Rattle.resp_routing.specs.Routes.{args_at, hashed_in, is_readonly, reads};

use crate::commands::{Access, BeginSearch, FindKeys, Keys, RequestPolicy};
use crate::errors::RoutingError;
use crate::lookup::command_info;
use crate::slots::get_slot;
use std::alloc::Global;

/// Where a command goes.
#[derive(Debug, Drop)]
pub enum Route {
    /// To the node of this slot, which all its keys are in.
    Slot(u16),
    /// It has no keys: where this policy says, or to any one node where there is none.
    Keyless(Option<RequestPolicy>),
}

/// Where a command goes, given its arguments, the name first.
///
/// Its slot is that of its keys, or of its shard channels, which are hashed as keys are. Fails as
/// [`keys_of`](crate::keys_of) does, and with `CrossSlot` where two keys are in different slots,
/// which a server refuses.
pub fn route_of(alloc: Global, args: &[&[u8]]) -> Result<Route, RoutingError>
    ensures routed { IfOk result (λ route. IsRoute (words args.now) route) }
    ensures refused { IfErr result
        (λ e. e ≢ RoutingError.OutOfMemory → HasNoRoute (words args.now) e) }
{
    let Some(command) = command_info(args) else {
        return Err(RoutingError::UnknownCommand);
    };
    if !command.fits(args.len()) {
        return Err(RoutingError::WrongArity);
    }
    if let [_, key, ..] = args
        && command.keys.is_first()
    {
        return Ok(Route::Slot(get_slot(key)));
    }
    let mut positions = Vec::new(alloc);
    command.keys.push_hashed(args, &mut positions)?;
    match common_slot(args, positions.as_slice())? {
        Some(slot) => Ok(Route::Slot(slot)),
        None => Ok(Route::Keyless(command.request_policy)),
    }
}

/// Whether a command only reads, so that it may be sent again when it isn't known whether it was
/// run; given its arguments, the name first. A command that the table doesn't have may write.
pub fn is_readonly_cmd(args: &[&[u8]]) -> bool
    ensures { result ≡ is_readonly (words args.now) }
{
    match command_info(args) {
        Some(command) => command.access.reads(),
        None => false,
    }
}

impl Access {
    fn reads(&self) -> bool
        ensures { result ≡ reads self.now }
    {
        match self {
            Access::Reads => true,
            Access::Writes | Access::Neither => false,
        }
    }
}

impl Keys {
    /// Whether a command with such keys has one alone, its first argument after the name.
    pub(crate) fn is_first(&self) -> bool
        ensures { IsTrue result → IsFirstKey self.now }
    {
        match self {
            Keys::One(spec) => spec.begin.is_first() && spec.find.is_one(),
            _ => false,
        }
    }

    /// Appends the positions of what the slot is computed of.
    #[tactic(auto, unfolding(crate::specs::Routes::hashed_in))]
    fn push_hashed(&self, args: &[&[u8]], positions: &mut Vec<usize>) -> Result<(), RoutingError>
        ensures { Adds (hashed_in self.now (words args.now)) positions.old.items positions.new.items
            result }
    {
        match self {
            Keys::Channels(channels) => channels.push_keys(args, positions),
            keys => keys.push_keys(args, positions),
        }
    }
}

impl BeginSearch {
    /// Whether that is the first argument after the name.
    fn is_first(&self) -> bool
        ensures { IsTrue result → self.now ≡ BeginSearch.Index 1 }
    {
        match self {
            BeginSearch::Index(place) => *place == 1,
            _ => false,
        }
    }
}

impl FindKeys {
    /// Whether that is one key.
    fn is_one(&self) -> bool
        ensures { IsTrue result → self.now ≡ FindKeys.First 1 }
    {
        match self {
            FindKeys::First(count) => *count == 1,
            _ => false,
        }
    }
}

/// The slot of the arguments at these positions, if there are any.
fn common_slot(args: &[&[u8]], positions: &[usize]) -> Result<Option<u16>, RoutingError>
    ensures one { IfOk result (λ slot. IsCommon (args_at (words args.now) positions.now) slot) }
    ensures apart { IfErr result (λ e. (e ≡ RoutingError.CrossSlot)
        × AreApart (args_at (words args.now) positions.now)) }
{
    let mut common = None;
    for position in positions {
        if *position < args.len() {
            common = Some(with_slot(common, get_slot(args[*position]))?);
        }
    }
    Ok(common)
}

/// The slot of some keys and one more.
fn with_slot(common: Option<u16>, slot: u16) -> Result<u16, RoutingError>
    ensures same { IfOk result (λ joined. (joined ≡ slot)
        × MatchOption common ⊤ (λ other. other ≡ slot)) }
    ensures apart { IfErr result (λ e. (e ≡ RoutingError.CrossSlot)
        × IsSomeAnd common (λ other. other ≢ slot)) }
{
    match common {
        Some(other) if other != slot => Err(RoutingError::CrossSlot),
        _ => Ok(slot),
    }
}
