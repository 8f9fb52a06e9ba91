//! Commands that go to one node.

ghost use Rattle.std.specs.Prelude.{◌≡◌, ◌≢◌, IfOk, IfErr};
ghost use Rattle.resp_errors.specs.declared.redis_error.RedisError.TheVariants as form;
ghost use Rattle.resp_cluster.specs.Cluster.{CannotGo, Goes, error_of, is_to_one};

use crate::link_commands::is_link_command;
use resp_command::Cmd;
use resp_routing::{Route, RoutingError, route_of_cmd};
use resp_value::{ErrorKind, RedisError, RedisResult};
use std::alloc::Global;

/// Why a command isn't sent to one node. It is small, so that a command that is sent pays nothing
/// for the errors of others.
#[derive(Drop)]
pub(crate) enum Refusal {
    /// It has no arguments.
    Empty,
    /// Its reply is waited for, which wouldn't come.
    Unanswered,
    /// It changes what a link is.
    OfLink,
    /// It goes to several nodes.
    Several,
    /// It has no route.
    Unrouted(RoutingError),
}

impl Refusal {
    /// What a caller is answered.
    #[inline(never)]
    pub(crate) fn to_redis_error(&self, alloc: Global) -> RedisError
        ensures { result ≢ form.OutOfMemory → result ≡ error_of self.now }
    {
        match self {
            Refusal::Empty => RedisError::from((ErrorKind::Client, "empty command")),
            Refusal::Unanswered => RedisError::from((
                ErrorKind::Client,
                "a subscription has no reply: set_no_response, then next_push",
            )),
            Refusal::OfLink => RedisError::from((
                ErrorKind::Client,
                "the command changes a link: send it over one",
            )),
            Refusal::Several => RedisError::from((
                ErrorKind::Client,
                "the command goes to several nodes: use req_fan_out",
            )),
            Refusal::Unrouted(why) => match why.to_redis_error(alloc) {
                Ok(error) | Err(error) => error,
            },
        }
    }
}

/// Where a command goes, if to one node.
pub(crate) fn route_for(alloc: Global, command: &Cmd) -> RedisResult<Route>
    ensures goes { IfOk result (Goes command.now) }
    ensures refused { IfErr result (λ e. e ≢ form.OutOfMemory → CannotGo command.now e) }
{
    match route_to_one(alloc, command) {
        Ok(route) => Ok(route),
        Err(why) => Err(why.to_redis_error(alloc)),
    }
}

/// The same, with why it goes nowhere.
#[inline(always)]
pub(crate) fn route_to_one(alloc: Global, command: &Cmd) -> Result<Route, Refusal>
    ensures goes { IfOk result (Goes command.now) }
    ensures refused { IfErr result (λ why. error_of why ≢ form.OutOfMemory
        → CannotGo command.now (error_of why)) }
{
    if command.is_empty() {
        return Err(Refusal::Empty);
    }
    if command.is_unanswered() {
        return Err(Refusal::Unanswered);
    }
    if is_link_command(command) {
        return Err(Refusal::OfLink);
    }
    match route_of_cmd(alloc, command, b"0") {
        Ok(route) if is_to_one(&route) => Ok(route),
        Ok(_) => Err(Refusal::Several),
        Err(why) => Err(Refusal::Unrouted(why)),
    }
}

/// Whether a route is to one node.
fn is_to_one(route: &Route) -> bool
    ensures { result ≡ is_to_one route.now }
{
    match route {
        Route::Slot(_) | Route::Keyless(None) => true,
        Route::Keyless(Some(_)) => false,
    }
}
