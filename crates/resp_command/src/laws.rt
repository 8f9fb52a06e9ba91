//! The laws: functions that do nothing, and whose contracts are proved.

ghost use Rattle.std.specs.Prelude.{◌≡◌, ◌≢◌, ℕ, false, [], List, Result, Some};
ghost use Rattle.resp_errors.specs.declared.redis_error.RedisError.{RedisError};
ghost use Rattle.resp_command.specs.Call.{Answers, AnswersReply, needed};
ghost use Rattle.resp_command.specs.Command.{Command};
ghost use Rattle.resp_command.specs.CommandQuery.{CommandQuery};
ghost use Rattle.resp_command.specs.Connection.{Connection, KnownExchange, routes};
ghost use Rattle.resp_command.specs.Packed.{packed};
ghost use Rattle.resp_command.specs.ShownArgs.{IsArgClone, ShowsOnly, arg_eq};
ghost use Rattle.resp_args.specs.Args.{Args};
ghost use Rattle.resp_parse.specs.declared.limits.Limits.{Limits};
ghost use Rattle.resp_command.specs.PackingLaw.{LawOfPacking, LawOfRequests};
ghost use Rattle.resp_command.specs.ScanLaw.{LawOfScans};
ghost use Rattle.resp_command.specs.Subscriptions.{IsUnanswered};
ghost use Rattle.resp_command.specs.Taken.{TakesOneThing};

use crate::args_iter::Arg;
use resp_from::FromRedisValue;

/// A packed command of up to 2^63 - 1 bytes is read by the grammar as the one array of its
/// arguments, and as nothing else.
pub fn law_of_packing()
    ensures { (args : Args) → LawOfPacking args }
{}

/// Packed commands, joined, of up to 2^63 - 1 bytes in all are read by the grammar as the arrays of
/// their arguments, in order, and as nothing else.
pub fn law_of_requests()
    ensures { (lists : List Args) → LawOfRequests lists }
{}

/// From any bytes n replies take one thing, and nothing else: the replies with the pushes before
/// the last of them and the rest; or a fault, an early end, or a push for which there is no room
/// under the limit, and the pushes before it.
pub fn law_of_taking()
    ensures { (l : Limits) (room n : ℕ) (b : List ℕ) → TakesOneThing l room n b }
{}

/// A scan that is called until it answers nothing made requests one after another, each with the
/// latest cursor, none after cursor 0, and no more than its budget; it answered what waited and
/// what they gave, in order; in the end its cursor is 0, or its budget is used up, which its last
/// answer says; and it answers nothing ever after.
pub fn law_of_scans<T: FromRedisValue>()
    ensures { LawOfScans T.WIDTH T.of_value }
{}

/// Over a source that tells its bytes, as memory does, a query that is sent takes its reply from all
/// bytes that are incoming: what is said of those that came holds of them all.
pub fn law_of_commands_in_memory<T: FromRedisValue>()
    ensures { (old new : Connection) (c : Command) (r : Result T RedisError) (later : List ℕ)
        → CommandQuery old new c T.of_value r → old.broken ≡ false → old.policy ≢ routes
        → c.args ≢ [] → (IsUnanswered c → ⊥) → old.to_come ≡ Some later
        → KnownExchange old new later (packed c.args) (needed c) r
        (AnswersReply (Answers T.of_value r)) }
{}

/// A clone of a shown argument is a cursor where it is one, and else an ordinary argument that shows a
/// clone of what it shows; it is never refused where the clone of that isn't.
pub fn law_of_cloned_arguments<D: Clone>()
    ensures same { (a b : Arg D) → ⟦<Arg<D> as Clone>⟧.is_clone a b → IsArgClone D.is_clone a b }
    ensures succeeds { (a : Arg D) → ShowsOnly D.is_infallible a
        → ⟦<Arg<D> as Clone>⟧.is_infallible a }
{}

/// Two shown arguments are equal where both are cursors, or where both are ordinary and what they
/// show is equal.
pub fn law_of_equal_arguments<D: PartialEq>()
    ensures { (a b : Arg D) → ⟦<Arg<D> as PartialEq>⟧.eq a b ≡ arg_eq D.eq a b }
{}
