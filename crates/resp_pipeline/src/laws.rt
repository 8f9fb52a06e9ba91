//! The laws of pipelines: functions that do nothing, and whose contracts are proved.

ghost use Rattle.std.specs.Prelude.{◌≡◌, ◌≢◌, ℕ, true, false, List, Result, Some};
ghost use Rattle.resp_errors.specs.declared.redis_error.RedisError.{RedisError};
ghost use Rattle.resp_command.specs.Connection.{Connection, KnownExchange, routes};
ghost use Rattle.resp_pipeline.specs.Outcome.{Outcome};
ghost use Rattle.resp_pipeline.specs.Pipeline.{Plan, request, replies_needed};
ghost use Rattle.resp_pipeline.specs.PipelineLaw.{LawOfPipelines};
ghost use Rattle.resp_pipeline.specs.PipelineQuery.{PipelineQuery};

use resp_from::FromRedisValue;

/// The bytes of a pipeline, up to 2^63 - 1 of them, are read by the grammar as the arrays of its
/// commands, in order, and as nothing else.
pub fn law_of_pipelines()
    ensures { (p : Plan) → LawOfPipelines p }
{}

/// Over a source that tells its bytes, as memory does, a pipeline takes its replies from all bytes
/// that are incoming: what is said of those that came holds of them all.
pub fn law_of_pipelines_in_memory<T: FromRedisValue>()
    ensures { (old new : Connection) (p : Plan) (r : Result T RedisError) (later : List ℕ)
        → PipelineQuery old new p T.of_value r → old.pipelines ≡ true → old.broken ≡ false
        → old.policy ≢ routes → old.to_come ≡ Some later
        → KnownExchange old new later (request p) (replies_needed p) r (Outcome p T.of_value r) }
{}
