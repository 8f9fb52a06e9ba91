//! Pipelines as what may be tried again.

use crate::pipeline::Pipeline;
use crate::retries::Attempt;
use resp_command::ConnectionLike;
use resp_from::FromRedisValue;
use resp_value::RedisResult;

impl<T: FromRedisValue> Attempt<T> for Pipeline {
    ghost use Rattle.resp_pipeline.specs.PipelineQuery.{PipelineQuery};

    ghost attempts = { λ pipeline old new result.
        PipelineQuery old new pipeline T.of_value result };

    fn attempt(&self, con: &mut dyn ConnectionLike) -> RedisResult<T> {
        self.query(con)
    }
}
