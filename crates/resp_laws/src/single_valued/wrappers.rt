//! Values that may be absent, values behind pointers, and results.

use crate::single_valued::SingleValued;
use resp_value::RedisError;
use std::rc::Rc;

impl<T: SingleValued> SingleValued for Option<T> {
    ghost use Rattle.std.specs.Prelude.{Option, option_map};
    ghost use Rattle.resp_laws.specs.lemmas.Wrappers.{one_option};

    ghost Seen = { Option T.Seen };

    ghost seen = { option_map T.seen };

    ghost single = { one_option T.of_value T.seen T.single };
}

impl<T: SingleValued> SingleValued for Box<T> {
    ghost Seen = { T.Seen };

    ghost seen = { λ x. T.seen x.value };

    ghost single = { λ reply x y. T.single reply x.value y.value };
}

impl<T: SingleValued> SingleValued for Rc<T> {
    ghost Seen = { T.Seen };

    ghost seen = { λ x. T.seen x.value };

    ghost single = { λ reply x y. T.single reply x.value y.value };
}

impl<T: SingleValued> SingleValued for Result<T, RedisError> {
    ghost use Rattle.std.specs.Prelude.{Result};
    ghost use Rattle.resp_errors.specs.declared.redis_error.RedisError.{RedisError};
    ghost use Rattle.resp_laws.specs.Laws.{result_seen};
    ghost use Rattle.resp_laws.specs.lemmas.Wrappers.{one_result};

    ghost Seen = { Result T.Seen RedisError };

    ghost seen = { result_seen T.seen };

    ghost single = { one_result T.of_value T.seen T.single };
}
