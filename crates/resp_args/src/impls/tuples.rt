//! Tuples are written as their elements, in order: from three elements on, as the pair of the first
//! and a tuple of the rest. Refused at the first element that is refused; those before it are
//! written whole.

ghost use Rattle.std.specs.Prelude.{◌≡◌, ◌⊎◌};
ghost use Rattle.resp_args.specs.Args.{GivesBoth, FailsBoth};

use crate::args::{NumericBehavior, ToRedisArgs};
use crate::write::RedisWrite;
use resp_errors::RedisResult;

impl<A: ToRedisArgs> ToRedisArgs for (A,) {
    ghost gives = { λ x. A.gives x.0 };

    ghost refuses = { λ x. A.refuses x.0 };

    ghost fails = { λ x. A.fails x.0 };

    fn write_redis_args<W: RedisWrite>(&self, out: &mut W) -> RedisResult<()> {
        self.0.write_redis_args(out)
    }

    fn write_args_from_slice<W: RedisWrite>(items: &[Self], out: &mut W) -> RedisResult<()> {
        Self::write_each_arg(items, out)
    }

    fn num_of_args(&self) -> usize {
        1
    }

    fn describe_numeric_behavior(&self) -> NumericBehavior {
        NumericBehavior::NonNumeric
    }

    fn is_single_vec_arg(items: &[Self]) -> bool {
        items.len() == 1
    }
}

impl<A: ToRedisArgs, B: ToRedisArgs> ToRedisArgs for (A, B) {
    ghost gives = { λ x. GivesBoth (A.gives x.0) (B.gives x.1) };

    ghost refuses = { λ x. A.refuses x.0 ⊎ B.refuses x.1 };

    ghost fails = { λ x. FailsBoth (A.gives x.0) (A.fails x.0) (B.fails x.1) };

    ghost count = { λ _. 2 };

    fn write_redis_args<W: RedisWrite>(&self, out: &mut W) -> RedisResult<()> {
        self.0.write_redis_args(out)?;
        self.1.write_redis_args(out)
    }

    fn write_args_from_slice<W: RedisWrite>(items: &[Self], out: &mut W) -> RedisResult<()> {
        Self::write_each_arg(items, out)
    }

    fn num_of_args(&self) -> usize {
        2
    }

    fn describe_numeric_behavior(&self) -> NumericBehavior {
        NumericBehavior::NonNumeric
    }

    fn is_single_vec_arg(_items: &[Self]) -> bool {
        false
    }
}

impl<A: ToRedisArgs, B: ToRedisArgs, C: ToRedisArgs> ToRedisArgs for (A, B, C) {
    ghost gives = { λ x. GivesBoth (A.gives x.0) (GivesBoth (B.gives x.1) (C.gives x.2)) };

    ghost refuses = { λ x. A.refuses x.0 ⊎ (B.refuses x.1 ⊎ C.refuses x.2) };

    ghost fails = { λ x. FailsBoth (A.gives x.0) (A.fails x.0)
        (FailsBoth (B.gives x.1) (B.fails x.1) (C.fails x.2)) };

    ghost count = { λ _. 3 };

    fn write_redis_args<W: RedisWrite>(&self, out: &mut W) -> RedisResult<()> {
        let rest = (&self.1, &self.2);
        (&self.0, rest).write_redis_args(out)
    }

    fn write_args_from_slice<W: RedisWrite>(items: &[Self], out: &mut W) -> RedisResult<()> {
        Self::write_each_arg(items, out)
    }

    fn num_of_args(&self) -> usize {
        3
    }

    fn describe_numeric_behavior(&self) -> NumericBehavior {
        NumericBehavior::NonNumeric
    }

    fn is_single_vec_arg(_items: &[Self]) -> bool {
        false
    }
}

impl<A: ToRedisArgs, B: ToRedisArgs, C: ToRedisArgs, D: ToRedisArgs> ToRedisArgs for (A, B, C, D) {
    ghost gives = { λ x. GivesBoth (A.gives x.0)
        (GivesBoth (B.gives x.1) (GivesBoth (C.gives x.2) (D.gives x.3))) };

    ghost refuses = { λ x. A.refuses x.0 ⊎ (B.refuses x.1 ⊎ (C.refuses x.2 ⊎ D.refuses x.3)) };

    ghost fails = { λ x. FailsBoth (A.gives x.0) (A.fails x.0)
        (FailsBoth (B.gives x.1) (B.fails x.1)
        (FailsBoth (C.gives x.2) (C.fails x.2) (D.fails x.3))) };

    ghost count = { λ _. 4 };

    fn write_redis_args<W: RedisWrite>(&self, out: &mut W) -> RedisResult<()> {
        let rest = (&self.1, &self.2, &self.3);
        (&self.0, rest).write_redis_args(out)
    }

    fn write_args_from_slice<W: RedisWrite>(items: &[Self], out: &mut W) -> RedisResult<()> {
        Self::write_each_arg(items, out)
    }

    fn num_of_args(&self) -> usize {
        4
    }

    fn describe_numeric_behavior(&self) -> NumericBehavior {
        NumericBehavior::NonNumeric
    }

    fn is_single_vec_arg(_items: &[Self]) -> bool {
        false
    }
}

impl<A: ToRedisArgs, B: ToRedisArgs, C: ToRedisArgs, D: ToRedisArgs, E: ToRedisArgs> ToRedisArgs
    for (A, B, C, D, E) {
    ghost gives = { λ x. GivesBoth (A.gives x.0) (GivesBoth (B.gives x.1)
        (GivesBoth (C.gives x.2) (GivesBoth (D.gives x.3) (E.gives x.4)))) };

    ghost refuses = { λ x. A.refuses x.0
        ⊎ (B.refuses x.1 ⊎ (C.refuses x.2 ⊎ (D.refuses x.3 ⊎ E.refuses x.4))) };

    ghost fails = { λ x. FailsBoth (A.gives x.0) (A.fails x.0)
        (FailsBoth (B.gives x.1) (B.fails x.1) (FailsBoth (C.gives x.2) (C.fails x.2)
        (FailsBoth (D.gives x.3) (D.fails x.3) (E.fails x.4)))) };

    ghost count = { λ _. 5 };

    fn write_redis_args<W: RedisWrite>(&self, out: &mut W) -> RedisResult<()> {
        let rest = (&self.1, &self.2, &self.3, &self.4);
        (&self.0, rest).write_redis_args(out)
    }

    fn write_args_from_slice<W: RedisWrite>(items: &[Self], out: &mut W) -> RedisResult<()> {
        Self::write_each_arg(items, out)
    }

    fn num_of_args(&self) -> usize {
        5
    }

    fn describe_numeric_behavior(&self) -> NumericBehavior {
        NumericBehavior::NonNumeric
    }

    fn is_single_vec_arg(_items: &[Self]) -> bool {
        false
    }
}

impl<
    A: ToRedisArgs,
    B: ToRedisArgs,
    C: ToRedisArgs,
    D: ToRedisArgs,
    E: ToRedisArgs,
    F: ToRedisArgs,
> ToRedisArgs for (A, B, C, D, E, F) {
    ghost gives = { λ x. GivesBoth (A.gives x.0)
        (GivesBoth (B.gives x.1) (GivesBoth (C.gives x.2)
        (GivesBoth (D.gives x.3) (GivesBoth (E.gives x.4) (F.gives x.5))))) };

    ghost refuses = { λ x. A.refuses x.0
        ⊎ (B.refuses x.1 ⊎ (C.refuses x.2 ⊎ (D.refuses x.3 ⊎ (E.refuses x.4 ⊎ F.refuses x.5)))) };

    ghost fails = { λ x. FailsBoth (A.gives x.0) (A.fails x.0)
        (FailsBoth (B.gives x.1) (B.fails x.1) (FailsBoth (C.gives x.2) (C.fails x.2)
        (FailsBoth (D.gives x.3) (D.fails x.3)
        (FailsBoth (E.gives x.4) (E.fails x.4) (F.fails x.5))))) };

    ghost count = { λ _. 6 };

    fn write_redis_args<W: RedisWrite>(&self, out: &mut W) -> RedisResult<()> {
        let rest = (&self.1, &self.2, &self.3, &self.4, &self.5);
        (&self.0, rest).write_redis_args(out)
    }

    fn write_args_from_slice<W: RedisWrite>(items: &[Self], out: &mut W) -> RedisResult<()> {
        Self::write_each_arg(items, out)
    }

    fn num_of_args(&self) -> usize {
        6
    }

    fn describe_numeric_behavior(&self) -> NumericBehavior {
        NumericBehavior::NonNumeric
    }

    fn is_single_vec_arg(_items: &[Self]) -> bool {
        false
    }
}

impl<
    A: ToRedisArgs,
    B: ToRedisArgs,
    C: ToRedisArgs,
    D: ToRedisArgs,
    E: ToRedisArgs,
    F: ToRedisArgs,
    G: ToRedisArgs,
> ToRedisArgs for (A, B, C, D, E, F, G) {
    ghost gives = { λ x. GivesBoth (A.gives x.0)
        (GivesBoth (B.gives x.1) (GivesBoth (C.gives x.2)
        (GivesBoth (D.gives x.3) (GivesBoth (E.gives x.4)
        (GivesBoth (F.gives x.5) (G.gives x.6)))))) };

    ghost refuses = { λ x. A.refuses x.0
        ⊎ (B.refuses x.1 ⊎ (C.refuses x.2 ⊎ (D.refuses x.3 ⊎
        (E.refuses x.4 ⊎ (F.refuses x.5 ⊎ G.refuses x.6))))) };

    ghost fails = { λ x. FailsBoth (A.gives x.0) (A.fails x.0)
        (FailsBoth (B.gives x.1) (B.fails x.1) (FailsBoth (C.gives x.2) (C.fails x.2)
        (FailsBoth (D.gives x.3) (D.fails x.3) (FailsBoth (E.gives x.4) (E.fails x.4)
        (FailsBoth (F.gives x.5) (F.fails x.5) (G.fails x.6)))))) };

    ghost count = { λ _. 7 };

    fn write_redis_args<W: RedisWrite>(&self, out: &mut W) -> RedisResult<()> {
        let rest = (&self.1, &self.2, &self.3, &self.4, &self.5, &self.6);
        (&self.0, rest).write_redis_args(out)
    }

    fn write_args_from_slice<W: RedisWrite>(items: &[Self], out: &mut W) -> RedisResult<()> {
        Self::write_each_arg(items, out)
    }

    fn num_of_args(&self) -> usize {
        7
    }

    fn describe_numeric_behavior(&self) -> NumericBehavior {
        NumericBehavior::NonNumeric
    }

    fn is_single_vec_arg(_items: &[Self]) -> bool {
        false
    }
}

impl<
    A: ToRedisArgs,
    B: ToRedisArgs,
    C: ToRedisArgs,
    D: ToRedisArgs,
    E: ToRedisArgs,
    F: ToRedisArgs,
    G: ToRedisArgs,
    H: ToRedisArgs,
> ToRedisArgs for (A, B, C, D, E, F, G, H) {
    ghost gives = { λ x. GivesBoth (A.gives x.0)
        (GivesBoth (B.gives x.1) (GivesBoth (C.gives x.2)
        (GivesBoth (D.gives x.3) (GivesBoth (E.gives x.4)
        (GivesBoth (F.gives x.5) (GivesBoth (G.gives x.6) (H.gives x.7))))))) };

    ghost refuses = { λ x. A.refuses x.0
        ⊎ (B.refuses x.1 ⊎ (C.refuses x.2 ⊎ (D.refuses x.3 ⊎
        (E.refuses x.4 ⊎ (F.refuses x.5 ⊎ (G.refuses x.6 ⊎ H.refuses x.7)))))) };

    ghost fails = { λ x. FailsBoth (A.gives x.0) (A.fails x.0)
        (FailsBoth (B.gives x.1) (B.fails x.1) (FailsBoth (C.gives x.2) (C.fails x.2)
        (FailsBoth (D.gives x.3) (D.fails x.3) (FailsBoth (E.gives x.4) (E.fails x.4)
        (FailsBoth (F.gives x.5) (F.fails x.5)
        (FailsBoth (G.gives x.6) (G.fails x.6) (H.fails x.7))))))) };

    ghost count = { λ _. 8 };

    fn write_redis_args<W: RedisWrite>(&self, out: &mut W) -> RedisResult<()> {
        let rest = (
            &self.1, &self.2, &self.3, &self.4, &self.5, &self.6, &self.7,
        );
        (&self.0, rest).write_redis_args(out)
    }

    fn write_args_from_slice<W: RedisWrite>(items: &[Self], out: &mut W) -> RedisResult<()> {
        Self::write_each_arg(items, out)
    }

    fn num_of_args(&self) -> usize {
        8
    }

    fn describe_numeric_behavior(&self) -> NumericBehavior {
        NumericBehavior::NonNumeric
    }

    fn is_single_vec_arg(_items: &[Self]) -> bool {
        false
    }
}

impl<
    A: ToRedisArgs,
    B: ToRedisArgs,
    C: ToRedisArgs,
    D: ToRedisArgs,
    E: ToRedisArgs,
    F: ToRedisArgs,
    G: ToRedisArgs,
    H: ToRedisArgs,
    I: ToRedisArgs,
> ToRedisArgs for (A, B, C, D, E, F, G, H, I) {
    ghost gives = { λ x. GivesBoth (A.gives x.0)
        (GivesBoth (B.gives x.1) (GivesBoth (C.gives x.2)
        (GivesBoth (D.gives x.3) (GivesBoth (E.gives x.4)
        (GivesBoth (F.gives x.5) (GivesBoth (G.gives x.6)
        (GivesBoth (H.gives x.7) (I.gives x.8)))))))) };

    ghost refuses = { λ x. A.refuses x.0
        ⊎ (B.refuses x.1 ⊎ (C.refuses x.2 ⊎ (D.refuses x.3 ⊎
        (E.refuses x.4 ⊎ (F.refuses x.5 ⊎ (G.refuses x.6 ⊎ (H.refuses x.7 ⊎ I.refuses x.8))))))) };

    ghost fails = { λ x. FailsBoth (A.gives x.0) (A.fails x.0)
        (FailsBoth (B.gives x.1) (B.fails x.1) (FailsBoth (C.gives x.2) (C.fails x.2)
        (FailsBoth (D.gives x.3) (D.fails x.3) (FailsBoth (E.gives x.4) (E.fails x.4)
        (FailsBoth (F.gives x.5) (F.fails x.5) (FailsBoth (G.gives x.6) (G.fails x.6)
        (FailsBoth (H.gives x.7) (H.fails x.7) (I.fails x.8)))))))) };

    ghost count = { λ _. 9 };

    fn write_redis_args<W: RedisWrite>(&self, out: &mut W) -> RedisResult<()> {
        let rest = (
            &self.1, &self.2, &self.3, &self.4, &self.5, &self.6, &self.7, &self.8,
        );
        (&self.0, rest).write_redis_args(out)
    }

    fn write_args_from_slice<W: RedisWrite>(items: &[Self], out: &mut W) -> RedisResult<()> {
        Self::write_each_arg(items, out)
    }

    fn num_of_args(&self) -> usize {
        9
    }

    fn describe_numeric_behavior(&self) -> NumericBehavior {
        NumericBehavior::NonNumeric
    }

    fn is_single_vec_arg(_items: &[Self]) -> bool {
        false
    }
}

impl<
    A: ToRedisArgs,
    B: ToRedisArgs,
    C: ToRedisArgs,
    D: ToRedisArgs,
    E: ToRedisArgs,
    F: ToRedisArgs,
    G: ToRedisArgs,
    H: ToRedisArgs,
    I: ToRedisArgs,
    J: ToRedisArgs,
> ToRedisArgs for (A, B, C, D, E, F, G, H, I, J) {
    ghost gives = { λ x. GivesBoth (A.gives x.0)
        (GivesBoth (B.gives x.1) (GivesBoth (C.gives x.2)
        (GivesBoth (D.gives x.3) (GivesBoth (E.gives x.4)
        (GivesBoth (F.gives x.5) (GivesBoth (G.gives x.6)
        (GivesBoth (H.gives x.7) (GivesBoth (I.gives x.8) (J.gives x.9))))))))) };

    ghost refuses = { λ x. A.refuses x.0
        ⊎ (B.refuses x.1 ⊎ (C.refuses x.2 ⊎ (D.refuses x.3 ⊎
        (E.refuses x.4 ⊎ (F.refuses x.5 ⊎ (G.refuses x.6 ⊎
        (H.refuses x.7 ⊎ (I.refuses x.8 ⊎ J.refuses x.9)))))))) };

    ghost fails = { λ x. FailsBoth (A.gives x.0) (A.fails x.0)
        (FailsBoth (B.gives x.1) (B.fails x.1) (FailsBoth (C.gives x.2) (C.fails x.2)
        (FailsBoth (D.gives x.3) (D.fails x.3) (FailsBoth (E.gives x.4) (E.fails x.4)
        (FailsBoth (F.gives x.5) (F.fails x.5) (FailsBoth (G.gives x.6) (G.fails x.6)
        (FailsBoth (H.gives x.7) (H.fails x.7)
        (FailsBoth (I.gives x.8) (I.fails x.8) (J.fails x.9))))))))) };

    ghost count = { λ _. 10 };

    fn write_redis_args<W: RedisWrite>(&self, out: &mut W) -> RedisResult<()> {
        let rest = (
            &self.1, &self.2, &self.3, &self.4, &self.5, &self.6, &self.7, &self.8, &self.9,
        );
        (&self.0, rest).write_redis_args(out)
    }

    fn write_args_from_slice<W: RedisWrite>(items: &[Self], out: &mut W) -> RedisResult<()> {
        Self::write_each_arg(items, out)
    }

    fn num_of_args(&self) -> usize {
        10
    }

    fn describe_numeric_behavior(&self) -> NumericBehavior {
        NumericBehavior::NonNumeric
    }

    fn is_single_vec_arg(_items: &[Self]) -> bool {
        false
    }
}

impl<
    A: ToRedisArgs,
    B: ToRedisArgs,
    C: ToRedisArgs,
    D: ToRedisArgs,
    E: ToRedisArgs,
    F: ToRedisArgs,
    G: ToRedisArgs,
    H: ToRedisArgs,
    I: ToRedisArgs,
    J: ToRedisArgs,
    K: ToRedisArgs,
> ToRedisArgs for (A, B, C, D, E, F, G, H, I, J, K) {
    ghost gives = { λ x. GivesBoth (A.gives x.0)
        (GivesBoth (B.gives x.1) (GivesBoth (C.gives x.2)
        (GivesBoth (D.gives x.3) (GivesBoth (E.gives x.4)
        (GivesBoth (F.gives x.5) (GivesBoth (G.gives x.6)
        (GivesBoth (H.gives x.7) (GivesBoth (I.gives x.8)
        (GivesBoth (J.gives x.9) (K.gives x.10)))))))))) };

    ghost refuses = { λ x. A.refuses x.0
        ⊎ (B.refuses x.1 ⊎ (C.refuses x.2 ⊎ (D.refuses x.3 ⊎
        (E.refuses x.4 ⊎ (F.refuses x.5 ⊎ (G.refuses x.6 ⊎
        (H.refuses x.7 ⊎ (I.refuses x.8 ⊎ (J.refuses x.9 ⊎ K.refuses x.10))))))))) };

    ghost fails = { λ x. FailsBoth (A.gives x.0) (A.fails x.0)
        (FailsBoth (B.gives x.1) (B.fails x.1) (FailsBoth (C.gives x.2) (C.fails x.2)
        (FailsBoth (D.gives x.3) (D.fails x.3) (FailsBoth (E.gives x.4) (E.fails x.4)
        (FailsBoth (F.gives x.5) (F.fails x.5) (FailsBoth (G.gives x.6) (G.fails x.6)
        (FailsBoth (H.gives x.7) (H.fails x.7) (FailsBoth (I.gives x.8) (I.fails x.8)
        (FailsBoth (J.gives x.9) (J.fails x.9) (K.fails x.10)))))))))) };

    ghost count = { λ _. 11 };

    fn write_redis_args<W: RedisWrite>(&self, out: &mut W) -> RedisResult<()> {
        let rest = (
            &self.1, &self.2, &self.3, &self.4, &self.5, &self.6, &self.7, &self.8, &self.9,
            &self.10,
        );
        (&self.0, rest).write_redis_args(out)
    }

    fn write_args_from_slice<W: RedisWrite>(items: &[Self], out: &mut W) -> RedisResult<()> {
        Self::write_each_arg(items, out)
    }

    fn num_of_args(&self) -> usize {
        11
    }

    fn describe_numeric_behavior(&self) -> NumericBehavior {
        NumericBehavior::NonNumeric
    }

    fn is_single_vec_arg(_items: &[Self]) -> bool {
        false
    }
}

impl<
    A: ToRedisArgs,
    B: ToRedisArgs,
    C: ToRedisArgs,
    D: ToRedisArgs,
    E: ToRedisArgs,
    F: ToRedisArgs,
    G: ToRedisArgs,
    H: ToRedisArgs,
    I: ToRedisArgs,
    J: ToRedisArgs,
    K: ToRedisArgs,
    L: ToRedisArgs,
> ToRedisArgs for (A, B, C, D, E, F, G, H, I, J, K, L) {
    ghost gives = { λ x. GivesBoth (A.gives x.0)
        (GivesBoth (B.gives x.1) (GivesBoth (C.gives x.2)
        (GivesBoth (D.gives x.3) (GivesBoth (E.gives x.4)
        (GivesBoth (F.gives x.5) (GivesBoth (G.gives x.6)
        (GivesBoth (H.gives x.7) (GivesBoth (I.gives x.8)
        (GivesBoth (J.gives x.9) (GivesBoth (K.gives x.10) (L.gives x.11))))))))))) };

    ghost refuses = { λ x. A.refuses x.0
        ⊎ (B.refuses x.1 ⊎ (C.refuses x.2 ⊎ (D.refuses x.3 ⊎
        (E.refuses x.4 ⊎ (F.refuses x.5 ⊎ (G.refuses x.6 ⊎
        (H.refuses x.7 ⊎ (I.refuses x.8 ⊎ (J.refuses x.9 ⊎
        (K.refuses x.10 ⊎ L.refuses x.11)))))))))) };

    ghost fails = { λ x. FailsBoth (A.gives x.0) (A.fails x.0)
        (FailsBoth (B.gives x.1) (B.fails x.1) (FailsBoth (C.gives x.2) (C.fails x.2)
        (FailsBoth (D.gives x.3) (D.fails x.3) (FailsBoth (E.gives x.4) (E.fails x.4)
        (FailsBoth (F.gives x.5) (F.fails x.5) (FailsBoth (G.gives x.6) (G.fails x.6)
        (FailsBoth (H.gives x.7) (H.fails x.7) (FailsBoth (I.gives x.8) (I.fails x.8)
        (FailsBoth (J.gives x.9) (J.fails x.9)
        (FailsBoth (K.gives x.10) (K.fails x.10) (L.fails x.11))))))))))) };

    ghost count = { λ _. 12 };

    fn write_redis_args<W: RedisWrite>(&self, out: &mut W) -> RedisResult<()> {
        let rest = (
            &self.1, &self.2, &self.3, &self.4, &self.5, &self.6, &self.7, &self.8, &self.9,
            &self.10, &self.11,
        );
        (&self.0, rest).write_redis_args(out)
    }

    fn write_args_from_slice<W: RedisWrite>(items: &[Self], out: &mut W) -> RedisResult<()> {
        Self::write_each_arg(items, out)
    }

    fn num_of_args(&self) -> usize {
        12
    }

    fn describe_numeric_behavior(&self) -> NumericBehavior {
        NumericBehavior::NonNumeric
    }

    fn is_single_vec_arg(_items: &[Self]) -> bool {
        false
    }
}
