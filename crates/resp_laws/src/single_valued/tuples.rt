//! Tuples: a tuple looks like the pair of its first element and the tuple of the others.

use crate::single_valued::SingleValued;

impl<A: SingleValued> SingleValued for (A,) {
    ghost use Rattle.resp_laws.specs.lemmas.Tuples.{last_one, one_tuple};

    ghost Seen = { A.Seen };

    ghost seen = { λ x. A.seen x.0 };

    ghost single = { λ reply x y. one_tuple 1 (last_one A.single) reply x.0 y.0 };
}

impl<A: SingleValued, B: SingleValued> SingleValued for (A, B) {
    ghost use Rattle.resp_types.specs.OneValue.{pair_seen};
    ghost use Rattle.resp_laws.specs.lemmas.Tuples.{last_one, one_and, one_tuple};

    ghost Seen = { A.Seen × B.Seen };

    ghost seen = { λ x. pair_seen A.seen B.seen (x.0, x.1) };

    ghost single = { λ reply x y. one_tuple 2 (one_and A.single (last_one B.single))
        reply (x.0, x.1) (y.0, y.1) };
}

impl<A: SingleValued, B: SingleValued, C: SingleValued> SingleValued for (A, B, C) {
    ghost use Rattle.resp_types.specs.OneValue.{pair_seen};
    ghost use Rattle.resp_laws.specs.lemmas.Tuples.{last_one, one_and, one_tuple};

    ghost Seen = { A.Seen × (B.Seen × C.Seen) };

    ghost seen = { λ x. pair_seen A.seen (pair_seen B.seen C.seen) (x.0, (x.1, x.2)) };

    ghost single = { λ reply x y. one_tuple 3 (one_and A.single (one_and B.single
        (last_one C.single)))
        reply (x.0, (x.1, x.2)) (y.0, (y.1, y.2)) };
}

impl<A: SingleValued, B: SingleValued, C: SingleValued, D: SingleValued> SingleValued
    for (A, B, C, D) {
    ghost use Rattle.resp_types.specs.OneValue.{pair_seen};
    ghost use Rattle.resp_laws.specs.lemmas.Tuples.{last_one, one_and, one_tuple};

    ghost Seen = { A.Seen × (B.Seen × (C.Seen × D.Seen)) };

    ghost seen = { λ x. pair_seen A.seen (pair_seen B.seen (pair_seen C.seen D.seen))
        (x.0, (x.1, (x.2, x.3))) };

    ghost single = { λ reply x y. one_tuple 4 (one_and A.single (one_and B.single (one_and C.single
        (last_one D.single))))
        reply (x.0, (x.1, (x.2, x.3))) (y.0, (y.1, (y.2, y.3))) };
}

impl<
    A: SingleValued,
    B: SingleValued,
    C: SingleValued,
    D: SingleValued,
    E: SingleValued,
> SingleValued for (A, B, C, D, E) {
    ghost use Rattle.resp_types.specs.OneValue.{pair_seen};
    ghost use Rattle.resp_laws.specs.lemmas.Tuples.{last_one, one_and, one_tuple};

    ghost Seen = { A.Seen × (B.Seen × (C.Seen × (D.Seen × E.Seen))) };

    ghost seen = { λ x. pair_seen A.seen (pair_seen B.seen (pair_seen C.seen
        (pair_seen D.seen E.seen)))
        (x.0, (x.1, (x.2, (x.3, x.4)))) };

    ghost single = { λ reply x y. one_tuple 5 (one_and A.single (one_and B.single (one_and C.single
        (one_and D.single (last_one E.single)))))
        reply (x.0, (x.1, (x.2, (x.3, x.4)))) (y.0, (y.1, (y.2, (y.3, y.4)))) };
}

impl<
    A: SingleValued,
    B: SingleValued,
    C: SingleValued,
    D: SingleValued,
    E: SingleValued,
    F: SingleValued,
> SingleValued for (A, B, C, D, E, F) {
    ghost use Rattle.resp_types.specs.OneValue.{pair_seen};
    ghost use Rattle.resp_laws.specs.lemmas.Tuples.{last_one, one_and, one_tuple};

    ghost Seen = { A.Seen × (B.Seen × (C.Seen × (D.Seen × (E.Seen × F.Seen)))) };

    ghost seen = { λ x. pair_seen A.seen (pair_seen B.seen (pair_seen C.seen (pair_seen D.seen
        (pair_seen E.seen F.seen))))
        (x.0, (x.1, (x.2, (x.3, (x.4, x.5))))) };

    ghost single = { λ reply x y. one_tuple 6 (one_and A.single (one_and B.single (one_and C.single
        (one_and D.single (one_and E.single (last_one F.single))))))
        reply (x.0, (x.1, (x.2, (x.3, (x.4, x.5))))) (y.0, (y.1, (y.2, (y.3, (y.4, y.5))))) };
}

impl<
    A: SingleValued,
    B: SingleValued,
    C: SingleValued,
    D: SingleValued,
    E: SingleValued,
    F: SingleValued,
    G: SingleValued,
> SingleValued for (A, B, C, D, E, F, G) {
    ghost use Rattle.resp_types.specs.OneValue.{pair_seen};
    ghost use Rattle.resp_laws.specs.lemmas.Tuples.{last_one, one_and, one_tuple};

    ghost Seen = { A.Seen × (B.Seen × (C.Seen × (D.Seen × (E.Seen × (F.Seen × G.Seen))))) };

    ghost seen = { λ x. pair_seen A.seen (pair_seen B.seen (pair_seen C.seen (pair_seen D.seen
        (pair_seen E.seen (pair_seen F.seen G.seen)))))
        (x.0, (x.1, (x.2, (x.3, (x.4, (x.5, x.6)))))) };

    ghost single = { λ reply x y. one_tuple 7 (one_and A.single (one_and B.single (one_and C.single
        (one_and D.single (one_and E.single (one_and F.single (last_one G.single)))))))
        reply (x.0, (x.1, (x.2, (x.3, (x.4, (x.5, x.6))))))
        (y.0, (y.1, (y.2, (y.3, (y.4, (y.5, y.6)))))) };
}

impl<
    A: SingleValued,
    B: SingleValued,
    C: SingleValued,
    D: SingleValued,
    E: SingleValued,
    F: SingleValued,
    G: SingleValued,
    H: SingleValued,
> SingleValued for (A, B, C, D, E, F, G, H) {
    ghost use Rattle.resp_types.specs.OneValue.{pair_seen};
    ghost use Rattle.resp_laws.specs.lemmas.Tuples.{last_one, one_and, one_tuple};

    ghost Seen = { A.Seen × (B.Seen × (C.Seen × (D.Seen × (E.Seen × (F.Seen × (G.Seen ×
        H.Seen)))))) };

    ghost seen = { λ x. pair_seen A.seen (pair_seen B.seen (pair_seen C.seen (pair_seen D.seen
        (pair_seen E.seen (pair_seen F.seen (pair_seen G.seen H.seen))))))
        (x.0, (x.1, (x.2, (x.3, (x.4, (x.5, (x.6, x.7))))))) };

    ghost single = { λ reply x y. one_tuple 8 (one_and A.single (one_and B.single (one_and C.single
        (one_and D.single (one_and E.single (one_and F.single (one_and G.single
        (last_one H.single))))))))
        reply (x.0, (x.1, (x.2, (x.3, (x.4, (x.5, (x.6, x.7)))))))
        (y.0, (y.1, (y.2, (y.3, (y.4, (y.5, (y.6, y.7))))))) };
}

impl<
    A: SingleValued,
    B: SingleValued,
    C: SingleValued,
    D: SingleValued,
    E: SingleValued,
    F: SingleValued,
    G: SingleValued,
    H: SingleValued,
    I: SingleValued,
> SingleValued for (A, B, C, D, E, F, G, H, I) {
    ghost use Rattle.resp_types.specs.OneValue.{pair_seen};
    ghost use Rattle.resp_laws.specs.lemmas.Tuples.{last_one, one_and, one_tuple};

    ghost Seen = { A.Seen × (B.Seen × (C.Seen × (D.Seen × (E.Seen × (F.Seen × (G.Seen × (H.Seen ×
        I.Seen))))))) };

    ghost seen = { λ x. pair_seen A.seen (pair_seen B.seen (pair_seen C.seen (pair_seen D.seen
        (pair_seen E.seen (pair_seen F.seen (pair_seen G.seen (pair_seen H.seen I.seen)))))))
        (x.0, (x.1, (x.2, (x.3, (x.4, (x.5, (x.6, (x.7, x.8)))))))) };

    ghost single = { λ reply x y. one_tuple 9 (one_and A.single (one_and B.single (one_and C.single
        (one_and D.single (one_and E.single (one_and F.single (one_and G.single (one_and H.single
        (last_one I.single)))))))))
        reply (x.0, (x.1, (x.2, (x.3, (x.4, (x.5, (x.6, (x.7, x.8))))))))
        (y.0, (y.1, (y.2, (y.3, (y.4, (y.5, (y.6, (y.7, y.8)))))))) };
}

impl<
    A: SingleValued,
    B: SingleValued,
    C: SingleValued,
    D: SingleValued,
    E: SingleValued,
    F: SingleValued,
    G: SingleValued,
    H: SingleValued,
    I: SingleValued,
    J: SingleValued,
> SingleValued for (A, B, C, D, E, F, G, H, I, J) {
    ghost use Rattle.resp_types.specs.OneValue.{pair_seen};
    ghost use Rattle.resp_laws.specs.lemmas.Tuples.{last_one, one_and, one_tuple};

    ghost Seen = { A.Seen × (B.Seen × (C.Seen × (D.Seen × (E.Seen × (F.Seen × (G.Seen × (H.Seen ×
        (I.Seen × J.Seen)))))))) };

    ghost seen = { λ x. pair_seen A.seen (pair_seen B.seen (pair_seen C.seen (pair_seen D.seen
        (pair_seen E.seen (pair_seen F.seen (pair_seen G.seen (pair_seen H.seen
        (pair_seen I.seen J.seen))))))))
        (x.0, (x.1, (x.2, (x.3, (x.4, (x.5, (x.6, (x.7, (x.8, x.9))))))))) };

    ghost single = { λ reply x y. one_tuple 10 (one_and A.single (one_and B.single (one_and C.single
        (one_and D.single (one_and E.single (one_and F.single (one_and G.single (one_and H.single
        (one_and I.single (last_one J.single))))))))))
        reply (x.0, (x.1, (x.2, (x.3, (x.4, (x.5, (x.6, (x.7, (x.8, x.9)))))))))
        (y.0, (y.1, (y.2, (y.3, (y.4, (y.5, (y.6, (y.7, (y.8, y.9))))))))) };
}

impl<
    A: SingleValued,
    B: SingleValued,
    C: SingleValued,
    D: SingleValued,
    E: SingleValued,
    F: SingleValued,
    G: SingleValued,
    H: SingleValued,
    I: SingleValued,
    J: SingleValued,
    K: SingleValued,
> SingleValued for (A, B, C, D, E, F, G, H, I, J, K) {
    ghost use Rattle.resp_types.specs.OneValue.{pair_seen};
    ghost use Rattle.resp_laws.specs.lemmas.Tuples.{last_one, one_and, one_tuple};

    ghost Seen = { A.Seen × (B.Seen × (C.Seen × (D.Seen × (E.Seen × (F.Seen × (G.Seen × (H.Seen ×
        (I.Seen × (J.Seen × K.Seen))))))))) };

    ghost seen = { λ x. pair_seen A.seen (pair_seen B.seen (pair_seen C.seen (pair_seen D.seen
        (pair_seen E.seen (pair_seen F.seen (pair_seen G.seen (pair_seen H.seen (pair_seen I.seen
        (pair_seen J.seen K.seen)))))))))
        (x.0, (x.1, (x.2, (x.3, (x.4, (x.5, (x.6, (x.7, (x.8, (x.9, x.10)))))))))) };

    ghost single = { λ reply x y. one_tuple 11 (one_and A.single (one_and B.single (one_and C.single
        (one_and D.single (one_and E.single (one_and F.single (one_and G.single (one_and H.single
        (one_and I.single (one_and J.single (last_one K.single)))))))))))
        reply (x.0, (x.1, (x.2, (x.3, (x.4, (x.5, (x.6, (x.7, (x.8, (x.9, x.10))))))))))
        (y.0, (y.1, (y.2, (y.3, (y.4, (y.5, (y.6, (y.7, (y.8, (y.9, y.10)))))))))) };
}

impl<
    A: SingleValued,
    B: SingleValued,
    C: SingleValued,
    D: SingleValued,
    E: SingleValued,
    F: SingleValued,
    G: SingleValued,
    H: SingleValued,
    I: SingleValued,
    J: SingleValued,
    K: SingleValued,
    L: SingleValued,
> SingleValued for (A, B, C, D, E, F, G, H, I, J, K, L) {
    ghost use Rattle.resp_types.specs.OneValue.{pair_seen};
    ghost use Rattle.resp_laws.specs.lemmas.Tuples.{last_one, one_and, one_tuple};

    ghost Seen = { A.Seen × (B.Seen × (C.Seen × (D.Seen × (E.Seen × (F.Seen × (G.Seen × (H.Seen ×
        (I.Seen × (J.Seen × (K.Seen × L.Seen)))))))))) };

    ghost seen = { λ x. pair_seen A.seen (pair_seen B.seen (pair_seen C.seen (pair_seen D.seen
        (pair_seen E.seen (pair_seen F.seen (pair_seen G.seen (pair_seen H.seen (pair_seen I.seen
        (pair_seen J.seen (pair_seen K.seen L.seen))))))))))
        (x.0, (x.1, (x.2, (x.3, (x.4, (x.5, (x.6, (x.7, (x.8, (x.9, (x.10, x.11))))))))))) };

    ghost single = { λ reply x y. one_tuple 12 (one_and A.single (one_and B.single (one_and C.single
        (one_and D.single (one_and E.single (one_and F.single (one_and G.single (one_and H.single
        (one_and I.single (one_and J.single (one_and K.single (last_one L.single))))))))))))
        reply (x.0, (x.1, (x.2, (x.3, (x.4, (x.5, (x.6, (x.7, (x.8, (x.9, (x.10, x.11)))))))))))
        (y.0, (y.1, (y.2, (y.3, (y.4, (y.5, (y.6, (y.7, (y.8, (y.9, (y.10, y.11))))))))))) };
}
