ghost use Rattle.std.specs.FinSet.{IsAntisymmetric, nat_cmp-IsAntisymmetric};

/// What a set may hold: values that tie in their order with themselves alone.
pub trait Key: Ord + Drop {
    /// Keys that tie are one key.
    ghost one: { IsAntisymmetric Self.cmp };
}

impl Key for u8 {
    ghost one = { nat_cmp-IsAntisymmetric };
}

impl Key for u16 {
    ghost one = { nat_cmp-IsAntisymmetric };
}

impl Key for u32 {
    ghost one = { nat_cmp-IsAntisymmetric };
}

impl Key for u64 {
    ghost one = { nat_cmp-IsAntisymmetric };
}

impl Key for usize {
    ghost one = { nat_cmp-IsAntisymmetric };
}

impl<A: Key, B: Key> Key for (A, B) {
    ghost use Rattle.summary.specs.Ties.{pair_one};

    ghost one = { pair_one A.one B.one };
}
