ghost use Rattle.std.specs.Prelude.{◌≡◌, Some, refl};
ghost use Rattle.std.specs.Cmp.{eq_by_cmp_equiv, partial_equiv_from_equiv};
ghost use Rattle.std.specs.Ordering.{eq_by_cmp};
ghost use Rattle.search_ordinals.specs.OrdinalOrder.{ordinal_cmp, ordinal_partial, ordinal_total};

use std::cmp::Ordering;

/// A step: how many enabled labels come before its own, and the branch that it takes, if it takes one.
///
/// Ordinals are compared by their numbers alone.
#[derive(Debug, Drop)]
pub struct Ordinal<B> {
    pub nth: u32,
    pub branch: Option<B>,
}

impl<B> PartialEq for Ordinal<B> {
    ghost eq = { eq_by_cmp ordinal_cmp };

    ghost laws = { partial_equiv_from_equiv (eq_by_cmp_equiv ordinal_total) };

    fn eq(&self, other: &Ordinal<B>) -> bool {
        self.cmp(other).is_eq()
    }
}

impl<B> Eq for Ordinal<B> {
    ghost laws = { eq_by_cmp_equiv ordinal_total };
}

impl<B> PartialOrd for Ordinal<B> {
    ghost partial_cmp = { λ o p. Some (ordinal_cmp o p) };

    ghost laws = { ordinal_partial };

    fn partial_cmp(&self, other: &Ordinal<B>) -> Option<Ordering> {
        Some(self.cmp(other))
    }
}

impl<B> Ord for Ordinal<B> {
    ghost cmp = { ordinal_cmp };

    ghost total = { ordinal_total };

    ghost matches_partial_cmp = { λ o p. refl };

    ghost matches_eq = { λ o p. refl };

    fn cmp(&self, other: &Ordinal<B>) -> Ordering {
        self.nth.cmp(&other.nth)
    }
}
