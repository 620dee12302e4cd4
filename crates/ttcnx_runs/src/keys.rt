//! What summaries of runs keep: places of branches.
ghost use Rattle.std.specs.Prelude.{◌≡◌, Some, refl};
ghost use Rattle.step_labels.specs.Standings.{place_cmp, place_one, place_partial, place_total};
ghost use Rattle.std.specs.Cmp.{eq_by_cmp_equiv, partial_equiv_from_equiv};
ghost use Rattle.std.specs.Ordering.{eq_by_cmp};

use std::cmp::Ordering;
use std::marker::Model;
use summary::Key;
use ttcn_syntax::Span;

/// The place of a branch. Contracts see the place.
#[derive(Debug, Drop)]
pub struct BranchPlace {
    place: Span,
}

impl Model for BranchPlace {
    ghost use Rattle.ttcn_syntax.specs.declared.place.Span.{Span};

    ghost Value = { Span };

    ghost view = { λ key. key.place };
}

impl BranchPlace {
    pub fn new(place: Span) -> BranchPlace
        ensures { result ≡ place }
    {
        BranchPlace { place }
    }

    pub fn place(&self) -> Span
        ensures { result ≡ self.now }
    {
        self.place
    }
}

/// The same branch, if there is one.
pub(crate) fn copied(branch: &Option<BranchPlace>) -> Option<BranchPlace>
    ensures { result ≡ branch.now }
{
    match branch {
        Some(branch) => Some(BranchPlace::new(branch.place())),
        None => None,
    }
}

impl PartialEq for BranchPlace {
    ghost eq = { eq_by_cmp place_cmp };

    ghost laws = { partial_equiv_from_equiv (eq_by_cmp_equiv place_total) };

    fn eq(&self, other: &BranchPlace) -> bool {
        self.cmp(other).is_eq()
    }
}

impl Eq for BranchPlace {
    ghost laws = { eq_by_cmp_equiv place_total };
}

impl PartialOrd for BranchPlace {
    ghost partial_cmp = { λ p q. Some (place_cmp p q) };

    ghost laws = { place_partial };

    fn partial_cmp(&self, other: &BranchPlace) -> Option<Ordering> {
        Some(self.cmp(other))
    }
}

impl Ord for BranchPlace {
    ghost cmp = { place_cmp };

    ghost total = { place_total };

    ghost matches_partial_cmp = { λ p q. refl };

    ghost matches_eq = { λ p q. refl };

    fn cmp(&self, other: &BranchPlace) -> Ordering {
        self.place.cmp(&other.place)
    }
}

impl Key for BranchPlace {
    ghost one = { place_one };
}
