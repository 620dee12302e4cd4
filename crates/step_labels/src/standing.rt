//! Components with the places where they stand.
ghost use Rattle.std.specs.Prelude.{◌≡◌, Some, IfOk, refl};
ghost use Rattle.std.specs.Cmp.{eq_by_cmp_equiv, partial_equiv_from_equiv};
ghost use Rattle.std.specs.Ordering.{eq_by_cmp};
ghost use Rattle.step_labels.specs.Standings.{standing_cmp, standing_one, standing_partial, standing_total};

use std::alloc::{AllocError, Global};
use std::cmp::Ordering;
use summary::Key;
use ttcn_syntax::Span;
use value_types::Path;

/// A component that runs, and the place of its first remaining statement. Standings are ordered by the component, then by the
/// place.
#[derive(Debug, Drop)]
pub struct Standing {
    pub component: Path,
    pub place: Span,
}

impl Standing {
    /// A copy in memory of its own.
    pub fn try_clone(&self, alloc: Global) -> Result<Standing, AllocError>
        ensures { IfOk result (λ copy. copy ≡ self.now) }
    {
        Ok(Standing {
            component: self.component.try_clone(alloc)?,
            place: self.place,
        })
    }
}

impl PartialEq for Standing {
    ghost eq = { eq_by_cmp standing_cmp };

    ghost laws = { partial_equiv_from_equiv (eq_by_cmp_equiv standing_total) };

    fn eq(&self, other: &Standing) -> bool {
        self.cmp(other).is_eq()
    }
}

impl Eq for Standing {
    ghost laws = { eq_by_cmp_equiv standing_total };
}

impl PartialOrd for Standing {
    ghost partial_cmp = { λ s t. Some (standing_cmp s t) };

    ghost laws = { standing_partial };

    fn partial_cmp(&self, other: &Standing) -> Option<Ordering> {
        Some(self.cmp(other))
    }
}

impl Ord for Standing {
    ghost cmp = { standing_cmp };

    ghost total = { standing_total };

    ghost matches_partial_cmp = { λ s t. refl };

    ghost matches_eq = { λ s t. refl };

    fn cmp(&self, other: &Standing) -> Ordering {
        match self.component.numbers.cmp(&other.component.numbers) {
            Ordering::Equal => self.place.cmp(&other.place),
            before_or_behind => before_or_behind,
        }
    }
}

impl Key for Standing {
    ghost one = { standing_one };
}
