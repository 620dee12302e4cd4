//! What steps of a test case are of, where a bound is on expiries.
ghost use Rattle.std.specs.Prelude.{◌≡◌};
ghost use Rattle.laws_bounds.specs.BoundedParts.{kind_of};

use crate::runs::Runs;
use crate::scheme::Scheme;
use search_bounds::{Kind, Timed};
use step_labels::Label;

impl<'t, 'a, 'p, K: Scheme + Send + Sync> Timed for Runs<'t, 'a, 'p, K> {
    ghost kind = { kind_of };

    fn kind(label: &Label) -> Kind
        ensures { result ≡ kind_of label.now }
    {
        match label {
            Label::Statement(_) => Kind::Statement,
            Label::Expiry { .. } => Kind::Expiry,
            Label::Delivery(_) => Kind::Other,
        }
    }
}
