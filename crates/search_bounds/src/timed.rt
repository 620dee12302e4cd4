ghost use Rattle.std.specs.Prelude.{◌≡◌};

use crate::Kind;
use summary::System;

/// A system that tells expiries of timers and statements from its other steps.
pub trait Timed: System {
    ghost use Rattle.search_bounds.specs.declared.kind.Kind.{Kind};

    /// What a step by a label is of.
    ghost kind: { Self.Label → Kind };

    /// What a step by a label is of.
    fn kind(label: &Self::Label) -> Kind
        ensures { result ≡ kind label.now };
}
