//! The least broken rule with a place that breaks it.
ghost use Rattle.std.specs.Prelude.{◌≡◌};
ghost use Rattle.check_scope.specs.internal.Checking.{both, least_in};

use crate::broken::Broken;
use crate::rule::Rule;
use ttcn_syntax::Span;

/// The least rule that was found broken so far, and the first place that breaks it.
#[derive(Clone, Copy, Debug, PartialEq, Eq)]
pub struct Least {
    pub fault: Option<(Rule, Span)>,
}

impl Least {
    /// Keeps what is broken at a place, if it is less.
    pub fn note(&mut self, broken: Broken, place: Span)
        ensures { least_in self.new ≡ both (least_in self.old) broken }
    {
        let Some(rule) = broken.least else {
            return;
        };
        match self.fault {
            Some((least, _)) if least.number() <= rule.number() => (),
            _ => self.fault = Some((rule, place)),
        }
    }

    /// The less of two.
    pub fn and(self, other: Least) -> Least
        ensures { least_in result ≡ both (least_in self) (least_in other) }
    {
        let mut found = self;
        if let Some((rule, place)) = other.fault {
            found.note(Broken::of(rule), place);
        }
        found
    }
}
