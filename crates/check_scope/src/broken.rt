//! The least rule that is broken.
ghost use Rattle.std.specs.Prelude.{◌≡◌, [], ◌∷◌, Some};
ghost use Rattle.check_scope.specs.internal.Checking.{both, least};
ghost use Rattle.check_scope.specs.Typings.{unless};

use crate::rule::Rule;

/// The least rule that is broken in something, if one is.
#[derive(Clone, Copy, Debug, PartialEq, Eq)]
pub struct Broken {
    pub least: Option<Rule>,
}

impl Broken {
    pub const fn nothing() -> Broken
        ensures { result ≡ least [] }
    {
        Broken { least: None }
    }

    pub const fn of(rule: Rule) -> Broken
        ensures { result ≡ least (rule ∷ []) }
    {
        Broken { least: Some(rule) }
    }

    /// The rule is broken, unless it is kept.
    pub fn unless(kept: bool, rule: Rule) -> Broken
        ensures { result ≡ least (unless kept rule) }
    {
        if kept {
            Broken::nothing()
        } else {
            Broken::of(rule)
        }
    }

    /// What is broken in two things.
    pub fn and(self, other: Broken) -> Broken
        ensures { result ≡ both self other }
    {
        let least = match (self.least, other.least) {
            (Some(rule), Some(other)) => Some(rule.lesser(other)),
            (Some(rule), None) => Some(rule),
            (None, other) => other,
        };
        Broken { least }
    }
}
