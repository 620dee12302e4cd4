//! What is known of an expression.
ghost use Rattle.std.specs.Prelude.{◌≡◌};
ghost use Rattle.check_rules.specs.internal.Findings.{finding, with_before};
ghost use Rattle.check_rules.specs.Expressions as spec;

use check_scope::broken::Broken;
use check_scope::rule::Rule;
use check_scope::types::{DataType, Typing};

/// What is known of an expression's type, and the least rule that is broken in it.
#[derive(Clone, Copy, Debug, PartialEq, Eq)]
pub struct Finding {
    pub typing: Typing,
    pub broken: Broken,
}

impl Finding {
    /// Of a typing, with no broken rule.
    pub fn fine(typing: Typing) -> Finding
        ensures { result ≡ finding (spec.fine typing) }
    {
        Finding {
            typing,
            broken: Broken::nothing(),
        }
    }

    /// Of no known type, with a rule that is broken.
    pub fn wrong(rule: Rule) -> Finding
        ensures { result ≡ finding (spec.wrong rule) }
    {
        Finding {
            typing: Typing::Unknown,
            broken: Broken::of(rule),
        }
    }

    /// A finding of the type, whether the demand is kept or not: where it is not, the rule is broken.
    pub fn demand(kept: bool, rule: Rule, data_type: DataType) -> Finding
        ensures { result ≡ finding (spec.demand kept rule data_type) }
    {
        Finding {
            typing: Typing::Known(data_type),
            broken: Broken::unless(kept, rule),
        }
    }

    /// This finding, with what is broken before it.
    pub fn after(self, before: Broken) -> Finding
        ensures { result ≡ with_before before self }
    {
        Finding {
            typing: self.typing,
            broken: before.and(self.broken),
        }
    }
}
