//! Where a statement stands in a behaviour.
ghost use Rattle.std.specs.Prelude.{◌≡◌, false};
ghost use Rattle.check_statements.specs.internal.Places.{place_with};
ghost use Rattle.check_scope.specs.Names.{Scope};
ghost use Rattle.check_rules.specs.Statements.{inside_branch};

use check_rules::Returns;

/// What a behaviour lets its statements return, and whether they are inside the block of a branch.
#[derive(Clone, Copy, Debug, PartialEq, Eq)]
pub(crate) struct Place {
    pub(crate) returns: Returns,
    pub(crate) in_branch: bool,
}

impl Place {
    /// A place in the body of a behaviour, outside its branches.
    pub(crate) fn in_body(returns: Returns) -> Place
        ensures returns { result.returns ≡ returns }
        ensures outside { result.in_branch ≡ false }
    {
        Place {
            returns,
            in_branch: false,
        }
    }

    /// A place in the block of a branch.
    pub(crate) fn inside_branch(self) -> Place
        ensures { (scope : Scope) → place_with scope result ≡ inside_branch (place_with scope self) }
    {
        Place {
            returns: self.returns,
            in_branch: true,
        }
    }
}
