//! What a component sees when it makes a step.
ghost use Rattle.std.specs.Prelude.{◌≡◌};
ghost use Rattle.std.specs.List.{list_any};
ghost use Rattle.semantics.specs.Snapshots.{runs_in, snapshot_of};
ghost use Rattle.step_snapshot.specs.Tests.{extent_of, legend_by};
ghost use Rattle.config_parts.specs.Legend.{component_by, going_by};
ghost use Rattle.config_parts.specs.Views.{IsWithin};
ghost use Rattle.value_types.specs.contracts.path.PathPartialEq.TheImpl as equality;
ghost use Rattle.value_types.specs.declared.path.Path.{Path as APath};

use crate::test_case::TestCase;
use config_parts::{Component, Going};
use value_types::Path;

/// A component, the configuration in which it makes its step, and the components that run there.
pub struct Snapshot<'t, 'a> {
    pub test: &'a TestCase<'t>,
    pub going: &'a Going,
    pub component: &'a Component,
    pub running: &'a [&'a Path],
    ghost runs: { (path : APath) → list_any (λ other. (equality.ghosts).eq path other.now) running.now ≡ runs_in (snapshot_of (going_by (legend_by test.now) going.now) (component_by (legend_by test.now) component.now)) path },
    ghost within: { IsWithin (extent_of test.now) component.now.own },
}

impl<'t, 'a> Snapshot<'t, 'a> {
    ghost use Rattle.std.specs.Prelude.{map};
    ghost use Rattle.config_parts.specs.Acts.{HasPathsInOrder};

    /// What a component of a configuration sees, where these are the components that run.
    pub fn new(
        test: &'a TestCase<'t>,
        going: &'a Going,
        component: &'a Component,
        running: &'a [&'a Path],
    ) -> Snapshot<'t, 'a>
        requires runs { (path : APath) → list_any (λ other. (equality.ghosts).eq path other.now) running.now ≡ runs_in (snapshot_of (going_by (legend_by test.now) going.now) (component_by (legend_by test.now) component.now)) path }
        requires within { IsWithin (extent_of test.now) component.now.own }
        ensures test { result.test.now ≡ test.now }
        ensures going { result.going.now ≡ going.now }
        ensures component { result.component.now ≡ component.now }
    {
        Snapshot {
            test,
            going,
            component,
            running,
        }
    }
}
