//! What component types declare.
ghost use Rattle.std.specs.Prelude.{◌≡◌};
ghost use Rattle.check_scope.specs.Names.{kind_at, members_of};

use step_snapshot::TestCase;
use ttcn_syntax::{DefinitionKind, Member};

/// The declarations of the component type at a position. There are none where no component type stands.
pub(crate) fn declarations_of<'a>(test: &TestCase<'a>, component_type: usize) -> &'a [Member]
    ensures { result.now ≡ members_of (kind_at test.now.definitions component_type) }
{
    match test.definitions.kind(component_type) {
        Some(DefinitionKind::Component(component)) => component.members.as_slice(),
        _ => &[],
    }
}
