//! The names of slots.
ghost use Rattle.std.specs.Prelude.{◌≡◌, ◌<◌, IfOk, length};
ghost use Rattle.config_parts.specs.Legend.{IsLegend};
ghost use Rattle.config_parts.specs.Views.{AreNames};
ghost use Rattle.step_snapshot.specs.Tests.{legend_by};

use config_parts::names_make_legends;
use std::alloc::{AllocError, Global};
use step_snapshot::TestCase;
use ttcn_syntax::Name;
use value_types::Slot;

/// Slots are in the order of their names, and stand for them.
pub fn slots_are_ordered(test: &TestCase<'_>)
    ensures legend { IsLegend (legend_by test.now) }
    ensures names { AreNames (legend_by test.now) test.now.names }
{
    names_make_legends();
    test.names.are_in_order();
}

/// The name of a slot.
pub(crate) fn name_of(alloc: Global, test: &TestCase<'_>, slot: Slot) -> Result<Name, AllocError>
    requires { slot < length test.now.names }
    ensures { IfOk result (λ name. name ≡ (legend_by test.now).names slot) }
{
    slots_are_ordered(test);
    test.names.as_slice()[slot as usize].try_clone(alloc)
}
