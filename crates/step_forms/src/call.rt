//! Calls of functions, and activations (ES 201 873-1, 16 and 20.5.2).
ghost use Rattle.std.specs.Prelude.{◌≡◌, ◌<◌, length, IfOk, IfSome};
ghost use Rattle.std.specs.Option.{option_map};
ghost use Rattle.check_rules.specs.Calls.{altstep_meant};
ghost use Rattle.check_scope.specs.Names.{kind_at, module_names};
ghost use Rattle.step_forms.specs.Asks.{Asks, AsksWithin};
ghost use Rattle.step_forms.specs.internal.Places.{list_at};
ghost use Rattle.step_forms.specs.internal.Stands.{legend_of, site_of, stand_by};
ghost use Rattle.semantics.specs.Items.{items};
ghost use Rattle.semantics.specs.Sites.{beginning};
ghost use Rattle.semantics.specs.Statements as said;
ghost use Rattle.config_parts.specs.Legend.{data_by, frame_by};
ghost use Rattle.config_parts.specs.Views.{IsFrameWithin, IsWithin};
ghost use Rattle.value_types.specs.Outcomes.{GivesBy};
ghost use Rattle.step_snapshot.specs.Tests.{extent_of};

use crate::stand::Stand;
use check_rules::behaviour_meant;
use check_scope::names::Meaning;
use config_parts::{Act, Data, Frame, Request, Shared};
use std::alloc::Global;
use step_data::{activate, enter};
use step_snapshot::{TestCase, argument_cells};
use ttcn_syntax::{Call, DefinitionKind};
use value_types::Fault;

/// The position of the body of the function at a position.
fn body_of(test: &TestCase<'_>, at: usize) -> Option<usize>
    ensures within { IfSome result (λ position. position < length test.now.graphs.lists) }
    ensures said { option_map (list_at test.now) result ≡ option_map (items test.now.definitions (beginning at)) (said.body_of (kind_at test.now.definitions at)) }
{
    match test.definitions.kind(at) {
        Some(DefinitionKind::Function(_)) => test.graphs.start(at, 0),
        _ => None,
    }
}

/// The frame of a call of a function: its arguments are evaluated.
pub fn frame_of_call(alloc: Global, stand: &Stand<'_, '_>, call: &Call) -> Result<Frame, Fault>
    ensures frame { GivesBy (frame_by (legend_of stand.now)) (said.frame_of_call (stand_by stand.now) (site_of stand.now) call.now) result }
    ensures within { IfOk result (IsFrameWithin (extent_of stand.now.snapshot.now.test.now)) }
{
    let test = stand.snapshot.test;
    let Some(at) = behaviour_meant(test.definitions.meaning(call.name.as_bytes())) else {
        return Err(Fault::Dynamic);
    };
    let Some(remaining) = body_of(test, at) else {
        return Err(Fault::Dynamic);
    };
    let values = stand.arguments(alloc, at, call)?;
    let cells = argument_cells(alloc, test, at, values)?;
    Ok(Frame {
        remaining,
        cells: Shared::new(alloc, cells)?,
    })
}

/// A function is entered: the list at a position remains behind it.
pub fn call_function(
    alloc: Global,
    stand: &Stand<'_, '_>,
    call: &Call,
    own: Data,
    position: usize,
) -> Result<Option<Act>, Fault>
    requires there { position < length stand.now.snapshot.now.test.now.graphs.lists }
    requires within { IsWithin (extent_of stand.now.snapshot.now.test.now) own }
    ensures asks { Asks (legend_of stand.now) (said.call_function (stand_by stand.now) (site_of stand.now) call.now (data_by (legend_of stand.now) own) (list_at stand.now.snapshot.now.test.now position)) result }
    ensures within { AsksWithin (extent_of stand.now.snapshot.now.test.now) result }
{
    let frame = frame_of_call(alloc, stand, call)?;
    let own = enter(alloc, own, position, frame)?;
    Ok(Some(Act {
        request: Request::Continues,
        own,
    }))
}

/// The position of the altstep that is called, if one is.
pub fn altstep_called(test: &TestCase<'_>, call: &Call) -> Option<usize>
    ensures { result ≡ altstep_meant (module_names test.now.definitions call.now.name) }
{
    match test.definitions.meaning(call.name.as_bytes()) {
        Some(Meaning::Altstep(at)) => Some(at),
        _ => None,
    }
}

/// An activation: its arguments are evaluated.
pub fn activate_call(
    alloc: Global,
    stand: &Stand<'_, '_>,
    call: &Call,
    own: Data,
) -> Result<Data, Fault>
    requires { IsWithin (extent_of stand.now.snapshot.now.test.now) own }
    ensures activated { GivesBy (data_by (legend_of stand.now)) (said.activated (stand_by stand.now) (site_of stand.now) call.now (data_by (legend_of stand.now) own)) result }
    ensures within { IfOk result (IsWithin (extent_of stand.now.snapshot.now.test.now)) }
{
    let Some(at) = altstep_called(stand.snapshot.test, call) else {
        return Err(Fault::Dynamic);
    };
    let values = stand.arguments(alloc, at, call)?;
    activate(alloc, own, at, values)
}
