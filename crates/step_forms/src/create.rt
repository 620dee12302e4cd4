//! New components (ES 201 873-1, 21.3.1).
ghost use Rattle.std.specs.Prelude.{◌≡◌, ◌<◌, [], length, IfOk, Some};
ghost use Rattle.check_scope.specs.Names.{component_meant, module_names};
ghost use Rattle.step_forms.specs.Asks.{Asks, AsksWithin};
ghost use Rattle.step_snapshot.specs.Slots.{IsKnown};
ghost use Rattle.step_forms.specs.internal.Stands.{legend_of, site_of, stand_by};
ghost use Rattle.semantics.specs.Creating.{child_of, new_members};
ghost use Rattle.semantics.specs.Statements as said;
ghost use Rattle.config_parts.specs.Legend.{data_by, frame_with};
ghost use Rattle.config_parts.specs.Views.{HasSlotsWithin, IsWithin};
ghost use Rattle.graph_items.specs.Standing.{target_of};
ghost use Rattle.value_types.specs.Outcomes.{GivesBy};
ghost use Rattle.step_snapshot.specs.Tests.{extent_of};

use crate::stand::Stand;
use crate::storing::store_at;
use check_scope::names::Meaning;
use config_parts::{Act, Cells, Data, Request};
use std::alloc::{AllocError, Global};
use step_create::{Maker, new_component};
use step_data::create_child;
use step_snapshot::TestCase;
use ttcn_graph::Target;
use ttcn_syntax::{Name, Seq};
use value_types::{ComponentId, Fault, Path, Value};

/// The path of the next component that a component creates.
fn child_of(alloc: Global, itself: &ComponentId, children: u32) -> Result<Path, AllocError>
    requires { children < said.most }
    ensures { IfOk result (λ path. path ≡ child_of itself.now children) }
{
    let mut numbers = Vec::from_slice(alloc, itself.path.numbers.as_slice())?;
    numbers.push(children + 1)?;
    Ok(Path {
        numbers: Seq::from_vec(numbers),
    })
}

/// Frame 0 of a new component.
fn members_of(alloc: Global, stand: &Stand<'_, '_>, id: &ComponentId) -> Result<Cells, Fault>
    ensures made { GivesBy (λ cells. frame_with (legend_of stand.now) [] cells) (new_members (stand_by stand.now).test id.now (stand_by stand.now).snapshot) result }
    ensures within { IfOk result (HasSlotsWithin (length stand.now.snapshot.now.test.now.names)) }
{
    let maker = Maker {
        test: stand.snapshot.test,
        itself: id,
        running: stand.snapshot.running,
    };
    maker.members(alloc)
}

/// A new component, the reference of which goes to a target.
fn create_as(
    alloc: Global,
    stand: &Stand<'_, '_>,
    target: &Target<'_>,
    own: Data,
    id: ComponentId,
) -> Result<Option<Act>, Fault>
    requires known { IsKnown stand.now.snapshot.now.test.now.names target.now.reference.name }
    requires within { IsWithin (extent_of stand.now.snapshot.now.test.now) own }
    requires room { own.children < said.most }
    ensures asks { Asks (legend_of stand.now) (said.create (stand_by stand.now) (target_of target.now) (data_by (legend_of stand.now) own) id) result }
    ensures within { AsksWithin (extent_of stand.now.snapshot.now.test.now) result }
{
    let test = stand.snapshot.test;
    let members = members_of(alloc, stand, &id)?;
    let copy = id.try_clone(alloc)?;
    let own = store_at(alloc, test, target, Value::Component(copy), own)?;
    let new = new_component(alloc, test, id, members)?;
    Ok(Some(Act {
        request: Request::Creates(new),
        own: create_child(own),
    }))
}

/// A new component of the type at a position, the reference of which goes to a target.
fn create_at(
    alloc: Global,
    stand: &Stand<'_, '_>,
    target: &Target<'_>,
    own: Data,
    component_type: usize,
) -> Result<Option<Act>, Fault>
    requires known { IsKnown stand.now.snapshot.now.test.now.names target.now.reference.name }
    requires within { IsWithin (extent_of stand.now.snapshot.now.test.now) own }
    ensures asks { Asks (legend_of stand.now) (said.created (stand_by stand.now) (target_of target.now) (data_by (legend_of stand.now) own) (Some component_type)) result }
    ensures within { AsksWithin (extent_of stand.now.snapshot.now.test.now) result }
{
    if own.children == u32::MAX {
        return Err(Fault::Dynamic);
    }
    let path = child_of(alloc, &stand.snapshot.component.itself, own.children)?;
    let id = ComponentId {
        path,
        component_type,
    };
    create_as(alloc, stand, target, own, id)
}

/// The position of the component type of a name.
fn component_type(test: &TestCase<'_>, name: &Name) -> Option<usize>
    ensures { result ≡ component_meant (module_names test.now.definitions name.now) }
{
    match test.definitions.meaning(name.as_bytes()) {
        Some(Meaning::Component(at)) => Some(at),
        _ => None,
    }
}

/// A new component of the type of a name, the reference of which goes to a target.
pub fn create(
    alloc: Global,
    stand: &Stand<'_, '_>,
    target: &Target<'_>,
    own: Data,
    name: &Name,
) -> Result<Option<Act>, Fault>
    requires known { IsKnown stand.now.snapshot.now.test.now.names target.now.reference.name }
    requires within { IsWithin (extent_of stand.now.snapshot.now.test.now) own }
    ensures asks { Asks (legend_of stand.now) (said.created (stand_by stand.now) (target_of target.now) (data_by (legend_of stand.now) own) (component_meant (module_names stand.now.snapshot.now.test.now.definitions name.now))) result }
    ensures within { AsksWithin (extent_of stand.now.snapshot.now.test.now) result }
{
    match component_type(stand.snapshot.test, name) {
        Some(at) => create_at(alloc, stand, target, own, at),
        None => Err(Fault::Dynamic),
    }
}
