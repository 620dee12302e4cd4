//! Names change in a component's data (ES 201 873-1, 11, 12, 19.1 and 23).
ghost use Rattle.std.specs.Prelude.{◌≡◌, length, true, IfOk};
ghost use Rattle.step_snapshot.specs.Slots.{IsKnown};
ghost use Rattle.semantics.specs.Entries.{put};
ghost use Rattle.semantics.specs.Storing as storing;
ghost use Rattle.step_snapshot.specs.Tests.{extent_of, legend_by, test_by};
ghost use Rattle.config_parts.specs.Legend.{data_by};
ghost use Rattle.config_parts.specs.Views.{IsWithin};
ghost use Rattle.graph_items.specs.Standing.{target_of};
ghost use Rattle.value_types.specs.Outcomes.{GivesBy};

use config_parts::Data;
use std::alloc::{AllocError, Global};
use step_data::store;
use step_snapshot::TestCase;
use ttcn_graph::Target;
use ttcn_syntax::Name;
use value_types::{Fault, TimerState, Value};

/// A value goes to a target.
pub fn store_at(
    alloc: Global,
    test: &TestCase<'_>,
    target: &Target<'_>,
    value: Value,
    own: Data,
) -> Result<Data, Fault>
    requires known { IsKnown test.now.names target.now.reference.name }
    requires within { IsWithin (extent_of test.now) own }
    ensures stored { GivesBy (data_by (legend_by test.now)) (storing.store (test_by test.now) (target_of target.now) value (data_by (legend_by test.now) own)) result }
    ensures within { IfOk result (IsWithin (extent_of test.now)) }
{
    test.slots_are_in_order();
    let slot = test.slot_of(target.reference.name());
    let fields = target.reference.fields();
    store(
        alloc,
        &test.definitions,
        own,
        target.own,
        slot,
        target.data_type,
        fields,
        value,
    )
}

/// A name is declared in the last frame, without value.
pub fn forget(
    alloc: Global,
    test: &TestCase<'_>,
    name: &Name,
    own: Data,
) -> Result<Data, AllocError>
    requires known { IsKnown test.now.names name.now }
    requires within { IsWithin (extent_of test.now) own }
    ensures changed { IfOk result (λ new. data_by (legend_by test.now) new ≡ storing.in_frame true (storing.forget name.now) (data_by (legend_by test.now) own)) }
    ensures within { IfOk result (IsWithin (extent_of test.now)) }
{
    test.slots_are_in_order();
    let mut own = own;
    own.forget(alloc, test.slot_of(name))?;
    Ok(own)
}

/// A name is declared in the last frame with a value.
pub fn declare(
    alloc: Global,
    test: &TestCase<'_>,
    name: &Name,
    value: Value,
    own: Data,
) -> Result<Data, AllocError>
    requires known { IsKnown test.now.names name.now }
    requires within { IsWithin (extent_of test.now) own }
    ensures changed { IfOk result (λ new. data_by (legend_by test.now) new ≡ storing.in_frame true (storing.declare name.now value) (data_by (legend_by test.now) own)) }
    ensures within { IfOk result (IsWithin (extent_of test.now)) }
{
    test.slots_are_in_order();
    let mut own = own;
    own.declare(alloc, test.slot_of(name), value)?;
    Ok(own)
}

/// A timer is declared in the last frame.
pub fn declare_timer(
    alloc: Global,
    test: &TestCase<'_>,
    name: &Name,
    own: Data,
) -> Result<Data, AllocError>
    requires known { IsKnown test.now.names name.now }
    requires within { IsWithin (extent_of test.now) own }
    ensures changed { IfOk result (λ new. data_by (legend_by test.now) new ≡ storing.in_frame true (storing.declare_timer name.now) (data_by (legend_by test.now) own)) }
    ensures within { IfOk result (IsWithin (extent_of test.now)) }
{
    test.slots_are_in_order();
    let mut own = own;
    own.declare_timer(alloc, test.slot_of(name))?;
    Ok(own)
}

/// A timer of the last frame, or of frame 0, is in a state.
pub fn set_timer(
    alloc: Global,
    test: &TestCase<'_>,
    last: bool,
    name: &Name,
    state: TimerState,
    own: Data,
) -> Result<Data, AllocError>
    requires known { IsKnown test.now.names name.now }
    requires within { IsWithin (extent_of test.now) own }
    ensures changed { IfOk result (λ new. data_by (legend_by test.now) new ≡ storing.in_frame last (λ frame. storing.with_timers (put name.now state frame.timers) frame) (data_by (legend_by test.now) own)) }
    ensures within { IfOk result (IsWithin (extent_of test.now)) }
{
    test.slots_are_in_order();
    let mut own = own;
    own.set_timer(alloc, last, test.slot_of(name), state)?;
    Ok(own)
}
