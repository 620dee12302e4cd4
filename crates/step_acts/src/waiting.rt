//! Steps at an `alt` (ES 201 873-1, 20.2).
ghost use Rattle.std.specs.Prelude.{◌≡◌, length, map, IfOk, IfSome, Ok, is_some, slice_get, true};
ghost use Rattle.std.specs.List.{All};
ghost use Rattle.step_forms.specs.Asks.{Asks, AsksWithin};
ghost use Rattle.step_forms.specs.internal.Places.{list_at};
ghost use Rattle.step_forms.specs.internal.Stands.{legend_of, site_of, stand_by};
ghost use Rattle.step_acts.specs.internal.Takings.{IsTakenAt, effected_by, limited, stored_all};
ghost use Rattle.step_choice.specs.Choices.{Chooses, IsTaken, IsWayOf};
ghost use Rattle.step_choice.specs.Deeds as deeds;
ghost use Rattle.step_choice.specs.Deeds.{HasKnownNames, stored_by};
ghost use Rattle.semantics.specs.Branches.{Chance};
ghost use Rattle.semantics.specs.Events.{Effect};
ghost use Rattle.semantics.specs.Events as events;
ghost use Rattle.semantics.specs.Items as rules;
ghost use Rattle.semantics.specs.Statements as said;
ghost use Rattle.step_snapshot.specs.Slots.{IsKnown};
ghost use Rattle.step_snapshot.specs.Tests.{extent_of, legend_by, test_by};
ghost use Rattle.config_parts.specs.Legend.{data_by};
ghost use Rattle.config_parts.specs.Views.{IsWithin};
ghost use Rattle.graph_items.specs.Standing.{part_of};
ghost use Rattle.ttcn_graph.specs.Ways.{ways_of};
ghost use Rattle.value_types.specs.Outcomes.{GivesBy};

use config_parts::{Act, Data, Request};
use std::alloc::Global;
use step_choice::{Deed, Stored, Taken};
use step_data::{enter_all, limit_frames};
use step_forms::stand::Stand;
use step_forms::storing::{set_timer, store_at};
use step_snapshot::TestCase;
use ttcn_syntax::Name;
use value_types::{Fault, Slot, TimerState};

/// Values go to targets, one after the other.
fn store_all(
    alloc: Global,
    test: &TestCase<'_>,
    stored: Vec<Stored<'_, '_>>,
    own: Data,
) -> Result<Data, Fault>
    requires known { All (λ one. IsKnown test.now.names one.target.now.reference.name) stored.items }
    requires within { IsWithin (extent_of test.now) own }
    ensures stored { GivesBy (data_by (legend_by test.now)) (stored_all (test_by test.now) (map stored_by stored.entry.items) (data_by (legend_by test.now) own)) result }
    ensures within { IfOk result (IsWithin (extent_of test.now)) }
{
    let mut own = own;
    for one in stored {
        own = store_at(alloc, test, one.target, one.value, own)?;
    }
    Ok(own)
}

/// The component goes on with these data, if they have not too many frames.
fn act_limited(test: &TestCase<'_>, own: Data) -> Result<Option<Act>, Fault>
    requires { IsWithin (extent_of test.now) own }
    ensures asks { Asks (legend_by test.now) (said.acting (said.Requests said.Continues) (limited (data_by (legend_by test.now) own))) result }
    ensures within { AsksWithin (extent_of test.now) result }
{
    let own = limit_frames(own)?;
    Ok(Some(Act {
        request: Request::Continues,
        own,
    }))
}

/// A timer elapses.
fn elapse(
    alloc: Global,
    test: &TestCase<'_>,
    name: &Name,
    last: bool,
    own: Data,
) -> Result<Option<Act>, Fault>
    requires known { IsKnown test.now.names name.now }
    requires within { IsWithin (extent_of test.now) own }
    ensures asks { Asks (legend_by test.now) (effected_by (test_by test.now) (deeds.Elapses name.now last) (data_by (legend_by test.now) own)) result }
    ensures within { AsksWithin (extent_of test.now) result }
{
    let own = set_timer(alloc, test, last, name, TimerState::Inactive, own)?;
    act_limited(test, own)
}

/// A message is received.
fn receive(
    alloc: Global,
    test: &TestCase<'_>,
    port: Slot,
    stored: Vec<Stored<'_, '_>>,
    own: Data,
) -> Result<Option<Act>, Fault>
    requires known { All (λ one. IsKnown test.now.names one.target.now.reference.name) stored.items }
    requires within { IsWithin (extent_of test.now) own }
    ensures asks { Asks (legend_by test.now) (effected_by (test_by test.now) (deeds.Receives ((legend_by test.now).names port) (map stored_by stored.entry.items)) (data_by (legend_by test.now) own)) result }
    ensures within { AsksWithin (extent_of test.now) result }
{
    let own = store_all(alloc, test, stored, own)?;
    let own = limit_frames(own)?;
    Ok(Some(Act {
        request: Request::Removes(port),
        own,
    }))
}

/// What taking a branch does beside what it leaves to be done.
fn do_deed(
    alloc: Global,
    test: &TestCase<'_>,
    deed: Deed<'_, '_>,
    own: Data,
) -> Result<Option<Act>, Fault>
    requires known { HasKnownNames test.now.names deed }
    requires within { IsWithin (extent_of test.now) own }
    ensures asks { Asks (legend_by test.now) (effected_by (test_by test.now) (deeds.deed_by (legend_by test.now) deed.entry) (data_by (legend_by test.now) own)) result }
    ensures within { AsksWithin (extent_of test.now) result }
{
    match deed {
        Deed::Nothing => act_limited(test, own),
        Deed::Elapses(name, last) => elapse(alloc, test, name, last, own),
        Deed::Receives(port, stored) => receive(alloc, test, port, stored, own),
    }
}

/// A branch is taken.
fn act_taken(
    alloc: Global,
    stand: &Stand<'_, '_>,
    taken: Taken<'_, '_>,
) -> Result<Option<Act>, Fault>
    requires whole { part_of stand.now.part ≡ rules.Whole }
    requires taken { IsTakenAt stand.now taken }
    requires known { HasKnownNames stand.now.snapshot.now.test.now.names taken.deed }
    ensures asks { (chance : Chance) (effect : Effect) → IsTaken stand.now.snapshot.now (IsWayOf stand.now.snapshot.now.test.now.definitions (site_of stand.now) stand.now.statement.now) chance effect taken.entry
        → Asks (legend_of stand.now) (said.act_choice (stand_by stand.now) (site_of stand.now) stand.now.statement.now (events.Taken chance effect)) result }
    ensures within { AsksWithin (extent_of stand.now.snapshot.now.test.now) result }
{
    let Taken {
        place: _place,
        way,
        frames,
        deed,
    } = taken;
    let position = stand.way(way);
    let own = stand.data(alloc)?;
    let own = enter_all(alloc, own, position, frames.into_vec())?;
    do_deed(alloc, stand.snapshot.test, deed, own)
}

/// What is chosen at an `alt`, or at what stands for one, is done, if anything is.
pub(crate) fn act_choice(
    alloc: Global,
    stand: &Stand<'_, '_>,
    chosen: Result<Option<Taken<'_, '_>>, Fault>,
) -> Result<Option<Act>, Fault>
    requires whole { part_of stand.now.part ≡ rules.Whole }
    requires chosen { Chooses stand.now.snapshot.now (site_of stand.now) stand.now.statement.now chosen }
    requires known { IfOk chosen (λ found. IfSome found (λ taken. HasKnownNames stand.now.snapshot.now.test.now.names taken.deed)) }
    ensures asks { (other : said.Act) → Asks (legend_of stand.now) (said.act_alt_or other (stand_by stand.now) (site_of stand.now) stand.now.statement.now (said.choice_at (stand_by stand.now) (site_of stand.now) stand.now.statement.now)) result }
    ensures within { AsksWithin (extent_of stand.now.snapshot.now.test.now) result }
{
    match chosen {
        Ok(Some(taken)) => act_taken(alloc, stand, taken),
        Ok(None) => Ok(None),
        Err(fault) => Err(fault),
    }
}
