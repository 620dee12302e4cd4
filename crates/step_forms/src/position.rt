//! Positions of what remains, and the data where it remains.
ghost use Rattle.std.specs.Prelude.{◌≡◌, ◌<◌, [], length, is_some, slice_get, IfNone, IfOk, IfSome, Some, true};
ghost use Rattle.step_forms.specs.Asks.{Asks, AsksWithin};
ghost use Rattle.step_forms.specs.internal.Places.{list_at};
ghost use Rattle.step_forms.specs.internal.Stands.{legend_of, site_of, stand_by};
ghost use Rattle.semantics.specs.Statements as said;
ghost use Rattle.config_parts.specs.Legend.{data_by};
ghost use Rattle.config_parts.specs.Views.{IsWithin};
ghost use Rattle.graph_items.specs.Begun.{IsBegunBy};
ghost use Rattle.ttcn_graph.specs.Ways.{ways_of};
ghost use Rattle.step_snapshot.specs.Tests.{extent_of};

use crate::stand::Stand;
use config_parts::{Act, Data, Request, TryClone};
use std::alloc::{AllocError, Global};
use step_snapshot::TestCase;
use ttcn_graph::First;
use value_types::Fault;

impl<'t, 'a> Stand<'t, 'a> {
    /// The component's own data.
    pub fn data(&self, alloc: Global) -> Result<Data, AllocError>
        ensures own { IfOk result (λ own. data_by (legend_of self.now) own ≡ (stand_by self.now).own) }
        ensures within { IfOk result (IsWithin (extent_of self.now.snapshot.now.test.now)) }
    {
        self.snapshot.component.own.try_clone(alloc)
    }

    /// The data, where the list at a position remains.
    pub fn remaining(&self, alloc: Global, position: usize) -> Result<Data, AllocError>
        requires { position < length self.now.snapshot.now.test.now.graphs.lists }
        ensures own { IfOk result (λ own. data_by (legend_of self.now) own ≡ said.remaining (stand_by self.now) (list_at self.now.snapshot.now.test.now position)) }
        ensures within { IfOk result (IsWithin (extent_of self.now.snapshot.now.test.now)) }
    {
        let mut own = self.data(alloc)?;
        own.go_on(alloc, position);
        Ok(own)
    }

    /// The data where the step is done.
    pub fn done(&self, alloc: Global) -> Result<Data, AllocError>
        ensures own { IfOk result (λ own. data_by (legend_of self.now) own ≡ said.done (stand_by self.now)) }
        ensures within { IfOk result (IsWithin (extent_of self.now.snapshot.now.test.now)) }
    {
        self.remaining(alloc, self.rest)
    }

    /// The position of the list that comes at a place among those that may come of what remains.
    pub fn way(&self, place: usize) -> usize
        requires { is_some (slice_get (ways_of self.now.snapshot.now.test.now.definitions (list_at self.now.snapshot.now.test.now self.now.frame.now.remaining)) place) ≡ true }
        ensures within { result < length self.now.snapshot.now.test.now.graphs.lists }
        ensures leads { slice_get (ways_of self.now.snapshot.now.test.now.definitions (list_at self.now.snapshot.now.test.now self.now.frame.now.remaining)) place ≡ Some (list_at self.now.snapshot.now.test.now result) }
    {
        match self.snapshot.test.graphs.way(self.frame.remaining, place) {
            Some(way) => way,
            None => unreachable!(),
        }
    }
}

/// The component goes on with the list at a position.
pub fn go_on(alloc: Global, stand: &Stand<'_, '_>, position: usize) -> Result<Option<Act>, Fault>
    requires { position < length stand.now.snapshot.now.test.now.graphs.lists }
    ensures asks { Asks (legend_of stand.now) (said.go_on (stand_by stand.now) (list_at stand.now.snapshot.now.test.now position)) result }
    ensures within { AsksWithin (extent_of stand.now.snapshot.now.test.now) result }
{
    let own = stand.remaining(alloc, position)?;
    Ok(Some(Act {
        request: Request::Continues,
        own,
    }))
}

/// What stands first in the list at a position, and the position of the list behind it. Beyond the last position there is
/// nothing.
pub fn first_at<'t, 'a>(test: &'t TestCase<'a>, at: usize) -> Option<(First<'t, 'a>, usize)>
    ensures missing { IfNone result (list_at test.now at ≡ []) }
    ensures found { IfSome result (λ found. IsBegunBy (list_at test.now at) found.0 (list_at test.now found.1)) }
    ensures before { IfSome result (λ found. found.1 < at) }
    ensures there { IfSome result (λ found. at < length test.now.graphs.lists) }
{
    if at < test.graphs.len() {
        test.graphs.first(at)
    } else {
        None
    }
}
