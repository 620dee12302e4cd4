//! New components (ES 201 873-1, 21.3.1).
ghost use Rattle.std.specs.Prelude.{◌≡◌, [], IfOk, length};
ghost use Rattle.semantics.specs.Creating as rules;
ghost use Rattle.step_snapshot.specs.Tests.{extent_of, legend_by, test_by};
ghost use Rattle.config_parts.specs.Legend.{component_by, frame_with};
ghost use Rattle.config_parts.specs.Views.{HasSlotsWithin, IsWithin};

use crate::ports::empty_queues;
use config_parts::{Cells, Component, Data, Shared, State};
use std::alloc::{AllocError, Global};
use step_snapshot::TestCase;
use ttcn_syntax::{Seq, Verdict};
use value_types::ComponentId;

/// A new component with these names in frame 0, which is created and doesn't run yet.
pub fn new_component(
    alloc: Global,
    test: &TestCase<'_>,
    itself: ComponentId,
    members: Cells,
) -> Result<Component, AllocError>
    ensures made { IfOk result (λ new. component_by (legend_by test.now) new ≡ rules.new_component (test_by test.now) itself (frame_with (legend_by test.now) [] members)) }
    ensures within { HasSlotsWithin (length test.now.names) members → IfOk result (λ new. IsWithin (extent_of test.now) new.own) }
{
    let queues = empty_queues(alloc, test, itself.component_type)?;
    let own = Data {
        members,
        calls: Seq::new(alloc),
        defaults: Seq::new(alloc),
        activations: 0,
        children: 0,
    };
    Ok(Component {
        itself,
        own: Shared::new(alloc, own)?,
        state: State::Created,
        verdict: Verdict::None,
        queues: Shared::new(alloc, queues)?,
    })
}
