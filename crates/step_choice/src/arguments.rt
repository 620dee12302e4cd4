//! Arguments of behaviours (ES 201 873-1, 5.4.2 and 16).
ghost use Rattle.std.specs.Prelude.{◌≡◌, length};
ghost use Rattle.check_rules.specs.Calls.{parameters_of};
ghost use Rattle.check_scope.specs.Names.{kind_at};
ghost use Rattle.step_choice.specs.internal.Judged.{reads, test_of};
ghost use Rattle.semantics.specs.Sites.{Site};
ghost use Rattle.config_parts.specs.Views.{HasSlotsWithin};
ghost use Rattle.value_types.specs.Outcomes.{Gives};
ghost use Rattle.value_types.specs.Templates.{arguments};

use check_rules::parameters_of;
use config_parts::Cells;
use std::alloc::Global;
use step_snapshot::Snapshot;
use ttcn_syntax::{Call, Seq};
use ttcn_values::eval_arguments;
use value_types::{Fault, Value};

/// What a call gives the parameters of the behaviour at a position.
pub(crate) fn call_arguments(
    alloc: Global,
    snapshot: &Snapshot<'_, '_>,
    behaviour: usize,
    inner: &Cells,
    call: &Call,
    at: usize,
) -> Result<Seq<Value>, Fault>
    requires { HasSlotsWithin (length snapshot.now.test.now.names) inner.now }
    ensures { (site : Site) → site.behaviour ≡ behaviour
        → Gives (arguments (reads snapshot.now site inner.now) (parameters_of (kind_at (test_of snapshot.now).definitions at)) call.now.arguments) result }
{
    let frame = snapshot.frame(behaviour, inner);
    let parameters = parameters_of(snapshot.test.definitions.kind(at));
    eval_arguments(alloc, parameters, call.arguments.as_slice(), &frame)
}
