//! Conditions and loops (ES 201 873-1, 19.2 to 19.5).
ghost use Rattle.std.specs.Prelude.{◌≡◌, ◌<◌, ◌∷◌, ◌++◌, [], List, is_some, length, slice_get, true};
ghost use Rattle.step_forms.specs.Asks.{Asks, AsksWithin};
ghost use Rattle.step_forms.specs.internal.Places.{list_at};
ghost use Rattle.step_forms.specs.internal.Stands.{legend_of, site_of, stand_by};
ghost use Rattle.semantics.specs.Items as rules;
ghost use Rattle.semantics.specs.Statements as said;
ghost use Rattle.ttcn_graph.specs.Ways.{ways_from, ways_of};
ghost use Rattle.step_snapshot.specs.Tests.{extent_of};

use crate::position::go_on;
use crate::stand::Stand;
use config_parts::Act;
use std::alloc::Global;
use ttcn_syntax::{Conditional, Expr, Seq, Statement};
use value_types::Fault;

/// A condition is tested: the component goes on with the list at one of two positions.
pub fn act_test(
    alloc: Global,
    stand: &Stand<'_, '_>,
    condition: &Expr,
    held: usize,
    failed: usize,
) -> Result<Option<Act>, Fault>
    requires held { held < length stand.now.snapshot.now.test.now.graphs.lists }
    requires failed { failed < length stand.now.snapshot.now.test.now.graphs.lists }
    ensures asks { Asks (legend_of stand.now)
        (said.act_test (stand_by stand.now) (site_of stand.now) condition.now (list_at stand.now.snapshot.now.test.now held) (list_at stand.now.snapshot.now.test.now failed)) result }
    ensures within { AsksWithin (extent_of stand.now.snapshot.now.test.now) result }
{
    if stand.condition(alloc, condition)? {
        go_on(alloc, stand, held)
    } else {
        go_on(alloc, stand, failed)
    }
}

/// The conditions of an `if` from one on.
pub fn act_if(
    alloc: Global,
    stand: &Stand<'_, '_>,
    place: usize,
    conditionals: &[Conditional],
    last: &Option<Seq<Statement>>,
) -> Result<Option<Act>, Fault>
    requires { ways_of stand.now.snapshot.now.test.now.definitions (list_at stand.now.snapshot.now.test.now stand.now.frame.now.remaining)
        ≡ ways_from stand.now.snapshot.now.test.now.definitions (site_of stand.now) stand.now.statement.now (list_at stand.now.snapshot.now.test.now stand.now.rest) place conditionals.now last.now }
    ensures asks { Asks (legend_of stand.now) (said.act_if (stand_by stand.now) (site_of stand.now) stand.now.statement.now place conditionals.now last.now) result }
    ensures within { AsksWithin (extent_of stand.now.snapshot.now.test.now) result }
{
    match conditionals.get(place) {
        Some(conditional) => {
            let held = stand.way(0);
            let failed = stand.way(1);
            act_test(alloc, stand, &conditional.condition, held, failed)
        }
        None => {
            let otherwise = stand.way(0);
            go_on(alloc, stand, otherwise)
        }
    }
}

/// A loop: its block and then more, or what is behind.
pub fn act_loop(
    alloc: Global,
    stand: &Stand<'_, '_>,
    condition: &Expr,
    block: &[Statement],
) -> Result<Option<Act>, Fault>
    requires { is_some (slice_get (ways_of stand.now.snapshot.now.test.now.definitions (list_at stand.now.snapshot.now.test.now stand.now.frame.now.remaining)) 0) ≡ true }
    ensures asks { (again : List rules.Item) → ways_of stand.now.snapshot.now.test.now.definitions (list_at stand.now.snapshot.now.test.now stand.now.frame.now.remaining)
        ≡ (rules.items stand.now.snapshot.now.test.now.definitions (site_of stand.now) block.now ++ again ++ list_at stand.now.snapshot.now.test.now stand.now.rest) ∷ []
        → Asks (legend_of stand.now) (said.act_loop (stand_by stand.now) (site_of stand.now) condition.now block.now again) result }
    ensures within { AsksWithin (extent_of stand.now.snapshot.now.test.now) result }
{
    let held = stand.way(0);
    act_test(alloc, stand, condition, held, stand.rest)
}
