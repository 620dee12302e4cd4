//! Assignments and declarations (ES 201 873-1, 8, 11, 12 and 19.1).
ghost use Rattle.std.specs.Prelude.{◌≡◌, length, Some, IfOk};
ghost use Rattle.std.specs.Option.{option_map};
ghost use Rattle.step_forms.specs.Asks.{Asks, AsksWithin};
ghost use Rattle.step_snapshot.specs.Slots.{IsKnown};
ghost use Rattle.step_forms.specs.internal.Places.{list_at};
ghost use Rattle.step_forms.specs.internal.Stands.{legend_of, site_of, stand_by};
ghost use Rattle.semantics.specs.Statements as said;
ghost use Rattle.semantics.specs.Storing as storing;
ghost use Rattle.step_snapshot.specs.Tests.{extent_of, legend_by, test_by};
ghost use Rattle.config_parts.specs.Legend.{data_by};
ghost use Rattle.config_parts.specs.Views.{IsWithin};
ghost use Rattle.graph_items.specs.Standing.{target_of};
ghost use Rattle.ttcn_graph.specs.Ways.{ways_of, ways_of_initial, ways_of_right};
ghost use Rattle.value_types.specs.Outcomes.{GivesBy};

use crate::call::{activate_call, call_function};
use crate::create::create;
use crate::stand::Stand;
use crate::storing::{declare, declare_timer, forget, store_at};
use check_rules::DataType;
use config_parts::{Act, Data, Request};
use std::alloc::Global;
use ttcn_graph::{Goal, Referred, Target};
use ttcn_syntax::{Boxed, Constant, Name, Rhs, Timer, Variable};
use value_types::{Fault, Value};

/// What stands on the right of `:=`: it goes to a target, where a value of a type is wanted.
pub fn assign(
    alloc: Global,
    stand: &Stand<'_, '_>,
    target: &Target<'_>,
    wanted: Option<DataType>,
    own: Data,
    right: &Rhs,
) -> Result<Option<Act>, Fault>
    requires known { IsKnown stand.now.snapshot.now.test.now.names target.now.reference.name }
    requires within { IsWithin (extent_of stand.now.snapshot.now.test.now) own }
    requires ways { ways_of stand.now.snapshot.now.test.now.definitions (list_at stand.now.snapshot.now.test.now stand.now.frame.now.remaining)
        ≡ ways_of_right (target_of target.now) (list_at stand.now.snapshot.now.test.now stand.now.rest) right.now }
    ensures asks { Asks (legend_of stand.now) (said.assign (stand_by stand.now) (site_of stand.now) (target_of target.now) wanted (data_by (legend_of stand.now) own) right.now) result }
    ensures within { AsksWithin (extent_of stand.now.snapshot.now.test.now) result }
{
    match right {
        Rhs::Value(value) => {
            let value = stand.value(alloc, value, wanted)?;
            let own = store_at(alloc, stand.snapshot.test, target, value, own)?;
            Ok(Some(Act {
                request: Request::Continues,
                own,
            }))
        }
        Rhs::Create(name) => create(alloc, stand, target, own, name),
        Rhs::Call(call) => {
            let waiting = stand.way(0);
            call_function(alloc, stand, call, own, waiting)
        }
        Rhs::Activate(call) => {
            let own = activate_call(alloc, stand, call, own)?;
            let value = Value::Default(own.activations);
            let own = store_at(alloc, stand.snapshot.test, target, value, own)?;
            Ok(Some(Act {
                request: Request::Continues,
                own,
            }))
        }
    }
}

/// An assignment.
pub fn act_assignment(
    alloc: Global,
    stand: &Stand<'_, '_>,
    goal: &Goal<'_>,
    right: &Boxed<Rhs>,
) -> Result<Option<Act>, Fault>
    requires known { IsKnown stand.now.snapshot.now.test.now.names goal.now.target.reference.name }
    requires ways { ways_of stand.now.snapshot.now.test.now.definitions (list_at stand.now.snapshot.now.test.now stand.now.frame.now.remaining)
        ≡ ways_of_right (target_of goal.now.target) (list_at stand.now.snapshot.now.test.now stand.now.rest) right.now }
    ensures asks { Asks (legend_of stand.now) (said.assign (stand_by stand.now) (site_of stand.now) (target_of goal.now.target) goal.now.wanted (said.done (stand_by stand.now)) right.now) result }
    ensures within { AsksWithin (extent_of stand.now.snapshot.now.test.now) result }
{
    let own = stand.done(alloc)?;
    assign(alloc, stand, &goal.target, goal.wanted, own, right.get())
}

/// A name that is declared, as a target.
fn declared_target(name: &Name) -> Target<'_>
    ensures { target_of result ≡ said.declared_target name.now }
{
    Target {
        own: true,
        reference: Referred::to_name(name),
        data_type: None,
    }
}

/// A variable is declared.
pub fn act_variable(
    alloc: Global,
    stand: &Stand<'_, '_>,
    variable: &Variable,
    of: Option<DataType>,
) -> Result<Option<Act>, Fault>
    requires known { IsKnown stand.now.snapshot.now.test.now.names variable.now.name }
    requires ways { ways_of stand.now.snapshot.now.test.now.definitions (list_at stand.now.snapshot.now.test.now stand.now.frame.now.remaining)
        ≡ ways_of_initial variable.now.name (list_at stand.now.snapshot.now.test.now stand.now.rest) variable.now.value }
    ensures asks { Asks (legend_of stand.now) (said.act_initial (stand_by stand.now) (site_of stand.now) of variable.now.name variable.now.value) result }
    ensures within { AsksWithin (extent_of stand.now.snapshot.now.test.now) result }
{
    let own = forget(
        alloc,
        stand.snapshot.test,
        &variable.name,
        stand.done(alloc)?,
    )?;
    match &variable.value {
        None => Ok(Some(Act {
            request: Request::Continues,
            own,
        })),
        Some(right) => {
            let target = declared_target(&variable.name);
            assign(alloc, stand, &target, of, own, right)
        }
    }
}

/// A constant is declared.
pub fn act_constant(
    alloc: Global,
    stand: &Stand<'_, '_>,
    constant: &Constant,
    of: Option<DataType>,
) -> Result<Option<Act>, Fault>
    requires { IsKnown stand.now.snapshot.now.test.now.names constant.now.name }
    ensures asks { Asks (legend_of stand.now) (said.act_constant (stand_by stand.now) (site_of stand.now) of (Some constant.now)) result }
    ensures within { AsksWithin (extent_of stand.now.snapshot.now.test.now) result }
{
    let value = stand.value(alloc, &constant.value, of)?;
    let own = stand.done(alloc)?;
    let own = declare(alloc, stand.snapshot.test, &constant.name, value, own)?;
    Ok(Some(Act {
        request: Request::Continues,
        own,
    }))
}

/// A timer is declared.
pub fn act_timer(alloc: Global, stand: &Stand<'_, '_>, timer: &Timer) -> Result<Option<Act>, Fault>
    requires { IsKnown stand.now.snapshot.now.test.now.names timer.now.name }
    ensures asks { Asks (legend_of stand.now) (said.act_timer (stand_by stand.now) (Some timer.now)) result }
    ensures within { AsksWithin (extent_of stand.now.snapshot.now.test.now) result }
{
    let own = stand.done(alloc)?;
    let own = declare_timer(alloc, stand.snapshot.test, &timer.name, own)?;
    Ok(Some(Act {
        request: Request::Continues,
        own,
    }))
}
