//! The step of a component, by what stands first in its last frame.
ghost use Rattle.std.specs.Prelude.{◌≡◌, ◌∷◌, ℕ, List, Option, Some, IfSome, length, slice_get};
ghost use Rattle.check_rules.specs.Calls.{altstep_meant};
ghost use Rattle.check_scope.specs.Names.{module_names};
ghost use Rattle.check_scope.specs.declared.types.DataType.{DataType as ADataType};
ghost use Rattle.step_forms.specs.Asks.{Asks, AsksWithin, uncovered_act};
ghost use Rattle.step_forms.specs.internal.Places.{behind_first, list_at};
ghost use Rattle.step_forms.specs.internal.Stands.{legend_of, site_of, stand_by};
ghost use Rattle.semantics.specs.Items as rules;
ghost use Rattle.semantics.specs.Items.{action_of};
ghost use Rattle.semantics.specs.Statements as said;
ghost use Rattle.step_snapshot.specs.Seen.{own_by, seen_by};
ghost use Rattle.step_snapshot.specs.Slots.{IsKnown};
ghost use Rattle.step_snapshot.specs.Tests.{extent_of, legend_by, test_by};
ghost use Rattle.config_parts.specs.Acts.{act_by};
ghost use Rattle.config_parts.specs.Views.{IsActWithin};
ghost use Rattle.graph_items.specs.Standing.{part_of};
ghost use Rattle.graph_sites.specs.Facts as facts;
ghost use Rattle.graph_sites.specs.Facts.{facts_of, goal_at};
ghost use Rattle.ttcn_graph.specs.Ways.{ways_of, ways_of_assignment, ways_of_variable};
ghost use Rattle.ttcn_graph.specs.internal.Drawing.{Does};
ghost use Rattle.ttcn_syntax.specs.declared.tree.statement.Action.TheVariants as form;

use crate::waiting::act_choice;
use config_parts::{Act, Frame};
use std::alloc::Global;
use step_choice::{choose_alt, choose_call, choose_event};
use step_forms::assign::{act_assignment, act_constant, act_timer, act_variable};
use step_forms::call::{altstep_called, call_function};
use step_forms::condition::{act_if, act_loop};
use step_forms::connect::act_connect;
use step_forms::end::{act_end, act_return};
use step_forms::facts::{awaited, declared_type, goal, is_own, sent_type};
use step_forms::mapping::act_map;
use step_forms::marks::uncover;
use step_forms::position::{first_at, go_on};
use step_forms::send::{act_send, act_start, act_stop_of, act_timer_state};
use step_forms::simple::{act_activate, act_deactivate, act_repeat, act_stop, act_verdict};
use step_forms::stand::Stand;
use step_snapshot::{Snapshot, TestCase};
use ttcn_graph::{First, Part};
use ttcn_syntax::{
    Action, Assignment, Branch, Call, ComponentRef, Constant, Event, ForStart, Mapping, Name,
    PortRef, Send, Timer, Variable,
};
use value_types::{Fault, TimerState};

// ---- statements that are, or stand for, an `alt`

/// A call of the altstep at a position, which is an `alt` of its own.
fn act_altstep<'t, 'a>(
    alloc: Global,
    stand: &Stand<'t, 'a>,
    call: &'a Call,
    at: usize,
) -> Result<Option<Act>, Fault>
    requires whole { part_of stand.now.part ≡ rules.Whole }
    requires does { Does stand.now.statement.now (form.Call call.now) }
    requires altstep { altstep_meant (module_names stand.now.snapshot.now.test.now.definitions call.now.name) ≡ Some at }
    ensures asks { (other : said.Act) → Asks (legend_of stand.now) (said.act_alt_or other (stand_by stand.now) (site_of stand.now) stand.now.statement.now (said.choice_at (stand_by stand.now) (site_of stand.now) stand.now.statement.now)) result }
    ensures within { AsksWithin (extent_of stand.now.snapshot.now.test.now) result }
{
    let chosen = choose_call(
        alloc,
        stand.snapshot,
        stand.behaviour,
        stand.statement,
        call,
        at,
    );
    act_choice(alloc, stand, chosen)
}

/// A call of a function.
fn act_function(alloc: Global, stand: &Stand<'_, '_>, call: &Call) -> Result<Option<Act>, Fault>
    ensures asks { Asks (legend_of stand.now) (said.call_function (stand_by stand.now) (site_of stand.now) call.now (stand_by stand.now).own (stand_by stand.now).rest) result }
    ensures within { AsksWithin (extent_of stand.now.snapshot.now.test.now) result }
{
    let own = stand.data(alloc)?;
    call_function(alloc, stand, call, own, stand.rest)
}

/// A call as a statement: of an altstep or of a function.
fn act_call<'t, 'a>(
    alloc: Global,
    stand: &Stand<'t, 'a>,
    call: &'a Call,
) -> Result<Option<Act>, Fault>
    requires whole { part_of stand.now.part ≡ rules.Whole }
    requires does { Does stand.now.statement.now (form.Call call.now) }
    ensures asks { Asks (legend_of stand.now) (said.act_whole (stand_by stand.now) (site_of stand.now) stand.now.statement.now (action_of stand.now.statement.now)) result }
    ensures within { AsksWithin (extent_of stand.now.snapshot.now.test.now) result }
{
    match altstep_called(stand.snapshot.test, call) {
        Some(at) => act_altstep(alloc, stand, call, at),
        None => act_function(alloc, stand, call),
    }
}

/// An event, which is an `alt` of its own.
fn act_event<'t, 'a>(
    alloc: Global,
    stand: &Stand<'t, 'a>,
    event: &'a Event,
) -> Result<Option<Act>, Fault>
    requires whole { part_of stand.now.part ≡ rules.Whole }
    requires does { Does stand.now.statement.now (form.Event event.now) }
    ensures asks { Asks (legend_of stand.now) (said.act_whole (stand_by stand.now) (site_of stand.now) stand.now.statement.now (action_of stand.now.statement.now)) result }
    ensures within { AsksWithin (extent_of stand.now.snapshot.now.test.now) result }
{
    let facts = &awaited(stand.facts)[0];
    let behaviour = stand.behaviour;
    let chosen = choose_event(
        alloc,
        stand.snapshot,
        behaviour,
        stand.statement,
        event,
        facts,
    );
    act_choice(alloc, stand, chosen)
}

/// An `alt`.
fn act_alt<'t, 'a>(
    alloc: Global,
    stand: &Stand<'t, 'a>,
    branches: &'a [Branch],
) -> Result<Option<Act>, Fault>
    requires whole { part_of stand.now.part ≡ rules.Whole }
    requires does { Does stand.now.statement.now (form.Alt branches.now) }
    ensures asks { Asks (legend_of stand.now) (said.act_whole (stand_by stand.now) (site_of stand.now) stand.now.statement.now (action_of stand.now.statement.now)) result }
    ensures within { AsksWithin (extent_of stand.now.snapshot.now.test.now) result }
{
    let facts = awaited(stand.facts);
    let behaviour = stand.behaviour;
    let chosen = choose_alt(
        alloc,
        stand.snapshot,
        behaviour,
        stand.statement,
        branches,
        facts,
    );
    act_choice(alloc, stand, chosen)
}

// ---- statements, with what is known of them

/// An assignment, as a statement or in a `for`.
fn act_assign(
    alloc: Global,
    stand: &Stand<'_, '_>,
    assignment: &Assignment,
) -> Result<Option<Act>, Fault>
    requires stores { facts_of stand.now.snapshot.now.test.now.definitions (list_at stand.now.snapshot.now.test.now stand.now.frame.now.remaining)
        ≡ facts.Stores (goal_at stand.now.snapshot.now.test.now.definitions (site_of stand.now) assignment.now.target) }
    requires known { IsKnown stand.now.snapshot.now.test.now.names assignment.now.target.name }
    requires ways { ways_of stand.now.snapshot.now.test.now.definitions (list_at stand.now.snapshot.now.test.now stand.now.frame.now.remaining)
        ≡ ways_of_assignment stand.now.snapshot.now.test.now.definitions (site_of stand.now) (list_at stand.now.snapshot.now.test.now stand.now.rest) assignment.now }
    ensures asks { Asks (legend_of stand.now) (said.act_assignment (stand_by stand.now) (site_of stand.now) assignment.now) result }
    ensures within { AsksWithin (extent_of stand.now.snapshot.now.test.now) result }
{
    act_assignment(alloc, stand, goal(stand.facts), &assignment.value)
}

/// A message is sent.
fn act_sending(alloc: Global, stand: &Stand<'_, '_>, send: &Send) -> Result<Option<Act>, Fault>
    requires whole { part_of stand.now.part ≡ rules.Whole }
    requires does { Does stand.now.statement.now (form.Send send.now) }
    ensures asks { Asks (legend_of stand.now) (said.act_send (stand_by stand.now) (site_of stand.now) send.now) result }
    ensures within { AsksWithin (extent_of stand.now.snapshot.now.test.now) result }
{
    act_send(alloc, stand, send, sent_type(stand.facts))
}

/// A timer starts.
fn act_start_timer(alloc: Global, stand: &Stand<'_, '_>, name: &Name) -> Result<Option<Act>, Fault>
    requires whole { part_of stand.now.part ≡ rules.Whole }
    requires does { Does stand.now.statement.now (form.StartTimer name.now) }
    ensures asks { Asks (legend_of stand.now) (said.act_whole (stand_by stand.now) (site_of stand.now) stand.now.statement.now (action_of stand.now.statement.now)) result }
    ensures within { AsksWithin (extent_of stand.now.snapshot.now.test.now) result }
{
    act_timer_state(alloc, stand, name, is_own(stand.facts), TimerState::Running)
}

/// A timer or a component stops.
fn act_stopping(
    alloc: Global,
    stand: &Stand<'_, '_>,
    component: &ComponentRef,
) -> Result<Option<Act>, Fault>
    requires whole { part_of stand.now.part ≡ rules.Whole }
    requires does { Does stand.now.statement.now (form.StopOf component.now) }
    ensures asks { Asks (legend_of stand.now) (said.act_stop_of (stand_by stand.now) (site_of stand.now) component.now) result }
    ensures within { AsksWithin (extent_of stand.now.snapshot.now.test.now) result }
{
    act_stop_of(alloc, stand, component, is_own(stand.facts))
}

/// Ports are connected.
fn act_connecting(
    alloc: Global,
    stand: &Stand<'_, '_>,
    one: &PortRef,
    other: &PortRef,
) -> Result<Option<Act>, Fault>
    requires whole { part_of stand.now.part ≡ rules.Whole }
    requires does { Does stand.now.statement.now (form.Connect one.now other.now) }
    ensures asks { Asks (legend_of stand.now) (said.act_connect (stand_by stand.now) (site_of stand.now) one.now other.now) result }
    ensures within { AsksWithin (extent_of stand.now.snapshot.now.test.now) result }
{
    act_connect(alloc, stand, one, other)
}

/// A port is mapped or unmapped.
fn act_mapping(
    alloc: Global,
    stand: &Stand<'_, '_>,
    mapping: &Mapping,
) -> Result<Option<Act>, Fault>
    requires whole { part_of stand.now.part ≡ rules.Whole }
    requires does { Does stand.now.statement.now (form.Map mapping.now) }
    ensures asks { Asks (legend_of stand.now) (said.act_map (stand_by stand.now) (site_of stand.now) mapping.now) result }
    ensures within { AsksWithin (extent_of stand.now.snapshot.now.test.now) result }
{
    act_map(alloc, stand, mapping)
}

// ---- parts of statements

/// The whole of a statement.
fn act_whole(alloc: Global, stand: &Stand<'_, '_>) -> Result<Option<Act>, Fault>
    requires { part_of stand.now.part ≡ rules.Whole }
    ensures asks { Asks (legend_of stand.now) (said.act_whole (stand_by stand.now) (site_of stand.now) stand.now.statement.now (action_of stand.now.statement.now)) result }
    ensures within { AsksWithin (extent_of stand.now.snapshot.now.test.now) result }
{
    match stand.statement.action.get() {
        Action::Variables(_) | Action::Constants(_) | Action::Timers(_) => Err(Fault::Dynamic),
        Action::Assign(assignment) => act_assign(alloc, stand, assignment),
        Action::Call(call) => act_call(alloc, stand, call),
        Action::Event(event) => act_event(alloc, stand, event),
        Action::Alt(branches) => act_alt(alloc, stand, branches.as_slice()),
        Action::Repeat => act_repeat(alloc, stand),
        Action::If(conditionals, last) => act_if(alloc, stand, 0, conditionals.as_slice(), last),
        Action::While(condition, block) => act_loop(alloc, stand, condition, block.as_slice()),
        Action::DoWhile(_, _) => go_on(alloc, stand, stand.way(0)),
        Action::For(_, _, _, _) => go_on(alloc, stand, stand.way(0)),
        Action::Return(value) => act_return(alloc, stand, value),
        Action::Stop => act_stop(alloc, stand),
        Action::Log(_) => go_on(alloc, stand, stand.rest),
        Action::Setverdict(verdict, _) => act_verdict(alloc, stand, *verdict),
        Action::Connect(one, other) => act_connecting(alloc, stand, one, other),
        Action::Map(mapping) => act_mapping(alloc, stand, mapping),
        Action::Send(send) => act_sending(alloc, stand, send),
        Action::StartComponent(component, call) => act_start(alloc, stand, component, call),
        Action::StartTimer(name) => act_start_timer(alloc, stand, name),
        Action::StopOf(component) => act_stopping(alloc, stand, component),
        Action::Activate(call) => act_activate(alloc, stand, call),
        Action::Deactivate(reference) => act_deactivate(alloc, stand, reference),
    }
}

/// A variable is declared, if there is one at the place.
fn act_variable_at(
    alloc: Global,
    stand: &Stand<'_, '_>,
    variables: &[Variable],
    place: usize,
) -> Result<Option<Act>, Fault>
    requires known { IfSome (slice_get variables.now place) (λ variable. IsKnown stand.now.snapshot.now.test.now.names variable.name) }
    requires ways { ways_of stand.now.snapshot.now.test.now.definitions (list_at stand.now.snapshot.now.test.now stand.now.frame.now.remaining)
        ≡ ways_of_variable (list_at stand.now.snapshot.now.test.now stand.now.rest) (slice_get variables.now place) }
    ensures asks { (of : Option ADataType) → facts_of stand.now.snapshot.now.test.now.definitions (list_at stand.now.snapshot.now.test.now stand.now.frame.now.remaining) ≡ facts.Declares of
        → Asks (legend_of stand.now) (said.act_variable (stand_by stand.now) (site_of stand.now) of (slice_get variables.now place)) result }
    ensures within { AsksWithin (extent_of stand.now.snapshot.now.test.now) result }
{
    match variables.get(place) {
        Some(variable) => act_variable(alloc, stand, variable, declared_type(stand.facts)),
        None => Err(Fault::Dynamic),
    }
}

/// A constant is declared, if there is one at the place.
fn act_constant_at(
    alloc: Global,
    stand: &Stand<'_, '_>,
    constants: &[Constant],
    place: usize,
) -> Result<Option<Act>, Fault>
    requires known { IfSome (slice_get constants.now place) (λ constant. IsKnown stand.now.snapshot.now.test.now.names constant.name) }
    ensures asks { (of : Option ADataType) → facts_of stand.now.snapshot.now.test.now.definitions (list_at stand.now.snapshot.now.test.now stand.now.frame.now.remaining) ≡ facts.Declares of
        → Asks (legend_of stand.now) (said.act_constant (stand_by stand.now) (site_of stand.now) of (slice_get constants.now place)) result }
    ensures within { AsksWithin (extent_of stand.now.snapshot.now.test.now) result }
{
    match constants.get(place) {
        Some(constant) => act_constant(alloc, stand, constant, declared_type(stand.facts)),
        None => Err(Fault::Dynamic),
    }
}

/// A timer is declared, if there is one at the place.
fn act_timer_at(
    alloc: Global,
    stand: &Stand<'_, '_>,
    timers: &[Timer],
    place: usize,
) -> Result<Option<Act>, Fault>
    requires known { IfSome (slice_get timers.now place) (λ timer. IsKnown stand.now.snapshot.now.test.now.names timer.name) }
    ensures asks { Asks (legend_of stand.now) (said.act_timer (stand_by stand.now) (slice_get timers.now place)) result }
    ensures within { AsksWithin (extent_of stand.now.snapshot.now.test.now) result }
{
    match timers.get(place) {
        Some(timer) => act_timer(alloc, stand, timer),
        None => Err(Fault::Dynamic),
    }
}

/// The declaration of one of the names that a statement declares.
fn act_name(alloc: Global, stand: &Stand<'_, '_>, place: usize) -> Result<Option<Act>, Fault>
    requires { part_of stand.now.part ≡ rules.Name place }
    ensures asks { Asks (legend_of stand.now) (said.act_name (stand_by stand.now) (site_of stand.now) place (action_of stand.now.statement.now)) result }
    ensures within { AsksWithin (extent_of stand.now.snapshot.now.test.now) result }
{
    match stand.statement.action.get() {
        Action::Variables(declared) => {
            act_variable_at(alloc, stand, declared.variables.as_slice(), place)
        }
        Action::For(start, _, _, _) => match start {
            ForStart::Variables(declared) => {
                act_variable_at(alloc, stand, declared.variables.as_slice(), place)
            }
            ForStart::Assign(_) => Err(Fault::Dynamic),
        },
        Action::Constants(declared) => {
            act_constant_at(alloc, stand, declared.constants.as_slice(), place)
        }
        Action::Timers(timers) => act_timer_at(alloc, stand, timers.as_slice(), place),
        _ => Err(Fault::Dynamic),
    }
}

/// The conditions of an `if` from one on.
fn act_from(alloc: Global, stand: &Stand<'_, '_>, place: usize) -> Result<Option<Act>, Fault>
    requires { part_of stand.now.part ≡ rules.From place }
    ensures asks { Asks (legend_of stand.now) (said.act_from (stand_by stand.now) (site_of stand.now) stand.now.statement.now place (action_of stand.now.statement.now)) result }
    ensures within { AsksWithin (extent_of stand.now.snapshot.now.test.now) result }
{
    match stand.statement.action.get() {
        Action::If(conditionals, last) => {
            act_if(alloc, stand, place, conditionals.as_slice(), last)
        }
        _ => Err(Fault::Dynamic),
    }
}

/// The assignment that a `for` begins with.
fn act_for_start(alloc: Global, stand: &Stand<'_, '_>) -> Result<Option<Act>, Fault>
    requires { part_of stand.now.part ≡ rules.Start }
    ensures asks { Asks (legend_of stand.now) (said.act_for_start (stand_by stand.now) (site_of stand.now) (action_of stand.now.statement.now)) result }
    ensures within { AsksWithin (extent_of stand.now.snapshot.now.test.now) result }
{
    match stand.statement.action.get() {
        Action::For(start, _, _, _) => match start {
            ForStart::Assign(assignment) => act_assign(alloc, stand, assignment),
            ForStart::Variables(_) => Err(Fault::Dynamic),
        },
        _ => Err(Fault::Dynamic),
    }
}

/// The `while` that a `do` or a `for` becomes.
fn act_while(alloc: Global, stand: &Stand<'_, '_>) -> Result<Option<Act>, Fault>
    requires { part_of stand.now.part ≡ rules.Loop }
    ensures asks { Asks (legend_of stand.now) (said.act_while (stand_by stand.now) (site_of stand.now) stand.now.statement.now (action_of stand.now.statement.now)) result }
    ensures within { AsksWithin (extent_of stand.now.snapshot.now.test.now) result }
{
    match stand.statement.action.get() {
        Action::DoWhile(block, condition) => act_loop(alloc, stand, condition, block.as_slice()),
        Action::For(_, condition, _, block) => act_loop(alloc, stand, condition, block.as_slice()),
        _ => Err(Fault::Dynamic),
    }
}

/// The assignment behind the block of a `for`.
fn act_for_step(alloc: Global, stand: &Stand<'_, '_>) -> Result<Option<Act>, Fault>
    requires { part_of stand.now.part ≡ rules.Last }
    ensures asks { Asks (legend_of stand.now) (said.act_for_step (stand_by stand.now) (site_of stand.now) (action_of stand.now.statement.now)) result }
    ensures within { AsksWithin (extent_of stand.now.snapshot.now.test.now) result }
{
    match stand.statement.action.get() {
        Action::For(_, _, step, _) => act_assign(alloc, stand, step),
        _ => Err(Fault::Dynamic),
    }
}

/// The part of a statement at which a component stands.
fn act_part(alloc: Global, stand: &Stand<'_, '_>) -> Result<Option<Act>, Fault>
    ensures asks { Asks (legend_of stand.now) (said.act_part (stand_by stand.now) (site_of stand.now) stand.now.statement.now (part_of stand.now.part)) result }
    ensures within { AsksWithin (extent_of stand.now.snapshot.now.test.now) result }
{
    match stand.part {
        Part::Whole => act_whole(alloc, stand),
        Part::Name(place) => act_name(alloc, stand, place),
        Part::From(place) => act_from(alloc, stand, place),
        Part::Start => act_for_start(alloc, stand),
        Part::Loop => act_while(alloc, stand),
        Part::Last => act_for_step(alloc, stand),
    }
}

/// What stands first in the last frame.
pub(crate) fn act_at<'t, 'a>(
    alloc: Global,
    snapshot: &'a Snapshot<'t, 'a>,
    frame: &'a Frame,
) -> Result<Option<Act>, Fault>
    requires { snapshot.now.component.now.own.calls ≡ frame.now ∷ behind_first snapshot.now.component.now.own.calls }
    ensures asks { Asks (legend_by snapshot.now.test.now) (said.act (test_by snapshot.now.test.now) (seen_by snapshot.now) (own_by snapshot.now)) result }
    ensures within { AsksWithin (extent_of snapshot.now.test.now) result }
{
    let test = snapshot.test;
    match first_at(test, frame.remaining) {
        None => act_end(alloc, snapshot, frame),
        Some(
            (
                First::Doing {
                    behaviour,
                    statement,
                    part,
                },
                rest,
            ),
        ) => {
            let stand = Stand {
                snapshot,
                frame,
                behaviour,
                statement,
                part,
                rest,
                facts: test.graphs.facts(frame.remaining),
            };
            act_part(alloc, &stand)
        }
        Some((First::Mark(_) | First::Waiting(_), _)) => Err(Fault::Dynamic),
    }
}

/// What is asked for, without the marks that come first in the data behind the step.
fn uncover_act(alloc: Global, test: &TestCase<'_>, act: Act) -> Act
    ensures asked { act_by (legend_by test.now) result ≡ uncovered_act (act_by (legend_by test.now) act) }
    ensures within { IsActWithin (extent_of test.now) act → IsActWithin (extent_of test.now) result }
{
    let Act { request, own } = act;
    Act {
        request,
        own: uncover(alloc, test, own),
    }
}

/// What a running component asks for in its step, or nothing where it has none. The marks that come first are gone already
/// from the data behind the step.
pub fn act<'t, 'a>(alloc: Global, snapshot: &'a Snapshot<'t, 'a>) -> Result<Option<Act>, Fault>
    ensures asks { Asks (legend_by snapshot.now.test.now) (uncovered_act (said.act (test_by snapshot.now.test.now) (seen_by snapshot.now) (own_by snapshot.now))) result }
    ensures within { AsksWithin (extent_of snapshot.now.test.now) result }
{
    let Some(frame) = snapshot.component.own.calls.as_slice().first() else {
        return Err(Fault::Dynamic);
    };
    match act_at(alloc, snapshot, frame) {
        Ok(Some(asked)) => Ok(Some(uncover_act(alloc, snapshot.test, asked))),
        Ok(None) => Ok(None),
        Err(fault) => Err(fault),
    }
}
