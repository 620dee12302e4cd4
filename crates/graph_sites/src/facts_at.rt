//! What is known of names at a site.
ghost use Rattle.std.specs.Prelude.{◌≡◌, [], ◌∷◌, map, IfOk};
ghost use Rattle.std.specs.Option.{option_map};
ghost use Rattle.semantics.specs.Items.{action_of};
ghost use Rattle.semantics.specs.Statements as statements;
ghost use Rattle.graph_sites.specs.Facts as spec;
ghost use Rattle.graph_items.specs.Standing.{part_of};

use crate::facts::{EventFacts, Facts, Goal};
use crate::here::Here;
use crate::typing::{received_type, sent_type, type_wanted};
use graph_items::Part;
use std::alloc::{AllocError, Global};
use ttcn_syntax::{
    Action, Alternative, Assignment, Branch, ComponentRef, Event, ForStart, Reference, Seq,
    Statement,
};

// ---- goals

fn goal<'a>(here: &Here<'a>, reference: &'a Reference) -> Goal<'a>
    ensures { spec.goal_by result ≡ spec.goal_at here.now.0 here.now.1 reference.now }
{
    Goal {
        target: here.target(reference),
        wanted: type_wanted(here, reference),
    }
}

fn goal_if_any<'a>(here: &Here<'a>, reference: &'a Option<Reference>) -> Option<Goal<'a>>
    ensures { option_map spec.goal_by result ≡ spec.goal_if_any here.now.0 here.now.1 reference.now }
{
    match reference {
        Some(reference) => Some(goal(here, reference)),
        None => None,
    }
}

// ---- events

/// Nothing is known of an event but whether its timer is the frame's own.
fn no_redirects<'a>(own: bool) -> EventFacts<'a>
    ensures received { result.received ≡ spec.no_event.received }
    ensures value { option_map spec.goal_by result.value ≡ spec.no_event.value }
    ensures sender { option_map spec.goal_by result.sender ≡ spec.no_event.sender }
    ensures own { result.own ≡ own }
{
    EventFacts {
        received: None,
        value: None,
        sender: None,
        own,
    }
}

fn event_facts<'a>(here: &Here<'a>, event: &'a Event) -> EventFacts<'a>
    ensures { spec.event_by result ≡ spec.event_facts here.now.0 here.now.1 event.now }
{
    match event {
        Event::Receive(receive) => EventFacts {
            received: received_type(here, receive),
            value: goal_if_any(here, &receive.value),
            sender: goal_if_any(here, &receive.sender),
            own: false,
        },
        Event::Timeout(name) => no_redirects(here.is_own(name.as_bytes())),
        Event::Done(_component) => no_redirects(false),
        Event::AllDone => no_redirects(false),
    }
}

fn branch_facts<'a>(here: &Here<'a>, branch: &'a Branch) -> EventFacts<'a>
    ensures { spec.event_by result ≡ spec.branch_facts here.now.0 here.now.1 branch.now }
{
    match branch.alternative.get() {
        Alternative::Event(_guard, event, _block) => event_facts(here, event),
        Alternative::Call(_guard, _call, _block) => no_redirects(false),
        Alternative::Else(_block) => no_redirects(false),
    }
}

/// What is known of the events of branches that stand at a site.
pub fn facts_of_branches<'a>(
    alloc: Global,
    here: &Here<'a>,
    branches: &'a [Branch],
) -> Result<Seq<EventFacts<'a>>, AllocError>
    ensures { IfOk result (λ facts. map spec.event_by facts ≡ map (spec.branch_facts here.now.0 here.now.1) branches.now) }
{
    let mut facts = Seq::new(alloc);
    for branch in branches {
        facts.push(branch_facts(here, branch))?;
    }
    Ok(facts)
}

/// What is known of the one event of a statement.
fn lone_facts<'a>(alloc: Global, here: &Here<'a>, event: &'a Event) -> Result<Facts<'a>, AllocError>
    ensures { IfOk result (λ facts. spec.facts_by facts ≡ spec.Waits (spec.event_facts here.now.0 here.now.1 event.now ∷ [])) }
{
    let mut events = Seq::new(alloc);
    events.push(event_facts(here, event))?;
    Ok(Facts::Waits(events))
}

// ---- statements

fn start_facts<'a>(here: &Here<'a>, start: &'a ForStart) -> Facts<'a>
    ensures { spec.facts_by result ≡ spec.start_facts here.now.0 here.now.1 start.now }
{
    match start {
        ForStart::Variables(_declared) => Facts::Nothing,
        ForStart::Assign(assignment) => Facts::Stores(goal(here, &assignment.target)),
    }
}

fn start_name_facts<'a>(here: &Here<'a>, start: &'a ForStart) -> Facts<'a>
    ensures { spec.facts_by result ≡ spec.start_name_facts here.now.0 here.now.1 start.now }
{
    match start {
        ForStart::Variables(declared) => Facts::Declares(here.resolved(&declared.type_name)),
        ForStart::Assign(_assignment) => Facts::Nothing,
    }
}

fn for_facts<'a>(
    here: &Here<'a>,
    start: &'a ForStart,
    step: &'a Assignment,
    part: Part,
) -> Facts<'a>
    ensures { spec.facts_by result ≡ spec.for_facts here.now.0 here.now.1 start.now step.now (part_of part) }
{
    match part {
        Part::Whole => Facts::Nothing,
        Part::Name(_place) => start_name_facts(here, start),
        Part::From(_place) => Facts::Nothing,
        Part::Start => start_facts(here, start),
        Part::Loop => Facts::Nothing,
        Part::Last => Facts::Stores(goal(here, &step.target)),
    }
}

/// The name of a component or a timer, which is empty where none is written.
fn name_in<'a>(reference: &'a ComponentRef) -> &'a [u8]
    ensures { result.now ≡ statements.name_in reference.now }
{
    match reference {
        ComponentRef::Named(reference) => reference.name.as_bytes(),
        _ => &[],
    }
}

/// What is known where a part of a statement stands at a site.
pub fn facts_of_part<'a>(
    alloc: Global,
    here: &Here<'a>,
    statement: &'a Statement,
    part: Part,
) -> Result<Facts<'a>, AllocError>
    ensures { IfOk result (λ facts. spec.facts_by facts ≡ spec.facts_of_part here.now.0 here.now.1 (part_of part) (action_of statement.now)) }
{
    match statement.action.get() {
        Action::Variables(declared) => Ok(Facts::Declares(here.resolved(&declared.type_name))),
        Action::Constants(declared) => Ok(Facts::Declares(here.resolved(&declared.type_name))),
        Action::Assign(assignment) => Ok(Facts::Stores(goal(here, &assignment.target))),
        Action::Event(event) => lone_facts(alloc, here, event),
        Action::Alt(branches) => {
            let events = facts_of_branches(alloc, here, branches.as_slice())?;
            Ok(Facts::Waits(events))
        }
        Action::For(start, _condition, step, _body) => Ok(for_facts(here, start, step, part)),
        Action::Send(send) => Ok(Facts::Sends(sent_type(here, send))),
        Action::StartTimer(name) => Ok(Facts::Sets(here.is_own(name.as_bytes()))),
        Action::StopOf(reference) => Ok(Facts::Sets(here.is_own(name_in(reference)))),
        _ => Ok(Facts::Nothing),
    }
}
