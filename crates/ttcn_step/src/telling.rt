//! What is told of a step: the statement that it begins with, what it asks for, and the message that is sent or comes in
//! (ES 201 873-1, 21.1 and 22.2).
ghost use Rattle.std.specs.Prelude.{◌≡◌, ◌<◌, IfOk, IfSome, length};
ghost use Rattle.std.specs.Option.{option_map};
ghost use Rattle.semantics.specs.Telling as rules;
ghost use Rattle.step_snapshot.specs.Tests.{extent_of, legend_by, test_by};
ghost use Rattle.config_parts.specs.Acts.{HasPathsInOrder, request_by};
ghost use Rattle.config_parts.specs.Legend.{IsLegend, Legend, component_by, going_by};
ghost use Rattle.config_parts.specs.Views.{AreWithin, Extent, IsGoingWithin, IsWithin};
ghost use Rattle.config_parts.specs.declared.config.Config.TheVariants as config;
ghost use Rattle.ttcn_step.specs.Machines.{Fits, machine_of, said};
ghost use Rattle.ttcn_step.specs.Telling as spec;
ghost use Rattle.ttcn_step.specs.Parts as parts;
ghost use Rattle.graph_items.specs.Standing as items;

use crate::begun::part_of;
use crate::places::place_of;
use crate::step::{asked, component_of, is_running};
use config_parts::{Act, Component, Config, End, Going, Request, TryClone, Way};
use std::alloc::{AllocError, Global};
use step_arrivals::{next_message, slots_are_ordered};
use step_labels::Label;
use step_snapshot::TestCase;
use ttcn_graph::Part;
use ttcn_syntax::{Name, Span};
use value_types::{ComponentId, Fault, Slot, Value};

/// A message that a step sends, or that comes in at a system port.
#[derive(Drop)]
pub struct Sent {
    /// The port from which it is sent. A message that comes in has none.
    pub from: Option<End>,
    pub value: Value,
    pub way: Way,
}

// ---- components

/// The component whose statement makes the step of a label.
fn maker<'b>(going: &'b Going, label: &Label) -> Option<&'b Component>
    ensures found { (legend : Legend) → option_map (λ component. component_by legend component.now) result ≡ rules.maker (going_by legend going.now) label.now }
    ensures within { (size : Extent) → IsGoingWithin size going.now → IfSome result (λ component. IsWithin size component.now.own) }
{
    match label {
        Label::Statement(path) => component_of(going.components.as_slice(), &path.numbers),
        Label::Expiry { .. } => None,
        Label::Delivery(_) => None,
    }
}

/// What a component's statement asks for, where it has a step and nothing fails before it asks: to do it may still fail.
fn request_of_component(
    alloc: Global,
    test: &TestCase<'_>,
    going: &Going,
    component: &Component,
) -> Result<Option<Request>, AllocError>
    requires ordered { HasPathsInOrder going.now }
    requires within { IsWithin (extent_of test.now) component.now.own }
    ensures { IfOk result (λ request. option_map (request_by (legend_by test.now)) request ≡ rules.request_of_component (test_by test.now) (going_by (legend_by test.now) going.now) (component_by (legend_by test.now) component.now)) }
{
    if !is_running(component.state) {
        return Ok(None);
    }
    match asked(alloc, test, going, component) {
        Ok(Some(act)) => {
            let Act { request, own: _own } = act;
            Ok(Some(request))
        }
        Ok(None) => Ok(None),
        Err(Fault::Dynamic) => Ok(None),
        Err(Fault::Memory) => Err(AllocError),
    }
}

/// The message that is sent where a component asks for this.
fn sent_by(
    alloc: Global,
    going: &Going,
    itself: &ComponentId,
    request: Request,
) -> Result<Option<Sent>, AllocError>
    ensures { (legend : Legend) → IsLegend legend → IfOk result (λ sent. option_map (spec.sent_by legend) sent ≡ rules.sent_by (going_by legend going.now) itself.now (request_by legend request)) }
{
    match request {
        Request::Sends(port, to, value) => {
            let component = itself.path.try_clone(alloc)?;
            let from = End { component, port };
            match going.way_from(alloc, &from, to.as_ref())? {
                Some(way) => Ok(Some(Sent {
                    from: Some(from),
                    value,
                    way,
                })),
                None => Ok(None),
            }
        }
        _ => Ok(None),
    }
}

/// The message that a component's statement sends.
fn sent_of_component(
    alloc: Global,
    test: &TestCase<'_>,
    going: &Going,
    component: &Component,
) -> Result<Option<Sent>, AllocError>
    requires ordered { HasPathsInOrder going.now }
    requires within { IsWithin (extent_of test.now) component.now.own }
    ensures { IfOk result (λ sent. option_map (spec.sent_by (legend_by test.now)) sent ≡ rules.sent_of_component (test_by test.now) (going_by (legend_by test.now) going.now) (component_by (legend_by test.now) component.now)) }
{
    slots_are_ordered(test);
    match request_of_component(alloc, test, going, component)? {
        Some(request) => sent_by(alloc, going, &component.itself, request),
        None => Ok(None),
    }
}

// ---- deliveries

/// The message that the delivery at the system port of a slot brings.
fn sent_at(
    alloc: Global,
    test: &TestCase<'_>,
    going: &Going,
    system_port: Slot,
) -> Result<Option<Sent>, AllocError>
    requires { system_port < length test.now.names }
    ensures { IfOk result (λ sent. option_map (spec.sent_by (legend_by test.now)) sent ≡ rules.sent_in (test_by test.now) (going_by (legend_by test.now) going.now) ((legend_by test.now).names system_port)) }
{
    slots_are_ordered(test);
    let Some(end) = going.mapped(system_port) else {
        return Ok(None);
    };
    let Some(message) = next_message(test, going, system_port) else {
        return Ok(None);
    };
    let way = going.way_to(alloc, end)?;
    let value = message.try_clone(alloc)?;
    Ok(Some(Sent {
        from: None,
        value,
        way,
    }))
}

/// The message that the delivery at a system port brings.
fn sent_in(
    alloc: Global,
    test: &TestCase<'_>,
    going: &Going,
    system_port: &Name,
) -> Result<Option<Sent>, AllocError>
    requires { AreWithin (length test.now.names) going.now.links.mappings }
    ensures { IfOk result (λ sent. option_map (spec.sent_by (legend_by test.now)) sent ≡ rules.sent_in (test_by test.now) (going_by (legend_by test.now) going.now) system_port.now) }
{
    slots_are_ordered(test);
    match test.slot(system_port) {
        Some(slot) => sent_at(alloc, test, going, slot),
        None => Ok(None),
    }
}

// ---- labels

/// What the step of a label asks for, in a test case that goes on.
fn request_going(
    alloc: Global,
    test: &TestCase<'_>,
    going: &Going,
    label: &Label,
) -> Result<Option<Request>, AllocError>
    requires { Fits (machine_of test.now) (config.Going going.now) }
    ensures { IfOk result (λ request. option_map (request_by (legend_by test.now)) request ≡ rules.request_going (test_by test.now) (going_by (legend_by test.now) going.now) label.now) }
{
    match maker(going, label) {
        Some(component) => request_of_component(alloc, test, going, component),
        None => Ok(None),
    }
}

/// What the step of a label asks for, where it is that of a statement and nothing fails before it asks.
pub(crate) fn request(
    alloc: Global,
    test: &TestCase<'_>,
    config: &Config,
    label: &Label,
) -> Result<Option<Request>, AllocError>
    requires { Fits (machine_of test.now) config.now }
    ensures { IfOk result (λ request. option_map (request_by (legend_by test.now)) request ≡ rules.request_of (test_by test.now) (said (machine_of test.now) config.now) label.now) }
{
    match config {
        Config::Ended(_) => Ok(None),
        Config::Going(going) => request_going(alloc, test, going, label),
    }
}

/// The message that the step of a label sends or brings, in a test case that goes on.
fn sent_going(
    alloc: Global,
    test: &TestCase<'_>,
    going: &Going,
    label: &Label,
) -> Result<Option<Sent>, AllocError>
    requires { Fits (machine_of test.now) (config.Going going.now) }
    ensures { IfOk result (λ sent. option_map (spec.sent_by (legend_by test.now)) sent ≡ rules.sent_going (test_by test.now) (going_by (legend_by test.now) going.now) label.now) }
{
    match label {
        Label::Statement(_) => match maker(going, label) {
            Some(component) => sent_of_component(alloc, test, going, component),
            None => Ok(None),
        },
        Label::Expiry { .. } => Ok(None),
        Label::Delivery(system_port) => sent_in(alloc, test, going, system_port),
    }
}

/// The message that the step of a label sends or brings.
pub(crate) fn message(
    alloc: Global,
    test: &TestCase<'_>,
    config: &Config,
    label: &Label,
) -> Result<Option<Sent>, AllocError>
    requires { Fits (machine_of test.now) config.now }
    ensures { IfOk result (λ sent. option_map (spec.sent_by (legend_by test.now)) sent ≡ rules.sent_of (test_by test.now) (said (machine_of test.now) config.now) label.now) }
{
    match config {
        Config::Ended(_) => Ok(None),
        Config::Going(going) => sent_going(alloc, test, going, label),
    }
}

/// The place of the statement that the step of a label begins with, in a test case that goes on.
fn place_going(test: &TestCase<'_>, going: &Going, label: &Label) -> Option<Span>
    ensures { result ≡ rules.place_going (going_by (legend_by test.now) going.now) label.now }
{
    match maker(going, label) {
        Some(component) => place_of(test, component),
        None => None,
    }
}

/// The place of the statement that the step of a label begins with, where it is that of a statement.
pub(crate) fn place(test: &TestCase<'_>, config: &Config, label: &Label) -> Option<Span>
    ensures { result ≡ rules.place_of_step (said (machine_of test.now) config.now) label.now }
{
    match config {
        Config::Ended(_) => None,
        Config::Going(going) => place_going(test, going, label),
    }
}

/// What of a statement the step of a label begins with, in a test case that goes on.
fn part_going(test: &TestCase<'_>, going: &Going, label: &Label) -> Option<Part>
    ensures { option_map items.part_of result ≡ parts.part_going (going_by (legend_by test.now) going.now) label.now }
{
    match maker(going, label) {
        Some(component) => part_of(test, component),
        None => None,
    }
}

/// What of a statement the step of a label begins with, where it is that of a statement.
pub(crate) fn part(test: &TestCase<'_>, config: &Config, label: &Label) -> Option<Part>
    ensures { option_map items.part_of result ≡ parts.part_of_step (said (machine_of test.now) config.now) label.now }
{
    match config {
        Config::Ended(_) => None,
        Config::Going(going) => part_going(test, going, label),
    }
}
