//! Deliveries: the messages of a script come in at system ports (ES 201 873-1, 21.1).
ghost use Rattle.std.specs.Prelude.{◌≡◌, ◌<◌, ◌++◌, IfOk, IfSome, OnOk, length};
ghost use Rattle.std.specs.Option.{option_map};
ghost use Rattle.semantics.specs.Labels as said_labels;
ghost use Rattle.semantics.specs.Steps as steps;
ghost use Rattle.step_snapshot.specs.Tests.{extent_of, legend_by, test_by};
ghost use Rattle.config_parts.specs.Acts.{HasPathsInOrder};
ghost use Rattle.config_parts.specs.Legend.{going_by, mapping_by};
ghost use Rattle.config_parts.specs.Views.{AreWithin, IsConfigWithin, IsGoingWithin};
ghost use Rattle.config_parts.specs.declared.connection.End.{End as AnEnd};
ghost use Rattle.step_arrivals.specs.Behind.{IsBehind};

use crate::slots::{name_of, slots_are_ordered};
use config_parts::{Config, End, Going, TryClone};
use std::alloc::{AllocError, Global};
use step_labels::Label;
use step_snapshot::TestCase;
use ttcn_syntax::{Name, Seq};
use value_types::{Slot, Value};

// ---- what is left

/// The messages of a script for a system port.
fn messages_at<'b>(script: &'b [(Name, Seq<Value>)], system_port: &Name) -> &'b [Value]
    ensures { result.now ≡ steps.messages_at script.now system_port.now }
{
    match script.iter().find(|entry| entry.0 == *system_port) {
        Some(entry) => entry.1.as_slice(),
        None => &[],
    }
}

/// The message that comes in next at the system port of a slot, where one is left.
pub fn next_message<'b>(
    test: &'b TestCase<'_>,
    going: &Going,
    system_port: Slot,
) -> Option<&'b Value>
    requires { system_port < length test.now.names }
    ensures { option_map (λ message. message.now) result ≡ steps.next_message (test_by test.now) (going_by (legend_by test.now) going.now) ((legend_by test.now).names system_port) }
{
    slots_are_ordered(test);
    let name = &test.names.as_slice()[system_port as usize];
    messages_at(test.script, name).get(going.delivered(system_port))
}

// ---- labels

/// The delivery at a mapped system port, where a message is left.
fn push_delivery(
    alloc: Global,
    test: &TestCase<'_>,
    going: &Going,
    mapping: &(Slot, End),
    labels: &mut Vec<Label>,
) -> Result<(), AllocError>
    requires { mapping.now.0 < length test.now.names }
    ensures { OnOk result (labels.new.items ≡ labels.old.items ++ said_labels.delivery (test_by test.now) (going_by (legend_by test.now) going.now) (mapping_by (legend_by test.now) mapping.now)) }
{
    if next_message(test, going, mapping.0).is_some() {
        labels.push(Label::Delivery(name_of(alloc, test, mapping.0)?))?;
    }
    Ok(())
}

/// The deliveries of a configuration.
pub fn push_deliveries(
    alloc: Global,
    test: &TestCase<'_>,
    going: &Going,
    labels: &mut Vec<Label>,
) -> Result<(), AllocError>
    requires { AreWithin (length test.now.names) going.now.links.mappings }
    ensures { OnOk result (labels.new.items ≡ labels.old.items ++ said_labels.deliveries (test_by test.now) (going_by (legend_by test.now) going.now)) }
{
    for mapping in going.links.mappings.as_slice() {
        push_delivery(alloc, test, going, mapping, labels)?;
    }
    Ok(())
}

// ---- steps

/// The configuration behind a delivery at the system port of a slot, if it is enabled.
fn delivery(
    alloc: Global,
    test: &TestCase<'_>,
    going: &Going,
    system_port: Slot,
) -> Result<Option<Config>, AllocError>
    requires ordered { HasPathsInOrder going.now }
    requires all { IsGoingWithin (extent_of test.now) going.now }
    requires within { system_port < length test.now.names }
    ensures behind { IfOk result (IsBehind (legend_by test.now) (steps.delivery_step (test_by test.now) (going_by (legend_by test.now) going.now) ((legend_by test.now).names system_port))) }
    ensures within { IfOk result (λ after. IfSome after (IsConfigWithin (extent_of test.now))) }
{
    slots_are_ordered(test);
    let Some(end) = going.mapped(system_port) else {
        return Ok(None);
    };
    let Some(message) = next_message(test, going, system_port) else {
        return Ok(None);
    };
    let end = end.try_clone(alloc)?;
    let message = message.try_clone(alloc)?;
    let mut copy = going.try_clone(alloc)?;
    copy.come_in(alloc, system_port, end, message)?;
    Ok(Some(Config::Going(copy)))
}

/// The configuration behind a delivery at the system port of a name, if it is enabled.
pub fn delivery_named(
    alloc: Global,
    test: &TestCase<'_>,
    going: &Going,
    system_port: &Name,
) -> Result<Option<Config>, AllocError>
    requires ordered { HasPathsInOrder going.now }
    requires all { IsGoingWithin (extent_of test.now) going.now }
    ensures behind { IfOk result (IsBehind (legend_by test.now) (steps.delivery_step (test_by test.now) (going_by (legend_by test.now) going.now) system_port.now)) }
    ensures within { IfOk result (λ after. IfSome after (IsConfigWithin (extent_of test.now))) }
{
    slots_are_ordered(test);
    match test.slot(system_port) {
        Some(slot) => delivery(alloc, test, going, slot),
        None => Ok(None),
    }
}
