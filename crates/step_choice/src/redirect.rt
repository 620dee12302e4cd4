//! What a receive stores of a message (ES 201 873-1, 22.2).
ghost use Rattle.std.specs.Prelude.{◌≡◌, IfOk, Option, map};
ghost use Rattle.std.specs.Option.{option_map};
ghost use Rattle.step_choice.specs.Deeds.{stored_by, stored_of};
ghost use Rattle.step_choice.specs.internal.Judged.{Stores};
ghost use Rattle.semantics.specs.Events as rules;
ghost use Rattle.semantics.specs.Sites.{Site, scope_at};
ghost use Rattle.semantics.specs.Snapshots.{Test};
ghost use Rattle.config_parts.specs.Legend.{message_by};
ghost use Rattle.graph_sites.specs.Facts.{event_by, event_facts, goal_by, goal_if_any};
ghost use Rattle.ttcn_syntax.specs.declared.tree.expression.Reference.{Reference as AReference};
ghost use Rattle.ttcn_syntax.specs.declared.tree.statement.Event.TheVariants as event;
ghost use Rattle.ttcn_syntax.specs.declared.tree.statement.Receive.{Receive as AReceive};

use crate::taken::Stored;
use check_scope::types::DataType;
use config_parts::Message;
use std::alloc::{AllocError, Global};
use ttcn_graph::{EventFacts, Goal};
use value_types::{ComponentId, Fault, Value};

/// The sender of a message goes to a target of its component's type alone.
fn fits_sender(sender: &ComponentId, wanted: Option<DataType>) -> bool
    ensures { result ≡ rules.fits_sender sender.now wanted }
{
    match wanted {
        Some(wanted) => wanted.is_same(DataType::Component(sender.component_type)),
        None => false,
    }
}

/// What is stored of the value of a message.
fn redirected_value<'t, 'a>(
    alloc: Global,
    goal: &'a Option<Goal<'t>>,
    value: &Value,
) -> Result<Vec<Stored<'t, 'a>>, AllocError>
    ensures { IfOk result (λ stored. (test : Test) (site : Site) (reference : Option AReference) → option_map goal_by goal.now ≡ goal_if_any test.definitions site reference
        → map stored_by stored.items ≡ map (stored_of test site) (rules.redirected_value reference value.now)) }
{
    let mut stored = Vec::new(alloc);
    let Some(goal) = goal else {
        return Ok(stored);
    };
    let value = value.try_clone(alloc)?;
    stored.push(Stored {
        target: &goal.target,
        value,
    })?;
    Ok(stored)
}

/// What a receive stores of a message.
pub(crate) fn redirects<'t, 'a>(
    alloc: Global,
    facts: &'a EventFacts<'t>,
    message: &Message,
) -> Result<Vec<Stored<'t, 'a>>, Fault>
    ensures { (test : Test) (site : Site) (receive : AReceive) → event_by facts.now ≡ event_facts test.definitions site (event.Receive receive)
        → Stores test site (rules.redirects (scope_at test.definitions site) receive (message_by message.now)) result }
{
    let mut stored = redirected_value(alloc, &facts.value, &message.value)?;
    let Some(goal) = &facts.sender else {
        return Ok(stored);
    };
    let Some(sender) = &message.sender else {
        return Err(Fault::Dynamic);
    };
    if !fits_sender(sender, goal.wanted) {
        return Err(Fault::Dynamic);
    }
    let sender = sender.try_clone(alloc)?;
    stored.push(Stored {
        target: &goal.target,
        value: Value::Component(sender),
    })?;
    Ok(stored)
}
