//! What is known where a component stands.
ghost use Rattle.std.specs.Prelude.{◌≡◌, List, map, Option};
ghost use Rattle.check_scope.specs.declared.types.DataType.{DataType as ADataType};
ghost use Rattle.std.specs.Prelude.{Bool};
ghost use Rattle.graph_sites.specs.Facts as spec;
ghost use Rattle.graph_sites.specs.Facts.{event_by, facts_by, goal_by};

use check_rules::DataType;
use ttcn_graph::{EventFacts, Facts, Goal};

/// Where an assignment stores its value.
pub fn goal<'f, 'a>(facts: &'f Facts<'a>) -> &'f Goal<'a>
    requires { (goal : spec.Goal) × (facts_by facts.now ≡ spec.Stores goal) }
    ensures { facts_by facts.now ≡ spec.Stores (goal_by result.now) }
{
    match facts {
        Facts::Stores(goal) => goal,
        _ => unreachable!(),
    }
}

/// The type of what is declared.
pub fn declared_type(facts: &Facts<'_>) -> Option<DataType>
    ensures { (of : Option ADataType) → facts_by facts.now ≡ spec.Declares of → result ≡ of }
{
    match facts {
        Facts::Declares(of) => *of,
        _ => None,
    }
}

/// The type of the message that is sent.
pub fn sent_type(facts: &Facts<'_>) -> Option<DataType>
    ensures { (of : Option ADataType) → facts_by facts.now ≡ spec.Sends of → result ≡ of }
{
    match facts {
        Facts::Sends(of) => *of,
        _ => None,
    }
}

/// Whether a timer is the frame's own.
pub fn is_own(facts: &Facts<'_>) -> bool
    ensures { (own : Bool) → facts_by facts.now ≡ spec.Sets own → result ≡ own }
{
    match facts {
        Facts::Sets(own) => *own,
        _ => false,
    }
}

/// What is known of the events of the branches.
pub fn awaited<'f, 'a>(facts: &'f Facts<'a>) -> &'f [EventFacts<'a>]
    requires { (events : List spec.EventFacts) × (facts_by facts.now ≡ spec.Waits events) }
    ensures { facts_by facts.now ≡ spec.Waits (map event_by result.now) }
{
    match facts {
        Facts::Waits(events) => events.as_slice(),
        _ => unreachable!(),
    }
}
