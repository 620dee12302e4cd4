//! The ports of new components (ES 201 873-1, 6.2.10).
ghost use Rattle.std.specs.Prelude.{◌≡◌, ◌++◌, IfOk, map};
ghost use Rattle.std.specs.List.{flat_map};
ghost use Rattle.step_create.specs.internal.Queues.{no_messages, queues_for};
ghost use Rattle.semantics.specs.Creating as rules;
ghost use Rattle.step_snapshot.specs.Slots.{NoneIsMissing};
ghost use Rattle.graph_names.specs.Known.{names_of_member};

use crate::types::declarations_of;
use config_parts::Queue;
use std::alloc::{AllocError, Global};
use step_snapshot::TestCase;
use ttcn_syntax::{Member, Name, Seq};

/// The ports that a declaration declares.
fn ports_of(member: &Member) -> &[Name]
    ensures { result.now ≡ rules.ports_of member.now }
{
    match member {
        Member::Ports(_, ports) => ports.as_slice(),
        Member::Constants(_) | Member::Variables(_, _) | Member::Timers(_) => &[],
    }
}

/// Ports come behind others, without messages.
fn add_ports(
    alloc: Global,
    test: &TestCase<'_>,
    queues: Vec<Queue>,
    ports: &[Name],
) -> Result<Vec<Queue>, AllocError>
    requires { NoneIsMissing test.now.names ports.now }
    ensures { IfOk result (λ new. queues_for test.now new.items ≡ queues_for test.now queues.items ++ map no_messages ports.now) }
{
    let mut queues = queues;
    for port in ports {
        queues.push(Queue {
            port: test.slot_of(port),
            messages: Seq::new(alloc),
        })?;
    }
    Ok(queues)
}

/// The ports of declarations, no message at any.
fn queues_of(
    alloc: Global,
    test: &TestCase<'_>,
    members: &[Member],
) -> Result<Vec<Queue>, AllocError>
    requires { NoneIsMissing test.now.names (flat_map names_of_member members.now) }
    ensures { IfOk result (λ new. queues_for test.now new.items ≡ map no_messages (flat_map rules.ports_of members.now)) }
{
    let mut queues = Vec::new(alloc);
    for member in members {
        queues = add_ports(alloc, test, queues, ports_of(member))?;
    }
    Ok(queues)
}

/// The ports of the component type at a position, no message at any.
pub(crate) fn empty_queues(
    alloc: Global,
    test: &TestCase<'_>,
    component_type: usize,
) -> Result<Seq<Queue>, AllocError>
    ensures { IfOk result (λ queues. queues_for test.now queues ≡ rules.empty_queues test.now.definitions component_type) }
{
    let queues = queues_of(alloc, test, declarations_of(test, component_type))?;
    Ok(Seq::from_vec(queues))
}
