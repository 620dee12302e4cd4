//! The ports of component types (ES 201 873-1, 6.2.10).
ghost use Rattle.std.specs.Prelude.{◌≡◌, Some, bytes_eq};
ghost use Rattle.std.specs.List.{list_any};
ghost use Rattle.std.specs.Option.{option_map};
ghost use Rattle.check_scope.specs.Names.{behind_members, members_of, module_names, names_on, port_type_meant};
ghost use Rattle.check_rules.specs.Messages.{port_meant};
ghost use Rattle.graph_sites.specs.internal.MemberNames.{declares, member_meaning};

use check_rules::{Definitions, port_meant};
use check_scope::scope::port_type_meant;
use ttcn_syntax::{Constant, DefinitionKind, Member, MemberVariable, Name, Timer};

/// The declarations of a component type.
fn members_of(kind: Option<&DefinitionKind>) -> &[Member]
    ensures { result.now ≡ members_of (option_map (λ kind. kind.now) kind.entry) }
{
    match kind {
        Some(DefinitionKind::Component(component)) => component.members.as_slice(),
        _ => &[],
    }
}

fn has_port(ports: &[Name], name: &Name) -> bool
    ensures { result ≡ list_any (λ port. bytes_eq port name.now) ports.now }
{
    ports.iter().any(|port| *port == *name)
}

fn has_constant(constants: &[Constant], name: &Name) -> bool
    ensures { result ≡ list_any (λ c. bytes_eq c.name name.now) constants.now }
{
    constants.iter().any(|constant| constant.name == *name)
}

fn has_variable(variables: &[MemberVariable], name: &Name) -> bool
    ensures { result ≡ list_any (λ v. bytes_eq v.name name.now) variables.now }
{
    variables.iter().any(|variable| variable.name == *name)
}

fn has_timer(timers: &[Timer], name: &Name) -> bool
    ensures { result ≡ list_any (λ t. bytes_eq t.name name.now) timers.now }
{
    timers.iter().any(|timer| timer.name == *name)
}

/// Whether a declaration of a component type declares a name.
fn declares(member: &Member, name: &Name) -> bool
    ensures { result ≡ declares member.now name.now }
{
    match member {
        Member::Ports(_port_type, ports) => has_port(ports.as_slice(), name),
        Member::Constants(declared) => has_constant(declared.constants.as_slice(), name),
        Member::Variables(_type_name, variables) => has_variable(variables.as_slice(), name),
        Member::Timers(timers) => has_timer(timers.as_slice(), name),
    }
}

/// Whether one of declarations declares a name.
fn any_declares(members: &[Member], name: &Name) -> bool
    ensures { result ≡ list_any (λ member. declares member name.now) members.now }
{
    members.iter().any(|member| declares(member, name))
}

/// The position of the port type that a name stands for behind declarations of a component type: none of them declares a
/// type.
fn port_type_behind(definitions: &Definitions<'_>, members: &[Member], name: &Name) -> Option<usize>
    ensures { result ≡ port_type_meant (behind_members (module_names definitions.now) members.now name.now) }
{
    if any_declares(members, name) {
        None
    } else {
        port_type_meant(definitions.meaning(name.as_bytes()))
    }
}

/// What each name of a declaration stands for as a port, behind other declarations.
fn port_declared(
    definitions: &Definitions<'_>,
    before: &[Member],
    member: &Member,
) -> Option<Option<usize>>
    ensures { result ≡ port_meant (Some (member_meaning (behind_members (module_names definitions.now) before.now) member.now)) }
{
    match member {
        Member::Ports(port_type, _ports) => Some(port_type_behind(definitions, before, port_type)),
        Member::Constants(_declared) => None,
        Member::Variables(_type_name, _variables) => None,
        Member::Timers(_timers) => None,
    }
}

/// What a name stands for as a port behind the declarations of a component type, of which the last one counts.
fn port_behind(
    definitions: &Definitions<'_>,
    members: &[Member],
    name: &Name,
) -> Option<Option<usize>>
    ensures { result ≡ port_meant (behind_members (module_names definitions.now) members.now name.now) }
{
    for at in (0..members.len()).rev() {
        let member = &members[at];
        if declares(member, name) {
            return port_declared(definitions, &members[..at], member);
        }
    }
    port_meant(definitions.meaning(name.as_bytes()))
}

/// The port of the component type at a position that a name stands for: the position of its type, if that is known.
pub fn port_type(
    definitions: &Definitions<'_>,
    component: usize,
    name: &Name,
) -> Option<Option<usize>>
    ensures { result ≡ port_meant (names_on definitions.now component name.now) }
{
    port_behind(definitions, members_of(definitions.kind(component)), name)
}
