//! The names that component types declare.
ghost use Rattle.std.specs.Prelude.{◌≡◌, ℕ, map, IfOk, OnOk, Some};
ghost use Rattle.check_scope.specs.Names.{behind, behind_members, kind_at, member_entries, members_of, resolved};
ghost use Rattle.check_scope.specs.internal.Tables.{either, member, said};

use super::lookup::{built_in, port_type_meant, type_meant};
use crate::names::Meaning;
use crate::table::Table;
use crate::types::DataType;
use std::alloc::{AllocError, Global};
use ttcn_syntax::{
    Constant, Definition, DefinitionKind, Member, MemberVariable, Name, Timer, TypeName,
};

/// What has a name.
pub trait Named {
    ghost use Rattle.std.specs.Prelude.{ℕ, List};

    ghost named: { Self → List ℕ };

    fn name(&self) -> &Name
        ensures { result.now ≡ named self.now };
}

impl Named for Name {
    ghost named = { λ name. name };

    fn name(&self) -> &Name {
        self
    }
}

impl Named for Constant {
    ghost named = { λ constant. constant.name };

    fn name(&self) -> &Name {
        &self.name
    }
}

impl Named for MemberVariable {
    ghost named = { λ variable. variable.name };

    fn name(&self) -> &Name {
        &self.name
    }
}

impl Named for Timer {
    ghost named = { λ timer. timer.name };

    fn name(&self) -> &Name {
        &self.name
    }
}

/// Adds names that stand for the same.
fn add_all<'a, T: Named>(
    table: &mut Table<'a>,
    items: &'a [T],
    meaning: Meaning,
) -> Result<(), AllocError>
    ensures { OnOk result (said table.new ≡ behind (said table.old) (map (λ item. (T.named item, meaning)) items.now)) }
{
    for item in items {
        table.insert(item.name().as_bytes(), meaning)?;
    }
    Ok(())
}

/// What a name stands for within a component type.
fn get(table: &Table<'_>, defined: &Table<'_>, name: &Name) -> Option<Meaning>
    ensures { result ≡ either (said table.now) (said defined.now) name.now }
{
    match table.get(name.as_bytes()) {
        Some(meaning) => Some(meaning),
        None => defined.get(name.as_bytes()),
    }
}

/// The type that a declaration of a component type names.
fn resolved(table: &Table<'_>, defined: &Table<'_>, type_name: &TypeName) -> Option<DataType>
    ensures { result ≡ resolved (either (said table.now) (said defined.now)) type_name.now }
{
    match type_name {
        TypeName::Named(name) => type_meant(get(table, defined, name)),
        _ => built_in(type_name),
    }
}

/// Adds what a component type declares, behind what it declared before.
#[tactic(auto, using(crate::proofs::Entries::either_behind))]
fn add_member<'a>(
    table: &mut Table<'a>,
    defined: &Table<'_>,
    member: &'a Member,
) -> Result<(), AllocError>
    ensures { OnOk result (either (said table.new) (said defined.now) ≡ behind (either (said table.old) (said defined.now))
        (member_entries (either (said table.old) (said defined.now)) member.now)) }
{
    match member {
        Member::Ports(port_type, ports) => {
            let of = port_type_meant(get(table, defined, port_type));
            add_all(table, ports.as_slice(), Meaning::Port(of))?;
        }
        Member::Constants(constants) => {
            let of = resolved(table, defined, &constants.type_name);
            add_all(table, constants.constants.as_slice(), Meaning::Constant(of))?;
        }
        Member::Variables(type_name, variables) => {
            let of = resolved(table, defined, type_name);
            add_all(table, variables.as_slice(), Meaning::Variable(of))?;
        }
        Member::Timers(timers) => add_all(table, timers.as_slice(), Meaning::Timer)?,
    }
    Ok(())
}

/// What a component type declares.
fn table_of<'a>(
    alloc: Global,
    defined: &Table<'_>,
    members: &'a [Member],
) -> Result<Table<'a>, AllocError>
    ensures { IfOk result (λ table. either (said table) (said defined.now) ≡ behind_members (said defined.now) members.now) }
{
    let mut table = Table::new(alloc);
    for member in members {
        add_member(&mut table, defined, member)?;
    }
    Ok(table)
}

/// The declarations of a component type.
fn members_of(kind: &DefinitionKind) -> &[Member]
    ensures { result.now ≡ members_of (Some kind.now) }
{
    match kind {
        DefinitionKind::Component(component) => component.members.as_slice(),
        _ => &[],
    }
}

/// For each definition what it declares, if it is a component type.
pub(super) fn tables_of<'a>(
    alloc: Global,
    defined: &Table<'_>,
    definitions: &'a [Definition],
) -> Result<Vec<Table<'a>>, AllocError>
    ensures { IfOk result (λ tables. (at : ℕ) → either (member tables.items (Some at)) (said defined.now)
        ≡ behind_members (said defined.now) (members_of (kind_at definitions.now at))) }
{
    let mut tables = Vec::new(alloc);
    for definition in definitions {
        let table = table_of(alloc, defined, members_of(&definition.kind))?;
        tables.push(table)?;
    }
    Ok(tables)
}
