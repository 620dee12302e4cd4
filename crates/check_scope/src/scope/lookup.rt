//! What names stand for at a place.
ghost use Rattle.std.specs.Prelude.{◌≡◌, None};
ghost use Rattle.std.specs.Option.{option_map};
ghost use Rattle.check_scope.specs.internal.Checking.{view};
ghost use Rattle.check_scope.specs.PortTypes.{types_of_port};
ghost use Rattle.check_scope.specs.Names.{constants_type, field_named, fields_at, kind_at, module_names, port_type_meant, resolved, type_meant};
ghost use Rattle.check_scope.specs.internal.Tables.{member, said, said_in};
ghost use Rattle.check_scope.specs.internal.Traffic.{types_through};

use super::Scope;
use super::fields::{field_at, fields_of};
use super::ports::traffic_at;
use crate::names::Meaning;
use crate::table::Table;
use crate::traffic::Traffic;
use crate::types::DataType;
use ttcn_syntax::{Definition, DefinitionKind, Field, Name, TypeName};

impl<'a> Scope<'a> {
    /// What a name stands for.
    pub fn get(&self, name: &[u8]) -> Option<Meaning>
        ensures { result ≡ (view self.now).names name.now }
    {
        if let Some(meaning) = self.locals.get(name) {
            return Some(meaning);
        }
        if let Some(meaning) = self.in_blocks(name) {
            return Some(meaning);
        }
        if let Some(meaning) = self.member(name) {
            return Some(meaning);
        }
        self.defined.get(name)
    }

    fn in_blocks(&self, name: &[u8]) -> Option<Meaning>
        ensures { result ≡ said_in self.now.blocks.items name.now }
    {
        let mut found = None;
        for block in self.blocks.as_slice() {
            if let Some(meaning) = block.get(name) {
                found = Some(meaning);
            }
        }
        found
    }

    fn member(&self, name: &[u8]) -> Option<Meaning>
        ensures { result ≡ member self.now.members.items self.now.runs_on name.now }
    {
        self.members.get(self.runs_on?)?.get(name)
    }

    /// What a name stands for in the whole module.
    pub fn in_module(&self, name: &[u8]) -> Option<Meaning>
        ensures { result ≡ module_names self.now.definitions.now name.now }
    {
        self.defined.get(name)
    }

    /// The component type that `self` is of.
    pub fn itself(&self) -> Option<usize>
        ensures { result ≡ (view self.now).itself }
    {
        self.itself
    }

    /// What is defined at a position.
    pub fn kind(&self, at: usize) -> Option<&'a DefinitionKind>
        ensures { option_map (λ kind. kind.now) result ≡ kind_at (view self.now).definitions at }
    {
        kind_at(self.definitions, at)
    }

    /// The fields of the record at a position.
    pub fn fields(&self, at: usize) -> &'a [Field]
        ensures { result.now ≡ fields_at (view self.now).definitions at }
    {
        match self.kind(at) {
            Some(kind) => fields_of(kind),
            None => &[],
        }
    }

    /// The field of a name of the record at a position.
    pub fn field(&self, at: usize, name: &Name) -> Option<&'a Field>
        ensures { option_map (λ field. field.now) result ≡ field_named name.now (fields_at (view self.now).definitions at) }
    {
        field_at(self.fields_by_name.as_slice(), at, name)
    }

    /// What passes at ports of the type at a position.
    pub fn traffic(&self, at: usize) -> Option<&Traffic>
        ensures { types_through (option_map (λ traffic. traffic.now) result) ≡ (λ incoming. types_of_port (module_names (view self.now).definitions) incoming (kind_at (view self.now).definitions at)) }
    {
        traffic_at(self.ports.as_slice(), at)
    }

    /// The type that a declaration names.
    pub fn resolved(&self, type_name: &TypeName) -> Option<DataType>
        ensures { result ≡ resolved (view self.now).names type_name.now }
    {
        match type_name {
            TypeName::Named(name) => type_meant(self.get(name.as_bytes())),
            _ => built_in(type_name),
        }
    }

    /// The type that a definition of the module names.
    pub fn resolved_in_module(&self, type_name: &TypeName) -> Option<DataType>
        ensures { result ≡ resolved (module_names self.now.definitions.now) type_name.now }
    {
        resolved_in(&self.defined, type_name)
    }

    /// The type of the constants at a position.
    pub fn constants_type(&self, at: usize) -> Option<DataType>
        ensures { result ≡ constants_type (module_names self.now.definitions.now) (kind_at self.now.definitions.now at) }
    {
        match self.kind(at) {
            Some(DefinitionKind::Constants(constants)) => {
                self.resolved_in_module(&constants.type_name)
            }
            _ => None,
        }
    }
}

/// What is defined at a position, or `None` behind the last definition.
pub fn kind_at(definitions: &[Definition], at: usize) -> Option<&DefinitionKind>
    ensures { option_map (λ kind. kind.now) result ≡ kind_at definitions.now at }
{
    Some(&definitions.get(at)?.kind)
}

/// The type that is named where a table says what names stand for.
pub fn resolved_in(table: &Table<'_>, type_name: &TypeName) -> Option<DataType>
    ensures { result ≡ resolved (said table.now) type_name.now }
{
    match type_name {
        TypeName::Named(name) => type_meant(table.get(name.as_bytes())),
        _ => built_in(type_name),
    }
}

/// The position of the port type that a name stands for.
pub fn port_type_meant(meaning: Option<Meaning>) -> Option<usize>
    ensures { result ≡ port_type_meant meaning }
{
    match meaning {
        Some(Meaning::PortType(at)) => Some(at),
        _ => None,
    }
}

/// The type that a word of the language names.
pub fn built_in(type_name: &TypeName) -> Option<DataType>
    ensures { result ≡ resolved (λ name. None) type_name.now }
{
    match type_name {
        TypeName::Integer => Some(DataType::Integer),
        TypeName::Boolean => Some(DataType::Boolean),
        TypeName::Default => Some(DataType::Default),
        TypeName::Named(_) => None,
    }
}

/// The type that a name stands for.
pub fn type_meant(meaning: Option<Meaning>) -> Option<DataType>
    ensures { result ≡ type_meant meaning }
{
    match meaning {
        Some(Meaning::Record(at)) => Some(DataType::Record(at)),
        Some(Meaning::Enumerated(at)) => Some(DataType::Enumerated(at)),
        Some(Meaning::Component(at)) => Some(DataType::Component(at)),
        _ => None,
    }
}
