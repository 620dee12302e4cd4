//! Modules and their definitions (sections 5, 6, 8, 10 and 16).
use crate::{
    Boxed, Branch, Constants, Name, Seq, Span, Statement, Template, Timer, TypeName, Value,
};

/// The definitions of a module, in the order of the text.
#[derive(PartialEq, Eq)]
pub struct Module {
    pub name: Name,
    pub definitions: Seq<Definition>,
}

impl Drop for Module {
    fn drop(self) {
        let Module {
            name: _name,
            definitions: _definitions,
        } = self;
    }
}

/// A definition, and where its first token stands.
#[derive(PartialEq, Eq)]
pub struct Definition {
    pub place: Span,
    pub kind: DefinitionKind,
}

impl Drop for Definition {
    fn drop(self) {
        let Definition {
            place: _place,
            kind: _kind,
        } = self;
    }
}

#[derive(PartialEq, Eq)]
pub enum DefinitionKind {
    Record(RecordType),
    Enumerated(EnumeratedType),
    Port(PortType),
    Component(ComponentType),
    Constants(Constants),
    Template(TemplateDefinition),
    Function(Function),
    Altstep(Altstep),
    Testcase(Testcase),
}

impl Drop for DefinitionKind {
    fn drop(self) {
        match self {
            DefinitionKind::Record(_definition) => {}
            DefinitionKind::Enumerated(_definition) => {}
            DefinitionKind::Port(_definition) => {}
            DefinitionKind::Component(_definition) => {}
            DefinitionKind::Constants(_constants) => {}
            DefinitionKind::Template(_definition) => {}
            DefinitionKind::Function(_definition) => {}
            DefinitionKind::Altstep(_definition) => {}
            DefinitionKind::Testcase(_definition) => {}
        }
    }
}

#[derive(PartialEq, Eq)]
pub struct RecordType {
    pub name: Name,
    pub fields: Seq<Field>,
}

impl Drop for RecordType {
    fn drop(self) {
        let RecordType {
            name: _name,
            fields: _fields,
        } = self;
    }
}

#[derive(PartialEq, Eq)]
pub struct Field {
    pub type_name: TypeName,
    pub name: Name,
    pub optional: bool,
}

impl Drop for Field {
    fn drop(self) {
        let Field {
            type_name: _type_name,
            name: _name,
            optional: _optional,
        } = self;
    }
}

#[derive(PartialEq, Eq)]
pub struct EnumeratedType {
    pub name: Name,
    pub enumerators: Seq<Enumerator>,
}

impl Drop for EnumeratedType {
    fn drop(self) {
        let EnumeratedType {
            name: _name,
            enumerators: _enumerators,
        } = self;
    }
}

/// A name of an enumeration, and its number where one is given.
#[derive(PartialEq, Eq)]
pub struct Enumerator {
    pub name: Name,
    pub number: Option<EnumNumber>,
}

impl Drop for Enumerator {
    fn drop(self) {
        let Enumerator {
            name: _name,
            number: _number,
        } = self;
    }
}

/// `3` or `-3`.
#[derive(Clone, Copy, Debug, PartialEq, Eq)]
pub struct EnumNumber {
    pub minus: bool,
    pub magnitude: u64,
}

/// A type of message ports.
#[derive(PartialEq, Eq)]
pub struct PortType {
    pub name: Name,
    pub messages: Seq<PortMessages>,
}

impl Drop for PortType {
    fn drop(self) {
        let PortType {
            name: _name,
            messages: _messages,
        } = self;
    }
}

/// The types of messages that a port lets pass in a direction.
#[derive(PartialEq, Eq)]
pub struct PortMessages {
    pub direction: Direction,
    pub types: Seq<TypeName>,
}

impl Drop for PortMessages {
    fn drop(self) {
        let PortMessages {
            direction: _direction,
            types: _types,
        } = self;
    }
}

#[derive(Clone, Copy, Debug, PartialEq, Eq)]
pub enum Direction {
    In,
    Out,
    Inout,
}

#[derive(PartialEq, Eq)]
pub struct ComponentType {
    pub name: Name,
    pub members: Seq<Member>,
}

impl Drop for ComponentType {
    fn drop(self) {
        let ComponentType {
            name: _name,
            members: _members,
        } = self;
    }
}

/// A declaration of a component type.
#[derive(PartialEq, Eq)]
pub enum Member {
    /// The type of the ports, and their names.
    Ports(Name, Seq<Name>),
    Constants(Constants),
    Variables(TypeName, Seq<MemberVariable>),
    Timers(Seq<Timer>),
}

impl Drop for Member {
    fn drop(self) {
        match self {
            Member::Ports(_type_name, _names) => {}
            Member::Constants(_constants) => {}
            Member::Variables(_type_name, _variables) => {}
            Member::Timers(_timers) => {}
        }
    }
}

/// A variable of a component type; its initial value is no call.
#[derive(PartialEq, Eq)]
pub struct MemberVariable {
    pub name: Name,
    pub value: Option<Value>,
}

impl Drop for MemberVariable {
    fn drop(self) {
        let MemberVariable {
            name: _name,
            value: _value,
        } = self;
    }
}

#[derive(PartialEq, Eq)]
pub struct Parameter {
    pub type_name: TypeName,
    pub name: Name,
}

impl Drop for Parameter {
    fn drop(self) {
        let Parameter {
            type_name: _type_name,
            name: _name,
        } = self;
    }
}

/// A named template. One without parameters may be written with `()` or without.
#[derive(PartialEq, Eq)]
pub struct TemplateDefinition {
    pub type_name: TypeName,
    pub name: Name,
    pub parameters: Seq<Parameter>,
    pub template: Boxed<Template>,
}

impl Drop for TemplateDefinition {
    fn drop(self) {
        let TemplateDefinition {
            type_name: _type_name,
            name: _name,
            parameters: _parameters,
            template: _template,
        } = self;
    }
}

#[derive(PartialEq, Eq)]
pub struct Function {
    pub name: Name,
    pub parameters: Seq<Parameter>,
    pub runs_on: Option<Name>,
    pub returns: Option<TypeName>,
    pub body: Seq<Statement>,
}

impl Drop for Function {
    fn drop(self) {
        let Function {
            name: _name,
            parameters: _parameters,
            runs_on: _runs_on,
            returns: _returns,
            body: _body,
        } = self;
    }
}

#[derive(PartialEq, Eq)]
pub struct Altstep {
    pub name: Name,
    pub parameters: Seq<Parameter>,
    pub runs_on: Option<Name>,
    pub branches: Seq<Branch>,
}

impl Drop for Altstep {
    fn drop(self) {
        let Altstep {
            name: _name,
            parameters: _parameters,
            runs_on: _runs_on,
            branches: _branches,
        } = self;
    }
}

#[derive(PartialEq, Eq)]
pub struct Testcase {
    pub name: Name,
    pub runs_on: Name,
    pub system: Option<Name>,
    pub body: Seq<Statement>,
}

impl Drop for Testcase {
    fn drop(self) {
        let Testcase {
            name: _name,
            runs_on: _runs_on,
            system: _system,
            body: _body,
        } = self;
    }
}
