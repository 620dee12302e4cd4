//! Values, calls, and what may stand on the right of `:=`.
use crate::{Expr, Name, Seq};

/// A type, as a declaration names it.
#[derive(PartialEq, Eq)]
pub enum TypeName {
    Integer,
    Boolean,
    Default,
    Named(Name),
}

impl Drop for TypeName {
    fn drop(self) {
        match self {
            TypeName::Integer => {}
            TypeName::Boolean => {}
            TypeName::Default => {}
            TypeName::Named(_name) => {}
        }
    }
}

/// A value: an expression, `omit`, or a record literal.
#[cycle(value)]
#[derive(PartialEq, Eq)]
pub enum Value {
    Expr(Expr),
    Omit,
    /// `{ 1, 2 }`: the fields by their order.
    Listed(Seq<Value>),
    /// `{ f := 1, g := 2 }`: the fields by their names.
    Assigned(Seq<FieldValue>),
}

impl Drop for Value {
    #[cycle(drop_value)]
    fn drop(self) {
        match self {
            Value::Expr(_expression) => {}
            Value::Omit => {}
            Value::Listed(_values) => {}
            Value::Assigned(_fields) => {}
        }
    }
}

/// A field of a record literal.
#[cycle(value)]
#[derive(Drop, PartialEq, Eq)]
pub struct FieldValue {
    pub name: Name,
    pub value: Value,
}

/// A name with arguments: of a function, an altstep, a test case or a template.
#[derive(PartialEq, Eq)]
pub struct Call {
    pub name: Name,
    pub arguments: Seq<Value>,
}

impl Drop for Call {
    fn drop(self) {
        let Call {
            name: _name,
            arguments: _arguments,
        } = self;
    }
}

/// What may stand on the right of `:=`.
#[derive(PartialEq, Eq)]
pub enum Rhs {
    Value(Value),
    /// `C.create`
    Create(Name),
    Call(Call),
    Activate(Call),
}

impl Drop for Rhs {
    fn drop(self) {
        match self {
            Rhs::Value(_value) => {}
            Rhs::Create(_component) => {}
            Rhs::Call(_call) => {}
            Rhs::Activate(_call) => {}
        }
    }
}
