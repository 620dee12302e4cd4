//! Expressions (section 7).
use crate::{Boxed, Name, Operator, Seq, Sign};

/// A name, and the fields behind it that lead into a record: `r.f.g`.
#[derive(Drop, PartialEq, Eq)]
pub struct Reference {
    pub name: Name,
    pub fields: Seq<Name>,
}

/// A component, by `self`, by `mtc`, or by what a name stands for.
#[derive(Drop, PartialEq, Eq)]
pub enum ComponentRef {
    /// `self`
    Itself,
    Mtc,
    Named(Reference),
}

/// An expression. Operands joined by operators of one binding level are one chain, read from left to right.
#[cycle(expression)]
#[derive(PartialEq, Eq)]
pub enum Expr {
    Int(u64),
    Bool(bool),
    Null,
    /// `self`, `mtc`, or what a name stands for: a variable of any type, a constant, a template ..
    Reference(ComponentRef),
    /// `c.running`: of a component or a timer.
    Running(ComponentRef),
    /// `ispresent(r.f)`
    Ispresent(Reference),
    Not(Boxed<Expr>),
    Signed(Sign, Boxed<Expr>),
    /// The first operand, and the operators with the operands behind them.
    Chain(Boxed<Expr>, Seq<Link>),
}

impl Drop for Expr {
    #[cycle(drop_expression)]
    fn drop(self) {
        match self {
            Expr::Int(_value) => {}
            Expr::Bool(_value) => {}
            Expr::Null => {}
            Expr::Reference(_reference) => {}
            Expr::Running(_component) => {}
            Expr::Ispresent(_reference) => {}
            Expr::Not(_operand) => {}
            Expr::Signed(_sign, _operand) => {}
            Expr::Chain(_first, _links) => {}
        }
    }
}

/// An operator and the operand behind it.
#[cycle(expression)]
#[derive(Drop, PartialEq, Eq)]
pub struct Link {
    pub operator: Operator,
    pub operand: Expr,
}
