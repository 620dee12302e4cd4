//! What names stand for (ES 201 873-1, section 5.2).
use crate::types::DataType;

/// What a visible name stands for. Positions are those among the module's definitions. The last four are declared in component types and behaviours, and no name of the whole module stands for one.
#[derive(Clone, Copy, Debug, PartialEq, Eq)]
pub enum Meaning {
    /// The record type at a position.
    Record(usize),
    /// The enumeration at a position.
    Enumerated(usize),
    /// The type of ports at a position.
    PortType(usize),
    /// The component type at a position.
    Component(usize),
    /// A name of the enumeration at a position.
    Enumerator(usize),
    /// A constant of the module: the position of its declaration, and its own place among the constants of that.
    ModuleConstant(usize, usize),
    /// The template at a position.
    Template(usize),
    /// The function at a position.
    Function(usize),
    /// The altstep at a position.
    Altstep(usize),
    /// The test case at a position.
    Testcase(usize),
    /// A variable or a parameter; its type is unknown where its declaration breaks a rule.
    Variable(Option<DataType>),
    /// A constant of a component type or a block; its type is unknown where its declaration breaks a rule.
    Constant(Option<DataType>),
    /// A port, with the position of its type, which is unknown where its declaration breaks a rule.
    Port(Option<usize>),
    /// A timer.
    Timer,
}
