//! Types (ES 201 873-1, section 6).

/// A type of values. A type that the module defines is its position among the definitions.
#[derive(Clone, Copy, Debug, PartialEq, Eq, Hash)]
pub enum DataType {
    Integer,
    Boolean,
    /// References to activated altsteps.
    Default,
    Record(usize),
    Enumerated(usize),
    /// References to components of the type.
    Component(usize),
}

/// What is known of an expression's type.
#[derive(Clone, Copy, Debug, PartialEq, Eq)]
pub enum Typing {
    Known(DataType),
    /// `null`, which is of every component type and of type `default`.
    Null,
    /// `mtc`, or `self` where nothing gives its type: of every component type.
    AnyComponent,
    /// A port or a timer, which is of no type.
    NoValue,
    /// A rule is broken in the expression, or in what a name in it stands for.
    Unknown,
}

/// What a value goes to: the type that is wanted, where it is known, and whether the value may be omitted.
#[derive(Clone, Copy, Debug, PartialEq, Eq)]
pub struct Target {
    pub data_type: Option<DataType>,
    pub optional: bool,
}
