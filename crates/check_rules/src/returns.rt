//! What a behaviour may return.
use check_scope::types::DataType;

/// Whether `return` may stand in a behaviour, and with what.
#[derive(Clone, Copy, Debug, PartialEq, Eq)]
pub enum Returns {
    /// An altstep or a test case.
    Nowhere,
    /// A function without a result.
    WithoutValue,
    /// A function with a result; its type is unknown where its declaration breaks a rule.
    WithValue(Option<DataType>),
}
