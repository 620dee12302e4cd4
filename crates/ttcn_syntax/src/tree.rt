//! The tree of a module: what the text says, in the standard's terms (ES 201 873-1).
//!
//! Parentheses leave no trace in it, nor do `language`, `control` and `with`. What a text may write without end is a
//! list; only what stands within brackets nests.
//!
//! Drops are written out: a crate that drops a tree by a derived one proves the drops of all types in it once more. In a
//! cycle of types one is written out, which ends that proof.
mod definition;
mod expression;
mod statement;
mod template;
mod value;

pub use definition::{
    Altstep, ComponentType, Definition, DefinitionKind, Direction, EnumNumber, EnumeratedType,
    Enumerator, Field, Function, Member, MemberVariable, Module, Parameter, PortMessages, PortType,
    RecordType, TemplateDefinition, Testcase,
};
pub use expression::{ComponentRef, Expr, Link, Reference};
pub use statement::{
    Action, Alternative, Assignment, Branch, Conditional, Constant, Constants, Event, ForStart,
    LogItem, MapOperation, Mapping, PortRef, PortSelector, Receive, Send, Statement, Timer,
    Variable, Variables, Verdict,
};
pub use template::{Bound, FieldTemplate, MessageTemplate, Template, TemplateBody};
pub use value::{Call, FieldValue, Rhs, TypeName, Value};
