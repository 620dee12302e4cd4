//! The language: its tokens and where they stand in a text, and the tree that they spell.
#![tactic(auto)]

mod boxed;
mod error;
mod lexer;
mod name;
mod operator;
mod piece;
mod place;
mod reading;
mod seq;
mod token;
mod tree;
mod words;

pub use boxed::Boxed;
pub use error::LexError;
pub use lexer::{LONGEST_TEXT, lex};
pub use name::Name;
pub use operator::{Level, Operator, Sign};
pub use piece::Piece;
pub use place::Span;
pub use reading::LARGEST_INTEGER;
pub use seq::Seq;
pub use token::{Spanned, Symbol, Token, Word};
pub use tree::{
    Action, Alternative, Altstep, Assignment, Bound, Branch, Call, ComponentRef, ComponentType,
    Conditional, Constant, Constants, Definition, DefinitionKind, Direction, EnumNumber,
    EnumeratedType, Enumerator, Event, Expr, Field, FieldTemplate, FieldValue, ForStart, Function,
    Link, LogItem, MapOperation, Mapping, Member, MemberVariable, MessageTemplate, Module,
    Parameter, PortMessages, PortRef, PortSelector, PortType, Receive, RecordType, Reference, Rhs,
    Send, Statement, Template, TemplateBody, TemplateDefinition, Testcase, Timer, TypeName, Value,
    Variable, Variables, Verdict,
};
pub use words::LeftOutWord;
