//! What the expressions of a component read where it stands.
use crate::names::Names;
use crate::outcome::{fails, given};
use std::alloc::{AllocError, Global};
use std::fmt::Write;
use ttcn_syntax::Expr;
use ttcn_values::eval;
use value_types::{Frame, Value};

/// What expressions read at a place, and what gives names. Its questions are answered by the cause of a dynamic error: none
/// where there is no error, and empty words where the cause isn't found.
#[derive(Clone, Copy)]
pub(crate) struct Sight<'a> {
    pub(crate) names: Names<'a>,
    pub(crate) frame: Frame<'a>,
}

/// A cause that isn't found.
pub(crate) fn not_found(alloc: Global) -> Result<Option<String>, AllocError> {
    Ok(Some(String::new(alloc)))
}

impl<'a> Sight<'a> {
    /// The value of an expression, where it is no dynamic error.
    pub(crate) fn value(&self, alloc: Global, expr: &Expr) -> Result<Option<Value>, AllocError> {
        given(eval(alloc, expr, &self.frame))
    }

    /// Whether an expression is a dynamic error.
    pub(crate) fn fails(&self, alloc: Global, expr: &Expr) -> Result<bool, AllocError> {
        fails(eval(alloc, expr, &self.frame))
    }

    /// A record that lacks a value, where one is wanted that lacks none: `{1, -} has no value in its field content`.
    pub(crate) fn lacking(&self, alloc: Global, value: &Value) -> Result<String, AllocError> {
        let mut text = String::new(alloc);
        self.names.write_value(&mut text, value)?;
        write!(text, " has no value in its field ")?;
        self.names.write_gap(&mut text, value)?;
        Ok(text)
    }
}
