//! Why an expression is a dynamic error (ES 201 873-1, 7): its first innermost part that is one.
use crate::operation::{applied, is_decided};
use crate::sight::{Sight, not_found};
use std::alloc::{AllocError, Global};
use ttcn_syntax::{Expr, Link};
use value_types::Value;

/// What an operator and an operand behind a value give.
#[derive(Drop)]
enum Linked {
    Value(Value),
    /// Why it is a dynamic error.
    Failure(String),
}

impl<'a> Sight<'a> {
    /// Why an expression is a dynamic error.
    pub(crate) fn expression(
        &self,
        alloc: Global,
        expr: &Expr,
    ) -> Result<Option<String>, AllocError> {
        if !self.fails(alloc, expr)? {
            return Ok(None);
        }
        match expr {
            Expr::Int(_) | Expr::Bool(_) | Expr::Null => not_found(alloc),
            Expr::Reference(component) | Expr::Running(component) => {
                self.component(alloc, component)
            }
            Expr::Ispresent(reference) => self.presence(alloc, reference),
            Expr::Not(operand) => self.expression(alloc, operand.get()),
            Expr::Signed(_, operand) => match self.expression(alloc, operand.get())? {
                Some(cause) => Ok(Some(cause)),
                None => self.signed(alloc, operand.get()),
            },
            Expr::Chain(first, links) => {
                if let Some(cause) = self.expression(alloc, first.get())? {
                    return Ok(Some(cause));
                }
                let mut left = self.value_or_null(alloc, first.get())?;
                for link in links.as_slice() {
                    if !is_decided(link.operator, &left) {
                        if let Some(cause) = self.expression(alloc, &link.operand)? {
                            return Ok(Some(cause));
                        }
                        left = match self.linked(alloc, &left, link)? {
                            Linked::Value(value) => value,
                            Linked::Failure(cause) => return Ok(Some(cause)),
                        };
                    }
                }
                not_found(alloc)
            }
        }
    }

    /// The value of an expression, or `null` where it has none.
    fn value_or_null(&self, alloc: Global, expr: &Expr) -> Result<Value, AllocError> {
        match self.value(alloc, expr)? {
            Some(value) => Ok(value),
            None => Ok(Value::Null),
        }
    }

    /// What an operator and an operand that has a value give behind a value.
    fn linked(&self, alloc: Global, left: &Value, link: &Link) -> Result<Linked, AllocError> {
        let right = self.value_or_null(alloc, &link.operand)?;
        match applied(link.operator, left, &right) {
            Some(value) => Ok(Linked::Value(value)),
            None => {
                let cause = self.misapplied(alloc, link.operator, left, &right)?;
                Ok(Linked::Failure(cause))
            }
        }
    }

    /// Why a sign before an expression that has a value is a dynamic error.
    fn signed(&self, alloc: Global, operand: &Expr) -> Result<Option<String>, AllocError> {
        let mut text = String::from_str(alloc, "the result doesn't fit into 64 bits: -")?;
        match self.value(alloc, operand)? {
            Some(value) => self.names.write_value(&mut text, &value)?,
            None => return not_found(alloc),
        }
        Ok(Some(text))
    }
}
