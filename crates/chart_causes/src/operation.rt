//! Operators on values (ES 201 873-1, 7.1).
use crate::sight::Sight;
use std::alloc::{AllocError, Global};
use std::fmt::Write;
use ttcn_syntax::Operator;
use value_arithmetic::calculate;
use value_types::Value;

/// An operator as it is written.
fn spelling(operator: Operator) -> &'static str {
    match operator {
        Operator::Or => "or",
        Operator::Xor => "xor",
        Operator::And => "and",
        Operator::Equal => "==",
        Operator::NotEqual => "!=",
        Operator::Less => "<",
        Operator::Greater => ">",
        Operator::LessEqual => "<=",
        Operator::GreaterEqual => ">=",
        Operator::Add => "+",
        Operator::Subtract => "-",
        Operator::Multiply => "*",
        Operator::Divide => "/",
        Operator::Mod => "mod",
        Operator::Rem => "rem",
    }
}

/// Whether an operator divides.
fn divides(operator: Operator) -> bool {
    matches!(operator, Operator::Divide | Operator::Mod | Operator::Rem)
}

/// Whether the operand behind an operator isn't evaluated.
pub(crate) fn is_decided(operator: Operator, left: &Value) -> bool {
    match (operator, left) {
        (Operator::And, Value::Boolean(truth)) => !*truth,
        (Operator::Or, Value::Boolean(truth)) => *truth,
        _ => false,
    }
}

/// What an operator gives of two truths.
fn of_truths(operator: Operator, left: bool, right: bool) -> Option<Value> {
    match operator {
        Operator::Or => Some(Value::Boolean(left || right)),
        Operator::And => Some(Value::Boolean(left && right)),
        Operator::Xor => Some(Value::Boolean(left != right)),
        _ => None,
    }
}

/// What an operator gives of two integers.
fn of_integers(operator: Operator, left: i64, right: i64) -> Option<Value> {
    match operator {
        Operator::Less => Some(Value::Boolean(left < right)),
        Operator::Greater => Some(Value::Boolean(left > right)),
        Operator::LessEqual => Some(Value::Boolean(left <= right)),
        Operator::GreaterEqual => Some(Value::Boolean(left >= right)),
        _ => match calculate(operator, left, right) {
            Some(number) => Some(Value::Integer(number)),
            None => None,
        },
    }
}

/// Whether two values are equal, where neither lacks a value.
fn compared(wanted: bool, left: &Value, right: &Value) -> Option<Value> {
    if left.is_complete() && right.is_complete() {
        Some(Value::Boolean((*left == *right) == wanted))
    } else {
        None
    }
}

/// What an operator gives of two values, where that is no dynamic error.
pub(crate) fn applied(operator: Operator, left: &Value, right: &Value) -> Option<Value> {
    match (operator, left, right) {
        (Operator::Equal, _, _) => compared(true, left, right),
        (Operator::NotEqual, _, _) => compared(false, left, right),
        (_, Value::Boolean(left), Value::Boolean(right)) => of_truths(operator, *left, *right),
        (_, Value::Integer(left), Value::Integer(right)) => of_integers(operator, *left, *right),
        _ => None,
    }
}

impl<'a> Sight<'a> {
    /// Why an operator gives nothing of two integers: `division by zero: 1 / 0`.
    fn without_result(
        &self,
        alloc: Global,
        operator: Operator,
        left: i64,
        right: i64,
    ) -> Result<String, AllocError> {
        let word = spelling(operator);
        if divides(operator) && right == 0 {
            format!(in alloc; "division by zero: {left} {word} {right}")
        } else {
            format!(in alloc; "the result doesn't fit into 64 bits: {left} {word} {right}")
        }
    }

    /// Why an operator gives nothing of two values.
    pub(crate) fn misapplied(
        &self,
        alloc: Global,
        operator: Operator,
        left: &Value,
        right: &Value,
    ) -> Result<String, AllocError> {
        match (left, right) {
            (Value::Integer(left), Value::Integer(right)) => {
                self.without_result(alloc, operator, *left, *right)
            }
            _ if !left.is_complete() => self.lacking(alloc, left),
            _ if !right.is_complete() => self.lacking(alloc, right),
            _ => Ok(String::new(alloc)),
        }
    }
}
