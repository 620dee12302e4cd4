//! What the operators give (ES 201 873-1, section 7.1).
ghost use Rattle.std.specs.Prelude.{◌≡◌, pos};
ghost use Rattle.value_arithmetic.specs.Integers.{within};
ghost use Rattle.value_types.specs.Operations.{applied, compared, decides, fitting, logical, negated, ordered, under_sign};
ghost use Rattle.value_types.specs.Outcomes.{Answers, Gives};

use crate::{Fault, Value};
use ttcn_syntax::{Operator, Sign};

/// A whole number, where it is an integer.
pub(crate) fn fit(number: Option<i64>) -> Result<Value, Fault>
    ensures gives { Gives (fitting number) result }
    ensures answers { Answers result }
{
    match number {
        Some(number) => Ok(Value::Integer(number)),
        None => Err(Fault::Dynamic),
    }
}

/// The value of a number of the text.
pub(crate) fn number(digits: u64) -> Result<Value, Fault>
    ensures gives { Gives (fitting (within (pos digits))) result }
    ensures answers { Answers result }
{
    fit(value_arithmetic::number(digits))
}

pub(crate) fn negate(value: &Value) -> Result<Value, Fault>
    ensures gives { Gives (negated value.now) result }
    ensures answers { Answers result }
{
    match value {
        Value::Boolean(truth) => Ok(Value::Boolean(!*truth)),
        _ => Err(Fault::Dynamic),
    }
}

pub(crate) fn sign(sign: Sign, value: &Value) -> Result<Value, Fault>
    ensures gives { Gives (under_sign sign value.now) result }
    ensures answers { Answers result }
{
    match (sign, value) {
        (Sign::Plus, Value::Integer(number)) => Ok(Value::Integer(*number)),
        (Sign::Minus, Value::Integer(number)) => fit(value_arithmetic::opposite(*number)),
        _ => Err(Fault::Dynamic),
    }
}

/// Whether the right side doesn't count.
pub(crate) fn is_decided(operator: Operator, left: &Value) -> bool
    ensures { result ≡ decides operator left.now }
{
    match (operator, left) {
        (Operator::And, Value::Boolean(truth)) => !*truth,
        (Operator::Or, Value::Boolean(truth)) => *truth,
        _ => false,
    }
}

pub(crate) fn apply(operator: Operator, left: &Value, right: &Value) -> Result<Value, Fault>
    ensures gives { Gives (applied operator left.now right.now) result }
    ensures answers { Answers result }
{
    match operator {
        Operator::Equal => compare(true, left, right),
        Operator::NotEqual => compare(false, left, right),
        Operator::Or | Operator::Xor | Operator::And => match (left, right) {
            (Value::Boolean(a), Value::Boolean(b)) => reason(operator, *a, *b),
            _ => Err(Fault::Dynamic),
        },
        Operator::Less | Operator::Greater | Operator::LessEqual | Operator::GreaterEqual => {
            match (left, right) {
                (Value::Integer(x), Value::Integer(y)) => order(operator, *x, *y),
                _ => Err(Fault::Dynamic),
            }
        }
        _ => match (left, right) {
            (Value::Integer(x), Value::Integer(y)) => fit(value_arithmetic::calculate(
                operator, *x, *y,
            )),
            _ => Err(Fault::Dynamic),
        },
    }
}

/// Whether two values are equal, or are not, as it is wanted.
fn compare(wanted: bool, left: &Value, right: &Value) -> Result<Value, Fault>
    ensures gives { Gives (compared wanted left.now right.now) result }
    ensures answers { Answers result }
{
    if left.is_complete() && right.is_complete() {
        Ok(Value::Boolean(wanted == (left == right)))
    } else {
        Err(Fault::Dynamic)
    }
}

/// An order between integers.
fn order(operator: Operator, x: i64, y: i64) -> Result<Value, Fault>
    ensures gives { Gives (ordered operator x y) result }
    ensures answers { Answers result }
{
    match operator {
        Operator::Less => Ok(Value::Boolean(x < y)),
        Operator::Greater => Ok(Value::Boolean(y < x)),
        Operator::LessEqual => Ok(Value::Boolean(x <= y)),
        Operator::GreaterEqual => Ok(Value::Boolean(y <= x)),
        _ => Err(Fault::Dynamic),
    }
}

/// Logic on booleans.
fn reason(operator: Operator, a: bool, b: bool) -> Result<Value, Fault>
    ensures gives { Gives (logical operator a b) result }
    ensures answers { Answers result }
{
    match operator {
        Operator::Or => Ok(Value::Boolean(a || b)),
        Operator::And => Ok(Value::Boolean(a && b)),
        Operator::Xor => Ok(Value::Boolean(a != b)),
        _ => Err(Fault::Dynamic),
    }
}
