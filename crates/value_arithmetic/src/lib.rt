//! Arithmetic on integers of 64 bits (ES 201 873-1, section 7.1.1).
#![tactic(auto)]

ghost use Rattle.std.specs.Prelude.{◌≡◌, neg_ℤ, pos};
ghost use Rattle.value_arithmetic.specs.Integers.{calculated, within};

use ttcn_syntax::Operator;

/// A number of the text, where it is an integer.
pub fn number(digits: u64) -> Option<i64>
    ensures { result ≡ within (pos digits) }
{
    if digits <= 9_223_372_036_854_775_807 {
        Some(digits as i64)
    } else {
        None
    }
}

/// The number with the other sign, where that is an integer.
pub fn opposite(number: i64) -> Option<i64>
    ensures { result ≡ within (neg_ℤ number) }
{
    number.checked_neg()
}

/// What an operator of arithmetic gives: nothing where the divisor is 0 or the result is no integer.
pub fn calculate(operator: Operator, x: i64, y: i64) -> Option<i64>
    ensures { result ≡ calculated operator x y }
{
    match operator {
        Operator::Add => x.checked_add(y),
        Operator::Subtract => x.checked_sub(y),
        Operator::Multiply => x.checked_mul(y),
        Operator::Divide => x.checked_div(y),
        Operator::Rem if y == 0 => None,
        Operator::Rem => Some(x.wrapping_rem(y)),
        Operator::Mod if y == 0 => None,
        Operator::Mod => Some(x.wrapping_rem_euclid(y)),
        _ => None,
    }
}
