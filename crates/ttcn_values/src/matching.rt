//! When a template matches a value (ES 201 873-1, section 15 and annex B).
ghost use Rattle.std.specs.Prelude.{◌≡◌, map};
ghost use Rattle.std.specs.List.{list_any};
ghost use Rattle.value_types.specs.Matching.{in_range, is_match, is_match_of_pattern, match_fields};
ghost use Rattle.value_types.specs.Values.{integer};

use crate::{Pattern, Template, Value};

/// Whether a template matches a value, or an omitted field.
#[cycle(matching)]
pub fn matches(template: &Template, value: &Value) -> bool
    ensures { result ≡ is_match template.now value.now }
{
    (template.ifpresent && value.is_omit()) || matches_pattern(&template.pattern, value)
}

#[cycle(matching)]
#[tactic(auto, using(crate::proofs::MatchForms::list_forms))]
fn matches_pattern(pattern: &Pattern, value: &Value) -> bool
    ensures { result ≡ is_match_of_pattern pattern.now value.now }
{
    match pattern {
        Pattern::Value(wanted) => wanted == value,
        Pattern::Any => !value.is_omit(),
        Pattern::AnyOrOmit => true,
        Pattern::Omit => value.is_omit(),
        Pattern::Complement(parts) => !value.is_omit() && !matches_any(parts.as_slice(), value),
        Pattern::List(parts) => matches_any(parts.as_slice(), value),
        Pattern::Range(low, high) => is_within(*low, *high, value),
        Pattern::Record(at, parts) => match value {
            Value::Record(other, fields) => {
                at == other && matches_fields(parts.as_slice(), fields.as_slice())
            }
            _ => false,
        },
    }
}

#[cycle(matching)]
fn matches_any(parts: &[Template], value: &Value) -> bool
    ensures { result ≡ list_any (λ part. is_match part value.now) parts.now }
{
    for part in parts {
        if matches(part, value) {
            return true;
        }
    }
    false
}

#[cycle(matching)]
#[tactic(auto, using(crate::proofs::MatchForms::other_length))]
fn matches_fields(parts: &[Template], fields: &[Option<Value>]) -> bool
    ensures { result ≡ match_fields (map is_match parts.now) fields.now }
{
    if parts.len() != fields.len() {
        return false;
    }
    for (part, field) in parts.iter().zip(fields) {
        match field {
            Some(value) if matches(part, value) => {}
            _ => return false,
        }
    }
    true
}

/// Whether the value is an integer within the bounds.
fn is_within(low: Option<i64>, high: Option<i64>, value: &Value) -> bool
    ensures { result ≡ in_range low high (integer value.now) }
{
    let Value::Integer(number) = value else {
        return false;
    };
    low.is_none_or(|low| low <= *number) && high.is_none_or(|high| *number <= high)
}
