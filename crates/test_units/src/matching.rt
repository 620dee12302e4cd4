//! Matching that no module asks for.
use std::alloc::{AllocError, Global};
use std::test::Fail;
use ttcn_syntax::Seq;
use ttcn_values::{Pattern, Template, Value, matches};

fn template(pattern: Pattern, ifpresent: bool) -> Template {
    Template { pattern, ifpresent }
}

/// The templates `2` and `5`.
fn numbers(alloc: Global) -> Result<Seq<Template>, AllocError> {
    let mut numbers = Seq::new(alloc);
    for number in [2, 5] {
        numbers.push(template(Pattern::Value(Value::Integer(number)), false))?;
    }
    Ok(numbers)
}

/// Templates that stand in fields alone, at a truth.
#[test]
fn truths(rt: HostRuntime) -> Result<(), Fail> {
    let truth = Value::Boolean(true);
    assert!(rt; matches(&template(Pattern::AnyOrOmit, false), &truth));
    assert!(rt; !matches(&template(Pattern::Omit, false), &truth));
    assert!(rt; !matches(&template(Pattern::Value(Value::Integer(5)), true), &truth));
    let neither = template(Pattern::Complement(numbers(rt.alloc())?), true);
    assert!(rt; matches(&neither, &truth));
    Ok(())
}

/// A template of a record of two fields, at a record of its first field.
#[test]
fn records_of_other_lengths(rt: HostRuntime) -> Result<(), Fail> {
    let alloc = rt.alloc();
    let two = template(Pattern::Record(7, numbers(alloc)?), false);
    let mut fields = Seq::new(alloc);
    fields.push(Some(Value::Integer(2)))?;
    assert!(rt; !matches(&two, &Value::Record(7, fields)));
    Ok(())
}
