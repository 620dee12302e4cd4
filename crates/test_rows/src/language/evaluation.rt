//! What a module's `A` gives, and whether its `T` matches that or which value it is.
use crate::language::notation::notation;
use std::alloc::{AllocError, Global};
use ttcn_syntax::{Action, DefinitionKind, Seq, Value as Written};
use ttcn_types::{DataType, Definitions, Meaning};
use ttcn_values::{
    ComponentId, Fault, Frame, Path, Template, Value, eval_template, eval_value, matches,
};

/// What is answered of a module: what `A` gives, or whether `T` matches that; where there is no `A`, which value `T` is.
pub fn answer_of_module(
    alloc: Global,
    definitions: &Definitions<'_>,
) -> Result<String, AllocError> {
    let itself = component(alloc, &[1])?;
    let mtc = component(alloc, &[])?;
    let running = [&mtc.path];
    let frame = Frame {
        definitions: &*definitions,
        names: &[],
        locals: &[],
        members: &[],
        local_timers: &[],
        member_timers: &[],
        running: &running,
        itself: &itself,
        mtc: &mtc,
    };
    answer_in(alloc, definitions, &frame)
}

/// The same, where expressions read a frame.
fn answer_in(
    alloc: Global,
    definitions: &Definitions<'_>,
    frame: &Frame<'_>,
) -> Result<String, AllocError> {
    let template = match definitions.meaning(b"T") {
        Some(Meaning::Template(at)) => Some(at),
        _ => None,
    };
    match (subject(definitions), template) {
        (Some((written, wanted)), Some(at)) => {
            let value = eval_value(alloc, written, wanted, frame);
            matched(alloc, frame, at, value)
        }
        (Some((written, wanted)), None) => {
            let value = eval_value(alloc, written, wanted, frame);
            given(alloc, definitions, value)
        }
        (None, Some(at)) => specific(alloc, frame, at),
        (None, None) => String::from_str(alloc, "no A"),
    }
}

/// The path of these numbers.
pub fn path(alloc: Global, numbers: &[u32]) -> Result<Path, AllocError> {
    let numbers = Vec::from_slice(alloc, numbers)?;
    Ok(Path {
        numbers: Seq::from_vec(numbers),
    })
}

/// The MTC, or another component.
pub fn component(alloc: Global, numbers: &[u32]) -> Result<ComponentId, AllocError> {
    Ok(ComponentId {
        path: path(alloc, numbers)?,
        component_type: 0,
    })
}

/// The value of the constant `A` and its type, or what stands behind `return` where the function `A` begins.
fn subject<'a>(definitions: &Definitions<'a>) -> Option<(&'a Written, Option<DataType>)> {
    match definitions.meaning(b"A")? {
        Meaning::ModuleConstant(at, item) => {
            let constant = definitions.constant(at, item)?;
            Some((&constant.value, definitions.constants_type(at)))
        }
        Meaning::Function(at) => returned(definitions, at),
        _ => None,
    }
}

/// What stands behind `return` where the function at a position begins, and the type of that.
fn returned<'a>(
    definitions: &Definitions<'a>,
    at: usize,
) -> Option<(&'a Written, Option<DataType>)> {
    let DefinitionKind::Function(function) = definitions.kind(at)? else {
        return None;
    };
    match function.body.as_slice().first()?.action.get() {
        Action::Return(Some(value)) => {
            let wanted = function
                .returns
                .as_ref()
                .and_then(|name| definitions.resolved(name));
            Some((value, wanted))
        }
        _ => None,
    }
}

/// What `A` gives.
pub fn given(
    alloc: Global,
    definitions: &Definitions<'_>,
    value: Result<Value, Fault>,
) -> Result<String, AllocError> {
    match value {
        Ok(value) => notation(alloc, definitions, &value),
        Err(Fault::Dynamic) => String::from_str(alloc, "dynamic error"),
        Err(Fault::Memory) => Err(AllocError),
    }
}

/// Whether the template at a position matches what `A` gives.
fn matched(
    alloc: Global,
    frame: &Frame<'_>,
    at: usize,
    value: Result<Value, Fault>,
) -> Result<String, AllocError> {
    let value = match value {
        Ok(value) => value,
        Err(Fault::Dynamic) => return String::from_str(alloc, "A is a dynamic error"),
        Err(Fault::Memory) => return Err(AllocError),
    };
    match template(alloc, frame, at) {
        Ok(template) => String::from_str(alloc, match_word(matches(&template, &value))),
        Err(Fault::Dynamic) => String::from_str(alloc, "dynamic error"),
        Err(Fault::Memory) => Err(AllocError),
    }
}

/// The specific value of the template at a position, as its copy has it.
fn specific(alloc: Global, frame: &Frame<'_>, at: usize) -> Result<String, AllocError> {
    let value = specific_value(alloc, frame, at);
    given(alloc, frame.definitions, value)
}

fn specific_value(alloc: Global, frame: &Frame<'_>, at: usize) -> Result<Value, Fault> {
    let template = template(alloc, frame, at)?;
    template.try_clone(alloc)?.specific_value(alloc)
}

/// The template at a position.
fn template(alloc: Global, frame: &Frame<'_>, at: usize) -> Result<Template, Fault> {
    let Some(named) = frame.definitions.template(at) else {
        return Err(Fault::Dynamic);
    };
    let wanted = frame.definitions.resolved(&named.type_name);
    eval_template(alloc, named.template.get(), wanted, frame)
}

fn match_word(matches: bool) -> &'static str {
    if matches { "matches" } else { "does not match" }
}
