//! Templates that go as deep as a module can make them, on a thread as on the main one.
use std::alloc::{AllocError, Global};
use std::test::Fail;
use std::thread::join;
use test_refusals::program;
use ttcn_syntax::Seq;
use ttcn_types::{Definitions, Meaning};
use ttcn_values::{ComponentId, Fault, Frame, Path, Template, Value, eval_template, matches};

/// How many templates refer to the one before: the last one is `t199`.
const CHAIN: u32 = 199;

/// How many brackets stand round each.
const BRACKETS: u32 = 198;

/// A piece of text, so many times.
fn repeated(alloc: Global, piece: &str, count: u32) -> Result<String, AllocError> {
    let mut text = String::new(alloc);
    for _turn in 0..count {
        text.push_str(piece)?;
    }
    Ok(text)
}

/// A module with a chain of templates.
fn module(alloc: Global) -> Result<String, AllocError> {
    let opening = repeated(alloc, "complement(", BRACKETS)?;
    let closing = repeated(alloc, ")", BRACKETS)?;
    let mut text = String::from_str(alloc, "module M {\ntemplate integer t0 := 5;\n")?;
    for number in 1..=CHAIN {
        let before = number.saturating_sub(1);
        let line = format!(in alloc;
            "template integer t{number} := {opening}t{before}{closing};\n"
        )?;
        text.push_str(line.as_str())?;
    }
    text.push_str("}\n")?;
    Ok(text)
}

/// What the last template gives.
fn deepest(alloc: Global, definitions: &Definitions<'_>) -> Result<Template, Fault> {
    let mtc = ComponentId {
        path: Path {
            numbers: Seq::new(alloc),
        },
        component_type: 0,
    };
    let frame = Frame {
        definitions,
        names: &[],
        locals: &[],
        members: &[],
        local_timers: &[],
        member_timers: &[],
        running: &[],
        itself: &mtc,
        mtc: &mtc,
    };
    let Some(Meaning::Template(at)) = definitions.meaning(b"t199") else {
        return Err(Fault::Dynamic);
    };
    let Some(named) = definitions.template(at) else {
        return Err(Fault::Dynamic);
    };
    let wanted = definitions.resolved(&named.type_name);
    eval_template(alloc, named.template.get(), wanted, &frame)
}

/// Whether the last template equals itself and matches 5, and not 6.
fn is_as_wanted(alloc: Global) -> Result<bool, Fault> {
    let text = module(alloc)?;
    let Ok(program) = program(alloc, text.as_str()) else {
        return Ok(false);
    };
    let definitions = program.definitions(alloc)?;
    let template = deepest(alloc, &definitions)?;
    let (five, six) = (Value::Integer(5), Value::Integer(6));
    Ok(template == template && matches(&template, &five) && !matches(&template, &six))
}

#[test]
fn deep_templates_on_two_threads(rt: HostRuntime) {
    let alloc = rt.alloc();
    let (there, here) = join(&rt, || is_as_wanted(alloc), || is_as_wanted(alloc));
    assert!(rt; there == Ok(true) && here == Ok(true));
}
