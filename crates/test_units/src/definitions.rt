//! Definitions of a program by name and by position.
use std::test::Fail;
use test_refusals::program;
use ttcn_syntax::{DefinitionKind, Name, TypeName};
use ttcn_types::{DataType, Meaning};

/// A module with a definition of most kinds, at the positions 0 to 7.
const MODULE: &str = "module M {\n\
type record R { integer a, S b optional }\n\
const integer one := 1, two := 2;\n\
template integer few := (1, 2);\n\
type record S { boolean c }\n\
type component C {}\n\
function f() {}\n\
testcase T() runs on C {}\n\
testcase U() runs on C {}\n\
}\n";

#[test]
fn test_cases(rt: HostRuntime) -> Result<(), Fail> {
    let program = program(rt.alloc(), MODULE)?;
    let rows = [
        ("T", Some(6)),
        ("U", Some(7)),
        ("t", None),
        ("f", None),
        ("C", None),
        ("M", None),
        ("", None),
    ];
    for (name, position) in rows {
        let found = program.testcase(name).map(|id| id.position());
        assert_eq!(rt; found, position, "{name}");
    }
    Ok(())
}

#[test]
fn meanings(rt: HostRuntime) -> Result<(), Fail> {
    let program = program(rt.alloc(), MODULE)?;
    let definitions = program.definitions(rt.alloc())?;
    let rows = [
        ("R", Some(Meaning::Record(0))),
        ("few", Some(Meaning::Template(2))),
        ("S", Some(Meaning::Record(3))),
        ("C", Some(Meaning::Component(4))),
        ("f", Some(Meaning::Function(5))),
        ("T", Some(Meaning::Testcase(6))),
        ("U", Some(Meaning::Testcase(7))),
        ("a", None),
        ("M", None),
        ("", None),
    ];
    for (name, meaning) in rows {
        assert!(rt; definitions.meaning(name.as_bytes()) == meaning, "{name}");
    }
    Ok(())
}

#[test]
fn types(rt: HostRuntime) -> Result<(), Fail> {
    let alloc = rt.alloc();
    let program = program(alloc, MODULE)?;
    let definitions = program.definitions(alloc)?;
    assert!(rt; matches!(definitions.kind(4), Some(DefinitionKind::Component(_))));
    assert!(rt; definitions.kind(8).is_none());
    assert_eq!(rt; definitions.fields(0).len(), 2);
    assert_eq!(rt; definitions.fields(3).len(), 1);
    assert!(rt; definitions.fields(1).is_empty());
    let rows = [("S", Some(DataType::Record(3))), ("one", None)];
    for (name, resolved) in rows {
        let named = TypeName::Named(Name::new(alloc, name.as_bytes())?);
        assert!(rt; definitions.resolved(&named) == resolved, "{name}");
    }
    Ok(())
}

#[test]
fn values(rt: HostRuntime) -> Result<(), Fail> {
    let program = program(rt.alloc(), MODULE)?;
    let definitions = program.definitions(rt.alloc())?;
    let found = definitions
        .constant(1, 1)
        .map(|constant| constant.name.as_bytes());
    assert!(rt; found == Some(b"two".as_slice()));
    assert!(rt; definitions.constant(1, 2).is_none() && definitions.constant(0, 0).is_none());
    assert!(rt; definitions.constants_type(1) == Some(DataType::Integer));
    assert!(rt; definitions.constants_type(0).is_none());
    let found = definitions
        .template(2)
        .map(|template| template.name.as_bytes());
    assert!(rt; found == Some(b"few".as_slice()));
    assert!(rt; definitions.template(1).is_none());
    Ok(())
}
