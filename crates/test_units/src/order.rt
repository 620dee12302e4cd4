//! Names stand in their order.
use graph_numbers::Names;
use std::alloc::{AllocError, Global};
use std::test::Fail;
use ttcn_syntax::Name;

fn name(alloc: Global, text: &str) -> Result<Name, AllocError> {
    Name::new(alloc, text.as_bytes())
}

#[test]
fn names_ascend_and_none_comes_twice(rt: HostRuntime) -> Result<(), Fail> {
    let alloc = rt.alloc();
    let (b, a, ab) = (name(alloc, "b")?, name(alloc, "a")?, name(alloc, "ab")?);
    let names = Names::of(alloc, &[&b, &a, &b, &ab, &a])?;
    let text = format!(in alloc; "{:?}", names.as_slice())?;
    assert_eq!(rt; text.as_str(), "[a, ab, b]");
    Ok(())
}
