//! Values that are one and values that are not, of types that have the bound.
use std::alloc::{AllocError, Global};
use std::test::Fail;
use syntax_equality::are_one;
use ttcn_syntax::{Boxed, Expr, Name, Sign};

fn signed(alloc: Global, sign: Sign, operand: u64) -> Result<Expr, AllocError> {
    Ok(Expr::Signed(sign, Boxed::new(alloc, Expr::Int(operand))?))
}

#[test]
fn names_and_expressions_are_one_or_two(rt: HostRuntime) -> Result<(), Fail> {
    let alloc = rt.alloc();
    assert!(rt; are_one(&Name::new(alloc, b"a")?, &Name::new(alloc, b"a")?));
    assert!(rt; !are_one(&Name::new(alloc, b"a")?, &Name::new(alloc, b"b")?));
    let one = signed(alloc, Sign::Minus, 1)?;
    let same = signed(alloc, Sign::Minus, 1)?;
    let other = signed(alloc, Sign::Plus, 1)?;
    assert!(rt; are_one(&one, &same));
    assert!(rt; !are_one(&one, &other));
    Ok(())
}
