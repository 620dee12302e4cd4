//! Trees of expressions, and the lists and boxes that trees are made of.
use std::alloc::{AllocError, Global};
use std::hash::{DefaultHasher, Hash, Hasher};
use std::test::Fail;
use ttcn_syntax::{Boxed, ComponentRef, Expr, Link, Name, Operator, Reference, Seq, Sign};

/// A name as an expression.
fn named(alloc: Global, name: &[u8]) -> Result<Expr, AllocError> {
    Ok(Expr::Reference(ComponentRef::Named(Reference {
        name: Name::new(alloc, name)?,
        fields: Seq::new(alloc),
    })))
}

/// `1 + x - 1 + x ..`, of this many links.
fn chain(alloc: Global, links: u32) -> Result<Expr, AllocError> {
    let mut all = Seq::new(alloc);
    for place in 0..links {
        let link = if place % 2 == 0 {
            Link {
                operator: Operator::Add,
                operand: named(alloc, b"x")?,
            }
        } else {
            Link {
                operator: Operator::Subtract,
                operand: Expr::Int(1),
            }
        };
        all.push(link)?;
    }
    Ok(Expr::Chain(Boxed::new(alloc, Expr::Int(1))?, all))
}

#[test]
fn a_long_chain_is_built_compared_and_dropped(rt: HostRuntime) -> Result<(), Fail> {
    let one = chain(rt.alloc(), 100_000)?;
    let other = chain(rt.alloc(), 100_000)?;
    let shorter = chain(rt.alloc(), 99_999)?;
    assert!(rt; one == other);
    assert!(rt; one != shorter);
    Ok(())
}

#[test]
fn trees_are_equal_by_their_parts(rt: HostRuntime) -> Result<(), Fail> {
    let alloc = rt.alloc();
    let minus_one = Expr::Signed(Sign::Minus, Boxed::new(alloc, Expr::Int(1))?);
    let plus_one = Expr::Signed(Sign::Plus, Boxed::new(alloc, Expr::Int(1))?);
    assert!(rt; minus_one != plus_one);
    let not_true = Expr::Not(Boxed::new(alloc, Expr::Bool(true))?);
    let not_false = Expr::Not(Boxed::new(alloc, Expr::Bool(false))?);
    assert!(rt; not_true != not_false);
    assert!(rt; not_true == Expr::Not(Boxed::new(alloc, Expr::Bool(true))?));
    assert!(rt; named(alloc, b"x")? != named(alloc, b"y")?);
    Ok(())
}

fn hash_of<T: Hash>(value: &T) -> u64 {
    let mut state = DefaultHasher::new();
    value.hash(&mut state);
    state.finish()
}

fn are_alike<T: Eq + Hash>(one: &T, other: &T) -> bool {
    *one == *other && hash_of(one) == hash_of(other)
}

#[test]
fn equal_lists_and_boxes_hash_alike(rt: HostRuntime) -> Result<(), Fail> {
    let alloc = rt.alloc();
    let mut one = Seq::new(alloc);
    one.push(Boxed::new(alloc, 7u32)?)?;
    let mut other = Seq::from_vec(vec![in alloc; Boxed::new(alloc, 7u32)?]?);
    assert!(rt; are_alike(&one, &other));
    other.push(Boxed::new(alloc, 8u32)?)?;
    assert!(rt; one != other && other.len() == 2);
    let elements = other.into_vec();
    assert!(rt; elements.len() == 2 && *elements[1].get() == 8);
    assert!(rt; Boxed::new(alloc, 5u8)?.into_inner() == 5);
    Ok(())
}
