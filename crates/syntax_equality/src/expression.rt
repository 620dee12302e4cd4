//! Expressions, and what they are made of.
use crate::Exact;
use ttcn_syntax::{ComponentRef, Expr, Link, Operator, Reference, Sign, Span};

impl Exact for Span {
    ghost use Rattle.syntax_equality.specs.Expressions.{place_one};

    ghost exact = { place_one };
}

impl Exact for Operator {
    ghost use Rattle.syntax_equality.specs.Expressions.{operator_one};

    ghost exact = { operator_one };
}

impl Exact for Sign {
    ghost use Rattle.syntax_equality.specs.Expressions.{sign_one};

    ghost exact = { sign_one };
}

impl Exact for Reference {
    ghost use Rattle.syntax_equality.specs.Expressions.{reference_one};

    ghost exact = { reference_one };
}

impl Exact for ComponentRef {
    ghost use Rattle.syntax_equality.specs.Expressions.{component_one};

    ghost exact = { component_one };
}

impl Exact for Expr {
    ghost use Rattle.syntax_equality.specs.Expressions.{expression_one};

    ghost exact = { expression_one };
}

impl Exact for Link {
    ghost use Rattle.syntax_equality.specs.Expressions.{link_one};

    ghost exact = { link_one };
}
