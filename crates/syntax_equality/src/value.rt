//! Values, calls, types, and what stands on the right of `:=`.
use crate::Exact;
use ttcn_syntax::{Call, FieldValue, Rhs, TypeName, Value};

impl Exact for TypeName {
    ghost use Rattle.syntax_equality.specs.Values.{type_one};

    ghost exact = { type_one };
}

impl Exact for Value {
    ghost use Rattle.syntax_equality.specs.Values.{value_one};

    ghost exact = { value_one };
}

impl Exact for FieldValue {
    ghost use Rattle.syntax_equality.specs.Values.{field_one};

    ghost exact = { field_one };
}

impl Exact for Call {
    ghost use Rattle.syntax_equality.specs.Values.{call_one};

    ghost exact = { call_one };
}

impl Exact for Rhs {
    ghost use Rattle.syntax_equality.specs.Values.{right_one};

    ghost exact = { right_one };
}
