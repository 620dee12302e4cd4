//! Names with fields behind them.
ghost use Rattle.std.specs.Prelude.{◌≡◌};

use std::marker::Model;
use syntax_equality::Exact;
use ttcn_syntax::{Name, Reference};

/// A name of a program, and the fields behind it. A contract sees the reference that they make.
#[derive(Drop)]
pub struct Referred<'a> {
    name: &'a Name,
    fields: &'a [Name],
}

impl<'a> Model for Referred<'a> {
    ghost use Rattle.ttcn_syntax.specs.declared.tree.expression.Reference.{Reference};

    ghost Value = { Reference };

    ghost view = { λ referred. record { name = referred.name.now; fields = referred.fields.now } };
}

impl<'a> Referred<'a> {
    ghost use Rattle.semantics.specs.Statements.{declared_target};

    /// What is written as a reference.
    pub fn to(reference: &'a Reference) -> Referred<'a>
        ensures { result ≡ reference.now }
    {
        Referred {
            name: &reference.name,
            fields: reference.fields.as_slice(),
        }
    }

    /// A name alone.
    pub fn to_name(name: &'a Name) -> Referred<'a>
        ensures { result ≡ (declared_target name.now).reference }
    {
        Referred { name, fields: &[] }
    }

    pub fn name(&self) -> &'a Name
        ensures { result.now ≡ self.now.name }
    {
        self.name
    }

    pub fn fields(&self) -> &'a [Name]
        ensures { result.now ≡ self.now.fields }
    {
        self.fields
    }
}

impl<'a> PartialEq for Referred<'a> {
    ghost use Rattle.graph_items.specs.Equality.{same_reference, same_reference_laws};

    ghost eq = { same_reference };

    ghost laws = { same_reference_laws };

    fn eq(&self, other: &Referred<'a>) -> bool {
        *self.name == *other.name && self.fields == other.fields
    }
}

impl<'a> Eq for Referred<'a> {
    ghost use Rattle.graph_items.specs.Equality.{same_reference_equiv};

    ghost laws = { same_reference_equiv };
}

impl<'a> Exact for Referred<'a> {
    ghost use Rattle.graph_items.specs.Equality.{reference_is};

    ghost exact = { reference_is };
}
