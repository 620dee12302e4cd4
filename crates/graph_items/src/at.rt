//! Parts of a program that are lent.
ghost use Rattle.std.specs.Prelude.{◌≡◌};

use std::marker::Model;
use syntax_equality::Exact;

/// A part of a program. A contract sees the part itself, and not where it lies.
#[derive(Drop)]
pub struct At<'a, T> {
    part: &'a T,
}

impl<'a, T> Model for At<'a, T> {
    ghost Value = { T };

    ghost coded = { T.code };

    ghost view = { λ at. at.part.now };
}

impl<'a, T> At<'a, T> {
    pub fn new(part: &'a T) -> At<'a, T>
        ensures { result ≡ part.now }
    {
        At { part }
    }

    pub fn get(&self) -> &'a T
        ensures { result.now ≡ self.now }
    {
        self.part
    }
}

impl<'a, T: PartialEq> PartialEq for At<'a, T> {
    ghost eq = { T.eq };

    ghost laws = { T.PartialEq.laws };

    fn eq(&self, other: &At<'a, T>) -> bool {
        *self.get() == *other.get()
    }
}

impl<'a, T: Eq> Eq for At<'a, T> {
    ghost laws = { T.Eq.laws };
}

impl<'a, T: Exact> Exact for At<'a, T> {
    ghost exact = { T.exact };
}
