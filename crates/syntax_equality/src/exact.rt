//! Values whose `==` tells all of them apart.
ghost use Rattle.std.specs.Bool.{Decides};
ghost use Rattle.std.specs.Prelude.{◌≡◌, true};

use ttcn_syntax::{Boxed, Name, Seq};

/// Values of which `==` is true only of a value and itself, so that one may stand for the other.
pub trait Exact: Eq {
    ghost exact: { (a b : Self) → Self.eq a b ≡ true → a ≡ b };
}

/// Whether two values are one, as `==` tells.
pub fn are_one<T: Exact>(a: &T, b: &T) -> bool
    ensures { Decides result (a.now ≡ b.now) }
{
    *a == *b
}

impl Exact for Name {
    ghost use Rattle.syntax_equality.specs.Equality.{name_one};

    ghost exact = { name_one };
}

impl<T: Exact> Exact for Seq<T> {
    ghost use Rattle.syntax_equality.specs.Equality.{list_one};

    ghost exact = { list_one T.eq T.exact };
}

impl<T: Exact> Exact for Boxed<T> {
    ghost exact = { T.exact };
}

impl<T: Exact> Exact for Option<T> {
    ghost use Rattle.syntax_equality.specs.Equality.{option_one};

    ghost exact = { option_one T.eq T.exact };
}
