//! Something to put into lists.
use syntax_equality::Exact;

/// A letter, by its number.
#[derive(Clone, Copy, Debug, PartialEq, Eq, Hash)]
pub struct Letter {
    pub number: u32,
}

impl Exact for Letter {
    ghost use Rattle.std.proofs.lemmas.Bool.{eqb-true as nat_is};

    ghost exact = { λ a b h. λ i. record { number = nat_is a.number b.number h i } };
}
