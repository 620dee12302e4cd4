//! The rule of a board, and what each atomic step tells its seat. These types are for the proofs alone.
ghost use Rattle.shared.specs.BoardRule.{KeepsBoard, first_view, fresh, joined, spent, with_one_less, DrawsOne, Sees, Raises};

use super::view::{BoardKey, BoardView};
use atomic_table::{Join, Play, Split, TableRule};

pub(crate) struct Draws;

impl<S> TableRule<S, BoardView, BoardKey> for Draws {
    ghost holds = { KeepsBoard };

    ghost first = { first_view };
}

pub(super) struct DrawOne;

impl<S> Play<S, BoardView> for DrawOne {
    ghost then = { λ _. DrawsOne };
}

pub(super) struct See;

impl<S> Play<S, BoardView> for See {
    ghost then = { λ _. Sees };
}

pub(super) struct Raise;

impl<S> Play<S, BoardView> for Raise {
    ghost then = { λ _. Raises };
}

pub(super) struct Cut;

impl Split<BoardView> for Cut {
    ghost left = { with_one_less };

    ghost right = { fresh };
}

pub(super) struct Glue;

impl Join<BoardView> for Glue {
    ghost both = { joined };

    ghost spent = { spent };
}
