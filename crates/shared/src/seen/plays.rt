//! The rule of a table, and what each atomic step tells its seat. These types are for the proofs alone.
ghost use Rattle.shared.specs.Classes.{shape_of};
ghost use Rattle.shared.specs.SeenRule.{KeepsSeen, first_view, fresh, joined, spent, with_one_less, Tries, Lowers};

use super::view::{SeenKey, SeenView};
use atomic_table::{Join, Play, Split, TableRule};
use std::hash::Hash;

pub(crate) struct Firsts;

impl<'a, S: Eq + Hash, T> TableRule<T, SeenView, SeenKey<'a, S>> for Firsts {
    ghost holds = { λ key. KeepsSeen (shape_of S.eq S.hash_input key) };

    ghost first = { λ key. first_view (shape_of S.eq S.hash_input key) };
}

/// A `compare_exchange` from 0 to one more than a position.
pub(super) struct Try;

impl<T> Play<T, SeenView> for Try {
    ghost then = { Tries };
}

/// A `fetch_min` by one more than a position.
pub(super) struct Lower;

impl<T> Play<T, SeenView> for Lower {
    ghost then = { Lowers };
}

pub(super) struct Cut;

impl Split<SeenView> for Cut {
    ghost left = { with_one_less };

    ghost right = { fresh };
}

pub(super) struct Glue;

impl Join<SeenView> for Glue {
    ghost both = { joined };

    ghost spent = { spent };
}
