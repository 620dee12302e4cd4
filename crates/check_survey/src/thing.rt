//! Things that refer to one another.
ghost use Rattle.std.specs.Prelude.{◌≡◌, ◌↔◌, ◌∷◌, ◌<◌, [], length, All, IsTrue, OnOk, get_or};
ghost use Rattle.check_survey.specs.Graphs.{AreComplete};
ghost use Rattle.check_survey.specs.Things.{add, leaf, parts};

use std::alloc::{AllocError, Global};
use ttcn_syntax::Seq;

/// A thing, named by its place among all of them.
#[derive(Drop)]
pub struct Thing {
    /// How many parts it has itself, or the largest number of the type where there are more.
    pub own: u64,
    /// The things that it refers to, one as often as it is referred to.
    pub references: Seq<usize>,
}

impl Thing {
    /// A thing without parts that refers to nothing.
    pub fn empty(alloc: Global) -> Thing
        ensures { result ≡ parts 0 [] }
    {
        Thing {
            own: 0,
            references: Seq::new(alloc),
        }
    }

    /// One more part.
    #[tactic(auto, using(crate::proofs::Beside::with_leaf))]
    pub fn add_leaf(&mut self)
        ensures { self.new ≡ add self.old leaf }
    {
        self.own = self.own.saturating_add(1);
    }

    /// One more reference.
    #[tactic(auto, using(crate::proofs::Beside::with_reference))]
    pub fn add_reference(&mut self, to: usize) -> Result<(), AllocError>
        ensures { OnOk result (self.new ≡ add self.old (parts 0 (to ∷ []))) }
    {
        self.references.push(to)?;
        Ok(())
    }

    /// What it refers to at a place.
    pub(crate) fn reference(&self, at: usize) -> usize
        requires { at < length self.now.references }
        ensures { result ≡ get_or self.now.references at result }
    {
        self.references.as_slice()[at]
    }

    /// Whether it refers only to things before that place.
    fn refers_below(&self, count: usize) -> bool
        ensures { IsTrue result ↔ All (λ other. other < count) self.now.references }
    {
        self.references
            .as_slice()
            .iter()
            .all(|other| *other < count)
    }
}

/// Whether all that the things refer to is among them.
pub fn is_complete(things: &[Thing]) -> bool
    ensures { IsTrue result ↔ AreComplete things.now }
{
    things.iter().all(|thing| thing.refers_below(things.len()))
}
