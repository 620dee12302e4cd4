//! Names in the order of their bytes.
ghost use Rattle.std.specs.Prelude.{◌≡◌, ℕ, List, map, Contains, IfOk};
ghost use Rattle.graph_numbers.specs.Names.{AreInOrder};

use std::alloc::{AllocError, Global};
use std::collections::BTreeSet;
use std::marker::Model;
use ttcn_syntax::Name;

/// Names in the order of their bytes, none twice. A contract sees the names.
#[derive(Drop)]
pub struct Names {
    names: Vec<Name>,
}

impl Model for Names {
    ghost use Rattle.std.specs.Prelude.{ℕ, List};
    ghost use Rattle.graph_numbers.specs.Names.{AreInOrder};

    ghost Value = { List (List ℕ) };

    ghost view = { λ all. all.names.items };

    ghost invariant = { λ all. AreInOrder all.names.items };
}

/// The names of a set, in their order.
fn in_order(alloc: Global, set: BTreeSet<Name>, count: usize) -> Result<Vec<Name>, AllocError>
    ensures { IfOk result (λ names. names.items ≡ set.keys) }
{
    let mut names = Vec::with_capacity(alloc, count)?;
    for name in set {
        names.push(name)?;
    }
    Ok(names)
}

/// Names as a set.
fn set_of(alloc: Global, names: &[&Name]) -> Result<BTreeSet<Name>, AllocError>
    ensures { IfOk result (λ set. (name : List ℕ) → Contains (map (λ n. n.now) names.now) name → Contains set.keys name) }
{
    let mut set = BTreeSet::new(alloc);
    for name in names {
        set.insert(name.try_clone(alloc)?)?;
    }
    Ok(set)
}

impl Names {
    /// All of these names.
    pub fn of(alloc: Global, names: &[&Name]) -> Result<Names, AllocError>
        ensures { IfOk result (λ all. (name : List ℕ) → Contains (map (λ n. n.now) names.now) name → Contains all name) }
    {
        let set = set_of(alloc, names)?;
        let count = set.len();
        let names = in_order(alloc, set, count)?;
        Ok(Names { names })
    }

    /// The names in their order.
    pub fn as_slice(&self) -> &[Name]
        ensures { result.now ≡ self.now }
    {
        self.names.as_slice()
    }

    /// Names stand in the order of their bytes, none twice.
    pub fn are_in_order(&self)
        ensures { AreInOrder self.now }
    {
        let _names = &self.names;
    }
}
