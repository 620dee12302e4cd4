//! Names that were met.
ghost use Rattle.std.specs.Prelude.{◌≡◌, ℕ, List, IfOk, OnOk, false, true, not, bytes_eq, if◌then◌else◌};
ghost use Rattle.check_scope.specs.internal.Tables.{has};

use std::alloc::{AllocError, Global};
use std::collections::HashSet;

/// Names that were met.
#[derive(Drop)]
pub struct NameSet<'a> {
    names: HashSet<&'a [u8]>,
}

impl<'a> NameSet<'a> {
    pub fn new(alloc: Global) -> NameSet<'a>
        ensures { (name : List ℕ) → has result name ≡ false }
    {
        NameSet {
            names: HashSet::new(alloc),
        }
    }

    pub fn contains(&self, name: &[u8]) -> bool
        ensures { result ≡ has self.now name.now }
    {
        self.names.contains(name)
    }

    /// Adds a name, and tells whether it is a new one.
    pub fn insert(&mut self, name: &'a [u8]) -> Result<bool, AllocError>
        ensures is_new { IfOk result (λ is_new. is_new ≡ not (has self.old name.now)) }
        ensures behind { OnOk result ((other : List ℕ) → has self.new other ≡ (if bytes_eq name.now other then true else has self.old other)) }
    {
        Ok(self.names.insert(name)?)
    }
}
