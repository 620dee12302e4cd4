//! What names stand for.
ghost use Rattle.std.specs.Prelude.{◌≡◌, [], ◌∷◌, OnOk, None};
ghost use Rattle.check_scope.specs.Names.{behind};
ghost use Rattle.check_scope.specs.internal.Tables.{said};

use crate::names::Meaning;
use std::alloc::{AllocError, Global};
use std::collections::HashMap;

/// What names stand for.
#[derive(Drop)]
pub struct Table<'a> {
    meanings: HashMap<&'a [u8], Meaning>,
}

impl<'a> Table<'a> {
    pub fn new(alloc: Global) -> Table<'a>
        ensures { said result ≡ (λ name. None) }
    {
        Table {
            meanings: HashMap::new(alloc),
        }
    }

    pub fn get(&self, name: &[u8]) -> Option<Meaning>
        ensures { result ≡ said self.now name.now }
    {
        self.meanings.get(name).copied()
    }

    /// Adds a name, or replaces what it stands for.
    pub fn insert(&mut self, name: &'a [u8], meaning: Meaning) -> Result<(), AllocError>
        ensures { OnOk result (said self.new ≡ behind (said self.old) ((name.now, meaning) ∷ [])) }
    {
        self.meanings.insert(name, meaning)?;
        Ok(())
    }
}
