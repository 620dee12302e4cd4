//! The names that a behaviour declares up to a place.
ghost use Rattle.std.specs.Prelude.{◌≡◌, [], ◌∷◌, OnOk, OnErr};
ghost use Rattle.graph_sites.specs.internal.OwnNames.{own_names, without_first};

use check_scope::names::Meaning;
use std::alloc::{AllocError, Global};
use std::collections::HashMap;
use std::marker::Model;
use ttcn_syntax::Name;

/// A declared name, and what it stood for before.
#[derive(Drop)]
pub(crate) struct Kept<'a> {
    pub(crate) name: &'a Name,
    pub(crate) meaning: Meaning,
    pub(crate) before: Option<Meaning>,
}

/// Names that are declared one after the other, and what each stands for. A contract sees them as a list, the last one first.
pub(crate) struct Own<'a> {
    kept: Vec<Kept<'a>>,
    latest: HashMap<&'a [u8], Option<Meaning>>,
}

impl<'a> Drop for Own<'a> {
    fn drop(self) {
        let Own {
            kept: _kept,
            latest: _latest,
        } = self;
    }
}

impl<'a> Model for Own<'a> {
    ghost use Rattle.std.specs.Prelude.{◌≡◌, List, []};
    ghost use Rattle.check_scope.specs.Names.{Entry};
    ghost use Rattle.graph_sites.specs.internal.OwnNames.{own_names};
    ghost use Rattle.graph_sites.specs.internal.KeptNames.{AreKept, entries_of, latest_in};

    ghost Value = { List Entry };

    ghost view = { λ own. entries_of [] own.kept.items };

    ghost invariant = { λ own. (latest_in own.latest ≡ own_names (entries_of [] own.kept.items)) × AreKept [] own.kept.items };
}

impl<'a> Own<'a> {
    pub(crate) fn new(alloc: Global) -> Own<'a>
        ensures { result ≡ [] }
    {
        Own {
            kept: Vec::new(alloc),
            latest: HashMap::new(alloc),
        }
    }

    /// What a name stands for, if it is declared.
    pub(crate) fn get(&self, name: &[u8]) -> Option<Meaning>
        ensures { result ≡ own_names self.now name.now }
    {
        match self.latest.get(name) {
            Some(meaning) => *meaning,
            None => None,
        }
    }

    /// Declares one more name.
    pub(crate) fn declare(&mut self, name: &'a Name, meaning: Meaning) -> Result<(), AllocError>
        ensures ok { OnOk result (self.new ≡ (name.now, meaning) ∷ self.old) }
        ensures refused { OnErr result (self.new ≡ self.old) }
    {
        let before = self.get(name.as_bytes());
        self.kept.push(Kept {
            name,
            meaning,
            before,
        })?;
        match self.latest.insert(name.as_bytes(), Some(meaning)) {
            Ok(_) => Ok(()),
            Err(_) => {
                let _ = self.kept.pop();
                Err(AllocError)
            }
        }
    }

    /// Goes back before the name that was declared last.
    pub(crate) fn retract(&mut self)
        ensures { self.new ≡ without_first self.old }
    {
        if let Some(last) = self.kept.pop() {
            match self.latest.insert(last.name.as_bytes(), last.before) {
                Ok(_) => {}
                Err(_) => unreachable!(),
            }
        }
    }
}
