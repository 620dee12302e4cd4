//! Names that behaviours declare.
ghost use Rattle.std.specs.Prelude.{◌≡◌};

use check_scope::names::Meaning;
use std::hash::{Hash, Hasher};
use std::marker::Model;
use syntax_equality::Exact;
use ttcn_syntax::Name;

/// A name that a behaviour declares, and what it stands for.
#[derive(Drop)]
pub struct Declared<'a> {
    name: &'a Name,
    meaning: Meaning,
}

impl<'a> Model for Declared<'a> {
    ghost use Rattle.check_scope.specs.Names.{Entry};

    ghost Value = { Entry };

    ghost view = { λ declared. (declared.name.now, declared.meaning) };
}

impl<'a> Declared<'a> {
    pub fn new(name: &'a Name, meaning: Meaning) -> Declared<'a>
        ensures { result ≡ (name.now, meaning) }
    {
        Declared { name, meaning }
    }

    pub fn name(&self) -> &'a Name
        ensures { result.now ≡ self.now.0 }
    {
        self.name
    }

    pub fn meaning(&self) -> Meaning
        ensures { result ≡ self.now.1 }
    {
        self.meaning
    }
}

impl<'a> PartialEq for Declared<'a> {
    ghost use Rattle.graph_items.specs.Equality.{same_entry, same_entry_laws};

    ghost eq = { same_entry };

    ghost laws = { same_entry_laws };

    fn eq(&self, other: &Declared<'a>) -> bool {
        *self.name == *other.name && self.meaning == other.meaning
    }
}

impl<'a> Eq for Declared<'a> {
    ghost use Rattle.graph_items.specs.Equality.{same_entry_equiv};

    ghost laws = { same_entry_equiv };
}

impl<'a> Exact for Declared<'a> {
    ghost use Rattle.graph_items.specs.Equality.{entry_one};

    ghost exact = { entry_one };
}

/// Hashes by the name alone.
impl<'a> Hash for Declared<'a> {
    ghost use Rattle.std.specs.Prelude.{◌∷◌, []};
    ghost use Rattle.graph_items.specs.Equality.{entry_fed};

    ghost hash_input = { λ entry. entry.0 ∷ [] };

    ghost respects_eq = { entry_fed };

    fn hash<H: Hasher>(&self, state: &mut H) {
        self.name.hash(state);
    }
}
