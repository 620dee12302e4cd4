//! Blocks, and what is declared in them.
ghost use Rattle.std.specs.Prelude.{◌≡◌, [], ◌∷◌, OnOk};
ghost use Rattle.check_scope.specs.internal.Checking.{Around, around, inside, view};
ghost use Rattle.check_scope.specs.Names.{declaring};
ghost use Rattle.check_scope.specs.declared.table.Table.{Table};

use super::Scope;
use crate::names::Meaning;
use crate::table::Table;
use std::alloc::{AllocError, Global};
use std::mem::replace;

impl<'a> Scope<'a> {
    /// Adds a name to the innermost block.
    pub fn declare(&mut self, name: &'a [u8], meaning: Meaning) -> Result<(), AllocError>
        ensures view { OnOk result (view self.new ≡ declaring (view self.old) ((name.now, meaning) ∷ [])) }
        ensures around { OnOk result (around self.new ≡ around self.old) }
    {
        self.locals.insert(name, meaning)?;
        Ok(())
    }

    /// Begins a block within the innermost one.
    pub fn enter(&mut self, alloc: Global) -> Result<(), AllocError>
        ensures view { OnOk result (view self.new ≡ view self.old) }
        ensures around { OnOk result (around self.new ≡ inside (around self.old) self.old.locals) }
    {
        let round = replace(&mut self.locals, Table::new(alloc));
        self.blocks.push(round)?;
        Ok(())
    }

    /// Ends the innermost block.
    pub fn leave(&mut self)
        ensures around { (a : Around) (block : Table) → around self.old ≡ inside a block → around self.new ≡ a }
        ensures locals { (a : Around) (block : Table) → around self.old ≡ inside a block → self.new.locals ≡ block }
    {
        if let Some(round) = self.blocks.pop() {
            self.locals = round;
        }
    }
}
