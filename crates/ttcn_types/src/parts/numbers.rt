//! The numbers of constants and templates.
ghost use Rattle.std.specs.Prelude.{◌≡◌, ◌+◌, ◌<◌, length, IfOk, OnOk};
ghost use Rattle.check_rules.specs.Parts.{how_many};
ghost use Rattle.ttcn_types.specs.internal.Numbering.{AreNumbers, count_before};

use std::alloc::{AllocError, Global};
use ttcn_syntax::{Definition, DefinitionKind, Span};

/// The numbers of constants and templates, in the order of the text.
#[derive(Drop)]
pub(crate) struct Numbers {
    /// For each definition how many come before it.
    before: Vec<usize>,
    /// For each number the place of the definition that has it.
    pub(crate) places: Vec<Span>,
}

impl Numbers {
    /// Counts them.
    pub(crate) fn of(alloc: Global, definitions: &[Definition]) -> Result<Numbers, AllocError>
        ensures { IfOk result (λ numbers. AreNumbers numbers definitions.now) }
    {
        let mut before = Vec::new(alloc);
        let mut places = Vec::new(alloc);
        for definition in definitions {
            before.push(places.len())?;
            push_places(definition, &mut places)?;
        }
        Ok(Numbers { before, places })
    }

    /// The number of the first that the definition at a position defines.
    pub(crate) fn at(&self, at: usize) -> usize
        ensures { result ≡ count_before self.now at }
    {
        match self.before.get(at) {
            Some(number) => *number,
            None => self.places.len(),
        }
    }

    /// The number of one of the constants that the definition at a position defines.
    pub(crate) fn of_item(&self, at: usize, item: usize) -> usize
        requires { count_before self.now at + item < length self.now.places.items }
        ensures { result ≡ count_before self.now at + item }
    {
        self.at(at) + item
    }
}

/// How many a definition has in the numbering.
fn how_many(kind: &DefinitionKind) -> usize
    ensures { result ≡ how_many kind.now }
{
    match kind {
        DefinitionKind::Constants(constants) => constants.constants.len(),
        _ => 1,
    }
}

/// The place of a definition, once for each number that it has.
fn push_places(definition: &Definition, places: &mut Vec<Span>) -> Result<(), AllocError>
    ensures { OnOk result (length places.new.items ≡ length places.old.items + how_many definition.now.kind) }
{
    for _item in 0..how_many(&definition.kind) {
        places.push(definition.place)?;
    }
    Ok(())
}
