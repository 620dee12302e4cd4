//! The statements of a module that set a verdict (ES 201 873-1, 24.2).
use crate::passage::Passage;
use crate::source::Source;
use chart_causes::Names;
use std::alloc::{AllocError, Global};
use ttcn_syntax::{
    Action, Alternative, Branch, Conditional, Definition, DefinitionKind, Span, Statement,
};

/// The places of the statements that were found so far.
#[derive(Drop)]
struct Found {
    places: Vec<Span>,
}

impl Found {
    #[cycle(settings)]
    fn block(&mut self, block: &[Statement]) -> Result<(), AllocError> {
        for statement in block {
            self.action(statement.place, statement.action.get())?;
        }
        Ok(())
    }

    #[cycle(settings)]
    fn action(&mut self, place: Span, action: &Action) -> Result<(), AllocError> {
        match action {
            Action::Setverdict(_, _) => {
                self.places.push(place)?;
                Ok(())
            }
            Action::Alt(branches) => self.branches(branches.as_slice()),
            Action::If(conditionals, last) => {
                self.conditionals(conditionals.as_slice())?;
                match last {
                    Some(block) => self.block(block.as_slice()),
                    None => Ok(()),
                }
            }
            Action::While(_, block) | Action::DoWhile(block, _) | Action::For(_, _, _, block) => {
                self.block(block.as_slice())
            }
            _ => Ok(()),
        }
    }

    #[cycle(settings)]
    fn conditionals(&mut self, conditionals: &[Conditional]) -> Result<(), AllocError> {
        for conditional in conditionals {
            self.block(conditional.block.as_slice())?;
        }
        Ok(())
    }

    #[cycle(settings)]
    fn branches(&mut self, branches: &[Branch]) -> Result<(), AllocError> {
        for branch in branches {
            match branch.alternative.get() {
                Alternative::Event(_, _, Some(block))
                | Alternative::Call(_, _, Some(block))
                | Alternative::Else(block) => self.block(block.as_slice())?,
                Alternative::Event(_, _, None) | Alternative::Call(_, _, None) => {}
            }
        }
        Ok(())
    }
}

/// The places of the statements that set a verdict in a definition, where it is a function, an altstep or the test case.
fn places_in(
    alloc: Global,
    definition: &Definition,
    testcase: &[u8],
) -> Result<Vec<Span>, AllocError> {
    let mut found = Found {
        places: Vec::new(alloc),
    };
    match &definition.kind {
        DefinitionKind::Function(function) => found.block(function.body.as_slice())?,
        DefinitionKind::Altstep(altstep) => found.branches(altstep.branches.as_slice())?,
        DefinitionKind::Testcase(other) => {
            if other.name.as_bytes() == testcase {
                found.block(other.body.as_slice())?;
            }
        }
        _ => {}
    }
    Ok(found.places)
}

/// The statements of functions, of altsteps and of a test case that set a verdict, in the order of the text.
pub fn verdict_settings(
    alloc: Global,
    text: &[u8],
    definitions: &[Definition],
    testcase: &str,
) -> Result<Vec<Passage>, AllocError> {
    let source = Source::new(alloc, text)?;
    let names = Names {
        definitions,
        slots: &[],
    };
    let mut settings = Vec::new(alloc);
    for (behaviour, definition) in definitions.iter().enumerate() {
        for place in places_in(alloc, definition, testcase.as_bytes())? {
            settings.push(Passage::new(alloc, &source, names, behaviour, place)?)?;
        }
    }
    Ok(settings)
}
