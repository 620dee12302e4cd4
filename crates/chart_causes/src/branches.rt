//! The branches of a module (ES 201 873-1, 16.2 and 20.2).
use std::alloc::{AllocError, Global};
use ttcn_syntax::{
    Action, Alternative, Branch, Conditional, Definition, DefinitionKind, Span, Statement,
};

/// A branch with an event, an `[else]`, or a statement that is an event.
#[derive(Clone, Copy)]
pub struct Branching {
    pub place: Span,
    /// The position of the behaviour in which it stands among the definitions.
    pub behaviour: usize,
}

/// The branches that were found so far, of the behaviour at a position.
#[derive(Drop)]
struct Found {
    behaviour: usize,
    branches: Vec<Branching>,
}

impl Found {
    fn push(&mut self, place: Span) -> Result<(), AllocError> {
        let behaviour = self.behaviour;
        self.branches.push(Branching { place, behaviour })?;
        Ok(())
    }

    #[cycle(branches)]
    fn block(&mut self, block: &[Statement]) -> Result<(), AllocError> {
        for statement in block {
            self.action(statement.place, statement.action.get())?;
        }
        Ok(())
    }

    #[cycle(branches)]
    fn action(&mut self, place: Span, action: &Action) -> Result<(), AllocError> {
        match action {
            Action::Event(_) => self.push(place),
            Action::Alt(branches) => self.branches(branches.as_slice()),
            Action::If(conditionals, last) => {
                self.conditionals(conditionals.as_slice())?;
                match last {
                    Some(block) => self.block(block.as_slice()),
                    None => Ok(()),
                }
            }
            Action::While(_, block) | Action::DoWhile(block, _) | Action::For(_, _, _, block) => {
                self.block(block.as_slice())
            }
            _ => Ok(()),
        }
    }

    #[cycle(branches)]
    fn conditionals(&mut self, conditionals: &[Conditional]) -> Result<(), AllocError> {
        for conditional in conditionals {
            self.block(conditional.block.as_slice())?;
        }
        Ok(())
    }

    /// A branch that calls an altstep is no branch itself: those of the altstep are.
    #[cycle(branches)]
    fn branches(&mut self, branches: &[Branch]) -> Result<(), AllocError> {
        for branch in branches {
            match branch.alternative.get() {
                Alternative::Event(_, _, block) => {
                    self.push(branch.place)?;
                    if let Some(block) = block {
                        self.block(block.as_slice())?;
                    }
                }
                Alternative::Call(_, _, Some(block)) => self.block(block.as_slice())?,
                Alternative::Call(_, _, None) => {}
                Alternative::Else(block) => {
                    self.push(branch.place)?;
                    self.block(block.as_slice())?;
                }
            }
        }
        Ok(())
    }
}

/// The branches of functions, altsteps and of one test case, in the order of the text.
pub fn branches_of(
    alloc: Global,
    definitions: &[Definition],
    testcase: &[u8],
) -> Result<Vec<Branching>, AllocError> {
    let mut found = Found {
        behaviour: 0,
        branches: Vec::new(alloc),
    };
    for (at, definition) in definitions.iter().enumerate() {
        found.behaviour = at;
        match &definition.kind {
            DefinitionKind::Function(function) => found.block(function.body.as_slice())?,
            DefinitionKind::Altstep(altstep) => found.branches(altstep.branches.as_slice())?,
            DefinitionKind::Testcase(other) => {
                if other.name.as_bytes() == testcase {
                    found.block(other.body.as_slice())?;
                }
            }
            _ => {}
        }
    }
    let Found {
        behaviour: _behaviour,
        branches,
    } = found;
    Ok(branches)
}
