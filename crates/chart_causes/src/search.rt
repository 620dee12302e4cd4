//! The statement that stands at a place.
use ttcn_syntax::{
    Action, Alternative, Branch, Conditional, Definition, DefinitionKind, Span, Statement,
};

/// The statement at a place in a block, or in a block of one of its statements.
#[cycle(search)]
fn in_block(block: &[Statement], place: Span) -> Option<&Statement> {
    for statement in block {
        if statement.place == place {
            return Some(statement);
        }
        if let Some(found) = in_action(statement.action.get(), place) {
            return Some(found);
        }
    }
    None
}

#[cycle(search)]
fn in_action(action: &Action, place: Span) -> Option<&Statement> {
    match action {
        Action::Alt(branches) => in_branches(branches.as_slice(), place),
        Action::If(conditionals, last) => {
            if let Some(found) = in_conditionals(conditionals.as_slice(), place) {
                return Some(found);
            }
            match last {
                Some(block) => in_block(block.as_slice(), place),
                None => None,
            }
        }
        Action::While(_, block) | Action::DoWhile(block, _) | Action::For(_, _, _, block) => {
            in_block(block.as_slice(), place)
        }
        _ => None,
    }
}

#[cycle(search)]
fn in_conditionals(conditionals: &[Conditional], place: Span) -> Option<&Statement> {
    for conditional in conditionals {
        if let Some(found) = in_block(conditional.block.as_slice(), place) {
            return Some(found);
        }
    }
    None
}

#[cycle(search)]
fn in_branches(branches: &[Branch], place: Span) -> Option<&Statement> {
    for branch in branches {
        let found = match branch.alternative.get() {
            Alternative::Event(_, _, Some(block)) | Alternative::Call(_, _, Some(block)) => {
                in_block(block.as_slice(), place)
            }
            Alternative::Else(block) => in_block(block.as_slice(), place),
            Alternative::Event(_, _, None) | Alternative::Call(_, _, None) => None,
        };
        if found.is_some() {
            return found;
        }
    }
    None
}

/// The statement at a place among definitions.
pub fn statement_at(definitions: &[Definition], place: Span) -> Option<&Statement> {
    for definition in definitions {
        let found = match &definition.kind {
            DefinitionKind::Function(function) => in_block(function.body.as_slice(), place),
            DefinitionKind::Testcase(testcase) => in_block(testcase.body.as_slice(), place),
            DefinitionKind::Altstep(altstep) => in_branches(altstep.branches.as_slice(), place),
            _ => None,
        };
        if found.is_some() {
            return found;
        }
    }
    None
}
