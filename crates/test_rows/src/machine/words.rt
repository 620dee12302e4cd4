//! What stands first in a list, in words.
use std::alloc::{AllocError, Global};
use ttcn_graph::{First, Part};
use ttcn_syntax::{Action, MapOperation, Statement};

/// The first item of a list, in words.
pub fn item_text(alloc: Global, first: First<'_, '_>) -> Result<String, AllocError> {
    match first {
        First::Doing {
            behaviour: _behaviour,
            statement,
            part,
        } => part_text(alloc, word_of(statement), part),
        First::Mark(statement) => format!(in alloc; "mark of {}", word_of(statement)),
        First::Waiting(target) => {
            let name = target.reference.name().as_bytes();
            format!(in alloc; "result for {}", str::from_utf8(name).unwrap_or("a name"))
        }
    }
}

/// A part of a statement, in words. Names and conditions are counted from 1 on.
fn part_text(alloc: Global, word: &str, part: Part) -> Result<String, AllocError> {
    match part {
        Part::Whole => String::from_str(alloc, word),
        Part::Name(place) => format!(in alloc; "{word} name {}", place.saturating_add(1)),
        Part::From(place) => format!(in alloc; "{word} from {}", place.saturating_add(1)),
        Part::Start => format!(in alloc; "{word} start"),
        Part::Loop => format!(in alloc; "{word} loop"),
        Part::Last => format!(in alloc; "{word} last"),
    }
}

fn word_of_operation(operation: MapOperation) -> &'static str {
    match operation {
        MapOperation::Map => "map",
        MapOperation::Unmap => "unmap",
    }
}

/// What a statement does, in a word.
fn word_of(statement: &Statement) -> &'static str {
    match statement.action.get() {
        Action::Variables(_) => "var",
        Action::Constants(_) => "const",
        Action::Timers(_) => "timer",
        Action::Assign(_) => "assign",
        Action::Call(_) => "call",
        Action::Event(_) => "event",
        Action::Alt(_) => "alt",
        Action::Repeat => "repeat",
        Action::If(_, _) => "if",
        Action::While(_, _) => "while",
        Action::DoWhile(_, _) => "do",
        Action::For(_, _, _, _) => "for",
        Action::Return(_) => "return",
        Action::Stop => "stop",
        Action::Log(_) => "log",
        Action::Setverdict(_, _) => "setverdict",
        Action::Connect(_, _) => "connect",
        Action::Map(mapping) => word_of_operation(mapping.operation),
        Action::Send(_) => "send",
        Action::StartComponent(_, _) => "start",
        Action::StartTimer(_) => "timer start",
        Action::StopOf(_) => "stop of",
        Action::Activate(_) => "activate",
        Action::Deactivate(_) => "deactivate",
    }
}
