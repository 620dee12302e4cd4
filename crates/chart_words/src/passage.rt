//! What stands at a place of a module, and in which behaviour (ES 201 873-1, 16.1 to 16.3).
use crate::source::Source;
use chart_causes::Names;
use std::alloc::{AllocError, Global};
use ttcn_syntax::{Definition, DefinitionKind, Span};

/// What stands at a place.
#[derive(Drop)]
pub struct Passage {
    pub place: Span,
    /// The behaviour in which it stands: `altstep lending`.
    pub behaviour: String,
    /// What stands there.
    pub text: String,
}

/// What a behaviour is.
fn kind_word(kind: &DefinitionKind) -> &'static str {
    match kind {
        DefinitionKind::Function(_) => "function ",
        DefinitionKind::Altstep(_) => "altstep ",
        DefinitionKind::Testcase(_) => "testcase ",
        _ => "",
    }
}

/// What the behaviour at a position is, and its name.
fn behaviour_at(alloc: Global, names: Names<'_>, at: usize) -> Result<String, AllocError> {
    let mut text = String::new(alloc);
    if let Some(definition) = names.definitions.get(at) {
        text.push_str(kind_word(&definition.kind))?;
    }
    names.write_definition(&mut text, at)?;
    Ok(text)
}

impl Passage {
    /// What stands at a place, in the behaviour at a position among the definitions.
    pub(crate) fn new(
        alloc: Global,
        source: &Source<'_>,
        names: Names<'_>,
        behaviour: usize,
        place: Span,
    ) -> Result<Passage, AllocError> {
        Ok(Passage {
            place,
            behaviour: behaviour_at(alloc, names, behaviour)?,
            text: source.phrase(alloc, place)?,
        })
    }
}

/// The definition in which a place stands: the last one that begins no later.
fn definition_of(definitions: &[Definition], place: Span) -> usize {
    let mut found = 0;
    for (at, definition) in definitions.iter().enumerate() {
        if definition.place.cmp(&place).is_le() {
            found = at;
        }
    }
    found
}

/// What stands at places, in their order.
pub fn passages_at(
    alloc: Global,
    text: &[u8],
    definitions: &[Definition],
    places: &[Span],
) -> Result<Vec<Passage>, AllocError> {
    let source = Source::new(alloc, text)?;
    let names = Names {
        definitions,
        slots: &[],
    };
    let mut passages = Vec::new(alloc);
    for place in places {
        let behaviour = definition_of(definitions, *place);
        passages.push(Passage::new(alloc, &source, names, behaviour, *place)?)?;
    }
    Ok(passages)
}
