//! The names of a module's text: what they are declared as, and where they are visible.
use crate::kind::Kind;
use crate::tokens::{
    before, closing, depth_behind, end_of_statement, is_name, is_symbol, is_word, name_at, outside,
    symbol_at, symbol_before, word_at,
};
use std::alloc::{AllocError, Global};
use ttcn_syntax::{Spanned, Symbol, Word};

/// A name that is declared, and the position of its token. Of a variable, a constant or a port also that of its type.
#[derive(Clone, Copy)]
pub struct Known<'a> {
    pub name: &'a [u8],
    pub kind: Kind,
    pub at: usize,
    pub typed: Option<usize>,
}

/// A definition of the module: its name, its first position, and the position behind it.
#[derive(Clone, Copy)]
pub struct Defined<'a> {
    pub known: Known<'a>,
    pub from: usize,
    pub to: usize,
}

impl<'a> Defined<'a> {
    pub fn holds(self, at: usize) -> bool {
        self.from <= at && at < self.to
    }

    /// Whether it is a function, an altstep or a test case.
    pub fn is_behaviour(self) -> bool {
        matches!(
            self.known.kind,
            Kind::Function | Kind::Altstep | Kind::Testcase
        )
    }

    /// The position of a word of its head, from which the brace of the body is far.
    fn head_word(self, tokens: &[Spanned], word: Word) -> Option<usize> {
        let open = self.body(tokens)?;
        (self.from..open).find(|at| is_word(tokens, *at, word))
    }

    /// The position of the brace that opens its body.
    pub fn body(self, tokens: &[Spanned]) -> Option<usize> {
        outside(tokens, self.from, self.to, Symbol::LeftBrace)
    }

    /// The name of the component type that it runs on.
    pub fn runs_on(self, tokens: &'a [Spanned]) -> Option<&'a [u8]> {
        let runs = self.head_word(tokens, Word::Runs)?;
        name_at(tokens, runs.saturating_add(2))
    }

    /// The name of the component type of the system ports: behind `system`, or else the one that it runs on.
    pub fn system(self, tokens: &'a [Spanned]) -> Option<&'a [u8]> {
        if self.known.kind != Kind::Testcase {
            return None;
        }
        match self.head_word(tokens, Word::System) {
            Some(system) => name_at(tokens, system.saturating_add(1)),
            None => self.runs_on(tokens),
        }
    }

    /// The position of the type behind `return` in its head.
    pub fn result(self, tokens: &[Spanned]) -> Option<usize> {
        Some(self.head_word(tokens, Word::Return)?.saturating_add(1))
    }

    /// The bracket of its parameters, where it has such.
    pub fn parameters(self, tokens: &[Spanned]) -> Option<usize> {
        let open = self.known.at.saturating_add(1);
        if is_symbol(tokens, open, Symbol::LeftParen) {
            Some(open)
        } else {
            None
        }
    }
}

/// What a definition that begins with these words is, and how far behind its first token its name stands.
fn head_of(tokens: &[Spanned], at: usize) -> Option<(Kind, usize)> {
    match word_at(tokens, at)? {
        Word::Type => match word_at(tokens, at.saturating_add(1))? {
            Word::Record => Some((Kind::Record, 2)),
            Word::Enumerated => Some((Kind::Enumerated, 2)),
            Word::Port => Some((Kind::PortType, 2)),
            Word::Component => Some((Kind::Component, 2)),
            _ => None,
        },
        Word::Const => Some((Kind::Constant, 2)),
        Word::Template => Some((Kind::Template, 2)),
        Word::Function => Some((Kind::Function, 1)),
        Word::Altstep => Some((Kind::Altstep, 1)),
        Word::Testcase => Some((Kind::Testcase, 1)),
        _ => None,
    }
}

/// The position behind a definition.
fn end_of_definition(tokens: &[Spanned], kind: Kind, from: usize) -> usize {
    if matches!(kind, Kind::Constant | Kind::Template) {
        return end_of_constants(tokens, from);
    }
    match outside(tokens, from, tokens.len(), Symbol::LeftBrace) {
        Some(open) => closing(tokens, open).saturating_add(1),
        None => tokens.len(),
    }
}

/// Whether a definition, or what stands behind all of them, begins at a position.
fn begins(tokens: &[Spanned], at: usize) -> bool {
    head_of(tokens, at).is_some()
        || is_word(tokens, at, Word::With)
        || is_word(tokens, at, Word::Control)
}

/// The position behind constants or a template of the module, whose `;` may be missing.
fn end_of_constants(tokens: &[Spanned], from: usize) -> usize {
    let end = end_of_statement(tokens, from);
    for at in from.saturating_add(1)..end {
        if begins(tokens, at) {
            return at;
        }
    }
    end
}

/// The definitions of the module, in the order of the text.
pub fn definitions<'a>(
    alloc: Global,
    tokens: &'a [Spanned],
) -> Result<Vec<Defined<'a>>, AllocError> {
    let mut found = Vec::new(alloc);
    let mut depth = 0;
    let mut free = 0;
    for at in 0..tokens.len() {
        depth = depth_behind(depth, symbol_at(tokens, at));
        if depth != 1 || at < free {
            continue;
        }
        if let Some((kind, distance)) = head_of(tokens, at) {
            let name_place = at.saturating_add(distance);
            let to = end_of_definition(tokens, kind, at);
            free = to;
            if let Some(name) = name_at(tokens, name_place) {
                let typed = before(name_place);
                found.push(Defined {
                    known: Known {
                        name,
                        kind,
                        at: name_place,
                        typed,
                    },
                    from: at,
                    to,
                })?;
            }
        }
    }
    Ok(found)
}

/// The definition that holds a position.
pub fn definition_at<'a>(defined: &[Defined<'a>], at: usize) -> Option<Defined<'a>> {
    defined
        .iter()
        .find(|definition| definition.holds(at))
        .copied()
}

/// The definition of a name.
pub fn definition_of<'a>(defined: &[Defined<'a>], name: &[u8]) -> Option<Defined<'a>> {
    defined
        .iter()
        .find(|definition| definition.known.name == name)
        .copied()
}

/// Adds the names of a declaration: those before `:=`, `,` or the end, from `from` on.
fn add_declared<'a>(
    tokens: &'a [Spanned],
    kind: Kind,
    typed: Option<usize>,
    from: usize,
    to: usize,
    found: &mut Vec<Known<'a>>,
) -> Result<(), AllocError> {
    let mut depth = 0;
    let mut is_due = true;
    for at in from..to {
        let symbol = symbol_at(tokens, at);
        if depth == 0 && is_due {
            if let Some(name) = name_at(tokens, at) {
                found.push(Known {
                    name,
                    kind,
                    at,
                    typed,
                })?;
            }
        }
        depth = depth_behind(depth, symbol);
        is_due = depth == 0 && symbol == Some(Symbol::Comma);
    }
    Ok(())
}

/// Adds the names that a declaration at a position declares: variables, constants, timers or ports.
pub fn add_declaration<'a>(
    tokens: &'a [Spanned],
    at: usize,
    found: &mut Vec<Known<'a>>,
) -> Result<(), AllocError> {
    let end = end_of_statement(tokens, at);
    let typed = at.saturating_add(1);
    let names = at.saturating_add(2);
    match word_at(tokens, at) {
        Some(Word::Var) => add_declared(tokens, Kind::Variable, Some(typed), names, end, found),
        Some(Word::Const) => add_declared(tokens, Kind::Constant, Some(typed), names, end, found),
        Some(Word::Port) => add_declared(tokens, Kind::Port, Some(typed), names, end, found),
        Some(Word::Timer) => add_declared(tokens, Kind::Timer, None, typed, end, found),
        _ => Ok(()),
    }
}

/// Adds the members of a component type.
pub fn add_members<'a>(
    tokens: &'a [Spanned],
    component: Defined<'a>,
    found: &mut Vec<Known<'a>>,
) -> Result<(), AllocError> {
    let Some(open) = component.body(tokens) else {
        return Ok(());
    };
    for at in open..component.to {
        add_declaration(tokens, at, found)?;
    }
    Ok(())
}

/// Adds the names of an enumeration.
pub fn add_enumerators<'a>(
    tokens: &'a [Spanned],
    enumeration: Defined<'a>,
    found: &mut Vec<Known<'a>>,
) -> Result<(), AllocError> {
    let Some(open) = enumeration.body(tokens) else {
        return Ok(());
    };
    add_declared(
        tokens,
        Kind::Enumerator,
        Some(enumeration.known.at),
        open.saturating_add(1),
        closing(tokens, open),
        found,
    )
}

/// Adds the parameters of a behaviour or a template: names behind their types.
pub fn add_parameters<'a>(
    tokens: &'a [Spanned],
    definition: Defined<'a>,
    found: &mut Vec<Known<'a>>,
) -> Result<(), AllocError> {
    let Some(open) = definition.parameters(tokens) else {
        return Ok(());
    };
    for at in open..closing(tokens, open) {
        let next = at.saturating_add(1);
        let ends = is_symbol(tokens, next, Symbol::Comma)
            || is_symbol(tokens, next, Symbol::RightParen);
        if let (true, Some(name)) = (ends, name_at(tokens, at)) {
            found.push(Known {
                name,
                kind: Kind::Variable,
                at,
                typed: before(at),
            })?;
        }
    }
    Ok(())
}

/// The names of the whole module.
pub fn module_names<'a>(
    alloc: Global,
    tokens: &'a [Spanned],
    defined: &[Defined<'a>],
) -> Result<Vec<Known<'a>>, AllocError> {
    let mut found = Vec::new(alloc);
    for definition in defined {
        if definition.known.kind == Kind::Constant {
            add_declaration(tokens, definition.from, &mut found)?;
        } else {
            found.push(definition.known)?;
        }
        if definition.known.kind == Kind::Enumerated {
            add_enumerators(tokens, *definition, &mut found)?;
        }
    }
    Ok(found)
}

/// Adds the names that the blocks round a position have declared before it.
fn add_locals<'a>(
    alloc: Global,
    tokens: &'a [Spanned],
    from: usize,
    to: usize,
    found: &mut Vec<Known<'a>>,
) -> Result<(), AllocError> {
    let mut counts = Vec::new(alloc);
    // how many names there were before the head of a `for`, whose names end with its block
    let mut head = None;
    for at in from..to {
        match symbol_at(tokens, at) {
            Some(Symbol::LeftBrace) => {
                let is_block = symbol_before(tokens, at) == Some(Symbol::RightParen);
                counts.push(match head {
                    Some(count) if is_block => count,
                    _ => found.len(),
                })?;
                if is_block {
                    head = None;
                }
            }
            Some(Symbol::RightBrace) => {
                if let Some(count) = counts.pop() {
                    found.truncate(count);
                }
            }
            _ => {
                if is_word(tokens, at, Word::For) {
                    head = Some(found.len());
                }
                add_declaration(tokens, at, found)?;
            }
        }
    }
    Ok(())
}

/// The names that are visible at a position, the innermost last.
pub fn visible<'a>(
    alloc: Global,
    tokens: &'a [Spanned],
    defined: &[Defined<'a>],
    at: usize,
) -> Result<Vec<Known<'a>>, AllocError> {
    let mut found = module_names(alloc, tokens, defined)?;
    let Some(definition) = definition_at(defined, at) else {
        return Ok(found);
    };
    if let Some(name) = definition.runs_on(tokens) {
        if let Some(component) = definition_of(defined, name) {
            add_members(tokens, component, &mut found)?;
        }
    }
    add_parameters(tokens, definition, &mut found)?;
    if let Some(open) = definition.body(tokens) {
        add_locals(alloc, tokens, open, at, &mut found)?;
    }
    Ok(found)
}

/// What a name stands for among those that are visible: the innermost declaration.
pub fn meaning<'a>(known: &[Known<'a>], name: &[u8]) -> Option<Known<'a>> {
    let mut found = None;
    for item in known {
        if item.name == name {
            found = Some(*item);
        }
    }
    found
}

/// Whether the token at a position is a name in a declaration, which follows its type.
pub fn is_behind_type(tokens: &[Spanned], at: usize) -> bool {
    let Some(previous) = before(at) else {
        return false;
    };
    is_name(tokens, previous)
        || matches!(
            word_at(tokens, previous),
            Some(Word::Integer | Word::Boolean | Word::Default)
        )
}
