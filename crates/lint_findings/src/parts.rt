//! The cuts of what breaks a rule: each can be cut out, and a module is left.
use crate::edit::{Cut, Instead};
use lint_names::{
    Defined, Kind, before, closing, end_of_event, end_of_statement, is_symbol, is_word, outside,
    word_at,
};
use lint_remarks::Part;
use std::alloc::{AllocError, Global};
use ttcn_syntax::{Spanned, Symbol, Word};

/// Something that breaks a rule: the cuts that may break it alone, the whole, and what is looked at where the whole
/// breaks it. Of a behaviour that is its head, since the statements of its body are things of their own.
#[derive(Drop)]
pub(crate) struct Thing {
    pub(crate) cuts: Vec<Cut>,
    pub(crate) whole: Cut,
    shown: Part,
    /// Whether it is a declaration of variables.
    declares: bool,
}

impl Thing {
    fn new(cuts: Vec<Cut>, whole: Cut) -> Thing {
        Thing {
            cuts,
            whole,
            shown: whole.part,
            declares: false,
        }
    }

    /// What a part that breaks a rule depends on: a declared value on the type before it, too.
    pub(crate) fn judged_of(&self, cut: Cut) -> Part {
        if self.declares {
            self.whole.part
        } else {
            self.shown_of(cut)
        }
    }

    /// What is looked at where a part breaks a rule.
    pub(crate) fn shown_of(&self, cut: Cut) -> Part {
        if cut == self.whole {
            self.shown
        } else {
            cut.part
        }
    }
}

/// The position behind the block or the bracket that opens next, at or behind a position.
fn behind_next(tokens: &[Spanned], from: usize, symbol: Symbol) -> usize {
    match outside(tokens, from, tokens.len(), symbol) {
        Some(open) => closing(tokens, open).saturating_add(1),
        None => tokens.len(),
    }
}

/// The position behind a `;` at a position, or this position.
fn behind_semicolon(tokens: &[Spanned], at: usize) -> usize {
    if is_symbol(tokens, at, Symbol::Semicolon) {
        at.saturating_add(1)
    } else {
        at
    }
}

/// The condition in brackets behind a word.
fn condition(tokens: &[Spanned], word: usize) -> Cut {
    let open = word.saturating_add(1);
    Cut::new(open.saturating_add(1), closing(tokens, open), Instead::True)
}

/// An `if` with all that follows by `else`.
fn conditional(alloc: Global, tokens: &[Spanned], at: usize) -> Result<Thing, AllocError> {
    let mut cuts = Vec::new(alloc);
    let mut next = at;
    let mut end = at;
    for _turn in at..tokens.len() {
        if is_word(tokens, next, Word::If) {
            let cut = condition(tokens, next);
            cuts.push(cut)?;
            end = behind_next(tokens, cut.part.to.saturating_add(1), Symbol::LeftBrace);
        } else {
            end = behind_next(tokens, next, Symbol::LeftBrace);
        }
        if !is_word(tokens, end, Word::Else) {
            break;
        }
        next = end.saturating_add(1);
    }
    let whole = Cut::new(at, end, Instead::Log);
    Ok(Thing::new(cuts, whole))
}

/// A `do` with its condition at the end.
fn do_while(alloc: Global, tokens: &[Spanned], at: usize) -> Result<Thing, AllocError> {
    let condition = condition(tokens, behind_next(tokens, at, Symbol::LeftBrace));
    let whole = Cut::new(at, condition.part.to.saturating_add(1), Instead::Log);
    let mut cuts = Vec::new(alloc);
    cuts.push(condition)?;
    Ok(Thing::new(cuts, whole))
}

/// A `while` or a `for`: its condition, and of a `for` its whole head.
fn repetition(alloc: Global, tokens: &[Spanned], at: usize) -> Result<Thing, AllocError> {
    let mut cuts = Vec::new(alloc);
    let open = at.saturating_add(1);
    let close = closing(tokens, open);
    let behind = close.saturating_add(1);
    if is_word(tokens, at, Word::While) {
        cuts.push(condition(tokens, at))?;
    } else {
        if let Some(middle) = middle_of(tokens, open, close) {
            cuts.push(middle)?;
        }
        cuts.push(Cut::new(at, behind, Instead::WhileTrue))?;
    }
    let end = behind_next(tokens, behind, Symbol::LeftBrace);
    Ok(Thing::new(cuts, Cut::new(at, end, Instead::Log)))
}

/// The condition in the head of a `for`.
fn middle_of(tokens: &[Spanned], open: usize, close: usize) -> Option<Cut> {
    let first = outside(tokens, open.saturating_add(1), close, Symbol::Semicolon)?;
    let from = first.saturating_add(1);
    let second = outside(tokens, from, close, Symbol::Semicolon)?;
    Some(Cut::new(from, second, Instead::True))
}

/// A branch, which begins with `[`.
fn branch(alloc: Global, tokens: &[Spanned], at: usize) -> Result<Thing, AllocError> {
    let mut cuts = Vec::new(alloc);
    let close = closing(tokens, at);
    let guard = at.saturating_add(1);
    if guard < close {
        cuts.push(Cut::new(guard, close, Instead::Nothing))?;
    }
    let event = close.saturating_add(1);
    let end = end_of_event(tokens, event);
    cuts.push(Cut::new(event, end, Instead::AllDone))?;
    let behind = if is_symbol(tokens, end, Symbol::LeftBrace) {
        closing(tokens, end).saturating_add(1)
    } else {
        end
    };
    let to = behind_semicolon(tokens, behind);
    let whole = Cut::new(at, to, Instead::Nothing);
    Ok(Thing {
        cuts,
        whole,
        shown: Part { from: at, to: end },
        declares: false,
    })
}

/// The values of a declaration's variables, each from its `:=` on.
fn values(
    alloc: Global,
    tokens: &[Spanned],
    from: usize,
    to: usize,
) -> Result<Vec<Cut>, AllocError> {
    let mut cuts = Vec::new(alloc);
    let mut free = from;
    for at in from..to {
        if at >= free && is_symbol(tokens, at, Symbol::Assign) {
            let end = outside(tokens, at, to, Symbol::Comma).unwrap_or(to);
            cuts.push(Cut::new(at, end, Instead::Nothing))?;
            free = end;
        }
    }
    Ok(cuts)
}

/// The parts of a list in brackets, which commas part. Each goes with one comma.
fn listed(alloc: Global, tokens: &[Spanned], open: usize) -> Result<Vec<Cut>, AllocError> {
    let mut cuts = Vec::new(alloc);
    let close = closing(tokens, open);
    let mut from = open.saturating_add(1);
    for _turn in open..close {
        let comma = outside(tokens, from, close, Symbol::Comma);
        let to = comma.unwrap_or(close);
        let is_first = before(from) == Some(open);
        if from < to {
            cuts.push(match (is_first, comma) {
                (true, Some(comma)) => Cut::new(from, comma.saturating_add(1), Instead::Nothing),
                (true, None) => Cut::new(from, to, Instead::Nothing),
                (false, _) => Cut::new(from.saturating_sub(1), to, Instead::Nothing),
            })?;
        }
        match comma {
            Some(comma) => from = comma.saturating_add(1),
            None => break,
        }
    }
    Ok(cuts)
}

/// The members of a component type, or what a port type lists for each direction: each from its word on.
fn members(
    alloc: Global,
    tokens: &[Spanned],
    open: usize,
    words: &[Word],
) -> Result<Vec<Cut>, AllocError> {
    let mut cuts = Vec::new(alloc);
    let close = closing(tokens, open);
    let mut begun = None;
    for at in open..close.saturating_add(1) {
        let begins = match word_at(tokens, at) {
            Some(word) => words.contains(&word),
            None => false,
        };
        if begins || at == close {
            if let Some(from) = begun {
                cuts.push(Cut::new(from, at, Instead::Nothing))?;
            }
            begun = Some(at);
        }
    }
    Ok(cuts)
}

/// The parts of a definition: fields, names, members, parameters.
fn parts_of(
    alloc: Global,
    tokens: &[Spanned],
    defined: Defined<'_>,
) -> Result<Vec<Cut>, AllocError> {
    match (defined.known.kind, defined.body(tokens)) {
        (Kind::Record | Kind::Enumerated, Some(open)) => listed(alloc, tokens, open),
        (Kind::PortType, Some(open)) => {
            members(alloc, tokens, open, &[Word::In, Word::Out, Word::Inout])
        }
        (Kind::Component, Some(open)) => {
            let words = [Word::Port, Word::Var, Word::Const, Word::Timer];
            members(alloc, tokens, open, &words)
        }
        (Kind::Function | Kind::Altstep, _) => match defined.parameters(tokens) {
            Some(open) => listed(alloc, tokens, open),
            None => Ok(Vec::new(alloc)),
        },
        _ => Ok(Vec::new(alloc)),
    }
}

/// A definition. Of a behaviour its head is looked at.
fn definition(
    alloc: Global,
    tokens: &[Spanned],
    defined: Defined<'_>,
) -> Result<Thing, AllocError> {
    let (from, to) = (defined.from, defined.to);
    let cuts = parts_of(alloc, tokens, defined)?;
    let end = match defined.body(tokens) {
        Some(open) if defined.is_behaviour() => open,
        _ => to,
    };
    Ok(Thing {
        cuts,
        whole: Cut::new(from, to, Instead::Nothing),
        shown: Part { from, to: end },
        declares: false,
    })
}

/// A declaration of variables.
fn declaration(alloc: Global, tokens: &[Spanned], at: usize) -> Result<Thing, AllocError> {
    let end = end_of_statement(tokens, at);
    let cuts = values(alloc, tokens, at, end)?;
    let mut thing = Thing::new(cuts, Cut::new(at, end, Instead::Log));
    thing.declares = true;
    Ok(thing)
}

/// The statement, the branch or the definition that begins at a position, with its parts.
pub(crate) fn thing_at(
    alloc: Global,
    tokens: &[Spanned],
    defined: &[Defined<'_>],
    at: usize,
) -> Result<Thing, AllocError> {
    for found in defined {
        if found.from == at {
            return definition(alloc, tokens, *found);
        }
    }
    if is_symbol(tokens, at, Symbol::LeftBracket) {
        return branch(alloc, tokens, at);
    }
    match word_at(tokens, at) {
        Some(Word::If) => conditional(alloc, tokens, at),
        Some(Word::Do) => do_while(alloc, tokens, at),
        Some(Word::While | Word::For) => repetition(alloc, tokens, at),
        Some(Word::Var) => declaration(alloc, tokens, at),
        _ => {
            let whole = Cut::new(at, end_of_statement(tokens, at), Instead::Log);
            Ok(Thing::new(Vec::new(alloc), whole))
        }
    }
}
