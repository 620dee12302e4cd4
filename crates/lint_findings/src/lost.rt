//! Names of which nothing is told any more, since what declared them is cut out.
use crate::edit::{Cut, Instead};
use lint_names::{Defined, Kind, definition_at, is_name, is_word, name_at, symbol_at};
use lint_remarks::Part;
use std::alloc::{AllocError, Global};
use ttcn_syntax::{Spanned, Symbol, Word};

/// A name of which nothing is told from a position on, below another.
#[derive(Clone, Copy)]
struct LostName<'a> {
    name: &'a [u8],
    from: usize,
    to: usize,
}

/// All names of which nothing is told.
#[derive(Drop)]
pub(crate) struct LostNames<'a> {
    alloc: Global,
    tokens: &'a [Spanned],
    defined: &'a [Defined<'a>],
    lost: Vec<LostName<'a>>,
}

impl<'a> LostNames<'a> {
    pub(crate) fn new(
        alloc: Global,
        tokens: &'a [Spanned],
        defined: &'a [Defined<'a>],
    ) -> LostNames<'a> {
        let lost = Vec::new(alloc);
        LostNames {
            alloc,
            tokens,
            defined,
            lost,
        }
    }

    /// Whether nothing is told of a name at a position.
    fn is_lost(&self, name: &[u8], at: usize) -> bool {
        for lost in &self.lost {
            if lost.from <= at && at < lost.to && lost.name == name {
                return true;
            }
        }
        false
    }

    /// Whether a part names something whose declaration is cut out.
    pub(crate) fn are_in(&self, part: Part) -> bool {
        for at in part.from..part.to {
            if let Some(name) = name_at(self.tokens, at) {
                if self.is_lost(name, at) {
                    return true;
                }
            }
        }
        false
    }

    /// Loses the name at a position: in its behaviour where it is declared in one, or in the whole module.
    fn lose(&mut self, at: usize) -> Result<(), AllocError> {
        let Some(name) = name_at(self.tokens, at) else {
            return Ok(());
        };
        let (from, to) = match definition_at(self.defined, at) {
            Some(definition) if definition.is_behaviour() && definition.known.at != at => {
                (definition.from, definition.to)
            }
            _ => (0, self.tokens.len()),
        };
        self.lost.push(LostName { name, from, to })?;
        Ok(())
    }

    /// Loses the names that a part declares: those behind types or commas, but nothing behind `:=`.
    fn lose_declared(&mut self, part: Part) -> Result<(), AllocError> {
        let mut is_value = false;
        for at in part.from..part.to {
            match symbol_at(self.tokens, at) {
                Some(Symbol::Assign) => is_value = true,
                Some(Symbol::Comma | Symbol::Semicolon) => is_value = false,
                _ => {}
            }
            let is_type = is_name(self.tokens, at.saturating_add(1));
            if !is_value && !is_type {
                self.lose(at)?;
            }
        }
        Ok(())
    }

    /// Loses what is declared by a part that is cut out of a definition or a block.
    pub(crate) fn lose_cut(&mut self, cut: Cut) -> Result<(), AllocError> {
        let Some(definition) = definition_at(self.defined, cut.part.from) else {
            return Ok(());
        };
        let is_whole = cut.part.from == definition.from;
        let is_head = match definition.body(self.tokens) {
            Some(open) => cut.part.from < open,
            None => true,
        };
        match definition.known.kind {
            Kind::PortType | Kind::Template => {}
            Kind::Record | Kind::Enumerated | Kind::Component | Kind::Constant => {
                self.lose_declared(cut.part)?;
            }
            _ if is_whole => {}
            _ if is_head => self.lose_declared(cut.part)?,
            _ => return self.lose_local(cut),
        }
        self.lose_uses(definition)
    }

    /// Loses what a statement declares that is cut out.
    fn lose_local(&mut self, cut: Cut) -> Result<(), AllocError> {
        let from = cut.part.from;
        let declares = is_word(self.tokens, from, Word::Var)
            || is_word(self.tokens, from, Word::Const)
            || is_word(self.tokens, from, Word::Timer)
            || is_word(self.tokens, from, Word::For);
        if declares && cut.instead != Instead::Nothing {
            self.lose_declared(cut.part)?;
        }
        Ok(())
    }

    /// Loses a definition, and what stands on it: of a type the names that are declared of it, and the definitions that
    /// name it, one after the other.
    fn lose_uses(&mut self, definition: Defined<'a>) -> Result<(), AllocError> {
        let mut lost = Vec::new(self.alloc);
        lost.push(definition)?;
        for at in 0..self.defined.len() {
            let Some(next) = lost.get(at).copied() else {
                return Ok(());
            };
            self.lose(next.known.at)?;
            if next.known.kind.is_type() && next.known.kind != Kind::Component {
                self.lose_typed(next)?;
                self.add_users(next, &mut lost)?;
            }
        }
        Ok(())
    }

    /// Adds the definitions that name a type, unless they are among the lost ones.
    fn add_users(
        &self,
        definition: Defined<'a>,
        lost: &mut Vec<Defined<'a>>,
    ) -> Result<(), AllocError> {
        for user in self.defined {
            if self.stands_on(*user, definition) && !is_among(lost.as_slice(), *user) {
                lost.push(*user)?;
            }
        }
        Ok(())
    }

    /// Whether a definition names a type: a behaviour in its head, a component type not by its members.
    fn stands_on(&self, user: Defined<'a>, definition: Defined<'a>) -> bool {
        if user.known.kind == Kind::Component {
            return false;
        }
        let to = match user.body(self.tokens) {
            Some(open) if user.is_behaviour() => open,
            _ => user.to,
        };
        for at in user.from..to {
            if at != user.known.at && name_at(self.tokens, at) == Some(definition.known.name) {
                return true;
            }
        }
        false
    }

    /// Loses the names that are declared of a type.
    fn lose_typed(&mut self, definition: Defined<'a>) -> Result<(), AllocError> {
        for at in 0..self.tokens.len() {
            if name_at(self.tokens, at) == Some(definition.known.name) {
                self.lose(at.saturating_add(1))?;
            }
        }
        Ok(())
    }
}

/// Whether a definition is among others.
fn is_among(others: &[Defined<'_>], definition: Defined<'_>) -> bool {
    for other in others {
        if other.from == definition.from {
            return true;
        }
    }
    false
}
