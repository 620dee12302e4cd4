//! Names that aren't visible, of the wrong kind, or declared twice.
use crate::scene::{Scene, quoted};
use lint_names::{
    Kind, Known, Remark, Wanted, closing, definition_at, definition_of, is_behind_type, is_name,
    is_symbol, is_word, meaning, name_at, nearest_name, outside, place_at, symbol_at,
    symbol_before, visible, word_at, word_before,
};
use std::alloc::AllocError;
use ttcn_syntax::{Spanned, Symbol, Word};

/// A place where a type is named: behind a word of a declaration, or before a name.
pub(crate) fn is_type_place(tokens: &[Spanned], at: usize) -> bool {
    is_name(tokens, at.saturating_add(1))
        || matches!(
            word_before(tokens, at),
            Some(
                Word::Var
                    | Word::Const
                    | Word::Template
                    | Word::On
                    | Word::System
                    | Word::In
                    | Word::Out
                    | Word::Inout
            )
        )
}

impl<'a> Scene<'a> {
    /// A name of the part that has to be visible: no field, no name that is declared, no port of a component.
    fn is_use(&self, at: usize) -> bool {
        let is_field = symbol_before(self.tokens, at) == Some(Symbol::Dot)
            || (is_symbol(self.tokens, at.saturating_add(1), Symbol::Assign)
                && at != self.part.from);
        is_name(self.tokens, at) && !is_field && !self.is_declared(at) && !self.is_port_of(at)
    }

    /// A name that the part declares.
    fn is_declared(&self, at: usize) -> bool {
        let Some(definition) = definition_at(self.defined, at) else {
            return false;
        };
        let is_next = symbol_before(self.tokens, at) == Some(Symbol::Comma)
            && self.is_declaration();
        let is_enumerator = definition.known.kind == Kind::Enumerated
            && definition.body(self.tokens).is_some_and(|open| open < at);
        definition.known.at == at
            || is_behind_type(self.tokens, at)
            || is_next
            || is_enumerator
            || word_before(self.tokens, at) == Some(Word::Timer)
    }

    /// Whether the part begins with a word of declarations.
    fn is_declaration(&self) -> bool {
        matches!(
            word_at(self.tokens, self.part.from),
            Some(Word::Var | Word::Const | Word::Timer | Word::Port)
        )
    }

    /// A port behind the colon of `connect`, `map` and `unmap`.
    fn is_port_of(&self, at: usize) -> bool {
        symbol_before(self.tokens, at) == Some(Symbol::Colon) && self.joins_ports()
    }

    /// Whether a position is in a definition of a kind.
    fn is_in(&self, kind: Kind, at: usize) -> bool {
        match definition_at(self.defined, at) {
            Some(definition) => definition.known.kind == kind,
            None => false,
        }
    }

    /// A place of a template: in the definition of one, or in the brackets behind `send` or `receive`.
    fn is_message_place(&self, at: usize) -> bool {
        for word in self.part.from..at {
            let open = word.saturating_add(1);
            let is_event = matches!(word_at(self.tokens, word), Some(Word::Send | Word::Receive));
            let has_message = is_event && is_symbol(self.tokens, open, Symbol::LeftParen);
            if has_message && at < closing(self.tokens, open) {
                return true;
            }
        }
        self.is_in(Kind::Template, at)
    }

    /// Whether the thing is a `connect`, `map` or `unmap`.
    fn joins_ports(&self) -> bool {
        matches!(
            word_at(self.tokens, self.whole.from),
            Some(Word::Connect | Word::Map | Word::Unmap)
        )
    }

    /// What a name before a dot has to stand for.
    fn wanted_before_dot(&self, dot: usize) -> Wanted {
        match word_at(self.tokens, dot.saturating_add(1)) {
            Some(Word::Create) => Wanted::Component,
            Some(Word::Send | Word::Receive) => Wanted::Port,
            Some(Word::Timeout) => Wanted::Timer,
            Some(Word::Done) => Wanted::Reference,
            Some(Word::Start | Word::Stop | Word::Running) => Wanted::Started,
            _ => Wanted::Record,
        }
    }

    /// What a name has to stand for by the word or the bracket before it.
    fn wanted_behind(&self, at: usize) -> Wanted {
        match word_before(self.tokens, at) {
            Some(Word::On | Word::System) => return Wanted::Component,
            Some(Word::Port) => return Wanted::PortType,
            Some(Word::To | Word::From) => return Wanted::Reference,
            _ => {}
        }
        if is_type_place(self.tokens, at) || self.is_in(Kind::PortType, at) {
            Wanted::Type
        } else if is_word(self.tokens, at.saturating_sub(2), Word::Deactivate) {
            Wanted::Default
        } else if self.is_message_place(at) {
            Wanted::Message
        } else {
            Wanted::Value
        }
    }

    /// What a name has to stand for at its place.
    fn wanted(&self, at: usize) -> Wanted {
        let next = at.saturating_add(1);
        match symbol_at(self.tokens, next) {
            Some(Symbol::LeftParen) if self.is_message_place(at) => Wanted::Template,
            Some(Symbol::LeftParen) => Wanted::Called,
            Some(Symbol::Dot) => self.wanted_before_dot(next),
            Some(Symbol::Colon) if self.joins_ports() => Wanted::Reference,
            Some(Symbol::Colon) => Wanted::Type,
            _ => self.wanted_behind(at),
        }
    }

    /// A name that isn't visible, and the one that may have been meant.
    fn unknown(
        &self,
        at: usize,
        name: &'a [u8],
        known: &[Known<'a>],
    ) -> Result<Remark, AllocError> {
        let remark = self.named(at, "", " isn't visible here")?;
        match nearest_name(self.alloc, name, known, self.wanted(at))? {
            Some(near) => Ok(remark.with_help(quoted(self.alloc, "did you mean ", near, "?")?)),
            None => Ok(remark),
        }
    }

    /// Whether a name is declared in the part, or in the block round it, before its use at a position.
    fn is_declared_before(&self, at: usize, name: &[u8]) -> Result<bool, AllocError> {
        let known = visible(self.alloc, self.tokens, self.defined, at)?;
        Ok(match meaning(known.as_slice(), name) {
            Some(item) => {
                outside(self.tokens, item.at, at, Symbol::Comma).is_some()
                    || outside(self.tokens, item.at, at, Symbol::Semicolon).is_some()
            }
            None => false,
        })
    }

    /// The names of the part that aren't visible.
    fn unknown_names(&self, known: &[Known<'a>]) -> Result<Vec<Remark>, AllocError> {
        let mut remarks = Vec::new(self.alloc);
        for at in self.part.from..self.part.to {
            if let Some(name) = name_at(self.tokens, at) {
                let is_unknown = self.is_use(at) && meaning(known, name).is_none();
                if is_unknown && !self.is_declared_before(at, name)? {
                    remarks.push(self.unknown(at, name, known)?)?;
                }
            }
        }
        Ok(remarks)
    }

    /// Whether a variable is of the type that is wanted: of a component type, or a default.
    fn is_of_type(&self, item: Known<'a>, wanted: Wanted) -> bool {
        let Some(typed) = item.typed else {
            return true;
        };
        match wanted {
            Wanted::Reference | Wanted::Started => match name_at(self.tokens, typed) {
                Some(name) => definition_of(self.defined, name).is_some_and(|found| found.known.kind
                    == Kind::Component),
                None => false,
            },
            Wanted::Default => is_word(self.tokens, typed, Word::Default),
            _ => true,
        }
    }

    /// What the name at a position is, where that isn't what is wanted there.
    fn misfit_at(&self, at: usize, known: &[Known<'a>]) -> Option<&'static str> {
        let item = meaning(known, name_at(self.tokens, at)?)?;
        let wanted = self.wanted(at);
        if !self.is_use(at) {
            None
        } else if !wanted.takes(item.kind) {
            Some(item.kind.phrase())
        } else if !self.is_of_type(item, wanted) {
            Some("of another type")
        } else {
            None
        }
    }

    /// The first name of the part of another kind than is wanted where it stands.
    fn misplaced(&self, known: &[Known<'a>]) -> Result<Remark, AllocError> {
        for at in self.part.from..self.part.to {
            if let Some(found) = self.misfit_at(at, known) {
                let wanted = self.wanted(at).phrase();
                let behind = format!(in self.alloc; " is {found}, and {wanted} is wanted here")?;
                return self.named(at, "", behind.as_str());
            }
        }
        let message = "what a name stands for is of another kind than is wanted here";
        self.fixed(self.part.from, message)
    }

    /// `C2`: the names that aren't visible, or else one of the wrong kind.
    pub(crate) fn wrong_names(&self) -> Result<Vec<Remark>, AllocError> {
        let known = self.visible()?;
        let mut remarks = self.unknown_names(known.as_slice())?;
        if remarks.is_empty() {
            remarks.push(self.misplaced(known.as_slice())?)?;
        }
        Ok(remarks)
    }

    /// Where the name that is declared at a position of the part is declared, too: before it in the same thing, or
    /// elsewhere.
    fn other_declaration(&self, at: usize, known: &[Known<'a>]) -> Option<usize> {
        let name = name_at(self.tokens, at)?;
        if !self.is_declared(at) {
            return None;
        }
        for other in self.whole.from..at {
            if name_at(self.tokens, other) == Some(name) && self.is_declared(other) {
                return Some(other);
            }
        }
        for item in known {
            if item.name == name && item.at != at {
                return Some(item.at);
            }
        }
        None
    }

    /// `C1`: a name that is declared where it is visible already.
    pub(crate) fn duplicate(&self) -> Result<Remark, AllocError> {
        let known = self.visible()?;
        for at in self.part.from..self.part.to {
            if let Some(other) = self.other_declaration(at, known.as_slice()) {
                let line = place_at(self.tokens, other).line;
                let help = format!(in self.alloc; "it is declared in line {line}")?;
                return Ok(self.named(at, "", " is declared already")?.with_help(help));
            }
        }
        self.fixed(self.part.from, "a name is declared already")
    }
}
