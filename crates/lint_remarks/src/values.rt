//! Values, operands, fields and messages of the wrong type.
use crate::scene::{Scene, quoted};
use crate::sought::Sought;
use lint_names::{
    Defined, Kind, Nearest, Remark, before, is_behind_type, is_name, is_symbol, is_word, meaning,
    name_at, symbol_at, symbol_before, token_at,
};
use std::alloc::AllocError;
use ttcn_syntax::{Spanned, Symbol, Token, Word};

/// The spelling of a type.
fn type_at(tokens: &[Spanned], at: usize) -> Option<&[u8]> {
    match token_at(tokens, at)? {
        Token::Id(name) => Some(name.as_bytes()),
        Token::Word(word) => Some(word.spelling().as_bytes()),
        _ => None,
    }
}

impl<'a> Scene<'a> {
    /// `C8`: the value behind `:=` or `return`, or else the first one in brackets.
    pub(crate) fn value_type(&self) -> Result<Remark, AllocError> {
        let message = "this value isn't of the type that is wanted here";
        if let Some(assign) = self.find(Sought::Symbol(Symbol::Assign)) {
            let remark = self.fixed(assign.saturating_add(1), message)?;
            return self.with_type(remark, assign);
        }
        if is_word(self.tokens, self.part.from, Word::Return) {
            return self.fixed(self.part.from.saturating_add(1), message);
        }
        let at = match self.find(Sought::Symbol(Symbol::LeftParen)) {
            Some(open) => open.saturating_add(1),
            None => self.part.from,
        };
        self.fixed(at, message)
    }

    /// Adds the type of the variable before `:=`.
    fn with_type(&self, remark: Remark, assign: usize) -> Result<Remark, AllocError> {
        let target = assign.saturating_sub(1);
        let Some(name) = name_at(self.tokens, target) else {
            return Ok(remark);
        };
        let Some(typed) = self.type_of(target, name)? else {
            return Ok(remark);
        };
        match type_at(self.tokens, typed) {
            Some(wanted) => {
                let behind = quoted(self.alloc, " is of type ", wanted, "")?;
                let help = quoted(self.alloc, "", name, behind.as_str())?;
                Ok(remark.with_help(help))
            }
            None => Ok(remark),
        }
    }

    /// The position of the type of a variable, unless a path leads to what is assigned.
    fn type_of(&self, target: usize, name: &[u8]) -> Result<Option<usize>, AllocError> {
        if symbol_before(self.tokens, target) == Some(Symbol::Dot) {
            return Ok(None);
        }
        if is_behind_type(self.tokens, target) {
            return Ok(before(target));
        }
        let known = self.visible()?;
        Ok(match meaning(known.as_slice(), name) {
            Some(item) => item.typed,
            None => None,
        })
    }

    /// `C7`: the operator.
    pub(crate) fn operand(&self) -> Result<Remark, AllocError> {
        let at = self.first(Sought::Operator);
        let help = "arithmetic takes integers, logic booleans, `==` two values of one type";
        self.helped(at, "this operator doesn't take these operands", help)
    }

    /// Whether the name at a position is that of a field of some record of the module.
    pub(crate) fn is_field(&self, at: usize) -> bool {
        for definition in self.defined {
            if definition.known.kind == Kind::Record {
                for other in definition.from..definition.to {
                    if is_behind_type(self.tokens, other)
                        && name_at(self.tokens, other) == name_at(self.tokens, at)
                    {
                        return true;
                    }
                }
            }
        }
        false
    }

    /// Whether the token at a position names a field: behind a dot, or before `:=` in braces.
    pub(crate) fn names_field(&self, at: usize) -> bool {
        let is_given = at > self.part.from
            && is_symbol(self.tokens, at.saturating_add(1), Symbol::Assign);
        is_name(self.tokens, at)
            && match symbol_before(self.tokens, at) {
                Some(Symbol::Dot) => true,
                Some(Symbol::LeftBrace | Symbol::Comma) => is_given,
                _ => false,
            }
    }

    /// A field that no record has, and the one that may have been meant.
    fn no_field(&self, at: usize) -> Result<Remark, AllocError> {
        let remark = self.named(at, "no record has a field ", "")?;
        let Some(name) = name_at(self.tokens, at) else {
            return Ok(remark);
        };
        let mut near = Nearest::new(self.alloc, name);
        for definition in self.defined {
            if definition.known.kind == Kind::Record {
                self.try_fields(*definition, &mut near)?;
            }
        }
        match near.found {
            Some(field) => {
                Ok(remark.with_help(quoted(self.alloc, "did you mean ", field, "?")?))
            }
            None => Ok(remark),
        }
    }

    /// Looks whether the name of a record's field is nearer to what was meant.
    fn try_fields(&self, record: Defined<'a>, near: &mut Nearest<'a>) -> Result<(), AllocError> {
        for at in record.from..record.to {
            if is_behind_type(self.tokens, at) {
                if let Some(field) = name_at(self.tokens, at) {
                    near.try_one(field)?;
                }
            }
        }
        Ok(())
    }

    /// `C11`: a field that no record has, or else one that this record may not have, or the braces.
    pub(crate) fn fields(&self) -> Result<Remark, AllocError> {
        if let Some(at) = self.find(Sought::NoField) {
            return self.no_field(at);
        }
        if let Some(at) = self.find(Sought::Field) {
            return self.named(at, "the field ", ", or another one, doesn't fit here");
        }
        let at = match self.find(Sought::Symbol(Symbol::LeftBrace)) {
            Some(open) => open,
            None => self.first_word(&[Word::Omit, Word::Ifpresent, Word::Ispresent]),
        };
        let help = "a list has a value for each field; only an optional field may be omitted";
        self.helped(at, "these are not the fields of the record", help)
    }

    /// What a message needs to pass: where its type isn't known, that this is written.
    fn message_help(&self, at: usize) -> &'static str {
        match symbol_at(self.tokens, at) {
            Some(Symbol::Question | Symbol::Star | Symbol::LeftParen | Symbol::LeftBrace) => {
                "where the port lists several types, the type stands before the template: `integer:?`"
            }
            _ => "the port's type has to list the message's type for this direction",
        }
    }

    /// `C14`: the message.
    pub(crate) fn message(&self) -> Result<Remark, AllocError> {
        let word = self.first_word(&[Word::Send, Word::Receive]);
        let open = word.saturating_add(1);
        let at = if is_symbol(self.tokens, open, Symbol::LeftParen) {
            open.saturating_add(1)
        } else {
            word
        };
        let before = "a message of this type doesn't pass at ";
        let message = match name_at(self.tokens, word.saturating_sub(2)) {
            Some(port) => quoted(self.alloc, before, port, "")?,
            None => String::from_str(self.alloc, "a message of this type doesn't pass here")?,
        };
        self.remark(at, message)
            .with_fixed_help(self.alloc, self.message_help(at))
    }
}
