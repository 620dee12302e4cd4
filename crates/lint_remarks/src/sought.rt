//! What is looked for in a part that breaks a rule.
use crate::names::is_type_place;
use crate::scene::Scene;
use lint_names::{is_name, is_symbol, is_word, token_at, word_at};
use ttcn_syntax::{Spanned, Symbol, Token, Word};

/// What is looked for.
#[derive(Clone, Copy)]
pub(crate) enum Sought<'w> {
    Words(&'w [Word]),
    Symbol(Symbol),
    Operator,
    Number,
    /// The name of a type, or `default`.
    Type,
    /// The name of a field.
    Field,
    /// The name of a field that no record has.
    NoField,
}

/// Whether an operator stands at a position.
fn is_operator(tokens: &[Spanned], at: usize) -> bool {
    match token_at(tokens, at) {
        Some(Token::Symbol(symbol)) => matches!(
            symbol,
            Symbol::Plus
                | Symbol::Minus
                | Symbol::Star
                | Symbol::Slash
                | Symbol::Less
                | Symbol::Greater
                | Symbol::LessEqual
                | Symbol::GreaterEqual
                | Symbol::Equal
                | Symbol::NotEqual
        ),
        Some(Token::Word(word)) => matches!(
            word,
            Word::And | Word::Or | Word::Xor | Word::Not | Word::Mod | Word::Rem
        ),
        _ => false,
    }
}

impl Scene<'_> {
    /// Whether what is looked for stands at a position.
    fn has_at(&self, sought: Sought<'_>, at: usize) -> bool {
        match sought {
            Sought::Words(words) => match word_at(self.tokens, at) {
                Some(word) => words.contains(&word),
                None => false,
            },
            Sought::Symbol(symbol) => is_symbol(self.tokens, at, symbol),
            Sought::Operator => is_operator(self.tokens, at),
            Sought::Number => matches!(token_at(self.tokens, at), Some(Token::Int(_))),
            Sought::Type => {
                is_word(self.tokens, at, Word::Default)
                    || is_name(self.tokens, at) && is_type_place(self.tokens, at)
            }
            Sought::Field => self.names_field(at),
            Sought::NoField => self.names_field(at) && !self.is_field(at),
        }
    }

    /// The first position of the part at which it stands.
    pub(crate) fn find(&self, sought: Sought<'_>) -> Option<usize> {
        for at in self.part.from..self.part.to {
            if self.has_at(sought, at) {
                return Some(at);
            }
        }
        None
    }

    /// The first position of the part at which it stands, or its beginning.
    pub(crate) fn first(&self, sought: Sought<'_>) -> usize {
        self.find(sought).unwrap_or(self.part.from)
    }

    /// The first of these words in the part, or its beginning.
    pub(crate) fn first_word(&self, words: &[Word]) -> usize {
        self.first(Sought::Words(words))
    }
}
