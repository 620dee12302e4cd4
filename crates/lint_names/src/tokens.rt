//! Ways through the tokens of a text.
use std::alloc::{AllocError, Global};
use std::fmt;
use ttcn_syntax::{Span, Spanned, Symbol, Token, Word};

/// The spelling of a name, to be shown.
#[derive(Clone, Copy)]
pub struct Shown<'a>(pub &'a [u8]);

impl fmt::Display for Shown<'_> {
    fn fmt<W: fmt::Write>(&self, f: &mut fmt::Formatter<W>) -> fmt::Result {
        for byte in self.0 {
            f.write_char(char::from(*byte))?;
        }
        Ok(())
    }
}

/// The word or the symbol that a text begins with.
pub fn word_of(text: &[u8]) -> &[u8] {
    let end = text
        .iter()
        .position(|byte| !byte.is_ascii_alphanumeric() && *byte != b'_');
    let count = match (end, text) {
        (
            Some(0),
            [b':' | b'=' | b'!' | b'<' | b'>', b'=', ..] | [b'-', b'>', ..] | [b'.', b'.', ..],
        ) => 2,
        (Some(0), _) => 1,
        (Some(end), _) => end,
        (None, _) => text.len(),
    };
    text.get(..count).unwrap_or(text)
}

/// The token at a position.
pub fn token_at(tokens: &[Spanned], at: usize) -> Option<&Token> {
    Some(&tokens.get(at)?.token)
}

/// The name at a position, if the token there is one.
pub fn name_at(tokens: &[Spanned], at: usize) -> Option<&[u8]> {
    match token_at(tokens, at) {
        Some(Token::Id(name)) => Some(name.as_bytes()),
        _ => None,
    }
}

/// The symbol at a position, if the token there is one.
pub fn symbol_at(tokens: &[Spanned], at: usize) -> Option<Symbol> {
    match token_at(tokens, at) {
        Some(Token::Symbol(symbol)) => Some(*symbol),
        _ => None,
    }
}

/// The word at a position, if the token there is one.
pub fn word_at(tokens: &[Spanned], at: usize) -> Option<Word> {
    match token_at(tokens, at) {
        Some(Token::Word(word)) => Some(*word),
        _ => None,
    }
}

pub fn is_name(tokens: &[Spanned], at: usize) -> bool {
    name_at(tokens, at).is_some()
}

pub fn is_symbol(tokens: &[Spanned], at: usize, symbol: Symbol) -> bool {
    symbol_at(tokens, at) == Some(symbol)
}

pub fn is_word(tokens: &[Spanned], at: usize, word: Word) -> bool {
    word_at(tokens, at) == Some(word)
}

/// The position before this one.
pub fn before(at: usize) -> Option<usize> {
    at.checked_sub(1)
}

/// The symbol before a position.
pub fn symbol_before(tokens: &[Spanned], at: usize) -> Option<Symbol> {
    symbol_at(tokens, before(at)?)
}

/// The word before a position.
pub fn word_before(tokens: &[Spanned], at: usize) -> Option<Word> {
    word_at(tokens, before(at)?)
}

/// Where a token stands; the end of the text counts as the place of its last token.
pub fn place_at(tokens: &[Spanned], at: usize) -> Span {
    match tokens.get(at) {
        Some(spanned) => spanned.place,
        None => match tokens.last() {
            Some(spanned) => spanned.place,
            None => Span { line: 1, column: 1 },
        },
    }
}

/// The position of the token at a place.
pub fn position_of(tokens: &[Spanned], place: Span) -> Option<usize> {
    tokens.iter().position(|spanned| spanned.place == place)
}

pub fn opens(symbol: Symbol) -> bool {
    matches!(
        symbol,
        Symbol::LeftBrace | Symbol::LeftParen | Symbol::LeftBracket
    )
}

pub fn closes(symbol: Symbol) -> bool {
    matches!(
        symbol,
        Symbol::RightBrace | Symbol::RightParen | Symbol::RightBracket
    )
}

/// How deep brackets nest behind a token, which stands at a depth. Below the outermost it is 0.
pub fn depth_behind(depth: usize, symbol: Option<Symbol>) -> usize {
    match symbol {
        Some(symbol) => {
            if opens(symbol) {
                depth.saturating_add(1)
            } else if closes(symbol) {
                depth.saturating_sub(1)
            } else {
                depth
            }
        }
        None => depth,
    }
}

/// The position of the bracket that closes the one at a position, or the end.
pub fn closing(tokens: &[Spanned], open: usize) -> usize {
    let mut depth = 0;
    for at in open..tokens.len() {
        depth = depth_behind(depth, symbol_at(tokens, at));
        if depth == 0 {
            return at;
        }
    }
    tokens.len()
}

/// The first position from `from` on, below `to`, at which a symbol stands outside of brackets.
pub fn outside(tokens: &[Spanned], from: usize, to: usize, symbol: Symbol) -> Option<usize> {
    let mut depth = 0;
    for at in from..to {
        let found = symbol_at(tokens, at);
        if depth == 0 && found == Some(symbol) {
            return Some(at);
        }
        depth = depth_behind(depth, found);
    }
    None
}

/// The position behind a statement that holds no block. Its `;` stands behind it.
pub fn end_of_statement(tokens: &[Spanned], from: usize) -> usize {
    let mut depth = 0;
    for at in from..tokens.len() {
        let found = symbol_at(tokens, at);
        if depth == 0 && (found == Some(Symbol::Semicolon) || found.is_some_and(closes)) {
            return at;
        }
        depth = depth_behind(depth, found);
        let ends = depth == 0 && found == Some(Symbol::RightBrace);
        if ends && !is_symbol(tokens, at.saturating_add(1), Symbol::Comma) {
            return at.saturating_add(1);
        }
    }
    tokens.len()
}

/// The position behind what a branch waits for.
pub fn end_of_event(tokens: &[Spanned], from: usize) -> usize {
    let mut depth = 0;
    for at in from..tokens.len() {
        let found = symbol_at(tokens, at);
        let ends = matches!(
            found,
            Some(Symbol::LeftBrace | Symbol::RightBrace | Symbol::Semicolon)
        );
        if depth == 0 && ends {
            return at;
        }
        depth = depth_behind(depth, found);
    }
    tokens.len()
}

/// A copy of a token.
pub fn copy_of(alloc: Global, token: &Token) -> Result<Token, AllocError> {
    Ok(match token {
        Token::Id(name) => Token::Id(name.try_clone(alloc)?),
        Token::Word(word) => Token::Word(*word),
        Token::LeftOut => Token::LeftOut,
        Token::Int(number) => Token::Int(*number),
        Token::Float => Token::Float,
        Token::Text => Token::Text,
        Token::Symbol(symbol) => Token::Symbol(*symbol),
        Token::Other(byte) => Token::Other(*byte),
    })
}
