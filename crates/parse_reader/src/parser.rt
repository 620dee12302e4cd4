//! The parser's place in the list of tokens, and what it takes from there.
ghost use Rattle.std.specs.Prelude.{◌≡◌, ◌∷◌, [], length, Some, None, Ok};
ghost use Rattle.parse_reader.specs.internal.Expressions.{most_links};
ghost use Rattle.parse_reader.specs.internal.Reading as spec;
ghost use Rattle.parse_reader.specs.internal.Reading.{Reads};

use crate::ParseError;
use std::alloc::Global;
use std::marker::Model;
use ttcn_syntax::{Level, Name, Span, Spanned, Symbol, Token, Word};

/// What is left of the tokens, and where a fault at their end is shown. Contracts see the tokens that are left.
#[derive(Drop)]
pub struct Parser<'a> {
    pub alloc: Global,
    rest: &'a [Spanned],
    end: Span,
}

impl<'a> Model for Parser<'a> {
    ghost use Rattle.std.specs.Prelude.{List};
    ghost use Rattle.ttcn_syntax.specs.declared.token.Spanned.{Spanned};

    ghost Value = { List Spanned };

    ghost view = { λ parser. parser.rest.now };
}

impl<'a> Parser<'a> {
    pub fn new(alloc: Global, tokens: &'a [Spanned]) -> Parser<'a>
        ensures { result ≡ tokens.now }
    {
        let end = match tokens {
            [.., last] => last.place,
            [] => Span { line: 1, column: 1 },
        };
        Parser {
            alloc,
            rest: tokens,
            end,
        }
    }

    /// How many tokens are left.
    pub fn left(&self) -> usize
        ensures { result ≡ length self.now }
    {
        self.rest.len()
    }

    /// How many links of a level may follow in a chain: one comparison by order at most, at any other level as many as tokens are
    /// left.
    #[tactic(auto, unfolding(crate::specs::internal::Expressions::most_links, crate::specs::internal::Reading::same_level))]
    pub fn most_links(&self, level: Level) -> usize
        ensures { result ≡ most_links level self.now }
    {
        if level == Level::Order {
            1
        } else {
            self.left()
        }
    }

    /// The tokens that are left.
    pub fn rest(&self) -> &'a [Spanned]
        ensures { result.now ≡ self.now }
    {
        self.rest
    }

    pub fn token(&self) -> Option<&'a Token>
        ensures { spec.token_behind result ≡ spec.head_token self.now }
    {
        Some(&self.rest.first()?.token)
    }

    /// The token behind the next one.
    pub fn second(&self) -> Option<&'a Token>
        ensures { spec.token_behind result ≡ spec.second self.now }
    {
        Some(&self.rest.get(1)?.token)
    }

    /// The token behind those two.
    pub fn third(&self) -> Option<&'a Token>
        ensures { spec.token_behind result ≡ spec.second (spec.behind self.now) }
    {
        Some(&self.rest.get(2)?.token)
    }

    /// Where the next token stands.
    #[tactic(auto, unfolding(crate::specs::internal::Reading::here))]
    pub fn here(&self) -> Result<Span, ParseError>
        ensures { Reads (spec.here self.now) result self.now }
    {
        match self.rest.first() {
            Some(spanned) => Ok(spanned.place),
            None => Err(self.unexpected()),
        }
    }

    /// The next token is not what has to stand there, or none is left: then the error has the last one's place.
    pub fn unexpected(&self) -> ParseError
        ensures { spec.IsUnexpected result }
    {
        match self.rest.first() {
            Some(spanned) => ParseError::Unexpected(spanned.place),
            None => ParseError::Unexpected(self.end),
        }
    }

    pub fn advance(&mut self)
        ensures { self.new ≡ spec.behind self.old }
    {
        if let [_, rest @ ..] = self.rest {
            self.rest = rest;
        }
    }

    #[tactic(auto, unfolding(crate::specs::internal::Reading::sees, crate::specs::internal::Reading::same_symbol))]
    pub fn is_at(&self, symbol: Symbol) -> bool
        ensures { result ≡ spec.sees symbol self.now }
    {
        is_symbol(self.token(), symbol)
    }

    #[tactic(auto, unfolding(crate::specs::internal::Reading::sees_word, crate::specs::internal::Reading::same_word))]
    pub fn is_at_word(&self, word: Word) -> bool
        ensures { result ≡ spec.sees_word word self.now }
    {
        is_word(self.token(), word)
    }

    /// Takes the symbol, if it comes next.
    pub fn take_symbol(&mut self, symbol: Symbol) -> bool
        ensures { spec.eat symbol self.old ≡ Some (result, self.new) }
    {
        let found = self.is_at(symbol);
        if found {
            self.advance();
        }
        found
    }

    /// Takes the word, if it comes next.
    pub fn take_word(&mut self, word: Word) -> bool
        ensures { spec.eat_word word self.old ≡ Some (result, self.new) }
    {
        let found = self.is_at_word(word);
        if found {
            self.advance();
        }
        found
    }

    #[tactic(auto, using(crate::proofs::Semicolons::sees_something, crate::proofs::Semicolons::over_semicolon, crate::proofs::Semicolons::no_semicolon))]
    pub fn skip_semicolons(&mut self)
        ensures { self.new ≡ spec.after_semicolons self.old }
    {
        while self.is_at(Symbol::Semicolon) {
            self.advance();
        }
    }

    #[tactic(auto, unfolding(crate::specs::internal::Reading::expect))]
    pub fn symbol(&mut self, symbol: Symbol) -> Result<(), ParseError>
        ensures { Reads (spec.expect symbol self.old) result self.new }
    {
        if self.take_symbol(symbol) {
            Ok(())
        } else {
            Err(self.unexpected())
        }
    }

    #[tactic(auto, unfolding(crate::specs::internal::Reading::expect_word))]
    pub fn word(&mut self, word: Word) -> Result<(), ParseError>
        ensures { Reads (spec.expect_word word self.old) result self.new }
    {
        if self.take_word(word) {
            Ok(())
        } else {
            Err(self.unexpected())
        }
    }

    #[tactic(auto, unfolding(crate::specs::internal::Reading::name))]
    pub fn name(&mut self) -> Result<Name, ParseError>
        ensures { Reads (spec.name self.old) result self.new }
    {
        let Some(Token::Id(name)) = self.token() else {
            return Err(self.unexpected());
        };
        let name = name.try_clone(self.alloc)?;
        self.advance();
        Ok(name)
    }
}

/// The token is that symbol.
#[tactic(auto, unfolding(crate::specs::internal::Reading::same_symbol))]
pub fn is_symbol(token: Option<&Token>, symbol: Symbol) -> bool
    ensures { result ≡ spec.is_symbol symbol (spec.token_behind token.entry) }
{
    matches!(token, Some(Token::Symbol(found)) if *found == symbol)
}

/// The token is that word.
#[tactic(auto, unfolding(crate::specs::internal::Reading::same_word))]
pub fn is_word(token: Option<&Token>, word: Word) -> bool
    ensures { result ≡ spec.is_word word (spec.token_behind token.entry) }
{
    matches!(token, Some(Token::Word(found)) if *found == word)
}

/// The token is a name.
pub fn is_name(token: Option<&Token>) -> bool
    ensures { result ≡ spec.is_name (spec.token_behind token.entry) }
{
    matches!(token, Some(Token::Id(_)))
}
