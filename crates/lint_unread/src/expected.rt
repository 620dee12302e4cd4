//! What may stand at a place: the parser is asked of each token in turn.
use crate::tables::{SYMBOLS, WORDS};
use lint_names::copy_of;
use std::alloc::{AllocError, Global};
use ttcn_parse::{ParseError, parse};
use ttcn_syntax::{Name, Span, Spanned, Token};

/// The place of the token that is tried, which stands nowhere in a text.
const TRIED: Span = Span { line: 0, column: 0 };

/// The place of what stands in front of it or behind it.
const BESIDE: Span = Span { line: 0, column: 1 };

/// The most symbols and words that are told.
const MOST_TOLD: usize = 6;

/// Tokens behind which others are tried.
#[derive(Drop)]
pub(crate) struct Front {
    alloc: Global,
    tokens: Vec<Spanned>,
}

impl Front {
    /// The tokens before a position.
    pub(crate) fn new(alloc: Global, tokens: &[Spanned], at: usize) -> Result<Front, AllocError> {
        let mut copy = Vec::new(alloc);
        for spanned in tokens.get(..at).unwrap_or(tokens) {
            let token = copy_of(alloc, &spanned.token)?;
            let place = spanned.place;
            copy.push(Spanned { token, place })?;
        }
        let tokens = copy;
        Ok(Front { alloc, tokens })
    }

    pub(crate) fn push(&mut self, token: Token) -> Result<(), AllocError> {
        self.tokens.push(Spanned {
            token,
            place: BESIDE,
        })?;
        Ok(())
    }

    /// Whether a token may stand next: then the parser's fault isn't at it, but at the text behind it.
    pub(crate) fn takes(&mut self, token: Token) -> Result<bool, AllocError> {
        let place = TRIED;
        self.tokens.push(Spanned { token, place })?;
        self.push(Token::Text)?;
        let answer = parse(self.alloc, self.tokens.as_slice());
        let _ = self.tokens.pop();
        let _ = self.tokens.pop();
        match answer {
            Ok(_module) => Ok(true),
            Err(ParseError::Unexpected(place)) => Ok(place != TRIED),
            Err(ParseError::Memory) => Err(AllocError),
            Err(_) => Ok(false),
        }
    }

    /// Whether the tokens are a module.
    pub(crate) fn is_module(&self) -> Result<bool, AllocError> {
        match parse(self.alloc, self.tokens.as_slice()) {
            Ok(_module) => Ok(true),
            Err(ParseError::Memory) => Err(AllocError),
            Err(_) => Ok(false),
        }
    }

    /// The symbols and words that may stand next, as they are spelled.
    fn spellings(&mut self) -> Result<Vec<&'static str>, AllocError> {
        let mut spellings = Vec::new(self.alloc);
        for (symbol, spelling) in &SYMBOLS {
            if self.takes(Token::Symbol(*symbol))? {
                spellings.push(*spelling)?;
            }
        }
        for word in &WORDS {
            if self.takes(Token::Word(*word))? {
                spellings.push(word.spelling())?;
            }
        }
        Ok(spellings)
    }
}

/// What may stand at a place: some symbols and words, or all tokens of a kind.
#[derive(Drop)]
pub(crate) struct Expected {
    pub(crate) spellings: Vec<&'static str>,
    pub(crate) name: bool,
    pub(crate) number: bool,
    duration: bool,
    text: bool,
}

/// Adds a thing that may stand there.
fn add(phrase: &mut String, thing: &str) -> Result<(), AllocError> {
    phrase.push_str(if phrase.is_empty() { "expected " } else { ", " })?;
    phrase.push_str(thing)
}

impl Expected {
    /// What may stand behind these tokens.
    pub(crate) fn behind(front: &mut Front) -> Result<Expected, AllocError> {
        let spellings = front.spellings()?;
        let name = Name::new(front.alloc, b"x")?;
        Ok(Expected {
            spellings,
            name: front.takes(Token::Id(name))?,
            number: front.takes(Token::Int(1))?,
            duration: front.takes(Token::Float)?,
            text: front.takes(Token::Text)?,
        })
    }

    pub(crate) fn has(&self, spelling: &str) -> bool {
        for other in &self.spellings {
            if *other == spelling {
                return true;
            }
        }
        false
    }

    /// What may stand there, in words, unless nothing may.
    pub(crate) fn phrase(&self, alloc: Global) -> Result<Option<String>, AllocError> {
        let mut phrase = String::new(alloc);
        if self.number && self.name {
            add(&mut phrase, "a value")?;
            if self.has(")") {
                add(&mut phrase, "`)`")?;
            }
            return Ok(Some(phrase));
        }
        let kinds = [
            (self.name, "a name"),
            (self.number, "a number"),
            (self.duration, "a duration"),
            (self.text, "a text"),
        ];
        for (may_stand, kind) in kinds {
            if may_stand {
                add(&mut phrase, kind)?;
            }
        }
        for spelling in self.spellings.iter().take(MOST_TOLD) {
            let quoted = format!(in alloc; "`{spelling}`")?;
            add(&mut phrase, quoted.as_str())?;
        }
        Ok(if phrase.is_empty() {
            None
        } else {
            Some(phrase)
        })
    }
}
