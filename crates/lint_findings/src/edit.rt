//! A text without some of its tokens, and what the checker answers to it.
use check_scope::rule::Rule;
use lint_names::copy_of;
use lint_remarks::Part;
use std::alloc::{AllocError, Global};
use ttcn_parse::{ParseError, parse};
use ttcn_syntax::{Span, Spanned, Symbol, Token, Word};
use ttcn_types::{CheckError, check};

/// What stands in place of tokens that are cut out.
#[derive(Clone, Copy, PartialEq, Eq)]
pub(crate) enum Instead {
    Nothing,
    /// `true`
    True,
    /// `all component.done`
    AllDone,
    /// `log();`
    Log,
    /// `while (true)`
    WhileTrue,
}

/// Tokens to be cut out, and what stands in their place.
#[derive(Clone, Copy, PartialEq, Eq)]
pub(crate) struct Cut {
    pub(crate) part: Part,
    pub(crate) instead: Instead,
}

impl Cut {
    /// Those from `from` on, below `to`.
    pub(crate) fn new(from: usize, to: usize, instead: Instead) -> Cut {
        let part = Part { from, to };
        Cut { part, instead }
    }
}

/// What becomes of a token.
#[derive(Clone, Copy)]
enum Mark {
    Stays,
    Goes,
    Becomes(Instead),
}

/// What the checker answers.
#[derive(Clone, Copy, PartialEq, Eq)]
pub(crate) enum Answer {
    Accepted,
    Broken(Rule, Span),
    /// The tokens are no module.
    Unread,
}

/// The tokens of a text, with marks for those that are cut out.
#[derive(Drop)]
pub(crate) struct Draft<'a> {
    alloc: Global,
    tokens: &'a [Spanned],
    marks: Vec<Mark>,
}

fn push_words(tokens: &mut Vec<Spanned>, words: &[Word], place: Span) -> Result<(), AllocError> {
    for word in words {
        let token = Token::Word(*word);
        tokens.push(Spanned { token, place })?;
    }
    Ok(())
}

fn push_symbols(
    tokens: &mut Vec<Spanned>,
    symbols: &[Symbol],
    place: Span,
) -> Result<(), AllocError> {
    for symbol in symbols {
        let token = Token::Symbol(*symbol);
        tokens.push(Spanned { token, place })?;
    }
    Ok(())
}

/// Adds what stands in place of tokens that are cut out.
fn push_instead(
    tokens: &mut Vec<Spanned>,
    instead: Instead,
    place: Span,
) -> Result<(), AllocError> {
    match instead {
        Instead::Nothing => Ok(()),
        Instead::True => push_words(tokens, &[Word::True], place),
        Instead::AllDone => {
            push_words(tokens, &[Word::All, Word::Component], place)?;
            push_symbols(tokens, &[Symbol::Dot], place)?;
            push_words(tokens, &[Word::Done], place)
        }
        Instead::Log => {
            push_words(tokens, &[Word::Log], place)?;
            let symbols = [Symbol::LeftParen, Symbol::RightParen, Symbol::Semicolon];
            push_symbols(tokens, &symbols, place)
        }
        Instead::WhileTrue => {
            push_words(tokens, &[Word::While], place)?;
            push_symbols(tokens, &[Symbol::LeftParen], place)?;
            push_words(tokens, &[Word::True], place)?;
            push_symbols(tokens, &[Symbol::RightParen], place)
        }
    }
}

impl<'a> Draft<'a> {
    /// A text of which nothing is cut out.
    pub(crate) fn new(alloc: Global, tokens: &'a [Spanned]) -> Result<Draft<'a>, AllocError> {
        let mut marks = Vec::new(alloc);
        for _token in tokens {
            marks.push(Mark::Stays)?;
        }
        Ok(Draft {
            alloc,
            tokens,
            marks,
        })
    }

    /// Cuts out a part.
    pub(crate) fn cut(&mut self, cut: Cut) {
        let Part { from, to } = cut.part;
        for (at, mark) in self.marks.iter_mut().enumerate() {
            if at == from && from < to {
                *mark = Mark::Becomes(cut.instead);
            } else if from < at && at < to {
                *mark = Mark::Goes;
            }
        }
    }

    /// The tokens that stay, and those that stand in place of others.
    fn edited(&self) -> Result<Vec<Spanned>, AllocError> {
        let mut edited = Vec::new(self.alloc);
        for (spanned, mark) in self.tokens.iter().zip(self.marks.as_slice()) {
            let place = spanned.place;
            match *mark {
                Mark::Stays => {
                    let token = copy_of(self.alloc, &spanned.token)?;
                    edited.push(Spanned { token, place })?;
                }
                Mark::Goes => {}
                Mark::Becomes(instead) => push_instead(&mut edited, instead, place)?,
            }
        }
        Ok(edited)
    }

    /// What the checker answers to this text.
    pub(crate) fn answer(&self) -> Result<Answer, AllocError> {
        let edited = self.edited()?;
        match parse(self.alloc, edited.as_slice()) {
            Ok(module) => match check(self.alloc, module) {
                Ok(_program) => Ok(Answer::Accepted),
                Err(CheckError::Broken(rule, place)) => Ok(Answer::Broken(rule, place)),
                Err(CheckError::Memory(refused)) => Err(refused),
            },
            Err(ParseError::Memory) => Err(AllocError),
            Err(_) => Ok(Answer::Unread),
        }
    }

    /// What it answers to this text without these parts.
    pub(crate) fn answer_without(&self, cuts: &[Cut]) -> Result<Answer, AllocError> {
        let mut draft = Draft {
            alloc: self.alloc,
            tokens: self.tokens,
            marks: Vec::from_slice(self.alloc, self.marks.as_slice())?,
        };
        for cut in cuts {
            draft.cut(*cut);
        }
        draft.answer()
    }
}
