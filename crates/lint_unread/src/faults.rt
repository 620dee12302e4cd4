//! What is said of tokens that are no module.
use crate::bytes::{bytes_at, float_of};
use crate::expected::{Expected, Front};
use crate::tables::word_spelled;
use lint_names::{
    Nearest, Remark, Shown, before, copy_of, is_behind_type, name_at, place_at, position_of,
    symbol_at, token_at, word_at, word_before, word_of,
};
use std::alloc::{AllocError, Global};
use ttcn_parse::ParseError;
use ttcn_syntax::{Span, Spanned, Symbol, Token, Word};

/// What is said where a brace is missing.
const OPEN_BRACE: &str = "expected `}`: a brace before it isn't closed";

/// Where the tokens of a text are no module.
#[derive(Clone, Copy)]
struct Fault<'a> {
    alloc: Global,
    text: &'a [u8],
    tokens: &'a [Spanned],
    /// The position of the token that can't stand there.
    at: usize,
    place: Span,
}

impl<'a> Fault<'a> {
    fn new(alloc: Global, text: &'a [u8], tokens: &'a [Spanned], place: Span) -> Fault<'a> {
        Fault {
            alloc,
            text,
            tokens,
            at: position_of(tokens, place).unwrap_or(0),
            place,
        }
    }

    /// The token that can't stand there, as it is spelled.
    fn found(&self) -> Shown<'a> {
        let text = bytes_at(self.text, self.place);
        match token_at(self.tokens, self.at) {
            Some(Token::Float) => Shown(float_of(text)),
            _ => Shown(word_of(text)),
        }
    }

    fn remark(&self, message: String) -> Remark {
        Remark::new(self.place, message)
    }

    /// Whether the token stands where a declaration has its name.
    fn is_name_place(&self) -> bool {
        is_behind_type(self.tokens, self.at)
            || matches!(
                word_before(self.tokens, self.at),
                Some(
                    Word::Function
                        | Word::Altstep
                        | Word::Testcase
                        | Word::Timer
                        | Word::Record
                        | Word::Enumerated
                        | Word::Component
                        | Word::Module
                )
            )
    }

    /// Whether what follows the token may follow a name: another line, or a symbol behind names.
    fn is_followed_as_name(&self) -> bool {
        let next = self.at.saturating_add(1);
        if token_at(self.tokens, next).is_none()
            || place_at(self.tokens, next).line > self.place.line
        {
            return true;
        }
        match symbol_at(self.tokens, next) {
            Some(Symbol::LeftBrace) => !is_behind_type(self.tokens, self.at),
            Some(
                Symbol::Semicolon
                | Symbol::Assign
                | Symbol::Comma
                | Symbol::LeftParen
                | Symbol::RightParen
                | Symbol::RightBrace,
            ) => true,
            _ => false,
        }
    }

    // ---- words and characters that are left out

    /// What is said of a word of the standard, or a character, that this subset leaves out.
    fn left_out(&self) -> Result<Remark, AllocError> {
        let found = self.found();
        if let Some(Token::Other(byte)) = token_at(self.tokens, self.at) {
            let message = format!(in self.alloc; "`{found}` is no symbol of the language")?;
            let remark = self.remark(message);
            return if *byte == b'=' {
                remark.with_fixed_help(self.alloc, "`:=` assigns, `==` compares")
            } else {
                Ok(remark)
            };
        }
        if self.is_name_place() && self.is_followed_as_name() {
            return self.reserved();
        }
        self.unread(found)
    }

    /// What is said of what this subset leaves out.
    fn unread(&self, what: Shown<'_>) -> Result<Remark, AllocError> {
        let message = format!(in self.alloc;
            "`{what}` is left out of the language that ttcnx reads"
        )?;
        let help = "docs/language.md lists what is left out";
        self.remark(message).with_fixed_help(self.alloc, help)
    }

    /// Whether `testcase.stop` stands there.
    fn is_testcase_stop(&self) -> bool {
        let (dot, stop) = (self.at.saturating_add(1), self.at.saturating_add(2));
        word_at(self.tokens, self.at) == Some(Word::Testcase)
            && symbol_at(self.tokens, dot) == Some(Symbol::Dot)
            && word_at(self.tokens, stop) == Some(Word::Stop)
    }

    /// What is said of a word where a name is wanted.
    fn reserved(&self) -> Result<Remark, AllocError> {
        let found = self.found();
        let message = format!(in self.alloc;
            "`{found}` is a word of the language and can't be a name"
        )?;
        Ok(self.remark(message))
    }

    // ---- tokens that no module has at their place

    /// What is said of a token that no module has at its place.
    fn unexpected(&self) -> Result<Remark, AllocError> {
        if self.ends_early()? {
            return self.early_end();
        }
        if self.is_testcase_stop() {
            return self.unread(Shown(b"testcase.stop".as_slice()));
        }
        let mut front = Front::new(self.alloc, self.tokens, self.at)?;
        if front.is_module()? {
            let message = format!(in self.alloc; "`{}` can't stand here", self.found())?;
            let help = "nothing can follow the module";
            return self.remark(message).with_fixed_help(self.alloc, help);
        }
        let expected = Expected::behind(&mut front)?;
        if let Some(meant) = self.word_meant(&expected)? {
            return self.misspelt(self.at, meant);
        }
        if expected.has(";") && self.may_follow(front, Token::Symbol(Symbol::Semicolon))? {
            return self.no_semicolon();
        }
        match self.word_before_meant()? {
            Some(meant) => self.misspelt(self.at.saturating_sub(1), meant),
            None => self.misplaced(&expected),
        }
    }

    /// What is said where a `;` is missing before the token.
    fn no_semicolon(&self) -> Result<Remark, AllocError> {
        let statement = Shown(self.statement_before());
        let message = format!(in self.alloc; "`{}` can't follow here", self.found())?;
        let help = format!(in self.alloc; "expected `;` behind `{statement}`")?;
        Ok(self.remark(message).with_help(help))
    }

    /// What is said of a text that ends too early.
    fn early_end(&self) -> Result<Remark, AllocError> {
        let mut front = Front::new(self.alloc, self.tokens, self.at.saturating_add(1))?;
        let expected = Expected::behind(&mut front)?;
        let remark = Remark::fixed(self.alloc, self.place, "the text ends too early")?;
        if expected.has("}") {
            return remark.with_fixed_help(self.alloc, OPEN_BRACE);
        }
        self.with_expected(remark, &expected)
    }

    /// What is said of the name at a position that is nearly a word of the language.
    fn misspelt(&self, at: usize, meant: &[u8]) -> Result<Remark, AllocError> {
        let place = place_at(self.tokens, at);
        let word = Shown(word_of(bytes_at(self.text, place)));
        let message = format!(in self.alloc; "`{word}` can't stand here")?;
        let help = format!(in self.alloc; "did you mean `{}`?", Shown(meant))?;
        Ok(Remark::new(place, message).with_help(help))
    }

    /// What is said where neither a word is misspelt nor a `;` is missing.
    fn misplaced(&self, expected: &Expected) -> Result<Remark, AllocError> {
        let only_name = expected.name && !expected.number && expected.spellings.is_empty();
        let is_word = word_at(self.tokens, self.at).is_some();
        if is_word && expected.name && (only_name || self.is_name_place()) {
            return self.reserved();
        }
        let message = format!(in self.alloc; "`{}` can't stand here", self.found())?;
        let remark = self.remark(message);
        if expected.has("}") && self.begins_definition() {
            return remark.with_fixed_help(self.alloc, OPEN_BRACE);
        }
        self.with_expected(remark, expected)
    }

    /// Adds what may stand there.
    fn with_expected(&self, remark: Remark, expected: &Expected) -> Result<Remark, AllocError> {
        match expected.phrase(self.alloc)? {
            Some(phrase) => Ok(remark.with_help(phrase)),
            None => Ok(remark),
        }
    }

    /// Whether a definition begins with the token.
    fn begins_definition(&self) -> bool {
        matches!(
            word_at(self.tokens, self.at),
            Some(
                Word::Type
                    | Word::Template
                    | Word::Function
                    | Word::Altstep
                    | Word::Testcase
                    | Word::Control
            )
        )
    }

    /// Whether the token is the last one and may stand there: then the fault is that nothing follows.
    fn ends_early(&self) -> Result<bool, AllocError> {
        if self.at.saturating_add(1) < self.tokens.len() {
            return Ok(false);
        }
        let Some(token) = token_at(self.tokens, self.at) else {
            return Ok(true);
        };
        let token = copy_of(self.alloc, token)?;
        let mut front = Front::new(self.alloc, self.tokens, self.at)?;
        front.takes(token)
    }

    /// Whether the token may stand behind another one that is put before it.
    fn may_follow(&self, mut front: Front, other: Token) -> Result<bool, AllocError> {
        let Some(token) = token_at(self.tokens, self.at) else {
            return Ok(false);
        };
        front.push(other)?;
        let token = copy_of(self.alloc, token)?;
        front.takes(token)
    }

    /// The word that may have been meant by the token, if it is a name.
    fn word_meant(&self, expected: &Expected) -> Result<Option<&'a [u8]>, AllocError> {
        match name_at(self.tokens, self.at) {
            Some(name) if self.is_told_of() => self.nearest(name, expected.spellings.as_slice()),
            _ => Ok(None),
        }
    }

    /// Whether the token before is of the same line, or ends what stands before. Else the fault is most often that
    /// something is missing before the line.
    fn is_told_of(&self) -> bool {
        match before(self.at) {
            Some(previous) => {
                let line = place_at(self.tokens, previous).line;
                line == self.place.line || self.ends(previous)
            }
            None => true,
        }
    }

    /// The word that may have been meant by the name before the token: behind that word the token may stand.
    fn word_before_meant(&self) -> Result<Option<&'a [u8]>, AllocError> {
        let previous = self.at.saturating_sub(1);
        let Some(name) = name_at(self.tokens, previous) else {
            return Ok(None);
        };
        let mut front = Front::new(self.alloc, self.tokens, previous)?;
        let expected = Expected::behind(&mut front)?;
        let near = self.nearest(name, expected.spellings.as_slice())?;
        let Some(word) = word_spelled(near.unwrap_or(&[])) else {
            return Ok(None);
        };
        Ok(if self.may_follow(front, Token::Word(word))? {
            near
        } else {
            None
        })
    }

    /// The nearest of some spellings. Words of one or two letters are near to too many.
    fn nearest(
        &self,
        name: &'a [u8],
        spellings: &[&'static str],
    ) -> Result<Option<&'a [u8]>, AllocError> {
        let mut near = Nearest::new(self.alloc, name);
        for spelling in spellings {
            if name.len() > 2 && spelling.len() > 2 {
                near.try_one(spelling.as_bytes())?;
            }
        }
        Ok(near.found)
    }

    // ---- the statement before a token

    /// Whether a symbol stands at a position behind which a statement or a definition begins.
    fn ends(&self, position: usize) -> bool {
        matches!(
            symbol_at(self.tokens, position),
            Some(Symbol::Semicolon | Symbol::LeftBrace | Symbol::RightBrace)
        )
    }

    /// Whether a statement or a line begins at a position.
    fn begins_statement(&self, position: usize) -> bool {
        let Some(previous) = before(position) else {
            return true;
        };
        let here = place_at(self.tokens, position).line;
        self.ends(previous) || place_at(self.tokens, previous).line < here
    }

    /// The position at which the statement before the token begins, or its last line.
    fn statement_begin(&self) -> usize {
        let mut first = 0;
        for position in 0..self.at {
            if self.begins_statement(position) {
                first = position;
            }
        }
        first
    }

    /// The text of the statement before the token, so far as it stands in one line.
    fn statement_before(&self) -> &'a [u8] {
        let first = place_at(self.tokens, self.statement_begin());
        let last = place_at(self.tokens, self.at.saturating_sub(1));
        let (line, end) = (bytes_at(self.text, first), bytes_at(self.text, last));
        let length = line.len().saturating_sub(end.len());
        line.get(..length.saturating_add(word_of(end).len()))
            .unwrap_or(line)
    }
}

/// What is said of tokens that are no module.
pub fn unparsed(
    alloc: Global,
    text: &[u8],
    tokens: &[Spanned],
    fault: ParseError,
) -> Result<Remark, AllocError> {
    match fault {
        ParseError::TooDeep(place) => {
            let message = "the brackets nest too deep here";
            let help = "at most 200 may stand in one another";
            Remark::fixed(alloc, place, message)?.with_fixed_help(alloc, help)
        }
        ParseError::LeftOut(place) => Fault::new(alloc, text, tokens, place).left_out(),
        ParseError::Unexpected(place) => Fault::new(alloc, text, tokens, place).unexpected(),
        ParseError::Memory => Err(AllocError),
    }
}
