//! Lists of what stands one behind the other.
ghost use Rattle.std.specs.Prelude.{◌≡◌};
ghost use Rattle.parse_reader.specs.internal.Reading as spec;
ghost use Rattle.parse_reader.specs.internal.Reading.{Reads};

use crate::ParseError;
use crate::parser::Parser;
use ttcn_syntax::{Name, Seq, Spanned, Symbol, Token};

/// How an item of a list is read that nests nothing.
pub trait Listed {
    type Item: Drop;

    ghost reader: { spec.Parser Self.Item };

    fn read(parser: &mut Parser<'_>) -> Result<Self::Item, ParseError>
        ensures { Reads (reader parser.old) result parser.new };
}

impl Parser<'_> {
    /// One or more items, with commas between them.
    pub fn separated<T: Listed>(&mut self) -> Result<Seq<T::Item>, ParseError>
        ensures { Reads (spec.separated T.reader self.old) result self.new }
    {
        let mut all = Seq::new(self.alloc);
        for _turn in 0..self.left() {
            all.push(T::read(self)?)?;
            if !self.take_symbol(Symbol::Comma) {
                return Ok(all);
            }
        }
        Err(self.unexpected())
    }

    /// Any number, with commas between them, and the symbol behind them.
    #[tactic(auto, unfolding(crate::specs::internal::Reading::separated_until))]
    pub fn separated_until<T: Listed>(&mut self, close: Symbol) -> Result<Seq<T::Item>, ParseError>
        ensures { Reads (spec.separated_until close T.reader self.old) result self.new }
    {
        if self.take_symbol(close) {
            return Ok(Seq::new(self.alloc));
        }
        let all = self.separated::<T>()?;
        self.symbol(close)?;
        Ok(all)
    }

    /// Any number before the closing brace, with semicolons behind each or none.
    pub fn items<T: Listed>(&mut self) -> Result<Seq<T::Item>, ParseError>
        ensures { Reads (spec.items spec.at_brace T.reader self.old) result self.new }
    {
        let mut all = Seq::new(self.alloc);
        for _turn in 0..self.left() {
            if self.is_at(Symbol::RightBrace) {
                return Ok(all);
            }
            all.push(T::read(self)?)?;
            self.skip_semicolons();
        }
        Ok(all)
    }

    /// What was taken from these tokens may end here: it ends with a closing brace, or that or a semicolon follows.
    #[tactic(auto, unfolding(crate::specs::internal::Reading::may_end, crate::specs::internal::Reading::sees, crate::specs::internal::Reading::same_symbol))]
    pub fn may_end(&self, before: &[Spanned]) -> bool
        ensures { result ≡ spec.may_end before.now self.now }
    {
        let last = before.len().saturating_sub(self.left()).saturating_sub(1);
        self.is_at(Symbol::Semicolon)
            || self.is_at(Symbol::RightBrace)
            || matches!(before.get(last), Some(spanned) if spanned.token == Token::Symbol(Symbol::RightBrace))
    }
}

/// Names in lists.
pub struct AName;

impl Listed for AName {
    type Item = Name;

    ghost reader = { spec.name };

    fn read(parser: &mut Parser<'_>) -> Result<Name, ParseError> {
        parser.name()
    }
}
