//! What is refused of a list of tokens before it is read as a module.
ghost use Rattle.std.specs.Prelude.{◌≡◌, List, [], ◌∷◌, IfOk, MatchOption};
ghost use Rattle.std.specs.Result.{OnOk};
ghost use Rattle.parse_limits.specs.internal.Behind as behind;
ghost use Rattle.parse_limits.specs.internal.Behind.{IsElsewhere, Knows};
ghost use Rattle.parse_limits.specs.Groups as spec;
ghost use Rattle.parse_limits.specs.Groups.{Is, IsTooDeep};
ghost use Rattle.parse_limits.specs.LeftOut as left_out;
ghost use Rattle.parse_limits.specs.LeftOut.{HasLeftOut};
ghost use Rattle.ttcn_syntax.specs.declared.token.Spanned.{Spanned};
ghost use Rattle.ttcn_syntax.specs.declared.token.Token.TheVariants as variant;

use std::alloc::{AllocError, Global};
use ttcn_syntax::{Span, Spanned, Symbol, Token, Word};

/// How deep brackets may nest.
pub const DEPTH: u32 = 200;

/// Where brackets first nest deeper than the limit. The three kinds count together, balanced or not.
pub fn first_too_deep(tokens: &[Spanned]) -> Option<Span>
    ensures { MatchOption result (IsTooDeep tokens.now → ⊥) (λ _. IsTooDeep tokens.now) }
{
    let mut opened = 0usize;
    let mut closed = 0usize;
    for spanned in tokens {
        if is_opening(&spanned.token) {
            opened += 1;
        }
        if is_closing(&spanned.token) {
            closed += 1;
        }
        if opened.saturating_sub(closed) > DEPTH as usize {
            return Some(spanned.place);
        }
    }
    None
}

fn is_opening(token: &Token) -> bool
    ensures { result ≡ spec.opens token.now }
{
    matches!(
        token,
        Token::Symbol(Symbol::LeftBrace | Symbol::LeftParen | Symbol::LeftBracket)
    )
}

fn is_closing(token: &Token) -> bool
    ensures { result ≡ spec.closes token.now }
{
    matches!(token, Token::Symbol(symbol) if closes(*symbol))
}

/// The symbol is a bracket that closes.
pub fn closes(symbol: Symbol) -> bool
    ensures { result ≡ spec.closes (variant.Symbol symbol) }
{
    matches!(
        symbol,
        Symbol::RightBrace | Symbol::RightParen | Symbol::RightBracket
    )
}

/// Where the first word or character stands that this subset leaves out, outside the parts that it ignores.
pub fn first_left_out(alloc: Global, tokens: &[Spanned]) -> Result<Option<Span>, AllocError>
    ensures { IfOk result (λ found. MatchOption found (HasLeftOut tokens.now → ⊥) (λ _. HasLeftOut tokens.now)) }
{
    let mut behind = Behind {
        found: None,
        unopened: Vec::new(alloc),
        group: None,
    };
    for spanned in tokens.iter().rev() {
        behind.step(spanned)?;
    }
    Ok(behind.found)
}

/// What is known of the tokens behind a place. They are gone through from the last to the first, so that each is looked
/// at once however the brackets lie.
#[derive(Drop)]
struct Behind {
    /// The first of them that is left out.
    found: Option<Span>,
    /// The brackets that close what none of them opens, the first of them last. None stands behind an opening one that
    /// has no partner.
    unopened: Vec<Closing>,
    /// Where a group begins them: what is found behind it.
    group: Option<Option<Span>>,
}

/// A bracket that closes, and what is found behind it.
#[derive(Clone, Copy)]
struct Closing {
    bracket: Symbol,
    found: Option<Span>,
}

impl Behind {
    /// Goes one token to the front.
    fn step(&mut self, spanned: &Spanned) -> Result<(), AllocError>
        ensures { OnOk result ((tokens : List Spanned) → Knows tokens self.old → Knows (spanned.now ∷ tokens) self.new) }
    {
        if let Token::Symbol(symbol) = spanned.token {
            return self.symbol(symbol);
        }
        if is_left_out(&spanned.token) {
            self.found = Some(spanned.place);
        } else if begins_ignored(&spanned.token) {
            self.found = self.group.unwrap_or(self.found);
        }
        self.group = None;
        Ok(())
    }

    fn symbol(&mut self, symbol: Symbol) -> Result<(), AllocError>
        ensures { OnOk result ((place : Spanned) (tokens : List Spanned) → Is place (variant.Symbol symbol)
            → Knows tokens self.old → Knows (place ∷ tokens) self.new) }
    {
        self.group = None;
        if let Some(closing) = partner(symbol) {
            let found = self.open(closing);
            if symbol == Symbol::LeftBrace {
                self.group = found;
            }
        } else if closes(symbol) {
            self.unopened.push(Closing {
                bracket: symbol,
                found: self.found,
            })?;
        }
        Ok(())
    }

    /// What is found behind the bracket that closes what is opened here. If there is none, nothing balanced reaches
    /// over this place.
    fn open(&mut self, closing: Symbol) -> Option<Option<Span>>
        ensures unopened { MatchOption result
            (IsElsewhere closing (behind.brackets self.old) × (behind.brackets self.new ≡ []))
            (λ found. behind.brackets self.old ≡ record { bracket = closing; found = found } ∷ behind.brackets self.new) }
        ensures found { self.new.found ≡ self.old.found }
        ensures group { self.new.group ≡ self.old.group }
    {
        match self.unopened.pop() {
            Some(top) if top.bracket == closing => Some(top.found),
            _ => {
                self.unopened.clear();
                None
            }
        }
    }
}

/// The bracket that closes what this one opens.
pub fn partner(symbol: Symbol) -> Option<Symbol>
    ensures { result ≡ spec.partner symbol }
{
    match symbol {
        Symbol::LeftBrace => Some(Symbol::RightBrace),
        Symbol::LeftParen => Some(Symbol::RightParen),
        Symbol::LeftBracket => Some(Symbol::RightBracket),
        _ => None,
    }
}

fn is_left_out(token: &Token) -> bool
    ensures { result ≡ left_out.is_left_out token.now }
{
    matches!(token, Token::LeftOut | Token::Other(_))
}

/// The words of the parts that are ignored, if a group is directly behind them.
fn begins_ignored(token: &Token) -> bool
    ensures { result ≡ left_out.begins_ignored token.now }
{
    matches!(token, Token::Word(Word::Control | Word::With))
}
