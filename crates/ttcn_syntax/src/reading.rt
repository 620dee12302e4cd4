//! What a piece of a text is: a gap, a token or a fault.
ghost use Rattle.std.specs.Prelude.{◌≡◌, ◌<◌, ◌≤◌, ◌⊎◌, length, IfOk, IfErr, MatchOption, MatchResult};
ghost use Rattle.std.specs.Option.{SomeIff};
ghost use Rattle.ttcn_syntax.specs.Cut.{IsGap, Gives, IsFault, decimal};

use crate::words::{left_out_word, used_word};
use crate::{LexError, Name, Piece, Span, Token};
use std::alloc::Global;

/// The largest whole number that a text may write.
pub const LARGEST_INTEGER: u64 = 9_223_372_036_854_775_807;

// The number that the digits write, where it is not too large.
fn integer(digits: &[u8]) -> Option<u64>
    ensures { SomeIff result (decimal digits.now ≤ 9223372036854775807) (decimal digits.now) }
{
    let mut value: u64 = 0;
    for digit in digits {
        let unit = u64::from(digit.saturating_sub(b'0'));
        if value > (LARGEST_INTEGER - unit) / 10 {
            return None;
        }
        value = value * 10 + unit;
    }
    Some(value)
}

// The token that a word or a name is.
fn word_token(alloc: Global, bytes: &[u8]) -> Result<Token, LexError>
    ensures { MatchResult result (λ token. Gives Piece.Identifier bytes.now token) (λ e. e ≡ LexError.Memory) }
{
    if let Some(word) = used_word(bytes) {
        return Ok(Token::Word(word));
    }
    if left_out_word(bytes).is_some() {
        return Ok(Token::LeftOut);
    }
    let name = Name::new(alloc, bytes)?;
    Ok(Token::Id(name))
}

/// The token that a piece of these bytes is, or none where it separates tokens.
pub fn token_of(
    alloc: Global,
    piece: Piece,
    bytes: &[u8],
    place: Span,
) -> Result<Option<Token>, LexError>
    ensures token { IfOk result (λ read. MatchOption read (IsGap piece) (λ token. Gives piece bytes.now token)) }
    ensures fault { IfErr result (λ e. (e ≡ LexError.Memory) ⊎ IsFault piece bytes.now place e) }
{
    match piece {
        Piece::Blanks | Piece::Comment => Ok(None),
        Piece::Identifier => {
            let token = word_token(alloc, bytes)?;
            Ok(Some(token))
        }
        Piece::Integer => match integer(bytes) {
            Some(value) => Ok(Some(Token::Int(value))),
            None => Err(LexError::IntegerTooLarge(place)),
        },
        Piece::Float => Ok(Some(Token::Float)),
        Piece::Text => Ok(Some(Token::Text)),
        Piece::Symbol(symbol) => Ok(Some(Token::Symbol(symbol))),
        Piece::Other(byte) => Ok(Some(Token::Other(byte))),
        Piece::OpenComment => Err(LexError::OpenComment(place)),
        Piece::OpenText => Err(LexError::OpenText(place)),
        Piece::BadByte => Err(LexError::BadByte(place)),
    }
}
