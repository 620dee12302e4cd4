//! Cutting a text into tokens.
ghost use Rattle.std.specs.Prelude.{◌≡◌, ◌+◌, ◌^◌, ◌<◌, ◌≤◌, ◌⊎◌, ◌↔◌, length, fold, IfOk, IfErr};
ghost use Rattle.ttcn_syntax.specs.Cut.{IsCut, IsLeftmostFault, HasOneReading};
ghost use Rattle.ttcn_syntax.specs.Limits.{longest_text};
ghost use Rattle.ttcn_syntax.specs.Places.{next_place};

use crate::piece::piece_at;
use crate::reading::token_of;
use crate::{LexError, Span, Spanned};
use std::alloc::Global;

/// The most bytes that a text may have.
pub const LONGEST_TEXT: usize = 1_048_576;

// The place behind these bytes, which begin at `place`.
fn place_behind(place: Span, bytes: &[u8]) -> Span
    requires line { place.line + length bytes.now < 2 ^ 32 }
    requires column { place.column + length bytes.now < 2 ^ 32 }
    ensures moved { result ≡ fold next_place place bytes.now }
    ensures line { result.line ≤ place.line + length bytes.now }
    ensures column { result.column ≤ place.column + length bytes.now }
{
    let mut line = place.line;
    let mut column = place.column;
    for byte in bytes {
        if *byte == b'\n' {
            line += 1;
            column = 1;
        } else {
            column += 1;
        }
    }
    Span { line, column }
}

/// Cuts the text into its tokens, each with its place.
pub fn lex(alloc: Global, text: &[u8]) -> Result<Vec<Spanned>, LexError>
    ensures too_long { (result ≡ Err LexError.TextTooLong) ↔ (longest_text < length text.now) }
    ensures tokens { IfOk result (λ tokens. IsCut text.now tokens.items) }

    // One of these three, and the first by `too_long`.
    ensures fault { IfErr result (λ e. (e ≡ LexError.TextTooLong) ⊎ (
        (e ≡ LexError.Memory) ⊎ IsLeftmostFault text.now e)) }
    ensures one { HasOneReading text.now }
{
    if text.len() > LONGEST_TEXT {
        return Err(LexError::TextTooLong);
    }
    let mut tokens = Vec::new(alloc);
    let mut place = Span { line: 1, column: 1 };
    let mut at = 0;
    while at < text.len() {
        let (piece, count) = piece_at(&text[at..]);
        let bytes = &text[at..at + count];
        if let Some(token) = token_of(alloc, piece, bytes, place)? {
            tokens.push(Spanned { token, place })?;
        }
        place = place_behind(place, bytes);
        at += count;
    }
    Ok(tokens)
}
