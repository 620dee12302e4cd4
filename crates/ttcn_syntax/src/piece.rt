//! Pieces: what a text is cut into, and the longest one at its front.
ghost use Rattle.std.specs.Prelude.{◌≡◌, ◌<◌, ◌≤◌, length, take, drop};
ghost use Rattle.std.specs.List.{prefix_len};
ghost use Rattle.ttcn_syntax.specs.Characters.{is_blank, is_letter, is_digit, is_word_byte, is_visible, is_within_line};
ghost use Rattle.ttcn_syntax.specs.Cut.{Longest};
ghost use Rattle.ttcn_syntax.specs.Symbols.{pair_symbol, single_symbol};
ghost use Rattle.ttcn_syntax.specs.Front.{front_of, number_of, fraction_length, exponent_length, text_of, inside_text, slash_of, inside_comment, mark_of};

use crate::Symbol;

/// What can stand at a place of a text.
#[derive(Clone, Copy, Debug, PartialEq, Eq)]
pub enum Piece {
    Blanks,
    Comment,
    /// A name, or a word of the language.
    Identifier,
    Integer,
    Float,
    Text,
    Symbol(Symbol),
    /// Any other visible character.
    Other(u8),
    /// `/*` without its end.
    OpenComment,
    /// `"` without its end.
    OpenText,
    /// A byte that nothing begins with.
    BadByte,
}

fn is_blank(byte: u8) -> bool
    ensures { result ≡ is_blank byte }
{
    (byte >= 9 && byte <= 13) || byte == b' '
}

fn is_letter(byte: u8) -> bool
    ensures { result ≡ is_letter byte }
{
    (byte >= b'A' && byte <= b'Z') || (byte >= b'a' && byte <= b'z')
}

fn is_digit(byte: u8) -> bool
    ensures { result ≡ is_digit byte }
{
    byte >= b'0' && byte <= b'9'
}

fn is_word_byte(byte: u8) -> bool
    ensures { result ≡ is_word_byte byte }
{
    is_letter(byte) || is_digit(byte) || byte == b'_'
}

fn is_visible(byte: u8) -> bool
    ensures { result ≡ is_visible byte }
{
    byte >= b'!' && byte <= b'~'
}

// How many blanks the text begins with.
#[tactic(auto, using(std::proofs::lemmas::List::Sums::prefix_len_is, crate::proofs::Runs::whole_run))]
fn blanks(rest: &[u8]) -> usize
    ensures run { result ≡ prefix_len is_blank rest.now }
    ensures within { result ≤ length rest.now }
{
    for (i, byte) in rest.iter().enumerate() {
        if !is_blank(*byte) {
            return i;
        }
    }
    rest.len()
}

// How many bytes of a word the text begins with.
#[tactic(auto, using(std::proofs::lemmas::List::Sums::prefix_len_is, crate::proofs::Runs::whole_run))]
fn word_bytes(rest: &[u8]) -> usize
    ensures run { result ≡ prefix_len is_word_byte rest.now }
    ensures within { result ≤ length rest.now }
{
    for (i, byte) in rest.iter().enumerate() {
        if !is_word_byte(*byte) {
            return i;
        }
    }
    rest.len()
}

// How many digits the text begins with.
#[tactic(auto, using(std::proofs::lemmas::List::Sums::prefix_len_is, crate::proofs::Runs::whole_run))]
fn digits(rest: &[u8]) -> usize
    ensures run { result ≡ prefix_len is_digit rest.now }
    ensures within { result ≤ length rest.now }
{
    for (i, byte) in rest.iter().enumerate() {
        if !is_digit(*byte) {
            return i;
        }
    }
    rest.len()
}

// How many bytes stand before the next line feed.
#[tactic(auto, using(std::proofs::lemmas::List::Sums::prefix_len_is, crate::proofs::Runs::whole_run))]
fn bytes_of_line(rest: &[u8]) -> usize
    ensures run { result ≡ prefix_len is_within_line rest.now }
    ensures within { result ≤ length rest.now }
{
    for (i, byte) in rest.iter().enumerate() {
        if *byte == b'\n' {
            return i;
        }
    }
    rest.len()
}

// The length of `.` and digits at the front, or 0.
fn fraction(rest: &[u8]) -> usize
    ensures value { result ≡ fraction_length rest.now }
    ensures within { result ≤ length rest.now }
{
    if rest.is_empty() || rest[0] != b'.' {
        return 0;
    }
    let count = digits(&rest[1..]);
    if count == 0 { 0 } else { count + 1 }
}

// The length of `E`, an optional `-` and digits at the front, or 0.
fn exponent(rest: &[u8]) -> usize
    ensures value { result ≡ exponent_length rest.now }
    ensures within { result ≤ length rest.now }
{
    if rest.is_empty() || rest[0] != b'E' {
        return 0;
    }
    let start = if rest.len() > 1 && rest[1] == b'-' {
        2
    } else {
        1
    };
    let count = digits(&rest[start..]);
    if count == 0 { 0 } else { start + count }
}

fn number(rest: &[u8]) -> (Piece, usize)
    ensures { result ≡ number_of rest.now }
{
    let whole = digits(rest);
    let mut end = whole + fraction(&rest[whole..]);
    end += exponent(&rest[end..]);
    if end == whole {
        (Piece::Integer, whole)
    } else {
        (Piece::Float, end)
    }
}

// Two quotes in a row stand for one, and a single one ends the text.
fn text(rest: &[u8]) -> (Piece, usize)
    requires { 0 < length rest.now }
    ensures { result ≡ text_of rest.now }
{
    let mut at = 1;
    while at < rest.len() {
        if rest[at] != b'"' {
            at += 1;
        } else if at + 1 < rest.len() && rest[at + 1] == b'"' {
            at += 2;
        } else {
            return (Piece::Text, at + 1);
        }
    }
    (Piece::OpenText, at)
}

// A comment from `/*` goes to the next `*/`, whatever stands between.
fn block_comment(rest: &[u8]) -> (Piece, usize)
    requires { 2 ≤ length rest.now }
    ensures { result ≡ inside_comment (drop 2 rest.now) 2 }
{
    for at in 2..rest.len() {
        if rest[at] == b'*' && at + 1 < rest.len() && rest[at + 1] == b'/' {
            return (Piece::Comment, at + 2);
        }
    }
    (Piece::OpenComment, rest.len())
}

fn slash(rest: &[u8]) -> (Piece, usize)
    requires { 0 < length rest.now }
    ensures { result ≡ slash_of rest.now }
{
    if rest.len() > 1 && rest[1] == b'/' {
        (Piece::Comment, 2 + bytes_of_line(&rest[2..]))
    } else if rest.len() > 1 && rest[1] == b'*' {
        block_comment(rest)
    } else {
        (Piece::Symbol(Symbol::Slash), 1)
    }
}

fn pair_symbol(first: u8, second: u8) -> Option<Symbol>
    ensures { result ≡ pair_symbol first second }
{
    match (first, second) {
        (b':', b'=') => Some(Symbol::Assign),
        (b'-', b'>') => Some(Symbol::Arrow),
        (b'.', b'.') => Some(Symbol::DotDot),
        (b'=', b'=') => Some(Symbol::Equal),
        (b'!', b'=') => Some(Symbol::NotEqual),
        (b'<', b'=') => Some(Symbol::LessEqual),
        (b'>', b'=') => Some(Symbol::GreaterEqual),
        _ => None,
    }
}

fn single_symbol(byte: u8) -> Option<Symbol>
    ensures { result ≡ single_symbol byte }
{
    match byte {
        b'{' => Some(Symbol::LeftBrace),
        b'}' => Some(Symbol::RightBrace),
        b'(' => Some(Symbol::LeftParen),
        b')' => Some(Symbol::RightParen),
        b'[' => Some(Symbol::LeftBracket),
        b']' => Some(Symbol::RightBracket),
        b',' => Some(Symbol::Comma),
        b';' => Some(Symbol::Semicolon),
        b'.' => Some(Symbol::Dot),
        b':' => Some(Symbol::Colon),
        b'+' => Some(Symbol::Plus),
        b'-' => Some(Symbol::Minus),
        b'*' => Some(Symbol::Star),
        b'/' => Some(Symbol::Slash),
        b'<' => Some(Symbol::Less),
        b'>' => Some(Symbol::Greater),
        b'?' => Some(Symbol::Question),
        _ => None,
    }
}

fn mark(rest: &[u8]) -> (Piece, usize)
    requires { 0 < length rest.now }
    ensures { result ≡ mark_of rest.now }
{
    let second = if rest.len() > 1 { rest[1] } else { 0 };
    if let Some(symbol) = pair_symbol(rest[0], second) {
        return (Piece::Symbol(symbol), 2);
    }
    match single_symbol(rest[0]) {
        Some(symbol) => (Piece::Symbol(symbol), 1),
        None => (Piece::Other(rest[0]), 1),
    }
}

// The longest piece at the front of the text, and its length.
fn front(rest: &[u8]) -> (Piece, usize)
    requires { 0 < length rest.now }
    ensures { result ≡ front_of rest.now }
{
    let first = rest[0];
    if is_blank(first) {
        (Piece::Blanks, blanks(rest))
    } else if is_letter(first) {
        (Piece::Identifier, word_bytes(rest))
    } else if is_digit(first) {
        number(rest)
    } else if first == b'"' {
        text(rest)
    } else if first == b'/' {
        slash(rest)
    } else if is_visible(first) {
        mark(rest)
    } else {
        (Piece::BadByte, 1)
    }
}

/// The longest piece at the front of a text, and its length.
pub fn piece_at(rest: &[u8]) -> (Piece, usize)
    requires { 0 < length rest.now }
    ensures some { 0 < result.1 }
    ensures within { result.1 ≤ length rest.now }
    ensures longest { Longest (take result.1 rest.now) (drop result.1 rest.now) result.0 }
{
    front(rest)
}
