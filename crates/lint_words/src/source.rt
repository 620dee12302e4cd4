//! The text that findings are about.
use lint_names::word_of;
use ttcn_syntax::Span;

/// The bytes of a line of a text, without its end.
pub(crate) fn line_of(text: &[u8], line: u32) -> &[u8] {
    let mut number: u32 = 1;
    let mut from = 0;
    for (at, byte) in text.iter().enumerate() {
        if *byte == b'\n' {
            if number == line {
                return text.get(from..at).unwrap_or(&[]);
            }
            number = number.saturating_add(1);
            from = at.saturating_add(1);
        }
    }
    if number == line {
        return text.get(from..).unwrap_or(&[]);
    }
    &[]
}

/// How many bytes the word or symbol at a place has, at least one.
pub(crate) fn length_at(line: &[u8], place: Span) -> usize {
    let from = (place.column as usize).saturating_sub(1);
    let rest = line.get(from..).unwrap_or(&[]);
    word_of(rest).len().max(1)
}
