//! Places in the bytes of a text.
use ttcn_syntax::Span;

/// The number with a point or an exponent that a text begins with.
pub(crate) fn float_of(text: &[u8]) -> &[u8] {
    let mut before = b' ';
    let mut has_point = false;
    for (at, byte) in text.iter().enumerate() {
        let goes_on = match *byte {
            b'0'..=b'9' => true,
            b'.' => !has_point,
            b'E' => before != b'E',
            b'-' => before == b'E',
            _ => false,
        };
        if !goes_on {
            return text.get(..at).unwrap_or(text);
        }
        has_point = has_point || *byte == b'.';
        before = *byte;
    }
    text
}

/// The bytes of a text from a place on.
pub(crate) fn bytes_at(text: &[u8], place: Span) -> &[u8] {
    let mut line: u32 = 1;
    let mut column: u32 = 1;
    for (at, byte) in text.iter().enumerate() {
        if line == place.line && column == place.column {
            return text.get(at..).unwrap_or(&[]);
        }
        if *byte == b'\n' {
            line = line.saturating_add(1);
            column = 1;
        } else {
            column = column.saturating_add(1);
        }
    }
    &[]
}
