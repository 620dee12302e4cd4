//! Places in a text.

/// Where something begins in the text: line and column from 1, columns in bytes, lines ended by byte 10.
#[derive(Clone, Copy, Debug, PartialEq, Eq, PartialOrd, Ord, Hash)]
pub struct Span {
    pub line: u32,
    pub column: u32,
}
