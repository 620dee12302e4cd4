//! What is said of a text that can't be cut into tokens.
use crate::bytes::bytes_at;
use lint_names::Remark;
use std::alloc::{AllocError, Global};
use ttcn_syntax::{LexError, Span};

/// What is said of a byte that begins no token.
fn bad_byte(alloc: Global, text: &[u8], place: Span) -> Result<Remark, AllocError> {
    match bytes_at(text, place) {
        [0xEF, 0xBB, 0xBF, ..] => Remark::fixed(
            alloc,
            place,
            "a byte order mark stands here",
        )?.with_fixed_help(alloc, "save the text as UTF-8 without it"),
        bytes => {
            let byte = bytes.first().copied().unwrap_or(0);
            let message = format!(in alloc; "the byte {byte} can't stand here")?;
            let help = "outside of comments and texts a module has ASCII characters alone";
            Remark::new(place, message).with_fixed_help(alloc, help)
        }
    }
}

/// What is said of a text that can't be cut into tokens.
pub fn unlexed(alloc: Global, text: &[u8], fault: LexError) -> Result<Remark, AllocError> {
    let (place, message, help) = match fault {
        LexError::TextTooLong => (
            Span { line: 1, column: 1 },
            "this text is too long",
            "a module has at most 1,048,576 bytes",
        ),
        LexError::BadByte(place) => return bad_byte(alloc, text, place),
        LexError::OpenComment(place) => (place, "this comment has no end", "it ends with `*/`"),
        LexError::OpenText(place) => (place, "this text has no end", "it ends with `\"`"),
        LexError::IntegerTooLarge(place) => (
            place,
            "this number is too large",
            "the largest number is 9223372036854775807",
        ),
        LexError::Memory => return Err(AllocError),
    };
    Remark::fixed(alloc, place, message)?.with_fixed_help(alloc, help)
}
