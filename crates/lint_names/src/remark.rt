//! What is said of a text.
use std::alloc::{AllocError, Global};
use ttcn_syntax::Span;

/// What is said of a place in the text.
#[derive(Drop)]
pub struct Remark {
    /// Where the word stands that it is about.
    pub place: Span,
    /// What is wrong.
    pub message: String,
    /// What was expected, or may have been meant.
    pub help: Option<String>,
}

impl Remark {
    /// What is said without help.
    pub fn new(place: Span, message: String) -> Remark {
        Remark {
            place,
            message,
            help: None,
        }
    }

    /// What is said by a fixed text.
    pub fn fixed(alloc: Global, place: Span, message: &str) -> Result<Remark, AllocError> {
        Ok(Remark::new(place, String::from_str(alloc, message)?))
    }

    /// The same with a help.
    pub fn with_help(self, help: String) -> Remark {
        let Remark { place, message, .. } = self;
        Remark {
            place,
            message,
            help: Some(help),
        }
    }

    /// The same with a help that is fixed.
    pub fn with_fixed_help(self, alloc: Global, help: &str) -> Result<Remark, AllocError> {
        Ok(self.with_help(String::from_str(alloc, help)?))
    }
}
