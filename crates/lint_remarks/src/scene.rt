//! What breaks a rule, and where its words stand.
use lint_names::{Defined, Known, Remark, Shown, name_at, place_at, visible};
use std::alloc::{AllocError, Global};
use ttcn_syntax::Spanned;

/// Tokens in a row: those from `from` on, below `to`.
#[derive(Clone, Copy, PartialEq, Eq)]
pub struct Part {
    pub from: usize,
    pub to: usize,
}

/// What breaks a rule: a statement, a branch or a definition, and the part of it that does.
#[derive(Clone, Copy)]
pub struct Scene<'a> {
    pub alloc: Global,
    pub tokens: &'a [Spanned],
    pub defined: &'a [Defined<'a>],
    pub whole: Part,
    pub part: Part,
}

/// Words round a name.
pub(crate) fn quoted(
    alloc: Global,
    before: &str,
    name: &[u8],
    behind: &str,
) -> Result<String, AllocError> {
    format!(in alloc; "{before}`{}`{behind}", Shown(name))
}

impl<'a> Scene<'a> {
    pub(crate) fn remark(&self, at: usize, message: String) -> Remark {
        Remark::new(place_at(self.tokens, at), message)
    }

    /// A fixed text, said of a position.
    pub(crate) fn fixed(&self, at: usize, message: &str) -> Result<Remark, AllocError> {
        Remark::fixed(self.alloc, place_at(self.tokens, at), message)
    }

    /// A fixed text with a fixed help.
    pub(crate) fn helped(
        &self,
        at: usize,
        message: &str,
        help: &str,
    ) -> Result<Remark, AllocError> {
        self.fixed(at, message)?.with_fixed_help(self.alloc, help)
    }

    /// Said of a position: words round the name there.
    pub(crate) fn named(
        &self,
        at: usize,
        before: &str,
        behind: &str,
    ) -> Result<Remark, AllocError> {
        let name = name_at(self.tokens, at).unwrap_or(b"this");
        Ok(self.remark(at, quoted(self.alloc, before, name, behind)?))
    }

    /// The names that are visible where the thing begins.
    pub(crate) fn visible(&self) -> Result<Vec<Known<'a>>, AllocError> {
        visible(self.alloc, self.tokens, self.defined, self.whole.from)
    }
}
