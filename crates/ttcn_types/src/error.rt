//! Why a module is refused.
use check_scope::rule::Rule;
use std::alloc::AllocError;
use thiserror::Error;
use ttcn_syntax::Span;

/// Why a module isn't well typed: the least rule that is broken, and a place that breaks it.
#[derive(Debug, Drop, Error)]
pub enum CheckError {
    #[error("{0}")]
    Broken(Rule, Span),
    #[error(transparent)]
    Memory(AllocError),
}
