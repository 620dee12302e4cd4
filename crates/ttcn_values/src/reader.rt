//! Who reads: a frame, or a constant or a template of the module on its behalf.
mod build;
mod constants;
mod expression;
mod named_constants;
mod names;
mod record;
mod template;
mod value;

use crate::{Fault, Frame, Pattern, Value};
use ttcn_syntax::{Parameter, Seq};

/// The names that are visible, beside those of the module.
#[derive(Clone, Copy)]
pub(crate) enum Visible<'a> {
    /// The names of the frame.
    Frame,
    /// No names: in a constant of the module.
    Nothing,
    /// The parameters of a template, and what they are given.
    Parameters(&'a [Parameter], &'a [Value]),
}

/// What a constant of the module gives, by the position of its declaration and its own in it.
#[derive(Drop)]
pub(crate) struct ConstantResult {
    pub(crate) at: usize,
    pub(crate) item: usize,
    pub(crate) result: Result<Value, Fault>,
}

/// A frame, the names that are visible, and how long chains of constants and templates may still be.
#[derive(Clone, Copy)]
pub(crate) struct Reader<'a> {
    pub(crate) frame: &'a Frame<'a>,
    pub(crate) visible: Visible<'a>,
    pub(crate) depth: usize,
    /// What constants give, of those that were evaluated before.
    pub(crate) constants: &'a [ConstantResult],
}

/// What a reference is read for.
#[derive(Clone, Copy)]
pub(crate) enum Use {
    /// The value that it leads to.
    Value,
    /// Whether the field is there that it leads to.
    Presence,
}

/// What a name stands for as a value: a constant of the module by its place, or a value, if there is one.
#[derive(Drop)]
pub(crate) enum Origin<'a> {
    Constant(usize, usize),
    Enumerator(Option<Value>),
    Local(Option<&'a Value>),
}

/// A step in which templates are built, which changes a list of those so far.
#[derive(Drop)]
pub(crate) enum Step {
    /// One more, which names no template.
    Plain(Pattern),
    /// One more: what the template of the module at a position gives with these arguments.
    Call(usize, Seq<Value>),
    /// The last so many become the parts of one.
    Complement(usize),
    List(usize),
    /// The last so many become the parts of one of the record at a position.
    Record(usize, usize),
    /// `ifpresent` stands behind the last one.
    Ifpresent,
}
