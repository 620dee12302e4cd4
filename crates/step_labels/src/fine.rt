//! Labels of fine runs, in which a component's snapshot and its choice by that snapshot are two steps.
use crate::label::Label;
use value_types::Path;

/// What a fine step is of.
#[derive(Debug, Drop, PartialEq, Eq)]
pub enum FineLabel {
    /// The component with this path takes its snapshot.
    Snap(Path),
    /// The component with this path chooses by the snapshot that it took.
    Choose(Path),
    /// A step that is neither.
    Plain(Label),
}
