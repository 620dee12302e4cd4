//! What comes of the choices in fine runs.
use step_labels::FineLabel;

/// What comes of a stored snapshot.
#[derive(Clone, Copy)]
pub enum Fate {
    /// No choice is made by it, or nothing can be chosen.
    Lapses,
    /// A branch is taken.
    Takes,
    /// The choice, or taking the branch, is a dynamic error.
    Faults,
}

/// A fine label, with what came of the choice where it is one.
#[derive(Drop)]
pub struct Told<'a> {
    pub label: &'a FineLabel,
    pub fate: Fate,
}
