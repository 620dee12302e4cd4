//! Steps that were worked out.
use crate::keys::BranchPlace;
use step_labels::Label;

/// An enabled label, the branch that its step takes, if it takes one, and the state to which it leads.
#[derive(Drop)]
pub struct Step<S> {
    pub label: Label,
    pub branch: Option<BranchPlace>,
    pub after: S,
}
