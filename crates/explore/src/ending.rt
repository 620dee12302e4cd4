//! Where an exploration ends.

/// Where an exploration ends before the plan's steps.
#[derive(Clone, Copy, Debug, PartialEq, Eq)]
pub struct Stops {
    /// Before the first layer with which more states than the plan's limit are reached. Without it that is a refusal.
    pub at_limit: bool,
    /// Where no state that is first reached with so many steps leads on.
    pub when_complete: bool,
    /// Where some run ends with this mark.
    pub at_mark: Option<u8>,
}

impl Stops {
    /// Nowhere: the plan's steps are done, or there is a refusal.
    pub const NOWHERE: Stops = Stops {
        at_limit: false,
        when_complete: false,
        at_mark: None,
    };
}

/// Why an exploration went no further. Where several reasons hold, a mark is told before all others, and `Complete` before
/// `Limit` and `Steps`.
#[derive(Clone, Copy, Debug, PartialEq, Eq)]
pub enum Ending {
    /// The plan's steps are done.
    Steps,
    /// With one step more, more states than the plan's limit are reached.
    Limit,
    /// No state that is first reached with so many steps leads on.
    Complete,
    /// Some run ends with the mark.
    Mark,
}
