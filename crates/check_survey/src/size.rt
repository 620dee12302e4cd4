//! How long the longest chain from some things is, and what they weigh together.
ghost use Rattle.std.specs.Prelude.{◌≡◌, ◌+◌, max};
ghost use Rattle.check_survey.specs.Things.{capped};

/// How many members the longest chain has that begins at one of some things, and what they weigh together. A number that
/// is too large for its type is the largest of it.
#[derive(Clone, Copy)]
pub(crate) struct Size {
    pub(crate) chain: u64,
    pub(crate) weight: u64,
}

impl Size {
    pub(crate) const NONE: Size = Size {
        chain: 0,
        weight: 0,
    };

    /// The size of a thing that refers to what has this size.
    pub(crate) fn around(self, own: u64) -> Size
        ensures chain { result.chain ≡ capped (self.chain + 1) }
        ensures weight { result.weight ≡ capped (self.weight + own) }
    {
        Size {
            chain: self.chain.saturating_add(1),
            weight: self.weight.saturating_add(own),
        }
    }

    /// The size of what has this size and more.
    pub(crate) fn beside(self, more: Size) -> Size
        ensures chain { result.chain ≡ max self.chain more.chain }
        ensures weight { result.weight ≡ capped (self.weight + more.weight) }
    {
        Size {
            chain: self.chain.max(more.chain),
            weight: self.weight.saturating_add(more.weight),
        }
    }
}
