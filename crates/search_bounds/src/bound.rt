ghost use Rattle.std.specs.Prelude.{◌≡◌};

/// What is asked of runs.
#[derive(Clone, Copy, Debug, PartialEq, Eq)]
pub struct Bound {
    /// How many timers may expire, if that is bounded.
    pub expiries: Option<u32>,
    /// Whether timers are patient: each expires only where no statement has a step.
    pub patient: bool,
}

impl Bound {
    ghost use Rattle.search_bounds.specs.Bounded.{may_expire};

    /// Whether a timer may expire, by how many expiries are left and whether some statement has a step.
    pub fn may_expire(self, left: Option<u32>, statement: bool) -> bool
        ensures { result ≡ may_expire self.patient left statement }
    {
        let one_left = match left {
            Some(number) => number > 0,
            None => true,
        };
        one_left && !(self.patient && statement)
    }
}
