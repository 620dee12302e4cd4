ghost use Rattle.std.specs.Prelude.{◌≡◌};

/// What a step is of.
#[derive(Clone, Copy, Debug, PartialEq, Eq)]
pub enum Kind {
    /// A statement of a component.
    Statement,
    /// The expiry of a timer.
    Expiry,
    /// Anything else.
    Other,
}

impl Kind {
    ghost use Rattle.search_bounds.specs.KeptRuns.{is_expiry, is_statement};

    /// Whether it is a statement.
    pub fn is_statement(self) -> bool
        ensures { result ≡ is_statement self }
    {
        match self {
            Kind::Statement => true,
            Kind::Expiry | Kind::Other => false,
        }
    }

    /// Whether it is the expiry of a timer.
    pub fn is_expiry(self) -> bool
        ensures { result ≡ is_expiry self }
    {
        match self {
            Kind::Expiry => true,
            Kind::Statement | Kind::Other => false,
        }
    }
}
