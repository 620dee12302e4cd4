//! Kinds of names, and which kind is wanted where a name is used.

/// What a name is declared as.
#[derive(Clone, Copy, PartialEq, Eq)]
pub enum Kind {
    Record,
    Enumerated,
    PortType,
    Component,
    Constant,
    Template,
    Function,
    Altstep,
    Testcase,
    Enumerator,
    Variable,
    Port,
    Timer,
}

impl Kind {
    /// The kind with its article.
    pub fn phrase(self) -> &'static str {
        match self {
            Kind::Record => "a record type",
            Kind::Enumerated => "an enumeration",
            Kind::PortType => "a port type",
            Kind::Component => "a component type",
            Kind::Constant => "a constant",
            Kind::Template => "a template",
            Kind::Function => "a function",
            Kind::Altstep => "an altstep",
            Kind::Testcase => "a test case",
            Kind::Enumerator => "a name of an enumeration",
            Kind::Variable => "a variable",
            Kind::Port => "a port",
            Kind::Timer => "a timer",
        }
    }

    pub fn is_type(self) -> bool {
        matches!(
            self,
            Kind::Record | Kind::Enumerated | Kind::PortType | Kind::Component
        )
    }
}

/// What a name has to stand for where it is used.
#[derive(Clone, Copy, PartialEq, Eq)]
pub enum Wanted {
    Called,
    /// What is called in a message, or where a template is defined.
    Template,
    /// The type of a variable, a parameter or a message.
    Type,
    Component,
    PortType,
    Port,
    Timer,
    /// What may be started or stopped: a timer or a component.
    Started,
    /// A reference to a component.
    Reference,
    /// A variable that holds a default.
    Default,
    /// What has fields.
    Record,
    /// What stands in a message, or where a template is defined.
    Message,
    Value,
}

impl Wanted {
    pub fn phrase(self) -> &'static str {
        match self {
            Wanted::Called => "what can be called",
            Wanted::Template => "a template",
            Wanted::Type => "a type of values",
            Wanted::Component => "a component type",
            Wanted::PortType => "a port type",
            Wanted::Port => "a port",
            Wanted::Timer => "a timer",
            Wanted::Started => "a timer or a component",
            Wanted::Reference => "a component",
            Wanted::Default => "a default",
            Wanted::Record => "a variable or a constant",
            Wanted::Message => "a value or a template",
            Wanted::Value => "a value",
        }
    }

    /// Whether a name of a kind may stand there.
    pub fn takes(self, kind: Kind) -> bool {
        match self {
            Wanted::Called => matches!(kind, Kind::Function | Kind::Altstep | Kind::Testcase),
            Wanted::Template => kind == Kind::Template,
            Wanted::Type => matches!(kind, Kind::Record | Kind::Enumerated | Kind::Component),
            Wanted::Component => kind == Kind::Component,
            Wanted::PortType => kind == Kind::PortType,
            Wanted::Port => kind == Kind::Port,
            Wanted::Timer => kind == Kind::Timer,
            Wanted::Started => matches!(kind, Kind::Timer | Kind::Variable | Kind::Constant),
            Wanted::Reference | Wanted::Record => matches!(kind, Kind::Variable | Kind::Constant),
            Wanted::Default => kind == Kind::Variable,
            Wanted::Message => matches!(
                kind,
                Kind::Constant | Kind::Template | Kind::Enumerator | Kind::Variable
            ),
            Wanted::Value => matches!(kind, Kind::Constant | Kind::Enumerator | Kind::Variable),
        }
    }
}
