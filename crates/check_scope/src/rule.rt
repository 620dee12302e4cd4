//! The rules of well-typed modules.
ghost use Rattle.std.specs.Prelude.{◌≡◌};
ghost use Rattle.check_scope.specs.Numbers.{lesser, name_of, number_of};

use std::fmt;

/// The rules, from the least number on (ES 201 873-1, cut to this subset).
#[derive(Clone, Copy, Debug, PartialEq, Eq, PartialOrd, Ord)]
pub enum Rule {
    /// Two definitions, members, fields or parameters share a name, or a local name is that of a visible one.
    DuplicateName = 1,
    /// A name isn't visible, or is of the wrong kind for its place.
    UnknownName,
    /// A record contains itself, or a type stands where it may not.
    BadType,
    /// Constants, templates, or altsteps as branches refer to themselves in a circle.
    Cycle,
    /// A record, constant, template or altstep is too large.
    Size,
    /// Two numbers of an enumeration are equal.
    EnumNumbers,
    /// An operand is of another type than its operator wants.
    OperandType,
    /// A value is of another type than its target.
    ValueType,
    /// A constant is assigned.
    NotAssignable,
    /// There are more or fewer arguments than parameters.
    Arguments,
    /// Fields of a record are unknown, missing, repeated, or left out where they may not be.
    Fields,
    /// A condition isn't boolean.
    Condition,
    /// A behaviour runs on another component type.
    RunsOn,
    /// A port doesn't let messages of the type pass, or the type isn't known.
    PortType,
    /// What a redirect stores doesn't fit its target.
    Redirect,
    /// A behaviour of the wrong kind is called.
    CallKind,
    /// `return` stands where it may not, or with or without a value where it may not.
    ReturnPlace,
    /// `repeat` stands outside a branch.
    RepeatPlace,
    /// The verdict `error` is set.
    VerdictError,
    /// `mtc`, or `self` of no known type, stands where it may not.
    MtcPlace,
}

impl Rule {
    /// The number of the rule among the rules.
    pub fn number(self) -> u8
        ensures { result ≡ number_of self }
    {
        self as u8
    }

    /// The name of the rule, which a report shows behind its number.
    pub fn name(self) -> &'static str
        ensures { result.now ≡ name_of self }
    {
        match self {
            Rule::DuplicateName => "DuplicateName",
            Rule::UnknownName => "UnknownName",
            Rule::BadType => "BadType",
            Rule::Cycle => "Cycle",
            Rule::Size => "Size",
            Rule::EnumNumbers => "EnumNumbers",
            Rule::OperandType => "OperandType",
            Rule::ValueType => "ValueType",
            Rule::NotAssignable => "NotAssignable",
            Rule::Arguments => "Arguments",
            Rule::Fields => "Fields",
            Rule::Condition => "Condition",
            Rule::RunsOn => "RunsOn",
            Rule::PortType => "PortType",
            Rule::Redirect => "Redirect",
            Rule::CallKind => "CallKind",
            Rule::ReturnPlace => "ReturnPlace",
            Rule::RepeatPlace => "RepeatPlace",
            Rule::VerdictError => "VerdictError",
            Rule::MtcPlace => "MtcPlace",
        }
    }

    /// The rule of the lesser number.
    pub(crate) fn lesser(self, other: Rule) -> Rule
        ensures { result ≡ lesser self other }
    {
        if other.number() < self.number() {
            other
        } else {
            self
        }
    }
}

/// What is wrong where the rule is broken.
impl fmt::Display for Rule {
    fn fmt<W: fmt::Write>(&self, f: &mut fmt::Formatter<W>) -> fmt::Result {
        f.write_str(match self {
            Rule::DuplicateName => "a name is declared twice",
            Rule::UnknownName => "a name is not visible, or of the wrong kind for its place",
            Rule::BadType => "a record contains itself, or a type stands where it may not",
            Rule::Cycle => "definitions refer to one another in a circle",
            Rule::Size => "a definition is too large",
            Rule::EnumNumbers => "two numbers of an enumeration are equal",
            Rule::OperandType => "an operand is of another type than its operator wants",
            Rule::ValueType => "a value is of another type than its target",
            Rule::NotAssignable => "a constant is assigned",
            Rule::Arguments => "there are more or fewer arguments than parameters",
            Rule::Fields =>
                "fields of a record are unknown, missing, repeated, or left out where they may not be",
            Rule::Condition => "a condition is not boolean",
            Rule::RunsOn => "a behaviour runs on another component type",
            Rule::PortType =>
                "a port does not let messages of the type pass, or the type is not known",
            Rule::Redirect => "what a redirect stores does not fit its target",
            Rule::CallKind => "a behaviour of the wrong kind is called",
            Rule::ReturnPlace =>
                "`return` stands where it may not, or with or without a value where it may not",
            Rule::RepeatPlace => "`repeat` stands outside a branch",
            Rule::VerdictError => "the verdict `error` is set",
            Rule::MtcPlace => "`mtc`, or `self` of no known type, stands where it may not",
        })
    }
}
