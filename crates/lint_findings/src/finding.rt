//! What is found in a text.
use check_scope::rule::Rule;
use lint_names::Remark;
use lint_remarks::Warning;
use std::fmt;

/// Why a text is no well-typed module.
#[derive(Clone, Copy, PartialEq, Eq)]
pub enum Reason {
    BadByte,
    OpenComment,
    OpenText,
    IntegerTooLarge,
    TextTooLong,
    Unexpected,
    TooDeep,
    LeftOut,
    /// The module breaks this rule.
    Broken(Rule),
}

/// A reason for which the text is refused, and what is said of it.
#[derive(Drop)]
pub struct Finding {
    pub reason: Reason,
    pub remark: Remark,
}

/// All that is found in a text.
#[derive(Drop)]
pub struct Findings {
    /// Why the text is refused: in front the reason that the checker answers.
    pub errors: Vec<Finding>,
    pub warnings: Vec<Warning>,
}

impl fmt::Display for Reason {
    fn fmt<W: fmt::Write>(&self, f: &mut fmt::Formatter<W>) -> fmt::Result {
        f.write_str(match self {
            Reason::BadByte => "L1 BadByte",
            Reason::OpenComment => "L2 OpenComment",
            Reason::OpenText => "L3 OpenText",
            Reason::IntegerTooLarge => "L4 IntegerTooLarge",
            Reason::TextTooLong => "L5 TextTooLong",
            Reason::Unexpected => "P1 Unexpected",
            Reason::TooDeep => "P2 TooDeep",
            Reason::LeftOut => "P3 LeftOut",
            Reason::Broken(rule) => {
                let (number, name) = (rule.number(), rule.name());
                return write!(f, "C{number} {name}");
            }
        })
    }
}
