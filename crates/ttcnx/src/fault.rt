//! Why there is no answer: the line that tells it, and the status that the program exits with.
ghost use Rattle.std.specs.Prelude.{◌≡◌, Some, IfOk, string_bytes};
ghost use Rattle.ttcnx.specs.Fault.{fault_text, refusal_text, script_text, status_of};

use check_rules::Rule;
use explore::ExploreError;
use report::{PlaceText, RunError, ScriptError};
use std::alloc::{AllocError, AllocFailed, Global};
use std::fmt;
use ttcn_parse::ParseError;
use ttcn_step::{CoarsenError, ReplayError};
use ttcn_syntax::{LexError, Span};
use ttcn_types::CheckError;

/// Why a text is no module.
#[derive(Clone, Copy, Debug, PartialEq, Eq)]
pub enum Refusal {
    BadByte,
    OpenComment,
    OpenText,
    IntegerTooLarge,
    TextTooLong,
    Unexpected,
    TooDeep,
    LeftOut,
    /// The module breaks this rule, and no lesser one.
    Broken(Rule),
}

/// Why a text is no script of a test case.
#[derive(Clone, Copy, Debug, PartialEq, Eq)]
pub enum ScriptRefusal {
    BadJson,
    NoSuchPort,
    BadMessage,
    TooLarge,
}

/// Why there is no answer.
#[derive(Debug, Drop)]
pub enum Fault {
    /// The text is no module; the place is that of the fault.
    Refused(Refusal, Span),
    NoSuchTestCase,
    /// The script is none of the test case.
    BadScript(ScriptRefusal),
    /// The line of a run file of this number, counted from 1, is no label.
    BadLabel(usize),
    /// The label of a run of this number, counted from 1, is not enabled where it stands.
    NotEnabled(usize),
    /// The label of a fine run of this number, counted from 1, can't follow where it stands.
    NotFine(usize),
    /// The test case goes on behind the last label of a fine run.
    NotEnded,
    TooMany,
    BadPlan,
    Memory,
    /// The file of this name can't be read.
    CannotRead(String),
    CannotWrite,
}

impl fmt::Display for Refusal {
    ghost output = { λ refusal. Some (refusal_text refusal) };

    fn fmt<W: fmt::Write>(&self, f: &mut fmt::Formatter<W>) -> fmt::Result {
        f.write_str(match self {
            Refusal::BadByte => "L1 BadByte",
            Refusal::OpenComment => "L2 OpenComment",
            Refusal::OpenText => "L3 OpenText",
            Refusal::IntegerTooLarge => "L4 IntegerTooLarge",
            Refusal::TextTooLong => "L5 TextTooLong",
            Refusal::Unexpected => "P1 Unexpected",
            Refusal::TooDeep => "P2 TooDeep",
            Refusal::LeftOut => "P3 LeftOut",
            Refusal::Broken(rule) => {
                let (number, name) = (rule.number(), rule.name());
                return write!(f, "C{number} {name}");
            }
        })
    }
}

impl fmt::Display for ScriptRefusal {
    ghost output = { λ refusal. Some (script_text refusal) };

    fn fmt<W: fmt::Write>(&self, f: &mut fmt::Formatter<W>) -> fmt::Result {
        f.write_str(match self {
            ScriptRefusal::BadJson => "J1 BadJson",
            ScriptRefusal::NoSuchPort => "J2 NoSuchPort",
            ScriptRefusal::BadMessage => "J3 BadMessage",
            ScriptRefusal::TooLarge => "J4 TooLarge",
        })
    }
}

impl fmt::Display for Fault {
    ghost output = { λ fault. Some (fault_text fault) };

    fn fmt<W: fmt::Write>(&self, f: &mut fmt::Formatter<W>) -> fmt::Result {
        match self {
            Fault::Refused(refusal, place) => {
                write!(f, "refused {refusal} at {}", PlaceText(*place))
            }
            Fault::NoSuchTestCase => f.write_str("refused U1 NoSuchTestCase"),
            Fault::BadScript(refusal) => write!(f, "refused {refusal}"),
            Fault::BadLabel(line) => write!(f, "refused N1 BadLabel at line {line}"),
            Fault::NotEnabled(label) => write!(f, "refused N2 NotEnabled at label {label}"),
            Fault::NotFine(label) => write!(f, "refused F1 NotFine at label {label}"),
            Fault::NotEnded => f.write_str("refused F2 NotEnded"),
            Fault::TooMany => f.write_str("refused E1 TooMany"),
            Fault::BadPlan => f.write_str("refused E2 BadPlan"),
            Fault::Memory => f.write_str("out of memory"),
            Fault::CannotRead(file) => write!(f, "cannot read {file}"),
            Fault::CannotWrite => f.write_str("cannot write"),
        }
    }
}

impl std::error::Error for Fault {}

/// The line that tells of a fault, without its end.
pub fn fault_line(alloc: Global, fault: &Fault) -> Result<String, AllocError>
    ensures { IfOk result (λ line. string_bytes line ≡ fault_text fault.now) }
{
    fault.to_string(alloc)
}

/// The status that the program exits with after a fault.
pub fn status(fault: &Fault) -> u8
    ensures { result ≡ status_of fault.now }
{
    match fault {
        Fault::Refused(..)
        | Fault::NoSuchTestCase
        | Fault::BadScript(_)
        | Fault::BadLabel(_)
        | Fault::NotEnabled(_)
        | Fault::NotFine(_)
        | Fault::NotEnded => 1,
        Fault::BadPlan => 2,
        Fault::TooMany => 3,
        Fault::Memory => 4,
        Fault::CannotRead(_) | Fault::CannotWrite => 5,
    }
}

impl From<AllocError> for Fault {
    ghost use Rattle.ttcnx.specs.declared.fault.Fault.TheVariants.{Memory};

    ghost from_gives = { λ _ fault. fault ≡ Memory };

    fn from(_refused: AllocError) -> Fault {
        Fault::Memory
    }
}

impl<T: Drop> From<AllocFailed<T>> for Fault {
    ghost use Rattle.ttcnx.specs.declared.fault.Fault.TheVariants.{Memory};

    ghost from_gives = { λ _ fault. fault ≡ Memory };

    fn from(_refused: AllocFailed<T>) -> Fault {
        Fault::Memory
    }
}

impl From<LexError> for Fault {
    ghost use Rattle.ttcnx.specs.Fault.{lexical_fault};

    ghost from_gives = { λ error fault. fault ≡ lexical_fault error };

    fn from(error: LexError) -> Fault {
        match error {
            LexError::TextTooLong => {
                Fault::Refused(Refusal::TextTooLong, Span { line: 1, column: 1 })
            }
            LexError::BadByte(place) => Fault::Refused(Refusal::BadByte, place),
            LexError::OpenComment(place) => Fault::Refused(Refusal::OpenComment, place),
            LexError::OpenText(place) => Fault::Refused(Refusal::OpenText, place),
            LexError::IntegerTooLarge(place) => Fault::Refused(Refusal::IntegerTooLarge, place),
            LexError::Memory => Fault::Memory,
        }
    }
}

impl From<ScriptError> for Fault {
    ghost use Rattle.ttcnx.specs.Fault.{script_fault};

    ghost from_gives = { λ error fault. fault ≡ script_fault error };

    fn from(error: ScriptError) -> Fault {
        match error {
            ScriptError::TooLarge => Fault::BadScript(ScriptRefusal::TooLarge),
            ScriptError::BadJson => Fault::BadScript(ScriptRefusal::BadJson),
            ScriptError::NoSuchPort => Fault::BadScript(ScriptRefusal::NoSuchPort),
            ScriptError::BadMessage => Fault::BadScript(ScriptRefusal::BadMessage),
            ScriptError::Memory => Fault::Memory,
        }
    }
}

impl From<ExploreError> for Fault {
    ghost use Rattle.ttcnx.specs.Fault.{explore_fault};

    ghost from_gives = { λ error fault. fault ≡ explore_fault error };

    fn from(error: ExploreError) -> Fault {
        match error {
            ExploreError::BadPlan => Fault::BadPlan,
            ExploreError::TooMany => Fault::TooMany,
            ExploreError::Memory => Fault::Memory,
        }
    }
}

impl From<ParseError> for Fault {
    ghost use Rattle.ttcnx.specs.Fault.{grammar_fault};

    ghost from_gives = { λ error fault. fault ≡ grammar_fault error };

    fn from(error: ParseError) -> Fault {
        match error {
            ParseError::TooDeep(place) => Fault::Refused(Refusal::TooDeep, place),
            ParseError::LeftOut(place) => Fault::Refused(Refusal::LeftOut, place),
            ParseError::Unexpected(place) => Fault::Refused(Refusal::Unexpected, place),
            ParseError::Memory => Fault::Memory,
        }
    }
}

impl From<CheckError> for Fault {
    ghost use Rattle.ttcnx.specs.Fault.{typing_fault};

    ghost from_gives = { λ error fault. fault ≡ typing_fault error };

    fn from(error: CheckError) -> Fault {
        match error {
            CheckError::Broken(rule, place) => Fault::Refused(Refusal::Broken(rule), place),
            CheckError::Memory(_) => Fault::Memory,
        }
    }
}

impl From<RunError> for Fault {
    ghost use Rattle.ttcnx.specs.Fault.{listing_fault};

    ghost from_gives = { λ error fault. fault ≡ listing_fault error };

    fn from(error: RunError) -> Fault {
        match error {
            RunError::BadLabel(line) => Fault::BadLabel(line),
            RunError::Memory => Fault::Memory,
        }
    }
}

impl From<ReplayError> for Fault {
    ghost use Rattle.ttcnx.specs.Fault.{replay_fault};

    ghost from_gives = { λ error fault. fault ≡ replay_fault error };

    fn from(error: ReplayError) -> Fault {
        match error {
            ReplayError::NotEnabled(label) => Fault::NotEnabled(label),
            ReplayError::Memory => Fault::Memory,
        }
    }
}

impl From<CoarsenError> for Fault {
    ghost use Rattle.ttcnx.specs.Fault.{coarsen_fault};

    ghost from_gives = { λ error fault. fault ≡ coarsen_fault error };

    fn from(error: CoarsenError) -> Fault {
        match error {
            CoarsenError::NotFine(label) => Fault::NotFine(label),
            CoarsenError::NotEnded => Fault::NotEnded,
            CoarsenError::Memory => Fault::Memory,
        }
    }
}
