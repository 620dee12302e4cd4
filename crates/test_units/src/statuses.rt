//! The lines of faults, the statuses that they lead to, and the texts of errors.
use report::{RunError, ScriptError};
use std::alloc::{AllocError, Global};
use std::fmt::Display;
use std::test::Fail;
use ttcn_step::{CoarsenError, ReplayError, StepError};
use ttcn_syntax::Span;
use ttcnx::{Fault, LineError, Refusal, Rule, ScriptRefusal, fault_line, status};

/// Refusals of a module, and what their lines name.
const REFUSALS: &[(Refusal, &str)] = &[
    (Refusal::BadByte, "L1 BadByte"),
    (Refusal::OpenComment, "L2 OpenComment"),
    (Refusal::OpenText, "L3 OpenText"),
    (Refusal::IntegerTooLarge, "L4 IntegerTooLarge"),
    (Refusal::TextTooLong, "L5 TextTooLong"),
    (Refusal::Unexpected, "P1 Unexpected"),
    (Refusal::TooDeep, "P2 TooDeep"),
    (Refusal::LeftOut, "P3 LeftOut"),
    (Refusal::Broken(Rule::DuplicateName), "C1 DuplicateName"),
    (Refusal::Broken(Rule::UnknownName), "C2 UnknownName"),
    (Refusal::Broken(Rule::BadType), "C3 BadType"),
    (Refusal::Broken(Rule::Cycle), "C4 Cycle"),
    (Refusal::Broken(Rule::Size), "C5 Size"),
    (Refusal::Broken(Rule::EnumNumbers), "C6 EnumNumbers"),
    (Refusal::Broken(Rule::OperandType), "C7 OperandType"),
    (Refusal::Broken(Rule::ValueType), "C8 ValueType"),
    (Refusal::Broken(Rule::NotAssignable), "C9 NotAssignable"),
    (Refusal::Broken(Rule::Arguments), "C10 Arguments"),
    (Refusal::Broken(Rule::Fields), "C11 Fields"),
    (Refusal::Broken(Rule::Condition), "C12 Condition"),
    (Refusal::Broken(Rule::RunsOn), "C13 RunsOn"),
    (Refusal::Broken(Rule::PortType), "C14 PortType"),
    (Refusal::Broken(Rule::Redirect), "C15 Redirect"),
    (Refusal::Broken(Rule::CallKind), "C16 CallKind"),
    (Refusal::Broken(Rule::ReturnPlace), "C17 ReturnPlace"),
    (Refusal::Broken(Rule::RepeatPlace), "C18 RepeatPlace"),
    (Refusal::Broken(Rule::VerdictError), "C19 VerdictError"),
    (Refusal::Broken(Rule::MtcPlace), "C20 MtcPlace"),
];

/// Whether a fault has this line, and leads to this status.
fn is_told(alloc: Global, fault: &Fault, line: &str, exit: u8) -> Result<bool, AllocError> {
    Ok(fault_line(alloc, fault)?.as_str() == line && status(fault) == exit)
}

#[test]
fn lines_of_refusals(rt: HostRuntime) -> Result<(), Fail> {
    let alloc = rt.alloc();
    let place = Span {
        line: 12,
        column: 345,
    };
    for (refusal, name) in REFUSALS {
        let fault = Fault::Refused(*refusal, place);
        let line = format!(in alloc; "refused {name} at 12:345")?;
        assert!(rt; is_told(alloc, &fault, line.as_str(), 1)?, "{name}");
    }
    Ok(())
}

/// Refusals of a script, and their lines.
const SCRIPT_REFUSALS: &[(ScriptRefusal, &str)] = &[
    (ScriptRefusal::TooLarge, "refused J4 TooLarge"),
    (ScriptRefusal::BadJson, "refused J1 BadJson"),
    (ScriptRefusal::NoSuchPort, "refused J2 NoSuchPort"),
    (ScriptRefusal::BadMessage, "refused J3 BadMessage"),
];

#[test]
fn lines_of_refused_scripts(rt: HostRuntime) -> Result<(), Fail> {
    let alloc = rt.alloc();
    for (refusal, line) in SCRIPT_REFUSALS {
        let fault = Fault::BadScript(*refusal);
        assert!(rt; is_told(alloc, &fault, line, 1)?, "{line}");
    }
    Ok(())
}

#[test]
fn lines_of_refused_runs(rt: HostRuntime) -> Result<(), Fail> {
    let alloc = rt.alloc();
    assert!(rt;
        is_told(
            alloc,
            &Fault::NoSuchTestCase,
            "refused U1 NoSuchTestCase",
            1
        )?
    );
    assert!(rt;
        is_told(
            alloc,
            &Fault::BadLabel(2),
            "refused N1 BadLabel at line 2",
            1
        )?
    );
    assert!(rt;
        is_told(
            alloc,
            &Fault::NotEnabled(7),
            "refused N2 NotEnabled at label 7",
            1
        )?
    );
    assert!(rt;
        is_told(
            alloc,
            &Fault::NotFine(8),
            "refused F1 NotFine at label 8",
            1
        )?
    );
    assert!(rt; is_told(alloc, &Fault::NotEnded, "refused F2 NotEnded", 1)?);
    Ok(())
}

#[test]
fn lines_of_other_faults(rt: HostRuntime) -> Result<(), Fail> {
    let alloc = rt.alloc();
    assert!(rt; is_told(alloc, &Fault::BadPlan, "refused E2 BadPlan", 2)?);
    assert!(rt; is_told(alloc, &Fault::TooMany, "refused E1 TooMany", 3)?);
    assert!(rt; is_told(alloc, &Fault::Memory, "out of memory", 4)?);
    assert!(rt; is_told(alloc, &Fault::CannotWrite, "cannot write", 5)?);
    let unread = Fault::CannotRead(String::from_str(alloc, "a b.ttcn")?);
    assert!(rt; is_told(alloc, &unread, "cannot read a b.ttcn", 5)?);
    Ok(())
}

/// Whether an error has this text.
fn has_text<E: Display>(alloc: Global, error: &E, text: &str) -> Result<bool, AllocError> {
    Ok(error.to_string(alloc)?.as_str() == text)
}

#[test]
fn texts_of_run_errors(rt: HostRuntime) -> Result<(), Fail> {
    let alloc = rt.alloc();
    assert!(rt; has_text(alloc, &RunError::BadLabel(7), "line 7 is no label")?);
    assert!(rt; has_text(alloc, &RunError::Memory, "no memory")?);
    assert!(rt; has_text(alloc, &ReplayError::NotEnabled(7), "label 7 is not enabled")?);
    assert!(rt; has_text(alloc, &ReplayError::Memory, "no memory")?);
    Ok(())
}

#[test]
fn texts_of_script_errors(rt: HostRuntime) -> Result<(), Fail> {
    let alloc = rt.alloc();
    assert!(rt; has_text(alloc, &ScriptError::TooLarge, "the script is too large")?);
    assert!(rt; has_text(alloc, &ScriptError::BadJson, "the script is no JSON")?);
    assert!(rt; has_text(alloc, &ScriptError::NoSuchPort, "no such system port")?);
    assert!(rt;
        has_text(
            alloc,
            &ScriptError::BadMessage,
            "no message of the system port"
        )?
    );
    assert!(rt; has_text(alloc, &ScriptError::Memory, "no memory")?);
    Ok(())
}

#[test]
fn texts_of_step_errors(rt: HostRuntime) -> Result<(), Fail> {
    let alloc = rt.alloc();
    assert!(rt; has_text(alloc, &StepError::NotEnabled, "the label is not enabled")?);
    assert!(rt; has_text(alloc, &StepError::Memory, "no memory")?);
    assert!(rt; has_text(alloc, &CoarsenError::NotFine(7), "label 7 can't follow")?);
    assert!(rt; has_text(alloc, &CoarsenError::NotEnded, "the run has not ended")?);
    assert!(rt; has_text(alloc, &CoarsenError::Memory, "no memory")?);
    Ok(())
}

#[test]
fn texts_of_line_errors(rt: HostRuntime) -> Result<(), Fail> {
    let alloc = rt.alloc();
    let help = LineError::Help(String::from_str(alloc, "what it takes")?);
    assert!(rt; has_text(alloc, &help, "what it takes")?);
    let bad = LineError::Bad(String::from_str(alloc, "what is wrong")?);
    assert!(rt; has_text(alloc, &bad, "what is wrong")?);
    let memory = LineError::Memory(AllocError);
    assert!(rt; has_text(alloc, &memory, "memory allocation failed")?);
    Ok(())
}
