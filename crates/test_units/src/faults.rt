//! The texts of errors, of those with a name each, and of each rule.
use std::alloc::{AllocError, Global};
use std::fmt::Display;
use std::io::{self, ErrorKind};
use std::test::Fail;
use test_corpus::{CorpusError, RowsError};
use ttcn_parse::ParseError;
use ttcn_syntax::{LexError, Span};
use ttcn_types::{CheckError, Rule};
use ttcn_values::Fault;
use ttcnx::StreamFault;
use ttcnx_streams::{ReadError, WriteError};

const PLACE: Span = Span {
    line: 12,
    column: 345,
};

/// Whether an error has this text.
fn has_text<E: Display>(alloc: Global, error: &E, text: &str) -> Result<bool, AllocError> {
    Ok(error.to_string(alloc)?.as_str() == text)
}

#[test]
fn errors_of_texts(rt: HostRuntime) -> Result<(), Fail> {
    let alloc = rt.alloc();
    let errors = [
        (
            LexError::TextTooLong,
            "the text is longer than 1,048,576 bytes",
        ),
        (
            LexError::BadByte(PLACE),
            "a byte that begins no token stands in line 12, column 345",
        ),
        (
            LexError::OpenComment(PLACE),
            "the comment that begins in line 12, column 345 has no end",
        ),
        (
            LexError::OpenText(PLACE),
            "the text that begins in line 12, column 345 has no end",
        ),
        (
            LexError::IntegerTooLarge(PLACE),
            "the number in line 12, column 345 is above 9223372036854775807",
        ),
        (LexError::Memory, "no memory"),
    ];
    for (error, text) in errors {
        assert!(rt; has_text(alloc, &error, text)?, "{error}");
    }
    let errors = [
        (
            ParseError::TooDeep(PLACE),
            "the brackets nest deeper than 200",
        ),
        (
            ParseError::LeftOut(PLACE),
            "the word or character is left out of this subset",
        ),
        (
            ParseError::Unexpected(PLACE),
            "no module has this token here",
        ),
        (ParseError::Memory, "no memory"),
    ];
    for (error, text) in errors {
        assert!(rt; has_text(alloc, &error, text)?, "{error}");
    }
    Ok(())
}

#[test]
fn rules_that_are_broken(rt: HostRuntime) -> Result<(), Fail> {
    let alloc = rt.alloc();
    let rules = [
        (Rule::DuplicateName, "a name is declared twice"),
        (
            Rule::UnknownName,
            "a name is not visible, or of the wrong kind for its place",
        ),
        (
            Rule::BadType,
            "a record contains itself, or a type stands where it may not",
        ),
        (Rule::Cycle, "definitions refer to one another in a circle"),
        (Rule::Size, "a definition is too large"),
        (Rule::EnumNumbers, "two numbers of an enumeration are equal"),
        (
            Rule::OperandType,
            "an operand is of another type than its operator wants",
        ),
        (
            Rule::ValueType,
            "a value is of another type than its target",
        ),
        (Rule::NotAssignable, "a constant is assigned"),
        (
            Rule::Arguments,
            "there are more or fewer arguments than parameters",
        ),
        (
            Rule::Fields,
            "fields of a record are unknown, missing, repeated, or left out where they may not be",
        ),
        (Rule::Condition, "a condition is not boolean"),
        (Rule::RunsOn, "a behaviour runs on another component type"),
        (
            Rule::PortType,
            "a port does not let messages of the type pass, or the type is not known",
        ),
        (
            Rule::Redirect,
            "what a redirect stores does not fit its target",
        ),
        (Rule::CallKind, "a behaviour of the wrong kind is called"),
        (
            Rule::ReturnPlace,
            "`return` stands where it may not, or with or without a value where it may not",
        ),
        (Rule::RepeatPlace, "`repeat` stands outside a branch"),
        (Rule::VerdictError, "the verdict `error` is set"),
        (
            Rule::MtcPlace,
            "`mtc`, or `self` of no known type, stands where it may not",
        ),
    ];
    for (rule, text) in rules {
        let error = CheckError::Broken(rule, PLACE);
        assert!(rt; has_text(alloc, &error, text)?, "{error}");
    }
    let error = CheckError::Memory(AllocError);
    assert!(rt;
        has_text(alloc, &error, "memory allocation failed")?,
        "{error}"
    );
    Ok(())
}

#[test]
fn errors_of_values(rt: HostRuntime) -> Result<(), Fail> {
    let alloc = rt.alloc();
    for (error, text) in [
        (Fault::Dynamic, "a dynamic error"),
        (Fault::Memory, "no memory"),
    ] {
        assert!(rt; has_text(alloc, &error, text)?, "{error}");
    }
    Ok(())
}

#[test]
fn errors_of_devices(rt: HostRuntime) -> Result<(), Fail> {
    let alloc = rt.alloc();
    assert!(rt; has_text(alloc, &ReadError::Reader, "a read failed")?);
    assert!(rt; has_text(alloc, &ReadError::Memory, "no memory")?);
    assert!(rt; has_text(alloc, &WriteError, "a write failed")?);
    assert!(rt; has_text(alloc, &StreamFault::Read, "a read failed")?);
    assert!(rt; has_text(alloc, &StreamFault::Write, "a write failed")?);
    let refused = StreamFault::Refused(ttcnx::Fault::NoSuchTestCase);
    assert!(rt; has_text(alloc, &refused, "refused U1 NoSuchTestCase")?);
    Ok(())
}

#[test]
fn errors_of_rows(rt: HostRuntime) -> Result<(), Fail> {
    let alloc = rt.alloc();
    let errors = [
        (
            RowsError::Stray(7),
            "a.rows: line 7 stands where no line of its kind may",
        ),
        (
            RowsError::NoAnswer(7),
            "a.rows: the row in line 7 has no answer",
        ),
        (
            RowsError::NoGap(7),
            "a.rows: the frame in line 7 has no gap <<row>>",
        ),
        (
            RowsError::UnknownKey(7),
            "a.rows: line 7 sets something that is unknown",
        ),
        (
            RowsError::BadRepeat(7),
            "a.rows: a repeat behind line 7 is not of the form <<N times PATTERN>>",
        ),
        (RowsError::Memory, "a.rows: no memory"),
    ];
    for (error, text) in errors {
        let file = String::from_str(alloc, "a.rows")?;
        let error = CorpusError::Rows { file, error };
        assert!(rt; has_text(alloc, &error, text)?, "{error}");
    }
    let error = CorpusError::File {
        file: String::from_str(alloc, "a.rows")?,
        error: io::Error::from(ErrorKind::NotFound),
    };
    assert!(rt;
        has_text(alloc, &error, "a.rows: entity not found")?,
        "{error}"
    );
    let error = CorpusError::Io(io::Error::from(ErrorKind::UnexpectedEof));
    assert!(rt;
        has_text(alloc, &error, "unexpected end of file")?,
        "{error}"
    );
    let error = CorpusError::Memory(AllocError);
    assert!(rt;
        has_text(alloc, &error, "memory allocation failed")?,
        "{error}"
    );
    Ok(())
}
