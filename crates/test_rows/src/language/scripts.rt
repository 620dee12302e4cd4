//! Scripts, read from JSON.
use crate::language::notation::notation;
use report::{ScriptError, read_script};
use std::alloc::{AllocError, Global};
use test_corpus::Settings;
use test_refusals::program;
use ttcn_syntax::{Name, Seq};
use ttcn_types::Definitions;
use ttcn_values::Value;

/// The script of a test case that a text is, a line for each system port that it names, or why the text is none.
pub fn scripted(alloc: Global, text: &str, settings: &Settings<'_>) -> Result<String, AllocError> {
    let program = match program(alloc, settings.get("definitions").unwrap_or("")) {
        Ok(program) => program,
        Err(refusal) => return refusal.to_string(alloc),
    };
    let Some(testcase) = program.testcase(settings.get("testcase").unwrap_or("T")) else {
        return String::from_str(alloc, "no test case");
    };
    match read_script(alloc, text.as_bytes(), &program, testcase) {
        Ok(script) => {
            let definitions = program.definitions(alloc)?;
            lines_of(alloc, &definitions, script.ports.as_slice())
        }
        Err(ScriptError::Memory) => Err(AllocError),
        Err(error) => format!(in alloc; "{error:?}"),
    }
}

/// `p: 1, { a := 2 }`, a line for each port, and `no port` where there is none.
fn lines_of(
    alloc: Global,
    definitions: &Definitions<'_>,
    ports: &[(Name, Seq<Value>)],
) -> Result<String, AllocError> {
    let mut text = String::new(alloc);
    for (name, messages) in ports {
        let messages = messages_of(alloc, definitions, messages.as_slice())?;
        let end = if text.is_empty() { "" } else { "\n" };
        text.push_str(format!(in alloc; "{end}{name:?}: {messages}")?.as_str())?;
    }
    if text.is_empty() {
        text.push_str("no port")?;
    }
    Ok(text)
}

/// The messages between commas, and `nothing` where there is none.
fn messages_of(
    alloc: Global,
    definitions: &Definitions<'_>,
    messages: &[Value],
) -> Result<String, AllocError> {
    let mut text = String::new(alloc);
    for message in messages {
        let comma = if text.is_empty() { "" } else { ", " };
        let message = notation(alloc, definitions, message)?;
        text.push_str(format!(in alloc; "{comma}{message}")?.as_str())?;
    }
    if text.is_empty() {
        text.push_str("nothing")?;
    }
    Ok(text)
}
