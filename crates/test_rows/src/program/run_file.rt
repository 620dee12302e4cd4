//! The run file of a row.
use std::alloc::{AllocError, Global};
use test_corpus::Settings;

/// The run file that a row gives, by its text or by its labels.
pub fn run_file_of(alloc: Global, settings: &Settings<'_>) -> Result<String, AllocError> {
    match settings.get("runfile") {
        Some(text) => written(alloc, text),
        None => lines(alloc, settings.get("run").unwrap_or("")),
    }
}

/// A text, in which `\n`, `\t` and `\r` stand for what they stand for in Rust.
fn written(alloc: Global, text: &str) -> Result<String, AllocError> {
    let mut file = String::new(alloc);
    let mut escaped = false;
    for character in text.chars() {
        let escapes = character == '\\' && !escaped;
        match character {
            '\\' if escapes => {}
            'n' if escaped => file.push('\n')?,
            't' if escaped => file.push('\t')?,
            'r' if escaped => file.push('\r')?,
            other => file.push(other)?,
        }
        escaped = escapes;
    }
    Ok(file)
}

/// A line for each of the labels between blanks; `mtc*6` stands for six of them, and `snap` or `choose` for the beginning
/// of a line.
fn lines(alloc: Global, words: &str) -> Result<String, AllocError> {
    let mut file = String::new(alloc);
    for word in words.split_whitespace() {
        let (label, times) = repeated(word);
        for _ in 0..times {
            file.push_str(label)?;
            file.push(behind(label))?;
        }
    }
    Ok(file)
}

/// What stands behind a word of a run file.
fn behind(word: &str) -> char {
    match word {
        "snap" | "choose" => ' ',
        _ => '\n',
    }
}

/// A label and how often it stands there.
fn repeated<'a>(word: &'a str) -> (&'a str, u64) {
    let Some((label, times)) = word.split_once('*') else {
        return (word, 1);
    };
    match times.parse::<u64>() {
        Ok(times) => (label, times),
        Err(_) => (word, 1),
    }
}
