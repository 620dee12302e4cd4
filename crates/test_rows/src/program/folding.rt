//! Long runs in few lines.
use std::alloc::{AllocError, Global};

/// Lines, in which one line `  mtc*6` stands for six equal ones that stand one behind the other.
pub fn folded(alloc: Global, printed: &str) -> Result<String, AllocError> {
    let lines: Vec<&str> = printed.lines().collect(alloc)?;
    let mut text = String::new(alloc);
    let mut times = 0u64;
    for (at, line) in lines.iter().enumerate() {
        times = times.saturating_add(1);
        if !is_followed_by(lines.as_slice(), at, line) {
            push_line(alloc, &mut text, line, times)?;
            times = 0;
        }
    }
    Ok(text)
}

/// Whether a line stands behind the line of this number, too.
fn is_followed_by(lines: &[&str], number: usize, line: &str) -> bool {
    match lines.get(number.saturating_add(1)) {
        Some(next) => *next == line,
        None => false,
    }
}

/// Writes a line that stands there so many times.
fn push_line(alloc: Global, text: &mut String, line: &str, times: u64) -> Result<(), AllocError> {
    let line = match times {
        1 => format!(in alloc; "{line}\n")?,
        _ => format!(in alloc; "{line}*{times}\n")?,
    };
    text.push_str(line.as_str())
}
