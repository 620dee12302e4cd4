//! From the text of a module to what is written of it.
ghost use Rattle.std.specs.Prelude.{◌≡◌, ◌↔◌, IfOk, None, true};
ghost use Rattle.lint_findings.specs.Errors.{HasOneJudgement, IsJudged};

use crate::json::to_json;
use crate::text::to_text;
use lint_findings::findings;
use std::alloc::{AllocError, Global};

/// How findings are shown.
#[derive(Clone, Copy, PartialEq, Eq)]
pub enum Format {
    Text,
    Json,
}

/// What is written of the text of a module, and whether it is accepted.
#[derive(Drop)]
pub struct Linted {
    pub output: String,
    pub is_accepted: bool,
}

/// What is found in the text of a module, and whether it is that of a well-typed one. The output names the file.
pub fn lint(alloc: Global, file: &str, text: &[u8], format: Format) -> Result<Linted, AllocError>
    ensures { IfOk result (λ linted. (linted.is_accepted ≡ true) ↔ IsJudged text.now None) }
{
    let found = findings(alloc, text)?;
    let output = match format {
        Format::Text => to_text(alloc, file, text, &found)?,
        Format::Json => to_json(alloc, file, &found)?,
    };
    let is_accepted = found.errors.is_empty();
    Ok(Linted {
        output,
        is_accepted,
    })
}
