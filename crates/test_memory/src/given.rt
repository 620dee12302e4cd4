//! What calls give.
use report::{FineText, LabelText};
use std::alloc::{AllocError, Global};
use step_labels::{FineLabel, Label};
use ttcn_config::{Config, Packed, pack};
use ttcnx::{Report, to_text};

/// What a call gives.
#[derive(Drop)]
pub enum Given {
    Nothing,
    Bytes(Vec<u8>),
    Text(String),
    Report(Report),
    Run(Vec<Label>),
    FineRun(Vec<FineLabel>),
    Config(Config),
    Packed(Packed),
}

impl Given {
    /// The bytes that tell it from other things that the same call may give.
    pub fn into_bytes(self, alloc: Global) -> Result<Vec<u8>, AllocError> {
        match self {
            Given::Nothing => Ok(Vec::new(alloc)),
            Given::Bytes(bytes) => Ok(bytes),
            Given::Text(text) => Ok(text.into_bytes()),
            Given::Report(report) => Ok(to_text(alloc, &report)?.into_bytes()),
            Given::Run(run) => lines(alloc, run.as_slice()),
            Given::FineRun(run) => fine_lines(alloc, run.as_slice()),
            Given::Config(config) => Vec::from_slice(alloc, pack(alloc, &config)?.as_bytes()),
            Given::Packed(packed) => Vec::from_slice(alloc, packed.as_bytes()),
        }
    }
}

/// Labels, a line each.
fn lines(alloc: Global, run: &[Label]) -> Result<Vec<u8>, AllocError> {
    let mut lines = String::new(alloc);
    for label in run {
        lines.push_str(LabelText(label).to_string(alloc)?.as_str())?;
        lines.push_str("\n")?;
    }
    Ok(lines.into_bytes())
}

/// Labels of a fine run, a line each.
fn fine_lines(alloc: Global, run: &[FineLabel]) -> Result<Vec<u8>, AllocError> {
    let mut lines = String::new(alloc);
    for label in run {
        lines.push_str(FineText(label).to_string(alloc)?.as_str())?;
        lines.push_str("\n")?;
    }
    Ok(lines.into_bytes())
}
