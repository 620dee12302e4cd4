//! Sequence charts of runs of test cases, as text, as JSON, for Mermaid and as SVG.
#![tactic(auto)]

mod chart;
mod json;
mod mermaid;
mod svg;
mod text;
mod words;

pub use chart::{Arrow, Chart, Column, Row};
pub use json::to_json;
pub use mermaid::to_mermaid;
pub use svg::to_svg;
pub use text::to_text;
