//! Rows of texts and the answers that they want, in files that a person reads. A program asks its subject about each row
//! and prints those that are answered otherwise.
#![tactic(auto)]

mod answer;
mod error;
mod files;
mod frame;
mod kind;
mod reading;
mod repeat;
mod row;
mod settings;

pub use answer::is_wanted;
pub use error::{CorpusError, RowsError};
pub use files::{Subject, answer_files};
pub use frame::Frame;
pub use reading::read_rows;
pub use repeat::expand_repeats;
pub use row::{Row, Rows};
pub use settings::Settings;
