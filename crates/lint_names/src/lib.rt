//! The tokens of a module's text, what names are declared as there, which names may have been meant, and what is said of
//! a place.
#![tactic(auto)]

mod kind;
mod names;
mod near;
mod remark;
mod tokens;

pub use kind::{Kind, Wanted};
pub use names::{
    Defined, Known, add_declaration, add_members, definition_at, definition_of, definitions,
    is_behind_type, meaning, visible,
};
pub use near::{Nearest, nearest_name};
pub use remark::Remark;
pub use tokens::{
    Shown, before, closing, copy_of, depth_behind, end_of_event, end_of_statement, is_name,
    is_symbol, is_word, name_at, outside, place_at, position_of, symbol_at, symbol_before,
    token_at, word_at, word_before, word_of,
};
