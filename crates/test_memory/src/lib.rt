//! Calls whose requests for memory are refused, one after another: each must answer that it got none, or as it does with ample
//! memory.
//!
//! What refuses requests is put before the program by `tools/memory.py`. Without that each call is made once, with ample memory.
#![tactic(auto)]

mod calls;
mod given;
mod refusals;
mod tables;
mod texts;
mod trials;

pub use trials::try_all;
