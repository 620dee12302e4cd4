//! Scripts, which stand for what a test case talks to through its system ports (ES 201 873-1, 9 and 21.1).
#![tactic(auto)]

use ttcn_syntax::{Name, Seq};
use value_types::Value;

/// What comes in at system ports: for each its name with the messages, the first one in front. No two have one name.
#[derive(Debug, Drop, PartialEq, Eq)]
pub struct Script {
    pub ports: Seq<(Name, Seq<Value>)>,
}
