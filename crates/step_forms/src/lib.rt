//! What each form of statement asks for (ES 201 873-1, 16 and 19 to 24).
#![tactic(auto)]

pub mod assign;
pub mod call;
pub mod condition;
pub mod connect;
pub mod create;
pub mod end;
pub mod evaluate;
pub mod facts;
pub mod mapping;
pub mod marks;
pub mod port_types;
pub mod position;
pub mod send;
pub mod simple;
pub mod stand;
pub mod storing;
