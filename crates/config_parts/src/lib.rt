//! Configurations of a test case that runs (ES 201 873-1, 21 and 22, ES 201 873-4).
#![tactic(auto)]

mod act;
mod cells;
mod change;
mod component;
mod config;
mod connect;
mod connection;
mod copy;
mod create;
mod data;
mod delivery;
mod expire;
mod frame;
mod going;
mod legend;
mod mapping;
mod shared;
mod verdict;
mod view;
mod way;

pub use act::{Act, Request};
pub use component::{Component, Message, Queue, State};
pub use config::{Config, Going};
pub use connection::{Connection, End, Links};
pub use copy::TryClone;
pub use frame::{ActiveDefault, Cells, Data, Frame};
pub use legend::names_make_legends;
pub use shared::Shared;
pub use view::frame_of;
pub use way::Way;
