//! Configurations of a test case that runs: their parts, their canonical forms, and configurations as bytes.
#![tactic(auto)]

pub use config_canonical::{canon, canon_owned};
pub use config_packed::{
    ComponentBytes, ConfigBytes, InternedConfig, MessageBytes, OwnBytes, Packed, pack,
    queues_with_message, queues_without_first, unpack,
};
pub use config_parts::{
    ActiveDefault, Cells, Component, Config, Connection, Data, End, Frame, Going, Links, Message,
    Queue, Shared, State, TryClone,
};
