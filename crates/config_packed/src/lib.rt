//! Configurations as bytes, from which they are read back.
#![tactic(auto)]

mod byte_reader;
mod change;
mod halves;
mod interned;
mod laws;
mod message;
mod number;
mod own;
mod packed;
mod parts;
mod pieces;
mod queues;
mod shortened;
mod sized;
mod skip;
mod spelled;
mod value;
mod whole;

pub use interned::InternedConfig;
pub use laws::{
    configs_are_spelled_apart, keys_tell_what_is_seen, outlines_tell_what_all_see,
    same_bytes_are_one, spelled_configs_are_read_back,
};
pub use message::MessageBytes;
pub use own::OwnBytes;
pub use packed::{Packed, pack, unpack};
pub use pieces::{ComponentBytes, ConfigBytes};
pub use queues::{queues_with_message, queues_without_first};
