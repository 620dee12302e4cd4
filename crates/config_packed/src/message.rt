//! A message, kept as bytes.
ghost use Rattle.std.specs.Prelude.{◌≡◌, IfOk};
ghost use Rattle.config_packed.specs.Spelling.{spell_message};

use crate::spelled::Spelled;
use config_parts::Message;
use std::alloc::{AllocError, Global};
use std::marker::Model;

/// How many bytes are asked for before a message is spelled: few need more.
const ROOM: usize = 32;

/// A message as bytes. Contracts see the message.
pub struct MessageBytes {
    bytes: Vec<u8>,
}

impl Model for MessageBytes {
    ghost use Rattle.std.specs.Coded.{codes};
    ghost use Rattle.std.specs.Prelude.{◌≡◌};
    ghost use Rattle.config_packed.specs.Own.{message_in};
    ghost use Rattle.config_packed.specs.Spelling.{spell_message};
    ghost use Rattle.config_parts.specs.declared.component.Message.{Message};
    ghost use Rattle.value_types.specs.contracts.value.Value as value;

    ghost Value = { Message };

    ghost coded = { Prim.hlevel (codes, value.the_row.coded) };

    ghost view = { λ message. message_in message.bytes.items };

    ghost invariant = { λ message. message.bytes.items ≡ spell_message (message_in message.bytes.items) };
}

impl Drop for MessageBytes {
    fn drop(self) {
        let MessageBytes { bytes: _bytes } = self;
    }
}

impl MessageBytes {
    #[tactic(auto, using(crate::proofs::OwnBack::message_in_back))]
    pub fn new(alloc: Global, message: &Message) -> Result<MessageBytes, AllocError>
        ensures { IfOk result (λ kept. kept ≡ message.now) }
    {
        let mut bytes = Vec::with_capacity(alloc, ROOM)?;
        message.put(&mut bytes)?;
        Ok(MessageBytes { bytes })
    }

    pub fn as_bytes(&self) -> &[u8]
        ensures { result.now ≡ spell_message self.now }
    {
        self.bytes.as_slice()
    }
}
