//! The parts of configurations as bytes.
ghost use Rattle.std.specs.Prelude.{◌≡◌, ◌++◌, IfOk, OnOk};
ghost use Rattle.config_packed.specs.Reading.{read_own, read_sender, read_verdict, state_of, verdict_of};
ghost use Rattle.config_packed.specs.Spelling.{spell_name, spell_own, spell_sender, spell_verdict, state_code, verdict_code};

use crate::byte_reader::ByteReader;
use crate::number::{
    put_long, put_long_pair, put_number, put_pair, take_long, take_long_pair, take_number,
    take_pair,
};
use crate::sized::put_sized;
use crate::spelled::{Spelled, put_items, take_items};
use crate::value::take_identity_from;
use config_parts::{
    ActiveDefault, Cells, Connection, Data, End, Frame, Links, Message, Queue, Shared, State,
};
use std::alloc::{AllocError, Global};
use ttcn_syntax::{Seq, Verdict};
use value_types::{ComponentId, Path, TimerState, Value};

// ---- what components have of their own

impl Spelled for TimerState {
    ghost use Rattle.config_packed.specs.Reading.{read_timer};
    ghost use Rattle.config_packed.specs.Spelling.{spell_timer};

    ghost spell = { spell_timer };

    ghost read = { read_timer };

    fn put(&self, bytes: &mut Vec<u8>) -> Result<(), AllocError> {
        let code = match self {
            TimerState::Inactive => 0,
            TimerState::Running => 1,
            TimerState::Expired => 2,
        };
        bytes.push(code)?;
        Ok(())
    }

    #[tactic(auto, unfolding(crate::specs::Reading::read_timer))]
    fn take(_alloc: Global, reader: &mut ByteReader<'_>) -> Result<TimerState, AllocError> {
        match reader.byte() {
            0 => Ok(TimerState::Inactive),
            1 => Ok(TimerState::Running),
            _ => Ok(TimerState::Expired),
        }
    }
}

impl Spelled for Cells {
    ghost use Rattle.config_packed.specs.Reading.{read_cells};
    ghost use Rattle.config_packed.specs.Spelling.{spell_cells};

    ghost spell = { spell_cells };

    ghost read = { read_cells };

    #[tactic(auto, unfolding(crate::specs::Spelling::spell_cells))]
    fn put(&self, bytes: &mut Vec<u8>) -> Result<(), AllocError> {
        put_long_pair(bytes, self.values.len(), self.timers.len())?;
        put_items(bytes, self.values.as_slice())?;
        put_items(bytes, self.timers.as_slice())
    }

    #[tactic(auto, unfolding(crate::specs::Reading::read_cells))]
    fn take(alloc: Global, reader: &mut ByteReader<'_>) -> Result<Cells, AllocError> {
        let (count, timer_count) = take_long_pair(reader);
        let values = take_items(alloc, reader, count)?;
        let timers = take_items(alloc, reader, timer_count)?;
        Ok(Cells { values, timers })
    }
}

impl Spelled for Frame {
    ghost use Rattle.config_packed.specs.Reading.{read_frame};
    ghost use Rattle.config_packed.specs.Spelling.{spell_frame};

    ghost spell = { spell_frame };

    ghost read = { read_frame };

    #[tactic(auto, unfolding(crate::specs::Spelling::spell_frame))]
    fn put(&self, bytes: &mut Vec<u8>) -> Result<(), AllocError> {
        put_long(bytes, self.remaining)?;
        self.cells.get().put(bytes)
    }

    #[tactic(auto, unfolding(crate::specs::Reading::read_frame))]
    fn take(alloc: Global, reader: &mut ByteReader<'_>) -> Result<Frame, AllocError> {
        let remaining = take_long(reader);
        let cells = Cells::take(alloc, reader)?;
        Ok(Frame {
            remaining,
            cells: Shared::new(alloc, cells)?,
        })
    }
}

impl Spelled for ActiveDefault {
    ghost use Rattle.config_packed.specs.Reading.{read_default};
    ghost use Rattle.config_packed.specs.Spelling.{spell_default};

    ghost spell = { spell_default };

    ghost read = { read_default };

    #[tactic(auto, unfolding(crate::specs::Spelling::spell_default))]
    fn put(&self, bytes: &mut Vec<u8>) -> Result<(), AllocError> {
        put_number(bytes, self.number)?;
        put_long(bytes, self.altstep)?;
        self.arguments.put(bytes)
    }

    #[tactic(auto, unfolding(crate::specs::Reading::read_default))]
    fn take(alloc: Global, reader: &mut ByteReader<'_>) -> Result<ActiveDefault, AllocError> {
        let number = take_number(reader);
        let altstep = take_long(reader);
        let arguments = Seq::take(alloc, reader)?;
        Ok(ActiveDefault {
            number,
            altstep,
            arguments,
        })
    }
}

// ---- components

fn verdict_code(verdict: Verdict) -> u8
    ensures { result ≡ verdict_code verdict }
{
    match verdict {
        Verdict::None => 0,
        Verdict::Pass => 1,
        Verdict::Inconc => 2,
        Verdict::Fail => 3,
        Verdict::Error => 4,
    }
}

fn verdict_of(code: usize) -> Verdict
    ensures { result ≡ verdict_of code }
{
    match code {
        0 => Verdict::None,
        1 => Verdict::Pass,
        2 => Verdict::Inconc,
        3 => Verdict::Fail,
        _ => Verdict::Error,
    }
}

#[tactic(auto, unfolding(crate::specs::Reading::read_verdict))]
pub fn take_verdict(reader: &mut ByteReader<'_>) -> Verdict
    ensures value { result ≡ (read_verdict reader.old).0 }
    ensures rest { reader.new ≡ (read_verdict reader.old).1 }
{
    verdict_of(usize::from(reader.byte()))
}

pub fn put_verdict(bytes: &mut Vec<u8>, verdict: Verdict) -> Result<(), AllocError>
    ensures { OnOk result (bytes.new.items ≡ bytes.old.items ++ spell_verdict verdict) }
{
    bytes.push(verdict_code(verdict))?;
    Ok(())
}

/// What a component has of its own.
#[tactic(auto, unfolding(crate::specs::Spelling::spell_own))]
pub fn put_own(bytes: &mut Vec<u8>, verdict: Verdict, own: &Data) -> Result<(), AllocError>
    ensures { OnOk result (bytes.new.items ≡ bytes.old.items ++ spell_own verdict own.now) }
{
    put_pair(bytes, usize::from(verdict_code(verdict)), own.children)?;
    own.members.put(bytes)?;
    own.calls.put(bytes)?;
    put_pair(bytes, own.defaults.len(), own.activations)?;
    put_items(bytes, own.defaults.as_slice())
}

#[tactic(auto, unfolding(crate::specs::Reading::read_own))]
pub fn take_own(alloc: Global, reader: &mut ByteReader<'_>) -> Result<(Verdict, Data), AllocError>
    ensures value { IfOk result (λ own. own ≡ (read_own reader.old).0) }
    ensures rest { OnOk result (reader.new ≡ (read_own reader.old).1) }
{
    let (code, children) = take_pair(reader);
    let members = Cells::take(alloc, reader)?;
    let calls = Seq::take(alloc, reader)?;
    let (count, activations) = take_pair(reader);
    let defaults = take_items(alloc, reader, count)?;
    let own = Data {
        members,
        calls,
        defaults,
        activations,
        children,
    };
    Ok((verdict_of(code), own))
}

/// The sender of a message, or the byte 102.
#[tactic(auto, unfolding(crate::specs::Spelling::spell_sender))]
fn put_sender(bytes: &mut Vec<u8>, sender: &Option<ComponentId>) -> Result<(), AllocError>
    ensures { OnOk result (bytes.new.items ≡ bytes.old.items ++ spell_sender sender.now) }
{
    match sender {
        None => {
            bytes.push(102)?;
            Ok(())
        }
        Some(component) => component.put(bytes),
    }
}

#[tactic(auto, unfolding(crate::specs::Reading::read_sender))]
fn take_sender(
    alloc: Global,
    reader: &mut ByteReader<'_>,
) -> Result<Option<ComponentId>, AllocError>
    ensures value { IfOk result (λ sender. sender ≡ (read_sender reader.old).0) }
    ensures rest { OnOk result (reader.new ≡ (read_sender reader.old).1) }
{
    let first = reader.byte();
    if first == 102 {
        return Ok(None);
    }
    Ok(Some(take_identity_from(alloc, reader, first)?))
}

impl Spelled for Message {
    ghost use Rattle.config_packed.specs.Reading.{read_message};
    ghost use Rattle.config_packed.specs.Spelling.{spell_message};

    ghost spell = { spell_message };

    ghost read = { read_message };

    #[tactic(auto, unfolding(crate::specs::Spelling::spell_message))]
    fn put(&self, bytes: &mut Vec<u8>) -> Result<(), AllocError> {
        self.value.put(bytes)?;
        put_sender(bytes, &self.sender)
    }

    #[tactic(auto, unfolding(crate::specs::Reading::read_message))]
    fn take(alloc: Global, reader: &mut ByteReader<'_>) -> Result<Message, AllocError> {
        let value = Value::take(alloc, reader)?;
        let sender = take_sender(alloc, reader)?;
        Ok(Message { value, sender })
    }
}

impl Spelled for Queue {
    ghost use Rattle.config_packed.specs.Reading.{read_queue};
    ghost use Rattle.config_packed.specs.Spelling.{spell_queue};

    ghost spell = { spell_queue };

    ghost read = { read_queue };

    #[tactic(auto, unfolding(crate::specs::Spelling::spell_queue))]
    fn put(&self, bytes: &mut Vec<u8>) -> Result<(), AllocError> {
        // spelled apart first, so that their length is known
        let mut messages = Vec::new(*bytes.allocator());
        put_items(&mut messages, self.messages.as_slice())?;
        put_pair(bytes, self.messages.len(), self.port)?;
        put_sized(bytes, messages.as_slice())
    }

    #[tactic(auto, unfolding(crate::specs::Reading::read_queue))]
    fn take(alloc: Global, reader: &mut ByteReader<'_>) -> Result<Queue, AllocError> {
        let (count, port) = take_pair(reader);
        let _size = take_long(reader);
        let messages = take_items(alloc, reader, count)?;
        Ok(Queue { port, messages })
    }
}

/// What all components see of one: its name and its state.
pub type Name = (ComponentId, State);

fn state_code(state: State) -> usize
    ensures { result ≡ state_code state }
{
    match state {
        State::Created => 0,
        State::Running => 1,
        State::Terminated => 2,
    }
}

fn state_of(code: usize) -> State
    ensures { result ≡ state_of code }
{
    match code {
        0 => State::Created,
        1 => State::Running,
        _ => State::Terminated,
    }
}

#[tactic(auto, unfolding(crate::specs::Spelling::spell_name))]
pub fn put_name(bytes: &mut Vec<u8>, itself: &ComponentId, state: State) -> Result<(), AllocError>
    ensures { OnOk result (bytes.new.items ≡ bytes.old.items ++ spell_name (itself.now, state)) }
{
    itself.path.put(bytes)?;
    put_long_pair(bytes, itself.component_type, state_code(state))
}

impl Spelled for (ComponentId, State) {
    ghost use Rattle.config_packed.specs.Reading.{read_name};
    ghost use Rattle.config_packed.specs.Spelling.{spell_name};

    ghost spell = { spell_name };

    ghost read = { read_name };

    fn put(&self, bytes: &mut Vec<u8>) -> Result<(), AllocError> {
        put_name(bytes, &self.0, self.1)
    }

    #[tactic(auto, unfolding(crate::specs::Reading::read_name))]
    fn take(alloc: Global, reader: &mut ByteReader<'_>) -> Result<Name, AllocError> {
        let path = Path::take(alloc, reader)?;
        let (component_type, code) = take_long_pair(reader);
        let itself = ComponentId {
            path,
            component_type,
        };
        Ok((itself, state_of(code)))
    }
}

// ---- connections and mappings

impl Spelled for End {
    ghost use Rattle.config_packed.specs.Reading.{read_end};
    ghost use Rattle.config_packed.specs.Spelling.{spell_end};

    ghost spell = { spell_end };

    ghost read = { read_end };

    #[tactic(auto, unfolding(crate::specs::Spelling::spell_end))]
    fn put(&self, bytes: &mut Vec<u8>) -> Result<(), AllocError> {
        self.component.put(bytes)?;
        put_number(bytes, self.port)
    }

    #[tactic(auto, unfolding(crate::specs::Reading::read_end))]
    fn take(alloc: Global, reader: &mut ByteReader<'_>) -> Result<End, AllocError> {
        let component = Path::take(alloc, reader)?;
        let port = take_number(reader);
        Ok(End { component, port })
    }
}

impl Spelled for Connection {
    ghost use Rattle.config_packed.specs.Reading.{read_connection};
    ghost use Rattle.config_packed.specs.Spelling.{spell_connection};

    ghost spell = { spell_connection };

    ghost read = { read_connection };

    #[tactic(auto, unfolding(crate::specs::Spelling::spell_connection))]
    fn put(&self, bytes: &mut Vec<u8>) -> Result<(), AllocError> {
        self.one.put(bytes)?;
        self.other.put(bytes)
    }

    #[tactic(auto, unfolding(crate::specs::Reading::read_connection))]
    fn take(alloc: Global, reader: &mut ByteReader<'_>) -> Result<Connection, AllocError> {
        let one = End::take(alloc, reader)?;
        let other = End::take(alloc, reader)?;
        Ok(Connection { one, other })
    }
}

impl Spelled for Links {
    ghost use Rattle.config_packed.specs.Reading.{read_links};
    ghost use Rattle.config_packed.specs.Spelling.{spell_links};

    ghost spell = { spell_links };

    ghost read = { read_links };

    #[tactic(auto, unfolding(crate::specs::Spelling::spell_links))]
    fn put(&self, bytes: &mut Vec<u8>) -> Result<(), AllocError> {
        self.connections.put(bytes)?;
        self.mappings.put(bytes)?;
        self.delivered.put(bytes)
    }

    #[tactic(auto, unfolding(crate::specs::Reading::read_links))]
    fn take(alloc: Global, reader: &mut ByteReader<'_>) -> Result<Links, AllocError> {
        let connections = Seq::take(alloc, reader)?;
        let mappings = Seq::take(alloc, reader)?;
        let delivered = Seq::take(alloc, reader)?;
        Ok(Links {
            connections,
            mappings,
            delivered,
        })
    }
}
