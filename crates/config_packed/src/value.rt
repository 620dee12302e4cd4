//! Values as bytes.
ghost use Rattle.std.specs.Prelude.{◌≡◌, ◌++◌, IfOk, OnOk};
ghost use Rattle.config_packed.specs.Reading.{identity_from, integer_of, path_from, read_enumerated, read_field, read_integer, read_record, read_value_within};
ghost use Rattle.config_packed.specs.Spelling.{number_of, spell_child, spell_integer, spell_value};

use crate::byte_reader::ByteReader;
use crate::number::{put_long, put_number, take_long, take_number};
use crate::spelled::Spelled;
use std::alloc::{AllocError, Global};
use ttcn_syntax::Seq;
use value_types::{ComponentId, Path, Value};

// ---- integers

/// The number of an integer: 0, -1, 1, -2 and so on have the numbers from 0.
fn number_of(integer: i64) -> usize
    ensures { result ≡ number_of integer }
{
    if integer < 0 {
        2 * (-(integer + 1)) as usize + 1
    } else {
        2 * integer as usize
    }
}

fn integer_of(number: usize) -> i64
    ensures { result ≡ integer_of number }
{
    let half = (number / 2) as i64;
    if number % 2 == 0 { half } else { -half - 1 }
}

#[tactic(auto, unfolding(crate::specs::Spelling::spell_integer))]
fn put_integer(bytes: &mut Vec<u8>, integer: i64) -> Result<(), AllocError>
    ensures { OnOk result (bytes.new.items ≡ bytes.old.items ++ spell_integer integer) }
{
    let number = number_of(integer);
    if number < 247 {
        bytes.push((9 + number) as u8)?;
        return Ok(());
    }
    bytes.push(0)?;
    put_long(bytes, number)
}

#[tactic(auto, unfolding(crate::specs::Reading::read_integer))]
fn take_integer(reader: &mut ByteReader<'_>) -> i64
    ensures value { result ≡ (read_integer reader.old).0 }
    ensures rest { reader.new ≡ (read_integer reader.old).1 }
{
    integer_of(take_long(reader))
}

// ---- the names of components

/// A path of one number.
#[tactic(auto, unfolding(crate::specs::Spelling::spell_list))]
fn put_child(bytes: &mut Vec<u8>, number: u32) -> Result<(), AllocError>
    ensures { OnOk result (bytes.new.items ≡ bytes.old.items ++ spell_child number) }
{
    if number < 100 {
        bytes.push(1 + number as u8)?;
        return Ok(());
    }
    bytes.push(101)?;
    put_long(bytes, 1)?;
    put_number(bytes, number)
}

/// A path that begins with this byte.
fn take_path_from(alloc: Global, reader: &mut ByteReader<'_>, first: u8) -> Result<Path, AllocError>
    ensures value { IfOk result (λ path. path ≡ (path_from first reader.old).0) }
    ensures rest { OnOk result (reader.new ≡ (path_from first reader.old).1) }
{
    if first > 100 {
        return Ok(Path {
            numbers: Seq::take(alloc, reader)?,
        });
    }
    let mut numbers = Seq::new(alloc);
    if first > 0 {
        numbers.push(u32::from(first) - 1)?;
    }
    Ok(Path { numbers })
}

/// A component that a reference names, where its path begins with this byte.
#[tactic(auto, unfolding(crate::specs::Reading::identity_from))]
pub fn take_identity_from(
    alloc: Global,
    reader: &mut ByteReader<'_>,
    first: u8,
) -> Result<ComponentId, AllocError>
    ensures value { IfOk result (λ component. component ≡ (identity_from first reader.old).0) }
    ensures rest { OnOk result (reader.new ≡ (identity_from first reader.old).1) }
{
    let path = take_path_from(alloc, reader, first)?;
    let component_type = take_long(reader);
    Ok(ComponentId {
        path,
        component_type,
    })
}

impl Spelled for Path {
    ghost use Rattle.config_packed.specs.Reading.{read_path};
    ghost use Rattle.config_packed.specs.Spelling.{spell_path};

    ghost spell = { spell_path };

    ghost read = { read_path };

    #[tactic(auto, unfolding(crate::specs::Spelling::spell_path))]
    fn put(&self, bytes: &mut Vec<u8>) -> Result<(), AllocError> {
        match self.numbers.as_slice() {
            [] => {
                bytes.push(0)?;
                Ok(())
            }
            [number] => put_child(bytes, *number),
            _ => {
                bytes.push(101)?;
                self.numbers.put(bytes)
            }
        }
    }

    #[tactic(auto, unfolding(crate::specs::Reading::read_path))]
    fn take(alloc: Global, reader: &mut ByteReader<'_>) -> Result<Path, AllocError> {
        let first = reader.byte();
        take_path_from(alloc, reader, first)
    }
}

impl Spelled for ComponentId {
    ghost use Rattle.config_packed.specs.Reading.{read_identity};
    ghost use Rattle.config_packed.specs.Spelling.{spell_identity};

    ghost spell = { spell_identity };

    ghost read = { read_identity };

    #[tactic(auto, unfolding(crate::specs::Spelling::spell_identity))]
    fn put(&self, bytes: &mut Vec<u8>) -> Result<(), AllocError> {
        self.path.put(bytes)?;
        put_long(bytes, self.component_type)
    }

    #[tactic(auto, unfolding(crate::specs::Reading::read_identity))]
    fn take(alloc: Global, reader: &mut ByteReader<'_>) -> Result<ComponentId, AllocError> {
        let first = reader.byte();
        take_identity_from(alloc, reader, first)
    }
}

// ---- values

/// A value: a byte for the variant, and then what it holds.
#[tactic(auto, unfolding(crate::specs::Spelling::spell_value))]
fn put_value(bytes: &mut Vec<u8>, value: &Value) -> Result<(), AllocError>
    ensures { OnOk result (bytes.new.items ≡ bytes.old.items ++ spell_value value.now) }
{
    match value {
        Value::Integer(integer) => {
            put_integer(bytes, *integer)?;
            Ok(())
        }
        Value::Boolean(truth) => {
            bytes.push(if *truth { 2 } else { 1 })?;
            Ok(())
        }
        Value::Enumerated(at, name) => {
            bytes.push(3)?;
            put_long(bytes, *at)?;
            put_long(bytes, *name)
        }
        Value::Record(at, fields) => {
            bytes.push(4)?;
            put_long(bytes, *at)?;
            put_long(bytes, fields.len())?;
            for field in fields.as_slice() {
                match field {
                    Some(value) => {
                        bytes.push(1)?;
                        put_value(bytes, value)?;
                    }
                    None => bytes.push(0)?,
                }
            }
            Ok(())
        }
        Value::Component(component) => {
            bytes.push(5)?;
            component.put(bytes)?;
            Ok(())
        }
        Value::Default(activation) => {
            bytes.push(6)?;
            put_number(bytes, *activation)?;
            Ok(())
        }
        Value::Null => {
            bytes.push(7)?;
            Ok(())
        }
        Value::Omit => {
            bytes.push(8)?;
            Ok(())
        }
    }
}

#[tactic(auto, unfolding(crate::specs::Reading::read_enumerated))]
fn take_enumerated(reader: &mut ByteReader<'_>) -> Value
    ensures value { result ≡ (read_enumerated reader.old).0 }
    ensures rest { reader.new ≡ (read_enumerated reader.old).1 }
{
    let at = take_long(reader);
    let name = take_long(reader);
    Value::Enumerated(at, name)
}

/// A field that may have no value, in a record that nests at most this deep.
#[cycle(value)]
#[tactic(auto, unfolding(crate::specs::Reading::read_field))]
fn take_field(
    alloc: Global,
    reader: &mut ByteReader<'_>,
    depth: usize,
) -> Result<Option<Value>, AllocError>
    ensures value { IfOk result (λ field. field ≡ (read_field (read_value_within depth) reader.old).0) }
    ensures rest { OnOk result (reader.new ≡ (read_field (read_value_within depth) reader.old).1) }
{
    if reader.byte() == 0 {
        return Ok(None);
    }
    Ok(Some(take_value(alloc, reader, depth)?))
}

#[cycle(value)]
#[tactic(auto, unfolding(crate::specs::Reading::read_record, crate::specs::Reading::read_list))]
fn take_record(
    alloc: Global,
    reader: &mut ByteReader<'_>,
    depth: usize,
) -> Result<Value, AllocError>
    ensures value { IfOk result (λ thing. thing ≡ (read_record (read_value_within depth) reader.old).0) }
    ensures rest { OnOk result (reader.new ≡ (read_record (read_value_within depth) reader.old).1) }
{
    let at = take_long(reader);
    let count = take_long(reader);
    let mut fields = Vec::with_capacity(alloc, count.min(reader.left()))?;
    for _turn in 0..count {
        fields.push(take_field(alloc, reader, depth)?)?;
    }
    Ok(Value::Record(at, Seq::from_vec(fields)))
}

/// A value whose records nest less deep than this.
#[cycle(value)]
#[tactic(auto, unfolding(crate::specs::Reading::read_value_within))]
fn take_value(alloc: Global, reader: &mut ByteReader<'_>, depth: usize) -> Result<Value, AllocError>
    ensures value { IfOk result (λ thing. thing ≡ (read_value_within depth reader.old).0) }
    ensures rest { OnOk result (reader.new ≡ (read_value_within depth reader.old).1) }
{
    if depth == 0 {
        return Ok(Value::Omit);
    }
    let tag = reader.byte();
    if tag > 8 {
        return Ok(Value::Integer(integer_of(usize::from(tag) - 9)));
    }
    match tag {
        0 => Ok(Value::Integer(take_integer(reader))),
        1 => Ok(Value::Boolean(false)),
        2 => Ok(Value::Boolean(true)),
        3 => Ok(take_enumerated(reader)),
        4 => Ok(take_record(alloc, reader, depth - 1)?),
        5 => Ok(Value::Component(ComponentId::take(alloc, reader)?)),
        6 => Ok(Value::Default(take_number(reader))),
        7 => Ok(Value::Null),
        _ => Ok(Value::Omit),
    }
}

impl Spelled for Value {
    ghost use Rattle.config_packed.specs.Reading.{read_value};
    ghost use Rattle.config_packed.specs.Spelling.{spell_value};

    ghost spell = { spell_value };

    ghost read = { read_value };

    fn put(&self, bytes: &mut Vec<u8>) -> Result<(), AllocError> {
        put_value(bytes, self)
    }

    #[tactic(auto, unfolding(crate::specs::Reading::read_value))]
    fn take(alloc: Global, reader: &mut ByteReader<'_>) -> Result<Value, AllocError> {
        take_value(alloc, reader, reader.left())
    }
}
