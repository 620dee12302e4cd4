//! Numbers as bytes.
ghost use Rattle.std.specs.Prelude.{◌≡◌, ◌<◌, ◌≤◌, ◌&&◌, ◌∷◌, ◌++◌, OnOk, nat_lt};
ghost use Rattle.config_packed.specs.Reading.{number_from, read_eight, read_four, read_long, read_long_pair, read_number, read_pair, read_short};
ghost use Rattle.config_packed.specs.Spelling.{eight, four, spell_long, spell_long_pair, spell_number, spell_pair, two};

use crate::byte_reader::ByteReader;
use std::alloc::AllocError;

/// No number takes more bytes.
pub const LONG_ROOM: usize = 9;

/// No two numbers take more bytes, of which one has 32 bits.
pub const PAIR_ROOM: usize = 15;

// ---- spelling

/// A number in four bytes, the lowest one first.
fn put_four(bytes: &mut Vec<u8>, number: u32) -> Result<(), AllocError>
    ensures { OnOk result (bytes.new.items ≡ bytes.old.items ++ four number) }
{
    let second = number / 256;
    let third = second / 256;
    let fourth = third / 256;
    bytes.push((number % 256) as u8)?;
    bytes.push((second % 256) as u8)?;
    bytes.push((third % 256) as u8)?;
    bytes.push(fourth as u8)?;
    Ok(())
}

fn put_eight(bytes: &mut Vec<u8>, number: usize) -> Result<(), AllocError>
    ensures { OnOk result (bytes.new.items ≡ bytes.old.items ++ eight number) }
{
    put_four(bytes, (number % 4294967296) as u32)?;
    put_four(bytes, (number / 4294967296) as u32)?;
    Ok(())
}

/// A number in two bytes.
fn put_two(bytes: &mut Vec<u8>, number: usize) -> Result<(), AllocError>
    requires { number < 16128 }
    ensures { OnOk result (bytes.new.items ≡ bytes.old.items ++ two number) }
{
    bytes.push((192 + number / 256) as u8)?;
    bytes.push((number % 256) as u8)?;
    Ok(())
}

/// A number that takes more than one byte.
#[inline(never)]
#[tactic(auto, using(crate::proofs::Numbers::number_of_two), unfolding(crate::specs::Spelling::spell_number))]
fn put_wide_number(bytes: &mut Vec<u8>, number: u32) -> Result<(), AllocError>
    requires { 192 ≤ number }
    ensures { OnOk result (bytes.new.items ≡ bytes.old.items ++ spell_number number) }
{
    if number < 16128 {
        return put_two(bytes, number as usize);
    }
    bytes.push(255)?;
    put_four(bytes, number)
}

#[inline(always)]
#[tactic(auto, using(crate::proofs::Numbers::number_of_one), unfolding(crate::specs::Spelling::spell_number))]
pub fn put_number(bytes: &mut Vec<u8>, number: u32) -> Result<(), AllocError>
    ensures { OnOk result (bytes.new.items ≡ bytes.old.items ++ spell_number number) }
{
    if number < 192 {
        bytes.push(number as u8)?;
        return Ok(());
    }
    put_wide_number(bytes, number)
}

/// A number that takes more than one byte.
#[inline(never)]
#[tactic(auto, using(crate::proofs::Numbers::number_of_two), unfolding(crate::specs::Spelling::spell_long))]
fn put_wide_long(bytes: &mut Vec<u8>, number: usize) -> Result<(), AllocError>
    requires { 192 ≤ number }
    ensures { OnOk result (bytes.new.items ≡ bytes.old.items ++ spell_long number) }
{
    if number < 16128 {
        return put_two(bytes, number);
    }
    bytes.push(255)?;
    put_eight(bytes, number)
}

#[inline(always)]
#[tactic(auto, using(crate::proofs::Numbers::number_of_one), unfolding(crate::specs::Spelling::spell_long))]
pub fn put_long(bytes: &mut Vec<u8>, number: usize) -> Result<(), AllocError>
    ensures { OnOk result (bytes.new.items ≡ bytes.old.items ++ spell_long number) }
{
    if number < 192 {
        bytes.push(number as u8)?;
        return Ok(());
    }
    put_wide_long(bytes, number)
}

// ---- two numbers

/// Whether two numbers take one byte together.
#[inline(always)]
fn are_small(first: usize, second: usize) -> bool
    ensures { result ≡ (nat_lt first 15 && nat_lt second 16) }
{
    first < 15 && second < 16
}

#[inline(never)]
fn put_wide_pair(bytes: &mut Vec<u8>, first: usize, second: u32) -> Result<(), AllocError>
    ensures { OnOk result (bytes.new.items ≡ bytes.old.items ++ 255 ∷ (spell_long first ++ spell_number second)) }
{
    bytes.push(255)?;
    put_long(bytes, first)?;
    put_number(bytes, second)
}

#[inline(always)]
#[tactic(auto, using(crate::proofs::Numbers::both_small, crate::proofs::Numbers::both_wide), unfolding(crate::specs::Spelling::spell_pair))]
pub fn put_pair(bytes: &mut Vec<u8>, first: usize, second: u32) -> Result<(), AllocError>
    ensures { OnOk result (bytes.new.items ≡ bytes.old.items ++ spell_pair first second) }
{
    if are_small(first, second as usize) {
        bytes.push((16 * first + second as usize) as u8)?;
        return Ok(());
    }
    put_wide_pair(bytes, first, second)
}

#[inline(never)]
fn put_wide_long_pair(bytes: &mut Vec<u8>, first: usize, second: usize) -> Result<(), AllocError>
    ensures { OnOk result (bytes.new.items ≡ bytes.old.items ++ 255 ∷ (spell_long first ++ spell_long second)) }
{
    bytes.push(255)?;
    put_long(bytes, first)?;
    put_long(bytes, second)
}

#[inline(always)]
#[tactic(auto, using(crate::proofs::Numbers::both_small, crate::proofs::Numbers::both_wide), unfolding(crate::specs::Spelling::spell_long_pair))]
pub fn put_long_pair(bytes: &mut Vec<u8>, first: usize, second: usize) -> Result<(), AllocError>
    ensures { OnOk result (bytes.new.items ≡ bytes.old.items ++ spell_long_pair first second) }
{
    if are_small(first, second) {
        bytes.push((16 * first + second) as u8)?;
        return Ok(());
    }
    put_wide_long_pair(bytes, first, second)
}

// ---- reading

#[tactic(auto, unfolding(crate::specs::Reading::read_four))]
fn take_four(reader: &mut ByteReader<'_>) -> u32
    ensures value { result ≡ (read_four reader.old).0 }
    ensures rest { reader.new ≡ (read_four reader.old).1 }
{
    let first = u32::from(reader.byte());
    let second = u32::from(reader.byte());
    let third = u32::from(reader.byte());
    let fourth = u32::from(reader.byte());
    first + 256 * (second + 256 * (third + 256 * fourth))
}

#[tactic(auto, unfolding(crate::specs::Reading::read_eight))]
fn take_eight(reader: &mut ByteReader<'_>) -> usize
    ensures value { result ≡ (read_eight reader.old).0 }
    ensures rest { reader.new ≡ (read_eight reader.old).1 }
{
    let low = take_four(reader) as usize;
    let high = take_four(reader) as usize;
    low + 4294967296 * high
}

/// A number of two bytes, of which this is the first.
#[tactic(auto, unfolding(crate::specs::Reading::read_short))]
fn take_two(reader: &mut ByteReader<'_>, first: u8) -> u32
    requires { 192 ≤ first }
    ensures value { result ≡ (read_short first reader.old).0 }
    ensures rest { reader.new ≡ (read_short first reader.old).1 }
{
    256 * (u32::from(first) - 192) + u32::from(reader.byte())
}

/// A number that takes more than one byte, of which this is the first.
#[inline(never)]
fn take_wide_number(reader: &mut ByteReader<'_>, first: u8) -> u32
    requires { 192 ≤ first }
    ensures value { result ≡ (number_from read_four first reader.old).0 }
    ensures rest { reader.new ≡ (number_from read_four first reader.old).1 }
{
    if first < 255 {
        take_two(reader, first)
    } else {
        take_four(reader)
    }
}

#[inline(always)]
#[tactic(auto, using(crate::proofs::Numbers::one_is_number), unfolding(crate::specs::Reading::read_number))]
pub fn take_number(reader: &mut ByteReader<'_>) -> u32
    ensures value { result ≡ (read_number reader.old).0 }
    ensures rest { reader.new ≡ (read_number reader.old).1 }
{
    let first = reader.byte();
    if first < 192 {
        return u32::from(first);
    }
    take_wide_number(reader, first)
}

/// A number that takes more than one byte, of which this is the first.
#[inline(never)]
fn take_wide_long(reader: &mut ByteReader<'_>, first: u8) -> usize
    requires { 192 ≤ first }
    ensures value { result ≡ (number_from read_eight first reader.old).0 }
    ensures rest { reader.new ≡ (number_from read_eight first reader.old).1 }
{
    if first < 255 {
        take_two(reader, first) as usize
    } else {
        take_eight(reader)
    }
}

#[inline(always)]
#[tactic(auto, using(crate::proofs::Numbers::one_is_number), unfolding(crate::specs::Reading::read_long))]
pub fn take_long(reader: &mut ByteReader<'_>) -> usize
    ensures value { result ≡ (read_long reader.old).0 }
    ensures rest { reader.new ≡ (read_long reader.old).1 }
{
    let first = reader.byte();
    if first < 192 {
        return usize::from(first);
    }
    take_wide_long(reader, first)
}

#[inline]
#[tactic(auto, unfolding(crate::specs::Reading::read_pair))]
pub fn take_pair(reader: &mut ByteReader<'_>) -> (usize, u32)
    ensures value { result ≡ (read_pair reader.old).0 }
    ensures rest { reader.new ≡ (read_pair reader.old).1 }
{
    let both = reader.byte();
    if both < 240 {
        return (usize::from(both / 16), u32::from(both % 16));
    }
    let first = take_long(reader);
    let second = take_number(reader);
    (first, second)
}

#[inline]
#[tactic(auto, unfolding(crate::specs::Reading::read_long_pair))]
pub fn take_long_pair(reader: &mut ByteReader<'_>) -> (usize, usize)
    ensures value { result ≡ (read_long_pair reader.old).0 }
    ensures rest { reader.new ≡ (read_long_pair reader.old).1 }
{
    let both = reader.byte();
    if both < 240 {
        return (usize::from(both / 16), usize::from(both % 16));
    }
    let first = take_long(reader);
    let second = take_long(reader);
    (first, second)
}
