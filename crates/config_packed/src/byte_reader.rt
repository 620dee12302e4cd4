//! Bytes that are read one behind the other.
ghost use Rattle.std.specs.Prelude.{◌≡◌, drop, length, take};
ghost use Rattle.config_packed.specs.internal.Cuts.{since};
ghost use Rattle.config_packed.specs.Reading.{read_byte};

use std::marker::Model;

/// The bytes that are left.
#[derive(Drop)]
pub struct ByteReader<'a> {
    bytes: &'a [u8],
}

impl<'a> Model for ByteReader<'a> {
    ghost use Rattle.std.specs.Prelude.{List, ℕ};

    ghost Value = { List ℕ };

    ghost view = { λ reader. reader.bytes.now };
}

impl<'a> ByteReader<'a> {
    pub fn new(bytes: &'a [u8]) -> ByteReader<'a>
        ensures { result ≡ bytes.now }
    {
        ByteReader { bytes }
    }

    /// How many bytes are left.
    pub fn left(&self) -> usize
        ensures { result ≡ length self.now }
    {
        self.bytes.len()
    }

    /// The next byte, or 0 behind the last one.
    #[inline(always)]
    #[tactic(auto, unfolding(crate::specs::Reading::read_byte))]
    pub fn byte(&mut self) -> u8
        ensures value { result ≡ (read_byte self.old).0 }
        ensures rest { self.new ≡ (read_byte self.old).1 }
    {
        match self.bytes {
            [] => 0,
            [byte, rest @ ..] => {
                let byte = *byte;
                self.bytes = rest;
                byte
            }
        }
    }

    /// The bytes that are left.
    pub fn rest(&self) -> &'a [u8]
        ensures { result.now ≡ self.now }
    {
        self.bytes
    }

    /// The next bytes: this many, or all that are left.
    pub fn bytes(&mut self, count: usize) -> &'a [u8]
        ensures value { result.now ≡ take count self.old }
        ensures rest { self.new ≡ drop count self.old }
    {
        let count = count.min(self.bytes.len());
        let (bytes, rest) = self.bytes.split_at(count);
        self.bytes = rest;
        bytes
    }

    /// Of these bytes those before the ones that are left.
    pub fn since(&self, bytes: &'a [u8]) -> &'a [u8]
        ensures { result.now ≡ since bytes.now self.now }
    {
        &bytes[..bytes.len().saturating_sub(self.bytes.len())]
    }
}
