//! Configurations that are kept as bytes.
ghost use Rattle.std.specs.Prelude.{◌≡◌, IfOk};
ghost use Rattle.config_packed.specs.Packs.{fed, fed_alike, same_bytes, same_bytes_equiv, same_bytes_laws, verdict_in};
ghost use Rattle.config_packed.specs.Pieces.{AreParts};
ghost use Rattle.config_packed.specs.Spelling.{spell_config};
ghost use Rattle.config_parts.specs.declared.config.Config.{Config};

use crate::byte_reader::ByteReader;
use crate::parts::take_verdict;
use crate::pieces::{ConfigBytes, take_parts};
use crate::whole::{ROOM, put_config, take_config};
use config_parts::Config;
use std::alloc::{AllocError, Global};
use std::hash::{Hash, Hasher};
use std::marker::Model;
use ttcn_syntax::Verdict;

/// A configuration as bytes. Contracts see the configuration.
pub struct Packed {
    bytes: Vec<u8>,
}

impl Model for Packed {
    ghost use Rattle.std.specs.Coded.{codes};
    ghost use Rattle.std.specs.Prelude.{◌≡◌};
    ghost use Rattle.value_types.specs.contracts.value.Value as value;
    ghost use Rattle.config_parts.specs.declared.config.Config.{Config};
    ghost use Rattle.config_packed.specs.Reading.{config_in};
    ghost use Rattle.config_packed.specs.Spelling.{spell_config};

    ghost Value = { Config };

    ghost coded = { Prim.hlevel (codes, value.the_row.coded) };

    ghost view = { λ packed. config_in packed.bytes.items };

    ghost invariant = { λ packed. packed.bytes.items ≡ spell_config (config_in packed.bytes.items) };
}

impl Drop for Packed {
    fn drop(self) {
        let Packed { bytes: _bytes } = self;
    }
}

/// The bytes of a configuration, in no more memory than they need.
pub fn pack(alloc: Global, config: &Config) -> Result<Packed, AllocError>
    ensures { IfOk result (λ packed. packed ≡ config.now) }
{
    let mut bytes = Vec::with_capacity(alloc, ROOM)?;
    put_config(alloc, &mut bytes, config)?;
    let bytes = Vec::from_slice(alloc, bytes.as_slice())?;
    Ok(Packed::from_bytes(bytes))
}

/// The configuration that was packed, in memory of its own.
pub fn unpack(alloc: Global, packed: &Packed) -> Result<Config, AllocError>
    ensures { IfOk result (λ config. config ≡ packed.now) }
{
    let mut reader = ByteReader::new(packed.bytes.as_slice());
    take_config(alloc, &mut reader)
}

impl Packed {
    /// The configuration that these bytes spell.
    #[tactic(auto, using(crate::proofs::ConfigsBack::config_back))]
    pub(crate) fn from_bytes(bytes: Vec<u8>) -> Packed
        requires { (config : Config) × (bytes.items ≡ spell_config config) }
        ensures { (config : Config) → bytes.items ≡ spell_config config → result ≡ config }
    {
        Packed { bytes }
    }

    pub fn as_bytes(&self) -> &[u8]
        ensures { result.now ≡ spell_config self.now }
    {
        self.bytes.as_slice()
    }

    /// The verdict, where the test case has ended.
    #[tactic(auto, unfolding(crate::specs::Reading::read_config))]
    pub fn verdict(&self) -> Option<Verdict>
        ensures { result ≡ verdict_in self.now }
    {
        let mut reader = ByteReader::new(self.bytes.as_slice());
        if reader.byte() == 0 {
            return Some(take_verdict(&mut reader));
        }
        None
    }

    /// The bytes in parts, where the test case goes on.
    pub fn parts(&self, alloc: Global) -> Result<Option<ConfigBytes<'_>>, AllocError>
        ensures { IfOk result (λ parts. AreParts self.now parts) }
    {
        let bytes = self.bytes.as_slice();
        if ByteReader::new(bytes).byte() == 0 {
            return Ok(None);
        }
        Ok(Some(take_parts(alloc, bytes)?))
    }
}

impl PartialEq for Packed {
    ghost eq = { same_bytes };

    ghost laws = { same_bytes_laws };

    fn eq(&self, other: &Packed) -> bool {
        self.bytes == other.bytes
    }
}

impl Eq for Packed {
    ghost laws = { same_bytes_equiv };
}

impl Hash for Packed {
    ghost hash_input = { fed };

    ghost respects_eq = { fed_alike };

    fn hash<H: Hasher>(&self, state: &mut H) {
        state.write(self.bytes.as_slice());
    }
}
