//! Configurations as bytes in parts that are kept once.
ghost use Rattle.std.specs.Prelude.{◌≡◌, ◌&&◌, IfOk};
ghost use Rattle.config_packed.specs.Packs.{same_bytes, same_bytes_equiv, same_bytes_laws, verdict_in};
ghost use Rattle.config_packed.specs.Pieces.{AreParts};
ghost use Rattle.config_packed.specs.Shares.{AreOf, hash_code, mixed};
ghost use Rattle.config_packed.specs.Spelling.{spell_config, spell_contents};
ghost use Rattle.config_parts.specs.declared.config.Config.{Config};

use crate::byte_reader::ByteReader;
use crate::halves::half;
use crate::packed::Packed;
use crate::parts::take_verdict;
use crate::pieces::{ConfigBytes, take_parts_of_halves};
use crate::whole::{ROOM, put_config, put_contents, put_head, take_config};
use config_parts::{Component, Config, Going};
use search_memory::{Interned, Interner};
use std::alloc::{AllocError, Global};
use std::marker::Model;
use ttcn_syntax::Verdict;

/// How many bytes a test case takes that ended.
const ROOM_OF_VERDICT: usize = 2;

/// A configuration as bytes, in three parts that an interner keeps once. Contracts see the configuration.
pub struct InternedConfig<'p> {
    /// What stands before the bytes of the components. Where the test case has ended, these are all bytes.
    pub(crate) head: &'p Interned,
    /// The bytes of the components in the first half.
    pub(crate) front: &'p Interned,
    /// Those of the other components.
    pub(crate) back: &'p Interned,
}

impl<'p> Model for InternedConfig<'p> {
    ghost use Rattle.std.specs.Coded.{codes};
    ghost use Rattle.std.specs.Prelude.{◌++◌};
    ghost use Rattle.value_types.specs.contracts.value.Value as value;
    ghost use Rattle.config_parts.specs.declared.config.Config.{Config};
    ghost use Rattle.config_packed.specs.Reading.{config_in};
    ghost use Rattle.config_packed.specs.Shares.{AreOf};

    ghost Value = { Config };

    ghost coded = { Prim.hlevel (codes, value.the_row.coded) };

    ghost view = { λ it. config_in (it.head.now ++ (it.front.now ++ it.back.now)) };

    ghost invariant = { λ it. AreOf it.head.now it.front.now it.back.now (config_in (it.head.now ++ (it.front.now ++ it.back.now))) };
}

impl Drop for InternedConfig<'_> {
    fn drop(self) {
        let InternedConfig {
            head: _head,
            front: _front,
            back: _back,
        } = self;
    }
}

/// The bytes of a test case that ended.
fn intern_ended<'p>(
    alloc: Global,
    interner: &'p Interner,
    verdict: Verdict,
) -> Result<InternedConfig<'p>, AllocError>
    ensures { IfOk result (λ interned. interned ≡ Config.Ended verdict) }
{
    let mut bytes = Vec::with_capacity(alloc, ROOM_OF_VERDICT)?;
    put_config(alloc, &mut bytes, &Config::Ended(verdict))?;
    let head = interner.intern(alloc, bytes.as_slice())?;
    bytes.clear();
    let nothing = interner.intern(alloc, bytes.as_slice())?;
    Ok(InternedConfig::of(head, nothing, nothing))
}

/// The bytes of what only each of these components itself sees.
fn intern_components<'p>(
    alloc: Global,
    interner: &'p Interner,
    bytes: &mut Vec<u8>,
    apart: &mut Vec<u8>,
    components: &[Component],
) -> Result<&'p Interned, AllocError>
    ensures { IfOk result (λ interned. interned.now ≡ spell_contents components.now) }
{
    bytes.clear();
    put_contents(bytes, apart, components)?;
    interner.intern(alloc, bytes.as_slice())
}

/// The bytes of a test case that goes on.
fn intern_going<'p>(
    alloc: Global,
    interner: &'p Interner,
    going: &Going,
) -> Result<InternedConfig<'p>, AllocError>
    ensures { IfOk result (λ interned. interned ≡ Config.Going going.now) }
{
    let mut bytes = Vec::with_capacity(alloc, ROOM)?;
    let mut apart = Vec::with_capacity(alloc, ROOM)?;
    put_head(&mut bytes, &mut apart, going)?;
    let head = interner.intern(alloc, bytes.as_slice())?;
    let components = going.components.as_slice();
    let (front, back) = components.split_at(half(components.len()));
    let front = intern_components(alloc, interner, &mut bytes, &mut apart, front)?;
    let back = intern_components(alloc, interner, &mut bytes, &mut apart, back)?;
    Ok(InternedConfig::of(head, front, back))
}

/// Whether all three are true.
fn are_all(one: bool, other: bool, third: bool) -> bool
    ensures { result ≡ (one && (other && third)) }
{
    one && other && third
}

/// What is made of a hash and one more.
fn mixed(code: u64, more: u64) -> u64
    ensures { result ≡ mixed code more }
{
    code.wrapping_mul(31).wrapping_add(more)
}

impl<'p> InternedConfig<'p> {
    /// The bytes of a configuration, which an interner keeps.
    pub fn new(
        alloc: Global,
        interner: &'p Interner,
        config: &Config,
    ) -> Result<InternedConfig<'p>, AllocError>
        ensures { IfOk result (λ interned. interned ≡ config.now) }
    {
        match config {
            Config::Ended(verdict) => intern_ended(alloc, interner, *verdict),
            Config::Going(going) => intern_going(alloc, interner, going),
        }
    }

    /// The configuration, in memory of its own.
    #[tactic(auto, using(crate::proofs::ConfigsBack::config_back))]
    pub fn config(&self, alloc: Global) -> Result<Config, AllocError>
        ensures { IfOk result (λ config. config ≡ self.now) }
    {
        let bytes = self.to_bytes(alloc)?;
        let mut reader = ByteReader::new(bytes.as_slice());
        take_config(alloc, &mut reader)
    }

    /// The configuration of which these are the parts.
    pub(crate) fn of(
        head: &'p Interned,
        front: &'p Interned,
        back: &'p Interned,
    ) -> InternedConfig<'p>
        requires { (config : Config) × AreOf head.now front.now back.now config }
        ensures { (config : Config) → AreOf head.now front.now back.now config → result ≡ config }
    {
        InternedConfig { head, front, back }
    }

    /// All bytes.
    pub fn to_bytes(&self, alloc: Global) -> Result<Vec<u8>, AllocError>
        ensures { IfOk result (λ bytes. bytes.items ≡ spell_config self.now) }
    {
        let head = self.head.as_bytes();
        let front = self.front.as_bytes();
        let back = self.back.as_bytes();
        let room = head
            .len()
            .saturating_add(front.len())
            .saturating_add(back.len());
        let mut bytes = Vec::with_capacity(alloc, room)?;
        bytes.extend_from_slice(head)?;
        bytes.extend_from_slice(front)?;
        bytes.extend_from_slice(back)?;
        Ok(bytes)
    }

    /// The same configuration, in bytes of its own.
    pub fn to_packed(&self, alloc: Global) -> Result<Packed, AllocError>
        ensures { IfOk result (λ packed. packed ≡ self.now) }
    {
        Ok(Packed::from_bytes(self.to_bytes(alloc)?))
    }

    /// The verdict, where the test case has ended.
    pub fn verdict(&self) -> Option<Verdict>
        ensures { result ≡ verdict_in self.now }
    {
        let mut reader = ByteReader::new(self.head.as_bytes());
        if reader.byte() == 0 {
            return Some(take_verdict(&mut reader));
        }
        None
    }

    /// What the bytes are hashed to.
    pub fn hash(&self) -> u64
        ensures { result ≡ hash_code self.now }
    {
        mixed(mixed(self.head.hash(), self.front.hash()), self.back.hash())
    }

    /// The bytes in parts, where the test case goes on.
    pub fn parts(&self, alloc: Global) -> Result<Option<ConfigBytes<'p>>, AllocError>
        ensures { IfOk result (λ parts. AreParts self.now parts) }
    {
        let head = self.head.as_bytes();
        if ByteReader::new(head).byte() == 0 {
            return Ok(None);
        }
        let parts = take_parts_of_halves(alloc, head, self.front.as_bytes(), self.back.as_bytes())?;
        Ok(Some(parts))
    }
}

impl PartialEq for InternedConfig<'_> {
    ghost eq = { same_bytes };

    ghost laws = { same_bytes_laws };

    fn eq(&self, other: &InternedConfig<'_>) -> bool {
        let same_head = self.head == other.head;
        let same_front = self.front == other.front;
        let same_back = self.back == other.back;
        are_all(same_head, same_front, same_back)
    }
}

impl Eq for InternedConfig<'_> {
    ghost laws = { same_bytes_equiv };
}
