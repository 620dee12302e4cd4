//! Whole configurations as bytes: what all components see, and then what only each of them sees.
ghost use Rattle.std.specs.Prelude.{◌≡◌, ◌++◌, IfOk, OnOk, map};
ghost use Rattle.config_packed.specs.Reading.{read_component, read_config, read_contents, read_going};
ghost use Rattle.config_packed.specs.Spelling.{going_code, name_of, spell_config, spell_content, spell_contents, spell_head, spell_list, spell_name, spell_outline};

use crate::byte_reader::ByteReader;
use crate::number::{put_long, take_long};
use crate::parts::{Name, put_name, put_own, put_verdict, take_own, take_verdict};
use crate::sized::put_sized;
use crate::spelled::Spelled;
use config_parts::{Component, Config, Going, Links, Shared};
use std::alloc::{AllocError, Global};
use ttcn_syntax::Seq;

/// How many bytes are asked for before something is spelled: few need more.
pub const ROOM: usize = 512;

// ---- spelling

/// The names and states of components.
fn put_names(bytes: &mut Vec<u8>, components: &[Component]) -> Result<(), AllocError>
    ensures { OnOk result (bytes.new.items ≡ bytes.old.items ++ spell_list spell_name (map name_of components.now)) }
{
    put_long(bytes, components.len())?;
    for component in components {
        put_name(bytes, &component.itself, component.state)?;
    }
    Ok(())
}

/// What all components see.
#[tactic(auto, unfolding(crate::specs::Spelling::spell_outline))]
fn put_outline(bytes: &mut Vec<u8>, going: &Going) -> Result<(), AllocError>
    ensures { OnOk result (bytes.new.items ≡ bytes.old.items ++ spell_outline going.now) }
{
    put_verdict(bytes, going.forgotten)?;
    going.links.put(bytes)?;
    put_names(bytes, going.components.as_slice())
}

/// The byte before a test case that goes on.
fn going_code(links: &Links) -> u8
    ensures { result ≡ going_code links.now }
{
    if 0 < links.mappings.len() { 2 } else { 1 }
}

/// What stands before the contents of components. What all of them see is spelled apart first, so that its length is known.
#[tactic(auto, unfolding(crate::specs::Spelling::spell_head))]
pub fn put_head(bytes: &mut Vec<u8>, apart: &mut Vec<u8>, going: &Going) -> Result<(), AllocError>
    ensures { OnOk result (bytes.new.items ≡ bytes.old.items ++ spell_head going.now) }
{
    bytes.push(going_code(&going.links))?;
    put_long(bytes, going.components.len())?;
    apart.clear();
    put_outline(apart, going)?;
    put_sized(bytes, apart.as_slice())
}

/// What only a component itself sees. Its parts are spelled apart first, so that their lengths are known.
#[tactic(auto, unfolding(crate::specs::Spelling::spell_content))]
fn put_content(
    bytes: &mut Vec<u8>,
    apart: &mut Vec<u8>,
    component: &Component,
) -> Result<(), AllocError>
    ensures { OnOk result (bytes.new.items ≡ bytes.old.items ++ spell_content component.now) }
{
    apart.clear();
    put_own(apart, component.verdict, &component.own)?;
    put_sized(bytes, apart.as_slice())?;
    apart.clear();
    component.queues.put(apart)?;
    put_sized(bytes, apart.as_slice())
}

/// What only each component itself sees.
pub fn put_contents(
    bytes: &mut Vec<u8>,
    apart: &mut Vec<u8>,
    components: &[Component],
) -> Result<(), AllocError>
    ensures { OnOk result (bytes.new.items ≡ bytes.old.items ++ spell_contents components.now) }
{
    for component in components {
        put_content(bytes, apart, component)?;
    }
    Ok(())
}

#[tactic(auto, unfolding(crate::specs::Spelling::spell_config))]
pub fn put_config(alloc: Global, bytes: &mut Vec<u8>, config: &Config) -> Result<(), AllocError>
    ensures { OnOk result (bytes.new.items ≡ bytes.old.items ++ spell_config config.now) }
{
    match config {
        Config::Ended(verdict) => {
            bytes.push(0)?;
            put_verdict(bytes, *verdict)
        }
        Config::Going(going) => {
            let mut apart = Vec::with_capacity(alloc, ROOM)?;
            put_head(bytes, &mut apart, going)?;
            put_contents(bytes, &mut apart, going.components.as_slice())
        }
    }
}

// ---- reading

/// A component of a name, from what only it sees.
#[tactic(auto, unfolding(crate::specs::Reading::read_component))]
fn take_component(
    alloc: Global,
    reader: &mut ByteReader<'_>,
    name: Name,
) -> Result<Component, AllocError>
    ensures value { IfOk result (λ component. component ≡ (read_component name reader.old).0) }
    ensures rest { OnOk result (reader.new ≡ (read_component name reader.old).1) }
{
    let (itself, state) = name;
    let _size = take_long(reader);
    let (verdict, own) = take_own(alloc, reader)?;
    let own = Shared::new(alloc, own)?;
    let _room = take_long(reader);
    let queues = Shared::new(alloc, Seq::take(alloc, reader)?)?;
    Ok(Component {
        itself,
        own,
        state,
        verdict,
        queues,
    })
}

/// Components of these names.
fn take_contents(
    alloc: Global,
    reader: &mut ByteReader<'_>,
    names: Seq<Name>,
) -> Result<Seq<Component>, AllocError>
    ensures value { IfOk result (λ components. components ≡ (read_contents names reader.old).0) }
    ensures rest { OnOk result (reader.new ≡ (read_contents names reader.old).1) }
{
    let mut components = Vec::with_capacity(alloc, names.len())?;
    for name in names.into_vec() {
        components.push(take_component(alloc, reader, name)?)?;
    }
    Ok(Seq::from_vec(components))
}

/// A test case that goes on, behind the first byte.
#[tactic(auto, unfolding(crate::specs::Reading::read_going))]
fn take_going(alloc: Global, reader: &mut ByteReader<'_>) -> Result<Going, AllocError>
    ensures value { IfOk result (λ going. going ≡ (read_going reader.old).0) }
    ensures rest { OnOk result (reader.new ≡ (read_going reader.old).1) }
{
    let _count = take_long(reader);
    let _size = take_long(reader);
    let forgotten = take_verdict(reader);
    let links = Shared::new(alloc, Links::take(alloc, reader)?)?;
    let names = Seq::take(alloc, reader)?;
    let components = take_contents(alloc, reader, names)?;
    Ok(Going {
        components,
        links,
        forgotten,
    })
}

#[tactic(auto, unfolding(crate::specs::Reading::read_config))]
pub fn take_config(alloc: Global, reader: &mut ByteReader<'_>) -> Result<Config, AllocError>
    ensures value { IfOk result (λ config. config ≡ (read_config reader.old).0) }
    ensures rest { OnOk result (reader.new ≡ (read_config reader.old).1) }
{
    if reader.byte() == 0 {
        return Ok(Config::Ended(take_verdict(reader)));
    }
    Ok(Config::Going(take_going(alloc, reader)?))
}
