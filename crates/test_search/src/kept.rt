//! What is kept in a memory is found again, by threads that share it too.
use search_memory::{Interner, Keyed, Memory};
use std::alloc::{AllocError, Global};
use std::test::Fail;
use std::thread::join;

/// A number with a key of one byte.
#[derive(Drop)]
struct Noted {
    key: Vec<u8>,
    number: usize,
}

impl Keyed for Noted {
    ghost key = { λ noted. noted.key.items };

    fn key(&self) -> &[u8] {
        self.key.as_slice()
    }
}

/// Keeps a number.
fn keep(alloc: Global, memory: &Memory<Noted>, byte: u8, number: usize) -> Result<(), AllocError> {
    let key = Vec::from_slice(alloc, &[byte])?;
    memory.keep(alloc, Noted { key, number })
}

/// The number that is found with a key of one byte.
fn found(memory: &Memory<Noted>, byte: u8) -> Option<usize> {
    let noted = memory.find(&[byte])?;
    Some(noted.number)
}

/// How many of the 100 first keys are found, each with its own number.
fn count_found(memory: &Memory<Noted>) -> usize {
    let mut count: usize = 0;
    for byte in 0..100 {
        if found(memory, byte) == Some(byte as usize) {
            count = count.saturating_add(1);
        }
    }
    count
}

/// Keeps the 100 first keys, and counts those that are found.
fn keep_all(alloc: Global, memory: &Memory<Noted>) -> Result<usize, AllocError> {
    for byte in 0..100 {
        keep(alloc, memory, byte, byte as usize)?;
    }
    Ok(count_found(memory))
}

/// A memory that was of use, so its trial is over.
fn of_use(alloc: Global, places: usize) -> Result<Memory<Noted>, AllocError> {
    let memory = Memory::new(alloc, 1, places);
    memory.note_use(alloc)?;
    Ok(memory)
}

#[test]
fn all_are_found(rt: HostRuntime) -> Result<(), Fail> {
    let alloc = rt.alloc();
    let memory = of_use(alloc, 4_096)?;
    assert_eq!(rt; count_found(&memory), 0);
    assert_eq!(rt; keep_all(alloc, &memory)?, 100);
    assert!(rt; found(&memory, 100).is_none());
    Ok(())
}

#[test]
fn the_first_stays(rt: HostRuntime) -> Result<(), Fail> {
    let alloc = rt.alloc();
    let memory = of_use(alloc, 16)?;
    keep(alloc, &memory, 7, 1)?;
    keep(alloc, &memory, 7, 2)?;
    assert_eq!(rt; found(&memory, 7), Some(1));
    Ok(())
}

#[test]
fn few_places(rt: HostRuntime) -> Result<(), Fail> {
    let alloc = rt.alloc();
    for places in [0, 4] {
        let memory = of_use(alloc, places)?;
        assert_eq!(rt; keep_all(alloc, &memory)?, places);
        assert!(rt; !memory.has_given_up());
    }
    Ok(())
}

#[test]
fn a_trial_ends(rt: HostRuntime) -> Result<(), Fail> {
    let alloc = rt.alloc();
    let memory = Memory::new(alloc, 4, 4_096);
    for byte in 0..4 {
        keep(alloc, &memory, byte, byte as usize)?;
    }
    assert_eq!(rt; count_found(&memory), 4);
    assert!(rt; !memory.has_given_up());
    keep(alloc, &memory, 4, 4)?;
    assert!(rt; memory.has_given_up());
    assert_eq!(rt; count_found(&memory), 4);
    Ok(())
}

#[test]
fn a_trial_ends_with_use(rt: HostRuntime) -> Result<(), Fail> {
    let alloc = rt.alloc();
    let memory = Memory::new(alloc, 4, 4_096);
    keep(alloc, &memory, 0, 0)?;
    memory.note_use(alloc)?;
    memory.note_use(alloc)?;
    assert_eq!(rt; keep_all(alloc, &memory)?, 100);
    assert!(rt; !memory.has_given_up());
    Ok(())
}

#[test]
fn two_threads(rt: HostRuntime) -> Result<(), Fail> {
    let alloc = rt.alloc();
    let memory = of_use(alloc, 4_096)?;
    let (there, here) = join(
        &rt,
        || keep_all(alloc, &memory),
        || keep_all(alloc, &memory),
    );
    assert!(rt; there == Ok(100) && here == Ok(100));
    assert_eq!(rt; count_found(&memory), 100);
    Ok(())
}

/// Whether the bytes of so many numbers, and of none, are what an interner gives for them, one time after the other.
fn are_interned(alloc: Global, interner: &Interner, count: u32) -> Result<bool, AllocError> {
    for number in 0..count {
        let bytes = number.to_le_bytes();
        for length in 0..bytes.len() {
            let wanted = &bytes[..length];
            if interner.intern(alloc, wanted)?.as_bytes() != wanted {
                return Ok(false);
            }
        }
    }
    Ok(true)
}

/// Whether equal bytes are equal as an interner gives them, and others are not.
fn tells_apart(alloc: Global, interner: &Interner) -> Result<bool, AllocError> {
    let one = interner.intern(alloc, b"one")?;
    let again = interner.intern(alloc, b"one")?;
    let other = interner.intern(alloc, b"two")?;
    Ok(*one == *again && one.hash() == again.hash() && *one != *other)
}

#[test]
fn bytes_are_interned(rt: HostRuntime) -> Result<(), Fail> {
    let alloc = rt.alloc();
    let interner = Interner::new(alloc);
    // more than the first table has places for
    for _time in 0..2 {
        assert!(rt; are_interned(alloc, &interner, 3_000)?);
    }
    assert!(rt; tells_apart(alloc, &interner)?);
    Ok(())
}

#[test]
fn two_threads_intern(rt: HostRuntime) {
    let alloc = rt.alloc();
    let interner = Interner::new(alloc);
    let (there, here) = join(
        &rt,
        || are_interned(alloc, &interner, 1_000),
        || are_interned(alloc, &interner, 1_000),
    );
    assert!(rt; there == Ok(true) && here == Ok(true));
}
