ghost use Rattle.std.specs.Prelude.{◌≡◌, IfOk, IfSome, IsTrue, bytes_eq};
ghost use Rattle.std.specs.Cmp.{partial_equiv_from_equiv};
ghost use Rattle.std.specs.Cmp.Lexicographic.{on_texts_equal};
ghost use Rattle.search_memory.specs.Hashes.{hash_of};

use crate::cells::{cell_at, empty_cells, hash_of};
use once_cell::race::OnceBox;
use std::alloc::{AllocError, Global};
use std::marker::Model;
use std::sync::atomic::AtomicUsize;
use std::sync::atomic::Ordering::Relaxed;

/// How many tables there may be.
const TABLES: usize = 11;

/// How many places each table has.
const PLACES: [usize; TABLES] = [
    1 << 8,
    1 << 10,
    1 << 12,
    1 << 14,
    1 << 16,
    1 << 18,
    1 << 20,
    1 << 22,
    1 << 24,
    1 << 26,
    1 << 28,
];

/// Bytes that an interner keeps. Contracts see the bytes.
#[derive(Drop)]
pub struct Interned {
    bytes: Vec<u8>,
    hash: u64,
}

impl Model for Interned {
    ghost use Rattle.std.specs.Prelude.{◌≡◌, List, ℕ};
    ghost use Rattle.search_memory.specs.Hashes.{hash_of};

    ghost Value = { List ℕ };

    ghost view = { λ interned. interned.bytes.items };

    ghost invariant = { λ interned. interned.hash ≡ hash_of interned.bytes.items };
}

impl Interned {
    fn new(alloc: Global, bytes: &[u8], hash: u64) -> Result<Box<Interned>, AllocError>
        requires { hash ≡ hash_of bytes.now }
    {
        let bytes = Vec::from_slice(alloc, bytes)?;
        Ok(Box::new(alloc, Interned { bytes, hash })?)
    }

    /// Whether these are the bytes, which are hashed to this.
    fn has(&self, hash: u64, bytes: &[u8]) -> bool
        ensures { IsTrue result → self.now ≡ bytes.now }
    {
        self.hash == hash && self.as_bytes() == bytes
    }

    pub fn as_bytes(&self) -> &[u8]
        ensures { result.now ≡ self.now }
    {
        self.bytes.as_slice()
    }

    /// What the bytes are hashed to.
    pub fn hash(&self) -> u64
        ensures { result ≡ hash_of self.now }
    {
        self.hash
    }
}

impl PartialEq for Interned {
    ghost eq = { bytes_eq };

    ghost laws = { partial_equiv_from_equiv (on_texts_equal (λ bytes. bytes)) };

    fn eq(&self, other: &Interned) -> bool {
        self.bytes == other.bytes
    }
}

/// Places for bytes, and how many of them are taken. Threads that take one at once may both count it.
#[derive(Drop)]
struct Table {
    cells: Vec<OnceBox<Interned>>,
    taken: AtomicUsize,
}

impl Table {
    /// So many places, none of which is taken.
    fn new(alloc: Global, places: usize) -> Result<Box<Table>, AllocError> {
        let cells = Box::into_inner(empty_cells(alloc, places)?);
        let taken = AtomicUsize::new(0);
        Ok(Box::new(alloc, Table { cells, taken })?)
    }

    /// Whether more bytes belong into another table, since those that are here would be found too slowly.
    fn is_full(&self) -> bool {
        self.taken.load(Relaxed) >= self.cells.len() / 8 * 5
    }

    /// These bytes, where they are here. Bytes stand in the first place from theirs on that was free.
    fn find(&self, hash: u64, bytes: &[u8]) -> Option<&Interned>
        ensures { IfSome result (λ interned. interned.now ≡ bytes.now) }
    {
        for before in 0..self.cells.len() {
            let interned = cell_at(&self.cells, hash, before)?.get()?;
            if interned.has(hash, bytes) {
                return Some(interned);
            }
        }
        None
    }

    /// These bytes, which are put in where they are not here, unless no place is free.
    fn put(&self, alloc: Global, hash: u64, bytes: &[u8]) -> Result<Option<&Interned>, AllocError>
        requires { hash ≡ hash_of bytes.now }
        ensures { IfOk result (λ found. IfSome found (λ interned. interned.now ≡ bytes.now)) }
    {
        for before in 0..self.cells.len() {
            let Some(cell) = cell_at(&self.cells, hash, before) else {
                return Ok(None);
            };
            // another thread may write it first
            let interned = match cell.get() {
                Some(interned) => interned,
                None => {
                    let _before = self.taken.fetch_add(1, Relaxed);
                    cell.get_or_try_init(|| Interned::new(alloc, bytes, hash))?
                }
            };
            if interned.has(hash, bytes) {
                return Ok(Some(interned));
            }
        }
        Ok(None)
    }
}

/// Keeps bytes for several threads, without a lock: each place is written once. What is kept stays.
///
/// Where a table is full, a larger one takes what comes. Bytes are looked for in the newest table and in the one before, so
/// that those which stand in an older one alone are kept once more.
///
/// Contracts see nothing of what is kept.
#[derive(Drop)]
pub struct Interner {
    tables: [OnceBox<Table>; TABLES],
    /// The number of the newest table.
    newest: AtomicUsize,
}

impl Model for Interner {
    ghost Value = { Unit {0} };

    ghost view = { λ _. tt };
}

impl Interner {
    /// Keeps nothing. Takes no memory until something is kept.
    pub fn new(alloc: Global) -> Interner {
        Interner {
            tables: [
                OnceBox::new(alloc),
                OnceBox::new(alloc),
                OnceBox::new(alloc),
                OnceBox::new(alloc),
                OnceBox::new(alloc),
                OnceBox::new(alloc),
                OnceBox::new(alloc),
                OnceBox::new(alloc),
                OnceBox::new(alloc),
                OnceBox::new(alloc),
                OnceBox::new(alloc),
            ],
            newest: AtomicUsize::new(0),
        }
    }

    /// The table with this number, if it is there.
    fn table(&self, number: usize) -> Option<&Table> {
        self.tables.get(number)?.get()
    }

    /// These bytes, which are kept from the first call on.
    pub fn intern(&self, alloc: Global, bytes: &[u8]) -> Result<&Interned, AllocError>
        ensures { IfOk result (λ interned. interned.now ≡ bytes.now) }
    {
        let hash = hash_of(bytes);
        let newest = self.newest.load(Relaxed);
        for number in [newest, newest.wrapping_sub(1)] {
            if let Some(table) = self.table(number) {
                if let Some(interned) = table.find(hash, bytes) {
                    return Ok(interned);
                }
            }
        }
        self.put(alloc, newest, hash, bytes)
    }

    /// These bytes, which are put into the table with this number, or into one behind it.
    fn put(
        &self,
        alloc: Global,
        first: usize,
        hash: u64,
        bytes: &[u8],
    ) -> Result<&Interned, AllocError>
        requires { hash ≡ hash_of bytes.now }
        ensures { IfOk result (λ interned. interned.now ≡ bytes.now) }
    {
        for number in first..TABLES {
            let places = PLACES[number];
            let table = self.tables[number].get_or_try_init(|| Table::new(alloc, places))?;
            if !table.is_full() {
                if number > first {
                    self.newest.store(number, Relaxed);
                }
                if let Some(interned) = table.put(alloc, hash, bytes)? {
                    return Ok(interned);
                }
            }
        }
        Err(AllocError)
    }
}
