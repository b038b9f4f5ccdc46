//! The entries of a level of a tree, one after another.

ghost use Rattle.std.specs.Prelude.{◌≡◌, ◌<◌, List, IfOk, length, map, take};
ghost use Rattle.page_packer.specs.Entries.{Entry, entry_at};
ghost use Rattle.space_builder.specs.calls.Pointing.{pointing, pointer_at, PointInto};

use byteorder::{BigEndian, ByteOrder};
use compact_record::Parts;
use page_source::NoMemory;
use std::alloc::Global;
use std::marker::Model;

/// The entries of a level, in order.
pub(crate) trait Entries {
    /// The entries.
    ghost entries: { Self → List Entry };

    /// How many entries there are.
    fn count(&self) -> usize
        ensures { result ≡ length (entries self.now) };

    /// The parts of entry `k`.
    fn parts(&self, alloc: Global, k: usize) -> Result<Parts, NoMemory>
        requires { k < length (entries self.now) }
        ensures { IfOk result (λ parts. parts ≡ entry_at (entries self.now) k) };
}

/// The entries of the leaves of a tree, whose keys stand in the pointers above them.
pub(crate) trait Leaves: Entries {
    /// The first parts of entry `k`, so many.
    fn key(&self, alloc: Global, k: usize, keys: usize) -> Result<Parts, NoMemory>
        requires { k < length (Self.entries self.now) }
        ensures { IfOk result (λ parts. parts ≡ take keys (entry_at (Self.entries self.now) k)) };
}

/// The pointer to a page: the leaf entry whose key it has, and the number of the page.
#[derive(Clone, Copy, Debug, PartialEq, Eq)]
pub(crate) struct Pointer {
    pub(crate) first: usize,
    pub(crate) page: u32,
}

fn pointer_at(pointers: &[Pointer], k: usize) -> Pointer
    requires { k < length pointers.now }
    ensures { result ≡ pointer_at pointers.now k }
{
    pointers[k]
}

/// The parts of a pointer by the key of one of these leaf entries, so many parts of it.
pub(crate) fn pointer_parts<E: Leaves>(
    alloc: Global,
    leaves: &E,
    keys: usize,
    pointer: Pointer,
) -> Result<Parts, NoMemory>
    requires { pointer.first < length (E.entries leaves.now) }
    ensures { IfOk result (λ parts. parts ≡ pointing keys (E.entries leaves.now) pointer) }
{
    let mut parts = leaves.key(alloc, pointer.first, keys)?;
    let mut number = [0; 4];
    BigEndian::write_u32(&mut number, pointer.page);
    parts.push(&number, false)?;
    Ok(parts)
}

/// The entries of a level above the leaves: the pointers to the pages below it.
pub(crate) struct Pointers<'a, E: Leaves> {
    leaves: &'a E,
    keys: usize,
    pointers: &'a [Pointer],
}

impl<'a, E: Leaves> Model for Pointers<'a, E> {
    ghost use Rattle.std.specs.Prelude.{List, map};
    ghost use Rattle.page_packer.specs.Entries.{Entry};
    ghost use Rattle.space_builder.specs.calls.Pointing.{pointing, PointInto};

    ghost Value = { List Entry };

    ghost view = { λ p. map (pointing p.keys (E.entries p.leaves.now)) p.pointers.now };

    ghost invariant = { λ p. PointInto (E.entries p.leaves.now) p.pointers.now };
}

impl<'a, E: Leaves> Pointers<'a, E> {
    /// Pointers by the keys of these leaf entries, so many parts of each.
    pub(crate) fn new(leaves: &'a E, keys: usize, pointers: &'a [Pointer]) -> Pointers<'a, E>
        requires { PointInto (E.entries leaves.now) pointers.now }
        ensures { result ≡ map (pointing keys (E.entries leaves.now)) pointers.now }
    {
        Pointers {
            leaves,
            keys,
            pointers,
        }
    }
}

impl<'a, E: Leaves> Drop for Pointers<'a, E> {
    fn drop(self) {
        let Pointers {
            leaves: _,
            keys: _,
            pointers: _,
        } = self;
    }
}

impl<'a, E: Leaves> Entries for Pointers<'a, E> {
    ghost entries = { λ list. list };

    fn count(&self) -> usize {
        self.pointers.len()
    }

    fn parts(&self, alloc: Global, k: usize) -> Result<Parts, NoMemory> {
        let pointer = pointer_at(self.pointers, k);
        let parts = pointer_parts(alloc, self.leaves, self.keys, pointer)?;
        Ok(parts)
    }
}
