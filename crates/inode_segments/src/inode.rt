//! The inode of a segment (fseg_inode_t, fsp0fsp). It takes 192 bytes.

ghost use Rattle.std.specs.Prelude.{◌≡◌, ◌+◌, ◌≤◌};
ghost use Rattle.page_source.specs.Pages.{with_bytes};
ghost use Rattle.inode_segments.specs.Inodes.{inode_at, slots_at};
ghost use Rattle.inode_segments.specs.Writing.{inode_bytes, slots_bytes};

use page_source::{PAGE_SIZE, Page, read_be, write_be};
use space_header::{Base, read_base, write_base};

// The places of the fields, with their names in fsp0fsp.h.

/// FSEG_NOT_FULL_N_USED, 4 bytes.
const NOT_FULL_USED: usize = 8;

/// FSEG_FREE, a list base.
const FREE_LIST: usize = 12;

/// FSEG_NOT_FULL, a list base.
const NOT_FULL_LIST: usize = 28;

/// FSEG_FULL, a list base.
const FULL_LIST: usize = 44;

/// FSEG_MAGIC_N, 4 bytes.
const MAGIC: usize = 60;

/// FSEG_FRAG_ARR, 4 bytes for each slot.
const SLOTS: usize = 64;

/// FSEG_FRAG_ARR_N_SLOTS, the slots of an inode.
const SLOT_COUNT: usize = 32;

/// The inode of a segment (fseg_inode_t). Each field has its name in fsp0fsp.h and its first byte
/// within the 192 of an inode.
#[derive(Clone, Copy, Debug, PartialEq, Eq)]
pub struct Inode {
    /// FSEG_ID, 8 bytes at 0: the segment's id, 0 where the inode isn't used.
    pub id: u64,
    /// FSEG_NOT_FULL_N_USED, 4 bytes at 8: the number of used pages of the extents on NOT_FULL.
    pub not_full_used: u32,
    /// FSEG_FREE, a base at 12: extents without a used page.
    pub free: Base,
    /// FSEG_NOT_FULL, a base at 28: extents with some used pages.
    pub not_full: Base,
    /// FSEG_FULL, a base at 44: extents whose pages are all used.
    pub full: Base,
    /// FSEG_MAGIC_N, 4 bytes at 60: 97937874 where the inode is sound.
    pub magic: u32,
    /// FSEG_FRAG_ARR, 4 bytes each from 64 on: the numbers of the segment's fragment pages, FIL_NULL in
    /// an empty slot.
    pub slots: [u32; 32],
}

/// The inode that begins at byte `at` of the page.
#[tactic(auto, unfolding(crate::specs::Inodes::inode_at))]
pub fn read_inode(page: &Page, at: usize) -> Inode
    requires { at + 192 ≤ 16384 }
    ensures { result ≡ inode_at page.now at }
{
    Inode {
        id: read_be::<8>(page, at),
        not_full_used: read_be::<4>(page, at + NOT_FULL_USED) as u32,
        free: read_base(page, at + FREE_LIST),
        not_full: read_base(page, at + NOT_FULL_LIST),
        full: read_base(page, at + FULL_LIST),
        magic: read_be::<4>(page, at + MAGIC) as u32,
        slots: read_slots(page, at + SLOTS),
    }
}

fn read_slots(page: &Page, at: usize) -> [u32; 32]
    requires { at + 128 ≤ 16384 }
    ensures { result ≡ slots_at page.now at }
{
    let mut slots = [0; SLOT_COUNT];
    for i in 0..SLOT_COUNT {
        slots[i] = read_be::<4>(page, at + 4 * i) as u32;
    }
    slots
}

/// Makes this the inode that begins at byte `at` of the page. The other bytes stay.
pub fn write_inode(page: &mut Page, at: usize, inode: &Inode)
    requires { at + 192 ≤ 16384 }
    ensures exact { page.new ≡ with_bytes page.old at (inode_bytes inode.now) }
    ensures read { inode_at page.new at ≡ inode.now }
{
    prove!(page.bytes().len() == PAGE_SIZE);
    write_be::<8>(page, at, inode.id);
    write_be::<4>(page, at + NOT_FULL_USED, u64::from(inode.not_full_used));
    write_base(page, at + FREE_LIST, &inode.free);
    write_base(page, at + NOT_FULL_LIST, &inode.not_full);
    write_base(page, at + FULL_LIST, &inode.full);
    write_be::<4>(page, at + MAGIC, u64::from(inode.magic));
    write_slots(page, at + SLOTS, &inode.slots);
}

fn write_slots(page: &mut Page, at: usize, slots: &[u32; 32])
    requires { at + 128 ≤ 16384 }
    ensures exact { page.new ≡ with_bytes page.old at (slots_bytes slots.now) }
    ensures read { slots_at page.new at ≡ slots.now }
{
    prove!(page.bytes().len() == PAGE_SIZE);
    for i in 0..SLOT_COUNT {
        write_be::<4>(page, at + 4 * i, u64::from(slots[i]));
    }
}
