//! The header, the descriptors and the inodes.

ghost use Rattle.std.specs.Prelude.{◌≡◌, ◌+◌, ◌-◌, ◌*◌, ◌^◌, ◌<◌, ◌≤◌, length, map};
ghost use Rattle.std.specs.List.{range_with_len};
ghost use Rattle.space_layout.specs.Numbers.{size_at, IsShape, extents_of, fragment_extents, extent_start};
ghost use Rattle.space_layout.specs.Fields.{full_fragments, open_fragments, full_of, open_of, described};
ghost use Rattle.space_layout.specs.Fields.{fragment_descriptor, own_descriptor, header, slot_of, inode};

use crate::numbers::{
    extent_start, extents_needed, extents_of, fragment_extents, own_of, segment_page,
    used_fragments,
};
use crate::runs::{NO_RUN, Run, base_of, node_of};
use extent_map::Extent;
use extent_map::states::{FREE_FRAG, FSEG, FULL_FRAG};
use inode_segments::Inode;
use inode_segments::layout::MAGIC_NUMBER;
use page_source::FIL_NULL;
use space_header::layout::EXTENT_PAGES;
use space_header::{Address, Base, SpaceHeader};

/// The space id of a built tablespace.
pub const BUILT_SPACE: u32 = 1;

/// The page of inodes.
pub(crate) const INODE_PAGE_NUMBER: u32 = 2;

/// The fragment extents whose pages are all used.
fn full_fragments(sizes: &[u32]) -> Run
    requires { IsShape sizes.now }
    ensures exact { result ≡ full_fragments sizes.now }
    ensures small { result.first + result.count ≤ 256 }
{
    Run {
        first: 0,
        count: used_fragments(sizes) / EXTENT_PAGES,
    }
}

/// The last fragment extent, if some of its pages are free.
fn open_fragments(sizes: &[u32]) -> Run
    requires { IsShape sizes.now }
    ensures exact { result ≡ open_fragments sizes.now }
    ensures small { result.first + result.count ≤ 256 }
{
    let first = used_fragments(sizes) / EXTENT_PAGES;
    Run {
        first,
        count: fragment_extents(sizes) - first,
    }
}

/// The extents of segment `s` whose pages are all used.
fn full_of(sizes: &[u32], s: usize) -> Run
    requires shape { IsShape sizes.now }
    requires within { s < length sizes.now }
    ensures exact { result ≡ full_of sizes.now s }
    ensures small { result.first + result.count ≤ 256 }
{
    Run {
        first: extent_start(sizes, s),
        count: own_of(sizes[s]) / EXTENT_PAGES,
    }
}

/// The last extent of a segment, if some pages of that are free.
fn open_of(sizes: &[u32], s: usize) -> Run
    requires shape { IsShape sizes.now }
    requires within { s < length sizes.now }
    ensures exact { result ≡ open_of sizes.now s }
    ensures small { result.first + result.count ≤ 256 }
{
    let full = own_of(sizes[s]) / EXTENT_PAGES;
    Run {
        first: extent_start(sizes, s) + full,
        count: extents_of(sizes[s]) - full,
    }
}

/// A number whose lowest bits are set, so many of them.
fn first_bits(count: u32) -> u64
    requires { count ≤ 64 }
    ensures { result ≡ 2 ^ count - 1 }
{
    if count == 64 {
        u64::MAX
    } else {
        (1u64 << count) - 1
    }
}

/// The descriptor of a member of a run, of which so many pages are used, the first ones.
#[tactic(auto, unfolding(crate::specs::Fields::described))]
fn described(id: u64, state: u32, run: Run, count: u32, e: u32) -> Extent
    requires small { run.first + run.count ≤ 256 }
    requires low { run.first ≤ e }
    requires high { e < run.first + run.count }
    requires few { count ≤ 64 }
    ensures { result ≡ described id state run count e }
{
    Extent {
        id,
        node: node_of(run, e),
        state,
        used: first_bits(count),
    }
}

/// The descriptor of a fragment extent.
#[tactic(auto, unfolding(crate::specs::Fields::fragment_descriptor))]
pub(crate) fn fragment_descriptor(sizes: &[u32], e: u32) -> Extent
    requires shape { IsShape sizes.now }
    requires below { e < fragment_extents sizes.now }
    ensures { result ≡ fragment_descriptor sizes.now e }
{
    let used = used_fragments(sizes);
    if e < used / EXTENT_PAGES {
        described(0, FULL_FRAG, full_fragments(sizes), EXTENT_PAGES, e)
    } else {
        described(0, FREE_FRAG, open_fragments(sizes), used % EXTENT_PAGES, e)
    }
}

/// The descriptor of extent `k` of segment `s`.
#[tactic(auto, unfolding(crate::specs::Fields::own_descriptor))]
pub(crate) fn own_descriptor(sizes: &[u32], s: usize, k: u32) -> Extent
    requires shape { IsShape sizes.now }
    requires within { s < length sizes.now }
    requires below { k < extents_of (size_at sizes.now s) }
    ensures { result ≡ own_descriptor sizes.now s k }
{
    let own = own_of(sizes[s]);
    let id = s as u64 + 1;
    let full = full_of(sizes, s);
    let open = open_of(sizes, s);
    let e = full.first + k;
    if k < own / EXTENT_PAGES {
        described(id, FSEG, full, EXTENT_PAGES, e)
    } else {
        described(id, FSEG, open, own % EXTENT_PAGES, e)
    }
}

/// The space header.
#[tactic(auto, unfolding(crate::specs::Fields::header))]
pub(crate) fn header(sizes: &[u32], flags: u32) -> SpaceHeader
    requires { IsShape sizes.now }
    ensures { result ≡ header sizes.now flags }
{
    let size = EXTENT_PAGES * extents_needed(sizes);
    let inodes = Address {
        page: INODE_PAGE_NUMBER,
        offset: 38,
    };
    SpaceHeader {
        space: BUILT_SPACE,
        size,
        limit: size,
        flags,
        frag_used: used_fragments(sizes) % EXTENT_PAGES,
        next_segment: sizes.len() as u64 + 1,
        free: base_of(NO_RUN),
        free_frag: base_of(open_fragments(sizes)),
        full_frag: base_of(full_fragments(sizes)),
        inodes_full: base_of(NO_RUN),
        inodes_free: Base {
            length: 1,
            first: inodes,
            last: inodes,
        },
    }
}

/// Slot `i` of segment `s`.
fn slot_of(sizes: &[u32], s: usize, i: u32) -> u32
    requires shape { IsShape sizes.now }
    requires within { s < length sizes.now }
    ensures { result ≡ slot_of sizes.now s i }
{
    if i < sizes[s] {
        segment_page(sizes, s, i)
    } else {
        FIL_NULL
    }
}

fn slots(sizes: &[u32], s: usize) -> [u32; 32]
    requires shape { IsShape sizes.now }
    requires within { s < length sizes.now }
    ensures { result ≡ map (slot_of sizes.now s) (range_with_len 0 32) }
{
    let mut slots = [FIL_NULL; 32];
    for i in 0..32usize {
        slots[i] = slot_of(sizes, s, i as u32);
    }
    slots
}

/// The inode of segment `s`.
#[tactic(auto, unfolding(crate::specs::Fields::inode))]
pub(crate) fn inode(sizes: &[u32], s: usize) -> Inode
    requires shape { IsShape sizes.now }
    requires within { s < length sizes.now }
    ensures { result ≡ inode sizes.now s }
{
    Inode {
        id: s as u64 + 1,
        not_full_used: own_of(sizes[s]) % EXTENT_PAGES,
        free: base_of(NO_RUN),
        not_full: base_of(open_of(sizes, s)),
        full: base_of(full_of(sizes, s)),
        magic: MAGIC_NUMBER,
        slots: slots(sizes, s),
    }
}
