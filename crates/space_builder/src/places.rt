//! The numbers of the pages of trees.

ghost use Rattle.std.specs.Prelude.{◌≡◌, ◌+◌, ◌*◌, ◌<◌, ◌^◌, length, slice_index};
ghost use Rattle.space_layout.specs.Numbers.{IsShape, size_at, segment_page};
ghost use Rattle.tree_layout.specs.Places.{pages_above, is_leaf_row, segment_for, place_for, FitsSegments};
ghost use Rattle.tree_layout.specs.Places.{tree_number};

use space_layout::laws::numbers_differ;
use space_layout::segment_page;
use tree_layout::laws::{numbers_are_different, pages_fill_places};

/// How many pages the levels above one have, by how many each has, from the leaves up.
pub(crate) fn pages_above(counts: &[u32], l: usize) -> u32
    requires level { l < length counts.now }
    requires small { pages_above counts.now l < 2 ^ 32 }
    ensures { result ≡ pages_above counts.now l }
{
    let mut sum = 0;
    for i in l + 1..counts.len() {
        sum += counts[i];
    }
    sum
}

/// Whether a level is one of leaves below a root.
fn is_leaf_row(counts: &[u32], l: usize) -> bool
    ensures { result ≡ is_leaf_row counts.now l }
{
    l == 0 && counts.len() != 1
}

/// The segment of the pages of a level of index `j`.
fn segment_for(counts: &[u32], j: usize, l: usize) -> usize
    requires { 2 * j + 1 < 2 ^ 32 }
    ensures { result ≡ segment_for counts.now j l }
{
    let leaves = is_leaf_row(counts, l);
    if leaves { 2 * j + 1 } else { 2 * j }
}

/// The place of page `k` of a level in its segment.
fn place_for(counts: &[u32], l: usize, k: u32) -> u32
    requires level { l < length counts.now }
    requires small { pages_above counts.now l + k < 2 ^ 32 }
    ensures { result ≡ place_for counts.now l k }
{
    let leaves = is_leaf_row(counts, l);
    if leaves {
        k
    } else {
        pages_above(counts, l) + k
    }
}

/// The number of page `k` of level `l` of index `j`, whose levels have so many pages each, from the leaves up.
pub(crate) fn tree_number(sizes: &[u32], counts: &[u32], j: usize, l: usize, k: u32) -> u32
    requires shape { IsShape sizes.now }
    requires index { 2 * j + 1 < length sizes.now }
    requires fits { FitsSegments counts.now (size_at sizes.now) j }
    requires level { l < length counts.now }
    requires place { k < slice_index counts.now l }
    ensures { result ≡ tree_number (segment_page sizes.now) counts.now j l k }
{
    numbers_differ();
    numbers_are_different();
    pages_fill_places();
    let segment = segment_for(counts, j, l);
    let place = place_for(counts, l, k);
    segment_page(sizes, segment, place)
}
