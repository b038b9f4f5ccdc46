//! Which number each page gets, by how many pages each segment has.

ghost use Rattle.std.specs.Prelude.{◌≡◌, ◌<◌, ◌≤◌, ◌*◌, ◌↔◌, IsTrue, length, slice_index};
ghost use Rattle.space_layout.specs.Numbers.{fragments_of, own_of, extents_of, fragments_before, extents_before};
ghost use Rattle.space_layout.specs.Numbers.{used_fragments, fragment_extents, extent_start, extents_needed};
ghost use Rattle.space_layout.specs.Numbers.{fragment_start, fragment_page, segment_page, size_at, IsShape, HaveRoots};

use space_header::layout::EXTENT_PAGES;

/// The fragment pages that a segment has at the most.
pub const SLOTS: u32 = 32;

fn fragments_of(size: u32) -> u32
    ensures { result ≡ fragments_of size }
{
    if size < SLOTS { size } else { SLOTS }
}

/// How many pages of so many are behind the fragment pages.
pub(crate) fn own_of(size: u32) -> u32
    ensures { result ≡ own_of size }
{
    if size < SLOTS { 0 } else { size - SLOTS }
}

/// How many extents the pages behind the fragment pages fill, in a segment of so many pages.
pub(crate) fn extents_of(size: u32) -> u32
    ensures { result ≡ extents_of size }
{
    let own = own_of(size);
    if own % EXTENT_PAGES == 0 {
        own / EXTENT_PAGES
    } else {
        own / EXTENT_PAGES + 1
    }
}

fn fragments_before(sizes: &[u32], s: usize) -> u32
    requires few { length sizes.now ≤ 32 }
    requires within { s ≤ length sizes.now }
    ensures exact { result ≡ fragments_before sizes.now s }
    ensures most { result ≤ 32 * s }
{
    let mut sum = 0;
    for i in 0..s {
        sum += fragments_of(sizes[i]);
    }
    sum
}

fn extents_before(sizes: &[u32], s: usize) -> u32
    requires few { length sizes.now ≤ 32 }
    requires within { s ≤ length sizes.now }
    ensures exact { result ≡ extents_before sizes.now s }
    ensures most { result ≤ 67108864 * s }
{
    let mut sum = 0;
    for i in 0..s {
        sum += extents_of(sizes[i]);
    }
    sum
}

/// The used pages of fragment extents.
pub(crate) fn used_fragments(sizes: &[u32]) -> u32
    requires { length sizes.now ≤ 32 }
    ensures exact { result ≡ used_fragments sizes.now }
    ensures most { result ≤ 1027 }
{
    3 + fragments_before(sizes, sizes.len())
}

pub(crate) fn fragment_extents(sizes: &[u32]) -> u32
    requires { length sizes.now ≤ 32 }
    ensures exact { result ≡ fragment_extents sizes.now }
    ensures most { result ≤ 17 }
{
    (used_fragments(sizes) + EXTENT_PAGES - 1) / EXTENT_PAGES
}

/// The first extent of segment `s`.
pub(crate) fn extent_start(sizes: &[u32], s: usize) -> u32
    requires few { length sizes.now ≤ 32 }
    requires within { s ≤ length sizes.now }
    ensures { result ≡ extent_start sizes.now s }
{
    fragment_extents(sizes) + extents_before(sizes, s)
}

/// How many extents a tablespace needs whose segments have so many pages each.
pub fn extents_needed(sizes: &[u32]) -> u32
    requires { length sizes.now ≤ 32 }
    ensures { result ≡ extents_needed sizes.now }
{
    extent_start(sizes, sizes.len())
}

/// Where the fragment pages of segment `s` behind a root begin.
fn fragment_start(sizes: &[u32], s: usize) -> u32
    requires shape { IsShape sizes.now }
    requires within { s < length sizes.now }
    ensures exact { result ≡ fragment_start sizes.now s }
    ensures most { result ≤ 2048 }
{
    let roots = (sizes.len() + 1) / 2;
    3 + roots as u32 + (fragments_before(sizes, s) - ((s + 1) / 2) as u32)
}

#[tactic(auto, unfolding(crate::specs::Numbers::fragment_page))]
fn fragment_page(sizes: &[u32], s: usize, i: u32) -> u32
    requires shape { IsShape sizes.now }
    requires within { s < length sizes.now }
    requires small { i < 32 }
    ensures { result ≡ fragment_page sizes.now s i }
{
    if s % 2 != 0 {
        fragment_start(sizes, s) + i
    } else if i == 0 {
        3 + (s / 2) as u32
    } else {
        fragment_start(sizes, s) + (i - 1)
    }
}

/// The number of page `i` of segment `s`.
pub fn segment_page(sizes: &[u32], s: usize, i: u32) -> u32
    requires shape { IsShape sizes.now }
    requires within { s < length sizes.now }
    requires inside { i < size_at sizes.now s }
    ensures { result ≡ segment_page sizes.now s i }
{
    if i < SLOTS {
        fragment_page(sizes, s, i)
    } else {
        EXTENT_PAGES * extent_start(sizes, s) + (i - SLOTS)
    }
}

/// Whether these are the numbers of pages of the segments of at most 16 indexes that fit a tablespace of 256 extents.
pub fn is_shape(sizes: &[u32]) -> bool
    ensures { IsTrue result ↔ IsShape sizes.now }
{
    sizes.len() <= 32 && sizes.len() % 2 == 0 && have_roots(sizes) && extents_needed(sizes) <= 256
}

/// Whether each index has a root.
fn have_roots(sizes: &[u32]) -> bool
    ensures { IsTrue result ↔ HaveRoots sizes.now }
{
    for s in 0..sizes.len() {
        if s % 2 == 0 && sizes[s] == 0 {
            return false;
        }
    }
    true
}
