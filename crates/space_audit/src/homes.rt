//! On which list each extent must stand.

ghost use Rattle.std.specs.Prelude.{◌≡◌, ◌<◌, ◌≤◌, ◌+◌, ◌*◌, All, IfOk, List, ℕ, length, map, slice_index, sum_by};
ghost use Rattle.extent_map.specs.Extents.{AreExtents};
ghost use Rattle.inode_segments.specs.Inodes.{segments, segment_id};
ghost use Rattle.space_audit.specs.Lists.{at_home, home_by, home_part, homes_of, uses_of, used_at_home};

use crate::numbering::Numbering;
use extent_map::Extents;
use extent_map::states::FSEG;
use page_source::NoMemory;
use space_header::layout::EXTENT_PAGES;
use std::alloc::Global;
use std::marker::Model;

/// The number of the list on which each extent must stand and how many of its pages are used; by
/// list, how many extents it must have and how many of their pages are used.
#[derive(Debug, Drop)]
pub(crate) struct Homes {
    numbers: Vec<u32>,
    uses: Vec<u32>,
    counts: Vec<u32>,
    sums: Vec<u32>,
}

impl Model for Homes {
    ghost use Rattle.std.specs.Prelude.{◌≡◌, ◌<◌, ◌≤◌, List, ℕ, length, slice_index, sum_by};
    ghost use Rattle.space_audit.specs.Lists.{HomesView, at_home};

    ghost Value = { HomesView };

    ghost view = { λ h. record { numbers = h.numbers.items; uses = h.uses.items; lists = length h.counts.items } };

    ghost invariant = { λ h. (length h.numbers.items ≤ 65536)
        × (length h.sums.items ≡ length h.counts.items)
        × ((home : ℕ) → home < length h.counts.items
        → slice_index h.counts.items home ≡ length (at_home h.numbers.items home))
        × ((home : ℕ) → home < length h.sums.items
        → slice_index h.sums.items home
        ≡ sum_by (λ e. slice_index h.uses.items e) (at_home h.numbers.items home)) };
}

impl Homes {
    /// The homes with these numbers, below so many, of extents with so many used pages.
    pub(crate) fn of(
        alloc: Global,
        numbers: Vec<u32>,
        uses: Vec<u32>,
        lists: u32,
    ) -> Result<Homes, NoMemory>
        requires few { length numbers.items ≤ 65536 }
        requires same { length uses.items ≡ length numbers.items }
        requires small { All (λ count. count ≤ 64) uses.items }
        ensures { IfOk result (λ homes. homes ≡ record { numbers = numbers.items; uses = uses.items; lists = lists }) }
    {
        let counts = count_homes(alloc, &numbers, lists)?;
        let sums = sum_homes(alloc, &numbers, &uses, lists)?;
        Ok(Homes {
            numbers,
            uses,
            counts,
            sums,
        })
    }

    /// The number of each extent's home.
    pub(crate) fn numbers(&self) -> &[u32]
        ensures same { result.now ≡ self.now.numbers }
        ensures few { length result.now ≤ 65536 }
    {
        &self.numbers
    }

    /// The number of lists.
    pub(crate) fn lists(&self) -> u32
        requires { self.now.lists < 4294967296 }
        ensures { result ≡ self.now.lists }
    {
        self.counts.len() as u32
    }

    /// How many extents have a home.
    pub(crate) fn count(&self, home: u32) -> u32
        requires { home < self.now.lists }
        ensures { result ≡ length (at_home self.now.numbers home) }
    {
        self.counts[home as usize]
    }

    /// How many pages of the extents with a home are used.
    pub(crate) fn used(&self, home: u32) -> u32
        requires { home < self.now.lists }
        ensures { result ≡ used_at_home self.now home }
    {
        self.sums[home as usize]
    }
}

/// How many pages of each extent are used.
pub(crate) fn count_uses(alloc: Global, extents: &Extents) -> Result<Vec<u32>, NoMemory>
    ensures count { IfOk result (λ uses. length uses.items ≡ length extents.now) }
    ensures few { IfOk result (λ uses. length uses.items ≤ 65536) }
    ensures small { IfOk result (λ uses. All (λ count. count ≤ 64) uses.items) }
    ensures told { IfOk result (λ uses. (file : List ℕ) → AreExtents file extents.now → uses.items ≡ uses_of file) }
{
    let mut uses = Vec::with_capacity(alloc, extents.count() as usize)?;
    for e in 0..extents.count() {
        uses.push(extents.used_count(e))?;
    }
    Ok(uses)
}

/// The number of each extent's home, where the segments have these ids in order.
pub(crate) fn number_homes(
    alloc: Global,
    extents: &Extents,
    ids: &Numbering,
    uses: &[u32],
) -> Result<Vec<u32>, NoMemory>
    requires ids { length ids.now ≤ 356515840 }
    requires same { length uses.now ≡ length extents.now }
    ensures count { IfOk result (λ homes. length homes.items ≡ length extents.now) }
    ensures told { IfOk result (λ homes. (file : List ℕ) → AreExtents file extents.now → uses.now ≡ uses_of file
        → ids.now ≡ map (segment_id file) (segments file) → homes.items ≡ homes_of file) }
{
    let mut homes = Vec::with_capacity(alloc, extents.count() as usize)?;
    for e in 0..extents.count() {
        let extent = extents.extent(e);
        let home = home_by(extent.state, ids.find(extent.id), uses[e as usize]);
        homes.push(home)?;
    }
    Ok(homes)
}

/// The number of the list on which an extent must stand: by its state, the number of the segment
/// with its id (that of all segments where there is none) and how many of its pages are used.
fn home_by(state: u32, segment: u32, used: u32) -> u32
    requires { segment ≤ 356515840 }
    ensures { result ≡ home_by state segment used }
{
    if state != FSEG {
        return state.saturating_sub(1);
    }
    3 + (3 * segment + part_by(used))
}

/// The list of a segment: FREE, NOT_FULL or FULL.
fn part_by(used: u32) -> u32
    ensures { result ≡ home_part used }
{
    match used {
        0 => 0,
        EXTENT_PAGES => 2,
        _ => 1,
    }
}

/// How many extents each home has.
fn count_homes(alloc: Global, homes: &[u32], lists: u32) -> Result<Vec<u32>, NoMemory>
    requires { length homes.now ≤ 65536 }
    ensures count { IfOk result (λ counts. length counts.items ≡ lists) }
    ensures counted { IfOk result (λ counts. (home : ℕ) → home < lists
        → slice_index counts.items home ≡ length (at_home homes.now home)) }
{
    let mut counts = vec![in alloc; 0u32; lists as usize]?;
    for home in homes {
        if *home < lists {
            counts[*home as usize] += 1;
        }
    }
    Ok(counts)
}

/// How many pages of the extents with each home are used.
fn sum_homes(alloc: Global, homes: &[u32], uses: &[u32], lists: u32) -> Result<Vec<u32>, NoMemory>
    requires few { length homes.now ≤ 65536 }
    requires same { length uses.now ≡ length homes.now }
    requires small { All (λ count. count ≤ 64) uses.now }
    ensures count { IfOk result (λ sums. length sums.items ≡ lists) }
    ensures summed { IfOk result (λ sums. (home : ℕ) → home < lists
        → slice_index sums.items home ≡ sum_by (λ e. slice_index uses.now e) (at_home homes.now home)) }
{
    let mut sums = vec![in alloc; 0u32; lists as usize]?;
    for e in 0..homes.len() {
        let home = homes[e];
        if home < lists {
            sums[home as usize] += uses[e];
        }
    }
    Ok(sums)
}
