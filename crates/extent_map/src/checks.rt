//! The checks of one extent: its state, its used pages, and the system pages in it.

ghost use Rattle.std.specs.Prelude.{◌≡◌, ◌+◌, ◌*◌, ◌/◌, ◌%◌, ◌<◌, ◌≤◌, ◌↔◌, ℕ, List, IsTrue, All};
ghost use Rattle.page_source.specs.Checks.{Finds};
ghost use Rattle.space_header.specs.Header.{size_of};
ghost use Rattle.extent_map.specs.Extents.{extent_state, used_in, used_count, IsDescribed};
ghost use Rattle.extent_map.specs.Descriptors.{ExtentChecks, FitsUse, HasSystemPages};

use crate::extent::Extent;
use crate::states::{FREE, FREE_FRAG, FSEG, FULL_FRAG};
use page_source::{Fault, Rule};
use space_header::DESCRIBED_EXTENTS;

/// Checks extent `e` of a tablespace of `size` pages, whose descriptor stands on page `holder`.
#[tactic(auto, unfolding(crate::specs::Descriptors::ExtentChecks))]
pub fn check_extent(extent: &Extent, e: u32, size: u32, holder: u32) -> Result<(), Fault>
    requires few { e < 65536 }
    requires held { holder ≡ 16384 * (e / 256) }
    ensures { (file : List ℕ) → IsDescribed file e extent.now → size_of file ≡ size
        → Finds result (ExtentChecks file e) }
{
    if !(FREE..=FSEG).contains(&extent.state) {
        return Err(Rule::ExtentState.at(holder));
    }
    if !fits_use(extent, e) {
        return Err(Rule::ExtentUse.at(holder));
    }
    if !is_within(extent, e, size) {
        return Err(Rule::ExtentPastEnd.at(holder));
    }
    if e % DESCRIBED_EXTENTS == 0 && !has_system_pages(extent, e) {
        return Err(Rule::ExtentSystem.at(holder));
    }
    Ok(())
}

/// Whether the number of used pages goes with the state.
fn fits_use(extent: &Extent, e: u32) -> bool
    ensures { (file : List ℕ) → IsDescribed file e extent.now
        → IsTrue result ↔ FitsUse (extent_state file e) (used_count file e) }
{
    let used = extent.used;
    match extent.state {
        FREE => used == 0,
        FREE_FRAG => used != 0 && used != u64::MAX,
        FULL_FRAG => used == u64::MAX,
        _ => true,
    }
}

/// Whether the used pages of an extent are below the size.
fn is_within(extent: &Extent, e: u32, size: u32) -> bool
    requires { e < 65536 }
    ensures { (file : List ℕ) → IsDescribed file e extent.now → IsTrue result ↔ All (λ n. n < size) (used_in file e) }
{
    let first = 64 * e;
    if size >= first + 64 {
        return true;
    }
    if size <= first {
        return extent.used == 0;
    }
    extent.used < 1 << (size - first)
}

/// Whether an extent is a fragment extent whose first two pages are used.
fn has_system_pages(extent: &Extent, e: u32) -> bool
    ensures { (file : List ℕ) → IsDescribed file e extent.now → IsTrue result ↔ HasSystemPages file e }
{
    (extent.state == FREE_FRAG || extent.state == FULL_FRAG) && extent.used % 4 == 3
}
