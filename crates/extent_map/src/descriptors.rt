//! Reads the descriptor pages of a tablespace.

ghost use Rattle.std.specs.Prelude.{◌≡◌, ◌+◌, ◌*◌, ◌/◌, ◌<◌, ◌≤◌, ◌++◌, ◌≢◌};
ghost use Rattle.std.specs.Prelude.{ℕ, List, length, map, min, Err, OnOk, IfOk};
ghost use Rattle.std.specs.List.{range_with_len};
ghost use Rattle.page_source.specs.Pages.{page_of};
ghost use Rattle.page_source.specs.Verdict.{Each};
ghost use Rattle.page_source.specs.Checks.{Answers, Finds};
ghost use Rattle.page_source.specs.Calls.{OfFile, StopsOver};
ghost use Rattle.fil_frame.specs.Frame.{space_of};
ghost use Rattle.space_header.specs.Header.{size_of, limit_of};
ghost use Rattle.extent_map.specs.Extents.{AreExtents, extent_of};
ghost use Rattle.extent_map.specs.Descriptors.{AllDescriptorChecks, DescriptorPageChecks, ExtentCheckOn, extents_on};
ghost use Rattle.extent_map.specs.Head.{HasBounds, HasHeader};

use crate::checks::check_extent;
use crate::extent::read_extent;
use crate::extents::Extents;
use fil_frame::kinds::FIL_PAGE_TYPE_XDES;
use fil_frame::{frame_fault, kind};
use page_source::{Fault, Page, PageSource, Rule, Steps, Stop};
use space_header::{
    DESCRIBED_EXTENTS, DESCRIBED_PAGES, DESCRIPTOR_SIZE, FIRST_DESCRIPTOR, SpaceHeader,
};
use std::alloc::Global;
use std::sync::ledger::Ledger;

/// Reads the descriptors of all extents below the free limit by the rules 8 to 13 (fsp0fsp). Each
/// descriptor page is fetched once. `Broken` names the first broken rule and the descriptor page where
/// it is broken; `Source` comes where a fetch failed, and `Memory` where memory ran out.
pub fn read_extents<S: PageSource, L: Ledger>(
    alloc: Global,
    source: &mut S,
    header: &SpaceHeader,
    steps: &mut Steps<L>,
) -> Result<Extents, Stop>
    requires bounds { HasBounds header.now }
    requires told { OfFile S.PageSource source.old (λ file. HasHeader file header.now) }
    ensures exact { OfFile S.PageSource source.old (λ file. Answers result (AllDescriptorChecks file)) }
    ensures read { IfOk result (λ extents. OfFile S.PageSource source.old (λ file. AreExtents file extents)) }
    ensures count { IfOk result (λ extents. length extents ≡ header.now.limit / 64) }
    ensures cost { steps.new ≤ steps.old + (header.now.limit + 16383) / 16384 }
    ensures over { StopsOver S.PageSource source.old source.new steps.old steps.new result }
{
    let mut page = Page::zeroed(alloc)?;
    let mut extents = Extents::with_room(alloc, header.limit / 64)?;
    for k in 0..header.limit.div_ceil(DESCRIBED_PAGES) {
        source.fetch(DESCRIBED_PAGES * k, &mut page, steps)?;
        if k > 0 {
            check_descriptor_page(&page, DESCRIBED_PAGES * k, header.space)?;
        }
        read_page(&mut extents, &page, k, header)?;
    }
    Ok(extents)
}

/// Checks a descriptor page behind page 0.
fn check_descriptor_page(page: &Page, n: u32, space: u32) -> Result<(), Fault>
    ensures { (file : List ℕ) → page.now ≡ page_of file n → space_of (page_of file 0) ≡ space
        → Finds result (DescriptorPageChecks file n) }
{
    if frame_fault(page, n, space) {
        return Err(Rule::XdesFrame.at(n));
    }
    if kind(page) != FIL_PAGE_TYPE_XDES {
        return Err(Rule::XdesType.at(n));
    }
    Ok(())
}

/// Reads the extents of descriptor page `k`, those of the pages before it are there.
fn read_page(extents: &mut Extents, page: &Page, k: u32, header: &SpaceHeader) -> Result<(), Stop>
    requires bounds { HasBounds header.now }
    requires below { 16384 * k < header.now.limit }
    requires before { length extents.old ≡ 256 * k }
    ensures exact { (file : List ℕ) → page.now ≡ page_of file (16384 * k) → size_of file ≡ header.now.size
        → limit_of file ≡ header.now.limit → Answers result (Each (extents_on file k) (ExtentCheckOn file k)) }
    ensures read { OnOk result ((file : List ℕ) → page.now ≡ page_of file (16384 * k) → limit_of file ≡ header.now.limit
        → extents.new ≡ extents.old ++ map (extent_of file) (range_with_len (256 * k) (extents_on file k))) }
    ensures count { OnOk result (length extents.new ≡ min (256 * k + 256) (header.now.limit / 64)) }
    ensures source { result ≢ Err Stop.Source }
{
    let first = DESCRIBED_EXTENTS * k;
    let count = DESCRIBED_EXTENTS.min(header.limit / 64 - first);
    for i in 0..count {
        let extent = read_extent(page, (FIRST_DESCRIPTOR + DESCRIPTOR_SIZE * i) as usize);
        check_extent(&extent, first + i, header.size, DESCRIBED_PAGES * k)?;
        extents.push(extent)?;
    }
    Ok(())
}
