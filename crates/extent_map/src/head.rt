//! The first page of a tablespace: its frame and its space header (fsp0fsp).

ghost use Rattle.std.specs.Prelude.{◌≡◌, ◌+◌, ◌-◌, ◌^◌, ◌≤◌, ◌↔◌, ℕ, min, IsTrue, IfOk};
ghost use Rattle.page_source.specs.Pages.{num};
ghost use Rattle.page_source.specs.Checks.{Halts, Finds};
ghost use Rattle.page_source.specs.Calls.{OfFile, HaltsOver};
ghost use Rattle.fil_frame.specs.Frame.{space_of};
ghost use Rattle.space_header.specs.Header.{header_of};
ghost use Rattle.extent_map.specs.Head.{HeadChecks, HeaderChecks, IsSize, IsLimit, HasBounds, HasHeader};
ghost use Rattle.extent_map.specs.Head.{without_data_directory};

use fil_frame::kinds::FIL_PAGE_TYPE_FSP_HDR;
use fil_frame::layout::PAGE_SPACE;
use fil_frame::{frame_fault, kind};
use page_source::{Fault, Halt, Page, PageSource, Rule, Steps, read_be};
use space_header::SpaceHeader;
use space_header::layout::{FREE_LIMIT, SPACE_FLAGS, SPACE_ID, SPACE_SIZE};
use std::sync::ledger::Ledger;

// The fields of the space header, 4 bytes each.

/// The flag for a table with a DATA DIRECTORY clause, bit 10, which may stand besides.
const DATA_DIRECTORY: u32 = 1024;

/// Reads page 0 by the rules of the head, 1 to 7, and leaves it in `page`. The space has these flags
/// (FSP_SPACE_FLAGS), its own taken without the bit for DATA DIRECTORY. `Broken` names the first broken
/// rule, at page 0; `Source` comes where the size or page 0 couldn't be read.
pub fn check_head<S: PageSource, L: Ledger>(
    source: &mut S,
    flags: u32,
    page: &mut Page,
    steps: &mut Steps<L>,
) -> Result<SpaceHeader, Halt>
    ensures exact { OfFile S.PageSource source.old (λ file. Halts result (HeadChecks file flags)) }
    ensures header { IfOk result (λ header. OfFile S.PageSource source.old (λ file. HasHeader file header)) }
    ensures bounds { IfOk result HasBounds }
    ensures cost { steps.new ≤ steps.old + 1 }
    ensures over { HaltsOver S.PageSource source.old source.new steps.old steps.new result }
{
    let pages = source.pages()?;
    if pages < 4 {
        return Err(Halt::Broken(Rule::FileSize.at(0)));
    }
    source.fetch(0, page, steps)?;
    Ok(check_header(page, pages, flags)?)
}

/// The rules of page 0 of a file of so many pages, 4,294,967,295 standing for more too.
#[tactic(auto, unfolding(crate::specs::Head::HeaderChecks))]
fn check_header(page: &Page, pages: u32, flags: u32) -> Result<SpaceHeader, Fault>
    ensures exact { (count : ℕ) → pages ≡ min count (2 ^ 32 - 1) → Finds result (HeaderChecks page.now count flags) }
    ensures header { IfOk result (λ header. header ≡ header_of page.now) }
    ensures space { IfOk result (λ header. space_of page.now ≡ header.space) }
    ensures within { IfOk result (λ header. header.size ≤ pages) }
    ensures bounds { IfOk result HasBounds }
{
    let space = number(page, PAGE_SPACE);
    let size = number(page, SPACE_SIZE);
    if frame_fault(page, 0, space) {
        return Err(Rule::HeadFrame.at(0));
    }
    if kind(page) != FIL_PAGE_TYPE_FSP_HDR {
        return Err(Rule::HeadType.at(0));
    }
    if space != number(page, SPACE_ID) {
        return Err(Rule::HeadSpace.at(0));
    }
    if without_data_directory(number(page, SPACE_FLAGS)) != flags {
        return Err(Rule::HeadFlags.at(0));
    }
    if !is_size(size, pages) {
        return Err(Rule::HeadSize.at(0));
    }
    if !is_limit(size, number(page, FREE_LIMIT)) {
        return Err(Rule::HeadLimit.at(0));
    }
    Ok(SpaceHeader::read(page))
}

fn number(page: &Page, at: usize) -> u32
    requires { at + 4 ≤ 16384 }
    ensures { result ≡ num page.now at 4 }
{
    read_be::<4>(page, at) as u32
}

fn without_data_directory(flags: u32) -> u32
    ensures { result ≡ without_data_directory flags }
{
    flags - DATA_DIRECTORY * (flags / DATA_DIRECTORY % 2)
}

fn is_size(size: u32, pages: u32) -> bool
    ensures exact { (count : ℕ) → pages ≡ min count (2 ^ 32 - 1) → (IsTrue result ↔ IsSize size count) }
    ensures within { IsTrue result → IsSize size pages }
{
    (4..=4_194_304).contains(&size) && size <= pages
}

fn is_limit(size: u32, limit: u32) -> bool
    ensures { IsTrue result ↔ IsLimit size limit }
{
    limit % 64 == 0
        && if size < 64 {
            limit == 64
        } else {
            (64..=size).contains(&limit)
        }
}
