//! The fetch of a page that no check has seen.

ghost use Rattle.std.specs.Prelude.{◌≡◌, ◌+◌, ◌<◌, ◌≤◌, OnOk};
ghost use Rattle.page_source.specs.Pages.{page_of};
ghost use Rattle.page_source.specs.Checks.{Halts};
ghost use Rattle.page_source.specs.Calls.{OfFile, HaltsOver};
ghost use Rattle.extent_map.specs.Head.{HasHeader};
ghost use Rattle.offpage_chain.specs.Fetched.{FramedChecks};

use fil_frame::{frame_fault, kind};
use page_source::{Fault, Halt, Page, PageSource, Rule, Steps};
use space_header::SpaceHeader;
use std::sync::ledger::Ledger;

/// Fetches a page below the size of the space, and checks its frame and its type. Another type is this fault.
pub fn fetch_framed<S: PageSource, L: Ledger>(
    source: &mut S,
    header: &SpaceHeader,
    n: u32,
    fault: Fault,
    wanted: u16,
    page: &mut Page,
    steps: &mut Steps<L>,
) -> Result<(), Halt>
    requires told { OfFile S.PageSource source.old (λ file. HasHeader file header.now) }
    requires below { n < header.now.size }
    ensures exact { OfFile S.PageSource source.old (λ file. Halts result (FramedChecks file fault wanted n)) }
    ensures page { OnOk result (OfFile S.PageSource source.old (λ file. page.new ≡ page_of file n)) }
    ensures step { steps.new ≡ steps.old + 1 }
    ensures over { HaltsOver S.PageSource source.old source.new steps.old steps.new result }
{
    source.fetch(n, page, steps)?;
    if frame_fault(page, n, header.space) {
        return Err(Halt::Broken(Rule::Frame.at(n)));
    }
    if kind(page) != wanted {
        return Err(Halt::Broken(fault));
    }
    Ok(())
}
