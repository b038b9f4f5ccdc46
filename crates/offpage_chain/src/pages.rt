//! The pages that a chain may go on at.

ghost use Rattle.std.specs.Prelude.{◌≡◌, ◌+◌, ◌<◌, ◌≤◌, ◌↔◌, ℕ, List, IsTrue, true, false, length, OnOk};
ghost use Rattle.page_source.specs.Pages.{page_of, page_count};
ghost use Rattle.page_source.specs.Checks.{Halts};
ghost use Rattle.page_source.specs.Calls.{OfFile, HaltsOver};
ghost use Rattle.fil_frame.specs.Frame.{space_of};
ghost use Rattle.extent_map.specs.Head.{HasHeader};
ghost use Rattle.space_audit.specs.Space.{IsAuditOf};
ghost use Rattle.space_audit.specs.Marks.{is_set};
ghost use Rattle.offpage_chain.specs.Chain.{RefersHere};
ghost use Rattle.offpage_chain.specs.ChainChecks.{IsChainPlace, IsNewPlace};
ghost use Rattle.offpage_chain.specs.Places.{page_total, AreOf, PlaceIn, CanCheck};

use crate::fetch::fetch_framed;
use crate::layout::PART_HEADER;
use crate::reference::Reference;
use fil_frame::kinds::FIL_PAGE_TYPE_BLOB;
use page_source::{Halt, Page, PageSource, Rule, Steps};
use space_audit::{Marks, Space};
use space_header::SpaceHeader;
use std::sync::ledger::Ledger;

/// The pages that a chain may go on at.
#[derive(Clone, Copy)]
pub enum ChainPages<'a> {
    /// The pages that this segment of an audited space uses.
    Audited { space: &'a Space, segment: u32 },
    /// The pages of a space of which the header alone was checked. The frame and type of each are checked with the
    /// chain.
    Unaudited { header: &'a SpaceHeader },
}

/// The page that is due: the one that leads to it, and how many bytes are left from it on.
#[derive(Clone, Copy)]
pub(crate) struct Due {
    pub(crate) page: u32,
    pub(crate) holder: u32,
    pub(crate) left: u32,
}

/// Whether a chain may go on at a page of an audited space: a new one of its type that the segment uses.
fn is_place(space: &Space, segment: u32, marks: &Marks, n: u32) -> bool
    requires { length marks.now ≡ space.now.size }
    ensures place { (file : List ℕ) → IsAuditOf file space.now
        → IsTrue result ↔ IsChainPlace file segment (is_set marks.now n) n }
    ensures pages { (file : List ℕ) → IsAuditOf file space.now → result ≡ true → n < page_count file }
    ensures within { result ≡ true → n < length marks.now }
    ensures new { result ≡ true → is_set marks.now n ≡ false }
{
    let _size = space.size();
    space.has_page(segment, FIL_PAGE_TYPE_BLOB, n) && !marks.has(n)
}

/// Whether a chain may go on at a page of a space that wasn't audited: a new one below the size.
fn is_new_place(header: &SpaceHeader, marks: &Marks, n: u32) -> bool
    requires { length marks.now ≡ header.now.size }
    ensures place { (file : List ℕ) → HasHeader file header.now
        → IsTrue result ↔ IsNewPlace file (is_set marks.now n) n }
    ensures within { result ≡ true → n < length marks.now }
    ensures new { result ≡ true → is_set marks.now n ≡ false }
{
    n < header.size && !marks.has(n)
}

impl ChainPages<'_> {
    /// How many pages the space has.
    pub fn size(&self) -> u32
        ensures { result ≡ page_total self.now }
    {
        match *self {
            ChainPages::Audited { space, .. } => space.size(),
            ChainPages::Unaudited { header } => header.size,
        }
    }

    /// The id of the space.
    fn space_id(&self) -> u32
        ensures { (file : List ℕ) → AreOf file self.now → result ≡ space_of (page_of file 0) }
    {
        match *self {
            ChainPages::Audited { space, .. } => space.space_id(),
            ChainPages::Unaudited { header } => header.space,
        }
    }

    /// Whether a reference is to a page of the space.
    pub(crate) fn refers_here(&self, reference: &Reference) -> bool
        ensures { (file : List ℕ) → AreOf file self.now → IsTrue result ↔ RefersHere file reference.now }
    {
        reference.space == self.space_id() && reference.offset == PART_HEADER
    }

    /// Fetches the page that is due, where a chain may go on there.
    pub(crate) fn fetch<S: PageSource, L: Ledger>(
        &self,
        source: &mut S,
        due: Due,
        marks: &Marks,
        page: &mut Page,
        steps: &mut Steps<L>,
    ) -> Result<(), Halt>
        requires ready { CanCheck S.PageSource source.old self.now marks.now }
        ensures exact { OfFile S.PageSource source.old (λ file.
            Halts result (PlaceIn file self.now due.holder (is_set marks.now due.page) due.page)) }
        ensures page { OnOk result (OfFile S.PageSource source.old (λ file. page.new ≡ page_of file due.page)) }
        ensures within { OnOk result (due.page < length marks.now) }
        ensures new { OnOk result (is_set marks.now due.page ≡ false) }
        ensures cost { steps.new ≤ steps.old + 1 }
        ensures step { OnOk result (steps.new ≡ steps.old + 1) }
        ensures over { HaltsOver S.PageSource source.old source.new steps.old steps.new result }
    {
        let fault = Rule::ChainPlace.at(due.holder);
        match *self {
            ChainPages::Audited { space, segment } => {
                if !is_place(space, segment, marks, due.page) {
                    return Err(Halt::Broken(fault));
                }
                source.fetch(due.page, page, steps)?;
                Ok(())
            }
            ChainPages::Unaudited { header } => {
                if !is_new_place(header, marks, due.page) {
                    return Err(Halt::Broken(fault));
                }
                fetch_framed(
                    source,
                    header,
                    due.page,
                    fault,
                    FIL_PAGE_TYPE_BLOB,
                    page,
                    steps,
                )
            }
        }
    }
}
