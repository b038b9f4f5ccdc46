//! The lists of inode pages.

ghost use Rattle.std.specs.Prelude.{◌≡◌, ◌↔◌, ◌≤◌, ◌<◌, ◌+◌, ◌++◌, false, IsTrue, List, ℕ, length, IfOk, OnOk};
ghost use Rattle.page_source.specs.Pages.{page_of};
ghost use Rattle.page_source.specs.Lists.{AreMarked, flag_in, unmarked};
ghost use Rattle.page_source.specs.Checks.{Answers, Finds};
ghost use Rattle.page_source.specs.Calls.{OfFile, StopsOver};
ghost use Rattle.space_header.specs.Header.{node_at, size_of};
ghost use Rattle.inode_segments.specs.Inodes.{page_node, list_pages};
ghost use Rattle.inode_segments.specs.InodeChecks.{IsAddress, IsFilled, IsStep, InodePageChecks, StepAt};
ghost use Rattle.inode_segments.specs.InodeChecks.{InodeListChecks, InodeListsChecks, inode_list};
ghost use Rattle.inode_segments.specs.Kept.{AreKept, none_kept};
ghost use Rattle.inode_segments.specs.Walk.{DescribesFile, Grew};

use crate::inodes::{INODES, Inodes, used_inodes};
use crate::layout::INODE_PAGE_NODE;
use fil_frame::kinds::FIL_PAGE_INODE;
use fil_frame::{frame_fault, kind};
use page_source::{Fault, Page, PageSource, Rule, Steps, Stop};
use space_header::{Address, Base, SpaceHeader, is_null, read_node};
use std::sync::ledger::Ledger;

/// A step along a list of inode pages.
#[derive(Clone, Copy)]
struct Step {
    /// The address that the step goes to.
    address: Address,
    /// The page that holds the address that the step goes to.
    holder: u32,
    /// The address of the step before.
    before: Option<Address>,
}

/// What the lists of inode pages are checked against.
#[derive(Clone, Copy)]
pub struct Lists<'a> {
    /// The header of the tablespace.
    pub header: &'a SpaceHeader,
    /// For each page whether it is a used page of a fragment extent and no system page.
    pub fragments: &'a [bool],
}

/// Whether the address is this one, or null where there is none.
fn is_address(found: &Address, address: &Option<Address>) -> bool
    ensures { IsTrue result ↔ IsAddress found.now address.now }
{
    match address {
        None => is_null(found),
        Some(address) => found == address,
    }
}

/// Whether so many inodes of a page are used as its list asks for.
fn is_filled(full: bool, count: u32) -> bool
    ensures { IsTrue result ↔ IsFilled full count }
{
    if full {
        count == INODES
    } else {
        count < INODES
    }
}

/// Checks an inode page in hand, and gives the address after it.
#[tactic(auto, unfolding(crate::specs::InodeChecks::InodePageChecks))]
fn check_page(page: &Page, space: u32, full: bool, step: &Step) -> Result<Address, Fault>
    ensures exact { Finds result (InodePageChecks page.now step.now.address.page space full step.now.before) }
    ensures next { IfOk result (λ next. next ≡ (node_at page.now 38).next) }
{
    let n = step.address.page;
    if frame_fault(page, n, space) {
        return Err(Rule::InodeFrame.at(n));
    }
    if kind(page) != FIL_PAGE_INODE {
        return Err(Rule::InodeType.at(n));
    }
    let node = read_node(page, usize::from(INODE_PAGE_NODE));
    if !is_address(&node.prev, &step.before) {
        return Err(Rule::InodeList.at(n));
    }
    if !is_filled(full, used_inodes(page)) {
        return Err(Rule::InodeFill.at(n));
    }
    Ok(node.next)
}

impl Lists<'_> {
    /// Whether a step may go to this address: it is that of a fragment page below the size, which
    /// is new.
    fn may_go(&self, address: &Address, inodes: &Inodes) -> bool
        requires { length inodes.now.pages ≡ self.now.header.now.size }
        ensures exact { (file reached : List ℕ) → size_of file ≡ self.now.header.now.size
            → AreMarked inodes.now.pages reached
            → (IsTrue result ↔ IsStep file (flag_in self.now.fragments.now) reached address.now) }
        ensures below { IsTrue result → address.now.page < self.now.header.now.size }
        ensures new { IsTrue result → flag_in inodes.now.pages address.now.page ≡ false }
    {
        let n = address.page;
        address.offset == INODE_PAGE_NODE
            && n < self.header.size
            && self.fragments.get(n as usize).copied().unwrap_or(false)
            && !inodes.is_inode_page(n)
    }

    /// Makes a step, which reads its page, and gives the address after it.
    #[tactic(auto, unfolding(crate::specs::InodeChecks::StepAt))]
    fn check_step<S: PageSource, L: Ledger>(
        &self,
        source: &mut S,
        full: bool,
        step: &Step,
        inodes: &Inodes,
        page: &mut Page,
        steps: &mut Steps<L>,
    ) -> Result<Address, Stop>
        requires told { OfFile S.PageSource source.old (λ file. DescribesFile file self.now.header.now) }
        requires room { length inodes.now.pages ≡ self.now.header.now.size }
        ensures exact { OfFile S.PageSource source.old (λ file. (reached : List ℕ) → AreMarked inodes.now.pages reached
            → Answers result (StepAt file (flag_in self.now.fragments.now) full reached step.now.address
            step.now.holder step.now.before)) }
        ensures next { IfOk result (λ next. OfFile S.PageSource source.old (λ file.
            next ≡ (page_node file step.now.address.page).next)) }
        ensures page { OnOk result (OfFile S.PageSource source.old (λ file.
            page.new ≡ page_of file step.now.address.page)) }
        ensures below { OnOk result (step.now.address.page < length inodes.now.pages) }
        ensures new { OnOk result (flag_in inodes.now.pages step.now.address.page ≡ false) }
        ensures cost { OnOk result (steps.new ≡ steps.old + 1) }
        ensures bound { steps.new ≤ steps.old + unmarked inodes.now.pages }
        ensures over { StopsOver S.PageSource source.old source.new steps.old steps.new result }
    {
        if !self.may_go(&step.address, inodes) {
            return Err(Rule::InodeList.at(step.holder).into());
        }
        source.fetch(step.address.page, page, steps)?;
        Ok(check_page(page, self.header.space, full, step)?)
    }

    /// The base of INODES_FULL, or of INODES_FREE.
    fn base(&self, full: bool) -> &Base
        ensures { result.now ≡ inode_list self.now.header.now full }
    {
        if full {
            &self.header.inodes_full
        } else {
            &self.header.inodes_free
        }
    }

    /// Walks along a list: its pages are added with their used inodes.
    fn walk<S: PageSource, L: Ledger>(
        &self,
        source: &mut S,
        full: bool,
        inodes: &mut Inodes,
        page: &mut Page,
        steps: &mut Steps<L>,
    ) -> Result<(), Stop>
        requires told { OfFile S.PageSource source.old (λ file. DescribesFile file self.now.header.now) }
        requires small { self.now.header.now.size ≤ 4194304 }
        requires room { length inodes.old.pages ≡ self.now.header.now.size }
        ensures exact { OfFile S.PageSource source.old (λ file. (earlier : List ℕ) → AreMarked inodes.old.pages earlier
            → Answers result (InodeListChecks file (flag_in self.now.fragments.now) full earlier
            (inode_list self.now.header.now full))) }
        ensures marked { OnOk result (OfFile S.PageSource source.old (λ file. (earlier : List ℕ)
            → AreMarked inodes.old.pages earlier
            → AreMarked inodes.new.pages (earlier ++ list_pages file (inode_list self.now.header.now full)))) }
        ensures grew { OnOk result (OfFile S.PageSource source.old (λ file.
            Grew file (list_pages file (inode_list self.now.header.now full)) inodes.old inodes.new)) }
        ensures size { OnOk result (length inodes.new.pages ≡ length inodes.old.pages) }
        ensures cost { OnOk result (steps.new + unmarked inodes.new.pages ≡ steps.old + unmarked inodes.old.pages) }
        ensures bound { steps.new ≤ steps.old + unmarked inodes.old.pages }
        ensures over { StopsOver S.PageSource source.old source.new steps.old steps.new result }
    {
        let base = self.base(full);
        let mut step = Step {
            address: base.first,
            holder: 0,
            before: None,
        };
        let mut count = 0;
        while !is_null(&step.address) {
            let next = self.check_step(source, full, &step, inodes, page, steps)?;
            inodes.add_page(step.address.page, page)?;
            step = Step {
                address: next,
                holder: step.address.page,
                before: Some(step.address),
            };
            count += 1;
        }
        if base.length != count || !is_address(&base.last, &step.before) {
            return Err(Rule::InodeList.at(0).into());
        }
        Ok(())
    }

    /// Walks along INODES_FULL and then along INODES_FREE, where no page was added yet.
    #[tactic(auto, unfolding(crate::specs::InodeChecks::InodeListsChecks))]
    pub fn walk_both<S: PageSource, L: Ledger>(
        &self,
        source: &mut S,
        inodes: &mut Inodes,
        page: &mut Page,
        steps: &mut Steps<L>,
    ) -> Result<(), Stop>
        requires told { OfFile S.PageSource source.old (λ file. DescribesFile file self.now.header.now) }
        requires small { self.now.header.now.size ≤ 4194304 }
        requires none { inodes.old ≡ none_kept self.now.header.now.size }
        ensures exact { OfFile S.PageSource source.old (λ file.
            Answers result (InodeListsChecks file (flag_in self.now.fragments.now))) }
        ensures kept { OnOk result (OfFile S.PageSource source.old (λ file. AreKept file inodes.new)) }
        ensures size { OnOk result (length inodes.new.pages ≡ self.now.header.now.size) }
        ensures cost { OnOk result (steps.new + unmarked inodes.new.pages ≡ steps.old + self.now.header.now.size) }
        ensures bound { steps.new ≤ steps.old + self.now.header.now.size }
        ensures over { StopsOver S.PageSource source.old source.new steps.old steps.new result }
    {
        self.walk(source, true, inodes, page, steps)?;
        self.walk(source, false, inodes, page, steps)
    }
}
