//! The frames and the types of the used pages (rules 25 and 26).

ghost use Rattle.std.specs.Prelude.{◌≡◌, ◌↔◌, ◌<◌, ◌≤◌, ◌+◌, ◌++◌, ◌∷◌, [], List, ℕ, length};
ghost use Rattle.std.specs.Prelude.{IsTrue, IfOk, OnOk, Ok, None, true, if◌then◌else◌, is_some};
ghost use Rattle.std.specs.Option.{unwrap_or};
ghost use Rattle.page_source.specs.Pages.{page_of, page_count};
ghost use Rattle.page_source.specs.Lists.{flag_in, unmarked};
ghost use Rattle.page_source.specs.Checks.{Answers, Finds};
ghost use Rattle.page_source.specs.Calls.{OfFile, StopsOver};
ghost use Rattle.fil_frame.specs.Frame.{kind_of, space_of};
ghost use Rattle.space_audit.specs.Owners.{owner_of};
ghost use Rattle.space_audit.specs.Audit.{IsKindFor, system_kind, PageChecks, FrameCheck, FrameChecks};
ghost use Rattle.space_audit.specs.Read.{AwaitsFrames, IsKind, AreKinds, fetches_at};

use crate::owner::{Owner, owner_by};
use extent_map::Extents;
use extent_map::laws::used_pages_are_of_extents;
use fil_frame::kinds::{
    FIL_PAGE_IBUF_BITMAP, FIL_PAGE_INDEX, FIL_PAGE_INODE, FIL_PAGE_TYPE_ALLOCATED,
    FIL_PAGE_TYPE_BLOB, FIL_PAGE_TYPE_FSP_HDR, FIL_PAGE_TYPE_XDES,
};
use fil_frame::{frame_fault, kind};
use inode_segments::Inodes;
use page_source::{Fault, NoMemory, Page, PageSource, Rule, Steps, Stop};
use space_header::DESCRIBED_PAGES;
use std::alloc::Global;
use std::sync::ledger::Ledger;

/// The types of the used pages, 0 for the others, and how many pages are used.
#[derive(Debug, Drop)]
pub(crate) struct Kinds {
    pub(crate) kinds: Vec<u16>,
    pub(crate) used: u32,
}

impl Kinds {
    /// No page yet, with room for so many.
    fn with_room(alloc: Global, pages: u32) -> Result<Kinds, NoMemory>
        ensures kinds { IfOk result (λ kinds. kinds.kinds.items ≡ []) }
        ensures used { IfOk result (λ kinds. kinds.used ≡ 0) }
    {
        Ok(Kinds {
            kinds: Vec::with_capacity(alloc, pages as usize)?,
            used: 0,
        })
    }

    /// Adds the next page: its type where it is used.
    fn push(&mut self, kind: Option<u16>) -> Result<(), NoMemory>
        requires { self.old.used < 4294967295 }
        ensures kinds { OnOk result (self.new.kinds.items ≡ self.old.kinds.items ++ unwrap_or kind 0 ∷ []) }
        ensures used { OnOk result (self.new.used ≡ self.old.used + (if is_some kind then 1 else 0)) }
    {
        match kind {
            Some(kind) => {
                self.kinds.push(kind)?;
                self.used += 1;
            }
            None => self.kinds.push(0)?,
        }
        Ok(())
    }
}

/// Checks the used pages, each of which is fetched once. The inode pages were fetched before, and
/// their frames and types are known.
pub(crate) fn check_frames<S: PageSource, L: Ledger>(
    alloc: Global,
    source: &mut S,
    space: u32,
    extents: &Extents,
    inodes: &Inodes,
    owners: &[u32],
    page: &mut Page,
    steps: &mut Steps<L>,
) -> Result<Kinds, Stop>
    requires few { length owners.now ≤ 4194304 }
    requires pages { length inodes.now.pages ≡ length owners.now }
    requires told { OfFile S.PageSource source.old
        (λ file. AwaitsFrames file space extents.now inodes.now owners.now) }
    ensures exact { OfFile S.PageSource source.old (λ file. Answers result (FrameChecks file)) }
    ensures kinds { IfOk result (λ found. OfFile S.PageSource source.old
        (λ file. AreKinds file (length owners.now) found.kinds.items found.used)) }
    ensures count { IfOk result (λ found. length found.kinds.items ≡ length owners.now) }
    ensures cost { steps.new ≤ steps.old + unmarked inodes.now.pages }
    ensures used { IfOk result (λ found.
        steps.new + length owners.now ≤ steps.old + unmarked inodes.now.pages + found.used) }
    ensures over { StopsOver S.PageSource source.old source.new steps.old steps.new result }
{
    used_pages_are_of_extents();
    let mut kinds = Kinds::with_room(alloc, owners.len() as u32)?;
    for n in 0..owners.len() as u32 {
        let kind = find_kind(source, n, space, extents, inodes, owners, page, steps)?;
        kinds.push(kind)?;
    }
    Ok(kinds)
}

/// Checks a page, if it is used, and gives its type.
fn find_kind<S: PageSource, L: Ledger>(
    source: &mut S,
    n: u32,
    space: u32,
    extents: &Extents,
    inodes: &Inodes,
    owners: &[u32],
    page: &mut Page,
    steps: &mut Steps<L>,
) -> Result<Option<u16>, Stop>
    requires below { n < length owners.now }
    requires told { OfFile S.PageSource source.old
        (λ file. AwaitsFrames file space extents.now inodes.now owners.now) }
    ensures exact { OfFile S.PageSource source.old (λ file. Answers result (FrameCheck file n)) }
    ensures kind { IfOk result (λ found. OfFile S.PageSource source.old (λ file. IsKind file n found)) }
    ensures cost { steps.new ≤ steps.old + fetches_at inodes.now.pages n }
    ensures unused { result ≡ Ok None → steps.new ≡ steps.old }
    ensures listed { IfOk result (λ found. flag_in inodes.now.pages n ≡ true → is_some found ≡ true) }
    ensures over { StopsOver S.PageSource source.old source.new steps.old steps.new result }
{
    if inodes.is_inode_page(n) {
        return Ok(Some(FIL_PAGE_INODE));
    }
    if !extents.is_used(n) {
        return Ok(None);
    }
    source.fetch(n, page, steps)?;
    Ok(Some(check_page(page, n, space, owner_by(owners[n as usize]))?))
}

/// Checks a page in hand, and gives its type.
fn check_page(page: &Page, n: u32, space: u32, owner: Owner) -> Result<u16, Fault>
    ensures exact { (file : List ℕ) → page.now ≡ page_of file n → space_of (page_of file 0) ≡ space
        → owner ≡ owner_of file n → Finds result (PageChecks file n) }
    ensures kind { IfOk result (λ found. found ≡ kind_of page.now) }
{
    if frame_fault(page, n, space) {
        return Err(Rule::Frame.at(n));
    }
    let kind = kind(page);
    if !is_kind_for(n, owner, kind) {
        return Err(Rule::PageKind.at(n));
    }
    Ok(kind)
}

/// Whether a page may have this type, by its owner.
fn is_kind_for(n: u32, owner: Owner, kind: u16) -> bool
    ensures { IsTrue result ↔ IsKindFor n owner kind }
{
    match owner {
        Owner::System => kind == system_kind(n),
        Owner::InodePage => kind == FIL_PAGE_INODE,
        Owner::Used(_) => {
            kind == FIL_PAGE_TYPE_ALLOCATED || kind == FIL_PAGE_TYPE_BLOB || kind == FIL_PAGE_INDEX
        }
        _ => true,
    }
}

/// The type of a system page.
fn system_kind(n: u32) -> u16
    ensures { result ≡ system_kind n }
{
    if n == 0 {
        return FIL_PAGE_TYPE_FSP_HDR;
    }
    if n % DESCRIBED_PAGES == 0 {
        return FIL_PAGE_TYPE_XDES;
    }
    FIL_PAGE_IBUF_BITMAP
}
