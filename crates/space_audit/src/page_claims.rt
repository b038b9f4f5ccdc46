//! Who claims each page of the fragment extents (rules 22 and 24).

ghost use Rattle.std.specs.Prelude.{◌≡◌, ◌<◌, ◌≤◌, ◌/◌, ◌++◌, ◌∷◌, ◌&&◌, [], List, ℕ, length, map};
ghost use Rattle.std.specs.Prelude.{IfOk, OnOk, IsTrue, ◌↔◌, if◌then◌else◌};
ghost use Rattle.std.specs.List.{range_with_len};
ghost use Rattle.page_source.specs.Lists.{flag_in};
ghost use Rattle.page_source.specs.Verdict.{Each, EachOf};
ghost use Rattle.page_source.specs.Checks.{Finds};
ghost use Rattle.space_header.specs.Header.{size_of, limit_of};
ghost use Rattle.extent_map.specs.Extents.{AreExtents, is_used, is_fragment_extent};
ghost use Rattle.inode_segments.specs.Inodes.{segments};
ghost use Rattle.space_audit.specs.Holders.{Claim, AreHeld, claims_of, claims_in, first_holder, IsOnce, IsHeld};
ghost use Rattle.space_audit.specs.Audit.{SlotCheck, SlotsCheck, ClaimCheck};
ghost use Rattle.space_audit.specs.Read.{IsRead};

use extent_map::laws::used_pages_are_of_extents;
use extent_map::{Extents, is_system_page};
use inode_segments::Inodes;
use page_source::{FIL_NULL, Fault, NoMemory, Rule};
use space_header::Address;
use std::alloc::Global;

/// The holder of an inode page. That of another page is the number of the segment with a slot for it.
pub(crate) const INODE_HOLDER: u32 = 0xFFFF_FFFF;

/// No one has claimed the page.
const NO_HOLDER: u32 = 0xFFFF_FFFD;

/// Two or more have claimed the page.
const MANY_HOLDERS: u32 = 0xFFFF_FFFC;

/// The inode pages are claimed, and no other page.
pub(crate) fn first_holders(alloc: Global, inodes: &Inodes, size: u32) -> Result<Vec<u32>, NoMemory>
    ensures { IfOk result (λ holders. holders.items ≡ map (first_holder inodes.now.pages) (range_with_len 0 size)) }
{
    let mut holders = Vec::with_capacity(alloc, size as usize)?;
    for n in 0..size {
        let holder = if inodes.is_inode_page(n) {
            INODE_HOLDER
        } else {
            NO_HOLDER
        };
        holders.push(holder)?;
    }
    Ok(holders)
}

/// Claims the pages in the slots of all segments, in a tablespace of `size` pages.
pub(crate) fn claim_segments(
    extents: &Extents,
    inodes: &Inodes,
    size: u32,
    holders: &mut [u32],
) -> Result<(), Fault>
    requires { size ≤ length holders.old }
    ensures exact { (file : List ℕ) → IsRead file extents.now inodes.now → size ≡ size_of file
        → Finds result (EachOf (segments file) (SlotsCheck file)) }
    ensures held { OnOk result ((file : List ℕ) → IsRead file extents.now inodes.now
        → holders.old ≡ map (first_holder inodes.now.pages) (range_with_len 0 size)
        → AreHeld holders.new (claims_in file)) }
{
    for s in 0..inodes.count() {
        claim_slots(
            extents,
            &inodes.inode(s).slots,
            s,
            inodes.place(s),
            size,
            holders,
        )?;
    }
    Ok(())
}

/// Claims the pages in the slots of segment `who`, whose inode stands at `place`.
fn claim_slots(
    extents: &Extents,
    slots: &[u32],
    who: u32,
    place: Address,
    size: u32,
    holders: &mut [u32],
) -> Result<(), Fault>
    requires { size ≤ length holders.old }
    ensures exact { (file : List ℕ) → AreExtents file extents.now → size ≡ size_of file
        → Finds result (EachOf slots.now (SlotCheck file place)) }
    ensures held { OnOk result ((claims : List Claim) → AreHeld holders.old claims
        → AreHeld holders.new (claims ++ claims_of who slots.now)) }
{
    for slot in slots {
        if *slot != FIL_NULL {
            if *slot >= size || !is_claimable(extents, *slot) {
                return Err(Rule::FragmentSlot.at(place.page));
            }
            claim(holders, *slot, who);
        }
    }
    Ok(())
}

/// Whether a page is a used one of a fragment extent.
fn is_claimable(extents: &Extents, n: u32) -> bool
    ensures { (file : List ℕ) → AreExtents file extents.now
        → result ≡ (is_used file n && is_fragment_extent file (n / 64)) }
{
    extents.is_used(n) && extents.is_fragment_extent(n / 64)
}

/// Claims a page.
fn claim(holders: &mut [u32], page: u32, who: u32)
    requires { page < length holders.old }
    ensures { (claims : List Claim) → AreHeld holders.old claims
        → AreHeld holders.new (claims ++ record { page = page; who = who } ∷ []) }
{
    if holders[page as usize] == NO_HOLDER {
        holders[page as usize] = who;
    } else {
        holders[page as usize] = MANY_HOLDERS;
    }
}

/// Checks that each used page of the fragment extents is a system page or has one holder.
pub(crate) fn check_holders(extents: &Extents, holders: &[u32]) -> Result<(), Fault>
    requires { length holders.now ≤ 4194304 }
    ensures { (file : List ℕ) → IsHeld file extents.now holders.now
        → Finds result (Each (limit_of file) (ClaimCheck file)) }
{
    used_pages_are_of_extents();
    for n in 0..holders.len() as u32 {
        if is_claimable(extents, n) && !is_once(is_system_page(n), holders[n as usize]) {
            return Err(Rule::PageOwner.at(n));
        }
    }
    Ok(())
}

/// Whether a used page of a fragment extent has the holder that it must have.
fn is_once(system: bool, holder: u32) -> bool
    ensures { IsTrue result ↔ IsOnce system holder }
{
    if system {
        holder == NO_HOLDER
    } else {
        holder != NO_HOLDER && holder != MANY_HOLDERS
    }
}
