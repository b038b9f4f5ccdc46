//! The owner of each page, once its holder is known.

ghost use Rattle.std.specs.Prelude.{◌≡◌, ◌<◌, List, ℕ, length};
ghost use Rattle.extent_map.specs.declared.extent.Extent.{Extent};
ghost use Rattle.inode_segments.specs.Kept.{InodesView};
ghost use Rattle.space_audit.specs.Owners.{owner_of, owner_by_holder, owner_at_home, AreOwners};
ghost use Rattle.space_audit.specs.Holders.{AreHeld, held_after, no_holder, claims_in};
ghost use Rattle.space_audit.specs.Read.{IsOwned};

use crate::owner::{Owner, number_of};
use crate::page_claims::INODE_HOLDER;
use extent_map::states::{FREE, FSEG};
use extent_map::{Extents, is_system_page};

/// Makes the holder of each page the number of its owner, where the extents have these homes.
pub(crate) fn settle_owners(extents: &Extents, homes: &[u32], holders: &mut [u32])
    requires same { length homes.now ≡ length extents.now }
    requires few { length holders.old < 4294967296 }
    ensures { (file : List ℕ) (inodes : InodesView) → IsOwned file extents.now inodes homes.now
        → AreHeld holders.old (claims_in file) → AreOwners file holders.new }
{
    for n in 0..holders.len() as u32 {
        let owner = find_owner(extents, homes, holders[n as usize], n);
        holders[n as usize] = number_of(owner);
    }
}

/// The owner of a page with this holder.
fn find_owner(extents: &Extents, homes: &[u32], holder: u32, n: u32) -> Owner
    requires { length homes.now ≡ length extents.now }
    ensures { (file : List ℕ) (inodes : InodesView) → IsOwned file extents.now inodes homes.now
        → holder ≡ held_after no_holder (claims_in file) n → result ≡ owner_of file n }
{
    let e = n / 64;
    if e >= extents.count() {
        return Owner::Beyond;
    }
    let used = extents.is_used(n);
    let state = extents.extent(e).state;
    if state == FREE {
        return Owner::FreeExtent;
    }
    if state == FSEG {
        return segment_owner(homes[e as usize], used);
    }
    fragment_owner(n, holder, used)
}

/// The owner of a page of an extent of a segment, which has this home.
fn segment_owner(home: u32, used: bool) -> Owner
    ensures { result ≡ owner_at_home home used }
{
    let segment = home.saturating_sub(3) / 3;
    if used {
        Owner::Used(segment)
    } else {
        Owner::Spare(segment)
    }
}

/// The owner of a page of a fragment extent.
fn fragment_owner(n: u32, holder: u32, used: bool) -> Owner
    ensures { result ≡ owner_by_holder n holder used }
{
    if !used {
        return Owner::FragmentFree;
    }
    if is_system_page(n) {
        return Owner::System;
    }
    if holder == INODE_HOLDER {
        return Owner::InodePage;
    }
    Owner::Used(holder)
}
