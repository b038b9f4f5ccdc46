//! An audited tablespace: the owner and the type of each page, and the segments. It takes 7 bytes a
//! page.

ghost use Rattle.std.specs.Prelude.{◌≡◌, ◌<◌, ◌≤◌, List, ℕ, length, map, slice_index, slice_index_or, slice_get};
ghost use Rattle.std.specs.Prelude.{Some, IfOk, All, IsTrue, true, ◌↔◌};
ghost use Rattle.space_header.specs.declared.address.Address.{Address};
ghost use Rattle.page_source.specs.Pages.{page_of};
ghost use Rattle.fil_frame.specs.Frame.{kind_of, space_of};
ghost use Rattle.extent_map.specs.Extents.{IsUsed};
ghost use Rattle.space_audit.specs.Owners.{owner_of, owner_by};
ghost use Rattle.space_audit.specs.Space.{SpaceView, IsAuditOf, HasAuditedSize, IsPageOf, FindsSegment};
ghost use Rattle.space_audit.specs.Space.{address_key, HasSmallOffset};

use crate::numbering::Numbering;
use crate::owner::{Owner, owner_by};
use inode_segments::Inodes;
use page_source::NoMemory;
use space_header::Address;
use std::alloc::Global;
use std::marker::Model;

/// What is known of a tablespace of which the rules 1 to 26 hold.
#[derive(Debug, Drop)]
pub struct Space {
    size: u32,
    id: u32,
    used: u32,
    owners: Vec<u32>,
    kinds: Vec<u16>,
    inodes: Inodes,
    places: Numbering,
}

impl Model for Space {
    ghost use Rattle.std.specs.Prelude.{◌≡◌, ◌≤◌, List, length, map, All};
    ghost use Rattle.space_audit.specs.Owners.{owner_by};
    ghost use Rattle.space_audit.specs.Space.{SpaceView, address_key, HasSmallOffset};

    ghost Value = { SpaceView };

    ghost view = { λ s. record {
      size = s.size;
      id = s.id;
      owners = map owner_by s.owners.items;
      kinds = s.kinds.items;
      used = s.used;
      segments = s.inodes.places;
    } };

    ghost invariant = { λ s. (4 ≤ s.size) × (s.size ≤ 4194304)
        × (length s.owners.items ≡ s.size) × (length s.kinds.items ≡ s.size)
        × (s.places ≡ map address_key s.inodes.places) × All HasSmallOffset s.inodes.places };
}

impl Space {
    /// The tablespace with these owners and types of its pages.
    pub(crate) fn of(
        alloc: Global,
        id: u32,
        inodes: Inodes,
        owners: Vec<u32>,
        kinds: Vec<u16>,
        used: u32,
    ) -> Result<Space, NoMemory>
        requires least { 4 ≤ length owners.items }
        requires most { length owners.items ≤ 4194304 }
        requires same { length kinds.items ≡ length owners.items }
        ensures { IfOk result (λ space. space ≡ record {
          size = length owners.items;
          id = id;
          owners = map owner_by owners.items;
          kinds = kinds.items;
          used = used;
          segments = inodes.places;
        }) }
    {
        let places = number_places(alloc, &inodes)?;
        Ok(Space {
            size: owners.len() as u32,
            id,
            used,
            owners,
            kinds,
            inodes,
            places,
        })
    }

    /// The size in pages that page 0 states; the file may be longer.
    pub fn size(&self) -> u32
        ensures is { result ≡ self.now.size }
        ensures told { (file : List ℕ) → IsAuditOf file self.now → HasAuditedSize file result }
        ensures least { 4 ≤ result }
        ensures most { result ≤ 4194304 }
        ensures owners { length self.now.owners ≡ result }
        ensures kinds { length self.now.kinds ≡ result }
    {
        self.size
    }

    /// The space id in the frame of page 0.
    pub fn space_id(&self) -> u32
        ensures is { result ≡ self.now.id }
        ensures told { (file : List ℕ) → IsAuditOf file self.now → result ≡ space_of (page_of file 0) }
    {
        self.id
    }

    /// The number of used pages below the size.
    pub fn used_pages(&self) -> u32
        ensures { result ≡ self.now.used }
    {
        self.used
    }

    /// Who owns page `n`, which is below the size.
    #[tactic(auto, using(crate::proofs::Audited::audited_owner))]
    pub fn owner(&self, n: u32) -> Owner
        requires { n < self.now.size }
        ensures is { result ≡ slice_index_or self.now.owners n result }
        ensures told { (file : List ℕ) → IsAuditOf file self.now → result ≡ owner_of file n }
    {
        owner_by(self.owners[n as usize])
    }

    /// The type field (FIL_PAGE_TYPE) of page `n`, which is below the size; 0 of a page that isn't used.
    #[tactic(auto, using(crate::proofs::Audited::audited_kind))]
    pub fn kind(&self, n: u32) -> u16
        requires { n < self.now.size }
        ensures is { result ≡ slice_index self.now.kinds n }
        ensures told { (file : List ℕ) → IsAuditOf file self.now → IsUsed file n → result ≡ kind_of (page_of file n) }
    {
        self.kinds[n as usize]
    }

    /// Whether page `n` lies below the size, is used by this segment, and has this type.
    pub fn has_page(&self, segment: u32, kind: u16, n: u32) -> bool
        ensures told { (file : List ℕ) → IsAuditOf file self.now → IsTrue result ↔ IsPageOf file segment kind n }
        ensures within { result ≡ true → n < self.now.size }
    {
        if n >= self.size() {
            return false;
        }
        let Owner::Used(owner) = self.owner(n) else {
            return false;
        };
        owner == segment && self.kind(n) == kind
    }

    /// The number of segments; they are numbered from 0 on, in the order of the inodes.
    pub fn segment_count(&self) -> u32
        ensures count { result ≡ length self.now.segments }
        ensures most { result ≤ 356515840 }
    {
        self.inodes.count()
    }

    /// The segment whose inode has this address, by its number. None where it is the address of no used
    /// inode on a listed inode page.
    pub fn segment_at(&self, address: Address) -> Option<u32>
        ensures { FindsSegment self.now.segments address result }
    {
        let segment = self.places.find(key_of(address));
        if segment < self.inodes.count() {
            Some(segment)
        } else {
            None
        }
    }

    /// The page on which a segment's inode stands.
    pub fn inode_page(&self, segment: u32) -> u32
        requires { segment < length self.now.segments }
        ensures { (place : Address) → slice_get self.now.segments segment ≡ Some place → result ≡ place.page }
    {
        self.inodes.place(segment).page
    }
}

/// The places of the inodes, by their addresses.
fn number_places(alloc: Global, inodes: &Inodes) -> Result<Numbering, NoMemory>
    ensures keys { IfOk result (λ places. places ≡ map address_key inodes.now.places) }
    ensures small { IfOk result (λ _. All HasSmallOffset inodes.now.places) }
{
    let mut places = Numbering::with_room(alloc, inodes.count())?;
    for s in 0..inodes.count() {
        places.push(key_of(inodes.place(s)))?;
    }
    Ok(places)
}

/// An address as a number.
fn key_of(address: Address) -> u64
    ensures key { result ≡ address_key address }
    ensures small { HasSmallOffset address }
{
    (u64::from(address.page) << 16) + u64::from(address.offset)
}
