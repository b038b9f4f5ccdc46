//! The owner of a page, and the number that stands for it where owners are kept.

ghost use Rattle.std.specs.Prelude.{◌≡◌};
ghost use Rattle.space_audit.specs.Owners.{IsSmall, owner_by};

/// The owner of a page (fsp0fsp). A segment is named by its place in the order of the inodes, from 0 on.
#[derive(Clone, Copy, Debug, PartialEq, Eq)]
pub enum Owner {
    /// Page 0, a later descriptor page, or the bitmap page behind one of these.
    System,
    /// A page of one of the two lists of inode pages.
    InodePage,
    /// A page that this segment uses: one in a slot of its inode, or a used one of its extents.
    Used(u32),
    /// A free page of an extent of this segment.
    Spare(u32),
    /// A free page of a fragment extent.
    FragmentFree,
    /// A page of a free extent.
    FreeExtent,
    /// A page at or above the free limit.
    Beyond,
}

// The numbers of the owners without a segment. That of `Used` is the segment's number.

const SYSTEM: u32 = 0xFFFF_FFFF;

const INODE_PAGE: u32 = 0xFFFF_FFFE;

const FRAGMENT_FREE: u32 = 0xFFFF_FFFD;

const FREE_EXTENT: u32 = 0xFFFF_FFFC;

const BEYOND: u32 = 0xFFFF_FFFB;

/// The number of `Spare` is the segment's number and this.
const SPARE: u32 = 0x8000_0000;

/// The number of an owner.
#[tactic(auto, unfolding(crate::specs::Owners::owner_by))]
pub(crate) fn number_of(owner: Owner) -> u32
    ensures { IsSmall owner → owner_by result ≡ owner }
{
    match owner {
        Owner::System => SYSTEM,
        Owner::InodePage => INODE_PAGE,
        Owner::Used(segment) => segment,
        Owner::Spare(segment) => segment.wrapping_add(SPARE),
        Owner::FragmentFree => FRAGMENT_FREE,
        Owner::FreeExtent => FREE_EXTENT,
        Owner::Beyond => BEYOND,
    }
}

/// The owner with a number.
#[tactic(auto, unfolding(crate::specs::Owners::owner_by))]
pub(crate) fn owner_by(number: u32) -> Owner
    ensures { result ≡ owner_by number }
{
    match number {
        SYSTEM => Owner::System,
        INODE_PAGE => Owner::InodePage,
        FRAGMENT_FREE => Owner::FragmentFree,
        FREE_EXTENT => Owner::FreeExtent,
        BEYOND => Owner::Beyond,
        SPARE.. => Owner::Spare(number - SPARE),
        _ => Owner::Used(number),
    }
}
