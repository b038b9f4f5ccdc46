//! The space header (fsp_header_t, fsp0fsp).

use crate::address::{Base, put_base, read_base};
use crate::layout::{FREE_LIMIT, SPACE_FLAGS, SPACE_ID, SPACE_SIZE};
use page_source::{PAGE_SIZE, Page, read_be, write_be};

// The places of the fields on page 0, with their names in fsp0fsp.h.

/// FSP_FRAG_N_USED, 4 bytes.
const FRAG_USED: usize = 58;

/// FSP_FREE, a list base.
const FREE_LIST: usize = 62;

/// FSP_FREE_FRAG, a list base.
const FREE_FRAG_LIST: usize = 78;

/// FSP_FULL_FRAG, a list base.
const FULL_FRAG_LIST: usize = 94;

/// FSP_SEG_ID, 8 bytes.
const NEXT_SEGMENT: usize = 110;

/// FSP_SEG_INODES_FULL, a list base.
const INODES_FULL: usize = 118;

/// FSP_SEG_INODES_FREE, a list base.
const INODES_FREE: usize = 134;

/// The space header on page 0 (fsp_header_t). Each field has its name in fsp0fsp.h and its first byte
/// on the page.
#[derive(Clone, Copy, Debug, PartialEq, Eq)]
pub struct SpaceHeader {
    /// FSP_SPACE_ID, 4 bytes at 38: the space id.
    pub space: u32,
    /// FSP_SIZE, 4 bytes at 46: the size in pages.
    pub size: u32,
    /// FSP_FREE_LIMIT, 4 bytes at 50: the free limit. Pages from this number on were never used.
    pub limit: u32,
    /// FSP_SPACE_FLAGS, 4 bytes at 54: 33 for DYNAMIC, 0 for COMPACT; 1024 more for a table with DATA
    /// DIRECTORY.
    pub flags: u32,
    /// FSP_FRAG_N_USED, 4 bytes at 58: the number of used pages of the extents on FREE_FRAG.
    pub frag_used: u32,
    /// FSP_SEG_ID, 8 bytes at 110: the id that the next segment gets.
    pub next_segment: u64,
    /// FSP_FREE, a base at 62: extents without a used page.
    pub free: Base,
    /// FSP_FREE_FRAG, a base at 78: fragment extents with some used pages.
    pub free_frag: Base,
    /// FSP_FULL_FRAG, a base at 94: fragment extents whose pages are all used.
    pub full_frag: Base,
    /// FSP_SEG_INODES_FULL, a base at 118: inode pages whose inodes are all used.
    pub inodes_full: Base,
    /// FSP_SEG_INODES_FREE, a base at 134: inode pages with a free inode.
    pub inodes_free: Base,
}

impl SpaceHeader {
    ghost use Rattle.std.specs.Prelude.{◌≡◌};
    ghost use Rattle.space_header.specs.Header.{header_of};
    ghost use Rattle.space_header.specs.Writing.{with_header};

    /// The space header that a page has, if it is page 0. No byte is judged.
    #[tactic(auto, unfolding(crate::specs::Header::header_of))]
    pub fn read(page: &Page) -> SpaceHeader
        ensures { result ≡ header_of page.now }
    {
        SpaceHeader {
            space: read_be::<4>(page, SPACE_ID) as u32,
            size: read_be::<4>(page, SPACE_SIZE) as u32,
            limit: read_be::<4>(page, FREE_LIMIT) as u32,
            flags: read_be::<4>(page, SPACE_FLAGS) as u32,
            frag_used: read_be::<4>(page, FRAG_USED) as u32,
            next_segment: read_be::<8>(page, NEXT_SEGMENT),
            free: read_base(page, FREE_LIST),
            free_frag: read_base(page, FREE_FRAG_LIST),
            full_frag: read_base(page, FULL_FRAG_LIST),
            inodes_full: read_base(page, INODES_FULL),
            inodes_free: read_base(page, INODES_FREE),
        }
    }

    /// Makes this the space header of a page, bytes 38 to 41 and 46 to 149. The other bytes stay.
    pub fn write(&self, page: &mut Page)
        ensures exact { page.new ≡ with_header page.old self.now }
        ensures read { header_of page.new ≡ self.now }
    {
        prove!(page.bytes().len() == PAGE_SIZE);
        write_be::<4>(page, SPACE_ID, u64::from(self.space));
        write_be::<4>(page, SPACE_SIZE, u64::from(self.size));
        write_be::<4>(page, FREE_LIMIT, u64::from(self.limit));
        write_be::<4>(page, SPACE_FLAGS, u64::from(self.flags));
        write_be::<4>(page, FRAG_USED, u64::from(self.frag_used));
        put_base(page, FREE_LIST, &self.free);
        put_base(page, FREE_FRAG_LIST, &self.free_frag);
        put_base(page, FULL_FRAG_LIST, &self.full_frag);
        write_be::<8>(page, NEXT_SEGMENT, self.next_segment);
        put_base(page, INODES_FULL, &self.inodes_full);
        put_base(page, INODES_FREE, &self.inodes_free);
    }
}
