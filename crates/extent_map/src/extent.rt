//! The descriptor of an extent of 64 pages (xdes_t, fsp0fsp). It takes 40 bytes.

ghost use Rattle.std.specs.Prelude.{◌≡◌, ◌+◌, ◌<◌, ◌≤◌};
ghost use Rattle.page_source.specs.Pages.{with_bytes};
ghost use Rattle.extent_map.specs.Extents.{extent_at, used_mask};
ghost use Rattle.extent_map.specs.Writing.{bitmap_byte, bitmap_bytes, extent_bytes};

use crate::layout::BITMAP;
use page_source::{PAGE_SIZE, Page, read_be, write_be};
use space_header::{Node, read_node, write_node};

// The places of the fields, with their names in fsp0fsp.h.

/// XDES_FLST_NODE, a list node.
const LIST_NODE: usize = 8;

/// XDES_STATE, 4 bytes.
const STATE: usize = 20;

/// The descriptor of an extent (xdes_t). Each field has its name in fsp0fsp.h and its first byte within
/// the 40 of a descriptor.
#[derive(Clone, Copy, Debug, PartialEq, Eq)]
pub struct Extent {
    /// XDES_ID, 8 bytes at 0: the segment that has the extent, where the state is FSEG.
    pub id: u64,
    /// XDES_FLST_NODE, 12 bytes at 8: the extent's node in the list of extents where it stands.
    pub node: Node,
    /// XDES_STATE, 4 bytes at 20: FREE 1, FREE_FRAG 2, FULL_FRAG 3, FSEG 4.
    pub state: u32,
    /// XDES_BITMAP, 16 bytes at 24, as a bit for each page, the first one lowest: 1 where the page is
    /// used. In the file a page has two bits, of which the first (XDES_FREE_BIT) is 0 where it is used.
    pub used: u64,
}

/// The descriptor that begins at byte `at` of the page.
#[tactic(auto, unfolding(crate::specs::Extents::extent_at))]
pub fn read_extent(page: &Page, at: usize) -> Extent
    requires { at + 40 ≤ 16384 }
    ensures { result ≡ extent_at page.now at }
{
    Extent {
        id: read_be::<8>(page, at),
        node: read_node(page, at + LIST_NODE),
        state: read_be::<4>(page, at + STATE) as u32,
        used: read_used(page, at + BITMAP),
    }
}

/// The used pages by the bitmap at byte `at`: two bits a page, of which the first is 0 where the
/// page is used. The second isn't read.
fn read_used(page: &Page, at: usize) -> u64
    requires { at + 16 ≤ 16384 }
    ensures { result ≡ used_mask page.now at }
{
    let bytes = page.bytes();
    let mut used = 0;
    for j in 0..64usize {
        if (bytes[at + j / 4] >> (2 * (j % 4))) % 2 == 0 {
            used += 1 << j;
        }
    }
    used
}

/// Makes this the descriptor that begins at byte `at` of the page, and the second bit of each of its
/// pages (XDES_CLEAN_BIT) 1. The other bytes stay.
pub fn write_extent(page: &mut Page, at: usize, extent: &Extent)
    requires { at + 40 ≤ 16384 }
    ensures exact { page.new ≡ with_bytes page.old at (extent_bytes extent.now) }
    ensures read { extent_at page.new at ≡ extent.now }
{
    prove!(page.bytes().len() == PAGE_SIZE);
    write_be::<8>(page, at, extent.id);
    write_node(page, at + LIST_NODE, &extent.node);
    write_be::<4>(page, at + STATE, u64::from(extent.state));
    page.put_bytes(at + BITMAP, &bitmap(extent.used));
}

/// The bitmap of these used pages.
fn bitmap(used: u64) -> [u8; 16]
    ensures { result ≡ bitmap_bytes used }
{
    let mut bytes = [0; 16];
    for i in 0..16usize {
        bytes[i] = four_pages(used, i);
    }
    bytes
}

/// Byte `i` of the bitmap, which is for four pages.
fn four_pages(used: u64, i: usize) -> u8
    requires { i < 16 }
    ensures { result ≡ bitmap_byte used i }
{
    let four = (used >> (4 * i)) % 16;
    let set = four % 2 + four / 2 % 2 * 4 + four / 4 % 2 * 16 + four / 8 * 64;
    (255 - set) as u8
}
