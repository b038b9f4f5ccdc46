//! Pages that stand by themselves.

ghost use Rattle.std.specs.Prelude.{◌≡◌, ◌↔◌, IsTrue};
ghost use Rattle.fil_frame.specs.Frame.{space_of};
ghost use Rattle.leaf_salvage.specs.Standing.{Stands, TellsIndexId};

use fil_frame::kinds::FIL_PAGE_INDEX;
use fil_frame::layout::PAGE_SPACE;
use fil_frame::{frame_fault, kind};
use index_page::layout::INDEX_ID;
use page_source::{Page, read_be};

/// How many pages of a file are looked at: 64 GiB.
pub const MOST_PAGES: u32 = 4_194_304;

/// The space id that a page names.
pub fn space_id(page: &Page) -> u32
    ensures { result ≡ space_of page.now }
{
    read_be::<4>(page, PAGE_SPACE) as u32
}

/// Whether the frame is that of page `n`, of whatever space: its checksums are of some kind, and its page number and
/// the echo of its LSN are right.
pub fn stands(page: &Page, n: u32) -> bool
    ensures { IsTrue result ↔ Stands page.now n }
{
    !frame_fault(page, n, space_id(page))
}

/// The id of the index that page `n` is of, if it stands and is an index page.
pub fn index_id(page: &Page, n: u32) -> Option<u64>
    ensures { TellsIndexId page.now n result }
{
    if stands(page, n) && kind(page) == FIL_PAGE_INDEX {
        Some(read_be::<8>(page, INDEX_ID))
    } else {
        None
    }
}
