//! What is found at a place of an image.

ghost use Rattle.std.specs.Prelude.{◌≡◌, ◌≢◌, ◌↔◌, ◌+◌, ◌≤◌, ◌<◌, length, Contains, IsTrue};
ghost use Rattle.page_source.specs.Pages.{num, bytes_at};
ghost use Rattle.page_scan.specs.Found.{lsn_of, page_at, table_kinds};
ghost use Rattle.page_scan.specs.Window.{LooksLikePage, Sees};

use crate::scanner::FoundPage;
use fil_frame::kinds::{
    FIL_PAGE_IBUF_BITMAP, FIL_PAGE_INDEX, FIL_PAGE_INODE, FIL_PAGE_TYPE_BLOB,
    FIL_PAGE_TYPE_FSP_HDR, FIL_PAGE_TYPE_XDES,
};
use fil_frame::layout::{LOW_LSN, LSN_ECHO, PAGE_KIND, PAGE_LSN, PAGE_NUMBER, PAGE_SPACE};
use leaf_salvage::{MOST_PAGES, stands};
use page_source::{PAGE_SIZE, Page, read_be};

/// The LSN of the last change of a page.
pub fn lsn(page: &Page) -> u64
    ensures { result ≡ lsn_of page.now }
{
    read_be::<8>(page, PAGE_LSN)
}

/// The number in the 2 bytes from byte `at` on.
#[tactic(auto, unfolding(page_source::specs::Pages::num))]
fn short_at(bytes: &[u8], at: usize) -> u16
    requires { at + 2 ≤ length bytes.now }
    ensures { result ≡ num bytes.now at 2 }
{
    u16::from(bytes[at]) * 256 + u16::from(bytes[at + 1])
}

/// The number in the 4 bytes from byte `at` on.
#[tactic(auto, unfolding(page_source::specs::Pages::num))]
fn long_at(bytes: &[u8], at: usize) -> u32
    requires { at + 4 ≤ length bytes.now }
    ensures { result ≡ num bytes.now at 4 }
{
    u32::from(short_at(bytes, at)) * 65536 + u32::from(short_at(bytes, at + 2))
}

fn is_table_kind(kind: u16) -> bool
    ensures { IsTrue result ↔ Contains table_kinds kind }
{
    [
        FIL_PAGE_INODE,
        FIL_PAGE_IBUF_BITMAP,
        FIL_PAGE_TYPE_FSP_HDR,
        FIL_PAGE_TYPE_XDES,
        FIL_PAGE_TYPE_BLOB,
        FIL_PAGE_INDEX,
    ]
    .contains(&kind)
}

/// Whether the bytes of a page are worth a look at its checksums. The type comes first: most sectors fail there.
fn looks_like_page(bytes: &[u8]) -> bool
    requires { length bytes.now ≡ 16384 }
    ensures { IsTrue result ↔ LooksLikePage bytes.now }
{
    is_table_kind(short_at(bytes, PAGE_KIND))
        && long_at(bytes, LSN_ECHO) == long_at(bytes, LOW_LSN)
        && long_at(bytes, PAGE_NUMBER) < MOST_PAGES
        && long_at(bytes, PAGE_SPACE) != 0
}

/// The page whose bytes these are, which are copied then.
fn page_of_bytes(bytes: &[u8], page: &mut Page) -> Option<FoundPage>
    requires { length bytes.now ≡ 16384 }
    ensures { Sees bytes.now result page.new }
{
    if !looks_like_page(bytes) {
        return None;
    }
    prove!(page.bytes().len() == PAGE_SIZE);
    page.put_bytes(0, bytes);
    let number = long_at(bytes, PAGE_NUMBER);
    if !stands(page, number) {
        return None;
    }
    Some(FoundPage {
        space: long_at(bytes, PAGE_SPACE),
        number,
    })
}

/// The page that begins at this place, which is copied then.
pub(crate) fn page_there(bytes: &[u8], at: usize, page: &mut Page) -> Option<FoundPage>
    requires { at + 16384 ≤ length bytes.now }
    ensures { Sees (page_at bytes.now at) result page.new }
{
    page_of_bytes(&bytes[at..at + PAGE_SIZE], page)
}
