//! A page of a chain: its part of the value.

ghost use Rattle.std.specs.Prelude.{◌≡◌, ◌≤◌, ◌+◌, ◌↔◌, IsTrue, length};
ghost use Rattle.offpage_chain.specs.Chain.{part_length, next_part, part_bytes};
ghost use Rattle.offpage_chain.specs.ChainChecks.{IsChainPart};

use crate::layout::{LONGEST_PART, PART_START};
use page_source::{FIL_NULL, Page, read_be};

/// FIL_PAGE_DATA, where the header of the part begins: BTR_BLOB_HDR_PART_LEN, 4 bytes.
pub(crate) const PART_LENGTH: usize = 38;

/// BTR_BLOB_HDR_NEXT_PAGE_NO, 4 bytes.
pub(crate) const NEXT_PART: usize = 42;

/// The number of bytes that the page has of the value.
pub fn part_length(page: &Page) -> u32
    ensures { result ≡ part_length page.now }
{
    read_be::<4>(page, PART_LENGTH) as u32
}

/// The page on which the value goes on.
pub fn next_part(page: &Page) -> u32
    ensures { result ≡ next_part page.now }
{
    read_be::<4>(page, NEXT_PART) as u32
}

/// Whether the page has a part of the bytes that are left, and the chain ends with the last of them.
pub fn is_part(page: &Page, left: u32) -> bool
    ensures { IsTrue result ↔ IsChainPart page.now left }
{
    let length = part_length(page);
    (1..=LONGEST_PART).contains(&length)
        && length <= left
        && (next_part(page) == FIL_NULL) == (length == left)
}

/// The bytes of the part.
pub fn part_bytes(page: &Page) -> &[u8]
    requires { part_length page.now ≤ 16330 }
    ensures bytes { result.now ≡ part_bytes page.now }
    ensures length { length result.now ≡ part_length page.now }
{
    &page.bytes()[PART_START..PART_START + part_length(page) as usize]
}
