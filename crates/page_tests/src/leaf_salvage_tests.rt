//! A page by itself: a leaf of three rows, what of it is broken, and what a page of descriptors calls free.

use crate::index_page_tests::{rows, three_rows};
use fil_frame::kinds::{FIL_PAGE_INDEX, FIL_PAGE_TYPE_FSP_HDR, FIL_PAGE_TYPE_XDES};
use fil_frame::seal;
use index_page::Scratch;
use leaf_salvage::{Descriptors, Verdict, index_id, leaf_verdict, space_id, stands};
use page_source::{NoMemory, Page, Rule};
use std::alloc::Global;
use std::process::Abort;
use std::test::Fail;

/// The page of three rows as page 3 of space 23 and of the index 41, and with this piece too.
fn leaf(rt: &impl Abort, alloc: Global, at: usize, piece: &[u8]) -> Result<Page, NoMemory> {
    let mut page = three_rows(rt, alloc)?;
    page.put_bytes(66, b"\0\0\0\0\0\0\0)");
    assert!(rt; at <= 16384 && piece.len() <= 16384 - at);
    page.put_bytes(at, piece);
    seal(&mut page, 3, 23, 7, FIL_PAGE_INDEX);
    Ok(page)
}

/// What page 3 is to the index 41.
fn verdict_of(alloc: Global, page: &Page) -> Result<Verdict, NoMemory> {
    let fields = rows(alloc)?;
    let mut scratch = Scratch::new(alloc, 5)?;
    Ok(leaf_verdict(&mut scratch, page, 3, 41, &fields))
}

/// Two rows with one key, a page above the leaves, one of another index, a next field that leads nowhere, and a
/// directory that counts a record too few.
#[test]
fn tells_what_a_page_is_to_an_index(rt: HostRuntime) -> Result<(), Fail> {
    let alloc = rt.alloc();
    for (at, piece, verdict) in [
        (169, b"\x80\0\0\0", Verdict::Leaf),
        (64, b"\0\x01\0\0", Verdict::Other),
        (70, b"\0\0\0*", Verdict::Other),
        (167, b"\xFF\xD4\x7F\xFF", Verdict::Lost(Rule::RecordChain)),
        (107, b"\x03\0\x0B\0", Verdict::Lost(Rule::Directory)),
    ] {
        let page = leaf(&rt, alloc, at, piece)?;
        assert!(rt; verdict_of(alloc, &page)? == verdict, "{at}");
    }
    Ok(())
}

/// Of whatever space it is; a page that is torn doesn't, and one of zeros is no leaf.
#[test]
fn stands_by_itself(rt: HostRuntime) -> Result<(), Fail> {
    let alloc = rt.alloc();
    let mut page = leaf(&rt, alloc, 38, b"\0\x02")?;
    assert!(rt; stands(&page, 3) && !stands(&page, 4));
    assert!(rt; space_id(&page) == 23 && index_id(&page, 3) == Some(41));
    page.put_bytes(16376, b"\xFF");
    assert!(rt; verdict_of(alloc, &page)? == Verdict::Lost(Rule::Frame));
    assert!(rt; index_id(&page, 3).is_none());
    assert!(rt; verdict_of(alloc, &Page::zeroed(alloc)?)? == Verdict::Other);
    Ok(())
}

/// Page 0, with the free limit 64, whose descriptor calls page 5 free.
fn first_page(alloc: Global, kind: u16) -> Result<Page, NoMemory> {
    let mut page = Page::zeroed(alloc)?;
    page.put_bytes(50, b"\0\0\0@");
    page.put_bytes(175, b"\x04");
    seal(&mut page, 0, 23, 7, kind);
    Ok(page)
}

/// Page 5 is free by its bit, and page 64 by the limit; neither is known if page 0 is lost or has another type.
#[test]
fn knows_which_pages_are_free(rt: HostRuntime) -> Result<(), Fail> {
    let alloc = rt.alloc();
    let mut known = Descriptors::new(alloc)?;
    known.learn(0, &first_page(alloc, FIL_PAGE_TYPE_FSP_HDR)?);
    for (n, unused) in [(0, false), (4, false), (5, true), (63, false), (64, true)] {
        assert!(rt; known.is_unused(n) == unused, "{n}");
    }
    known.learn(0, &first_page(alloc, FIL_PAGE_TYPE_XDES)?);
    assert!(rt; !known.is_unused(5) && !known.is_unused(64));
    known.learn(0, &first_page(alloc, FIL_PAGE_TYPE_FSP_HDR)?);
    known.miss(0);
    assert!(rt; !known.is_unused(5) && !known.is_unused(64));
    Ok(())
}
