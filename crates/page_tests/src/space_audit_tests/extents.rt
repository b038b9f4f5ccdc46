//! A tablespace of several extents, with a segment that has one of its own.

use super::answers::{audited, expect_owners};
use super::draft::{Draft, extent, file_of, header, one, put_page};
use extent_map::{Extent, write_extent};
use page_source::{NoMemory, SparsePages};
use space_audit::{Owner, Space};
use space_header::write_base;
use std::alloc::Global;
use std::process::Abort;
use std::test::Fail;

/// A tablespace of 192 pages whose extent 1 is on the list NOT_FULL of segment 2, with the used pages 64 and 65. Extent
/// 2 was never used.
fn own_extent(alloc: Global) -> Result<SparsePages, NoMemory> {
    let mut draft = Draft::new(alloc, &header(192, 128))?;
    let own = Extent {
        id: 2,
        ..extent(4, 3)
    };
    write_extent(&mut draft.head, 190, &own);
    draft.put(2, 250, 2);
    write_base(&mut draft.inodes, 270, &one(0, 198));
    let mut held = draft.pages(alloc)?;
    put_page(alloc, &mut held, 64, 0)?;
    put_page(alloc, &mut held, 65, 0)?;
    file_of(alloc, 192, held, &[])
}

/// Fails the test where the answer for one of these pages is another.
fn expect_pages(rt: &impl Abort, space: &Space, pages: &[(u32, u16, u32, bool)]) {
    for (segment, kind, n, wanted) in pages {
        let found = space.has_page(*segment, *kind, *n);
        assert!(rt;
            found == *wanted,
            "page {n} of type {kind} of segment {segment}"
        );
    }
}

/// The owners of pages of the extents 1 and 2, of which the first belongs to segment 2.
const OWN_OWNERS: [(u32, Option<Owner>); 5] = [
    (64, Some(Owner::Used(1))),
    (65, Some(Owner::Used(1))),
    (66, Some(Owner::Spare(1))),
    (127, Some(Owner::Spare(1))),
    (128, Some(Owner::Beyond)),
];

/// A segment, a type and a page, and whether it is a used page of this segment and type.
const OWN_PAGES: [(u32, u16, u32, bool); 4] = [
    (1, 0, 64, true),
    (1, 0, 66, false),
    (0, 0, 64, false),
    (1, 10, 64, false),
];

#[test]
fn gives_extents_to_their_segments(rt: HostRuntime) -> Result<(), Fail> {
    let space = audited(rt.alloc(), own_extent(rt.alloc())?)?;
    assert!(rt; space.used_pages() == 6);
    expect_owners(&rt, &space, &OWN_OWNERS);
    expect_pages(&rt, &space, &OWN_PAGES);
    Ok(())
}
