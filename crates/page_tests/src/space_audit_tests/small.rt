//! A tablespace of one extent.

use super::answers::{audited, expect_owners};
use super::draft::{Draft, header};
use page_source::{NoMemory, SparsePages, Stop};
use space_audit::{Owner, Space};
use space_header::Address;
use std::alloc::Global;
use std::process::Abort;
use std::test::Fail;

/// The owners of the pages, and of one that isn't there.
const OWNERS: [(u32, Option<Owner>); 7] = [
    (0, Some(Owner::System)),
    (1, Some(Owner::System)),
    (2, Some(Owner::InodePage)),
    (3, Some(Owner::Used(0))),
    (4, Some(Owner::FragmentFree)),
    (5, Some(Owner::FragmentFree)),
    (6, None),
];

/// The segments at some addresses.
const SEGMENTS: [(u32, u16, Option<u32>); 6] = [
    (2, 50, Some(0)),
    (2, 242, Some(1)),
    (2, 434, None),
    (2, 51, None),
    (3, 50, None),
    (1, 65330, None),
];

/// Fails the test where one of these addresses leads to another segment.
fn expect_segments(rt: &impl Abort, space: &Space, segments: &[(u32, u16, Option<u32>)]) {
    for (page, offset, wanted) in segments {
        let found = segment_at(space, *page, *offset);
        assert!(rt; found == *wanted, "{offset} of page {page}");
    }
}

fn segment_at(space: &Space, page: u32, offset: u16) -> Option<u32> {
    space.segment_at(Address { page, offset })
}

/// The tablespace in a file of so many pages, whose calls with these numbers fail.
fn small(alloc: Global, pages: u32, fails: &[u64]) -> Result<SparsePages, NoMemory> {
    Draft::new(alloc, &header(6, 64))?.file(alloc, pages, fails)
}

#[test]
fn audits_a_small_tablespace(rt: HostRuntime) -> Result<(), Fail> {
    let space = audited(rt.alloc(), small(rt.alloc(), 7, &[])?)?;
    assert!(rt; (space.size(), space.space_id()) == (6, 23));
    assert!(rt; (space.used_pages(), space.segment_count()) == (4, 2));
    assert!(rt; space.kind(3) == 17855);
    expect_owners(&rt, &space, &OWNERS);
    expect_segments(&rt, &space, &SEGMENTS);
    Ok(())
}

/// A call for the number of pages, two for page 0, one for the inode page, and then the pages 0, 1
/// and 3.
#[test]
fn says_which_call_of_the_source_failed(rt: HostRuntime) -> Result<(), Fail> {
    for call in 1..9u64 {
        let file = small(rt.alloc(), 6, &[call])?;
        let failed = matches!(audited(rt.alloc(), file), Err(Stop::Source));
        assert!(rt; failed == (call < 8), "call {call}");
    }
    Ok(())
}
