//! What is read of sound lists, and how the calls of the source fail.

use super::draft::{
    Draft, FIVE, FRAGMENTS, NULL, header, list, node_of, put_inodes, read, segment,
};
use inode_segments::{Inode, Inodes, read_inode, write_inode};
use page_source::{NoMemory, Page, SparsePages, Stop};
use space_header::{Address, SpaceHeader};
use std::alloc::Global;
use std::marker::Brand;
use std::process::Abort;
use std::sync::ledger::Blank;
use std::test::Fail;

/// A file of so many pages with two inodes, whose calls with these numbers fail.
fn one_page(alloc: Global, size: u32, fails: &[u64]) -> Result<SparsePages, NoMemory> {
    Draft::new(alloc, &header(size))?.sealed(alloc, size, fails)
}

/// Fails the test where others than those two are read.
fn expect_two(rt: &impl Abort, inodes: &Inodes) {
    assert!(rt; inodes.count() == 2);
    assert!(rt; inodes.inode(1) == &segment(2) && inodes.place(1) == address(2, 242));
    assert!(rt; inode_pages(inodes) == [false, true, false, false, false]);
}

#[test]
fn reads_two_inodes(rt: HostRuntime) -> Result<(), Fail> {
    for size in [6, 16448] {
        let mut file = one_page(rt.alloc(), size, &[])?;
        let inodes = read::<SparsePages, Brand>(rt.alloc(), &mut file, &FRAGMENTS, Blank::new(1))?;
        expect_two(&rt, &inodes);
    }
    Ok(())
}

fn address(page: u32, offset: u16) -> Address {
    Address { page, offset }
}

/// Which of some pages are inode pages: 1, 2 and 3, one past the size, and the last that a number names.
fn inode_pages(inodes: &Inodes) -> [bool; 5] {
    [
        inodes.is_inode_page(1),
        inodes.is_inode_page(2),
        inodes.is_inode_page(3),
        inodes.is_inode_page(16384),
        inodes.is_inode_page(0xFFFF_FFFF),
    ]
}

/// The header of a tablespace whose inode pages 2 and 4 stand on INODES_FREE.
fn linked() -> SpaceHeader {
    SpaceHeader {
        next_segment: 6,
        inodes_free: list(2, 2, 4),
        ..header(6)
    }
}

/// A file whose pages 2 and 4 are linked in this order; page 4 has two more inodes.
fn two_pages(alloc: Global) -> Result<SparsePages, NoMemory> {
    let mut draft = Draft::new(alloc, &linked())?;
    put_inodes(&mut draft.second, NULL, node_of(4), 1, 2);
    put_inodes(&mut draft.fourth, node_of(2), NULL, 4, 2);
    draft.sealed(alloc, 6, &[])
}

#[test]
fn follows_two_pages(rt: HostRuntime) -> Result<(), Fail> {
    let mut file = two_pages(rt.alloc())?;
    let inodes = read::<SparsePages, Brand>(rt.alloc(), &mut file, &FIVE, Blank::new(1))?;
    assert!(rt; inodes.count() == 4);
    assert!(rt; inodes.inode(3).id == 5 && inodes.place(2) == address(4, 50));
    assert!(rt; inodes.is_inode_page(2) && inodes.is_inode_page(4));
    Ok(())
}

/// The calls are those for the number of pages, for page 0 and for page 2.
#[test]
fn says_which_call_of_the_source_failed(rt: HostRuntime) -> Result<(), Fail> {
    let alloc = rt.alloc();
    for call in 1..5u64 {
        let mut file = one_page(alloc, 6, &[call])?;
        let answer = read::<SparsePages, Brand>(alloc, &mut file, &FRAGMENTS, Blank::new(1));
        let failed = matches!(answer, Err(Stop::Source));
        assert!(rt; failed == (call < 4), "call {call}");
    }
    Ok(())
}

/// An inode with a list, and with a page in its first slot and its last.
fn full_segment() -> Inode {
    let mut inode = segment(0x0102_0304_0506_0708);
    inode.not_full_used = 9;
    inode.full = list(1, 2, 4);
    inode.slots[0] = 3;
    inode.slots[31] = 0x0A0B_0C0D;
    inode
}

#[test]
fn writes_what_it_reads(rt: HostRuntime) -> Result<(), Fail> {
    let mut page = Page::zeroed(rt.alloc())?;
    let inode = full_segment();
    write_inode(&mut page, 16192, &inode);
    assert!(rt; read_inode(&page, 16192) == inode);
    let pieces: [(usize, &[u8]); 3] = [
        (0, b"\x01\x02\x03\x04\x05\x06\x07\x08\0\0\0\x09\0\0\0\0"),
        (
            44,
            b"\0\0\0\x01\0\0\0\x02\0\x26\0\0\0\x04\0\x26\x05\xD6\x69\xD2\0\0\0\x03\xFF\xFF\xFF\xFF",
        ),
        (188, b"\x0A\x0B\x0C\x0D"),
    ];
    for (at, bytes) in pieces {
        assert!(rt; at <= 192 && page.bytes()[16192 + at..].starts_with(bytes));
    }
    Ok(())
}
