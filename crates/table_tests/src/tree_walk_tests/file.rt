//! The files of the plans.

use super::plan::{Piece, Plan};
use extent_map::{Extent, write_extent};
use fil_frame::seal;
use inode_segments::{Inode, write_inode};
use page_source::{ByteList, ChangingPages, Page, write_be};
use space_header::{Address, Base, Node, SpaceHeader, write_node};
use std::alloc::Global;
use std::process::Abort;
use std::test::Fail;

const NULL: Address = Address {
    page: 0xFFFF_FFFF,
    offset: 0,
};

const EMPTY: Base = Base {
    length: 0,
    first: NULL,
    last: NULL,
};

const ALONE: Node = Node {
    prev: NULL,
    next: NULL,
};

fn one(page: u32, offset: u16) -> Base {
    let address = Address { page, offset };
    Base {
        length: 1,
        first: address,
        last: address,
    }
}

/// Page 0, all of whose pages are given out one by one.
fn put_head(page: &mut Page, plan: &Plan) {
    let header = SpaceHeader {
        space: 23,
        size: plan.pages,
        limit: 64,
        flags: 33,
        frag_used: plan.pages,
        next_segment: (plan.segments.len() as u64).wrapping_add(1),
        free: EMPTY,
        free_frag: one(0, 158),
        full_frag: EMPTY,
        inodes_full: EMPTY,
        inodes_free: one(2, 38),
    };
    header.write(page);
    write_extent(
        page,
        150,
        &Extent {
            id: 0,
            node: ALONE,
            state: 2,
            used: (1 << (plan.pages % 64)) - 1,
        },
    );
}

fn segment(id: u64, pages: [u32; 3]) -> Inode {
    let mut slots = [0xFFFF_FFFF; 32];
    slots[0] = pages[0];
    slots[1] = pages[1];
    slots[2] = pages[2];
    Inode {
        id,
        not_full_used: 0,
        free: EMPTY,
        not_full: EMPTY,
        full: EMPTY,
        magic: 97_937_874,
        slots,
    }
}

/// The inode page.
fn put_inodes(rt: &impl Abort, page: &mut Page, plan: &Plan) {
    write_node(page, 38, &ALONE);
    let mut at = 50;
    let mut id = 0u64;
    for pages in plan.segments {
        assert!(rt; at <= 16000);
        id = id.wrapping_add(1);
        write_inode(page, at, &segment(id, *pages));
        at += 192;
    }
}

fn put(rt: &impl Abort, page: &mut Page, piece: Piece<'_>) {
    let (at, bytes) = piece;
    assert!(rt; at <= 16384 && bytes.len() <= 16384 - at);
    page.put_bytes(at, bytes);
}

/// The pages, with these edits of the pages from 3 on.
pub fn bytes_with(
    rt: &impl Abort,
    alloc: Global,
    plan: &Plan,
    edits: &[(u32, Piece<'_>)],
) -> Result<ByteList, Fail> {
    let mut bytes = ByteList::new(alloc);
    let mut page = Page::zeroed(alloc)?;
    put_head(&mut page, plan);
    seal(&mut page, 0, 23, 1, 8);
    bytes.extend(page.bytes())?;
    page.clear();
    seal(&mut page, 1, 23, 1, 5);
    bytes.extend(page.bytes())?;
    page.clear();
    put_inodes(rt, &mut page, plan);
    seal(&mut page, 2, 23, 1, 3);
    bytes.extend(page.bytes())?;
    let mut n = 2u32;
    for pieces in plan.tree {
        n = n.wrapping_add(1);
        page.clear();
        write_be::<4>(&mut page, 16372, 0x0070_0063);
        for piece in *pieces {
            put(rt, &mut page, *piece);
        }
        for (edited, piece) in edits {
            if *edited == n {
                put(rt, &mut page, *piece);
            }
        }
        seal(&mut page, n, 23, 1, 17855);
        bytes.extend(page.bytes())?;
    }
    Ok(bytes)
}

/// The pages as a file that tells nothing.
pub fn file_with(
    rt: &impl Abort,
    alloc: Global,
    plan: &Plan,
    edits: &[(u32, Piece<'_>)],
) -> Result<ChangingPages, Fail> {
    let bytes = bytes_with(rt, alloc, plan, edits)?;
    Ok(ChangingPages::new(bytes, ByteList::new(alloc), 1000))
}
