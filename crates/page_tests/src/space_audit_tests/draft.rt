//! Small tablespaces, page by page.

use extent_map::{Extent, write_extent};
use fil_frame::seal;
use inode_segments::{Inode, write_inode};
use page_source::{Fails, NoMemory, Page, PageMap, SparsePages, write_be};
use space_header::{Address, Base, Node, SpaceHeader, write_node};
use std::alloc::Global;

pub const NULL: Address = Address {
    page: 0xFFFF_FFFF,
    offset: 0,
};

pub const EMPTY: Base = Base {
    length: 0,
    first: NULL,
    last: NULL,
};

pub const ALONE: Node = Node {
    prev: NULL,
    next: NULL,
};

/// A list with one member.
pub fn one(page: u32, offset: u16) -> Base {
    let address = Address { page, offset };
    Base {
        length: 1,
        first: address,
        last: address,
    }
}

/// The header of a tablespace whose extent 0 stands on FREE_FRAG and whose inode page 2 stands on
/// INODES_FREE.
pub fn header(size: u32, limit: u32) -> SpaceHeader {
    SpaceHeader {
        space: 23,
        size,
        limit,
        flags: 33,
        frag_used: 4,
        next_segment: 3,
        free: EMPTY,
        free_frag: one(0, 158),
        full_frag: EMPTY,
        inodes_full: EMPTY,
        inodes_free: one(2, 38),
    }
}

pub fn extent(state: u32, used: u64) -> Extent {
    Extent {
        id: 0,
        node: ALONE,
        state,
        used,
    }
}

/// A segment with one page in a slot, or none.
pub fn segment(id: u64, slot: u32) -> Inode {
    let mut slots = [0xFFFF_FFFF; 32];
    slots[0] = slot;
    Inode {
        id,
        not_full_used: 0,
        free: EMPTY,
        not_full: EMPTY,
        full: EMPTY,
        magic: 97_937_874,
        slots,
    }
}

/// A tablespace of four pages that are used: page 0, the bitmap page, the inode page and an index page of segment 1. Of
/// the second and the last nothing but the frame is written.
#[derive(Drop)]
pub struct Draft {
    pub head: Page,
    pub inodes: Page,
}

impl Draft {
    pub fn new(alloc: Global, header: &SpaceHeader) -> Result<Draft, NoMemory> {
        Ok(Draft {
            head: head_of(alloc, header)?,
            inodes: inodes(alloc)?,
        })
    }

    /// Puts a number of 4 bytes at a byte of page 0, or of page 2.
    pub fn put(&mut self, page: u32, at: u16, number: u32) {
        let page = if page == 0 {
            &mut self.head
        } else {
            &mut self.inodes
        };
        write_be::<4>(page, usize::from(at).min(16380), u64::from(number));
    }

    /// The pages, sealed.
    pub fn pages(self, alloc: Global) -> Result<PageMap, NoMemory> {
        let mut held = PageMap::new(alloc);
        put_sealed(&mut held, 0, self.head, 8)?;
        put_sealed(&mut held, 2, self.inodes, 3)?;
        put_page(alloc, &mut held, 1, 5)?;
        put_page(alloc, &mut held, 3, 17855)?;
        Ok(held)
    }

    /// The pages in a file of so many, whose calls with these numbers fail.
    pub fn file(self, alloc: Global, pages: u32, fails: &[u64]) -> Result<SparsePages, NoMemory> {
        file_of(alloc, pages, self.pages(alloc)?, fails)
    }
}

fn head_of(alloc: Global, header: &SpaceHeader) -> Result<Page, NoMemory> {
    let mut head = Page::zeroed(alloc)?;
    header.write(&mut head);
    write_extent(&mut head, 150, &extent(2, 15));
    Ok(head)
}

fn inodes(alloc: Global) -> Result<Page, NoMemory> {
    let mut inodes = Page::zeroed(alloc)?;
    write_node(&mut inodes, 38, &ALONE);
    write_inode(&mut inodes, 50, &segment(1, 3));
    write_inode(&mut inodes, 242, &segment(2, 0xFFFF_FFFF));
    Ok(inodes)
}

pub fn put_sealed(held: &mut PageMap, n: u32, mut page: Page, kind: u16) -> Result<(), NoMemory> {
    seal(&mut page, n, 23, 1, kind);
    held.put(n, page)
}

/// Puts a page of this type on which nothing but its frame is written.
pub fn put_page(alloc: Global, held: &mut PageMap, n: u32, kind: u16) -> Result<(), NoMemory> {
    put_sealed(held, n, Page::zeroed(alloc)?, kind)
}

/// A file of so many pages with these in it, whose calls with these numbers fail.
pub fn file_of(
    alloc: Global,
    pages: u32,
    held: PageMap,
    fails: &[u64],
) -> Result<SparsePages, NoMemory> {
    Ok(SparsePages::new(pages, held, Fails::of(alloc, fails)?))
}
