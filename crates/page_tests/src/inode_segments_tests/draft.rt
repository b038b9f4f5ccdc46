//! Tablespaces with one inode page or two, and how they are read.

ghost use Rattle.std.specs.Prelude.{◌≡◌, ◌+◌, ◌*◌, ◌<◌, ◌≤◌};

use fil_frame::seal;
use inode_segments::{Inode, Inodes, read_inodes, write_inode};
use page_source::{
    Fails, NoMemory, Page, PageMap, PageSource, Rule, SparsePages, Steps, Stop, read_be,
};
use space_header::{Address, Base, Node, SpaceHeader, write_node};
use std::alloc::Global;
use std::sync::ledger::{Blank, Ledger};

pub const NULL: Address = Address {
    page: 0xFFFF_FFFF,
    offset: 0,
};

pub const EMPTY: Base = Base {
    length: 0,
    first: NULL,
    last: NULL,
};

/// Pages 2 and 3 are fragment pages.
pub const FRAGMENTS: [bool; 4] = [false, false, true, true];

/// Page 4 is one too.
pub const FIVE: [bool; 5] = [false, false, true, true, true];

/// The address of the list node of an inode page.
pub fn node_of(page: u32) -> Address {
    Address { page, offset: 38 }
}

/// The base of a list from one page to another.
pub fn list(length: u32, first: u32, last: u32) -> Base {
    Base {
        length,
        first: node_of(first),
        last: node_of(last),
    }
}

pub fn segment(id: u64) -> Inode {
    Inode {
        id,
        not_full_used: 0,
        free: EMPTY,
        not_full: EMPTY,
        full: EMPTY,
        magic: 97_937_874,
        slots: [0xFFFF_FFFF; 32],
    }
}

/// The header of a tablespace whose inode page 2 stands on INODES_FREE.
pub fn header(size: u32) -> SpaceHeader {
    SpaceHeader {
        space: 23,
        size,
        limit: 64,
        flags: 33,
        frag_used: 4,
        next_segment: 3,
        free: EMPTY,
        free_frag: EMPTY,
        full_frag: EMPTY,
        inodes_full: EMPTY,
        inodes_free: list(1, 2, 2),
    }
}

/// Makes this an inode page between these addresses, with the inodes of segments `first` and so on.
pub fn put_inodes(page: &mut Page, prev: Address, next: Address, first: u64, count: usize)
    requires few { count ≤ 85 }
    requires small { first + 85 < 4294967296 }
{
    write_node(page, 38, &Node { prev, next });
    for k in 0..count {
        write_inode(page, 50 + 192 * k, &segment(first + k as u64));
    }
}

/// A page of zeros, and one with two inodes, that of segment 1 and that of segment 2.
pub fn two_inodes(alloc: Global) -> Result<Page, NoMemory> {
    let mut page = Page::zeroed(alloc)?;
    put_inodes(&mut page, NULL, NULL, 1, 2);
    Ok(page)
}

/// A tablespace of six pages with this page 0, this inode page 2, and this page 4.
#[derive(Drop)]
pub struct Draft {
    pub head: Page,
    pub second: Page,
    pub fourth: Page,
}

impl Draft {
    pub fn new(alloc: Global, header: &SpaceHeader) -> Result<Draft, NoMemory> {
        let mut head = Page::zeroed(alloc)?;
        header.write(&mut head);
        Ok(Draft {
            head,
            second: two_inodes(alloc)?,
            fourth: Page::zeroed(alloc)?,
        })
    }

    /// The pages, sealed.
    fn pages(self, alloc: Global) -> Result<PageMap, NoMemory> {
        let mut held = PageMap::new(alloc);
        put_sealed(&mut held, 0, self.head, 8)?;
        put_sealed(&mut held, 2, self.second, 3)?;
        put_sealed(&mut held, 4, self.fourth, 3)?;
        put_sealed(&mut held, 3, Page::zeroed(alloc)?, 17855)?;
        Ok(held)
    }

    /// The pages in a file of so many.
    pub fn sealed(self, alloc: Global, pages: u32, fails: &[u64]) -> Result<SparsePages, NoMemory> {
        let held = self.pages(alloc)?;
        Ok(SparsePages::new(pages, held, Fails::of(alloc, fails)?))
    }
}

fn put_sealed(held: &mut PageMap, n: u32, mut page: Page, kind: u16) -> Result<(), NoMemory> {
    seal(&mut page, n, 23, 1, kind);
    held.put(n, page)
}

/// Reads page 0 and then the inodes.
pub fn read<S: PageSource, L: Ledger>(
    alloc: Global,
    source: &mut S,
    fragments: &[bool],
    blank: Blank,
) -> Result<Inodes, Stop>
    requires name { blank.name ≡ L.name }
    requires parts { blank.parts ≡ L.parts }
    requires shared { 0 < blank.parts }
{
    let mut steps = Steps::<L>::new(blank);
    let mut page = Page::zeroed(alloc)?;
    let pages = source.pages()?;
    if pages == 0 {
        return Err(Rule::FileSize.at(0).into());
    }
    source.fetch(0, &mut page, &mut steps)?;
    let header = SpaceHeader::read(&page);
    if read_be::<4>(&page, 34) as u32 != header.space {
        return Err(Rule::HeadSpace.at(0).into());
    }
    if header.size > pages || header.size > 4_194_304 {
        return Err(Rule::HeadSize.at(0).into());
    }
    read_inodes(alloc, source, &header, fragments, &mut steps)
}
