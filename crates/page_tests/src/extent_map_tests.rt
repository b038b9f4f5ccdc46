//! Tablespaces of one descriptor page and of two. What breaks a rule stands in lines of the crate `cases`.

ghost use Rattle.std.specs.Prelude.{◌≡◌, ◌<◌, ◌≤◌, length};

use extent_map::{Extent, Extents, check_head, read_extent, read_extents, write_extent};
use fil_frame::seal;
use page_source::{Fails, NoMemory, Page, PageMap, SparsePages, Steps, Stop};
use space_header::{
    Address, Base, ExtentList, FollowError, Node, SpaceHeader, descriptor_address, follow,
};
use std::alloc::Global;
use std::marker::Brand;
use std::sync::ledger::{Blank, Ledger};
use std::test::Fail;

const NULL: Address = Address {
    page: 0xFFFF_FFFF,
    offset: 0,
};

const ALONE: Node = Node {
    prev: NULL,
    next: NULL,
};

const EMPTY: Base = Base {
    length: 0,
    first: NULL,
    last: NULL,
};

/// The header of a tablespace of format DYNAMIC.
fn header(size: u32, limit: u32) -> SpaceHeader {
    SpaceHeader {
        space: 23,
        size,
        limit,
        flags: 33,
        frag_used: 4,
        next_segment: 3,
        free: EMPTY,
        free_frag: EMPTY,
        full_frag: EMPTY,
        inodes_full: EMPTY,
        inodes_free: EMPTY,
    }
}

/// Writes the descriptor at place `i` of its page.
fn put_descriptor(page: &mut Page, i: usize, node: Node, state: u32, used: u64)
    requires { i < 256 }
{
    let extent = Extent {
        id: 0,
        node,
        state,
        used,
    };
    write_extent(page, 150 + 40 * i, &extent);
}

/// Page 0, whose first four pages are used.
fn first_page(alloc: Global, size: u32, limit: u32) -> Result<Page, NoMemory> {
    let mut page = Page::zeroed(alloc)?;
    header(size, limit).write(&mut page);
    put_descriptor(&mut page, 0, ALONE, 2, 0xF);
    Ok(page)
}

/// Checks the head and reads the extents.
fn read<L: Ledger>(alloc: Global, file: &mut SparsePages, blank: Blank) -> Result<Extents, Stop>
    requires name { blank.name ≡ L.name }
    requires parts { blank.parts ≡ L.parts }
    requires shared { 0 < blank.parts }
{
    let mut steps = Steps::<L>::new(blank);
    let mut page = Page::zeroed(alloc)?;
    let header = check_head(file, 33, &mut page, &mut steps)?;
    read_extents(alloc, file, &header, &mut steps)
}

/// A file of six pages, of which this is page 0 and the others are zeros.
fn file_of(alloc: Global, mut page: Page) -> Result<SparsePages, NoMemory> {
    seal(&mut page, 0, 23, 1, 8);
    let mut held = PageMap::new(alloc);
    held.put(0, page)?;
    Ok(SparsePages::new(6, held, Fails::of(alloc, &[])?))
}

#[test]
fn reads_a_small_tablespace(rt: HostRuntime) -> Result<(), Fail> {
    let alloc = rt.alloc();
    let mut file = file_of(alloc, first_page(alloc, 6, 64)?)?;
    let extents = read::<Brand>(alloc, &mut file, Blank::new(1))?;
    assert!(rt; extents.count() == 1);
    let used = used_pages(&extents, [0, 3, 4, 63, 64]);
    assert!(rt; used == [true, true, false, false, false]);
    let fragments = extents.fragment_pages(alloc)?;
    let first = [false, false, true, true, false];
    assert!(rt; fragments.flags().len() == 64 && fragments.flags().starts_with(&first));
    Ok(())
}

/// Which of these pages are used.
fn used_pages(extents: &Extents, pages: [u32; 5]) -> [bool; 5] {
    let [a, b, c, d, e] = pages;
    [
        extents.is_used(a),
        extents.is_used(b),
        extents.is_used(c),
        extents.is_used(d),
        extents.is_used(e),
    ]
}

/// The calls are those for the number of pages, for page 0 twice, and for page 16384.
#[test]
fn says_which_call_of_the_source_failed(rt: HostRuntime) -> Result<(), Fail> {
    let alloc = rt.alloc();
    for call in 1..6u64 {
        let mut file = large(alloc, &[call])?;
        let answer = read::<Brand>(alloc, &mut file, Blank::new(1));
        let failed = matches!(answer, Err(Stop::Source));
        assert!(rt; failed == (call < 5), "call {call}");
    }
    Ok(())
}

#[test]
fn writes_what_it_reads(rt: HostRuntime) -> Result<(), Fail> {
    let mut page = Page::zeroed(rt.alloc())?;
    let extent = Extent {
        id: 0x0102_0304_0506_0708,
        node: Node {
            prev: descriptor_address(0),
            next: NULL,
        },
        state: 4,
        used: 0x8000_0000_0000_000F,
    };
    write_extent(&mut page, 16344, &extent);
    assert!(rt; read_extent(&page, 16344) == extent);
    assert!(rt;
        &page.bytes()[16344..]
            == [
                1, 2, 3, 4, 5, 6, 7, 8, 0, 0, 0, 0, 0, 158, 255, 255, 255, 255, 0, 0, 0, 0, 0, 4,
                0xAA, 255, 255, 255, 255, 255, 255, 255, 255, 255, 255, 255, 255, 255, 255, 0xBF
            ]
            .as_slice()
    );
    Ok(())
}

/// The node of extent `i` where the extents 1 to 255 are linked in their order.
fn node_in_row(i: usize) -> Node
    requires { (1 ≤ i) × (i < 256) }
{
    let (prev, next) = (
        descriptor_address(i as u32 - 1),
        descriptor_address(i as u32 + 1),
    );
    Node {
        prev: if i == 1 { NULL } else { prev },
        next: if i == 255 { NULL } else { next },
    }
}

/// Page 16384, two pages of whose extent are used.
fn second_page(alloc: Global) -> Result<Page, NoMemory> {
    let mut page = Page::zeroed(alloc)?;
    put_descriptor(&mut page, 0, ALONE, 2, 3);
    seal(&mut page, 16384, 23, 1, 9);
    Ok(page)
}

/// A tablespace of 16,448 pages: page 0, and page 16384 with a descriptor of its own.
fn large(alloc: Global, fails: &[u64]) -> Result<SparsePages, NoMemory> {
    let mut page = first_page(alloc, 16448, 16448)?;
    for i in 1..256usize {
        put_descriptor(&mut page, i, node_in_row(i), 1, 0);
    }
    seal(&mut page, 0, 23, 1, 8);
    let second = second_page(alloc)?;
    let mut held = PageMap::new(alloc);
    held.put(0, page)?;
    held.put(16384, second)?;
    Ok(SparsePages::new(16448, held, Fails::of(alloc, fails)?))
}

fn followed<L: Ledger>(
    alloc: Global,
    base: &Base,
    nodes: &[Node],
    blank: Blank,
) -> Result<ExtentList, FollowError>
    requires few { length nodes.now ≤ 65536 }
    requires name { blank.name ≡ L.name }
    requires parts { blank.parts ≡ L.parts }
    requires shared { 0 < blank.parts }
{
    let mut steps = Steps::<L>::new(blank);
    follow(alloc, base, nodes, &mut steps)
}

#[test]
fn reads_two_descriptor_pages(rt: HostRuntime) -> Result<(), Fail> {
    let alloc = rt.alloc();
    let mut file = large(alloc, &[])?;
    let extents = read::<Brand>(alloc, &mut file, Blank::new(1))?;
    assert!(rt; extents.count() == 257);
    assert!(rt; extents.extent(256).state == 2);
    let used = used_pages(&extents, [4, 16384, 16385, 16386, 16448]);
    assert!(rt; used == [false, true, true, false, false]);
    Ok(())
}

/// The extents 1 to 255.
#[test]
fn reads_a_list_of_255_extents(rt: HostRuntime) -> Result<(), Fail> {
    let alloc = rt.alloc();
    let mut file = large(alloc, &[])?;
    let extents = read::<Brand>(alloc, &mut file, Blank::new(1))?;
    assert!(rt; extents.nodes().len() <= 65536);
    let free = Base {
        length: 255,
        first: descriptor_address(1),
        last: descriptor_address(255),
    };
    let list = followed::<Brand>(alloc, &free, extents.nodes(), Blank::new(1))?;
    assert!(rt; list.items().len() == 255);
    Ok(())
}
