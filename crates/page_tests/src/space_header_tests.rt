//! Lists that are linked and lists that aren't, and a header that is read and written.

ghost use Rattle.std.specs.Prelude.{◌≡◌, ◌<◌, ◌≤◌, length};

use page_source::{NoMemory, Page, Steps};
use space_header::{
    Address, Base, ExtentList, FollowError, Node, SpaceHeader, descriptor_address, follow,
    read_base, read_node, write_base, write_node,
};
use std::alloc::Global;
use std::marker::Brand;
use std::sync::ledger::{Blank, Ledger};
use std::test::Fail;

const NULL: Address = Address {
    page: 0xFFFF_FFFF,
    offset: 0,
};

fn followed<L: Ledger>(
    alloc: Global,
    base: &Base,
    nodes: &[Node],
    blank: Blank,
) -> Result<ExtentList, FollowError>
    requires few { length nodes.now ≤ 65536 }
    requires name { blank.name ≡ L.name }
    requires parts { blank.parts ≡ L.parts }
    requires shared { 0 < blank.parts }
{
    let mut steps = Steps::<L>::new(blank);
    follow(alloc, base, nodes, &mut steps)
}

/// The node between these addresses.
fn between(prev: Address, next: Address) -> Node {
    Node { prev, next }
}

/// Extents 2, 0 and 3, of four.
fn linked() -> (Base, [Node; 4]) {
    let base = Base {
        length: 3,
        first: descriptor_address(2),
        last: descriptor_address(3),
    };
    let nodes = [
        between(descriptor_address(2), descriptor_address(3)),
        between(NULL, NULL),
        between(NULL, descriptor_address(0)),
        between(descriptor_address(0), NULL),
    ];
    (base, nodes)
}

#[test]
fn follows_a_list(rt: HostRuntime) -> Result<(), Fail> {
    let (base, nodes) = linked();
    let list = followed::<Brand>(rt.alloc(), &base, &nodes, Blank::new(1))?;
    assert!(rt; list.items() == [2, 0, 3].as_slice());
    let none = Base {
        length: 0,
        first: NULL,
        last: NULL,
    };
    let list = followed::<Brand>(rt.alloc(), &none, &[], Blank::new(1))?;
    assert!(rt; list.items() == [].as_slice());
    Ok(())
}

/// Whether these nodes are no list of this base.
fn is_refused(alloc: Global, base: &Base, nodes: &[Node; 4]) -> bool {
    let answer = followed::<Brand>(alloc, base, nodes, Blank::new(1));
    matches!(answer, Err(FollowError::ChainBroken))
}

/// A byte at which no node stands, and a node on a page past the first.
const OFF: Address = Address {
    page: 0,
    offset: 159,
};

const NEXT_PAGE: Address = Address {
    page: 1,
    offset: 158,
};

#[test]
fn refuses_another_base(rt: HostRuntime) {
    let (good, nodes) = linked();
    let (second, last) = (descriptor_address(2), descriptor_address(3));
    for (length, first, last) in [
        (2, second, last),
        (4, second, last),
        (5, second, last),
        (3, NULL, last),
        (3, NEXT_PAGE, last),
        (3, second, NULL),
        (3, second, descriptor_address(0)),
    ] {
        let base = Base {
            length,
            first,
            last,
        };
        assert!(rt; is_refused(rt.alloc(), &base, &nodes), "{base:?}");
    }
    assert!(rt; !is_refused(rt.alloc(), &good, &nodes));
}

/// The next address of extent 0: itself, a neighbour, extent 1, past the end, no node, no extent.
#[test]
fn refuses_another_next_address(rt: HostRuntime) {
    let (base, mut nodes) = linked();
    for next in [
        descriptor_address(0),
        descriptor_address(2),
        descriptor_address(1),
        descriptor_address(4),
        OFF,
        NEXT_PAGE,
        NULL,
    ] {
        nodes[0].next = next;
        assert!(rt; is_refused(rt.alloc(), &base, &nodes), "{next:?}");
    }
}

/// The previous address of a node: none, itself, the one after it.
#[test]
fn refuses_another_previous_address(rt: HostRuntime) {
    let (base, mut nodes) = linked();
    for prev in [NULL, descriptor_address(0), descriptor_address(3)] {
        nodes[0].prev = prev;
        assert!(rt; is_refused(rt.alloc(), &base, &nodes), "{prev:?}");
    }
}

/// The nodes of 257 extents, of which 1 to 255 are linked in order.
fn rising_nodes(alloc: Global) -> Result<Vec<Node>, NoMemory> {
    let mut nodes = Vec::new(alloc);
    for e in 0..257u32 {
        let prev = match e {
            2..=255 => descriptor_address(e - 1),
            _ => NULL,
        };
        let next = match e {
            1..=254 => descriptor_address(e + 1),
            _ => NULL,
        };
        nodes.push(between(prev, next))?;
    }
    Ok(nodes)
}

#[test]
fn follows_255_extents(rt: HostRuntime) -> Result<(), Fail> {
    let base = Base {
        length: 255,
        first: Address {
            page: 0,
            offset: 198,
        },
        last: Address {
            page: 0,
            offset: 10358,
        },
    };
    let nodes = rising_nodes(rt.alloc())?;
    assert!(rt; nodes.len() == 257);
    let list = followed::<Brand>(rt.alloc(), &base, &nodes, Blank::new(1))?;
    assert!(rt; list.items().len() == 255);
    assert!(rt; (list.items().first(), list.items().last()) == (Some(&1), Some(&255)));
    Ok(())
}

/// A header whose lists are all this one.
fn header_with(base: Base) -> SpaceHeader {
    SpaceHeader {
        space: 23,
        size: 64,
        limit: 64,
        flags: 33,
        frag_used: 4,
        next_segment: 0x0102_0304_0506_0708,
        free: base,
        free_frag: base,
        full_frag: base,
        inodes_full: base,
        inodes_free: base,
    }
}

#[test]
fn writes_the_header_that_it_reads(rt: HostRuntime) -> Result<(), Fail> {
    let mut page = Page::zeroed(rt.alloc())?;
    let (base, _) = linked();
    let header = header_with(base);
    header.write(&mut page);
    assert!(rt; SpaceHeader::read(&page) == header);
    assert!(rt;
        page.bytes()[38..].starts_with(
            b"\0\0\0\x17\0\0\0\0\0\0\0\x40\0\0\0\x40\0\0\0\x21\0\0\0\x04\0\0\0\x03\0\0\0\0\0\xEE\0\0\0\0\x01\x16"
        )
    );
    Ok(())
}

#[test]
fn writes_what_it_reads(rt: HostRuntime) -> Result<(), Fail> {
    let mut page = Page::zeroed(rt.alloc())?;
    let (base, nodes) = linked();
    write_base(&mut page, 200, &base);
    write_node(&mut page, 16372, &nodes[0]);
    assert!(rt; read_base(&page, 200) == base && read_node(&page, 16372) == nodes[0]);
    Ok(())
}
