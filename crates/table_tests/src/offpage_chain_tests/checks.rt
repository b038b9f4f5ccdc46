//! The checks of a chain on the pages 4 to 6 of an audited space, over a file that tells nothing. What breaks a rule
//! stands in lines of the crate `cases`.

ghost use Rattle.std.specs.Prelude.{◌≡◌, ◌<◌, length, IfOk};
ghost use Rattle.column_values.specs.Utf8Reader.{CountsUpTo};

use super::{FIL_NULL, VALUE, chain};
use column_values::Utf8;
use extent_map::{Extent, write_extent};
use fil_frame::seal;
use inode_segments::{Inode, write_inode};
use offpage_chain::check_chain;
use page_source::{ByteList, ChangingPages, Halt, NoMemory, Page, Rule, Steps, Stop};
use space_audit::{Marks, Space, audit};
use space_header::{Address, Base, Node, SpaceHeader, write_node};
use std::alloc::Global;
use std::marker::Brand;
use std::sync::ledger::{Blank, Ledger};
use std::test::Fail;

const NULL: Address = Address {
    page: FIL_NULL,
    offset: 0,
};

const EMPTY: Base = Base {
    length: 0,
    first: NULL,
    last: NULL,
};

const ALONE: Node = Node {
    prev: NULL,
    next: NULL,
};

/// A list with one member.
fn one(page: u32, offset: u16) -> Base {
    let address = Address { page, offset };
    Base {
        length: 1,
        first: address,
        last: address,
    }
}

/// A space of eight pages, whose pages 0 to 6 are used.
fn header() -> SpaceHeader {
    SpaceHeader {
        space: 23,
        size: 8,
        limit: 64,
        flags: 33,
        frag_used: 7,
        next_segment: 3,
        free: EMPTY,
        free_frag: one(0, 158),
        full_frag: EMPTY,
        inodes_full: EMPTY,
        inodes_free: one(2, 38),
    }
}

const EXTENT: Extent = Extent {
    id: 0,
    node: ALONE,
    state: 2,
    used: 127,
};

/// The segments: the first has page 3, the second the pages 4 to 6.
fn segment(id: u64, pages: [u32; 3]) -> Inode {
    let mut slots = [FIL_NULL; 32];
    slots[..3].copy_from_slice(&pages);
    Inode {
        id,
        not_full_used: 0,
        free: EMPTY,
        not_full: EMPTY,
        full: EMPTY,
        magic: 97_937_874,
        slots,
    }
}

/// The pages of the space.
fn space_pages(alloc: Global) -> Result<ByteList, NoMemory> {
    let mut file = ByteList::new(alloc);
    let mut page = Page::zeroed(alloc)?;
    for (n, kind) in [
        (0, 8),
        (1, 5),
        (2, 3),
        (3, 17855),
        (4, 10),
        (5, 10),
        (6, 10),
        (7, 0),
    ] {
        page.clear();
        if n == 0 {
            header().write(&mut page);
            write_extent(&mut page, 150, &EXTENT);
        }
        if n == 2 {
            write_node(&mut page, 38, &ALONE);
            write_inode(&mut page, 50, &segment(1, [3, FIL_NULL, FIL_NULL]));
            write_inode(&mut page, 242, &segment(2, [4, 5, 6]));
        }
        seal(&mut page, n, 23, 1, kind);
        file.extend(page.bytes())?;
    }
    Ok(file)
}

/// The space, audited.
fn space<L: Ledger>(alloc: Global, blank: Blank) -> Result<Space, Stop>
    requires name { blank.name ≡ L.name }
    requires parts { blank.parts ≡ L.parts }
    requires shared { 0 < blank.parts }
{
    let mut file = ChangingPages::new(space_pages(alloc)?, ByteList::new(alloc), 100);
    audit(alloc, &mut file, 33, &mut Steps::<L>::new(blank))
}

/// The parts of a value of 40,000 bytes on the pages 4, 5 and 6.
const WHOLE: [(u32, u32); 3] = [(16_330, 5), (16_330, 6), (7_340, FIL_NULL)];

/// A mark for each page of the space, of which this one is set.
fn marks_with(alloc: Global, space: &Space, taken: u32) -> Result<Marks, NoMemory>
    ensures { IfOk result (λ marks. length marks ≡ space.now.size) }
{
    let mut marks = Marks::new(alloc, space.size())?;
    if taken < space.size() {
        marks.mark(taken);
    }
    Ok(marks)
}

/// Which of the pages 4 to 6 are marked, where there are eight.
fn marked(space: &Space, marks: &Marks) -> [bool; 3]
    requires { length marks.now ≡ space.now.size }
{
    if space.size() == 8 {
        [marks.has(4), marks.has(5), marks.has(6)]
    } else {
        [false; 3]
    }
}

/// What the checks of the chain answer if this page was taken before, and which marks they leave on pages 4 to 6.
fn check<L: Ledger>(
    alloc: Global,
    space: &Space,
    taken: u32,
    text: &mut Utf8,
    blank: Blank,
) -> Result<(Result<u32, Halt>, [bool; 3]), NoMemory>
    requires name { blank.name ≡ L.name }
    requires parts { blank.parts ≡ L.parts }
    requires shared { 0 < blank.parts }
    requires count { CountsUpTo 16384 text.old }
{
    let mut source = ChangingPages::new(chain(alloc, WHOLE)?, ByteList::new(alloc), 100);
    let mut page = Page::zeroed(alloc)?;
    let mut marks = marks_with(alloc, space, taken)?;
    let answer = check_chain(
        &mut source,
        space,
        1,
        3,
        &VALUE,
        text,
        &mut marks,
        &mut page,
        &mut Steps::<L>::new(blank),
    );
    Ok((answer, marked(space, &marks)))
}

fn broken(rule: Rule, page: u32) -> Result<u32, Halt> {
    Err(Halt::Broken(rule.at(page)))
}

#[test]
fn checks_a_chain(rt: HostRuntime) -> Result<(), Fail> {
    let alloc = rt.alloc();
    let space = space::<Brand>(alloc, Blank::new(1))?;
    for (taken, limit, wanted) in [
        (3, 40_000, Ok(3)),
        (5, 40_000, broken(Rule::ChainPlace, 4)),
        (3, 39_999, broken(Rule::TextSpelling, 3)),
    ] {
        let mut text = Utf8::limit(limit);
        let (answer, marked) = check::<Brand>(alloc, &space, taken, &mut text, Blank::new(1))?;
        assert!(rt;
            answer == wanted,
            "{limit} characters, page {taken} was taken"
        );
        assert!(rt; wanted.is_err() || marked == [true; 3]);
    }
    Ok(())
}
