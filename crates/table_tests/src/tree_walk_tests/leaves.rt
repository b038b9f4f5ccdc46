//! A cursor over the leaves of a file that tells nothing.

ghost use Rattle.std.specs.Prelude.{◌≡◌, ◌<◌, false};

use super::file::file_with;
use super::plan::TWO_LEVELS;
use super::walks::{audited, walked};
use page_source::{ByteList, ChangingPages, FIL_NULL, Fault, Halt, Page, Rule, Steps, write_be};
use std::alloc::Global;
use std::marker::Brand;
use std::process::Abort;
use std::sync::ledger::{Blank, Ledger};
use std::test::Fail;
use tree_walk::{LeafCursor, TreeEnds};

const SUPREMUM: usize = 112;

/// How many rows the cursor gives, on what page it ends, the last origin, and the end.
type Found = (u32, u32, usize, Result<Option<usize>, Halt>);

/// The first of two leaves: its next field, its records, and where the last of them leads. The second one is page 1,
/// with a record at 126, and none behind it. Then how many leaves there should be, and what the cursor gives.
type Case = (u32, &'static [usize], usize, u32, Found);

const TWO: &[usize] = &[126, 200];

const NONE: &[usize] = &[];

/// No such leaf follows the first, or the second.
const FIRST: Halt = Halt::Broken(Fault {
    rule: Rule::Sibling,
    page: 0,
});

const SECOND: Halt = Halt::Broken(Fault {
    rule: Rule::Sibling,
    page: 1,
});

/// The records of the first leaf lead to no record.
const CHAIN: Halt = Halt::Broken(Fault {
    rule: Rule::RecordChain,
    page: 0,
});

const CASES: [Case; 8] = [
    (1, TWO, SUPREMUM, 2, (3, 1, 126, Ok(None))),
    (1, TWO, SUPREMUM, 1, (2, 0, 200, Err(FIRST))),
    (1, TWO, SUPREMUM, 3, (3, 1, 126, Err(SECOND))),
    (0, TWO, SUPREMUM, 3, (6, 0, 200, Err(FIRST))),
    (1, TWO, 50, 2, (2, 0, 200, Err(CHAIN))),
    (9, TWO, SUPREMUM, 2, (2, 0, 200, Err(Halt::Source))),
    (1, NONE, SUPREMUM, 2, (1, 1, 126, Ok(None))),
    (FIL_NULL, NONE, SUPREMUM, 1, (0, 0, 0, Ok(None))),
];

/// The ends of a tree that was walked, as if page 0 were its first leaf.
fn ends_from_zero(rt: &impl Abort, alloc: Global) -> Result<TreeEnds, Fail> {
    let mut file = file_with(rt, alloc, &TWO_LEVELS, &[])?;
    let space = audited::<ChangingPages, Brand>(alloc, &mut file, Blank::new(1))?;
    let mut ends = walked::<ChangingPages, Brand>(alloc, &space, &mut file, Blank::new(1))??;
    ends.first_leaf = 0;
    Ok(ends)
}

fn put_next(rt: &impl Abort, page: &mut Page, from: usize, to: usize) {
    assert!(rt; from >= 2 && from <= 16384 && to <= 16384);
    write_be::<2>(page, from - 2, ((to + 65536 - from) % 65536) as u64);
}

fn put_leaf(
    rt: &impl Abort,
    file: &mut ByteList,
    page: &mut Page,
    next: u32,
    origins: &[usize],
    end: usize,
) -> Result<(), Fail> {
    page.clear();
    write_be::<4>(page, 12, u64::from(next));
    let mut at = 99;
    for origin in origins {
        put_next(rt, page, at, *origin);
        at = *origin;
    }
    put_next(rt, page, at, end);
    file.extend(page.bytes())?;
    Ok(())
}

/// How many rows the cursor gives, at most nine, with its number, the last origin and the end.
fn rows_of<L: Ledger>(file: &mut ChangingPages, cursor: &mut LeafCursor, blank: Blank) -> Found
    requires fresh { cursor.old.ended ≡ false }
    requires name { blank.name ≡ L.name }
    requires parts { blank.parts ≡ L.parts }
    requires shared { 0 < blank.parts }
{
    let mut steps = Steps::<L>::new(blank);
    let mut last = 0;
    for rows in 0..9 {
        match cursor.next(file, &mut steps) {
            Ok(Some(origin)) => last = origin,
            end => return (rows, cursor.number(), last, end),
        }
    }
    (9, cursor.number(), last, Ok(Some(last)))
}

/// What the cursor gives of the two leaves.
fn found_of(
    rt: &impl Abort,
    alloc: Global,
    ends: &mut TreeEnds,
    case: &Case,
) -> Result<Found, Fail> {
    let (next, origins, end, leaves, _) = *case;
    let mut page = Page::zeroed(alloc)?;
    let mut bytes = ByteList::new(alloc);
    put_leaf(rt, &mut bytes, &mut page, next, origins, end)?;
    put_leaf(rt, &mut bytes, &mut page, FIL_NULL, &[126], SUPREMUM)?;
    let mut file = ChangingPages::new(bytes, ByteList::new(alloc), 100);
    ends.leaves = leaves;
    let mut cursor = LeafCursor::start(alloc, ends)?;
    Ok(rows_of::<Brand>(&mut file, &mut cursor, Blank::new(1)))
}

#[test]
fn rows_come_leaf_by_leaf(rt: HostRuntime) -> Result<(), Fail> {
    let mut ends = ends_from_zero(&rt, rt.alloc())?;
    for case in &CASES {
        let (next, _, _, leaves, wanted) = *case;
        let found = found_of(&rt, rt.alloc(), &mut ends, case)?;
        assert!(rt; found == wanted, "{next} {leaves}");
    }
    Ok(())
}
