//! The walk along one level, beside the level above it, by next fields.

ghost use Rattle.std.specs.Prelude.{◌≡◌, ◌+◌, ◌*◌, ◌≤◌, ◌&&◌, [], IfOk};
ghost use Rattle.page_source.specs.Lists.{unmarked};
ghost use Rattle.page_source.specs.Checks.{Halts};
ghost use Rattle.space_audit.specs.Marks.{is_set, Marked};
ghost use Rattle.tree_walk.specs.Index.{children, places};
ghost use Rattle.tree_walk.specs.Tree.{OfIndex, IsReady, StaysReady};
ghost use Rattle.tree_walk.specs.TreeChecks.{LevelCheck};
ghost use Rattle.tree_walk.specs.Walk.{IsAtLevel, IsLevel};

mod child;
mod look;
mod pointer;

use crate::cursor::{Cursor, FIL_NULL};
use crate::index::Tree;
use crate::place::tally::{NONE, Tally};
use crate::walk::Walk;
use compact_record::next_origin;
use index_page::layout::INFIMUM;
use look::{advance, read_low};
use page_source::{Halt, PageSource, Steps};
use pointer::check_pointer;
use space_audit::Marks;
use std::sync::ledger::Ledger;

/// The level that is walked: its tree, how deep the level above it lies below the root, and what is asked of its pages.
#[derive(Clone, Copy)]
pub(crate) struct Aim<'a> {
    pub tree: Tree<'a>,
    pub index_id: u64,
    pub segment: u32,
    pub level: u16,
    pub depth: u16,
}

/// A place of the level: its node pointer, the page before, and the number of places before it.
#[derive(Clone, Copy, Debug, PartialEq, Eq)]
pub(crate) struct Place {
    pub cursor: Cursor,
    pub previous: u32,
    pub j: u32,
}

/// What is known of a level that was walked: its leftmost page, how many pages it has, and the tally of leaves.
#[derive(Clone, Copy, Debug, PartialEq, Eq)]
pub(crate) struct Level {
    pub first: u32,
    pub pages: u32,
    pub tally: Tally,
}

/// The sum of two tallies.
fn sum(a: Tally, b: Tally) -> Tally
    requires live { a.live + b.live ≤ 4294967296 * 65536 }
    requires deleted { a.deleted + b.deleted ≤ 4294967296 * 65536 }
    ensures live { result.live ≡ a.live + b.live }
    ensures deleted { result.deleted ≡ a.deleted + b.deleted }
    ensures whole { result.whole ≡ (a.whole && b.whole) }
{
    Tally {
        live: a.live + b.live,
        deleted: a.deleted + b.deleted,
        whole: a.whole && b.whole,
    }
}

/// The checks of the places below a depth, in order, given the leftmost page of that depth and how many pages it has.
/// Each page of that depth is fetched once more, and each page below it once.
pub(crate) fn walk_level<S: PageSource, L: Ledger>(
    walk: &mut Walk,
    source: &mut S,
    aim: &Aim,
    upper: Level,
    marks: &mut Marks,
    steps: &mut Steps<L>,
) -> Result<Level, Halt>
    requires ready { IsReady S.PageSource source.old aim.now.tree walk.old marks.old }
    requires some { 1 ≤ upper.pages }
    requires at { OfIndex S.PageSource source.old aim.now.tree (λ index. IsAtLevel index aim.now upper) }
    ensures exact { OfIndex S.PageSource source.old aim.now.tree (λ index. Halts result
        (LevelCheck index aim.now.level (is_set marks.old) [] (places index aim.now.depth))) }
    ensures marked { IfOk result (λ _. OfIndex S.PageSource source.old aim.now.tree (λ index.
        Marked (is_set marks.old) marks.new (children index (places index aim.now.depth)))) }
    ensures level { IfOk result (λ row. OfIndex S.PageSource source.old aim.now.tree (λ index.
        IsLevel index aim.now row)) }
    ensures stays { StaysReady S.PageSource source.old source.new steps.old steps.new walk.old walk.new
        marks.old marks.new result }
    ensures some { IfOk result (λ row. 1 ≤ row.pages) }
    ensures fewer { IfOk result (λ row. row.pages + unmarked marks.new ≤ unmarked marks.old) }
    ensures spent { IfOk result (λ row. steps.new + 2 * unmarked marks.new + row.pages
        ≤ steps.old + 2 * unmarked marks.old + upper.pages) }
    ensures steps { steps.new ≤ steps.old + 2 * unmarked marks.old + upper.pages + 2 }
{
    let node = aim.tree.node;
    // as many places as pages, at the most
    let _size = aim.tree.space.size();
    source.fetch(upper.first, &mut walk.parent, steps)?;
    let origin = next_origin(&walk.parent, INFIMUM);
    let cursor = Cursor {
        number: upper.first,
        origin,
        more: upper.pages - 1,
    };
    read_low(walk, node, cursor)?;
    let leftmost = walk.low.child(&walk.parent, node);
    let mut place = Place {
        cursor,
        previous: FIL_NULL,
        j: 0,
    };
    let mut tally = NONE;
    'places: loop {
        read_low(walk, node, place.cursor)?;
        let at = walk.low.child(&walk.parent, node);
        let found = check_pointer(walk, source, aim, place, marks, steps)?;
        tally = sum(tally, found.tally);
        let j = place.j + 1;
        match advance(walk, found.next) {
            Some(cursor) => place = Place {
                cursor,
                previous: at,
                j,
            },
            None => return Ok(Level {
                first: leftmost,
                pages: j,
                tally,
            }),
        }
    }
}
