//! The checks of one place of a level.

ghost use Rattle.std.specs.Prelude.{◌≡◌, ◌==◌, ◌+◌, ◌≤◌, if◌then◌else◌, IfOk, None, Some};
ghost use Rattle.page_source.specs.Lists.{unmarked};
ghost use Rattle.page_source.specs.Checks.{Halts};
ghost use Rattle.space_audit.specs.Marks.{is_set};
ghost use Rattle.tree_walk.specs.Index.{page_in};
ghost use Rattle.compact_record.specs.Keys.{HaveChild};
ghost use Rattle.tree_walk.specs.Tree.{OfIndex, IsReady, StaysReady};
ghost use Rattle.tree_walk.specs.Walk.{HoldsLow, HoldsHigh, PlaceInHand, child_in_hand, next_in_hand, GrowsBy, IsTally};

use crate::cursor::{FIL_NULL, Next};
use crate::level::{Aim, Place};
use crate::place::tally::Tally;
use crate::place::{Stand, check_neighbours, is_place};
use crate::walk::Walk;
use column_values::FieldList;
use page_source::{Halt, PageSource, Rule, Steps};
use space_audit::Marks;
use std::sync::ledger::Ledger;

fn low_of(leftmost: bool, origin: usize) -> Option<usize>
    ensures { result ≡ (if leftmost then None else Some origin) }
{
    if leftmost { None } else { Some(origin) }
}

/// The page that the next node pointer leads to.
fn next_child(walk: &Walk, node: &FieldList, next: Next) -> u32
    requires pointers { HaveChild node.now }
    requires high { HoldsHigh walk.now node.now next }
    ensures { result ≡ next_in_hand walk.now node.now next }
{
    match next {
        Next::Here(_) => walk.high.child(&walk.parent, node),
        Next::Ahead(_) => walk.high.child(&walk.after, node),
        Next::End => FIL_NULL,
    }
}

/// The checks of the place in hand: of its node pointer, where the next one may stand on the page behind, and of the
/// page that it leads to. Where they hold that page is marked, and its tally is the answer where it is a leaf.
pub(crate) fn check_child<S: PageSource, L: Ledger>(
    walk: &mut Walk,
    source: &mut S,
    aim: &Aim,
    place: Place,
    next: Next,
    marks: &mut Marks,
    steps: &mut Steps<L>,
) -> Result<Tally, Halt>
    requires ready { IsReady S.PageSource source.old aim.now.tree walk.old marks.old }
    requires low { HoldsLow walk.old aim.now.tree.node.now place.cursor }
    requires high { HoldsHigh walk.old aim.now.tree.node.now next }
    ensures exact { OfIndex S.PageSource source.old aim.now.tree (λ index. Halts result
        (PlaceInHand index walk.old aim.now place next
        (is_set marks.old (child_in_hand walk.old index.node place)))) }
    ensures marked { IfOk result (λ _.
        GrowsBy marks.old marks.new (child_in_hand walk.old aim.now.tree.node.now place)) }
    ensures tally { IfOk result (λ tally. OfIndex S.PageSource source.old aim.now.tree (λ index.
        aim.now.level ≡ 0 → IsTally (page_in index (child_in_hand walk.old index.node place)) index.leaf tally)) }
    ensures most { IfOk result (λ tally. tally.live + tally.deleted ≤ 65536) }
    ensures fewer { IfOk result (λ _. unmarked marks.new + 1 ≡ unmarked marks.old) }
    ensures parent { walk.new.parent ≡ walk.old.parent }
    ensures after { walk.new.after ≡ walk.old.after }
    ensures stays { StaysReady S.PageSource source.old source.new steps.old steps.new walk.old walk.new
        marks.old marks.new result }
    ensures steps { steps.new ≤ steps.old + 1 }
{
    let node = aim.tree.node;
    let n = walk.low.child(&walk.parent, node);
    let stand = Stand {
        page: n,
        index_id: aim.index_id,
        level: aim.level,
        root: false,
        leftmost: place.j == 0,
        previous: place.previous,
        next: next_child(walk, node, next),
    };
    if !is_place(aim.tree.space, marks, aim.segment, n) {
        return Err(Halt::Broken(Rule::ChildPlace.at(place.cursor.number)));
    }
    source.fetch(n, &mut walk.child, steps)?;
    let fields = aim.tree.fields_on(aim.level);
    let low = low_of(stand.leftmost, place.cursor.origin);
    let tally = check_neighbours(walk, fields, node, stand, low, next)?;
    marks.mark(n);
    Ok(tally)
}
