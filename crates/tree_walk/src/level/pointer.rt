//! The checks at the place in hand.

ghost use Rattle.std.specs.Prelude.{◌≡◌, ◌+◌, ◌≤◌, IfOk};
ghost use Rattle.page_source.specs.Lists.{unmarked};
ghost use Rattle.page_source.specs.Checks.{Halts};
ghost use Rattle.space_audit.specs.Marks.{is_set};
ghost use Rattle.tree_walk.specs.Index.{page_in};
ghost use Rattle.tree_walk.specs.Tree.{OfIndex, IsReady, StaysReady};
ghost use Rattle.tree_walk.specs.Walk.{Follows, IsAtPlace, HoldsLow, GrowsBy, IsTally, page_at_place, CheckAtPlace};
ghost use Rattle.tree_walk.specs.Walk.{more_after};

use crate::cursor::Next;
use crate::level::child::check_child;
use crate::level::look::{look, read_high};
use crate::level::{Aim, Place};
use crate::place::tally::Tally;
use crate::walk::Walk;
use page_source::{Halt, PageSource, Rule, Steps};
use space_audit::Marks;
use std::sync::ledger::Ledger;

/// Where the next node pointer stands, and the tally of the page in hand where it is a leaf.
#[derive(Clone, Copy, Debug, PartialEq, Eq)]
pub(crate) struct Found {
    pub next: Next,
    pub tally: Tally,
}

/// The checks at the place in hand. Where they hold its page is marked.
pub(crate) fn check_pointer<S: PageSource, L: Ledger>(
    walk: &mut Walk,
    source: &mut S,
    aim: &Aim,
    place: Place,
    marks: &mut Marks,
    steps: &mut Steps<L>,
) -> Result<Found, Halt>
    requires ready { IsReady S.PageSource source.old aim.now.tree walk.old marks.old }
    requires low { HoldsLow walk.old aim.now.tree.node.now place.cursor }
    requires at { OfIndex S.PageSource source.old aim.now.tree (λ index.
        IsAtPlace index aim.now place walk.old.parent) }
    ensures exact { OfIndex S.PageSource source.old aim.now.tree (λ index. Halts result
        (CheckAtPlace index aim.now place (is_set marks.old (page_at_place index aim.now place)))) }
    ensures marked { IfOk result (λ _. OfIndex S.PageSource source.old aim.now.tree (λ index.
        GrowsBy marks.old marks.new (page_at_place index aim.now place))) }
    ensures tally { IfOk result (λ found. OfIndex S.PageSource source.old aim.now.tree (λ index.
        aim.now.level ≡ 0 → IsTally (page_in index (page_at_place index aim.now place)) index.leaf found.tally)) }
    ensures most { IfOk result (λ found. found.tally.live + found.tally.deleted ≤ 65536) }
    ensures fewer { IfOk result (λ _. unmarked marks.new + 1 ≡ unmarked marks.old) }
    ensures follows { IfOk result (λ found. OfIndex S.PageSource source.old aim.now.tree (λ index.
        Follows index aim.now.depth found.next walk.new.parent walk.new.after place.j)) }
    ensures stays { StaysReady S.PageSource source.old source.new steps.old steps.new walk.old walk.new
        marks.old marks.new result }
    ensures spent { IfOk result (λ found.
        steps.new + more_after found.next ≤ steps.old + place.cursor.more + 1) }
    ensures steps { steps.new ≤ steps.old + 2 }
{
    let next = look(walk, source, aim, place, steps)?;
    if !read_high(walk, aim.tree.node, next) {
        // a source that tells its content never comes here
        return Err(Halt::Broken(Rule::RecordSpelling.at(place.cursor.number)));
    }
    let tally = check_child(walk, source, aim, place, next, marks, steps)?;
    Ok(Found { next, tally })
}
