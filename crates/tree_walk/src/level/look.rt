//! The node pointer behind the one in hand.

ghost use Rattle.std.specs.Prelude.{◌≡◌, ◌+◌, ◌≤◌, ◌↔◌, ℕ, IsTrue, IfSome, IfOk, OnOk, Err, None, length};
ghost use Rattle.page_source.specs.Calls.{HaltsOver};
ghost use Rattle.page_source.specs.declared.rule.Fault.{Fault};
ghost use Rattle.tree_walk.specs.Index.{Index, places};
ghost use Rattle.tree_walk.specs.Records.{IsRecord};
ghost use Rattle.tree_walk.specs.Room.{HasSameRoom};
ghost use Rattle.tree_walk.specs.Tree.{OfIndex};
ghost use Rattle.tree_walk.specs.Walk.{Stands, Follows, FindsNext, IsAtPlace, HoldsLow, HoldsHigh, page_after};
ghost use Rattle.tree_walk.specs.Walk.{origin_after, more_after};

use crate::cursor::{Cursor, FIL_NULL, Next};
use crate::level::{Aim, Place};
use crate::place::read_record;
use crate::walk::Walk;
use column_values::FieldList;
use compact_record::next_origin;
use fil_frame::layout::NEXT_PAGE;
use index_page::layout::{FIRST_ORIGIN, INFIMUM};
use page_source::{Fault, Halt, PageSource, Rule, Steps, read_be};
use std::mem;
use std::sync::ledger::Ledger;

/// Reads the node pointer at the cursor. Over a source that tells its content it is always there.
pub(crate) fn read_low(walk: &mut Walk, node: &FieldList, cursor: Cursor) -> Result<(), Fault>
    requires room { length node.now.fields ≤ walk.old.low.members }
    ensures ok { OnOk result (HoldsLow walk.new node.now cursor) }
    ensures err { (fault : Fault) → result ≡ Err fault → ¬ (IsRecord walk.old.parent node.now cursor.origin) }
    ensures same { walk.new ≡ record walk.old { low = walk.new.low } }
    ensures room { HasSameRoom walk.old walk.new }
{
    if read_record(&mut walk.low, &walk.parent, cursor.origin, node) {
        Ok(())
    } else {
        Err(Rule::RecordSpelling.at(cursor.number))
    }
}

/// Reads the next node pointer, and answers whether it is one or there is none.
pub(crate) fn read_high(walk: &mut Walk, node: &FieldList, next: Next) -> bool
    requires room { length node.now.fields ≤ walk.old.high.members }
    ensures exact { IsTrue result ↔ IfSome (origin_after next)
        (λ origin. IsRecord (page_after next walk.old.parent walk.old.after) node.now origin) }
    ensures held { IsTrue result → HoldsHigh walk.new node.now next }
    ensures same { walk.new ≡ record walk.old { high = walk.new.high } }
    ensures room { HasSameRoom walk.old walk.new }
{
    match next {
        Next::Here(cursor) => read_record(&mut walk.high, &walk.parent, cursor.origin, node),
        Next::Ahead(cursor) => read_record(&mut walk.high, &walk.after, cursor.origin, node),
        Next::End => true,
    }
}

/// Finds the node pointer behind the one in hand, and fetches the next page of its level where it stands there. No more
/// pages are fetched than the level has.
pub(crate) fn look<S: PageSource, L: Ledger>(
    walk: &mut Walk,
    source: &mut S,
    aim: &Aim,
    place: Place,
    steps: &mut Steps<L>,
) -> Result<Next, Halt>
    requires record { IsRecord walk.old.parent aim.now.tree.node.now place.cursor.origin }
    requires at { OfIndex S.PageSource source.old aim.now.tree (λ index.
        IsAtPlace index aim.now place walk.old.parent) }
    ensures exact { OfIndex S.PageSource source.old aim.now.tree (λ index.
        FindsNext index aim.now.depth place.j walk.old.parent walk.new.after result) }
    ensures walk { walk.new ≡ record walk.old { after = walk.new.after } }
    ensures broken { (fault : Fault) → result ≡ Err (Halt.Broken fault)
        → fault ≡ record { rule = Rule.Sibling; page = place.cursor.number } }
    ensures keeps { HaltsOver S.PageSource source.old source.new steps.old steps.new result }
    ensures spent { IfOk result (λ next. steps.new + more_after next ≤ steps.old + place.cursor.more) }
    ensures steps { steps.new ≤ steps.old + 1 }
{
    let next = next_origin(&walk.parent, place.cursor.origin);
    if next >= FIRST_ORIGIN {
        return Ok(Next::Here(Cursor {
            origin: next,
            ..place.cursor
        }));
    }
    let number = read_be::<4>(&walk.parent, NEXT_PAGE) as u32;
    if number == FIL_NULL {
        return Ok(Next::End);
    }
    if place.cursor.more == 0 {
        // a source that tells its content never comes here
        return Err(Halt::Broken(Rule::Sibling.at(place.cursor.number)));
    }
    source.fetch(number, &mut walk.after, steps)?;
    let origin = next_origin(&walk.after, INFIMUM);
    Ok(Next::Ahead(Cursor {
        number,
        origin,
        more: place.cursor.more - 1,
    }))
}

/// Goes on to the node pointer that was found, if there is one.
pub(crate) fn advance(walk: &mut Walk, next: Next) -> Option<Cursor>
    ensures stands { IfSome result (λ cursor. (index : Index) (depth j : ℕ)
        → Follows index depth next walk.old.parent walk.old.after j
        → Stands index depth cursor walk.new.parent (j + 1)) }
    ensures more { IfSome result (λ cursor. cursor.more ≡ more_after next) }
    ensures end { result ≡ None → (index : Index) (depth j : ℕ)
        → Follows index depth next walk.old.parent walk.old.after j → length (places index depth) ≤ j + 1 }
    ensures room { HasSameRoom walk.old walk.new }
{
    match next {
        Next::Here(cursor) => Some(cursor),
        Next::Ahead(cursor) => {
            mem::swap(&mut walk.parent, &mut walk.after);
            Some(cursor)
        }
        Next::End => None,
    }
}
