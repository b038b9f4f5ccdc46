//! Whether the keys of a page lie between its separators.

ghost use Rattle.std.specs.Prelude.{◌≡◌, ◌<◌, ◌≤◌, ◌↔◌, IsTrue, IfSome, false, length};
ghost use Rattle.index_page.specs.Header.{record_count};
ghost use Rattle.index_page.specs.Page.{is_lowest_first};
ghost use Rattle.tree_walk.specs.OneIndex.{HaveOneKey};
ghost use Rattle.tree_walk.specs.Place.{is_leaf_level, HasLow, HasLastBelow, HasSeparators};
ghost use Rattle.tree_walk.specs.Records.{IsHeld, PageFacts, held_key};
ghost use Rattle.tree_walk.specs.Walk.{page_after, origin_after, HoldsHigh, HoldsBeside, spot_beside};

use crate::cursor::{Next, origin_after, page_after};
use crate::place::Stand;
use crate::place::records::{first_record, last_record};
use crate::walk::Walk;
use column_values::FieldList;
use index_page::record_count;
use std::cmp::Ordering;

/// Whether the first key isn't below the low separator, and above the leaves equal to it.
#[tactic(auto, using(crate::proofs::Records::record_at))]
fn is_above(
    walk: &mut Walk,
    fields: &FieldList,
    node: &FieldList,
    level: u16,
    low: Option<usize>,
) -> bool
    requires facts { PageFacts walk.old.child fields.now }
    requires filled { 0 < record_count walk.old.child }
    requires room { length fields.now.fields ≤ walk.old.first.members }
    requires lists { HaveOneKey fields.now node.now }
    requires low { IfSome low (λ origin. IsHeld walk.old.parent node.now origin walk.old.low) }
    ensures exact { IsTrue result ↔ HasLow walk.old.child fields.now level (held_key walk.old.parent node.now low) }
    ensures same { walk.new ≡ record walk.old { first = walk.new.first } }
    ensures members { walk.new.first.members ≡ walk.old.first.members }
{
    if low.is_none() {
        return true;
    }
    let origin = first_record(&walk.child);
    walk.first.again(&walk.child, origin, fields);
    match walk
        .first
        .compare_keys(&walk.child, fields, &walk.low, &walk.parent, node)
    {
        Ordering::Less => false,
        Ordering::Equal => true,
        Ordering::Greater => level == 0,
    }
}

fn is_lowest_first(level: u16, leftmost: bool) -> bool
    ensures { result ≡ is_lowest_first (is_leaf_level level) leftmost }
{
    leftmost && level != 0
}

/// Whether the last key is below the high separator.
#[tactic(auto, using(crate::proofs::Records::record_at))]
fn is_under(
    walk: &mut Walk,
    fields: &FieldList,
    node: &FieldList,
    lowest_first: bool,
    next: Next,
) -> bool
    requires facts { PageFacts walk.old.child fields.now }
    requires filled { 0 < record_count walk.old.child }
    requires room { length fields.now.fields ≤ walk.old.last.members }
    requires lists { HaveOneKey fields.now node.now }
    requires high { HoldsHigh walk.old node.now next }
    ensures exact { IsTrue result ↔ HasLastBelow walk.old.child fields.now lowest_first
        (held_key (page_after next walk.old.parent walk.old.after) node.now (origin_after next)) }
    ensures same { walk.new ≡ record walk.old { last = walk.new.last } }
    ensures members { walk.new.last.members ≡ walk.old.last.members }
{
    if origin_after(next).is_none() {
        return true;
    }
    let count = record_count(&walk.child);
    if count == 1 && lowest_first {
        return true;
    }
    let origin = last_record(&walk.child, fields, count);
    walk.last.again(&walk.child, origin, fields);
    let page = page_after(next, &walk.parent, &walk.after);
    match walk
        .last
        .compare_keys(&walk.child, fields, &walk.high, page, node)
    {
        Ordering::Less => true,
        _ => false,
    }
}

/// Whether the first and the last key lie between the separators.
pub(crate) fn is_between(
    walk: &mut Walk,
    fields: &FieldList,
    node: &FieldList,
    stand: Stand,
    low: Option<usize>,
    next: Next,
) -> bool
    requires facts { PageFacts walk.old.child fields.now }
    requires filled { stand.root ≡ false → 0 < record_count walk.old.child }
    requires first_room { length fields.now.fields ≤ walk.old.first.members }
    requires last_room { length fields.now.fields ≤ walk.old.last.members }
    requires lists { HaveOneKey fields.now node.now }
    requires beside { HoldsBeside walk.old node.now stand.root low next }
    ensures exact { IsTrue result
        ↔ HasSeparators walk.old.child fields.now (spot_beside walk.old node.now stand low next) }
    ensures same { walk.new ≡ record walk.old { first = walk.new.first; last = walk.new.last } }
    ensures first_members { walk.new.first.members ≡ walk.old.first.members }
    ensures last_members { walk.new.last.members ≡ walk.old.last.members }
{
    if stand.root {
        return true;
    }
    let lowest_first = is_lowest_first(stand.level, stand.leftmost);
    is_above(walk, fields, node, stand.level, low)
        && is_under(walk, fields, node, lowest_first, next)
}
