//! The checks of a page in hand.

ghost use Rattle.std.specs.Prelude.{◌≡◌, ◌+◌, ◌<◌, ◌≤◌, ◌↔◌, IsTrue, IfOk, OnOk, true, false, length};
ghost use Rattle.page_source.specs.Checks.{Finds, AtPage};
ghost use Rattle.index_page.specs.Header.{records_of, record_count};
ghost use Rattle.index_page.specs.Page.{HasMinimumMark};
ghost use Rattle.index_page.specs.PageChecks.{PageChecks};
ghost use Rattle.tree_walk.specs.OneIndex.{HaveOneKey};
ghost use Rattle.tree_walk.specs.Place.{is_leaf_level, IsBeside, NodeAt, SpotAt};
ghost use Rattle.tree_walk.specs.Records.{PageFacts};
ghost use Rattle.tree_walk.specs.Room.{HasRoom, HasSameRoom};
ghost use Rattle.tree_walk.specs.Walk.{HoldsBeside, spot_beside, IsTally, AreUnmarked};

use crate::cursor::Next;
use crate::place::Stand;
use crate::place::keys::is_between;
use crate::place::tally::{Tally, count_on};
use crate::walk::Walk;
use column_values::FieldList;
use fil_frame::layout::{NEXT_PAGE, PREVIOUS_PAGE};
use index_page::layout::{INDEX_ID, LEVEL};
use index_page::{mark_fault, page_fault};
use page_source::{Fault, Page, Rule, read_be};

/// The greatest level of a root.
const GREATEST_LEVEL: u16 = 50;

/// Whether a page has these neighbours.
fn is_beside(page: &Page, previous: u32, next: u32) -> bool
    ensures { IsTrue result ↔ IsBeside page.now previous next }
{
    read_be::<4>(page, PREVIOUS_PAGE) as u32 == previous
        && read_be::<4>(page, NEXT_PAGE) as u32 == next
}

/// The checks of the records of the page in hand.
#[tactic(auto, using(crate::proofs::Records::page_facts, crate::proofs::Records::some_record))]
fn check_records(walk: &mut Walk, fields: &FieldList, stand: Stand) -> Result<(), Fault>
    requires few { fields.now.keys ≤ length fields.now.fields }
    requires room { length fields.now.fields ≤ walk.old.scratch }
    ensures exact { Finds result (AtPage stand.page (PageChecks walk.old.child fields.now
        (is_leaf_level stand.level) stand.root stand.leftmost)) }
    ensures facts { OnOk result (PageFacts walk.old.child fields.now) }
    ensures some { OnOk result (stand.root ≡ false → 0 < record_count walk.old.child) }
    ensures same { walk.new ≡ record walk.old { scratch = walk.new.scratch } }
    ensures room { walk.new.scratch ≡ walk.old.scratch }
{
    let leaf = stand.level == 0;
    match page_fault(
        &mut walk.scratch,
        &walk.child,
        fields,
        leaf,
        stand.root,
        stand.leftmost,
    ) {
        Some(rule) => Err(rule.at(stand.page)),
        None => Ok(()),
    }
}

/// Whether the minimum mark of a page lacks, or is where it mustn't be. No leaf has one, so where none was found on a
/// leaf, all is well.
#[tactic(auto, using(crate::proofs::Tallies::leaf_unmarked))]
fn has_mark_fault(page: &Page, fields: &FieldList, stand: Stand, unmarked: bool) -> bool
    requires facts { PageFacts page.now fields.now }
    requires unmarked { unmarked ≡ true → AreUnmarked page.now (records_of page.now) × (stand.level ≡ 0) }
    ensures { (result ≡ false)
        ↔ HasMinimumMark page.now (is_leaf_level stand.level) stand.leftmost (records_of page.now) }
{
    !unmarked && mark_fault(page, stand.level == 0, stand.leftmost)
}

/// The checks of the page in hand at its level, and its tally where it is a leaf.
fn check_level_and_records(
    walk: &mut Walk,
    fields: &FieldList,
    node: &FieldList,
    stand: Stand,
    low: Option<usize>,
    next: Next,
) -> Result<Tally, Fault>
    requires room { HasRoom walk.old (length fields.now.fields) }
    requires lists { HaveOneKey fields.now node.now }
    requires beside { HoldsBeside walk.old node.now stand.root low next }
    ensures exact { Finds result (NodeAt walk.old.child fields.now
        (spot_beside walk.old node.now stand low next)) }
    ensures facts { OnOk result (PageFacts walk.old.child fields.now) }
    ensures tally { IfOk result (λ tally. stand.level ≡ 0 → IsTally walk.old.child fields.now tally) }
    ensures most { IfOk result (λ tally. tally.live + tally.deleted ≤ 65536) }
    ensures same { walk.new ≡ record walk.old {
      scratch = walk.new.scratch;
      first = walk.new.first;
      last = walk.new.last;
    } }
    ensures room { HasSameRoom walk.old walk.new }
{
    let n = stand.page;
    if read_be::<2>(&walk.child, LEVEL) as u16 != stand.level || stand.level > GREATEST_LEVEL {
        return Err(Rule::Level.at(n));
    }
    check_records(walk, fields, stand)?;
    if !is_between(walk, fields, node, stand, low, next) {
        return Err(Rule::Separator.at(n));
    }
    let count = count_on(stand.level, &walk.child, fields);
    if has_mark_fault(&walk.child, fields, stand, count.unmarked) {
        return Err(Rule::MinimumMark.at(n));
    }
    Ok(count.tally)
}

/// The checks of the page in hand at its level, by the rules 32 to 45: of its records, and of their keys between the
/// separators, which are the keys of the node pointers on either side of the one that leads to it.
pub fn check_node(
    walk: &mut Walk,
    fields: &FieldList,
    node: &FieldList,
    stand: Stand,
    low: Option<usize>,
    next: Next,
) -> Result<(), Fault>
    requires room { HasRoom walk.old (length fields.now.fields) }
    requires lists { HaveOneKey fields.now node.now }
    requires beside { HoldsBeside walk.old node.now stand.root low next }
    ensures exact { Finds result (NodeAt walk.old.child fields.now
        (spot_beside walk.old node.now stand low next)) }
    ensures facts { OnOk result (PageFacts walk.old.child fields.now) }
    ensures same { walk.new ≡ record walk.old {
      scratch = walk.new.scratch;
      first = walk.new.first;
      last = walk.new.last;
    } }
    ensures room { HasSameRoom walk.old walk.new }
{
    check_level_and_records(walk, fields, node, stand, low, next)?;
    Ok(())
}

/// The checks of the page in hand where it stands, and its tally where it is a leaf: the low separator is the key of
/// the node pointer in hand, where there is one, and the high separator that of the next node pointer.
pub(crate) fn check_neighbours(
    walk: &mut Walk,
    fields: &FieldList,
    node: &FieldList,
    stand: Stand,
    low: Option<usize>,
    next: Next,
) -> Result<Tally, Fault>
    requires room { HasRoom walk.old (length fields.now.fields) }
    requires lists { HaveOneKey fields.now node.now }
    requires beside { HoldsBeside walk.old node.now stand.root low next }
    ensures exact { Finds result (SpotAt walk.old.child fields.now stand.index_id
        (spot_beside walk.old node.now stand low next) stand.previous stand.next) }
    ensures facts { OnOk result (PageFacts walk.old.child fields.now) }
    ensures tally { IfOk result (λ tally. stand.level ≡ 0 → IsTally walk.old.child fields.now tally) }
    ensures most { IfOk result (λ tally. tally.live + tally.deleted ≤ 65536) }
    ensures same { walk.new ≡ record walk.old {
      scratch = walk.new.scratch;
      first = walk.new.first;
      last = walk.new.last;
    } }
    ensures room { HasSameRoom walk.old walk.new }
{
    if read_be::<8>(&walk.child, INDEX_ID) != stand.index_id {
        return Err(Rule::IndexId.at(stand.page));
    }
    if !is_beside(&walk.child, stand.previous, stand.next) {
        return Err(Rule::Sibling.at(stand.page));
    }
    check_level_and_records(walk, fields, node, stand, low, next)
}
