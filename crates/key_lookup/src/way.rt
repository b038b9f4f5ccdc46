//! The way from the root to the leaf where a key belongs.

ghost use Rattle.std.specs.Prelude.{◌≡◌, ◌==◌, ◌+◌, ◌<◌, ◌≤◌, ℕ, if◌then◌else◌, IfOk, OnOk, IfSome, List, length};
ghost use Rattle.std.specs.Prelude.{false};
ghost use Rattle.std.specs.Prelude.{None, Some, ◌&&◌, slice_index};
ghost use Rattle.page_source.specs.Checks.{Halts, Finds};
ghost use Rattle.page_source.specs.Calls.{HaltsOver};
ghost use Rattle.column_values.specs.Types.{Fields};
ghost use Rattle.column_values.specs.Order.{Key};
ghost use Rattle.compact_record.specs.Keys.{HaveChild};
ghost use Rattle.index_page.specs.Header.{records_of, record_count};
ghost use Rattle.tree_walk.specs.Index.{Index, page_in, root_level};
ghost use Rattle.tree_walk.specs.OneIndex.{HaveOneKey};
ghost use Rattle.tree_walk.specs.Place.{NodeAt};
ghost use Rattle.tree_walk.specs.Records.{PageFacts, IsHeld, held_key};
ghost use Rattle.tree_walk.specs.Room.{HasRoom, HasSameRoom};
ghost use Rattle.tree_walk.specs.Walk.{HoldsBeside, HoldsHigh, page_after, origin_after};
ghost use Rattle.key_lookup.specs.Path.{way, leaf_for};
ghost use Rattle.key_lookup.specs.GetFirst.{WayChecks, WayChecksAt, AllWayChecks};
ghost use Rattle.key_lookup.specs.Tree.{OfIndex, IsReady};
ghost use Rattle.key_lookup.specs.Choice.{IsLast};
ghost use Rattle.key_lookup.specs.Way.{IsDue, PageInHand, IsHeldNode, IsOnWay, spot_due, high_held, high_behind};

use crate::choose::{Chosen, choose};
use crate::key::SearchKey;
use crate::tree::Tree;
use column_values::FieldList;
use compact_record::next_origin;
use fil_frame::kinds::FIL_PAGE_INDEX;
use index_page::layout::{FIRST_ORIGIN, INDEX_ID, LEVEL};
use offpage_chain::fetch_framed;
use page_source::{FIL_NULL, Fault, Halt, PageSource, Rule, Steps, read_be};
use std::mem;
use std::sync::ledger::Ledger;
use tree_walk::{Cursor, Next, Stand, Walk, check_node};

/// A page of the way that is due: where it stands, between which node pointers, and what is broken if it can't be one.
#[derive(Clone, Copy, Debug, PartialEq, Eq)]
pub(crate) struct Due {
    pub stand: Stand,
    /// The node pointer that leads to the page, whose key is the page's low separator; a leftmost page has none.
    pub low: Option<usize>,
    /// The node pointer whose key is the page's high separator, if there is one.
    pub next: Next,
    pub fault: Fault,
}

/// The checks of the page in hand, which is due: that it is one of the index, and those of its records and keys.
fn check_in_hand(
    walk: &mut Walk,
    fields: &FieldList,
    node: &FieldList,
    due: Due,
) -> Result<(), Fault>
    requires room { HasRoom walk.old (length fields.now.fields) }
    requires lists { HaveOneKey fields.now node.now }
    requires beside { HoldsBeside walk.old node.now due.stand.root due.low due.next }
    ensures exact { Finds result
        (PageInHand walk.old.child fields.now (spot_due walk.old node.now due) due.stand.index_id) }
    ensures same { walk.new ≡ record walk.old {
      scratch = walk.new.scratch;
      first = walk.new.first;
      last = walk.new.last;
    } }
    ensures room { HasSameRoom walk.old walk.new }
{
    if read_be::<8>(&walk.child, INDEX_ID) != due.stand.index_id {
        return Err(Rule::IndexId.at(due.stand.page));
    }
    check_node(walk, fields, node, due.stand, due.low, due.next)
}

/// Fetches the root, and checks it.
fn check_root<S: PageSource, L: Ledger>(
    walk: &mut Walk,
    source: &mut S,
    tree: &Tree,
    steps: &mut Steps<L>,
) -> Result<Due, Halt>
    requires ready { IsReady S.PageSource source.old tree.now walk.old }
    ensures exact { OfIndex S.PageSource source.old tree.now (λ index. (key : Key)
        → Halts result (WayChecks index key 0)) }
    ensures due { IfOk result (λ due. OfIndex S.PageSource source.old tree.now (λ index. (key : Key)
        → IsDue index key 0 walk.new due)) }
    ensures page { IfOk result (λ due. OfIndex S.PageSource source.old tree.now (λ index.
        walk.new.child ≡ page_in index due.stand.page)) }
    ensures held { IfOk result (λ due. IsHeldNode walk.new tree.now.leaf.now tree.now.node.now due) }
    ensures room { HasSameRoom walk.old walk.new }
    ensures cost { steps.new ≤ steps.old + 1 }
    ensures over { HaltsOver S.PageSource source.old source.new steps.old steps.new result }
{
    let root = tree.root;
    let fault = Rule::RootPlace.at(root);
    if root >= tree.header.size {
        return Err(Halt::Broken(fault));
    }
    fetch_framed(
        source,
        tree.header,
        root,
        fault,
        FIL_PAGE_INDEX,
        &mut walk.child,
        steps,
    )?;
    let level = read_be::<2>(&walk.child, LEVEL) as u16;
    let stand = Stand {
        page: root,
        index_id: read_be::<8>(&walk.child, INDEX_ID),
        level,
        root: true,
        leftmost: true,
        previous: FIL_NULL,
        next: FIL_NULL,
    };
    let due = Due {
        stand,
        low: None,
        next: Next::End,
        fault,
    };
    check_in_hand(walk, tree.fields_on(level), tree.node, due)?;
    Ok(due)
}

/// Fetches the page that is due, and checks it.
fn check_next<S: PageSource, L: Ledger>(
    walk: &mut Walk,
    source: &mut S,
    tree: &Tree,
    due: Due,
    steps: &mut Steps<L>,
) -> Result<(), Halt>
    requires ready { IsReady S.PageSource source.old tree.now walk.old }
    requires beside { HoldsBeside walk.old tree.now.node.now due.stand.root due.low due.next }
    ensures exact { OfIndex S.PageSource source.old tree.now (λ index. (key : Key) (depth : ℕ)
        → IsDue index key depth walk.old due → Halts result (WayChecks index key depth)) }
    ensures due { OnOk result (OfIndex S.PageSource source.old tree.now (λ index. (key : Key) (depth : ℕ)
        → IsDue index key depth walk.old due → IsDue index key depth walk.new due)) }
    ensures page { OnOk result (OfIndex S.PageSource source.old tree.now (λ index.
        walk.new.child ≡ page_in index due.stand.page)) }
    ensures held { OnOk result (IsHeldNode walk.new tree.now.leaf.now tree.now.node.now due) }
    ensures room { HasSameRoom walk.old walk.new }
    ensures cost { steps.new ≤ steps.old + 1 }
    ensures over { HaltsOver S.PageSource source.old source.new steps.old steps.new result }
{
    let n = due.stand.page;
    if n >= tree.header.size {
        return Err(Halt::Broken(due.fault));
    }
    fetch_framed(
        source,
        tree.header,
        n,
        due.fault,
        FIL_PAGE_INDEX,
        &mut walk.child,
        steps,
    )?;
    check_in_hand(walk, tree.fields_on(due.stand.level), tree.node, due)?;
    Ok(())
}

/// Keeps the page with the high separator, while the page in hand takes the place of its parent.
fn keep_high(walk: &mut Walk, next: Next) -> Next
    ensures high { (node : Fields) (parent : List ℕ)
        → held_key (page_after result parent walk.new.after) node (origin_after result)
        ≡ high_held walk.old node next }
    ensures held { (node : Fields) (parent : List ℕ) → HoldsHigh walk.old node next
        → IfSome (origin_after result) (λ origin. IsHeld (page_after result parent walk.new.after) node origin
        walk.new.high) }
    ensures child { walk.new.child ≡ walk.old.child }
    ensures room { HasSameRoom walk.old walk.new }
{
    match next {
        Next::Here(cursor) => {
            mem::swap(&mut walk.parent, &mut walk.after);
            Next::Ahead(cursor)
        }
        Next::Ahead(cursor) => Next::Ahead(cursor),
        Next::End => Next::End,
    }
}

/// Makes the page in hand the parent of the page below its chosen node pointer, and answers which node pointer has the
/// high separator of that page.
fn next_below(walk: &mut Walk, node: &FieldList, due: Due, chosen: Chosen) -> Next
    requires facts { PageFacts walk.old.child node.now }
    requires last { chosen.k < record_count walk.old.child }
    requires origin { chosen.origin ≡ slice_index (records_of walk.old.child) chosen.k }
    requires room { length node.now.fields ≤ walk.old.high.members }
    requires high { HoldsHigh walk.old node.now due.next }
    ensures parent { walk.new.parent ≡ walk.old.child }
    ensures high { high_held walk.new node.now result
        ≡ high_behind walk.old.child node.now chosen.k (high_held walk.old node.now due.next) }
    ensures held { HoldsHigh walk.new node.now result }
    ensures room { HasSameRoom walk.old walk.new }
{
    let behind = next_origin(&walk.child, chosen.origin);
    if behind < FIRST_ORIGIN {
        let next = keep_high(walk, due.next);
        mem::swap(&mut walk.parent, &mut walk.child);
        return next;
    }
    mem::swap(&mut walk.parent, &mut walk.child);
    walk.high.again(&walk.parent, behind, node);
    Next::Here(Cursor {
        number: due.stand.page,
        origin: behind,
        more: 0,
    })
}

/// Whether the page below a node pointer is leftmost.
fn is_leftmost(leftmost: bool, k: usize) -> bool
    ensures { result ≡ (leftmost && k == 0) }
{
    leftmost && k == 0
}

/// The node pointer with the low separator of the page below, which a leftmost page hasn't.
fn low_of(leftmost: bool, origin: usize) -> Option<usize>
    ensures { result ≡ (if leftmost then None else Some origin) }
{
    if leftmost { None } else { Some(origin) }
}

/// The page below the one in hand that the way goes on to.
fn step_down(walk: &mut Walk, node: &FieldList, key: &SearchKey, due: Due) -> Due
    requires level { 0 < due.stand.level }
    requires facts { PageFacts walk.old.child node.now }
    requires some { 0 < record_count walk.old.child }
    requires few { node.now.keys ≤ length node.now.fields }
    requires pointers { HaveChild node.now }
    requires same { length key.now ≡ node.now.keys }
    requires room { HasRoom walk.old (length node.now.fields) }
    requires high { HoldsHigh walk.old node.now due.next }
    ensures due { (index : Index) (depth : ℕ) → index.node ≡ node.now
        → walk.old.child ≡ page_in index due.stand.page → IsDue index key.now depth walk.old due
        → IsDue index key.now (depth + 1) walk.new result }
    ensures beside { HoldsBeside walk.new node.now result.stand.root result.low result.next }
    ensures level { result.stand.level + 1 ≡ due.stand.level }
    ensures room { HasSameRoom walk.old walk.new }
{
    let chosen = choose(&mut walk.first, &walk.child, node, key);
    let next = next_below(walk, node, due, chosen);
    walk.low.again(&walk.parent, chosen.origin, node);
    let leftmost = is_leftmost(due.stand.leftmost, chosen.k);
    let stand = Stand {
        page: walk.low.child(&walk.parent, node),
        level: due.stand.level - 1,
        root: false,
        leftmost,
        ..due.stand
    };
    Due {
        stand,
        low: low_of(leftmost, chosen.origin),
        next,
        fault: Rule::ChildPlace.at(due.stand.page),
    }
}

/// Goes down from the root to the leaf where the key belongs, checks each page of the way by the rules 25, 27, 29, 30,
/// 32 to 45, and answers the number of the leaf, which is the page in hand then.
pub(crate) fn find_leaf<S: PageSource, L: Ledger>(
    walk: &mut Walk,
    source: &mut S,
    tree: &Tree,
    key: &SearchKey,
    steps: &mut Steps<L>,
) -> Result<u32, Halt>
    requires ready { IsReady S.PageSource source.old tree.now walk.old }
    requires same { length key.now ≡ tree.now.node.now.keys }
    ensures exact { OfIndex S.PageSource source.old tree.now (λ index. Halts result (AllWayChecks index key.now)) }
    ensures leaf { IfOk result (λ n. OfIndex S.PageSource source.old tree.now (λ index.
        n ≡ leaf_for index key.now)) }
    ensures page { IfOk result (λ n. OfIndex S.PageSource source.old tree.now (λ index.
        walk.new.child ≡ page_in index n)) }
    ensures facts { OnOk result (PageFacts walk.new.child tree.now.leaf.now) }
    ensures room { HasSameRoom walk.old walk.new }
    ensures steps_if_told { OfIndex S.PageSource source.old tree.now (λ index.
        steps.new ≤ steps.old + root_level index + 1) }
    ensures cost { steps.new ≤ steps.old + 51 }
    ensures over { HaltsOver S.PageSource source.old source.new steps.old steps.new result }
{
    let mut due = check_root(walk, source, tree, steps)?;
    while due.stand.level > 0 {
        due = step_down(walk, tree.node, key, due);
        check_next(walk, source, tree, due, steps)?;
    }
    Ok(due.stand.page)
}
