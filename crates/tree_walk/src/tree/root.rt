//! The checks of the root.

ghost use Rattle.std.specs.Prelude.{◌≡◌, ◌+◌, ◌<◌, ◌≤◌, ◌↔◌, [], ◌∷◌, ℕ, List, length, IsTrue, IfOk};
ghost use Rattle.page_source.specs.Lists.{unmarked};
ghost use Rattle.page_source.specs.Checks.{Halts};
ghost use Rattle.space_audit.specs.Marks.{is_set, Marked, StaysMarked};
ghost use Rattle.space_audit.specs.Owners.{IsUsedBy};
ghost use Rattle.space_audit.specs.Space.{IsAuditOf};
ghost use Rattle.tree_walk.specs.Segments.{segment_in, AreNewSegments};
ghost use Rattle.tree_walk.specs.Tree.{OfIndex, IsReady, StaysReady};
ghost use Rattle.tree_walk.specs.TreeChecks.{RootCheck};
ghost use Rattle.tree_walk.specs.Walk.{IsTop};

use crate::cursor::{FIL_NULL, Next};
use crate::index::Tree;
use crate::place::tally::Tally;
use crate::place::{Stand, check_neighbours, is_root, is_used_by};
use crate::walk::Walk;
use index_page::layout::{INDEX_ID, LEVEL};
use page_source::{Halt, Page, PageSource, Rule, Steps, read_be};
use space_audit::{Marks, Space};
use space_header::Address;
use std::sync::ledger::Ledger;

/// PAGE_BTR_SEG_LEAF, where the root names the segment of the leaves: a space, a page and a byte offset.
const LEAF_SEGMENT: usize = 74;

/// PAGE_BTR_SEG_TOP, where the root names the segment of the pages above the leaves.
const TOP_SEGMENT: usize = 84;

/// What is known of a root: its level, its index id, the segments that it names, and its tally where it is a leaf.
#[derive(Clone, Copy, Debug, PartialEq, Eq)]
pub(crate) struct Top {
    pub level: u16,
    pub index_id: u64,
    pub leaf: u32,
    pub upper: u32,
    pub tally: Tally,
}

/// The segment that a header names, by position; the number of all segments where it names none.
fn segment_in(space: &Space, page: &Page, at: usize) -> u32
    requires { at + 10 ≤ 16384 }
    ensures { result ≡ segment_in space.now.segments page.now at }
{
    let address = Address {
        page: read_be::<4>(page, at + 4) as u32,
        offset: read_be::<2>(page, at + 8) as u16,
    };
    match space.segment_at(address) {
        Some(segment) => segment,
        None => space.segment_count(),
    }
}

/// Whether the headers of a root name two segments of the space that weren't named before.
fn names_new(space: &Space, named: &Marks, page: &Page, leaf: u32, top: u32) -> bool
    requires { length named.now ≡ length space.now.segments }
    ensures { IsTrue result ↔ AreNewSegments space.now (is_set named.now) page.now leaf top }
{
    let id = space.space_id();
    if read_be::<4>(page, LEAF_SEGMENT) as u32 != id
        || read_be::<4>(page, TOP_SEGMENT) as u32 != id
    {
        return false;
    }
    let count = space.segment_count();
    if leaf >= count || top >= count || leaf == top {
        return false;
    }
    !named.has(leaf) && !named.has(top)
}

/// Whether the headers of a root name two segments of the space that weren't named before, the second of which uses
/// the root.
fn are_new(space: &Space, named: &Marks, page: &Page, root: u32, leaf: u32, top: u32) -> bool
    requires members { length named.now ≡ length space.now.segments }
    requires root { root < space.now.size }
    ensures told { (file : List ℕ) → IsAuditOf file space.now → IsTrue result
        ↔ (AreNewSegments space.now (is_set named.now) page.now leaf top × IsUsedBy file top root) }
    ensures known { IsTrue result → (leaf < length named.now) × (top < length named.now) }
{
    names_new(space, named, page, leaf, top) && is_used_by(space, top, root)
}

/// The checks of the root. Where they hold it is marked, and its segments are named.
pub(crate) fn check_root<S: PageSource, L: Ledger>(
    walk: &mut Walk,
    source: &mut S,
    tree: &Tree,
    named: &mut Marks,
    marks: &mut Marks,
    steps: &mut Steps<L>,
) -> Result<Top, Halt>
    requires ready { IsReady S.PageSource source.old tree.now walk.old marks.old }
    requires segments { length named.old ≡ length tree.now.space.now.segments }
    ensures exact { OfIndex S.PageSource source.old tree.now (λ index. Halts result
        (RootCheck index (is_set marks.old) (is_set named.old))) }
    ensures top { IfOk result (λ top. OfIndex S.PageSource source.old tree.now (λ index. IsTop index top)) }
    ensures low { IfOk result (λ top. top.level ≤ 50) }
    ensures marked { IfOk result (λ _. Marked (is_set marks.old) marks.new (tree.now.root ∷ [])) }
    ensures named { IfOk result (λ top. Marked (is_set named.old) named.new (top.leaf ∷ top.upper ∷ [])) }
    ensures segments { length named.new ≡ length named.old }
    ensures kept { StaysMarked named.old named.new }
    ensures fewer { IfOk result (λ _. unmarked marks.new + 1 ≡ unmarked marks.old) }
    ensures stays { StaysReady S.PageSource source.old source.new steps.old steps.new walk.old walk.new
        marks.old marks.new result }
    ensures steps { steps.new ≤ steps.old + 1 }
{
    let Tree { space, root, .. } = *tree;
    if !is_root(space, marks, root) {
        return Err(Halt::Broken(Rule::RootPlace.at(root)));
    }
    source.fetch(root, &mut walk.child, steps)?;
    let lowest = segment_in(space, &walk.child, LEAF_SEGMENT);
    let upper = segment_in(space, &walk.child, TOP_SEGMENT);
    if !are_new(space, named, &walk.child, root, lowest, upper) {
        return Err(Halt::Broken(Rule::RootSegments.at(root)));
    }
    let level = read_be::<2>(&walk.child, LEVEL) as u16;
    let id = read_be::<8>(&walk.child, INDEX_ID);
    let stand = Stand {
        page: root,
        index_id: id,
        level,
        root: true,
        leftmost: true,
        previous: FIL_NULL,
        next: FIL_NULL,
    };
    let fields = tree.fields_on(level);
    let tally = check_neighbours(walk, fields, tree.node, stand, None, Next::End)?;
    marks.mark(root);
    named.mark(lowest);
    named.mark(upper);
    Ok(Top {
        level,
        index_id: id,
        leaf: lowest,
        upper,
        tally,
    })
}
