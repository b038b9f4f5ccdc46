//! The tree, level by level downward.

ghost use Rattle.std.specs.Prelude.{◌≡◌, ◌==◌, if◌then◌else◌, ℕ, ◌+◌, ◌*◌, ◌≤◌, length, IfOk};
ghost use Rattle.page_source.specs.Lists.{unmarked};
ghost use Rattle.page_source.specs.Calls.{OfFile, HaltsOver};
ghost use Rattle.page_source.specs.Checks.{Halts};
ghost use Rattle.space_audit.specs.Marks.{is_set, Marked, StaysMarked};
ghost use Rattle.space_audit.specs.Space.{IsAuditOf};
ghost use Rattle.tree_walk.specs.Index.{index_of, tree_pages};
ghost use Rattle.tree_walk.specs.Room.{CanWalk, HasRoom, HasSameRoom};
ghost use Rattle.tree_walk.specs.Segments.{named_segments};
ghost use Rattle.tree_walk.specs.TreeChecks.{TreeChecks};
ghost use Rattle.tree_walk.specs.Walk.{IsEndsOf};
ghost use Rattle.tree_walk.specs.Leaf.{IsWalked};

pub(crate) mod root;

use crate::ends::TreeEnds;
use crate::index::Tree;
use crate::level::{Aim, Level, walk_level};
use crate::walk::Walk;
use column_values::FieldList;
use page_source::{Halt, PageSource, Steps};
use root::{Top, check_root};
use space_audit::{Marks, Space};
use std::sync::ledger::Ledger;

/// The segment of the pages of a level.
fn segment_of(level: u16, top: Top) -> u32
    ensures { result ≡ (if level == 0 then top.leaf else top.upper) }
{
    if level == 0 { top.leaf } else { top.upper }
}

/// The checks of the tree with this root, level by level downward (btr0btr, btr_validate_index). `leaf` and `node` are
/// the fields of its leaf records and of its node pointers. `named` are the segments that earlier indexes named, and
/// `marks` the pages of earlier trees; at `Ok` each grew by those of this one. `Broken` names the first broken one of
/// the rules 27 to 45 and its page; `Source` comes where the file's count of faults rose. It takes no memory, and
/// fetches each page once as a child, and each page above the leaves once more as a parent.
#[tactic(auto, using(crate::proofs::Rooms::has_room))]
pub fn walk_tree<S: PageSource, L: Ledger>(
    walk: &mut Walk,
    source: &mut S,
    space: &Space,
    root: u32,
    leaf: &FieldList,
    node: &FieldList,
    named: &mut Marks,
    marks: &mut Marks,
    steps: &mut Steps<L>,
) -> Result<TreeEnds, Halt>
    requires audit { OfFile S.PageSource source.old (λ file. IsAuditOf file space.now) }
    requires members { length marks.old ≡ space.now.size }
    requires segments { length named.old ≡ length space.now.segments }
    requires ready { CanWalk walk.old leaf.now node.now }
    ensures exact { OfFile S.PageSource source.old (λ file. Halts result
        (TreeChecks (index_of file root leaf.now node.now) (is_set marks.old) (is_set named.old))) }
    ensures ends { IfOk result (λ ends. OfFile S.PageSource source.old (λ file.
        IsEndsOf (index_of file root leaf.now node.now) ends)) }
    ensures walked { IfOk result (λ _. OfFile S.PageSource source.old (λ file.
        IsWalked (index_of file root leaf.now node.now))) }
    ensures grew { IfOk result (λ _. OfFile S.PageSource source.old (λ file.
        Marked (is_set marks.old) marks.new (tree_pages (index_of file root leaf.now node.now)))) }
    ensures names { IfOk result (λ _. OfFile S.PageSource source.old (λ file.
        Marked (is_set named.old) named.new (named_segments (index_of file root leaf.now node.now)))) }
    ensures members { length marks.new ≡ length marks.old }
    ensures segments { length named.new ≡ length named.old }
    ensures marked { StaysMarked marks.old marks.new }
    ensures named { StaysMarked named.old named.new }
    ensures room { HasSameRoom walk.old walk.new }
    ensures stays { (members : ℕ) → HasRoom walk.old members → HasRoom walk.new members }
    ensures keeps { HaltsOver S.PageSource source.old source.new steps.old steps.new result }
    ensures fewer { IfOk result (λ ends. ends.leaves + unmarked marks.new ≤ unmarked marks.old) }
    ensures spent { IfOk result (λ ends. steps.new + 2 * unmarked marks.new + ends.leaves
        ≤ steps.old + 2 * unmarked marks.old) }
    ensures steps { steps.new ≤ steps.old + 2 * unmarked marks.old + 2 }
{
    let tree = Tree {
        space,
        root,
        leaf,
        node,
    };
    let top = check_root(walk, source, &tree, named, marks, steps)?;
    let mut row = Level {
        first: root,
        pages: 1,
        tally: top.tally,
    };
    for depth in 0..top.level {
        let level = top.level - depth - 1;
        let aim = Aim {
            tree,
            index_id: top.index_id,
            segment: segment_of(level, top),
            level,
            depth,
        };
        row = walk_level(walk, source, &aim, row, marks, steps)?;
    }
    Ok(TreeEnds::of(top, row))
}
