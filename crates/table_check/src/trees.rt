//! The trees of all indexes, and the segments that they name.

ghost use Rattle.std.specs.Prelude.{◌≡◌, ◌+◌, ◌*◌, ◌<◌, ◌≤◌, ◌++◌, ◌∷◌, [], length, true, IfOk, OnOk};
ghost use Rattle.page_source.specs.Lists.{unmarked};
ghost use Rattle.page_source.specs.Checks.{Answers, Finds};
ghost use Rattle.page_source.specs.Calls.{OfFile, StopsOver};
ghost use Rattle.page_source.specs.Verdict.{EachOf};
ghost use Rattle.space_audit.specs.Marks.{is_set};
ghost use Rattle.space_audit.specs.Space.{IsAuditOf};
ghost use Rattle.tree_walk.specs.Leaf.{IsWalked};
ghost use Rattle.tree_walk.specs.Room.{HasRoom};
ghost use Rattle.tree_walk.specs.Walk.{IsEndsOf};
ghost use Rattle.table_check.specs.Trees.{index_in, index_count, IndexCheck, AllTreeChecks, NamedCheck};
ghost use Rattle.table_check.specs.First.{TableTreeChecks};
ghost use Rattle.table_check.specs.Taken.{CanTake, AreTaken, AreWalked, AreEnds, AreTrees, LeavesRoom, LeavesSome};
ghost use Rattle.table_check.specs.Taken.{leaves_of};

use crate::ends::EndsList;
use page_source::{Fault, NoMemory, PageSource, Rule, Steps, Stop};
use schema_text::Schema;
use schema_text::laws::lists_are_of_one_index;
use space_audit::{Marks, Space};
use std::alloc::Global;
use std::sync::ledger::Ledger;
use tree_walk::{TreeEnds, Walk, walk_tree};

/// More fields than a record has: 64 columns, a row id, a transaction id and a roll pointer are fewer.
pub const MOST_FIELDS: u32 = 128;

/// What is known of the trees of a table: the clustered one, the segments of the leaves of all, in the order of the
/// indexes, and the pages of all.
#[derive(Debug, Drop)]
pub(crate) struct Trees {
    pub(crate) clustered: TreeEnds,
    pub(crate) ends: EndsList,
    pub(crate) leaf_segments: Vec<u32>,
    pub(crate) marks: Marks,
}

/// What the trees that were walked so far take: a mark for each of their pages, and one for each segment that they
/// name.
#[derive(Debug, Drop)]
struct Taken {
    pages: Marks,
    segments: Marks,
}

/// Checks the tree of an index. Its pages and its segments are taken from now on.
fn walk_index<S: PageSource, L: Ledger>(
    alloc: Global,
    walk: &mut Walk,
    source: &mut S,
    space: &Space,
    schema: &Schema,
    j: usize,
    taken: &mut Taken,
    steps: &mut Steps<L>,
) -> Result<TreeEnds, Stop>
    requires index { j < length schema.now.indexes }
    requires ready { CanTake S.PageSource source.old space.now taken.old }
    requires room { HasRoom walk.old 128 }
    requires told { OfFile S.PageSource source.old (λ file. AreTaken file schema.now j taken.old) }
    ensures exact { OfFile S.PageSource source.old (λ file. Answers result (IndexCheck file schema.now j)) }
    ensures ends { IfOk result (λ ends. OfFile S.PageSource source.old (λ file.
        IsEndsOf (index_in file schema.now j) ends)) }
    ensures walked { OnOk result (OfFile S.PageSource source.old (λ file. IsWalked (index_in file schema.now j))) }
    ensures taken { OnOk result (OfFile S.PageSource source.old (λ file. AreTaken file schema.now (j + 1) taken.new)) }
    ensures members { length taken.new.pages ≡ length taken.old.pages }
    ensures segments { length taken.new.segments ≡ length taken.old.segments }
    ensures room { HasRoom walk.new 128 }
    ensures leaves { IfOk result (λ ends.
        LeavesRoom ends.leaves taken.old.pages taken.new.pages steps.old steps.new) }
    ensures steps { steps.new ≤ steps.old + 2 * unmarked taken.old.pages + 2 }
    ensures over { StopsOver S.PageSource source.old source.new steps.old steps.new result }
{
    lists_are_of_one_index();
    let leaf = schema.fields(alloc, j, true)?;
    let node = schema.fields(alloc, j, false)?;
    let root = schema.indexes()[j].root;
    Ok(walk_tree(
        walk,
        source,
        space,
        root,
        &leaf,
        &node,
        &mut taken.segments,
        &mut taken.pages,
        steps,
    )?)
}

/// Adds the ends of a tree, and the segment of its leaves.
fn push(list: &mut EndsList, segments: &mut Vec<u32>, ends: TreeEnds) -> Result<(), NoMemory>
    ensures ends { OnOk result (list.new ≡ list.old ++ ends ∷ []) }
    ensures segments { OnOk result (segments.new.items ≡ segments.old.items ++ ends.leaf_segment ∷ []) }
{
    list.push(ends)?;
    segments.push(ends.leaf_segment)?;
    Ok(())
}

/// Checks the trees of all indexes, in their order. Adds their ends and the segments of their leaves, and answers the
/// ends of the clustered one.
fn walk_indexes<S: PageSource, L: Ledger>(
    alloc: Global,
    source: &mut S,
    space: &Space,
    schema: &Schema,
    list: &mut EndsList,
    leaf_segments: &mut Vec<u32>,
    taken: &mut Taken,
    steps: &mut Steps<L>,
) -> Result<TreeEnds, Stop>
    requires none { list.old ≡ [] }
    requires empty { leaf_segments.old.items ≡ [] }
    requires ready { CanTake S.PageSource source.old space.now taken.old }
    requires told { OfFile S.PageSource source.old (λ file. AreTaken file schema.now 0 taken.old) }
    ensures exact { OfFile S.PageSource source.old (λ file. Answers result (AllTreeChecks file schema.now)) }
    ensures walked { IfOk result (λ clustered. OfFile S.PageSource source.old (λ file.
        AreWalked file schema.now (index_count schema.now) taken.new clustered leaf_segments.new.items)) }
    ensures ends { OnOk result (OfFile S.PageSource source.old (λ file.
        AreEnds file schema.now (index_count schema.now) list.new)) }
    ensures count { OnOk result (length list.new ≡ index_count schema.now) }
    ensures members { length taken.new.pages ≡ length taken.old.pages }
    ensures segments { length taken.new.segments ≡ length taken.old.segments }
    ensures leaves { OnOk result
        (LeavesRoom (leaves_of list.new) taken.old.pages taken.new.pages steps.old steps.new) }
    ensures least { IfOk result (λ clustered. clustered.leaves ≤ leaves_of list.new) }
    ensures steps { steps.new ≤ steps.old + 2 * unmarked taken.old.pages + 2 }
    ensures over { StopsOver S.PageSource source.old source.new steps.old steps.new result }
{
    let count = schema.indexes().len();
    let mut walk = Walk::new(alloc, MOST_FIELDS)?;
    let clustered = walk_index(alloc, &mut walk, source, space, schema, 0, taken, steps)?;
    push(list, leaf_segments, clustered)?;
    for j in 1..count {
        let ends = walk_index(alloc, &mut walk, source, space, schema, j, taken, steps)?;
        push(list, leaf_segments, ends)?;
    }
    Ok(clustered)
}

/// Checks that each segment is named by a root (rule 46).
fn check_named(space: &Space, named: &Marks) -> Result<(), Fault>
    requires { length named.now ≡ length space.now.segments }
    ensures { Finds result (EachOf space.now.segments (NamedCheck (λ segment. is_set named.now segment ≡ true))) }
{
    for segment in 0..space.segment_count() {
        if !named.has(segment) {
            return Err(Rule::SegmentUnnamed.at(space.inode_page(segment)));
        }
    }
    Ok(())
}

/// Checks the trees of all indexes, and that they name each segment, by the rules 27 to 46.
pub(crate) fn check_trees<S: PageSource, L: Ledger>(
    alloc: Global,
    source: &mut S,
    space: &Space,
    schema: &Schema,
    steps: &mut Steps<L>,
) -> Result<Trees, Stop>
    requires audit { OfFile S.PageSource source.old (λ file. IsAuditOf file space.now) }
    ensures exact { OfFile S.PageSource source.old (λ file. Answers result (TableTreeChecks file schema.now)) }
    ensures trees { IfOk result (λ trees. OfFile S.PageSource source.old (λ file. AreTrees file schema.now trees)) }
    ensures count { IfOk result (λ trees. length trees.ends ≡ index_count schema.now) }
    ensures members { IfOk result (λ trees. length trees.marks ≡ space.now.size) }
    ensures leaves { IfOk result (λ trees.
        LeavesSome (leaves_of trees.ends) trees.marks space.now.size steps.old steps.new) }
    ensures least { IfOk result (λ trees. trees.clustered.leaves ≤ leaves_of trees.ends) }
    ensures steps { steps.new ≤ steps.old + 2 * space.now.size + 2 }
    ensures over { StopsOver S.PageSource source.old source.new steps.old steps.new result }
{
    let pages = Marks::new(alloc, space.size())?;
    let segments = Marks::new(alloc, space.segment_count())?;
    let mut taken = Taken { pages, segments };
    let mut ends = EndsList::new(alloc);
    let mut leaf_segments = Vec::new(alloc);
    let clustered = walk_indexes(
        alloc,
        source,
        space,
        schema,
        &mut ends,
        &mut leaf_segments,
        &mut taken,
        steps,
    )?;
    check_named(space, &taken.segments)?;
    Ok(Trees {
        clustered,
        ends,
        leaf_segments,
        marks: taken.pages,
    })
}
