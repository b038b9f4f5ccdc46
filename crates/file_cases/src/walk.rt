//! The command `walk`: the trees of all indexes, in their order.

ghost use Rattle.std.specs.Prelude.{◌≡◌, ◌<◌, IfOk, length};
ghost use Rattle.tree_walk.specs.Room.{HasRoom};

use crate::outcome::End;
use crate::report::Report;
use crate::run::Ready;
use case_files::error::LineError;
use case_files::named_files::NamedFiles;
use case_files::pages::CasePages;
use case_files::plan::Plan;
use case_files::text::put_number;
use case_files::words::Words;
use page_source::{ByteList, NoMemory, Steps};
use schema_text::Schema;
use schema_text::laws::lists_are_of_one_index;
use space_audit::{Marks, Space, audit};
use std::alloc::Global;
use std::marker::Brand;
use std::sync::ledger::{Blank, Ledger};
use table_check::LiveRows;
use tree_walk::{TreeEnds, Walk, walk_tree};

/// `walk BASE ITEM ..`.
#[derive(Drop)]
pub struct WalkCase<'a> {
    plan: Plan<'a>,
}

impl<'a> WalkCase<'a> {
    pub fn read(alloc: Global, words: &mut Words<'a>) -> Result<WalkCase<'a>, LineError> {
        let plan = Plan::read(alloc, words)?;
        words.end()?;
        Ok(WalkCase { plan })
    }

    pub fn run(
        &self,
        alloc: Global,
        files: &NamedFiles,
        answer: &str,
        report: &mut Report,
    ) -> Result<(), LineError> {
        let ready = Ready::new(alloc, files, &self.plan)?;
        let mut came = ByteList::new(alloc);
        match walked(alloc, &ready) {
            Ok(list) => {
                for tree in &list {
                    put_tree(&mut came, tree)?;
                }
            }
            Err(end) => end.put(&mut came)?,
        }
        report.compare(b"", answer.as_bytes(), came.bytes())
    }
}

/// The numbers of a tree, and how many rows came of it one after another.
#[derive(Drop)]
struct WalkedTree {
    ends: TreeEnds,
    rows: u64,
}

/// What walks work in, and the segments and pages that they met.
#[derive(Drop)]
struct Tools {
    walk: Walk,
    named: Marks,
    marks: Marks,
}

impl Tools {
    fn new(alloc: Global, space: &Space) -> Result<Tools, NoMemory>
        ensures members { IfOk result (λ tools. length tools.marks ≡ space.now.size) }
        ensures segments { IfOk result (λ tools. length tools.named ≡ length space.now.segments) }
        ensures room { IfOk result (λ tools. HasRoom tools.walk 128) }
    {
        Ok(Tools {
            named: Marks::new(alloc, space.segment_count())?,
            marks: Marks::new(alloc, space.size())?,
            walk: Walk::new(alloc, 128)?,
        })
    }
}

/// Walks the tree of index `j`.
fn walk_index<L: Ledger>(
    alloc: Global,
    file: &mut CasePages<'_>,
    space: &Space,
    table: &Schema,
    j: usize,
    tools: &mut Tools,
    steps: &mut Steps<L>,
) -> Result<TreeEnds, End>
    requires index { j < length table.now.indexes }
    requires members { length tools.old.marks ≡ space.now.size }
    requires segments { length tools.old.named ≡ length space.now.segments }
    requires room { HasRoom tools.old.walk 128 }
    ensures members { length tools.new.marks ≡ length tools.old.marks }
    ensures segments { length tools.new.named ≡ length tools.old.named }
    ensures room { HasRoom tools.new.walk 128 }
{
    lists_are_of_one_index();
    let leaf = table.fields(alloc, j, true)?;
    let node = table.fields(alloc, j, false)?;
    let root = table.indexes()[j].root;
    Ok(walk_tree(
        &mut tools.walk,
        file,
        space,
        root,
        &leaf,
        &node,
        &mut tools.named,
        &mut tools.marks,
        steps,
    )?)
}

/// How many rows without the delete mark come of a tree, one after another; one more than it has, if that many come.
fn count_rows<L: Ledger>(
    alloc: Global,
    file: &mut CasePages<'_>,
    ends: &TreeEnds,
    steps: &mut Steps<L>,
) -> Result<u64, End> {
    let mut rows = LiveRows::start(alloc, ends)?;
    for count in 0..ends.live {
        if rows.next(file, steps)?.is_none() {
            return Ok(count);
        }
    }
    let is_all = rows.next(file, steps)?.is_none();
    Ok(ends.live.saturating_add(u64::from(!is_all)))
}

/// Walks the trees of all indexes, in their order.
fn walk_trees<L: Ledger>(
    alloc: Global,
    file: &mut CasePages<'_>,
    space: &Space,
    table: &Schema,
    tools: &mut Tools,
    steps: &mut Steps<L>,
) -> Result<Vec<WalkedTree>, End>
    requires members { length tools.old.marks ≡ space.now.size }
    requires segments { length tools.old.named ≡ length space.now.segments }
    requires room { HasRoom tools.old.walk 128 }
{
    let mut list = Vec::new(alloc);
    for j in 0..table.indexes().len() {
        let ends = walk_index(alloc, file, space, table, j, tools, steps)?;
        let rows = count_rows(alloc, file, &ends, steps)?;
        list.push(WalkedTree { ends, rows })
            .map_err(|_| End::Memory)?;
    }
    Ok(list)
}

/// Audits the file, and walks its trees.
fn walk_all<L: Ledger>(
    alloc: Global,
    file: &mut CasePages<'_>,
    table: &Schema,
    blank: Blank,
) -> Result<Vec<WalkedTree>, End>
    requires name { blank.name ≡ L.name }
    requires parts { blank.parts ≡ L.parts }
    requires shared { 0 < blank.parts }
{
    let mut steps = Steps::<L>::new(blank);
    let space = audit(alloc, file, table.flags(), &mut steps)?;
    let mut tools = Tools::new(alloc, &space)?;
    walk_trees(alloc, file, &space, table, &mut tools, &mut steps)
}

/// The trees of the file.
fn walked(alloc: Global, ready: &Ready<'_>) -> Result<Vec<WalkedTree>, End> {
    let table = Schema::read(alloc, ready.schema())?;
    let mut file = CasePages::new(alloc, ready.image());
    walk_all::<Brand>(alloc, &mut file, &table, Blank::new(1))
}

/// Adds the numbers of a tree, behind those of the trees before; the rows that came only if they are others.
fn put_tree(text: &mut ByteList, tree: &WalkedTree) -> Result<(), NoMemory> {
    if !text.bytes().is_empty() {
        text.extend(b"; ")?;
    }
    let ends = &tree.ends;
    let numbers = [
        ("id=", ends.index_id),
        (" level=", u64::from(ends.root_level)),
        (" first=", u64::from(ends.first_leaf)),
        (" leaves=", u64::from(ends.leaves)),
        (" leaf=", u64::from(ends.leaf_segment)),
        (" top=", u64::from(ends.top_segment)),
        (" live=", ends.live),
        (" deleted=", ends.deleted),
    ];
    for (word, number) in numbers {
        text.extend(word.as_bytes())?;
        put_number(text, number)?;
    }
    if tree.rows != ends.live {
        text.extend(b" rows=")?;
        put_number(text, tree.rows)?;
    }
    Ok(())
}
