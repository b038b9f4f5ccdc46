//! The values of all rows of a table.

ghost use Rattle.std.specs.Prelude.{◌≡◌, ◌+◌, ◌≤◌, false, length, IfOk, OnOk, Err};
ghost use Rattle.page_source.specs.Lists.{unmarked};
ghost use Rattle.page_source.specs.Checks.{Answers};
ghost use Rattle.page_source.specs.Calls.{OfFile, AsksNoMore, StopsOver};
ghost use Rattle.column_values.specs.Types.{AreFields};
ghost use Rattle.compact_record.specs.Reading.{IsHeapOrigin};
ghost use Rattle.schema_text.specs.IndexFields.{leaf_fields};
ghost use Rattle.space_audit.specs.Marks.{is_set};
ghost use Rattle.offpage_chain.specs.Places.{CanCheck};
ghost use Rattle.tree_walk.specs.Records.{IsRecord};
ghost use Rattle.table_check.specs.Trees.{clustered_tree, all_tree_pages};
ghost use Rattle.table_check.specs.First.{ValueChecksOf};
ghost use Rattle.table_check.specs.Taken.{AreExactly, IsClustered, IsReached};
ghost use Rattle.table_check.specs.Marking.{CanMark, ChecksPages};
ghost use Rattle.table_check.specs.Live.{GivesAll};
ghost use Rattle.table_check.specs.Values.{RowChecks, all_chain_pages};
ghost use Rattle.table_check.specs.Leaf.{RowChecksOn, pages_of_row_on};

use crate::leaf::{Leaves, RowLeaf};
use crate::pass::pass_leaves;
use crate::record::check_row_values;
use crate::rows::LiveRows;
use crate::skipped::can_skip_values;
use compact_record::Located;
use offpage_chain::ChainPages;
use page_source::{Halt, PAGE_SIZE, Page, PageSource, Rule, Steps, Stop};
use schema_text::Schema;
use space_audit::{Marks, Space};
use std::alloc::Global;
use std::sync::ledger::Ledger;
use tree_walk::laws::rows_can_be_read;
use tree_walk::{LeafCursor, TreeEnds};

/// Checks the values of the record at this origin of a leaf. Marks the pages that they go on in, and answers how many
/// there are. A record that can't be read breaks rule 40; in a file that tells its bytes none is met.
fn check_row<S: PageSource, L: Ledger>(
    source: &mut S,
    leaf: &RowLeaf,
    origin: usize,
    located: &mut Located,
    marks: &mut Marks,
    page: &mut Page,
    steps: &mut Steps<L>,
) -> Result<u32, Halt>
    requires fields { AreFields leaf.now.fields.now }
    requires origin { IsHeapOrigin origin }
    requires room { length leaf.now.fields.now.fields ≤ located.old.members }
    requires record { OfFile S.PageSource source.old (λ _. IsRecord leaf.now.page.now leaf.now.fields.now origin) }
    requires ready { CanCheck S.PageSource source.old leaf.now.pages marks.old }
    ensures checks { ChecksPages S.PageSource source.old source.new marks.old marks.new steps.old steps.new result
        (λ file. RowChecksOn file leaf.now origin (is_set marks.old))
        (λ file. pages_of_row_on file leaf.now origin) }
    ensures asked { AsksNoMore S.PageSource source.old source.new steps.old steps.new }
    ensures unread { ¬ (IsRecord leaf.now.page.now leaf.now.fields.now origin)
        → result ≡ Err (Halt.Broken (record { rule = Rule.RecordSpelling; page = leaf.now.number })) }
    ensures room { located.new.members ≡ located.old.members }
{
    if !located.again(leaf.page, origin, leaf.fields) || located.end() > PAGE_SIZE {
        return Err(Halt::Broken(Rule::RecordSpelling.at(leaf.number)));
    }
    check_row_values(source, leaf, located, marks, page, steps)
}

/// Checks the values of all rows, by the rules 47, 48, 49 and 51. Marks the pages that they go on in, and answers how
/// many there are.
pub(crate) fn check_rows<S: PageSource, L: Ledger>(
    source: &mut S,
    leaves: &Leaves,
    schema: &Schema,
    rows: &mut LiveRows,
    located: &mut Located,
    marks: &mut Marks,
    page: &mut Page,
    steps: &mut Steps<L>,
) -> Result<u32, Halt>
    requires fields { AreFields leaves.now.fields.now }
    requires list { leaves.now.fields.now ≡ leaf_fields schema.now 0 }
    requires room { length leaves.now.fields.now.fields ≤ located.old.members }
    requires goes_on { rows.old.ended ≡ false }
    requires told { OfFile S.PageSource source.old (λ file.
        GivesAll (clustered_tree file schema.now) rows.old leaves.now.segment) }
    requires ready { CanMark S.PageSource source.old leaves.now.space.now marks.old }
    ensures checks { ChecksPages S.PageSource source.old source.new marks.old marks.new
        (steps.old + rows.old.leaf.may_fetch) steps.new result
        (λ file. RowChecks (clustered_tree file schema.now) (is_set marks.old))
        (λ file. all_chain_pages (clustered_tree file schema.now)) }
    ensures asked { AsksNoMore S.PageSource source.old source.new steps.old steps.new }
{
    rows_can_be_read();
    let _size = leaves.space.size();
    let mut count = 0;
    while let Some(origin) = rows.next(source, steps)? {
        let leaf = RowLeaf {
            pages: ChainPages::Audited {
                space: leaves.space,
                segment: leaves.segment,
            },
            fields: leaves.fields,
            number: rows.number(),
            page: rows.page(),
        };
        count += check_row(source, &leaf, origin, located, marks, page, steps)?;
    }
    Ok(count)
}

/// Checks the values of all rows of a table whose trees are these pages. Marks the pages that they go on in, and
/// answers how many there are. At Ok it took a step for each leaf and one for each of these pages. If all values lie
/// whole on their leaves, and any bytes spell one, none can be wrong: the leaves are taken in their order, and not
/// looked at.
pub(crate) fn check_values<S: PageSource, L: Ledger>(
    alloc: Global,
    source: &mut S,
    space: &Space,
    schema: &Schema,
    clustered: &TreeEnds,
    marks: &mut Marks,
    steps: &mut Steps<L>,
) -> Result<u32, Stop>
    requires ready { CanMark S.PageSource source.old space.now marks.old }
    requires clustered { OfFile S.PageSource source.old (λ file. IsClustered file schema.now clustered.now) }
    requires trees { OfFile S.PageSource source.old (λ file. AreExactly marks.old (all_tree_pages file schema.now)) }
    ensures exact { OfFile S.PageSource source.old (λ file. Answers result (ValueChecksOf file schema.now)) }
    ensures count { IfOk result (λ count. OfFile S.PageSource source.old (λ file.
        count ≡ length (all_chain_pages (clustered_tree file schema.now)))) }
    ensures reached { OnOk result (OfFile S.PageSource source.old (λ file. IsReached file schema.now marks.new)) }
    ensures members { length marks.new ≡ length marks.old }
    ensures fewer { IfOk result (λ count. count + unmarked marks.new ≤ unmarked marks.old) }
    ensures cost { steps.new ≤ steps.old + clustered.now.leaves + unmarked marks.old + 1 }
    ensures exactly { IfOk result (λ count. steps.new ≡ steps.old + clustered.now.leaves + count) }
    ensures over { StopsOver S.PageSource source.old source.new steps.old steps.new result }
{
    let _ = schema.indexes();
    let fields = schema.fields(alloc, 0, true)?;
    rows_can_be_read();
    if can_skip_values(clustered, &fields) {
        let mut cursor = LeafCursor::start(alloc, clustered)?;
        pass_leaves(source, &mut cursor, steps)?;
        return Ok(0);
    }
    let mut page = Page::zeroed(alloc)?;
    let leaves = Leaves {
        space,
        segment: clustered.leaf_segment,
        fields: &fields,
    };
    let mut located = Located::with_room(alloc, fields.fields().len() as u32)?;
    // what has most parts comes last, since at each `?` all that is in hand is given back
    let mut rows = LiveRows::start(alloc, clustered)?;
    Ok(check_rows(
        source,
        &leaves,
        schema,
        &mut rows,
        &mut located,
        marks,
        &mut page,
        steps,
    )?)
}
