//! All rules of a tablespace, and then its secondary indexes beside its rows.

ghost use Rattle.std.specs.Prelude.{◌≡◌, ◌+◌, ◌-◌, ◌≤◌, IfOk, OnOk};
ghost use Rattle.page_source.specs.Calls.{OfFile};
ghost use Rattle.space_header.specs.Header.{size_of};
ghost use Rattle.table_check.specs.First.{TakesSteps, AsksAtMost, dump_steps};
ghost use Rattle.table_check.specs.Trees.{index_count};
ghost use Rattle.cross_index.specs.Stops.{CrossesOver};
ghost use Rattle.cross_index.specs.Cross.{Crosses, IsSecondary, Names};

use crate::crossed::{CrossStop, Crossed};
use crate::gathered::gather;
use crate::indexes::compare_indexes;
use page_source::{PageSource, Steps};
use schema_text::Schema;
use std::alloc::Global;
use std::sync::ledger::Ledger;
use table_check::check_whole;
use table_check::laws::checks_are_validity;

/// Checks a tablespace by the rules 1 to 51, and then compares the entries of each secondary index that have no delete
/// mark with the rows of its table. `Broken` names the first broken rule and its page. `Missing` and `Extra` speak of
/// the first index that differs, by its place in the schema (the clustered one is 0), and of the least key that only
/// one side has: `row` is the place of the row that has no entry, from 1 on, `page` the leaf page of the entry that is
/// of no row. `Source` comes only if the file's count of faults rose, `Memory` if memory ran out.
pub fn cross<S: PageSource, L: Ledger>(
    alloc: Global,
    source: &mut S,
    schema: &Schema,
    steps: &mut Steps<L>,
) -> Result<Crossed, CrossStop>
    ensures exact { OfFile S.PageSource source.old (λ file. Crosses file schema.now result) }
    ensures indexes { IfOk result (λ crossed. crossed.indexes ≡ index_count schema.now - 1) }
    ensures named { Names (IsSecondary schema.now) result }
    ensures steps { TakesSteps S.PageSource source.old dump_steps steps.old steps.new }
    ensures fetches { AsksAtMost S.PageSource source.old source.new dump_steps }
    ensures sized { OnOk result (OfFile S.PageSource source.old (λ file.
        steps.new ≤ steps.old + dump_steps (size_of file))) }
    ensures over { CrossesOver S.PageSource source.old source.new steps.old steps.new result }
{
    checks_are_validity();
    let indexes = schema.indexes().len() - 1;
    let whole = check_whole(alloc, source, schema, steps)?;
    let clustered = &whole.ends.items()[0];
    let found = gather(
        alloc,
        source,
        schema,
        clustered,
        whole.table.chain_pages,
        steps,
    )?;
    let entries = compare_indexes(alloc, source, schema, &whole.ends, &found, steps)?;
    Ok(Crossed {
        indexes: indexes as u32,
        entries,
    })
}
