//! The rows of a table as text.

ghost use Rattle.std.specs.Prelude.{◌≤◌, ◌+◌, IfOk};
ghost use Rattle.page_source.specs.Calls.{OfFile};
ghost use Rattle.page_source.specs.Pages.{page_count};
ghost use Rattle.table_check.specs.First.{TakesSteps, AsksAtMost, check_steps, dump_steps};
ghost use Rattle.sql_dump.specs.Dump.{Dumps, DumpsOver, row_pages};
ghost use Rattle.sql_dump.specs.SomeRows.{GrowsByRows};

use crate::buffer::Buffer;
use crate::laws::{checked_can_be_read, schema_is_table};
use crate::long::ChainRoom;
use crate::reader::RowReader;
use crate::rows::put_rows;
use crate::stop::DumpStop;
use page_source::{ByteSink, PageSource, Steps};
use schema_text::Schema;
use std::alloc::Global;
use std::sync::ledger::Ledger;
use table_check::laws::checks_are_validity;
use table_check::{Checked, LiveRows, check_table};

/// Checks a tablespace by the rules 1 to 51, and then writes one line for each row of its table that has no delete
/// mark, in the order of the clustered index: at `Ok` as many lines as rows were counted, over a file that changes too.
/// `Broken` names the first broken rule and its page. `Source` and `Sink` come only if the count of faults of that
/// object rose, `Memory` if memory ran out, before the first line.
pub fn dump<S: PageSource, O: ByteSink, L: Ledger>(
    alloc: Global,
    source: &mut S,
    schema: &Schema,
    sink: &mut O,
    steps: &mut Steps<L>,
) -> Result<Checked, DumpStop>
    ensures told { OfFile S.PageSource source.old (λ file.
        Dumps O.ByteSink file schema.now result sink.old sink.new) }
    ensures lines { IfOk result (λ checked.
        GrowsByRows schema.now (O.written sink.old) (O.written sink.new) checked.rows) }
    ensures over { DumpsOver S.PageSource O.ByteSink source.old source.new sink.old sink.new
        steps.old steps.new result }
    ensures steps { TakesSteps S.PageSource source.old dump_steps steps.old steps.new }
    ensures fetches { AsksAtMost S.PageSource source.old source.new dump_steps }
    ensures again { OfFile S.PageSource source.old (λ file. S.fetches source.new
        ≤ S.fetches source.old + check_steps (page_count file) + row_pages file schema.now) }
    ensures sized { IfOk result (λ checked. steps.new ≤ steps.old + dump_steps checked.pages) }
{
    schema_is_table(schema);
    checked_can_be_read();
    checks_are_validity();
    let table = check_table(alloc, source, schema, steps)?;
    // what has most parts comes last, since at each `?` all that is in hand is given back
    let mut room = ChainRoom::new(alloc, table.chain_pages)?;
    let mut buffer = Buffer::new(alloc)?;
    let mut rows = LiveRows::start(alloc, &table.clustered)?;
    let mut reader = RowReader::new(alloc, schema)?;
    put_rows(
        source,
        sink,
        &mut buffer,
        &mut reader,
        &mut rows,
        &mut room,
        steps,
    )?;
    Ok(table.checked)
}
