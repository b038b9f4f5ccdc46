//! The values of the rows that the secondary indexes take.

ghost use Rattle.std.specs.Prelude.{◌≡◌, ◌+◌, ◌≤◌, IfOk};
ghost use Rattle.page_source.specs.Calls.{OfFile};
ghost use Rattle.cross_index.specs.Stops.{CrossesOver, OnlyReads};
ghost use Rattle.cross_index.specs.calls.Broken.{BreaksAt, BreaksReading};
ghost use Rattle.cross_index.specs.calls.Gather.{IsGathered};
ghost use Rattle.cross_index.specs.calls.Indexes.{CanRead, HasFields};

use crate::crossed::CrossStop;
use crate::gather::gather_rows;
use crate::kept::kept_fields;
use crate::kept_values::KeptValues;
use crate::long::Room;
use compact_record::Located;
use page_source::{Page, PageSource, Steps};
use schema_text::{Schema, column_fields};
use std::alloc::Global;
use std::sync::ledger::Ledger;
use table_check::LiveRows;
use table_check::laws::trees_are_walked;
use tree_walk::TreeEnds;

/// The kept values of all rows.
#[derive(Drop)]
pub(crate) struct Gathered {
    /// The field of each column.
    pub(crate) at: Vec<usize>,
    /// The fields that are kept of each row.
    pub(crate) kept: Vec<usize>,
    /// The values of the kept fields, row after row.
    pub(crate) cells: KeptValues,
    /// How many rows there are.
    pub(crate) count: usize,
}

/// Reads the rows of a sound file once, and keeps the values that some secondary index takes.
pub(crate) fn gather<S: PageSource, L: Ledger>(
    alloc: Global,
    source: &mut S,
    schema: &Schema,
    ends: &TreeEnds,
    chain_pages: u32,
    steps: &mut Steps<L>,
) -> Result<Gathered, CrossStop>
    requires { OfFile S.PageSource source.old (λ file. CanRead file schema.now ends.now chain_pages) }
    ensures fields { IfOk result (HasFields schema.now) }
    ensures gathered { IfOk result (λ found. OfFile S.PageSource source.old (λ file.
        IsGathered file schema.now found.cells found.count)) }
    ensures exact { OfFile S.PageSource source.old (λ file. OnlyReads result) }
    ensures broken { BreaksAt BreaksReading result }
    ensures cost { steps.new ≤ steps.old + ends.now.leaves + chain_pages }
    ensures over { CrossesOver S.PageSource source.old source.new steps.old steps.new result }
{
    trees_are_walked();
    let _ = *ends;
    let at = column_fields(alloc, schema)?;
    let fields = schema.fields(alloc, 0, true)?;
    let kept = kept_fields(alloc, schema, &at, fields.fields().len())?;
    // what has most parts comes last, since at each `?` all that is in hand is given back
    let mut located = Located::with_room(alloc, fields.fields().len() as u32)?;
    let mut rows = LiveRows::start(alloc, ends)?;
    let mut room = Room {
        page: Page::zeroed(alloc)?,
        left: chain_pages,
        value: Vec::new(alloc),
    };
    let mut cells = KeptValues::new(alloc);
    let count = gather_rows(
        source,
        schema,
        &fields,
        &kept,
        &mut rows,
        &mut located,
        &mut cells,
        &mut room,
        steps,
    )?;
    Ok(Gathered {
        at,
        kept,
        cells,
        count,
    })
}
