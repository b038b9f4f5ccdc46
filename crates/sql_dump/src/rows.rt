//! The lines of all rows.

ghost use Rattle.std.specs.Prelude.{◌≡◌, ◌+◌, ◌≤◌, List, [], false, OnOk};
ghost use Rattle.page_source.specs.Calls.{OfFile};
ghost use Rattle.column_values.specs.declared.value.Value.{Value};
ghost use Rattle.schema_text.specs.Grammar.{IsTable};
ghost use Rattle.row_text.specs.Line.{text_of};
ghost use Rattle.sql_dump.specs.Stops.{Writes, WritesOver};
ghost use Rattle.sql_dump.specs.Lines.{CanWrite, ReadsRows};
ghost use Rattle.sql_dump.specs.SomeRows.{GrowsByRows};

use crate::buffer::Buffer;
use crate::line::put_line;
use crate::long::ChainRoom;
use crate::reader::RowReader;
use crate::stop::WriteStop;
use page_source::{ByteSink, PageSource, Steps};
use std::sync::ledger::Ledger;
use table_check::LiveRows;

/// Puts the line of each row that `rows` gives, by an empty buffer.
pub(crate) fn put_rows<S: PageSource, O: ByteSink, L: Ledger>(
    source: &mut S,
    sink: &mut O,
    buffer: &mut Buffer,
    reader: &mut RowReader,
    rows: &mut LiveRows,
    room: &mut ChainRoom,
    steps: &mut Steps<L>,
) -> Result<(), WriteStop>
    requires table { IsTable reader.old.table }
    requires goes_on { rows.old.ended ≡ false }
    requires empty { buffer.old.bytes ≡ [] }
    requires told { OfFile S.PageSource source.old (λ file. CanWrite file reader.old.table rows.old room.old.left) }
    ensures puts { OfFile S.PageSource source.old (λ file. (all : List (List Value))
        → ReadsRows file reader.old.table all
        → Writes result (O.written sink.old) (O.written sink.new) (text_of reader.old.table all)) }
    ensures some { OnOk result
        (GrowsByRows reader.old.table (O.written sink.old) (O.written sink.new) rows.old.live) }
    ensures cost { steps.new ≤ steps.old + rows.old.leaf.may_fetch + room.old.left }
    ensures over { WritesOver S.PageSource O.ByteSink source.old source.new sink.old sink.new
        steps.old steps.new result }
{
    while let Some(origin) = rows.next(source, steps)? {
        let (page, number) = (rows.page(), rows.number());
        reader.read(page, number, origin)?;
        let row = reader.row(page, number);
        put_line(source, sink, buffer, &row, room, steps)?;
    }
    buffer.flush(sink)?;
    Ok(())
}
