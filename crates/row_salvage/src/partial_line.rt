//! The line of a row of which some values are lost.

ghost use Rattle.std.specs.Prelude.{◌≡◌, ◌+◌, ◌<◌, length, List, Option, OnOk, Err, false};
ghost use Rattle.page_source.specs.declared.rule.Fault.{Fault};
ghost use Rattle.page_source.specs.Calls.{OfFile};
ghost use Rattle.column_values.specs.declared.value.Value.{Value};
ghost use Rattle.sql_dump.specs.Stops.{Writes, WritesOver};
ghost use Rattle.sql_dump.specs.Cells.{BreaksRow};
ghost use Rattle.salvage_model.specs.SavedRow.{SavesRow, CanSave, saved_pages, is_whole_row};
ghost use Rattle.salvage_model.specs.SavedLine.{saved_line};

use crate::row_check::ColumnLosses;
use page_source::{ByteSink, PageSource, Rule, Steps};
use row_text::RowWriter;
use sql_dump::{ChainRoom, Row, WriteStop, put_value};
use std::sync::ledger::Ledger;

/// Puts the line of a row of which something is lost, as a comment.
pub(crate) fn put_partial<S: PageSource, O: ByteSink, L: Ledger>(
    source: &mut S,
    sink: &mut O,
    row: &Row,
    losses: &ColumnLosses,
    room: &mut ChainRoom,
    steps: &mut Steps<L>,
) -> Result<(), WriteStop>
    requires all { length losses.now ≡ length row.now.row.table.columns }
    requires some { is_whole_row losses.now ≡ false }
    requires told { OfFile S.PageSource source.old (λ file. CanSave file row.now.row losses.now room.old.left) }
    ensures puts { OfFile S.PageSource source.old (λ file. (row_values : List (Option Value))
        → SavesRow file row.now.row losses.now row_values
        → Writes result (O.written sink.old) (O.written sink.new) (saved_line row.now.row.table row_values)) }
    ensures left { OnOk result (OfFile S.PageSource source.old (λ file.
        room.new.left + length (saved_pages file row.now.row losses.now) ≡ room.old.left)) }
    ensures broken { (fault : Fault) → result ≡ Err (WriteStop.Broken fault) → BreaksRow row.now fault }
    ensures source { result ≡ Err WriteStop.Source → 0 < room.old.left }
    ensures cost { steps.new + room.new.left ≡ steps.old + room.old.left }
    ensures over { WritesOver S.PageSource O.ByteSink source.old source.new sink.old sink.new
        steps.old steps.new result }
{
    sink.put(b"-- ")?;
    let mut writer = RowWriter::begin(sink, row.schema)?;
    for c in 0..row.schema.columns().len() {
        if losses.items()[c].is_some() {
            writer.default(sink)?;
            continue;
        }
        let cell = row.cell(c);
        if !cell.is_sound() {
            return Err(WriteStop::Broken(Rule::Value.at(row.number)));
        }
        put_value(source, sink, &mut writer, &cell, room, steps)?;
    }
    writer.end(sink)?;
    Ok(())
}
