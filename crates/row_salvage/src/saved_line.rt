//! The line of a row that was checked.

ghost use Rattle.std.specs.Prelude.{◌≡◌, ◌+◌, ◌<◌, length, List, Option, OnOk, Err};
ghost use Rattle.page_source.specs.declared.rule.Fault.{Fault};
ghost use Rattle.page_source.specs.Calls.{OfFile};
ghost use Rattle.column_values.specs.declared.value.Value.{Value};
ghost use Rattle.sql_dump.specs.Stops.{WritesOver};
ghost use Rattle.sql_dump.specs.Cells.{BreaksRow};
ghost use Rattle.sql_dump.specs.Buffer.{Moves};
ghost use Rattle.salvage_model.specs.SavedRow.{SavesRow, CanSave, saved_pages};
ghost use Rattle.salvage_model.specs.SavedLine.{saved_line};

use crate::partial_line::put_partial;
use crate::row_check::ColumnLosses;
use page_source::{ByteSink, PageSource, Steps};
use salvage_model::laws::{whole_lines_are_lines, whole_rows_are_read};
use sql_dump::{Buffer, ChainRoom, Row, WriteStop, put_line};
use std::sync::ledger::Ledger;

/// Puts the line of a row with these losses after what the buffer holds, or keeps it there. Values that go on elsewhere
/// are read a second time. `Broken` names what isn't any more what it was when the columns were checked: the leaf if a
/// column may not be written (rule 47), else the page of a chain that has no part that fits, or is one too many
/// (rule 49). Over a file that tells its bytes neither comes.
pub fn put_saved_row<S: PageSource, O: ByteSink, L: Ledger>(
    source: &mut S,
    sink: &mut O,
    buffer: &mut Buffer,
    row: &Row,
    losses: &ColumnLosses,
    room: &mut ChainRoom,
    steps: &mut Steps<L>,
) -> Result<(), WriteStop>
    requires all { length losses.now ≡ length row.now.row.table.columns }
    requires told { OfFile S.PageSource source.old (λ file. CanSave file row.now.row losses.now room.old.left) }
    ensures moves { OfFile S.PageSource source.old (λ file. (row_values : List (Option Value))
        → SavesRow file row.now.row losses.now row_values
        → Moves result (O.written sink.old) (O.written sink.new) buffer.old.bytes buffer.new.bytes
        (saved_line row.now.row.table row_values)) }
    ensures left { OnOk result (OfFile S.PageSource source.old (λ file.
        room.new.left + length (saved_pages file row.now.row losses.now) ≡ room.old.left)) }
    ensures broken { (fault : Fault) → result ≡ Err (WriteStop.Broken fault) → BreaksRow row.now fault }
    ensures source { result ≡ Err WriteStop.Source → 0 < room.old.left }
    ensures cost { steps.new + room.new.left ≡ steps.old + room.old.left }
    ensures over { WritesOver S.PageSource O.ByteSink source.old source.new sink.old sink.new
        steps.old steps.new result }
{
    whole_lines_are_lines();
    whole_rows_are_read();
    if losses.is_whole() {
        return put_line(source, sink, buffer, row, room, steps);
    }
    buffer.flush(sink)?;
    put_partial(source, sink, row, losses, room, steps)
}
