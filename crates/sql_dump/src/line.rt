//! The line of a row, kept in the buffer or put.

ghost use Rattle.std.specs.Prelude.{◌≡◌, ◌≢◌, ◌+◌, ◌<◌, ◌≤◌, List, length, IfOk, OnOk, OnErr, Err};
ghost use Rattle.page_source.specs.declared.rule.Fault.{Fault};
ghost use Rattle.page_source.specs.Faults.{Rose, HasCause};
ghost use Rattle.page_source.specs.Objects.{GrowsByPart};
ghost use Rattle.page_source.specs.Calls.{OfFile, AsksNoMore};
ghost use Rattle.column_values.specs.declared.value.Value.{Value};
ghost use Rattle.row_text.specs.Line.{line_of};
ghost use Rattle.sql_dump.specs.Stops.{WritesOver};
ghost use Rattle.sql_dump.specs.Cells.{ReadsRow, CanReadRow, BreaksRow, pages_of_all};
ghost use Rattle.sql_dump.specs.Buffer.{IsSent, Keeps, LeavesOf, Moves};
ghost use Rattle.sql_dump.specs.SomeRows.{KeepsSomeRow, MovesSomeRow};

use crate::buffer::Buffer;
use crate::long::ChainRoom;
use crate::row::{Row, put_row};
use crate::stop::WriteStop;
use page_source::{ByteSink, Failed, PageSource, Steps};
use std::sync::ledger::Ledger;

/// A buffer with more bytes is put before the next line.
const ENOUGH: usize = 32_768;

/// Writes out what the buffer holds, if that is more than 32,768 bytes.
fn make_room<O: ByteSink>(buffer: &mut Buffer, sink: &mut O) -> Result<(), Failed>
    ensures sent { OnOk result (IsSent (O.written sink.old) (O.written sink.new) buffer.old.bytes buffer.new.bytes) }
    ensures cut { OnErr result (GrowsByPart (O.written sink.old) (O.written sink.new) buffer.old.bytes) }
    ensures cause { HasCause (O.faults sink.old) (O.faults sink.new) result }
{
    if buffer.len() > ENOUGH {
        return buffer.flush(sink);
    }
    Ok(())
}

/// Keeps the line of a row in the buffer, if no value goes on elsewhere and there is room for it. Otherwise the answer
/// is false, and the buffer is as before.
fn keep_line<S: PageSource, L: Ledger>(
    source: &mut S,
    buffer: &mut Buffer,
    row: &Row,
    room: &mut ChainRoom,
    steps: &mut Steps<L>,
) -> Result<bool, WriteStop>
    requires told { OfFile S.PageSource source.old (λ file. CanReadRow file row.now.row room.old.left) }
    ensures keeps { OfFile S.PageSource source.old (λ file. (row_values : List Value)
        → ReadsRow file row.now.row row_values
        → Keeps result buffer.old.bytes buffer.new.bytes (line_of row.now.row.table row_values)) }
    ensures some { KeepsSomeRow row.now.row.table result buffer.old.bytes buffer.new.bytes }
    ensures broken { (fault : Fault) → result ≡ Err (WriteStop.Broken fault) → BreaksRow row.now fault }
    ensures left { IfOk result (λ kept. OfFile S.PageSource source.old (λ file.
        LeavesOf kept room.old.left room.new.left (length (pages_of_all file row.now.row)))) }
    ensures source { result ≡ Err WriteStop.Source → 0 < room.old.left }
    ensures near { room.new.left ≡ room.old.left }
    ensures cost { steps.new + room.new.left ≡ steps.old + room.old.left }
    ensures same { S.content source.new ≡ S.content source.old }
    ensures later { S.faults source.old ≤ S.faults source.new }
    ensures rose { result ≡ Err WriteStop.Source → Rose (S.faults source.old) (S.faults source.new) }
    ensures asked { AsksNoMore S.PageSource source.old source.new steps.old steps.new }
    ensures sink { result ≢ Err WriteStop.Sink }
{
    if !row.is_near() {
        return Ok(false);
    }
    let held = buffer.len();
    match put_row(source, buffer, row, room, steps) {
        Ok(()) => Ok(true),
        // The sink is the buffer here, so `Sink` says that the line doesn't fit.
        Err(WriteStop::Sink) => {
            buffer.truncate(held);
            Ok(false)
        }
        Err(stop) => Err(stop),
    }
}

/// Keeps the line of a row in the buffer, or puts it after what the buffer holds. A line with values that go on
/// elsewhere, or without room in the buffer, isn't kept.
pub fn put_line<S: PageSource, O: ByteSink, L: Ledger>(
    source: &mut S,
    sink: &mut O,
    buffer: &mut Buffer,
    row: &Row,
    room: &mut ChainRoom,
    steps: &mut Steps<L>,
) -> Result<(), WriteStop>
    requires told { OfFile S.PageSource source.old (λ file. CanReadRow file row.now.row room.old.left) }
    ensures moves { OfFile S.PageSource source.old (λ file. (row_values : List Value)
        → ReadsRow file row.now.row row_values
        → Moves result (O.written sink.old) (O.written sink.new) buffer.old.bytes buffer.new.bytes
        (line_of row.now.row.table row_values)) }
    ensures some { OnOk result (MovesSomeRow row.now.row.table (O.written sink.old) (O.written sink.new)
        buffer.old.bytes buffer.new.bytes) }
    ensures broken { (fault : Fault) → result ≡ Err (WriteStop.Broken fault) → BreaksRow row.now fault }
    ensures left { OnOk result (OfFile S.PageSource source.old (λ file.
        room.new.left + length (pages_of_all file row.now.row) ≡ room.old.left)) }
    ensures source { result ≡ Err WriteStop.Source → 0 < room.old.left }
    ensures cost { steps.new + room.new.left ≡ steps.old + room.old.left }
    ensures over { WritesOver S.PageSource O.ByteSink source.old source.new sink.old sink.new
        steps.old steps.new result }
{
    make_room(buffer, sink)?;
    if keep_line(source, buffer, row, room, steps)? {
        return Ok(());
    }
    buffer.flush(sink)?;
    put_row(source, sink, row, room, steps)
}
