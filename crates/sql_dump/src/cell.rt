//! A column of a row.

ghost use Rattle.std.specs.Prelude.{◌≡◌, ◌+◌, ◌<◌, ◌≤◌, ◌↔◌, ◌++◌, length, true, IsTrue, OnOk, Err};
ghost use Rattle.page_source.specs.declared.rule.Fault.{Fault};
ghost use Rattle.page_source.specs.Calls.{OfFile};
ghost use Rattle.column_values.specs.declared.value.Value.{Value};
ghost use Rattle.row_text.specs.Values.{value_text};
ghost use Rattle.row_text.specs.Writer.{before_value};
ghost use Rattle.sql_dump.specs.Stops.{Writes, WritesOver};
ghost use Rattle.sql_dump.specs.SomeRows.{PutsSomeValue};
ghost use Rattle.sql_dump.specs.Cells.{IsNear, IsSound, ReadsValue, CanReadCell, local_bytes, pages_of_cell};

use crate::long::{ChainRoom, fits_long, put_long};
use crate::stop::WriteStop;
use column_values::{ColumnType, is_value};
use compact_record::Place;
use page_source::{ByteSink, Page, PageSource, Rule, Steps};
use row_text::RowWriter;
use row_text::laws::parts_are_the_value;
use std::marker::Model;
use std::sync::ledger::Ledger;

/// A column of a row: its type, the leaf, and where it lies there.
#[derive(Drop)]
pub struct Cell<'a> {
    pub kind: &'a ColumnType,
    pub page: &'a Page,
    pub place: Place,
}

impl<'a> Model for Cell<'a> {
    ghost use Rattle.sql_dump.specs.Cells.{CellView, IsCell};

    ghost Value = { CellView };

    ghost view = { λ cell. record { kind = cell.kind.now; page = cell.page.now; place = cell.place } };

    ghost invariant = { λ cell. IsCell
        (record { kind = cell.kind.now; page = cell.page.now; place = cell.place }) };
}

impl Cell<'_> {
    /// The bytes of the column on the leaf. If it goes on elsewhere, they end with a reference.
    pub fn local(&self) -> &[u8]
        ensures bytes { result.now ≡ local_bytes self.now }
        ensures short { length result.now ≤ 16384 }
        ensures refers { self.now.place.external ≡ true → 20 ≤ length result.now }
    {
        &self.page.bytes()[self.place.from..self.place.until]
    }

    /// Whether the column may be written: it is null, its local bytes spell a value, or a longer one fits its type.
    #[inline]
    pub fn is_sound(&self) -> bool
        ensures { IsTrue result ↔ IsSound self.now }
    {
        if self.place.null {
            return true;
        }
        let local = self.local();
        if self.place.external {
            fits_long(self.kind, local)
        } else {
            is_value(self.kind, local)
        }
    }
}

/// Puts the value of a column.
#[inline]
pub fn put_value<S: PageSource, O: ByteSink, L: Ledger>(
    source: &mut S,
    sink: &mut O,
    writer: &mut RowWriter,
    cell: &Cell,
    room: &mut ChainRoom,
    steps: &mut Steps<L>,
) -> Result<(), WriteStop>
    requires few { writer.old.came < 64 }
    requires sound { IsSound cell.now }
    requires told { OfFile S.PageSource source.old (λ file. CanReadCell file cell.now room.old.left) }
    ensures puts { OfFile S.PageSource source.old (λ file. (value : Value) → ReadsValue file cell.now value
        → Writes result (O.written sink.old) (O.written sink.new)
        (before_value writer.old.came ++ value_text cell.now.kind value)) }
    ensures some { PutsSomeValue cell.now.kind writer.old.came result (O.written sink.old) (O.written sink.new) }
    ensures left { OnOk result (OfFile S.PageSource source.old (λ file.
        room.new.left + length (pages_of_cell file cell.now) ≡ room.old.left)) }
    ensures came { OnOk result (writer.new.came ≡ writer.old.came + 1) }
    ensures broken { (fault : Fault) → result ≡ Err (WriteStop.Broken fault)
        → (fault.rule ≡ Rule.ChainLength) × (cell.now.place.external ≡ true) }
    ensures near { IsNear cell.now.place → room.new.left ≡ room.old.left }
    ensures source { result ≡ Err WriteStop.Source → 0 < room.old.left }
    ensures fewer { OnOk result (room.new.left ≤ room.old.left) }
    ensures cost { steps.new + room.new.left ≡ steps.old + room.old.left }
    ensures over { WritesOver S.PageSource O.ByteSink source.old source.new sink.old sink.new
        steps.old steps.new result }
{
    parts_are_the_value();
    if cell.place.null {
        writer.null(sink)?;
        return Ok(());
    }
    let local = cell.local();
    if cell.place.external {
        return put_long(source, sink, writer, cell.kind, local, room, steps);
    }
    writer.value(sink, cell.kind, local)?;
    Ok(())
}
