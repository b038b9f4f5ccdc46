//! The line of a row.

ghost use Rattle.std.specs.Prelude.{◌≡◌, ◌+◌, ◌<◌, ◌↔◌, List, length, All, IsTrue, OnOk, Err};
ghost use Rattle.page_source.specs.declared.rule.Fault.{Fault};
ghost use Rattle.page_source.specs.Calls.{OfFile};
ghost use Rattle.column_values.specs.declared.value.Value.{Value};
ghost use Rattle.row_text.specs.Line.{line_of};
ghost use Rattle.sql_dump.specs.Stops.{Writes, WritesOver};
ghost use Rattle.sql_dump.specs.SomeRows.{PutsSomeRow};
ghost use Rattle.sql_dump.specs.Cells.{IsNear, ReadsRow, CanReadRow, BreaksRow, cell_of_column, pages_of_all};

use crate::cell::{Cell, put_value};
use crate::long::ChainRoom;
use crate::stop::WriteStop;
use compact_record::Place;
use page_source::{ByteSink, Page, PageSource, Rule, Steps};
use row_text::RowWriter;
use schema_text::Schema;
use std::marker::Model;
use std::sync::ledger::Ledger;

/// A row on its leaf.
#[derive(Drop)]
pub struct Row<'a> {
    pub schema: &'a Schema,
    /// The field of each column.
    pub at: &'a [usize],
    /// The leaf, and its number.
    pub page: &'a Page,
    pub number: u32,
    /// Where the fields of the row lie on the leaf.
    pub places: &'a [Place],
}

impl<'a> Model for Row<'a> {
    ghost use Rattle.sql_dump.specs.Cells.{RowOnLeaf, AreCells};

    ghost Value = { RowOnLeaf };

    ghost view = { λ row. record {
      row = record { table = row.schema.now; page = row.page.now; places = row.places.now };
      leaf = row.number;
    } };

    ghost invariant = { λ row. AreCells row.schema.now row.at.now row.places.now };
}

impl<'a> Row<'a> {
    /// Column `c`.
    pub fn cell(&self, c: usize) -> Cell<'a>
        requires { c < length self.now.row.table.columns }
        ensures { result ≡ cell_of_column self.now.row c }
    {
        Cell {
            kind: &self.schema.columns()[c].kind,
            page: self.page,
            place: self.places[self.at[c]],
        }
    }

    /// Whether no column goes on in pages of its own.
    pub fn is_near(&self) -> bool
        ensures { IsTrue result ↔ All IsNear self.now.row.places }
    {
        self.places.iter().all(|place| !place.external)
    }
}

/// Puts the line of a row. `Broken` names the leaf if a column may not be written (rule 47), otherwise the page of a
/// chain that has no part that fits, or is one too many (rule 49). Over a file that tells its bytes, and was checked,
/// neither comes.
pub fn put_row<S: PageSource, O: ByteSink, L: Ledger>(
    source: &mut S,
    sink: &mut O,
    row: &Row,
    room: &mut ChainRoom,
    steps: &mut Steps<L>,
) -> Result<(), WriteStop>
    requires told { OfFile S.PageSource source.old (λ file. CanReadRow file row.now.row room.old.left) }
    ensures puts { OfFile S.PageSource source.old (λ file. (row_values : List Value)
        → ReadsRow file row.now.row row_values
        → Writes result (O.written sink.old) (O.written sink.new) (line_of row.now.row.table row_values)) }
    ensures some { PutsSomeRow row.now.row.table result (O.written sink.old) (O.written sink.new) }
    ensures left { OnOk result (OfFile S.PageSource source.old (λ file.
        room.new.left + length (pages_of_all file row.now.row) ≡ room.old.left)) }
    ensures broken { (fault : Fault) → result ≡ Err (WriteStop.Broken fault) → BreaksRow row.now fault }
    ensures near { All IsNear row.now.row.places → room.new.left ≡ room.old.left }
    ensures source { result ≡ Err WriteStop.Source → 0 < room.old.left }
    ensures cost { steps.new + room.new.left ≡ steps.old + room.old.left }
    ensures over { WritesOver S.PageSource O.ByteSink source.old source.new sink.old sink.new
        steps.old steps.new result }
{
    let mut writer = RowWriter::begin(sink, row.schema)?;
    for c in 0..row.schema.columns().len() {
        let cell = row.cell(c);
        if !cell.is_sound() {
            return Err(WriteStop::Broken(Rule::Value.at(row.number)));
        }
        put_value(source, sink, &mut writer, &cell, room, steps)?;
    }
    writer.end(sink)?;
    Ok(())
}
