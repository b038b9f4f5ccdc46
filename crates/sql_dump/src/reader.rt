//! The reading of rows.

ghost use Rattle.std.specs.Prelude.{◌≡◌, ◌≢◌, ◌≤◌, length, All, IfOk, OnOk, Ok, Err};
ghost use Rattle.page_source.specs.declared.rule.Fault.{Fault};
ghost use Rattle.compact_record.specs.Keys.{LiesBelow};
ghost use Rattle.compact_record.specs.Reading.{IsHeapOrigin, IsReading, IsSpelled, places_of, record_end};
ghost use Rattle.schema_text.specs.IndexFields.{leaf_fields};
ghost use Rattle.sql_dump.specs.Cells.{HavePlaces};

use crate::row::Row;
use crate::stop::WriteStop;
use column_values::FieldList;
use compact_record::Located;
use page_source::{NoMemory, PAGE_SIZE, Page, Rule};
use schema_text::{Schema, column_fields};
use std::alloc::Global;
use std::marker::Model;

/// Reads the rows of a table on their leaves, in memory that is used again and again.
#[derive(Drop)]
pub struct RowReader<'a> {
    schema: &'a Schema,
    /// The field of each column.
    at: Vec<usize>,
    /// The fields of a leaf record.
    fields: FieldList,
    located: Located,
}

impl<'a> Model for RowReader<'a> {
    ghost use Rattle.sql_dump.specs.Reader.{ReaderView, IsReader};

    ghost Value = { ReaderView };

    ghost view = { λ reader. record { table = reader.schema.now; places = reader.located.places } };

    ghost invariant = { λ reader.
        IsReader reader.schema.now reader.at.items reader.fields reader.located.members };
}

/// Reads the record at an origin of leaf `number`, if it is spelled as it must be and ends on its page.
fn read_record(
    located: &mut Located,
    page: &Page,
    number: u32,
    origin: usize,
    fields: &FieldList,
) -> Result<(), WriteStop>
    requires origin { IsHeapOrigin origin }
    requires room { length fields.now.fields ≤ located.old.members }
    ensures read { OnOk result (IsReading page.now origin fields.now located.new) }
    ensures lie { OnOk result (All (LiesBelow 16384) located.new.places) }
    ensures members { located.new.members ≡ located.old.members }
    ensures readable { IsSpelled page.now origin fields.now → record_end page.now origin fields.now ≤ 16384
        → result ≡ Ok tt }
    ensures found { result ≢ Err WriteStop.Source × result ≢ Err WriteStop.Sink }
    ensures broken { (fault : Fault) → result ≡ Err (WriteStop.Broken fault)
        → fault ≡ record { rule = Rule.RecordSpelling; page = number } }
{
    if !located.again(page, origin, fields) || located.end() > PAGE_SIZE {
        return Err(WriteStop::Broken(Rule::RecordSpelling.at(number)));
    }
    Ok(())
}

impl<'a> RowReader<'a> {
    /// Memory for the rows of a table, and no record read yet.
    pub fn new(alloc: Global, schema: &'a Schema) -> Result<RowReader<'a>, NoMemory>
        ensures { IfOk result (λ reader. reader.table ≡ schema.now) }
    {
        let at = column_fields(alloc, schema)?;
        let fields = schema.fields(alloc, 0, true)?;
        let located = Located::with_room(alloc, fields.fields().len() as u32)?;
        Ok(RowReader {
            schema,
            at,
            fields,
            located,
        })
    }

    /// Reads the record at an origin of leaf `number`, if it is spelled as it must be and ends on its page.
    pub fn read(&mut self, page: &Page, number: u32, origin: usize) -> Result<(), WriteStop>
        requires { IsHeapOrigin origin }
        ensures read { OnOk result (self.new.places ≡ places_of page.now origin (leaf_fields self.old.table 0)) }
        ensures placed { OnOk result (HavePlaces self.new.table self.new.places) }
        ensures table { self.new.table ≡ self.old.table }
        ensures readable { IsSpelled page.now origin (leaf_fields self.old.table 0)
            → record_end page.now origin (leaf_fields self.old.table 0) ≤ 16384 → result ≡ Ok tt }
        ensures found { result ≢ Err WriteStop.Source × result ≢ Err WriteStop.Sink }
        ensures broken { (fault : Fault) → result ≡ Err (WriteStop.Broken fault)
            → fault ≡ record { rule = Rule.RecordSpelling; page = number } }
    {
        read_record(&mut self.located, page, number, origin, &self.fields)
    }

    /// The row that was read last, on this leaf.
    pub fn row<'b>(&'b self, page: &'b Page, number: u32) -> Row<'b>
        requires { HavePlaces self.now.table self.now.places }
        ensures { result ≡ record {
          row = record { table = self.now.table; page = page.now; places = self.now.places };
          leaf = number;
        } }
    {
        Row {
            schema: self.schema,
            at: &self.at,
            page,
            number,
            places: self.located.places(),
        }
    }
}
