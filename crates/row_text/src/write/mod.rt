//! The line of a row whose values are at hand.

ghost use Rattle.std.specs.Prelude.{◌≡◌, ◌++◌};
ghost use Rattle.page_source.specs.Calls.{Puts};
ghost use Rattle.column_values.specs.Types.{IsColumnType};
ghost use Rattle.row_text.specs.Values.{value_text};
ghost use Rattle.row_text.specs.Line.{FitsColumn, IsTableRow, line_of};
ghost use Rattle.row_text.specs.Writer.{before_value};

mod bytes;
mod digits;
mod escaped;
mod integers;
mod pieces;
mod texts;
mod values;
mod writer;

use crate::row::Row;
use column_values::Value;
use page_source::{ByteSink, Failed, put_pieces};
use schema_text::{Column, Schema};
use values::put_value;
pub use writer::RowWriter;
use writer::put_open;

/// Puts a value of the column, or NULL.
fn put_column<O: ByteSink>(sink: &mut O, column: &Column, value: &Value) -> Result<(), Failed>
    requires known { IsColumnType column.now.kind }
    requires fits { FitsColumn column.now value.now }
    ensures { Puts O.ByteSink sink.old sink.new (value_text column.now.kind value.now) result }
{
    match *value {
        Value::Null => put_pieces(sink, &[b"NULL"]),
        _ => put_value(sink, &column.kind, value),
    }
}

/// What stands before a value that comes after so many others.
fn comma(came: usize) -> &'static [u8]
    ensures { result.now ≡ before_value came }
{
    if came == 0 { b"" } else { b"," }
}

/// Puts the value that comes after so many others.
fn put_next<O: ByteSink>(
    sink: &mut O,
    came: usize,
    column: &Column,
    value: &Value,
) -> Result<(), Failed>
    requires known { IsColumnType column.now.kind }
    requires fits { FitsColumn column.now value.now }
    ensures { Puts O.ByteSink sink.old sink.new (before_value came ++ value_text column.now.kind value.now) result }
{
    put_pieces(sink, &[comma(came)])?;
    put_column(sink, column, value)
}

/// Adds the line of the row, with its LF.
pub fn write_row<O: ByteSink>(sink: &mut O, schema: &Schema, row: &Row) -> Result<(), Failed>
    requires { IsTableRow schema.now row.now }
    ensures { Puts O.ByteSink sink.old sink.new (line_of schema.now row.now) result }
{
    let columns = schema.columns();
    let values = row.values();
    put_open(sink, schema)?;
    for came in 0..values.len() {
        put_next(sink, came, &columns[came], &values[came])?;
    }
    put_pieces(sink, &[b");\n"])
}
