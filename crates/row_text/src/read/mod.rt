//! Lines and texts of keys, value after value.

ghost use Rattle.std.specs.Prelude.{◌≡◌, ◌≢◌, ℕ, ◌+◌, ◌<◌, ◌≤◌, ◌++◌, List, length, drop, slice_get, Some, IfOk, OnOk};
ghost use Rattle.std.specs.Prelude.{IfSome, IsNone, All, codes};
ghost use Rattle.schema_text.specs.declared.table.Column.{Column};
ghost use Rattle.column_values.specs.Types.{IsColumnType};
ghost use Rattle.schema_text.specs.IndexFields.{clustered_positions};
ghost use Rattle.row_text.specs.KeyText.{key_columns};
ghost use Rattle.row_text.specs.Writer.{before_value, line_open};
ghost use Rattle.row_text.specs.calls.Rows.{HasRead, ReadsNext, FindsValues, FindsRowId};
ghost use Rattle.row_text.specs.Reads.{FindsRow, FindsKey};

mod bytes;
mod decimals;
mod ends;
mod lanes;
mod moments;
mod numbers;
mod runs;
mod texts;
mod values;
mod words;

use crate::row::{Row, RowError};
use column_values::Value;
use ends::{ahead, behind};
use numbers::unsigned;
use schema_text::{Column, Schema};
use std::alloc::Global;
use values::read_column;

/// Where the next value begins: behind a comma, unless it is the first one.
fn place_of_next(text: &[u8], at: usize, came: usize) -> Option<usize>
    requires { at ≤ length text.now }
    ensures found { IfSome result (λ place. (place ≤ length text.now)
        × (drop at text.now ≡ before_value came ++ drop place text.now)) }
    ensures none { IsNone result → (rest : List ℕ) → drop at text.now ≢ before_value came ++ rest }
{
    if came == 0 {
        return Some(at);
    }
    if at < text.len() && text[at] == b',' {
        return Some(at + 1);
    }
    None
}

/// Adds the value that stands next, and says where its text ends.
fn read_next(
    alloc: Global,
    column: &Column,
    text: &[u8],
    at: usize,
    row: &mut Row,
) -> Result<usize, RowError>
    requires inside { at ≤ length text.now }
    requires known { IsColumnType column.now.kind }
    ensures next { (columns : List Column) → slice_get columns (length row.old) ≡ Some column.now
        → HasRead columns text.now row.old at → ReadsNext columns text.now row.new result }
    ensures within { IfOk result (λ next. next ≤ length text.now) }
    ensures counts { OnOk result (length row.new ≡ length row.old + 1) }
{
    let came = row.values().len();
    let Some(place) = place_of_next(text, at, came) else {
        return Err(RowError::Refused);
    };
    let (value, size) = read_column(alloc, column, &text[place..])?;
    row.push(value)?;
    Ok(place + size)
}

/// The values of these columns that have the text, one after another behind commas.
fn read_columns(alloc: Global, columns: &[Column], text: &[u8]) -> Result<Row, RowError>
    requires known { All (λ column. IsColumnType column.kind) columns.now }
    ensures { FindsValues columns.now text.now result }
{
    let mut row = Row::new(alloc);
    let mut at = 0;
    for column in columns {
        at = read_next(alloc, column, text, at, &mut row)?;
    }
    if at < text.len() {
        return Err(RowError::Refused);
    }
    Ok(row)
}

/// What stands in the parentheses of a line.
fn values_in<'a>(schema: &Schema, line: &'a [u8]) -> Option<&'a [u8]>
    ensures found { IfSome result (λ text. line.now ≡ line_open schema.now ++ (text.now ++ codes ");")) }
    ensures none { IsNone result → (text : List ℕ) → line.now ≢ line_open schema.now ++ (text ++ codes ");") }
{
    let named = behind(line, b"INSERT INTO `")?;
    let rest = behind(named, schema.table())?;
    let values = behind(rest, b"` VALUES (")?;
    ahead(values, b");")
}

/// The row that has the line, which comes without its LF.
pub fn read_row(alloc: Global, schema: &Schema, line: &[u8]) -> Result<Row, RowError>
    ensures { FindsRow schema.now line.now result }
{
    let Some(text) = values_in(schema, line) else {
        return Err(RowError::Refused);
    };
    read_columns(alloc, schema.columns(), text)
}

/// The places of the columns of the clustered key; none where rows have a hidden id.
fn key_places(schema: &Schema) -> &[u16]
    ensures same { result.now ≡ clustered_positions schema.now }
    ensures within { All (λ place. place < length schema.now.columns) result.now }
{
    schema.indexes()[0].columns.items()
}

/// The values of the key columns that have the text, one after another behind commas.
fn read_key_columns(alloc: Global, schema: &Schema, text: &[u8]) -> Result<Row, RowError>
    ensures { FindsValues (key_columns schema.now) text.now result }
{
    let columns = schema.columns();
    let mut row = Row::new(alloc);
    let mut at = 0;
    for place in key_places(schema) {
        at = read_next(alloc, &columns[usize::from(*place)], text, at, &mut row)?;
    }
    if at < text.len() {
        return Err(RowError::Refused);
    }
    Ok(row)
}

/// The hidden row id that the text is, of six bytes.
fn read_row_id(alloc: Global, text: &[u8]) -> Result<Row, RowError>
    ensures { FindsRowId text.now result }
{
    let Some(id) = unsigned(text) else {
        return Err(RowError::Refused);
    };
    if id >= 1 << 48 {
        return Err(RowError::Refused);
    }
    let mut row = Row::new(alloc);
    row.push(Value::Unsigned(id))?;
    Ok(row)
}

/// The values of the key that has the text: those of the key columns in key order, or the hidden row id.
pub fn read_key(alloc: Global, schema: &Schema, text: &[u8]) -> Result<Row, RowError>
    ensures { FindsKey schema.now text.now result }
{
    if key_places(schema).is_empty() {
        read_row_id(alloc, text)
    } else {
        read_key_columns(alloc, schema, text)
    }
}
