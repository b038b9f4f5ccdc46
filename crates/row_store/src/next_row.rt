//! The row of a line, behind others.

ghost use Rattle.std.specs.Prelude.{◌≡◌, ◌+◌, ◌-◌, ◌<◌, ◌≤◌, ◌^◌, ◌↔◌, ◌∷◌, ◌++◌, [], All, OnOk, IsTrue};
ghost use Rattle.std.specs.Prelude.{length, map, false};
ghost use Rattle.page_source.specs.Pages.{be_bytes};
ghost use Rattle.column_values.specs.declared.value.Value.{Value};
ghost use Rattle.column_values.specs.Types.{IsColumnType};
ghost use Rattle.column_values.specs.Order.{key_cmp};
ghost use Rattle.compact_record.specs.Reading.{key_kinds};
ghost use Rattle.row_text.specs.Line.{FitsColumn, IsTableRow};
ghost use Rattle.row_layout.specs.StoredRow.{stored_value, stored_column, stored_key, stored_row};
ghost use Rattle.row_layout.specs.HoldsValues.{stored_in};
ghost use Rattle.row_store.specs.StoredRows.{Rows};
ghost use Rattle.row_store.specs.calls.NextRow.{IsShapeOf, AreWide, HoldsRows, AddsRow, first_cells, IsAfter};

use crate::fitting::{field_at, fit_row};
use crate::row_fields::RowFields;
use crate::row_shape::RowShape;
use crate::stop::{RowStop, RowsWhy};
use crate::stored::StoredRows;
use byteorder::{BigEndian, ByteOrder};
use column_values::{FieldList, Value, ValueError, compare_values, encode};
use page_source::NoMemory;
use row_layout::laws::fitted_rows_are_rows;
use row_text::read_row;
use schema_text::{Column, Schema};
use std::alloc::Global;
use std::cmp::Ordering;

/// Adds the value of a column as it is stored.
fn push_value(
    alloc: Global,
    column: &Column,
    value: &Value,
    row: &mut RowFields,
) -> Result<(), NoMemory>
    requires known { IsColumnType column.now.kind }
    requires fits { FitsColumn column.now value.now }
    ensures { OnOk result (row.new ≡ row.old ++ stored_value column.now.kind value.now ∷ []) }
{
    if matches!(value, Value::Null) {
        return row.push(true, &[]);
    }
    match encode(alloc, &column.kind, value) {
        Ok(bytes) => row.push(false, bytes.bytes()),
        Err(ValueError::BadValue) => unreachable!(),
        Err(ValueError::Memory) => Err(NoMemory),
    }
}

/// Adds the values of the columns at these places.
fn push_columns(
    alloc: Global,
    schema: &Schema,
    places: &[u16],
    values: &[Value],
    row: &mut RowFields,
) -> Result<(), NoMemory>
    requires known { All (λ c. c < length schema.now.columns) places.now }
    requires is_row { IsTableRow schema.now values.now }
    ensures { OnOk result (row.new ≡ row.old ++ map (stored_column schema.now values.now) places.now) }
{
    let columns = schema.columns();
    for place in places {
        let c = usize::from(*place);
        push_value(alloc, &columns[c], &values[c], row)?;
    }
    Ok(())
}

/// Adds the hidden id of row `number`, counted from 0.
fn push_row_id(number: usize, row: &mut RowFields) -> Result<(), NoMemory>
    requires { number < 2 ^ 48 - 1 }
    ensures { OnOk result (row.new
        ≡ row.old ++ (record { null = false; off = false; bytes = be_bytes 6 (number + 1) }) ∷ []) }
{
    let mut id = [0; 6];
    BigEndian::write_uint(&mut id, number as u64 + 1, 6);
    row.push(false, &id)
}

/// Adds the key of row `number`, counted from 0.
fn push_key(
    alloc: Global,
    schema: &Schema,
    number: usize,
    values: &[Value],
    row: &mut RowFields,
) -> Result<(), NoMemory>
    requires few { number < 2 ^ 48 - 1 }
    requires is_row { IsTableRow schema.now values.now }
    ensures { OnOk result (row.new ≡ row.old ++ stored_key schema.now number values.now) }
{
    let key = schema.indexes()[0].columns.items();
    if key.is_empty() {
        return push_row_id(number, row);
    }
    push_columns(alloc, schema, key, values, row)
}

/// Makes `row` row `number`, counted from 0, all on the page.
fn fill_row(
    alloc: Global,
    schema: &Schema,
    shape: &RowShape,
    number: usize,
    values: &[Value],
    row: &mut RowFields,
) -> Result<(), NoMemory>
    requires shape { IsShapeOf schema.now shape.now }
    requires few { number < 2 ^ 48 - 1 }
    requires is_row { IsTableRow schema.now values.now }
    ensures filled { OnOk result (row.new ≡ stored_row schema.now number values.now) }
    ensures each { OnOk result (length row.new ≡ length shape.now.fields.fields) }
{
    row.clear();
    push_key(alloc, schema, number, values, row)?;
    row.push(false, &[0; 6])?;
    row.push(false, &[0; 7])?;
    push_columns(alloc, schema, &shape.others, values, row)
}

/// The order of the keys of the last row and of a new one.
fn compare_keys(fields: &FieldList, rows: &StoredRows, last: usize, row: &RowFields) -> Ordering
    requires first { length (stored_in rows.now last) ≡ length fields.now.fields }
    requires second { length row.now ≡ length fields.now.fields }
    requires keys { fields.now.keys ≤ length fields.now.fields }
    ensures { result ≡ key_cmp (key_kinds fields.now)
        (first_cells fields.now.keys (stored_in rows.now last)) (first_cells fields.now.keys row.now) }
{
    for i in 0..fields.keys() as usize {
        let field = field_at(fields, i);
        let order = compare_values(&field.kind, rows.value(last, i), row.value(i));
        match order {
            Ordering::Less => return Ordering::Less,
            Ordering::Greater => return Ordering::Greater,
            Ordering::Equal => {}
        }
    }
    Ordering::Equal
}

/// Whether the key of a row is greater than that of the last one. Hidden row ids rise by themselves.
fn is_in_order(schema: &Schema, shape: &RowShape, rows: &StoredRows, row: &RowFields) -> bool
    requires shape { IsShapeOf schema.now shape.now }
    requires wide { AreWide shape.now.fields rows.now }
    requires each { length row.now ≡ length shape.now.fields.fields }
    ensures { IsTrue result ↔ IsAfter schema.now rows.now row.now }
{
    let key = schema.indexes()[0].columns.items();
    let count = rows.count();
    if key.is_empty() || count == 0 {
        return true;
    }
    matches!(
        compare_keys(&shape.fields, rows, count - 1, row),
        Ordering::Less
    )
}

/// Adds the row that has the line, which comes without its LF. `row` is room for its fields.
pub(crate) fn add_row(
    alloc: Global,
    schema: &Schema,
    shape: &RowShape,
    line: &[u8],
    row: &mut RowFields,
    rows: &mut StoredRows,
) -> Result<(), RowStop>
    requires shape { IsShapeOf schema.now shape.now }
    requires few { length rows.old < 2 ^ 48 - 1 }
    requires wide { AreWide shape.now.fields rows.old }
    ensures added { (values : Rows) → HoldsRows schema.now values rows.old
        → AddsRow schema.now values line.now rows.new result }
    ensures wide { OnOk result (AreWide shape.now.fields rows.new) }
    ensures counts { OnOk result (length rows.new ≡ length rows.old + 1) }
{
    fitted_rows_are_rows();
    let values = read_row(alloc, schema, line)?;
    fill_row(alloc, schema, shape, rows.count(), values.values(), row)?;
    if !is_in_order(schema, shape, rows, row) {
        return Err(RowStop::Refused(RowsWhy::Order));
    }
    if !fit_row(schema, &shape.fields, row) {
        return Err(RowStop::Refused(RowsWhy::Big));
    }
    row.store(rows)?;
    Ok(())
}
