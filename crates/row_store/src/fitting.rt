//! Which fields of a row go off the page.

ghost use Rattle.std.specs.Prelude.{◌≡◌, ◌-◌, ◌^◌, ◌<◌, ◌≤◌, Some, None, true, length, min, MatchBool};
ghost use Rattle.column_values.specs.Types.{field_at};
ghost use Rattle.schema_text.specs.IndexFields.{leaf_fields};
ghost use Rattle.row_layout.specs.StoredRow.{kept_prefix, going_over, stored_at, going_length};
ghost use Rattle.row_layout.specs.StoredRow.{is_too_long, fitted};
ghost use Rattle.row_store.specs.calls.RowFields.{local_length, length_length, field_sizes, GoesNext};

use crate::row_fields::RowFields;
use column_values::{Field, FieldList};
use compact_record::layout::RECORD_HEADER;
use offpage_chain::layout::REFERENCE_SIZE;
use schema_text::{Format, Schema};

/// A record with so many bytes is too long.
const TOO_LONG: usize = 8_126;

/// Field `i` of a record.
pub(crate) fn field_at(fields: &FieldList, i: usize) -> Field
    requires { i < length fields.now.fields }
    ensures { result ≡ field_at fields.now i }
{
    fields.fields()[i]
}

/// How many bytes of a value stay where it goes off the page (DICT_ANTELOPE_MAX_INDEX_COL_LEN).
fn kept_prefix(format: Format) -> usize
    ensures value { result ≡ kept_prefix format }
    ensures few { result < 1024 }
{
    match format {
        Format::Compact => 768,
        Format::Dynamic => 0,
    }
}

/// A column may go where it has more bytes than this.
fn going_over(format: Format) -> usize
    ensures { result ≡ going_over format }
{
    match format {
        Format::Compact => 788,
        Format::Dynamic => 40,
    }
}

/// How many bytes of field `i` stand in the record.
fn local_length(format: Format, row: &RowFields, i: usize) -> usize
    requires { i < length row.now }
    ensures { result ≡ local_length format (stored_at row.now i) }
{
    let size = row.bytes(i).len();
    if row.is_null(i) {
        0
    } else if row.is_off(i) {
        size.min(kept_prefix(format)) + REFERENCE_SIZE
    } else {
        size
    }
}

/// How many bytes the length of field `i` takes in the record.
fn length_length(format: Format, field: &Field, row: &RowFields, i: usize) -> usize
    requires { i < length row.now }
    ensures value { result ≡ length_length format field.now (stored_at row.now i) }
    ensures few { result ≤ 2 }
{
    if row.is_null(i) || !field.kind.is_variable() {
        return 0;
    }
    if row.is_off(i) || field.kind.is_big() && row.bytes(i).len() > 127 {
        2
    } else {
        1
    }
}

/// How many bytes the fields of a record take with their lengths, as far as numbers go.
fn fields_size(format: Format, fields: &FieldList, row: &RowFields) -> usize
    requires { length row.now ≡ length fields.now.fields }
    ensures { result ≡ min (field_sizes format fields.now row.now (length row.now)) (2 ^ 64 - 1) }
{
    let mut size = 0usize;
    for i in 0..row.len() {
        let field = field_at(fields, i);
        size = size.saturating_add(length_length(format, &field, row, i));
        size = size.saturating_add(local_length(format, row, i));
    }
    size
}

/// Whether the record of a row is too long.
fn is_too_long(schema: &Schema, fields: &FieldList, row: &RowFields) -> bool
    requires list { fields.now ≡ leaf_fields schema.now 0 }
    requires each { length row.now ≡ length fields.now.fields }
    ensures { result ≡ is_too_long schema.now row.now }
{
    let nulls = (fields.nullable() as usize + 7) / 8;
    let size = fields_size(schema.format(), fields, row);
    size.saturating_add(nulls + RECORD_HEADER) >= TOO_LONG
}

/// How long field `i` is where it may go off the page, else 0.
fn going_length(format: Format, field: &Field, row: &RowFields, i: usize) -> usize
    requires { i < length row.now }
    ensures { result ≡ going_length format field.now (stored_at row.now i) }
{
    let size = row.bytes(i).len();
    if field.may_leave && !row.is_null(i) && !row.is_off(i) && size > going_over(format) {
        size
    } else {
        0
    }
}

/// The field that goes next: the longest one that may, the first of equals. None where no field may.
fn goes_next(schema: &Schema, fields: &FieldList, row: &RowFields) -> Option<usize>
    requires list { fields.now ≡ leaf_fields schema.now 0 }
    requires each { length row.now ≡ length fields.now.fields }
    ensures { GoesNext schema.now row.now result }
{
    let format = schema.format();
    let mut most = 0;
    let mut place = 0;
    for i in 0..row.len() {
        let field = field_at(fields, i);
        let length = going_length(format, &field, row, i);
        if length > most {
            most = length;
            place = i;
        }
    }
    if most == 0 { None } else { Some(place) }
}

/// Lets fields go off the page while the record is too long. Answers whether it isn't in the end; otherwise no field
/// may go.
pub(crate) fn fit_row(schema: &Schema, fields: &FieldList, row: &mut RowFields) -> bool
    requires list { fields.now ≡ leaf_fields schema.now 0 }
    requires each { length row.old ≡ length fields.now.fields }
    ensures fits { MatchBool result (fitted schema.now (length row.old) row.old ≡ Some row.new)
        (fitted schema.now (length row.old) row.old ≡ None) }
    ensures same { length row.new ≡ length row.old }
{
    for _gone in 0..row.len() {
        if !is_too_long(schema, fields, row) {
            return true;
        }
        let Some(i) = goes_next(schema, fields, row) else {
            return false;
        };
        row.send_off(i);
    }
    !is_too_long(schema, fields, row)
}
