//! The key that a text spells, as it is sought.

ghost use Rattle.std.specs.Prelude.{◌≡◌, ℕ, ◌<◌, ◌^◌, ◌++◌, ◌∷◌, [], false, List, length, map, zip, slice_get};
ghost use Rattle.std.specs.Prelude.{Some, IfOk, OnOk, All};
ghost use Rattle.std.specs.List.{AllZip};
ghost use Rattle.page_source.specs.Pages.{be_bytes};
ghost use Rattle.column_values.specs.Types.{IsColumnType};
ghost use Rattle.column_values.specs.declared.value.Value.TheVariants.{Unsigned};
ghost use Rattle.column_values.specs.Spell.{IsValueOf, spelling_of};
ghost use Rattle.schema_text.specs.IndexFields.{clustered_positions, leaf_fields};
ghost use Rattle.row_text.specs.Line.{FitsColumn};
ghost use Rattle.row_text.specs.KeyText.{IsRowIdText, IsKeyTextOf, key_columns, id_cell, column_cell, key_of_values};
ghost use Rattle.key_lookup.specs.KeyOfText.{FindsSearchKey};

use crate::key::SearchKey;
use byteorder::{BigEndian, ByteOrder};
use column_values::{ColumnType, Value, ValueError, encode};
use page_source::{ByteList, NoMemory};
use row_text::{Row, RowError, read_key};
use schema_text::{Column, Schema};
use std::alloc::Global;

/// DATA_ROW_ID_LEN, how many bytes a row id has.
const ROW_ID: usize = 6;

/// Adds a row id's field.
fn push_id(key: &mut SearchKey, id: u64) -> Result<(), NoMemory>
    requires { id < 256 ^ 6 }
    ensures { OnOk result (key.new ≡ key.old ++ Some (be_bytes 6 id) ∷ []) }
{
    let mut room = [0; 8];
    BigEndian::write_uint(&mut room, id, ROW_ID);
    key.push(&room[..ROW_ID])
}

/// The bytes of a value of the type.
fn spelled(alloc: Global, kind: &ColumnType, value: &Value) -> Result<ByteList, NoMemory>
    requires known { IsColumnType kind.now }
    requires is { IsValueOf kind.now value.now }
    ensures { IfOk result (λ bytes. bytes ≡ spelling_of kind.now value.now) }
{
    match encode(alloc, kind, value) {
        Ok(bytes) => Ok(bytes),
        Err(ValueError::Memory) => Err(NoMemory),
        Err(ValueError::BadValue) => unreachable!(),
    }
}

/// Adds the field of a column's value.
fn push_column(
    alloc: Global,
    key: &mut SearchKey,
    column: &Column,
    value: &Value,
) -> Result<(), NoMemory>
    requires known { IsColumnType column.now.kind }
    requires is { IsValueOf column.now.kind value.now }
    ensures { OnOk result (key.new ≡ key.old ++ column_cell (column.now, value.now) ∷ []) }
{
    let bytes = spelled(alloc, &column.kind, value)?;
    key.push(bytes.bytes())
}

/// The places of the columns of the clustered key; none if rows have a hidden id.
fn key_places(schema: &Schema) -> &[u16]
    ensures same { result.now ≡ clustered_positions schema.now }
    ensures within { All (λ place. place < length schema.now.columns) result.now }
    ensures held { All (λ column. column.nullable ≡ false) (key_columns schema.now) }
{
    schema.indexes()[0].columns.items()
}

/// Column i of the key.
fn key_column(schema: &Schema, i: usize) -> &Column
    requires { i < length (key_columns schema.now) }
    ensures at { slice_get (key_columns schema.now) i ≡ Some result.now }
    ensures known { IsColumnType result.now.kind }
    ensures held { result.now.nullable ≡ false }
{
    &schema.columns()[usize::from(key_places(schema)[i])]
}

/// The key of values of its columns.
fn columns_key(alloc: Global, schema: &Schema, row: &Row) -> Result<SearchKey, NoMemory>
    requires { AllZip FitsColumn (key_columns schema.now) row.now }
    ensures { IfOk result (λ key. key ≡ map column_cell (zip (key_columns schema.now) row.now)) }
{
    let mut key = SearchKey::new(alloc);
    for (i, value) in row.values().iter().enumerate() {
        push_column(alloc, &mut key, key_column(schema, i), value)?;
    }
    Ok(key)
}

/// The hidden row id that is the only value.
fn id_in(row: &Row) -> u64
    requires { (text : List ℕ) × IsRowIdText row.now text }
    ensures is { row.now ≡ Unsigned result ∷ [] }
    ensures fits { result < 256 ^ 6 }
{
    match row.values()[0] {
        Value::Unsigned(id) => id,
        _ => unreachable!(),
    }
}

/// The key of a hidden row id.
fn id_key(alloc: Global, row: &Row) -> Result<SearchKey, NoMemory>
    requires { (text : List ℕ) × IsRowIdText row.now text }
    ensures { IfOk result (λ key. key ≡ map id_cell row.now) }
{
    let mut key = SearchKey::new(alloc);
    push_id(&mut key, id_in(row))?;
    Ok(key)
}

/// The key with the values that a text spells.
fn key_of(alloc: Global, schema: &Schema, row: &Row) -> Result<SearchKey, NoMemory>
    requires { (text : List ℕ) × IsKeyTextOf schema.now row.now text }
    ensures same { IfOk result (λ key. key ≡ key_of_values schema.now row.now) }
    ensures count { IfOk result (λ key. length key ≡ (leaf_fields schema.now 0).keys) }
{
    if key_places(schema).is_empty() {
        id_key(alloc, row)
    } else {
        columns_key(alloc, schema, row)
    }
}

/// The key that a text spells.
pub(crate) fn search_key(alloc: Global, schema: &Schema, text: &[u8]) -> Result<SearchKey, RowError>
    ensures found { FindsSearchKey schema.now text.now result }
    ensures count { IfOk result (λ key. length key ≡ (leaf_fields schema.now 0).keys) }
{
    let row = read_key(alloc, schema, text)?;
    Ok(key_of(alloc, schema, &row)?)
}
