//! Where the columns of a table stand among the fields of a clustered leaf record (dict0dict): those of the key
//! first, or the row id where there is no key, then transaction id and roll pointer, then the other columns in the
//! order of the table. The fields of such a record that an entry of another index has.

ghost use Rattle.std.specs.Prelude.{◌≡◌, ◌<◌, ◌==◌, ◌++◌, if◌then◌else◌, length, map, position, All, IfOk, IfSome};
ghost use Rattle.std.specs.Prelude.{OnOk, slice_index_or};
ghost use Rattle.std.specs.List.{list_any};
ghost use Rattle.schema_text.specs.Grammar.{IsTable};
ghost use Rattle.schema_text.specs.IndexFields.{fields_of_columns, positions_without, entry_fields};

use crate::fields::positions_at;
use crate::table::Schema;
use page_source::NoMemory;
use std::alloc::Global;

/// Transaction id and roll pointer.
const HIDDEN_FIELDS: usize = 2;

/// The place of a column in the key.
fn place_in_key(key: &[u16], column: usize) -> Option<usize>
    ensures value { result ≡ position (λ i. i == column) key.now }
    ensures within { IfSome result (λ place. place < length key.now) }
{
    key.iter().position(|k| usize::from(*k) == column)
}

/// The number of fields of the key: one for each column, and the row id alone where there is none.
fn key_fields(key: &[u16]) -> usize
    ensures { result ≡ (if length key.now == 0 then 1 else length key.now) }
{
    key.len().max(1)
}

/// The fields that hold the columns, in the order of the table.
pub fn column_fields(alloc: Global, schema: &Schema) -> Result<Vec<usize>, NoMemory>
    ensures fields { IfOk result (λ list. list.items ≡ fields_of_columns schema.now) }
    ensures table { IsTable schema.now }
{
    let key = schema.indexes()[0].columns.items();
    let mut list = Vec::new(alloc);
    let mut next = key_fields(key) + HIDDEN_FIELDS;
    for column in 0..schema.columns().len() {
        match place_in_key(key, column) {
            Some(place) => list.push(place)?,
            None => {
                list.push(next)?;
                next += 1;
            }
        }
    }
    Ok(list)
}

/// Whether the column is among these.
pub fn is_among(columns: &[u16], column: usize) -> bool
    ensures { result ≡ list_any (λ j. j == column) columns.now }
{
    columns.iter().any(|c| usize::from(*c) == column)
}

/// Adds the fields of those of the columns that aren't among the others; `at` has the field of each column.
fn push_columns(
    list: &mut Vec<usize>,
    at: &[usize],
    columns: &[u16],
    others: &[u16],
) -> Result<(), NoMemory>
    requires { All (λ c. c < length at.now) columns.now }
    ensures { OnOk result (list.new.items
        ≡ list.old.items ++ map (λ c. slice_index_or at.now c 0) (positions_without columns.now others.now)) }
{
    for column in columns {
        let place = usize::from(*column);
        if !is_among(others, place) {
            list.push(at[place])?;
        }
    }
    Ok(())
}

/// Adds the fields of a clustered leaf record that an entry of an index has; `at` has the field of each column.
pub fn push_entry_fields(
    list: &mut Vec<usize>,
    schema: &Schema,
    at: &[usize],
    index: usize,
) -> Result<(), NoMemory>
    requires index { index < length schema.now.indexes }
    requires columns { at.now ≡ fields_of_columns schema.now }
    ensures { OnOk result (list.new.items ≡ list.old.items ++ entry_fields schema.now index) }
{
    let _ = schema.indexes();
    let key = positions_at(schema, 0);
    let own = positions_at(schema, index);
    push_columns(list, at, own, &[])?;
    push_columns(list, at, key, own)?;
    if key.len() == 0 {
        list.push(0)?;
    }
    Ok(())
}

/// The fields of a clustered leaf record that an entry of an index has; `at` has the field of each column.
pub fn entry_fields(
    alloc: Global,
    schema: &Schema,
    at: &[usize],
    index: usize,
) -> Result<Vec<usize>, NoMemory>
    requires index { index < length schema.now.indexes }
    requires columns { at.now ≡ fields_of_columns schema.now }
    ensures { IfOk result (λ list. list.items ≡ entry_fields schema.now index) }
{
    let mut list = Vec::new(alloc);
    push_entry_fields(&mut list, schema, at, index)?;
    Ok(list)
}
