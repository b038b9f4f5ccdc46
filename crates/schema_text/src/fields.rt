//! The fields of an index's records (rem0rec, dict0dict).

ghost use Rattle.std.specs.Prelude.{◌≡◌, ◌<◌, ◌≤◌, ◌∷◌, ◌++◌, [], ℕ, List, length, map, take, All, IfOk};
ghost use Rattle.std.specs.Prelude.{OnOk, IsTrue, ◌==◌};
ghost use Rattle.std.specs.List.{list_any, range_with_len};
ghost use Rattle.column_values.specs.Types.{AreFields, AreListed, nullable_count, is_big_kind};
ghost use Rattle.schema_text.specs.declared.table.Column.{Column};
ghost use Rattle.schema_text.specs.TableDef.{index_at};
ghost use Rattle.schema_text.specs.Grammar.{IsTable};
ghost use Rattle.schema_text.specs.IndexFields.{kept_at, leaving_at, positions_without, row_key};
ghost use Rattle.schema_text.specs.IndexFields.{clustered_key, secondary_fields, key_fields, rest_fields};
ghost use Rattle.schema_text.specs.IndexFields.{index_fields};

use crate::columns::is_among;
use crate::table::{Column, IndexDef, Schema};
use column_values::{Field, FieldList, FieldType};
use page_source::NoMemory;
use std::alloc::Global;

const ROW_ID: Field = Field {
    kind: FieldType::RowId,
    nullable: false,
    may_leave: false,
};

const TRX_ID: Field = Field {
    kind: FieldType::TrxId,
    nullable: false,
    may_leave: false,
};

const ROLL_POINTER: Field = Field {
    kind: FieldType::RollPointer,
    nullable: false,
    may_leave: false,
};

const CHILD: Field = Field {
    kind: FieldType::Child,
    nullable: false,
    may_leave: false,
};

/// Adds the columns at those of the positions that aren't among the others, as fields that stay on the page.
fn push_kept(
    fields: &mut Vec<Field>,
    columns: &[Column],
    positions: &[u16],
    others: &[u16],
) -> Result<(), NoMemory>
    requires { All (λ i. i < length columns.now) positions.now }
    ensures { OnOk result (fields.new.items
        ≡ fields.old.items ++ kept_at columns.now (positions_without positions.now others.now)) }
{
    for position in positions {
        let place = usize::from(*position);
        if !is_among(others, place) {
            let column = &columns[place];
            fields.push(Field {
                kind: FieldType::Column(column.kind),
                nullable: column.nullable,
                may_leave: false,
            })?;
        }
    }
    Ok(())
}

/// Adds the columns that aren't at these positions; those that are big may leave the page.
fn push_leaving(fields: &mut Vec<Field>, columns: &[Column], others: &[u16]) -> Result<(), NoMemory>
    ensures { OnOk result (fields.new.items ≡ fields.old.items
        ++ leaving_at columns.now (positions_without (range_with_len 0 (length columns.now)) others.now)) }
{
    for place in 0..columns.len() {
        if !is_among(others, place) {
            let column = &columns[place];
            let kind = FieldType::Column(column.kind);
            fields.push(Field {
                kind,
                nullable: column.nullable,
                may_leave: kind.is_big(),
            })?;
        }
    }
    Ok(())
}

/// How many of the fields may be null.
fn nullable_count(fields: &[Field]) -> usize
    ensures value { result ≡ nullable_count fields.now }
    ensures few { result ≤ length fields.now }
{
    fields.iter().filter(|field| field.nullable).count()
}

/// The list of these fields, which go together.
fn list_of(alloc: Global, fields: &[Field], nullable: u32, keys: u32) -> Result<FieldList, NoMemory>
    requires { AreListed (record { fields = fields.now; nullable = nullable; keys = keys }) }
    ensures { IfOk result
        (λ list. list ≡ record { fields = fields.now; nullable = nullable; keys = keys }) }
{
    let mut list = FieldList::new(alloc, nullable, keys);
    for field in fields {
        list.push(*field)?;
    }
    Ok(list)
}

/// Adds the clustered key but for the others, or the hidden row id.
fn push_row_key(
    fields: &mut Vec<Field>,
    columns: &[Column],
    key: &[u16],
    others: &[u16],
) -> Result<(), NoMemory>
    requires { All (λ i. i < length columns.now) key.now }
    ensures { OnOk result (fields.new.items
        ≡ fields.old.items ++ row_key columns.now key.now (positions_without key.now others.now)) }
{
    if key.len() == 0 {
        fields.push(ROW_ID)?;
        return Ok(());
    }
    push_kept(fields, columns, key, others)
}

/// The columns of an index.
pub(crate) fn positions_at(schema: &Schema, index: usize) -> &[u16]
    requires { index < length schema.now.indexes }
    ensures value { result.now ≡ (index_at schema.now index).columns }
    ensures known { All (λ i. i < length schema.now.columns) result.now }
{
    schema.indexes()[index].columns.items()
}

/// The key of the clustered index.
fn clustered_key_of(alloc: Global, schema: &Schema) -> Result<Vec<Field>, NoMemory>
    requires { 0 < length schema.now.indexes }
    ensures { IfOk result (λ fields. fields.items ≡ clustered_key schema.now) }
{
    let mut fields = Vec::new(alloc);
    push_row_key(&mut fields, schema.columns(), positions_at(schema, 0), &[])?;
    Ok(fields)
}

/// The key of another index.
fn secondary_key_of(alloc: Global, schema: &Schema, index: usize) -> Result<Vec<Field>, NoMemory>
    requires { index < length schema.now.indexes }
    ensures { IfOk result
        (λ fields. fields.items ≡ secondary_fields schema.now (index_at schema.now index).columns) }
{
    let mut fields = Vec::new(alloc);
    let own = positions_at(schema, index);
    push_kept(&mut fields, schema.columns(), own, &[])?;
    push_row_key(&mut fields, schema.columns(), positions_at(schema, 0), own)?;
    Ok(fields)
}

/// The key of an index.
fn key_of(alloc: Global, schema: &Schema, index: usize) -> Result<Vec<Field>, NoMemory>
    requires { index < length schema.now.indexes }
    ensures { IfOk result (λ fields. fields.items ≡ key_fields schema.now index) }
{
    if index == 0 {
        return clustered_key_of(alloc, schema);
    }
    secondary_key_of(alloc, schema, index)
}

/// Adds what follows the key in the leaf records of an index.
fn push_rest(fields: &mut Vec<Field>, schema: &Schema, index: usize) -> Result<(), NoMemory>
    requires { index < length schema.now.indexes }
    ensures { OnOk result (fields.new.items ≡ fields.old.items ++ rest_fields schema.now index) }
{
    if index > 0 {
        return Ok(());
    }
    fields.push(TRX_ID)?;
    fields.push(ROLL_POINTER)?;
    push_leaving(fields, schema.columns(), positions_at(schema, 0))
}

impl Schema {
    /// The fields of the leaf records of an index, or of its node pointers: the key (of a secondary index all its
    /// columns and the clustered key's others), then the transaction id, the roll pointer and the other columns
    /// in a clustered leaf, or the child page in a node pointer (dict0dict). Index 0 is the clustered one.
    pub fn fields(&self, alloc: Global, index: usize, leaf: bool) -> Result<FieldList, NoMemory>
        requires { index < length self.now.indexes }
        ensures value { IfOk result (λ fields. fields ≡ index_fields self.now index leaf) }
        ensures are { IfOk result AreFields }
    {
        let _ = &self.table;
        let mut fields = key_of(alloc, self, index)?;
        let keys = fields.as_slice().len();
        push_rest(&mut fields, self, index)?;
        let nullable = nullable_count(&fields);
        if leaf {
            return list_of(alloc, &fields, nullable as u32, keys as u32);
        }
        fields.truncate(keys);
        fields.push(CHILD)?;
        list_of(alloc, &fields, nullable as u32, keys as u32)
    }
}
