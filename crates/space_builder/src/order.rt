//! The rows in the order of their entries in an index.

ghost use Rattle.std.specs.Prelude.{◌≡◌, ◌<◌, ◌≤◌, IfOk, length};
ghost use Rattle.column_values.specs.Types.{field_at};
ghost use Rattle.column_values.specs.Order.{key_cmp};
ghost use Rattle.compact_record.specs.Reading.{key_kinds};
ghost use Rattle.schema_text.specs.IndexFields.{entry_fields};
ghost use Rattle.row_layout.specs.HoldsValues.{stored_in};
ghost use Rattle.space_builder.specs.calls.Picked.{picked_key};
ghost use Rattle.space_builder.specs.calls.Order.{IsKeyOrder, IsIndexOrder};

use column_values::{Field, FieldList, FieldType, compare_values};
use key_ranks::{RowKeys, order_of_rows};
use page_source::NoMemory;
use row_store::StoredRows;
use schema_text::{Schema, column_fields, entry_fields};
use std::alloc::Global;
use std::cmp::Ordering;
use std::marker::Model;

/// The keys of the rows in an index.
#[derive(Drop)]
struct IndexKeys<'a> {
    rows: &'a StoredRows,
    /// The fields of the index, and which fields of a row they are.
    list: &'a FieldList,
    fields: &'a [usize],
}

impl<'a> Model for IndexKeys<'a> {
    ghost use Rattle.space_builder.specs.calls.Order.{Picking, PicksKeys};

    ghost Value = { Picking };

    ghost view = { λ k. record { list = k.list.now; fields = k.fields.now; rows = k.rows.now } };

    ghost invariant = { λ k. PicksKeys k.list.now k.fields.now };
}

fn kind_at(list: &FieldList, i: usize) -> FieldType
    requires { i < length list.now.fields }
    ensures { result ≡ (field_at list.now i).kind }
{
    list.fields()[i].kind
}

/// The order of the keys of two rows.
fn compare_rows(
    rows: &StoredRows,
    list: &FieldList,
    fields: &[usize],
    a: usize,
    b: usize,
) -> Ordering
    requires few { list.now.keys ≤ length list.now.fields }
    requires each { length fields.now ≡ list.now.keys }
    ensures { result ≡ key_cmp (key_kinds list.now) (picked_key fields.now (stored_in rows.now a))
        (picked_key fields.now (stored_in rows.now b)) }
{
    for i in 0..fields.len() {
        let kind = kind_at(list, i);
        let field = fields[i];
        let first = rows.value(a, field);
        let second = rows.value(b, field);
        let order = compare_values(&kind, first, second);
        match order {
            Ordering::Less => return Ordering::Less,
            Ordering::Greater => return Ordering::Greater,
            Ordering::Equal => {}
        }
    }
    Ordering::Equal
}

impl RowKeys for IndexKeys<'_> {
    ghost use Rattle.space_builder.specs.calls.Order.{table_of};

    ghost table = { λ keys. table_of keys };

    fn kind(&self) -> FieldType {
        if self.fields.is_empty() {
            return FieldType::Child;
        }
        kind_at(self.list, 0)
    }

    fn first(&self, row: usize) -> Option<&[u8]> {
        if self.fields.is_empty() {
            return None;
        }
        self.rows.value(row, self.fields[0])
    }

    fn second(&self, row: usize) -> Option<&[u8]> {
        if self.fields.len() < 2 {
            return None;
        }
        self.rows.value(row, self.fields[1])
    }

    fn compare(&self, a: usize, b: usize) -> Ordering {
        compare_rows(self.rows, self.list, self.fields, a, b)
    }
}

/// These numbers, in 32 bits each.
fn narrowed(alloc: Global, list: &[usize]) -> Result<Vec<u32>, NoMemory>
    ensures { IfOk result (λ numbers. numbers.items ≡ list.now) }
{
    let mut numbers = Vec::with_capacity(alloc, list.len())?;
    for k in 0..list.len() {
        let Ok(number) = u32::try_from(list[k]) else {
            return Err(NoMemory);
        };
        numbers.push(number)?;
    }
    Ok(numbers)
}

/// The rows in the order of their keys.
fn order_of_keys(
    alloc: Global,
    rows: &StoredRows,
    list: &FieldList,
    fields: &[usize],
) -> Result<Vec<u32>, NoMemory>
    requires few { list.now.keys ≤ length list.now.fields }
    requires each { length fields.now ≡ list.now.keys }
    ensures { IfOk result (λ order. IsKeyOrder (key_kinds list.now) fields.now rows.now order.items) }
{
    let keys = IndexKeys { rows, list, fields };
    let order = order_of_rows(alloc, &keys, rows.count())?;
    let numbers = narrowed(alloc, &order)?;
    Ok(numbers)
}

/// Which fields of a row the entries of an index have.
pub(crate) fn fields_of_entries(
    alloc: Global,
    schema: &Schema,
    index: usize,
) -> Result<Vec<usize>, NoMemory>
    requires { index < length schema.now.indexes }
    ensures { IfOk result (λ list. list.items ≡ entry_fields schema.now index) }
{
    let at = column_fields(alloc, schema)?;
    entry_fields(alloc, schema, &at, index)
}

/// The rows in the order of their entries in an index that isn't the clustered one.
pub(crate) fn order_of_index(
    alloc: Global,
    schema: &Schema,
    rows: &StoredRows,
    index: usize,
) -> Result<Vec<u32>, NoMemory>
    requires second { 0 < index }
    requires index { index < length schema.now.indexes }
    ensures { IfOk result (λ order. IsIndexOrder schema.now rows.now index order.items) }
{
    let _ = schema.indexes();
    let list = schema.fields(alloc, index, true)?;
    let fields = fields_of_entries(alloc, schema, index)?;
    order_of_keys(alloc, rows, &list, &fields)
}
