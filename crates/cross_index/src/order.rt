//! The rows in the order of their keys in an index.

ghost use Rattle.std.specs.Prelude.{◌≡◌, ◌+◌, ◌*◌, ◌-◌, ◌^◌, ◌≤◌, ◌<◌, All, IfOk, min, length, slice_index_or};
ghost use Rattle.column_values.specs.Types.{field_at};
ghost use Rattle.column_values.specs.Order.{key_cmp};
ghost use Rattle.compact_record.specs.Reading.{key_kinds};
ghost use Rattle.compact_record.specs.Keys.{key_at};
ghost use Rattle.compact_record.specs.declared.places.Place.{Place};
ghost use Rattle.cross_index.specs.calls.Kept.{LiesIn, kept_key, kept_keys};
ghost use Rattle.cross_index.specs.calls.Order.{IsOrder};

use crate::kept_values::KeptValues;
use column_values::{Field, FieldList, FieldType};
use compact_record::Place;
use key_ranks::{RowKeys, order_of_rows};
use page_source::{NoMemory, Page};
use std::alloc::Global;
use std::cmp::Ordering;
use std::marker::Model;

/// The keys of the rows in an index, among the values that are kept of them.
#[derive(Clone, Copy)]
pub(crate) struct Keys<'a> {
    /// The values of all rows, and how many each has.
    pub(crate) cells: &'a KeptValues,
    pub(crate) width: usize,
    /// The fields of the index, and which of a row's values each is.
    pub(crate) fields: &'a FieldList,
    pub(crate) slots: &'a [usize],
}

/// The number of a value of a row, as far as numbers go.
pub(crate) fn cell_number(row: usize, width: usize, slot: usize) -> usize
    ensures { result ≡ min (row * width + slot) (2 ^ 64 - 1) }
{
    row.saturating_mul(width).saturating_add(slot)
}

fn field_at(fields: &FieldList, i: usize) -> Field
    requires { i < length fields.now.fields }
    ensures { result ≡ field_at fields.now i }
{
    fields.fields()[i]
}

fn place_at(places: &[Place], i: usize) -> Place
    requires inside { i < length places.now }
    requires all { All (LiesIn 16384) places.now }
    ensures same { (d : Place) → result ≡ slice_index_or places.now i d }
    ensures lies { LiesIn 16384 result }
{
    places[i]
}

/// The order of the keys of two rows.
pub(crate) fn compare_rows(keys: &Keys, a: usize, b: usize) -> Ordering
    requires few { keys.now.fields.now.keys ≤ length keys.now.fields.now.fields }
    requires each { length keys.now.slots.now ≡ keys.now.fields.now.keys }
    ensures { result ≡ key_cmp (key_kinds keys.now.fields.now)
        (kept_key keys.now.cells.now keys.now.width keys.now.slots.now a)
        (kept_key keys.now.cells.now keys.now.width keys.now.slots.now b) }
{
    let _count = keys.cells.len();
    for i in 0..keys.slots.len() {
        let field = field_at(keys.fields, i);
        let slot = keys.slots[i];
        let first = cell_number(a, keys.width, slot);
        let second = cell_number(b, keys.width, slot);
        let order = keys.cells.compare(&field.kind, first, second);
        match order {
            Ordering::Less => return Ordering::Less,
            Ordering::Greater => return Ordering::Greater,
            Ordering::Equal => {}
        }
    }
    Ordering::Equal
}

/// The order of the key of a record, whose fields have these places, and that of a row.
pub(crate) fn compare_record(keys: &Keys, page: &Page, places: &[Place], row: usize) -> Ordering
    requires few { keys.now.fields.now.keys ≤ length keys.now.fields.now.fields }
    requires each { length keys.now.slots.now ≡ keys.now.fields.now.keys }
    requires long { keys.now.fields.now.keys ≤ length places.now }
    requires lie { All (LiesIn 16384) places.now }
    ensures { result ≡ key_cmp (key_kinds keys.now.fields.now)
        (key_at page.now keys.now.fields.now places.now)
        (kept_key keys.now.cells.now keys.now.width keys.now.slots.now row) }
{
    let _count = keys.cells.len();
    for i in 0..keys.slots.len() {
        let field = field_at(keys.fields, i);
        let place = place_at(places, i);
        let number = cell_number(row, keys.width, keys.slots[i]);
        let order = keys.cells.compare_field(&field.kind, page, place, number);
        match order {
            Ordering::Less => return Ordering::Less,
            Ordering::Greater => return Ordering::Greater,
            Ordering::Equal => {}
        }
    }
    Ordering::Equal
}

/// The keys of the rows in an index, each field of a key among their values.
#[derive(Drop)]
struct WholeKeys<'a> {
    keys: &'a Keys<'a>,
}

impl<'a> Model for WholeKeys<'a> {
    ghost use Rattle.cross_index.specs.calls.Order.{Asking, AsksWhole};

    ghost Value = { Asking };

    ghost view = { λ k. record {
      list = k.keys.now.fields.now;
      slots = k.keys.now.slots.now;
      cells = k.keys.now.cells.now;
      width = k.keys.now.width;
    } };

    ghost invariant = { λ k. AsksWhole k.keys.now.fields.now k.keys.now.slots.now };
}

impl RowKeys for WholeKeys<'_> {
    ghost use Rattle.cross_index.specs.calls.Order.{table_of};

    ghost table = { λ keys. table_of keys };

    fn kind(&self) -> FieldType {
        if self.keys.slots.is_empty() {
            return FieldType::Child;
        }
        field_at(self.keys.fields, 0).kind
    }

    fn first(&self, row: usize) -> Option<&[u8]> {
        if self.keys.slots.is_empty() {
            return None;
        }
        let _count = self.keys.cells.len();
        let number = cell_number(row, self.keys.width, self.keys.slots[0]);
        self.keys.cells.value(number)
    }

    fn second(&self, row: usize) -> Option<&[u8]> {
        if self.keys.slots.len() < 2 {
            return None;
        }
        let number = cell_number(row, self.keys.width, self.keys.slots[1]);
        self.keys.cells.value(number)
    }

    fn compare(&self, a: usize, b: usize) -> Ordering {
        compare_rows(self.keys, a, b)
    }
}

/// So many rows, in the order of their keys.
pub(crate) fn order_of(alloc: Global, keys: &Keys, count: usize) -> Result<Vec<usize>, NoMemory>
    requires few { keys.now.fields.now.keys ≤ length keys.now.fields.now.fields }
    requires each { length keys.now.slots.now ≡ keys.now.fields.now.keys }
    ensures { IfOk result (λ order. IsOrder (key_kinds keys.now.fields.now)
        (kept_keys keys.now.cells.now keys.now.width keys.now.slots.now count) order.items) }
{
    let whole = WholeKeys { keys };
    let order = order_of_rows(alloc, &whole, count)?;
    Ok(order)
}
