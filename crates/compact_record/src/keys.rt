//! The order of the keys of two records.

ghost use Rattle.std.specs.Prelude.{◌≡◌, ◌≤◌, ◌<◌, All, length, slice_index_or};
ghost use Rattle.column_values.specs.Order.{cell_cmp, key_cmp};
ghost use Rattle.compact_record.specs.declared.places.Place.{Place};
ghost use Rattle.compact_record.specs.Reading.{cell_at, key_kinds};
ghost use Rattle.compact_record.specs.Keys.{IsOnPage, key_at};

use crate::field::field_at;
use crate::places::{Place, bytes_of};
use column_values::{FieldList, FieldType, compare_values};
use page_source::Page;
use std::cmp::Ordering;

/// The order of two fields of one kind, each on its page.
fn compare_cells(kind: &FieldType, page: &Page, a: Place, other: &Page, b: Place) -> Ordering
    requires first { IsOnPage a }
    requires second { IsOnPage b }
    ensures { result ≡ cell_cmp kind.now (cell_at page.now a) (cell_at other.now b) }
{
    compare_values(kind, bytes_of(page.bytes(), a), bytes_of(other.bytes(), b))
}

fn place_at(places: &[Place], i: usize) -> Place
    requires inside { i < length places.now }
    requires all { All IsOnPage places.now }
    ensures same { (d : Place) → result ≡ slice_index_or places.now i d }
    ensures on_page { IsOnPage result }
{
    places[i]
}

/// The order of the keys of two records with these places, each on its page.
pub(crate) fn compare_keys(
    page: &Page,
    fields: &FieldList,
    a: &[Place],
    other: &Page,
    b: &[Place],
) -> Ordering
    requires few { fields.now.keys ≤ length fields.now.fields }
    requires first_long { fields.now.keys ≤ length a.now }
    requires second_long { fields.now.keys ≤ length b.now }
    requires first { All IsOnPage a.now }
    requires second { All IsOnPage b.now }
    ensures { result ≡ key_cmp (key_kinds fields.now)
        (key_at page.now fields.now a.now)
        (key_at other.now fields.now b.now) }
{
    for i in 0..fields.keys() as usize {
        let field = field_at(fields, i);
        let order = compare_cells(&field.kind, page, place_at(a, i), other, place_at(b, i));
        match order {
            Ordering::Less => return Ordering::Less,
            Ordering::Greater => return Ordering::Greater,
            Ordering::Equal => {}
        }
    }
    Ordering::Equal
}
