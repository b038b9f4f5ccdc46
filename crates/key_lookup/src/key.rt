//! The key of the row that is sought.

ghost use Rattle.std.specs.Prelude.{◌≡◌, ◌<◌, ◌≤◌, ◌++◌, ◌∷◌, [], All, Some, None, OnOk, length, slice_index_or};
ghost use Rattle.column_values.specs.Types.{field_at};
ghost use Rattle.column_values.specs.Order.{cell_cmp, key_cmp};
ghost use Rattle.compact_record.specs.declared.places.Place.{Place};
ghost use Rattle.compact_record.specs.Reading.{cell_at, key_of, key_kinds};
ghost use Rattle.compact_record.specs.Keys.{IsOnPage, IsWholeReading, key_at};
ghost use Rattle.key_lookup.specs.Sought.{LiesIn};

use column_values::{Field, FieldList, FieldType, compare_values};
use compact_record::{Located, Place, bytes_of};
use page_source::{NoMemory, Page};
use std::alloc::Global;
use std::cmp::Ordering;
use std::marker::Model;

/// The key of the row that is sought: the bytes of its fields, none for null.
#[derive(Debug, Drop)]
pub(crate) struct SearchKey {
    /// The bytes of all fields.
    bytes: Vec<u8>,
    /// Where the bytes of each field lie among all bytes.
    places: Vec<Place>,
}

impl Model for SearchKey {
    ghost use Rattle.std.specs.Prelude.{map, length, All};
    ghost use Rattle.column_values.specs.Order.{Key};
    ghost use Rattle.compact_record.specs.Reading.{cell_at};
    ghost use Rattle.key_lookup.specs.Sought.{LiesIn};

    ghost Value = { Key };

    ghost view = { λ key. map (cell_at key.bytes.items) key.places.items };

    ghost invariant = { λ key. All (LiesIn (length key.bytes.items)) key.places.items };
}

impl SearchKey {
    /// No field yet.
    pub fn new(alloc: Global) -> SearchKey
        ensures { result ≡ [] }
    {
        SearchKey {
            bytes: Vec::new(alloc),
            places: Vec::new(alloc),
        }
    }

    /// One more field, with these bytes. After want of memory the key isn't used again.
    pub fn push(&mut self, bytes: &[u8]) -> Result<(), NoMemory>
        ensures { OnOk result (self.new ≡ self.old ++ Some bytes.now ∷ []) }
    {
        let from = self.bytes.as_slice().len();
        self.bytes.extend_from_slice(bytes)?;
        self.places.push(Place {
            null: false,
            external: false,
            from,
            until: from + bytes.len(),
        })?;
        Ok(())
    }

    /// The order of a record's key against this one, which has as many fields.
    pub(crate) fn compare_record(
        &self,
        page: &Page,
        fields: &FieldList,
        located: &Located,
    ) -> Ordering
        requires few { fields.now.keys ≤ length fields.now.fields }
        requires same { length self.now ≡ fields.now.keys }
        requires record { IsWholeReading page.now fields.now located.now }
        ensures { result ≡ key_cmp (key_kinds fields.now) (key_of page.now located.now.origin fields.now) self.now }
    {
        compare_fields(page, fields, located.places(), &self.bytes, &self.places)
    }
}

/// The order of two fields of one kind: of a record, and of the key.
fn compare_cells(kind: &FieldType, page: &Page, a: Place, bytes: &[u8], b: Place) -> Ordering
    requires first { IsOnPage a }
    requires second { LiesIn (length bytes.now) b }
    ensures { result ≡ cell_cmp kind.now (cell_at page.now a) (cell_at bytes.now b) }
{
    compare_values(kind, bytes_of(page.bytes(), a), bytes_of(bytes, b))
}

fn field_at(fields: &FieldList, i: usize) -> Field
    requires { i < length fields.now.fields }
    ensures { result ≡ field_at fields.now i }
{
    fields.fields()[i]
}

fn place_at(places: &[Place], i: usize) -> Place
    requires inside { i < length places.now }
    requires all { All IsOnPage places.now }
    ensures same { (d : Place) → result ≡ slice_index_or places.now i d }
    ensures on_page { IsOnPage result }
{
    places[i]
}

fn cell_place(places: &[Place], i: usize, most: usize) -> Place
    requires inside { i < length places.now }
    requires all { All (LiesIn most) places.now }
    ensures same { (d : Place) → result ≡ slice_index_or places.now i d }
    ensures lies { LiesIn most result }
{
    places[i]
}

/// The order of a record's key, whose fields have these places, against a key whose fields lie in some bytes.
fn compare_fields(
    page: &Page,
    fields: &FieldList,
    a: &[Place],
    bytes: &[u8],
    b: &[Place],
) -> Ordering
    requires few { fields.now.keys ≤ length fields.now.fields }
    requires first_long { fields.now.keys ≤ length a.now }
    requires second_long { fields.now.keys ≤ length b.now }
    requires first { All IsOnPage a.now }
    requires second { All (LiesIn (length bytes.now)) b.now }
    ensures { result ≡ key_cmp (key_kinds fields.now)
        (key_at page.now fields.now a.now)
        (key_at bytes.now fields.now b.now) }
{
    for i in 0..fields.keys() as usize {
        let field = field_at(fields, i);
        let here = place_at(a, i);
        let there = cell_place(b, i, bytes.len());
        let order = compare_cells(&field.kind, page, here, bytes, there);
        match order {
            Ordering::Less => return Ordering::Less,
            Ordering::Greater => return Ordering::Greater,
            Ordering::Equal => {}
        }
    }
    Ordering::Equal
}
