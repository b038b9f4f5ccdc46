//! Values that may be null, one after another in one run of bytes.

ghost use Rattle.std.specs.Prelude.{◌≡◌, ◌<◌, ◌++◌, ◌∷◌, [], All, Some, None, OnOk, length, slice_index_or, true};
ghost use Rattle.std.specs.Prelude.{false};
ghost use Rattle.std.specs.Option.{option_copied};
ghost use Rattle.column_values.specs.Order.{cell_cmp};
ghost use Rattle.compact_record.specs.Reading.{cell_at};
ghost use Rattle.compact_record.specs.declared.places.Place.{Place};
ghost use Rattle.cross_index.specs.calls.Kept.{LiesIn, LieTo, places_of_marks, value_start};

use crate::numbers::Numbers;
use column_values::{FieldType, compare_values};
use compact_record::{Place, bytes_of};
use page_source::{NoMemory, Page};
use std::alloc::Global;
use std::cmp::Ordering;
use std::marker::Model;

/// Where a null value lies.
const NULL: Place = Place {
    null: true,
    external: false,
    from: 0,
    until: 0,
};

/// Values that may be null.
#[derive(Debug, Drop)]
pub(crate) struct KeptValues {
    /// The bytes of all.
    bytes: Vec<u8>,
    /// Twice where the bytes of each value end, and 1 more if it is null. They begin where those of the value before
    /// end.
    marks: Numbers,
}

impl Model for KeptValues {
    ghost use Rattle.std.specs.Prelude.{map, length, All};
    ghost use Rattle.column_values.specs.Order.{Key};
    ghost use Rattle.compact_record.specs.Reading.{cell_at};
    ghost use Rattle.cross_index.specs.calls.Kept.{LieTo, places_of_marks};

    ghost Value = { Key };

    ghost view = { λ cells. map (cell_at cells.bytes.items) (places_of_marks 0 cells.marks) };

    ghost invariant = { λ cells. LieTo 0 cells.marks (length cells.bytes.items) };
}

/// Where value `i` begins.
fn start_of(marks: &Numbers, i: usize) -> usize
    requires { i < length marks.now }
    ensures { result ≡ value_start marks.now i }
{
    if i == 0 { 0 } else { marks.at(i - 1) / 2 }
}

/// The place of a value; null past the last.
fn place_at(marks: &Numbers, i: usize, most: usize) -> Place
    requires { LieTo 0 marks.now most }
    ensures lies { LiesIn most result }
    ensures same { result ≡ slice_index_or (places_of_marks 0 marks.now) i
        (record { null = true; external = false; from = 0; until = 0 }) }
{
    if i >= marks.len() {
        return NULL;
    }
    let mark = marks.at(i);
    Place {
        null: mark % 2 == 1,
        external: false,
        from: start_of(marks, i),
        until: mark / 2,
    }
}

/// The order of two values of one kind, each among some bytes.
fn compare_cells(kind: &FieldType, bytes: &[u8], a: Place, other: &[u8], b: Place) -> Ordering
    requires first { LiesIn (length bytes.now) a }
    requires second { LiesIn (length other.now) b }
    ensures { result ≡ cell_cmp kind.now (cell_at bytes.now a) (cell_at other.now b) }
{
    compare_values(kind, bytes_of(bytes, a), bytes_of(other, b))
}

impl KeptValues {
    /// No values yet.
    pub(crate) fn new(alloc: Global) -> KeptValues
        ensures { result ≡ [] }
    {
        KeptValues {
            bytes: Vec::new(alloc),
            marks: Numbers::new(alloc),
        }
    }

    /// One more value, which is null.
    pub(crate) fn push_null(&mut self) -> Result<(), NoMemory>
        ensures { OnOk result (self.new ≡ self.old ++ None ∷ []) }
    {
        self.marks.push(2 * self.bytes.len() + 1)?;
        Ok(())
    }

    /// One more value, with these bytes.
    pub(crate) fn push(&mut self, value: &[u8]) -> Result<(), NoMemory>
        ensures { OnOk result (self.new ≡ self.old ++ Some value.now ∷ []) }
    {
        let from = self.bytes.len();
        self.bytes.extend_from_slice(value)?;
        match self.marks.push(2 * self.bytes.len()) {
            Ok(()) => Ok(()),
            Err(stop) => {
                self.bytes.truncate(from);
                Err(stop)
            }
        }
    }

    /// Where the bytes of a value begin; 0 past the last. Nothing is said of it, since no answer rests on it.
    pub(crate) fn start(&self, i: usize) -> usize {
        if i < self.marks.len() {
            start_of(&self.marks, i)
        } else {
            0
        }
    }

    /// The byte at a place among those of all values; 0 past the last. Nothing is said of it, since no answer rests on
    /// it.
    pub(crate) fn byte(&self, at: usize) -> u8 {
        if at < self.bytes.len() {
            self.bytes[at]
        } else {
            0
        }
    }

    /// How many values there are.
    pub(crate) fn len(&self) -> usize
        ensures { result ≡ length self.now }
    {
        self.marks.len()
    }

    /// The bytes of a value; none if it is null or past the last.
    pub(crate) fn value(&self, i: usize) -> Option<&[u8]>
        ensures { option_copied result ≡ slice_index_or self.now i None }
    {
        let place = place_at(&self.marks, i, self.bytes.len());
        bytes_of(&self.bytes, place)
    }

    /// The order of two of the values, which are of one kind; past the last there are nulls.
    pub(crate) fn compare(&self, kind: &FieldType, a: usize, b: usize) -> Ordering
        ensures { result ≡ cell_cmp kind.now (slice_index_or self.now a None) (slice_index_or self.now b None) }
    {
        let most = self.bytes.len();
        let here = place_at(&self.marks, a, most);
        let there = place_at(&self.marks, b, most);
        compare_cells(kind, &self.bytes, here, &self.bytes, there)
    }

    /// The order of a field on a page and one of the values.
    pub(crate) fn compare_field(
        &self,
        kind: &FieldType,
        page: &Page,
        place: Place,
        b: usize,
    ) -> Ordering
        requires { LiesIn 16384 place }
        ensures { result ≡ cell_cmp kind.now (cell_at page.now place) (slice_index_or self.now b None) }
    {
        let there = place_at(&self.marks, b, self.bytes.len());
        compare_cells(kind, page.bytes(), place, &self.bytes, there)
    }
}
