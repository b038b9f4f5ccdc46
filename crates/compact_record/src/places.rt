//! Where the fields of a record lie.

ghost use Rattle.std.specs.Prelude.{◌≡◌, ◌+◌, ◌*◌, ◌≤◌, ◌<◌, ◌↔◌, ℕ, IsSome, IfSome, length, slice_index_or};
ghost use Rattle.std.specs.Option.{option_copied};
ghost use Rattle.column_values.specs.Types.{field_at};
ghost use Rattle.compact_record.specs.Reading.{IsHeapOrigin, FieldIsSpelled, lengths_before, local_before};
ghost use Rattle.compact_record.specs.Reading.{field_count, place_of, nullable_before, is_null, has_long_length};
ghost use Rattle.compact_record.specs.Reading.{cell_at};
ghost use Rattle.compact_record.specs.declared.places.Place.{Place};

use crate::field::{is_field_spelled, lengths_top, read_field, storage_at};
use column_values::FieldList;
use page_source::Page;

/// Where a field lies on its page (rem0rec).
#[derive(Clone, Copy, Debug, PartialEq, Eq)]
pub struct Place {
    /// Whether the field is null, by its null bit: it has no bytes.
    pub null: bool,
    /// Whether the last 20 bytes of the field are a reference to the rest of its value (btr0cur).
    pub external: bool,
    /// The offset of the field's first byte on the page.
    pub from: usize,
    /// The offset of the byte behind the field's last one, which may lie past the page.
    pub until: usize,
}

/// The bytes at a place among some bytes; none if the field is null.
pub fn bytes_of(bytes: &[u8], place: Place) -> Option<&[u8]>
    requires rising { place.from ≤ place.until }
    requires inside { place.until ≤ length bytes.now }
    ensures { option_copied result ≡ cell_at bytes.now place }
{
    if place.null {
        None
    } else {
        Some(&bytes[place.from..place.until])
    }
}

/// How many bytes the lengths of a record take, and how many its fields.
#[derive(Clone, Copy)]
pub(crate) struct Sizes {
    pub(crate) lengths: usize,
    pub(crate) local: usize,
}

/// Reads the places of all fields; none where a field isn't spelled as it must be.
pub(crate) fn read_places(
    places: &mut [Place],
    page: &Page,
    origin: usize,
    fields: &FieldList,
) -> Option<Sizes>
    requires origin { IsHeapOrigin origin }
    requires room { length fields.now.fields ≤ length places.old }
    ensures spelled { IsSome result
        ↔ ((i : ℕ) → i < field_count fields.now → FieldIsSpelled page.now origin fields.now i) }
    ensures lengths { IfSome result
        (λ sizes. sizes.lengths ≡ lengths_before page.now origin fields.now (field_count fields.now)) }
    ensures local { IfSome result
        (λ sizes. sizes.local ≡ local_before page.now origin fields.now (field_count fields.now)) }
    ensures places { IsSome result → (i : ℕ) (d : Place) → i < field_count fields.now
        → slice_index_or places.new i d ≡ place_of page.now origin fields.now i }
    ensures few { IfSome result (λ sizes. sizes.lengths ≤ 256) }
    ensures short { IfSome result (λ sizes. sizes.local ≤ 4398046511104) }
{
    let count = fields.fields().len();
    let top = lengths_top(origin, fields);
    let mut nulls = 0;
    let mut lengths = 0;
    let mut local = 0;
    for i in 0..count {
        let stored = storage_at(fields, i);
        if !stored.nullable && !stored.variable {
            places[i] = Place {
                null: false,
                external: false,
                from: origin + local,
                until: origin + local + stored.length,
            };
            local += stored.length;
            continue;
        }
        let read = read_field(page, origin, fields, i, nulls, top, lengths);
        if !is_field_spelled(page, origin, fields, i, &read) {
            return None;
        }
        nulls = nulls_with(fields, i, nulls);
        lengths = lengths_with(page, origin, fields, i, read.null, read.long, lengths);
        places[i] = Place {
            null: read.null,
            external: read.external,
            from: origin + local,
            until: origin + local + read.length,
        };
        local += read.length;
    }
    Some(Sizes { lengths, local })
}

/// How many nullable fields stand before the one behind field `i`.
#[tactic(auto, using(crate::proofs::FieldSteps::nullable_more))]
pub(crate) fn nulls_with(fields: &FieldList, i: usize, nulls: usize) -> usize
    requires inside { i < length fields.now.fields }
    requires few { i < 128 }
    requires before { nulls ≡ nullable_before fields.now i }
    requires less { nulls ≤ i }
    ensures value { result ≡ nullable_before fields.now (i + 1) }
    ensures less { result ≤ i + 1 }
{
    if storage_at(fields, i).nullable {
        nulls + 1
    } else {
        nulls
    }
}

/// The bytes of the lengths before the field behind field `i`.
#[tactic(auto, using(crate::proofs::FieldSteps::lengths_more))]
pub(crate) fn lengths_with(
    page: &Page,
    origin: usize,
    fields: &FieldList,
    i: usize,
    null: bool,
    long: bool,
    lengths: usize,
) -> usize
    requires inside { i < length fields.now.fields }
    requires few { i < 128 }
    requires null { null ≡ is_null page.now origin fields.now i }
    requires long { long ≡ has_long_length page.now origin fields.now i }
    requires before { lengths ≡ lengths_before page.now origin fields.now i }
    requires less { lengths ≤ 2 * i }
    ensures value { result ≡ lengths_before page.now origin fields.now (i + 1) }
    ensures less { result ≤ 2 * (i + 1) }
{
    if !storage_at(fields, i).variable || null {
        lengths
    } else if long {
        lengths + 2
    } else {
        lengths + 1
    }
}
