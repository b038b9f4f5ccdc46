//! Writes a record that is made of parts (rem0rec).

ghost use Rattle.std.specs.Prelude.{◌≡◌, ◌+◌, ◌^◌, ◌≤◌, ◌<◌, ◌&&◌, ◌||◌, nat_lt, if◌then◌else◌, length, reverse};
ghost use Rattle.page_source.specs.Pages.{with_bytes};
ghost use Rattle.column_values.specs.Types.{AreFields, field_at};
ghost use Rattle.compact_record.specs.Laws.{IsReadAgain};
ghost use Rattle.compact_record.specs.Reading.{null_bytes};
ghost use Rattle.compact_record.specs.Writing.{FitsField, FitFields, CanPlace, local_bytes, null_byte, length_of_part};
ghost use Rattle.compact_record.specs.Writing.{all_null_bytes, all_lengths, value_bytes, header_bytes, record_bytes};
ghost use Rattle.compact_record.specs.Writing.{origin_in, size_of_record};

use crate::field::storage_at;
use crate::layout::RECORD_HEADER;
use crate::parts::{Part, Parts};
use crate::places::Sizes;
use column_values::FieldList;
use page_source::{PAGE_SIZE, Page};

/// The minimum mark in the first byte of a header (REC_INFO_MIN_REC_FLAG).
const MINIMUM: u8 = 0x10;

/// The bit of a length of two bytes, and with it the bit of an external part.
const LONG: usize = 0x80;

const LONG_EXTERNAL: usize = 0xC0;

/// Whether a length takes two bytes, where it may.
fn is_long(big: bool, length: usize, external: bool) -> bool
    ensures { result ≡ (external || (big && nat_lt 127 length)) }
{
    external || big && length > 127
}

/// How many bytes the length of field `i` takes.
fn length_size(fields: &FieldList, i: usize, part: &Part) -> usize
    requires { i < length fields.now.fields }
    ensures value { result ≡ length (length_of_part (field_at fields.now i, part.now)) }
    ensures few { result ≤ 2 }
{
    let Part::Bytes { bytes, external } = part else {
        return 0;
    };
    let stored = storage_at(fields, i);
    if !stored.variable {
        return 0;
    }
    if is_long(stored.big, bytes.bytes().len(), *external) {
        2
    } else {
        1
    }
}

/// How many bytes field `i` has in the record.
fn local_size(fields: &FieldList, i: usize, part: &Part) -> usize
    requires inside { i < length fields.now.fields }
    requires fits { FitsField (field_at fields.now i) part.now }
    ensures value { result ≡ length (local_bytes part.now) }
    ensures within { result < 34359738368 }
{
    let Part::Bytes { bytes, external } = part else {
        return 0;
    };
    let stored = storage_at(fields, i);
    if *external || stored.variable {
        bytes.bytes().len()
    } else {
        stored.length
    }
}

/// How many bytes the lengths of the parts take, and how many the parts.
fn part_sizes(fields: &FieldList, parts: &Parts) -> Sizes
    requires { FitFields fields.now parts.now }
    ensures lengths { result.lengths ≡ length (all_lengths fields.now parts.now) }
    ensures local { result.local ≡ length (value_bytes parts.now) }
    ensures few { result.lengths ≤ 256 }
    ensures short { result.local ≤ 4398046511104 }
{
    let count = fields.fields().len();
    let mut lengths = 0;
    let mut local = 0;
    for i in 0..count {
        let part = parts.at(i);
        lengths += length_size(fields, i, part);
        local += local_size(fields, i, part);
    }
    Sizes { lengths, local }
}

/// How many bytes a record of these parts has.
pub fn record_size(fields: &FieldList, parts: &Parts) -> usize
    requires { FitFields fields.now parts.now }
    ensures { result ≡ size_of_record fields.now parts.now }
{
    let sizes = part_sizes(fields, parts);
    (fields.nullable() as usize + 7) / 8 + sizes.lengths + RECORD_HEADER + sizes.local
}

/// Writes the length of field `i` from byte `at` on, its last byte first, and answers where it ends.
fn put_length(page: &mut Page, at: usize, fields: &FieldList, i: usize, part: &Part) -> usize
    requires within { i < length fields.now.fields }
    requires fits { FitsField (field_at fields.now i) part.now }
    requires inside { at + length (length_of_part (field_at fields.now i, part.now)) ≤ 16384 }
    ensures page { page.new ≡ with_bytes page.old at (reverse (length_of_part (field_at fields.now i, part.now))) }
    ensures end { result ≡ at + length (length_of_part (field_at fields.now i, part.now)) }
{
    let Part::Bytes { bytes, external } = part else {
        return at;
    };
    let stored = storage_at(fields, i);
    if !stored.variable {
        return at;
    }
    let length = bytes.bytes().len();
    if is_long(stored.big, length, *external) {
        let mark = if *external { LONG_EXTERNAL } else { LONG };
        page.put_bytes(at, &[(length % 256) as u8, (mark + length / 256) as u8]);
        at + 2
    } else {
        page.put_bytes(at, &[length as u8]);
        at + 1
    }
}

/// Writes the lengths of all parts, the last one first, and answers where they end.
fn put_lengths(page: &mut Page, at: usize, fields: &FieldList, parts: &Parts) -> usize
    requires fit { FitFields fields.now parts.now }
    requires inside { at + length (all_lengths fields.now parts.now) ≤ 16384 }
    ensures page { page.new ≡ with_bytes page.old at (reverse (all_lengths fields.now parts.now)) }
    ensures end { result ≡ at + length (all_lengths fields.now parts.now) }
{
    prove!(page.bytes().len() == PAGE_SIZE);
    let count = fields.fields().len();
    let mut end = at;
    for k in 0..count {
        let i = count - 1 - k;
        end = put_length(page, end, fields, i, parts.at(i));
    }
    end
}

/// The lowest `k` bits of a byte, with one more bit above them.
fn with_bit(byte: u8, k: usize, bit: bool) -> u8
    requires few { k < 8 }
    requires low { byte < 2 ^ k }
    ensures { result ≡ byte + (if bit then 2 ^ k else 0) }
{
    if bit { byte + (1u8 << k) } else { byte }
}

/// Byte `j` of the null bits.
fn null_byte(fields: &FieldList, parts: &Parts, j: usize) -> u8
    requires { FitFields fields.now parts.now }
    ensures { result ≡ null_byte fields.now parts.now j }
{
    let count = fields.fields().len();
    let mut byte = 0;
    let mut nulls = 0;
    for i in 0..count {
        if storage_at(fields, i).nullable {
            if nulls / 8 == j {
                byte = with_bit(byte, nulls % 8, parts.at(i).is_null());
            }
            nulls += 1;
        }
    }
    byte
}

/// Writes the bytes of null bits, the last one first, and answers where they end.
fn put_null_bytes(page: &mut Page, at: usize, fields: &FieldList, parts: &Parts) -> usize
    requires fit { FitFields fields.now parts.now }
    requires inside { at + null_bytes fields.now ≤ 16384 }
    ensures page { page.new ≡ with_bytes page.old at (reverse (all_null_bytes fields.now parts.now)) }
    ensures end { result ≡ at + null_bytes fields.now }
{
    prove!(page.bytes().len() == PAGE_SIZE);
    let count = (fields.nullable() as usize + 7) / 8;
    for k in 0..count {
        let j = count - 1 - k;
        page.put_bytes(at + k, &[null_byte(fields, parts, j)]);
    }
    at + count
}

/// Writes the header of a record that owns none and has no next one, and answers where it ends.
fn put_header(page: &mut Page, at: usize, heap: u16, kind: u8, minimum: bool) -> usize
    requires heap { heap < 8192 }
    requires kind { kind < 2 }
    requires inside { at + 5 ≤ 16384 }
    ensures page { page.new ≡ with_bytes page.old at (header_bytes heap kind minimum) }
    ensures end { result ≡ at + 5 }
{
    let number = heap * 8 + u16::from(kind);
    let mark = if minimum { MINIMUM } else { 0 };
    page.put_bytes(
        at,
        &[mark, (number / 256) as u8, (number % 256) as u8, 0, 0],
    );
    at + RECORD_HEADER
}

/// Writes the bytes of all parts from byte `at` on, and answers where they end.
fn put_values(page: &mut Page, at: usize, parts: &Parts) -> usize
    requires { at + length (value_bytes parts.now) ≤ 16384 }
    ensures page { page.new ≡ with_bytes page.old at (value_bytes parts.now) }
    ensures end { result ≡ at + length (value_bytes parts.now) }
{
    prove!(page.bytes().len() == PAGE_SIZE);
    let mut end = at;
    for i in 0..parts.count() {
        let bytes = parts.at(i).bytes();
        page.put_bytes(end, bytes);
        end += bytes.len();
    }
    end
}

/// Where a record was placed.
#[derive(Clone, Copy, Debug, PartialEq, Eq)]
pub struct RecordPlace {
    /// The offset where the record's fields begin.
    pub origin: usize,
    /// The offset of the byte behind the record's last.
    pub end: usize,
}

/// Writes the record of these parts from byte `at` of the page on, with its number in the heap and its status, and
/// answers the byte where its fields begin, and where it ends. It owns no record, and no record is next. The other
/// bytes of the page stay.
pub fn place_record(
    page: &mut Page,
    at: usize,
    fields: &FieldList,
    parts: &Parts,
    heap: u16,
    kind: u8,
    minimum: bool,
) -> RecordPlace
    requires { CanPlace at heap kind fields.now parts.now }
    ensures page { page.new ≡ with_bytes page.old at (record_bytes fields.now parts.now heap kind minimum) }
    ensures origin { result.origin ≡ at + origin_in fields.now parts.now }
    ensures end { result.end ≡ at + size_of_record fields.now parts.now }
    ensures read { AreFields fields.now → IsReadAgain page.new at heap kind minimum fields.now parts.now }
{
    prove!(page.bytes().len() == PAGE_SIZE);
    let nulls = put_lengths(page, at, fields, parts);
    let header = put_null_bytes(page, nulls, fields, parts);
    let origin = put_header(page, header, heap, kind, minimum);
    let end = put_values(page, origin, parts);
    RecordPlace { origin, end }
}

/// Writes a record as `place_record` does, and answers the byte where its fields begin.
pub fn place(
    page: &mut Page,
    at: usize,
    fields: &FieldList,
    parts: &Parts,
    heap: u16,
    kind: u8,
    minimum: bool,
) -> usize
    requires { CanPlace at heap kind fields.now parts.now }
    ensures page { page.new ≡ with_bytes page.old at (record_bytes fields.now parts.now heap kind minimum) }
    ensures origin { result ≡ at + origin_in fields.now parts.now }
    ensures read { AreFields fields.now → IsReadAgain page.new at heap kind minimum fields.now parts.now }
{
    place_record(page, at, fields, parts, heap, kind, minimum).origin
}
