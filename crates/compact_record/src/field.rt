//! How one field of a record is spelled, where the fields before it are known.

ghost use Rattle.std.specs.Prelude.{◌≡◌, ◌≤◌, ◌<◌, ◌↔◌, IsTrue, length, slice_index};
ghost use Rattle.column_values.specs.Types.{field_at, storage_of};
ghost use Rattle.compact_record.specs.Reading.{IsHeapOrigin, bit_of, lengths_top, nullable_before, is_null, has_length};
ghost use Rattle.compact_record.specs.Reading.{lengths_before, length_byte, has_long_length, is_external};
ghost use Rattle.compact_record.specs.Reading.{local_length, length_at, FieldIsSpelled};

use column_values::{Field, FieldList, Storage};
use page_source::Page;

/// What the null bits and lengths say of a field.
#[derive(Clone, Copy)]
pub(crate) struct FieldRead {
    pub(crate) null: bool,
    pub(crate) long: bool,
    pub(crate) external: bool,
    pub(crate) length: usize,
}

fn byte_at(page: &Page, at: usize) -> usize
    requires { at < 16384 }
    ensures value { result ≡ slice_index page.now at }
    ensures within { result < 256 }
{
    usize::from(page.bytes()[at])
}

fn bit_of(byte: usize, k: usize) -> bool
    requires { k < 8 }
    ensures { result ≡ bit_of byte k }
{
    (byte >> k) % 2 == 1
}

pub(crate) fn field_at(fields: &FieldList, i: usize) -> Field
    requires { i < length fields.now.fields }
    ensures { result ≡ field_at fields.now i }
{
    fields.fields()[i]
}

/// How a record keeps field `i`.
#[tactic(auto, using(crate::proofs::FieldSteps::storage_in, crate::proofs::FieldSteps::storage_short))]
pub(crate) fn storage_at(fields: &FieldList, i: usize) -> Storage
    requires { i < length fields.now.fields }
    ensures value { result ≡ storage_of (field_at fields.now i) }
    ensures short { result.length < 34359738368 }
{
    fields.stored()[i]
}

/// Whether field `i` is null; `nulls` nullable fields stand before it.
#[tactic(auto, unfolding(crate::specs::Reading::is_null))]
fn is_null(page: &Page, origin: usize, fields: &FieldList, i: usize, nulls: usize) -> bool
    requires inside { i < length fields.now.fields }
    requires origin { IsHeapOrigin origin }
    requires before { nulls ≡ nullable_before fields.now i }
    ensures { result ≡ is_null page.now origin fields.now i }
{
    storage_at(fields, i).nullable
        && bit_of(
            byte_at(page, origin.saturating_sub(6).saturating_sub(nulls / 8)),
            nulls % 8,
        )
}

/// Where the first length of a record stands.
pub(crate) fn lengths_top(origin: usize, fields: &FieldList) -> usize
    requires { IsHeapOrigin origin }
    ensures value { result ≡ lengths_top origin fields.now }
    ensures within { result < 16384 }
{
    origin
        .saturating_sub(6)
        .saturating_sub((fields.nullable() as usize + 7) / 8)
}

/// Where the length of a field stands; the lengths before it take `taken` bytes.
#[tactic(auto, unfolding(crate::specs::Reading::length_byte))]
fn length_byte(
    page: &Page,
    origin: usize,
    fields: &FieldList,
    i: usize,
    top: usize,
    taken: usize,
) -> usize
    requires top { top ≡ lengths_top origin fields.now }
    requires within { top < 16384 }
    requires before { taken ≡ lengths_before page.now origin fields.now i }
    ensures value { result ≡ length_byte page.now origin fields.now i }
    ensures within { result < 16384 }
{
    top.saturating_sub(taken)
}

/// A length of one byte or of two.
fn length_at(page: &Page, long: bool, at: usize) -> usize
    requires { at < 16384 }
    ensures value { result ≡ length_at page.now long at }
    ensures within { result < 16384 }
{
    if long {
        byte_at(page, at) % 64 * 256 + byte_at(page, at.saturating_sub(1))
    } else {
        byte_at(page, at)
    }
}

/// Reads field `i`, where `nulls` nullable fields stand before it, and their lengths take `taken` bytes, from `top`
/// down.
#[tactic(auto, unfolding(crate::specs::Reading::is_external, crate::specs::Reading::local_length))]
pub(crate) fn read_field(
    page: &Page,
    origin: usize,
    fields: &FieldList,
    i: usize,
    nulls: usize,
    top: usize,
    taken: usize,
) -> FieldRead
    requires inside { i < length fields.now.fields }
    requires origin { IsHeapOrigin origin }
    requires top { top ≡ lengths_top origin fields.now }
    requires low { top < 16384 }
    requires before { nulls ≡ nullable_before fields.now i }
    requires lengths { taken ≡ lengths_before page.now origin fields.now i }
    ensures null { result.null ≡ is_null page.now origin fields.now i }
    ensures long { result.long ≡ has_long_length page.now origin fields.now i }
    ensures external { result.external ≡ is_external page.now origin fields.now i }
    ensures length { result.length ≡ local_length page.now origin fields.now i }
    ensures within { result.length < 34359738368 }
{
    let stored = storage_at(fields, i);
    let null = is_null(page, origin, fields, i, nulls);
    let at = length_byte(page, origin, fields, i, top, taken);
    let long = stored.variable && !null && stored.big && byte_at(page, at) >= 128;
    let external = long && bit_of(byte_at(page, at), 6);
    let length = if null {
        0
    } else if stored.variable {
        length_at(page, long, at)
    } else {
        stored.length
    };
    FieldRead {
        null,
        long,
        external,
        length,
    }
}

/// Whether field `i`, which was read so, is spelled as it must be.
pub(crate) fn is_field_spelled(
    page: &Page,
    origin: usize,
    fields: &FieldList,
    i: usize,
    read: &FieldRead,
) -> bool
    requires inside { i < length fields.now.fields }
    requires long { read.now.long ≡ has_long_length page.now origin fields.now i }
    requires external { read.now.external ≡ is_external page.now origin fields.now i }
    requires length { read.now.length ≡ local_length page.now origin fields.now i }
    ensures { IsTrue result ↔ FieldIsSpelled page.now origin fields.now i }
{
    let short = read.long && !read.external && read.length < 128;
    let stays = read.external && !storage_at(fields, i).may_leave;
    let small = read.external && read.length < 20;
    !short && !stays && !small
}
