//! The order of two fields (rem0cmp).

ghost use Rattle.std.specs.Prelude.{◌≡◌, ◌≤◌, ◌<◌, length, take, slice_index_or};
ghost use Rattle.std.specs.Option.{option_copied};
ghost use Rattle.column_values.specs.Order.{bytes_cmp, text_cmp, field_cmp, cell_cmp};

use crate::big_endian::number_at;
use crate::field::FieldType;
use crate::kind::ColumnType;
use std::cmp::Ordering;

/// The order of two fields that aren't null (rem0cmp): texts as if the shorter were filled with spaces, all
/// else byte by byte, a proper prefix first.
pub fn compare(kind: &FieldType, a: &[u8], b: &[u8]) -> Ordering
    ensures { result ≡ field_cmp kind.now a.now b.now }
{
    match *kind {
        FieldType::Column(
            ColumnType::Char { .. }
            | ColumnType::Varchar { .. }
            | ColumnType::Text { .. }
            | ColumnType::Utf8Varchar { .. }
            | ColumnType::Utf8Text { .. },
        ) => compare_text(a, b),
        _ => compare_bytes(a, b),
    }
}

/// The order of two fields that may be null, which is least.
#[inline(always)]
pub fn compare_values(kind: &FieldType, a: Option<&[u8]>, b: Option<&[u8]>) -> Ordering
    ensures { result ≡ cell_cmp kind.now (option_copied a.entry) (option_copied b.entry) }
{
    match (a, b) {
        (Some(a), Some(b)) => compare(kind, a, b),
        (Some(_), None) => Ordering::Greater,
        (None, Some(_)) => Ordering::Less,
        (None, None) => Ordering::Equal,
    }
}

/// The order of `W` bytes, by the numbers that they spell.
fn compare_numbers<const W: usize>(a: &[u8], b: &[u8]) -> Ordering
    requires some { 1 ≤ W }
    requires few { W ≤ 8 }
    requires first { length a.now ≡ W }
    requires second { length b.now ≡ W }
    ensures { result ≡ bytes_cmp a.now b.now }
{
    let _bytes = (a[0], b[0]);
    number_at(a, 0, W).cmp(&number_at(b, 0, W))
}

/// Compares the first `both` bytes of two lists, fewer than eight: how many of them were compared, and their order.
/// Four or more are compared as two numbers of four bytes, which overlap; fewer aren't compared.
fn compare_halves(a: &[u8], b: &[u8], both: usize) -> (usize, Ordering)
    requires few { both < 8 }
    requires first_long { both ≤ length a.now }
    requires second_long { both ≤ length b.now }
    ensures first { result.0 ≤ length a.now }
    ensures second { result.0 ≤ length b.now }
    ensures order { result.1 ≡ bytes_cmp (take result.0 a.now) (take result.0 b.now) }
{
    if both < 4 {
        return (0, Ordering::Equal);
    }
    let front = number_at(a, 0, 4).cmp(&number_at(b, 0, 4));
    match front {
        Ordering::Less => (4, Ordering::Less),
        Ordering::Greater => (4, Ordering::Greater),
        Ordering::Equal => {
            let at = both - 4;
            let end = number_at(a, at, 4).cmp(&number_at(b, at, 4));
            (both, end)
        }
    }
}

/// Compares two lists of bytes as numbers of eight bytes or of four, as far as both go: how many bytes were compared,
/// and their order. It ends at the first numbers that differ, and the last number may have bytes of the one before it.
/// Fewer than four bytes aren't compared.
fn compare_words(a: &[u8], b: &[u8]) -> (usize, Ordering)
    ensures first { result.0 ≤ length a.now }
    ensures second { result.0 ≤ length b.now }
    ensures order { result.1 ≡ bytes_cmp (take result.0 a.now) (take result.0 b.now) }
{
    let both = a.len().min(b.len());
    if both < 8 {
        return compare_halves(a, b, both);
    }
    for word in 0..both / 8 {
        let at = 8 * word;
        let order = number_at(a, at, 8).cmp(&number_at(b, at, 8));
        match order {
            Ordering::Less => return (at + 8, Ordering::Less),
            Ordering::Greater => return (at + 8, Ordering::Greater),
            Ordering::Equal => {}
        }
    }
    let at = both - 8;
    let end = number_at(a, at, 8).cmp(&number_at(b, at, 8));
    (both, end)
}

/// The order of bytes, a proper prefix first: by words, and byte by byte what these leave.
#[inline(never)]
fn compare_long(a: &[u8], b: &[u8]) -> Ordering
    ensures { result ≡ bytes_cmp a.now b.now }
{
    let (from, order) = compare_words(a, b);
    match order {
        Ordering::Less => Ordering::Less,
        Ordering::Greater => Ordering::Greater,
        Ordering::Equal => a[from..].cmp(&b[from..]),
    }
}

/// The order of bytes, a proper prefix first. Four or eight of each, as most whole numbers have, are compared as one
/// number.
#[inline(always)]
fn compare_bytes(a: &[u8], b: &[u8]) -> Ordering
    ensures { result ≡ bytes_cmp a.now b.now }
{
    if a.len() == 4 && b.len() == 4 {
        compare_numbers::<4>(a, b)
    } else if a.len() == 8 && b.len() == 8 {
        compare_numbers::<8>(a, b)
    } else {
        compare_long(a, b)
    }
}

/// The byte at a place of a text that goes on with spaces.
fn byte_at(text: &[u8], i: usize) -> u8
    ensures { result ≡ slice_index_or text.now i 32 }
{
    if i < text.len() { text[i] } else { b' ' }
}

#[inline(never)]
fn compare_text(a: &[u8], b: &[u8]) -> Ordering
    ensures { result ≡ text_cmp a.now b.now }
{
    if a.len() == b.len() {
        return compare_bytes(a, b);
    }
    let (from, order) = compare_words(a, b);
    match order {
        Ordering::Less => return Ordering::Less,
        Ordering::Greater => return Ordering::Greater,
        Ordering::Equal => {}
    }
    for i in from..a.len().max(b.len()) {
        let here = byte_at(a, i).cmp(&byte_at(b, i));
        match here {
            Ordering::Less => return Ordering::Less,
            Ordering::Greater => return Ordering::Greater,
            Ordering::Equal => {}
        }
    }
    Ordering::Equal
}
