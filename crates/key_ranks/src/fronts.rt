//! The fronts of keys: numbers that order as the keys do, if they differ.

ghost use Rattle.std.specs.Prelude.{◌≡◌, ◌^◌, ◌≤◌, ◌<◌, IfSome, ℕ, length, slice_index_or};
ghost use Rattle.std.specs.Option.{option_copied};
ghost use Rattle.key_ranks.specs.Ranks.{HasFront, IsFront, filler_of};

use crate::row_keys::RowKeys;
use column_values::{ColumnType, FieldType};
use page_source::NoMemory;
use std::alloc::Global;

/// A front is below this: the number that the first bytes of the first value spell, and 0 if it is null.
pub(crate) const FRONTS: usize = 1_099_511_627_776;

/// How many bytes may spell a front, after those that are the same in all first values.
const PLACES: usize = 12;

/// What a byte at one place of the first values counts: from `low` on, for one of so many.
#[derive(Clone, Copy, Debug, PartialEq, Eq)]
pub(crate) struct Digit {
    pub low: u8,
    pub width: u16,
}

/// The least and the greatest byte at each of some places, of the values that have one there, and how many bytes the
/// shortest of all values has.
#[derive(Clone, Copy)]
pub(crate) struct Ranges {
    low: [u8; PLACES],
    high: [u8; PLACES],
    shortest: usize,
}

/// How many bytes two values have in common at their beginnings.
pub(crate) fn common(a: &[u8], b: &[u8]) -> usize
    ensures few { result ≤ length a.now }
    ensures same { (i d : ℕ) → i < result → slice_index_or b.now i d ≡ slice_index_or a.now i d }
{
    let most = a.len().min(b.len());
    for i in 0..most {
        if a[i] != b[i] {
            return i;
        }
    }
    most
}

/// What the first values of all keys begin with, those that aren't null. Nothing is said of it, since `front_of` tests
/// each value.
pub(crate) fn common_front<K: RowKeys>(keys: &K, count: usize) -> &[u8] {
    let mut front: Option<&[u8]> = None;
    for row in 0..count {
        if let Some(value) = keys.first(row) {
            front = match front {
                Some(bytes) => Some(&bytes[..common(bytes, value)]),
                None => Some(value),
            };
        }
    }
    match front {
        Some(bytes) => bytes,
        None => &[],
    }
}

/// What a value of a kind goes on with in comparisons.
pub(crate) fn filler(kind: &FieldType) -> u8
    ensures { result ≡ filler_of kind.now }
{
    match *kind {
        FieldType::Column(
            ColumnType::Char { .. }
            | ColumnType::Varchar { .. }
            | ColumnType::Text { .. }
            | ColumnType::Utf8Varchar { .. }
            | ColumnType::Utf8Text { .. },
        ) => b' ',
        _ => 0,
    }
}

/// Byte `i` of a value that goes on so.
pub(crate) fn byte_at(value: &[u8], i: usize, filler: u8) -> u8
    ensures { result ≡ slice_index_or value.now i filler }
{
    if i < value.len() { value[i] } else { filler }
}

/// Takes the bytes of a value into the ranges.
fn widen(ranges: &mut Ranges, bytes: &[u8]) {
    for i in 0..bytes.len().min(PLACES) {
        ranges.low[i] = ranges.low[i].min(bytes[i]);
        ranges.high[i] = ranges.high[i].max(bytes[i]);
    }
    ranges.shortest = ranges.shortest.min(bytes.len());
}

/// The ranges of what the first values of all keys go on with after so many bytes. Nothing is said of them either.
pub(crate) fn ranges_of<K: RowKeys>(keys: &K, begin: usize, count: usize) -> Ranges {
    let mut ranges = Ranges {
        low: [u8::MAX; PLACES],
        high: [0; PLACES],
        shortest: usize::MAX,
    };
    for row in 0..count {
        if let Some(bytes) = keys.first(row).and_then(|value| value.get(begin..)) {
            widen(&mut ranges, bytes);
        }
    }
    ranges
}

/// The digits of fronts that tell as many keys apart as there is room for. A byte that all first values begin with
/// counts nothing. Nothing is said of them, since `front_of` tests each value.
pub(crate) fn digits_of(
    alloc: Global,
    begin: &[u8],
    ranges: &Ranges,
    filler: u8,
) -> Result<Vec<Digit>, NoMemory> {
    let mut digits = Vec::new(alloc);
    for byte in begin {
        digits.push(Digit {
            low: *byte,
            width: 1,
        })?;
    }
    let mut fronts: usize = 1;
    for i in 0..PLACES {
        // a value that ends before goes on with the filler
        let others = if i < ranges.shortest {
            ranges.low[i]
        } else {
            filler
        };
        let low = ranges.low[i].min(others);
        let width = u16::from(ranges.high[i].max(others).saturating_sub(low)) + 1;
        fronts = fronts.saturating_mul(usize::from(width));
        if ranges.high[i] < ranges.low[i] || fronts > FRONTS {
            break;
        }
        digits.push(Digit { low, width })?;
    }
    Ok(digits)
}

/// The number that the bytes of a value spell; none if one of them is no digit.
fn spelled(value: &[u8], digits: &[Digit], filler: u8) -> Option<usize>
    ensures few { IfSome result (λ front. front < 2 ^ 40) }
    ensures front { IfSome result (λ front. IsFront filler digits.now value.now front) }
{
    let mut number = 0;
    for i in 0..digits.len() {
        let digit = digits[i];
        let byte = byte_at(value, i, filler);
        if byte < digit.low || u16::from(byte - digit.low) >= digit.width {
            return None;
        }
        number = number * usize::from(digit.width) + usize::from(byte - digit.low);
        if number >= FRONTS {
            return None;
        }
    }
    Some(number)
}

/// The front of a value; none if one of its bytes is no digit.
pub(crate) fn front_of(value: Option<&[u8]>, digits: &[Digit], filler: u8) -> Option<usize>
    ensures few { IfSome result (λ front. front < 2 ^ 40) }
    ensures front { IfSome result (λ front. HasFront filler digits.now (option_copied value.entry) front) }
{
    match value {
        Some(value) => spelled(value, digits, filler),
        None => Some(0),
    }
}
