//! Numbers in a fixed number of digits, and decimals.

ghost use Rattle.std.specs.Prelude.{◌≡◌, ◌≢◌, ℕ, ◌+◌, ◌^◌, ◌<◌, ◌≤◌, ◌∷◌, [], length, MatchOption};
ghost use Rattle.column_values.specs.declared.kind.ColumnType.{ColumnType};
ghost use Rattle.column_values.specs.Types.{IsColumnType};
ghost use Rattle.row_text.specs.Digits.{last_digits, two_digits, four_digits, behind_point};
ghost use Rattle.row_text.specs.calls.Words.{FindsWord, unsigned_text};

use crate::read::ends::behind;
use crate::read::numbers::wide;
use column_values::{Value, ten_to};

/// The digit that a byte is.
fn digit(byte: u8) -> Option<u8>
    ensures { MatchOption result ((d : ℕ) → d < 10 → 48 + d ≢ byte) (λ d. (d < 10) × (48 + d ≡ byte)) }
{
    match byte {
        b'0'..=b'9' => Some(byte - b'0'),
        _ => None,
    }
}

/// The number of two digits.
pub(crate) fn two(high: u8, low: u8) -> Option<u8>
    ensures { MatchOption result ((n : ℕ) → two_digits n ≢ high ∷ low ∷ [])
        (λ n. (n < 100) × (two_digits n ≡ high ∷ low ∷ [])) }
{
    let high = digit(high)?;
    let low = digit(low)?;
    Some(high * 10 + low)
}

/// The number of four digits.
pub(crate) fn four(a: u8, b: u8, c: u8, d: u8) -> Option<u16>
    ensures { MatchOption result ((n : ℕ) → four_digits n ≢ a ∷ b ∷ c ∷ d ∷ [])
        (λ n. (n < 10000) × (four_digits n ≡ a ∷ b ∷ c ∷ d ∷ [])) }
{
    let front = two(a, b)?;
    let back = two(c, d)?;
    Some(u16::from(front) * 100 + u16::from(back))
}

/// The number that has these digits, so many.
fn number_of(digits: &[u8]) -> Option<u128>
    requires { length digits.now ≤ 38 }
    ensures { MatchOption result ((n : ℕ) → digits.now ≢ last_digits (length digits.now) n)
        (λ n. (n < 10 ^ length digits.now) × (digits.now ≡ last_digits (length digits.now) n)) }
{
    let mut number = 0u128;
    for byte in digits {
        let Some(digit) = digit(*byte) else {
            return None;
        };
        number = number * 10 + u128::from(digit);
    }
    Some(number)
}

/// The number of a point and so many digits behind it; where there are none, of nothing.
pub(crate) fn behind_units(count: u8, text: &[u8]) -> Option<u128>
    requires { count ≤ 30 }
    ensures { MatchOption result ((n : ℕ) → text.now ≢ behind_point count n)
        (λ n. (n < 10 ^ count) × (text.now ≡ behind_point count n)) }
{
    if count == 0 {
        return if text.is_empty() { Some(0) } else { None };
    }
    if text.len() != usize::from(count) + 1 || text[0] != b'.' {
        return None;
    }
    number_of(&text[1..])
}

/// The bytes of a point and so many digits behind it; none where there are no digits.
fn point_size(count: u8) -> usize
    ensures { (n : ℕ) → result ≡ length (behind_point count n) }
{
    if count == 0 {
        0
    } else {
        usize::from(count) + 1
    }
}

/// The number of units of a text without its sign, of `p` digits, `s` of them behind the point.
fn units_of(p: u8, s: u8, text: &[u8]) -> Option<u128>
    requires { IsColumnType (ColumnType.Decimal p s) }
    ensures { MatchOption result ((n : ℕ) → n < 10 ^ p → text.now ≢ unsigned_text s n)
        (λ n. (n < 10 ^ p) × (text.now ≡ unsigned_text s n)) }
{
    let size = point_size(s);
    if text.len() < size {
        return None;
    }
    let (whole, behind) = text.split_at(text.len() - size);
    let whole = wide(whole)?;
    let part = behind_units(s, behind)?;
    if whole >= ten_to(usize::from(p - s)) {
        return None;
    }
    Some(whole * ten_to(usize::from(s)) + part)
}

/// The decimal that a word is, of `p` digits, `s` of them behind the point.
pub(crate) fn decimal_value(p: u8, s: u8, word: &[u8]) -> Option<Value>
    requires { IsColumnType (ColumnType.Decimal p s) }
    ensures { FindsWord (ColumnType.Decimal p s) word.now result }
{
    match behind(word, b"-") {
        Some(text) => {
            let units = units_of(p, s, text)?;
            if units == 0 {
                return None;
            }
            Some(Value::Decimal(-(units as i128)))
        }
        None => {
            let units = units_of(p, s, word)?;
            Some(Value::Decimal(units as i128))
        }
    }
}
