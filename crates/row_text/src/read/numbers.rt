//! Numbers in decimal.

ghost use Rattle.std.specs.Prelude.{◌≡◌, ◌<◌, ◌^◌, ℕ, ℤ, Some, IsTrue, IfSome, ◌↔◌, decimal};
ghost use Rattle.std.specs.Fmt.{signed_decimal};
ghost use Rattle.row_text.specs.calls.Words.{FitsLong};

use itoa::Buffer;
use std::str;

/// The number that the text is, without leading zeros; none for any other text, and for numbers of 2^64 and up.
pub(crate) fn unsigned(text: &[u8]) -> Option<u64>
    ensures found { IfSome result (λ n. text.now ≡ decimal n) }
    ensures only { (n : ℕ) → n < 2 ^ 64 → text.now ≡ decimal n → result ≡ Some n }
{
    let number: u64 = str::from_utf8(text).ok()?.parse().ok()?;
    is_unsigned(text, number).then_some(number)
}

fn is_unsigned(text: &[u8], number: u64) -> bool
    ensures { IsTrue result ↔ (text.now ≡ decimal number) }
{
    Buffer::new().format(number).as_bytes() == text
}

/// The number below 2^128 that a text spells.
pub(crate) fn wide(text: &[u8]) -> Option<u128>
    ensures found { IfSome result (λ n. text.now ≡ decimal n) }
    ensures only { (n : ℕ) → n < 2 ^ 128 → text.now ≡ decimal n → result ≡ Some n }
{
    let number: u128 = str::from_utf8(text).ok()?.parse().ok()?;
    is_wide(text, number).then_some(number)
}

fn is_wide(text: &[u8], number: u128) -> bool
    ensures { IsTrue result ↔ (text.now ≡ decimal number) }
{
    Buffer::new().format(number).as_bytes() == text
}

/// The number that the text is, with its sign where it is below 0; none for numbers that don't fit 64 bits.
pub(crate) fn signed(text: &[u8]) -> Option<i64>
    ensures found { IfSome result (λ z. text.now ≡ signed_decimal z) }
    ensures only { (z : ℤ) → FitsLong z → text.now ≡ signed_decimal z → result ≡ Some z }
{
    let number: i64 = str::from_utf8(text).ok()?.parse().ok()?;
    is_signed(text, number).then_some(number)
}

fn is_signed(text: &[u8], number: i64) -> bool
    ensures { IsTrue result ↔ (text.now ≡ signed_decimal number) }
{
    Buffer::new().format(number).as_bytes() == text
}
