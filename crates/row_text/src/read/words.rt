//! Words, which are the numbers and the moments: no value may end within them.

ghost use Rattle.std.specs.Prelude.{◌≡◌, ℤ, pos, ◌+◌, ◌-◌, ◌*◌, ◌^◌, ◌<◌, ◌≤◌, ◌↔◌, ◌++◌, true, false, length, drop};
ghost use Rattle.std.specs.Prelude.{position, IsTrue, IfOk, ◌+ℤ◌};
ghost use Rattle.column_values.specs.declared.kind.ColumnType.{ColumnType};
ghost use Rattle.column_values.specs.Types.{IsColumnType, IsWidth, HoldsText};
ghost use Rattle.column_values.specs.Spell.{IsInRange};
ghost use Rattle.row_text.specs.calls.Values.{EndsValue, FindsValue};
ghost use Rattle.row_text.specs.calls.Words.{HasNoEnd, FindsWord, is_end};

use crate::read::decimals::decimal_value;
use crate::read::moments::{date_time_value, date_value, timestamp_value, year_value};
use crate::read::numbers::{signed, unsigned};
use crate::row::RowError;
use column_values::{ColumnType, Value};

fn is_end(byte: u8) -> bool
    ensures { result ≡ is_end byte }
{
    byte == b',' || byte == b')'
}

/// The first place before which a value may end.
fn first_end(text: &[u8]) -> Option<usize>
    ensures { result ≡ position is_end text.now }
{
    text.iter().position(|byte| is_end(*byte))
}

/// The text up to the first place before which a value may end.
fn word_of(text: &[u8]) -> &[u8]
    ensures cut { text.now ≡ result.now ++ drop (length result.now) text.now }
    ensures ends { EndsValue (drop (length result.now) text.now) }
    ensures lacks { HasNoEnd result.now }
    ensures within { length result.now ≤ length text.now }
{
    match first_end(text) {
        Some(at) => &text[..at],
        None => text,
    }
}

/// The greatest number of a signed type of so many bytes.
fn greatest_signed(width: u8) -> i64
    requires { IsWidth width }
    ensures { result +ℤ pos 1 ≡ pos (2 ^ (8 * width - 1)) }
{
    match width {
        1 => 0x7F,
        2 => 0x7FFF,
        3 => 0x7F_FFFF,
        4 => 0x7FFF_FFFF,
        _ => 0x7FFF_FFFF_FFFF_FFFF,
    }
}

/// The greatest number of an unsigned type of so many bytes.
fn greatest_unsigned(width: u8) -> u64
    requires { IsWidth width }
    ensures { result + 1 ≡ 256 ^ width }
{
    match width {
        1 => 0xFF,
        2 => 0xFFFF,
        3 => 0xFF_FFFF,
        4 => 0xFFFF_FFFF,
        _ => 0xFFFF_FFFF_FFFF_FFFF,
    }
}

/// Whether a signed type of so many bytes has the number.
fn is_signed_number(width: u8, number: i64) -> bool
    requires { IsWidth width }
    ensures { IsTrue result ↔ IsInRange true width number }
{
    let greatest = greatest_signed(width);
    number >= -1 - greatest && number <= greatest
}

/// Whether an unsigned type of so many bytes has the number.
fn is_unsigned_number(width: u8, number: u64) -> bool
    requires { IsWidth width }
    ensures { IsTrue result ↔ (number < 256 ^ width) }
{
    number <= greatest_unsigned(width)
}

/// The value of a signed type.
fn signed_value(width: u8, word: &[u8]) -> Option<Value>
    requires { IsWidth width }
    ensures { FindsWord (ColumnType.Int width true) word.now result }
{
    let number = signed(word)?;
    if !is_signed_number(width, number) {
        return None;
    }
    Some(Value::Signed(number))
}

/// The value of an unsigned type.
fn unsigned_value(width: u8, word: &[u8]) -> Option<Value>
    requires { IsWidth width }
    ensures { FindsWord (ColumnType.Int width false) word.now result }
{
    let number = unsigned(word)?;
    if !is_unsigned_number(width, number) {
        return None;
    }
    Some(Value::Unsigned(number))
}

/// The number or the moment that a word is.
fn number_value(kind: &ColumnType, word: &[u8]) -> Option<Value>
    requires known { IsColumnType kind.now }
    requires number { ¬ (HoldsText kind.now) }
    ensures { FindsWord kind.now word.now result }
{
    match *kind {
        ColumnType::Int { width, signed } => {
            if signed {
                signed_value(width, word)
            } else {
                unsigned_value(width, word)
            }
        }
        ColumnType::Date => date_value(word),
        ColumnType::DateTime { f } => date_time_value(f, word),
        ColumnType::Timestamp { f } => timestamp_value(f, word),
        ColumnType::Year => year_value(word),
        ColumnType::Decimal { p, s } => decimal_value(p, s, word),
        _ => None,
    }
}

/// The number or the moment that the text begins with, and how many bytes it takes there.
pub(crate) fn read_word(kind: &ColumnType, text: &[u8]) -> Result<(Value, usize), RowError>
    requires known { IsColumnType kind.now }
    requires number { ¬ (HoldsText kind.now) }
    ensures found { FindsValue kind.now text.now result }
    ensures within { IfOk result (λ found. found.1 ≤ length text.now) }
{
    let word = word_of(text);
    match number_value(kind, word) {
        Some(value) => Ok((value, word.len())),
        None => Err(RowError::Refused),
    }
}
