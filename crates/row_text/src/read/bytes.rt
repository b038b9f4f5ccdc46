//! Bytes in hexadecimal digits, which are read in pieces and each once.

ghost use Rattle.std.specs.Prelude.{◌≡◌, ◌≢◌, ℕ, ◌*◌, ◌<◌, ◌≤◌, ◌↔◌, ◌++◌, ◌/◌, ◌%◌, List, [], false, codes, length};
ghost use Rattle.std.specs.Prelude.{drop};
ghost use Rattle.std.specs.Prelude.{slice_index, MatchOption, IsTrue, IfOk};
ghost use Rattle.hex.specs.Hex.{encode_lower, lower_digits};
ghost use Rattle.page_source.specs.Pages.{AreBytes};
ghost use Rattle.column_values.specs.Types.{IsColumnType, IsRaw};
ghost use Rattle.column_values.specs.Spell.{IsSpelling};
ghost use Rattle.row_text.specs.Values.{quoted};
ghost use Rattle.row_text.specs.calls.Values.{EndsValue, FindsValue};
ghost use Rattle.row_text.specs.calls.Bytes.{is_binary, AreLeadingBytes, TakesBytes, BeginsNoByte};

use crate::read::ends::behind;
use crate::read::texts::ends_value;
use crate::row::RowError;
use column_values::{ColumnType, Value, is_value};
use page_source::{ByteList, NoMemory};
use std::alloc::Global;

/// How many bytes are read of their digits at a time.
const PIECE: usize = 256;

/// The number that a hexadecimal digit in lower case stands for, and 255 for any other byte; by comparisons, so that a
/// compiler can make it of many bytes at once.
fn number_of(digit: u8) -> u8
    ensures is { result < 16 → slice_index lower_digits result ≡ digit }
    ensures only { (number : ℕ) → number < 16 → slice_index lower_digits number ≡ digit → result ≡ number }
{
    if digit >= b'0' && digit <= b'9' {
        digit - b'0'
    } else if digit >= b'a' && digit <= b'f' {
        digit - (b'a' - 10)
    } else {
        255
    }
}

/// The byte of two digits.
fn byte_of(high: u8, low: u8) -> Option<u8>
    ensures { MatchOption result ((byte : ℕ) → byte < 256 → slice_index lower_digits (byte / 16) ≡ high
        → slice_index lower_digits (byte % 16) ≢ low)
        (λ byte. (byte < 256) × (slice_index lower_digits (byte / 16) ≡ high)
        × (slice_index lower_digits (byte % 16) ≡ low)) }
{
    let (high, low) = (number_of(high), number_of(low));
    if high.max(low) >= 16 {
        return None;
    }
    Some(high * 16 + low)
}

/// Fills the room with the bytes of these digits, and says whether all of them are digits. All are looked at, without a
/// way out at the first that isn't one, so that a compiler makes wide vectors of the loop.
fn write_bytes(digits: &[u8], room: &mut [u8]) -> bool
    requires { length digits.now ≡ 2 * length room.old }
    ensures same { length room.new ≡ length room.old }
    ensures are { IsTrue result → AreBytes room.new × (digits.now ≡ encode_lower room.new) }
{
    let mut greatest = 0u8;
    for i in 0..room.len() {
        let (high, low) = (number_of(digits[2 * i]), number_of(digits[2 * i + 1]));
        room[i] = high % 16 * 16 + low % 16;
        greatest = greatest.max(high).max(low);
    }
    greatest < 16
}

/// Adds the bytes of whole pieces of digits at the head of a text, and answers what is left.
fn add_pieces<'a>(list: &mut ByteList, text: &'a [u8]) -> Result<&'a [u8], NoMemory>
    ensures { IfOk result (λ rest. TakesBytes list.old list.new text.now rest.now) }
{
    let mut room = [0; PIECE];
    let mut rest = text;
    while rest.len() >= 2 * PIECE {
        let (digits, more) = rest.split_at(2 * PIECE);
        if !write_bytes(digits, &mut room) {
            return Ok(rest);
        }
        list.extend(&room)?;
        rest = more;
    }
    Ok(rest)
}

/// Adds the bytes of the digits at the head of a text, two after two, and answers what is left: no byte more.
fn add_pairs<'a>(list: &mut ByteList, text: &'a [u8]) -> Result<&'a [u8], NoMemory>
    ensures takes { IfOk result (λ rest. TakesBytes list.old list.new text.now rest.now) }
    ensures all { IfOk result (λ rest. BeginsNoByte rest.now) }
{
    let mut rest = text;
    while rest.len() >= 2 {
        let Some(byte) = byte_of(rest[0], rest[1]) else {
            return Ok(rest);
        };
        list.push(byte)?;
        (_, rest) = rest.split_at(2);
    }
    Ok(rest)
}

/// The bytes whose digits a text begins with, as many as there are, and how many digits they have.
fn leading_bytes(alloc: Global, text: &[u8]) -> Result<(ByteList, usize), NoMemory>
    ensures found { IfOk result (λ found. AreLeadingBytes found.0 text.now (drop found.1 text.now)) }
    ensures within { IfOk result (λ found. found.1 ≤ length text.now) }
{
    let mut list = ByteList::new(alloc);
    let behind_pieces = add_pieces(&mut list, text)?;
    let rest = add_pairs(&mut list, behind_pieces)?;
    Ok((list, text.len() - rest.len()))
}

/// Whether values of the type are bytes of fixed length, which are never written as an empty text.
fn is_binary(kind: &ColumnType) -> bool
    ensures { result ≡ is_binary kind.now }
{
    matches!(kind, ColumnType::Binary { .. })
}

/// Whether the text begins as that of no bytes.
fn is_empty(text: &[u8]) -> bool
    ensures { IsTrue result ↔ ((rest : List ℕ) × (text.now ≡ quoted [] ++ rest) × EndsValue rest) }
{
    match behind(text, b"''") {
        Some(rest) => ends_value(rest),
        None => false,
    }
}

/// The value of no bytes, where the text begins so.
fn read_no_bytes(alloc: Global, kind: &ColumnType, text: &[u8]) -> Result<(Value, usize), RowError>
    requires known { IsColumnType kind.now }
    requires raw { IsRaw kind.now }
    requires other { (rest : List ℕ) → text.now ≢ codes "0x" ++ rest }
    ensures found { FindsValue kind.now text.now result }
    ensures within { IfOk result (λ found. found.1 ≤ length text.now) }
{
    if is_binary(kind) {
        return Err(RowError::Refused);
    }
    if !is_empty(text) {
        return Err(RowError::Refused);
    }
    Ok((Value::Bytes(ByteList::new(alloc)), 2))
}

/// Whether some bytes are a value of the type.
fn are_raw(kind: &ColumnType, bytes: &[u8]) -> bool
    requires { IsColumnType kind.now }
    ensures { IsTrue result ↔ ((1 ≤ length bytes.now) × IsSpelling kind.now bytes.now) }
{
    !bytes.is_empty() && is_value(kind, bytes)
}

/// The bytes that the text begins with, as a value of the type, and how many bytes it takes there.
pub(crate) fn read_bytes(
    alloc: Global,
    kind: &ColumnType,
    text: &[u8],
) -> Result<(Value, usize), RowError>
    requires known { IsColumnType kind.now }
    requires raw { IsRaw kind.now }
    ensures found { FindsValue kind.now text.now result }
    ensures within { IfOk result (λ found. found.1 ≤ length text.now) }
{
    let Some(digits) = behind(text, b"0x") else {
        return read_no_bytes(alloc, kind, text);
    };
    let (bytes, size) = leading_bytes(alloc, digits)?;
    if !are_raw(kind, bytes.bytes()) {
        return Err(RowError::Refused);
    }
    let (_, rest) = digits.split_at(size);
    if !ends_value(rest) {
        return Err(RowError::Refused);
    }
    Ok((Value::Bytes(bytes), text.len() - rest.len()))
}
