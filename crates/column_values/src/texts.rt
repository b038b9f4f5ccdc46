//! Texts and bytes (data0type): the bytes themselves, or filled with spaces.

ghost use Rattle.std.specs.Prelude.{◌≡◌, ◌≢◌, ◌+◌, ◌-◌, ◌<◌, ◌≤◌, ◌++◌, List, length, replicate, slice_index, IfOk};
ghost use Rattle.std.specs.Prelude.{OnOk, IsTrue, ◌↔◌};
ghost use Rattle.page_source.specs.Pages.{AreBytes};
ghost use Rattle.column_values.specs.declared.kind.ColumnType.{ColumnType};
ghost use Rattle.column_values.specs.Types.{IsColumnType, HoldsText, IsPlainText, IsRaw};
ghost use Rattle.column_values.specs.Spell.{Decodes, Encodes, IsTrimmed, SpellsChar, FitsText};
ghost use Rattle.column_values.specs.Characters.{IsTextUpTo, IsCharacterText};

use crate::kind::ColumnType;
use crate::utf8::is_text;
use crate::value::{Value, ValueError};
use page_source::{ByteList, NoMemory};
use std::alloc::Global;

/// A list of these bytes.
pub(crate) fn list_of(alloc: Global, bytes: &[u8]) -> Result<ByteList, NoMemory>
    ensures same { IfOk result (λ list. list ≡ bytes.now) }
    ensures are_bytes { IfOk result AreBytes }
{
    let mut list = ByteList::new(alloc);
    list.extend(bytes)?;
    Ok(list)
}

/// The text without its trailing spaces (0x20): the value of a `char`, whose bytes are filled with them (row0mysql).
pub fn trimmed(bytes: &[u8]) -> &[u8]
    ensures { SpellsChar (length bytes.now) result.now bytes.now }
{
    let mut end = bytes.len();
    while end > 0 && bytes[end - 1] == b' ' {
        end -= 1;
    }
    &bytes[..end]
}

/// The text that the bytes of a text of fixed length spell.
pub(crate) fn char_text(alloc: Global, n: u32, bytes: &[u8]) -> Result<Value, ValueError>
    ensures { Decodes (ColumnType.Char n) bytes.now result }
{
    if bytes.len() != n as usize {
        return Err(ValueError::BadValue);
    }
    Ok(Value::Text(list_of(alloc, trimmed(bytes))?))
}

fn push_spaces(list: &mut ByteList, count: usize) -> Result<(), NoMemory>
    ensures { OnOk result (list.new ≡ list.old ++ replicate count 32) }
{
    for _ in 0..count {
        list.push(b' ')?;
    }
    Ok(())
}

// Whether the text is of at most `n` bytes and doesn't end with a space.
fn is_trimmed(n: u32, text: &[u8]) -> bool
    ensures { IsTrue result ↔ IsTrimmed n text.now }
{
    text.len() <= n as usize && (text.is_empty() || text[text.len() - 1] != b' ')
}

/// The bytes of a text of fixed length.
pub(crate) fn char_bytes(alloc: Global, n: u32, value: &Value) -> Result<ByteList, ValueError>
    ensures { Encodes (ColumnType.Char n) value.now result }
{
    match *value {
        Value::Text(ref text) if is_trimmed(n, text.bytes()) => {
            let mut list = list_of(alloc, text.bytes())?;
            push_spaces(&mut list, n as usize - text.bytes().len())?;
            Ok(list)
        }
        _ => Err(ValueError::BadValue),
    }
}

fn is_text_of_characters(n: u32, bytes: &[u8]) -> bool
    requires { n ≤ 16383 }
    ensures { IsTrue result ↔ IsTextUpTo n bytes.now }
{
    bytes.len() <= 4 * n as usize && is_text(n, bytes)
}

fn is_text_of_bytes(n: u32, bytes: &[u8]) -> bool
    ensures { IsTrue result ↔ ((length bytes.now ≤ n) × IsCharacterText bytes.now) }
{
    bytes.len() <= n as usize && is_text(u32::MAX, bytes)
}

/// Whether the bytes are those of a text or bytes type.
pub(crate) fn fits(kind: &ColumnType, bytes: &[u8]) -> bool
    requires known { IsColumnType kind.now }
    requires text { HoldsText kind.now }
    ensures { IsTrue result ↔ FitsText kind.now bytes.now }
{
    match *kind {
        ColumnType::Char { n } | ColumnType::Binary { n } => bytes.len() == n as usize,
        ColumnType::Varchar { n }
        | ColumnType::Varbinary { n }
        | ColumnType::Text { n }
        | ColumnType::Blob { n } => bytes.len() <= n as usize,
        ColumnType::Utf8Varchar { n } => is_text_of_characters(n, bytes),
        ColumnType::Utf8Text { n } => is_text_of_bytes(n, bytes),
        _ => false,
    }
}

/// The text that the bytes of a text of any length are.
pub(crate) fn text_value(
    alloc: Global,
    kind: &ColumnType,
    bytes: &[u8],
) -> Result<Value, ValueError>
    requires known { IsColumnType kind.now }
    requires text { IsPlainText kind.now }
    ensures { Decodes kind.now bytes.now result }
{
    if !fits(kind, bytes) {
        return Err(ValueError::BadValue);
    }
    Ok(Value::Text(list_of(alloc, bytes)?))
}

/// The value that bytes are.
pub(crate) fn raw_value(alloc: Global, kind: &ColumnType, bytes: &[u8]) -> Result<Value, ValueError>
    requires known { IsColumnType kind.now }
    requires raw { IsRaw kind.now }
    ensures { Decodes kind.now bytes.now result }
{
    if !fits(kind, bytes) {
        return Err(ValueError::BadValue);
    }
    Ok(Value::Bytes(list_of(alloc, bytes)?))
}

/// The bytes of a text of any length.
pub(crate) fn text_bytes(
    alloc: Global,
    kind: &ColumnType,
    value: &Value,
) -> Result<ByteList, ValueError>
    requires known { IsColumnType kind.now }
    requires text { IsPlainText kind.now }
    ensures { Encodes kind.now value.now result }
{
    let Value::Text(ref text) = *value else {
        return Err(ValueError::BadValue);
    };
    if !fits(kind, text.bytes()) {
        return Err(ValueError::BadValue);
    }
    let list = list_of(alloc, text.bytes())?;
    Ok(list)
}

/// The bytes of a value of bytes.
pub(crate) fn raw_bytes(
    alloc: Global,
    kind: &ColumnType,
    value: &Value,
) -> Result<ByteList, ValueError>
    requires known { IsColumnType kind.now }
    requires raw { IsRaw kind.now }
    ensures { Encodes kind.now value.now result }
{
    let Value::Bytes(ref raw) = *value else {
        return Err(ValueError::BadValue);
    };
    if !fits(kind, raw.bytes()) {
        return Err(ValueError::BadValue);
    }
    let list = list_of(alloc, raw.bytes())?;
    Ok(list)
}
