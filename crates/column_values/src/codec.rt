//! Which bytes spell which value of a type, both ways.

ghost use Rattle.std.specs.Prelude.{◌↔◌, IsTrue};
ghost use Rattle.column_values.specs.Types.{IsColumnType, HoldsText};
ghost use Rattle.column_values.specs.Spell.{IsSpelling, Finds, Decodes, Encodes};

use crate::dates::{date, date_bytes};
use crate::decimals::{decimal, decimal_bytes};
use crate::integers::{integer, integer_bytes};
use crate::kind::ColumnType;
use crate::moments::{date_time, date_time_bytes, timestamp, timestamp_bytes, year, year_bytes};
use crate::texts::{char_bytes, char_text, fits, raw_bytes, raw_value, text_bytes, text_value};
use crate::value::{Value, ValueError};
use page_source::ByteList;
use std::alloc::Global;

/// The value that the bytes spell. `BadValue` where they spell none; memory is taken for texts and bytes alone.
pub fn decode(alloc: Global, kind: &ColumnType, bytes: &[u8]) -> Result<Value, ValueError>
    requires { IsColumnType kind.now }
    ensures { Decodes kind.now bytes.now result }
{
    match *kind {
        ColumnType::Char { n } => char_text(alloc, n, bytes),
        ColumnType::Varchar { .. }
        | ColumnType::Text { .. }
        | ColumnType::Utf8Varchar { .. }
        | ColumnType::Utf8Text { .. } => text_value(alloc, kind, bytes),
        ColumnType::Binary { .. } | ColumnType::Varbinary { .. } | ColumnType::Blob { .. } => {
            raw_value(alloc, kind, bytes)
        }
        ColumnType::Int { .. }
        | ColumnType::Date
        | ColumnType::DateTime { .. }
        | ColumnType::Timestamp { .. }
        | ColumnType::Year
        | ColumnType::Decimal { .. } => decode_number(kind, bytes).ok_or(ValueError::BadValue),
    }
}

/// The value that the bytes of a number or of a moment spell, or none. Takes no memory.
pub fn decode_number(kind: &ColumnType, bytes: &[u8]) -> Option<Value>
    requires known { IsColumnType kind.now }
    requires number { ¬ (HoldsText kind.now) }
    ensures { Finds kind.now bytes.now result }
{
    match *kind {
        ColumnType::Int { width, signed } => integer(width, signed, bytes),
        ColumnType::Date => date(bytes),
        ColumnType::DateTime { f } => date_time(f, bytes),
        ColumnType::Timestamp { f } => timestamp(f, bytes),
        ColumnType::Year => year(bytes),
        ColumnType::Decimal { p, s } => decimal(p, s, bytes),
        _ => None,
    }
}

/// Whether the bytes spell a value of the type. Takes no memory.
pub fn is_value(kind: &ColumnType, bytes: &[u8]) -> bool
    requires { IsColumnType kind.now }
    ensures { IsTrue result ↔ IsSpelling kind.now bytes.now }
{
    match *kind {
        ColumnType::Char { .. }
        | ColumnType::Varchar { .. }
        | ColumnType::Text { .. }
        | ColumnType::Utf8Varchar { .. }
        | ColumnType::Utf8Text { .. }
        | ColumnType::Binary { .. }
        | ColumnType::Varbinary { .. }
        | ColumnType::Blob { .. } => fits(kind, bytes),
        ColumnType::Int { width, .. } => bytes.len() == usize::from(width),
        ColumnType::Date
        | ColumnType::DateTime { .. }
        | ColumnType::Timestamp { .. }
        | ColumnType::Year
        | ColumnType::Decimal { .. } => decode_number(kind, bytes).is_some(),
    }
}

/// The bytes of the value. `BadValue` where it isn't one of the type; no type has the value `Null`.
pub fn encode(alloc: Global, kind: &ColumnType, value: &Value) -> Result<ByteList, ValueError>
    requires { IsColumnType kind.now }
    ensures { Encodes kind.now value.now result }
{
    match *kind {
        ColumnType::Int { width, signed } => integer_bytes(alloc, width, signed, value),
        ColumnType::Date => date_bytes(alloc, value),
        ColumnType::Char { n } => char_bytes(alloc, n, value),
        ColumnType::Varchar { .. }
        | ColumnType::Text { .. }
        | ColumnType::Utf8Varchar { .. }
        | ColumnType::Utf8Text { .. } => text_bytes(alloc, kind, value),
        ColumnType::Binary { .. } | ColumnType::Varbinary { .. } | ColumnType::Blob { .. } => {
            raw_bytes(alloc, kind, value)
        }
        ColumnType::DateTime { f } => date_time_bytes(alloc, f, value),
        ColumnType::Timestamp { f } => timestamp_bytes(alloc, f, value),
        ColumnType::Year => year_bytes(alloc, value),
        ColumnType::Decimal { p, s } => decimal_bytes(alloc, p, s, value),
    }
}
