//! The value that a text begins with.

ghost use Rattle.std.specs.Prelude.{◌≡◌, ◌↔◌, ◌++◌, ◌≤◌, ℕ, List, codes, length, IfOk, IsTrue};
ghost use Rattle.column_values.specs.Types.{IsColumnType, IsRaw};
ghost use Rattle.row_text.specs.calls.Values.{EndsValue, FindsValue, FindsColumn};
ghost use Rattle.row_text.specs.calls.Texts.{is_quoted};

use crate::read::bytes::read_bytes;
use crate::read::ends::behind;
use crate::read::texts::{ends_value, read_text};
use crate::read::words::read_word;
use crate::row::RowError;
use column_values::{ColumnType, Value};
use schema_text::Column;
use std::alloc::Global;

/// Whether the text begins as that of no value.
fn is_null(text: &[u8]) -> bool
    ensures { IsTrue result ↔ ((rest : List ℕ) × (text.now ≡ codes "NULL" ++ rest) × EndsValue rest) }
{
    match behind(text, b"NULL") {
        Some(rest) => ends_value(rest),
        None => false,
    }
}

/// Whether the values of the type are texts in quotes.
fn is_quoted(kind: &ColumnType) -> bool
    ensures { result ≡ is_quoted kind.now }
{
    matches!(
        kind,
        ColumnType::Char { .. }
            | ColumnType::Varchar { .. }
            | ColumnType::Text { .. }
            | ColumnType::Utf8Varchar { .. }
            | ColumnType::Utf8Text { .. }
    )
}

/// Whether the values of the type are bytes.
fn is_raw(kind: &ColumnType) -> bool
    ensures { IsTrue result ↔ IsRaw kind.now }
{
    matches!(
        kind,
        ColumnType::Binary { .. } | ColumnType::Varbinary { .. } | ColumnType::Blob { .. }
    )
}

/// The value of the type that the text begins with, and how many bytes it takes there.
fn read_value(alloc: Global, kind: &ColumnType, text: &[u8]) -> Result<(Value, usize), RowError>
    requires known { IsColumnType kind.now }
    ensures found { FindsValue kind.now text.now result }
    ensures within { IfOk result (λ found. found.1 ≤ length text.now) }
{
    if is_quoted(kind) {
        read_text(alloc, kind, text)
    } else if is_raw(kind) {
        read_bytes(alloc, kind, text)
    } else {
        read_word(kind, text)
    }
}

/// The value of the column that the text begins with, and how many bytes it takes there.
pub(crate) fn read_column(
    alloc: Global,
    column: &Column,
    text: &[u8],
) -> Result<(Value, usize), RowError>
    requires known { IsColumnType column.now.kind }
    ensures found { FindsColumn column.now text.now result }
    ensures within { IfOk result (λ found. found.1 ≤ length text.now) }
{
    if !is_null(text) {
        return read_value(alloc, &column.kind, text);
    }
    if !column.nullable {
        return Err(RowError::Refused);
    }
    Ok((Value::Null, 4))
}
