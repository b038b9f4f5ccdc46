//! Columns of which any bytes are values.

ghost use Rattle.std.specs.Prelude.{◌≡◌, IsTrue};
ghost use Rattle.column_values.specs.AnyBytes.{takes_any_bytes, field_takes_any, TakeAnyBytes};

use crate::field::{FieldList, FieldType};
use crate::kind::ColumnType;

/// Whether any bytes spell a value of the type, if they are as many as a value of it has.
fn takes_any_bytes(kind: ColumnType) -> bool
    ensures { result ≡ takes_any_bytes kind }
{
    matches!(
        &kind,
        ColumnType::Int { .. }
            | ColumnType::Char { .. }
            | ColumnType::Varchar { .. }
            | ColumnType::Binary { .. }
            | ColumnType::Varbinary { .. }
            | ColumnType::Text { .. }
            | ColumnType::Blob { .. }
            | ColumnType::Year
    )
}

fn field_takes_any(kind: FieldType) -> bool
    ensures { result ≡ field_takes_any kind }
{
    match kind {
        FieldType::Column(kind) => takes_any_bytes(kind),
        _ => true,
    }
}

/// Whether any bytes spell a value of each column among the fields, if they are as many as a value has: of whole
/// numbers, texts of one byte a character, byte strings and years. If not, the answer says nothing.
pub fn take_any_bytes(fields: &FieldList) -> bool
    ensures { IsTrue result → TakeAnyBytes fields.now }
{
    fields
        .fields()
        .iter()
        .all(|field| field_takes_any(field.kind))
}
