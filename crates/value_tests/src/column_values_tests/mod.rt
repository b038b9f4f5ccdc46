//! Bytes and their values, one of each type; all others are lines of the crate `cases`.

mod refusals;
mod texts;
mod values;

ghost use Rattle.std.specs.Prelude.{IsTrue};
ghost use Rattle.column_values.specs.Types.{IsColumnType};

use column_values::ColumnType;

// Whether the numbers of a type are those of some column.
fn is_known(kind: &ColumnType) -> bool
    ensures { IsTrue result → IsColumnType kind.now }
{
    match *kind {
        ColumnType::Int { width, .. } => width == 1
            || width == 2
            || width == 3
            || width == 4
            || width == 8,
        ColumnType::Date | ColumnType::Year => true,
        ColumnType::Char { n } => n >= 1 && n <= 255,
        ColumnType::Binary { n } => n >= 1 && n <= 255,
        ColumnType::Varchar { n } => n >= 1 && n <= 65535,
        ColumnType::Varbinary { n } => n >= 1 && n <= 65535,
        ColumnType::Utf8Varchar { n } => n >= 1 && n <= 16383,
        ColumnType::Text { n } => n == 255 || n == 65535,
        ColumnType::Blob { n } => n == 255 || n == 65535,
        ColumnType::Utf8Text { n } => n == 255 || n == 65535,
        ColumnType::DateTime { f } => f <= 6,
        ColumnType::Timestamp { f } => f <= 6,
        ColumnType::Decimal { p, s } => p >= 1 && p <= 38 && s <= 30 && s <= p,
    }
}

fn int(width: u8, signed: bool) -> ColumnType {
    ColumnType::Int { width, signed }
}

fn decimal(p: u8, s: u8) -> ColumnType {
    ColumnType::Decimal { p, s }
}
