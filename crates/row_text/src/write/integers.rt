//! Whole numbers, from their bytes.

ghost use Rattle.std.specs.Prelude.{◌≡◌, length};
ghost use Rattle.column_values.specs.declared.kind.ColumnType.{ColumnType};
ghost use Rattle.column_values.specs.declared.value.Value.{Value};
ghost use Rattle.column_values.specs.Types.{IsColumnType, IsWidth};
ghost use Rattle.column_values.specs.Spell.{int_of, IsInRange, IsSpelling, Spell};
ghost use Rattle.page_source.specs.Calls.{Puts};
ghost use Rattle.row_text.specs.Values.{value_text};

use column_values::IntCode;
use column_values::laws::spellings_are_unique;
use itoa::Buffer;
use page_source::{ByteSink, Failed};

/// The number that the bytes spell.
fn number_of(width: u8, signed: bool, bytes: &[u8]) -> i128
    requires known { IsWidth width }
    requires size { length bytes.now ≡ width }
    ensures value { result ≡ int_of signed width bytes.now }
    ensures range { IsInRange signed width result }
{
    match width {
        1 => IntCode::<1>::read(signed, bytes),
        2 => IntCode::<2>::read(signed, bytes),
        3 => IntCode::<3>::read(signed, bytes),
        4 => IntCode::<4>::read(signed, bytes),
        _ => IntCode::<8>::read(signed, bytes),
    }
}

/// Puts the whole number that the bytes spell.
pub(crate) fn put_integer<O: ByteSink>(
    sink: &mut O,
    width: u8,
    signed: bool,
    bytes: &[u8],
) -> Result<(), Failed>
    requires known { IsColumnType (ColumnType.Int width signed) }
    requires spelled { IsSpelling (ColumnType.Int width signed) bytes.now }
    ensures { (value : Value) → Spell (ColumnType.Int width signed) value bytes.now
        → Puts O.ByteSink sink.old sink.new (value_text (ColumnType.Int width signed) value) result }
{
    spellings_are_unique();
    let number = number_of(width, signed, bytes);
    if signed {
        sink.put(Buffer::new().format(number as i64).as_bytes())
    } else {
        sink.put(Buffer::new().format(number as u64).as_bytes())
    }
}
