//! Dates: year * 512 + month * 32 + day in three bytes, with the top bit flipped (my_time).

ghost use Rattle.std.specs.Prelude.{◌≡◌};
ghost use Rattle.column_values.specs.declared.kind.ColumnType.{ColumnType};
ghost use Rattle.column_values.specs.Spell.{Finds, Encodes};

use crate::big_endian::{number_at, push_number};
use crate::value::{Value, ValueError};
use page_source::ByteList;
use std::alloc::Global;

const TOP: u64 = 1 << 23;

/// The date that the bytes spell.
pub(crate) fn date(bytes: &[u8]) -> Option<Value>
    ensures { Finds ColumnType.Date bytes.now result }
{
    if bytes.len() != 3 {
        return None;
    }
    let number = number_at(bytes, 0, 3);
    if number < TOP {
        return None;
    }
    let packed = number - TOP;
    let (year, month, day) = (packed / 512, packed / 32 % 16, packed % 32);
    if year > 9999 || month > 12 {
        return None;
    }
    Some(Value::Date {
        year: year as u16,
        month: month as u8,
        day: day as u8,
    })
}

/// The bytes of a date.
pub(crate) fn date_bytes(alloc: Global, value: &Value) -> Result<ByteList, ValueError>
    ensures { Encodes ColumnType.Date value.now result }
{
    match *value {
        Value::Date { year, month, day } if year <= 9999 && month <= 12 && day <= 31 => {
            let packed = u64::from(year) * 512 + u64::from(month) * 32 + u64::from(day);
            let mut list = ByteList::new(alloc);
            push_number(&mut list, 3, TOP + packed)?;
            Ok(list)
        }
        _ => Err(ValueError::BadValue),
    }
}
