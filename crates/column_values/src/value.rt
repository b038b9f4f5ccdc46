//! The values of columns.

use page_source::{ByteList, NoMemory};
use thiserror::Error;

/// The value of a column, as the server means it.
#[derive(Debug, Drop)]
pub enum Value {
    /// No value. A record has a null bit for it and no bytes, so no bytes spell it.
    Null,
    /// A value of a whole number type that is signed.
    Signed(i64),
    /// A value of a whole number type that is `unsigned`.
    Unsigned(u64),
    /// A date: the year is at most 9999, the month 12 and the day 31; each may be 0.
    Date {
        year: u16,
        month: u8,
        day: u8,
    },
    /// The bytes of a value of a text type, of `char` without the spaces that fill it.
    Text(ByteList),
    /// All bytes of a value of `binary`, `varbinary` or a blob kind.
    Bytes(ByteList),
    /// A date and a time of day, in no time zone. The parts are those of a date, an hour up to 23, a minute and a
    /// second up to 59, and microseconds up to 999,999.
    DateTime {
        year: u16,
        month: u8,
        day: u8,
        hour: u8,
        minute: u8,
        second: u8,
        micro: u32,
    },
    /// Seconds since 1970-01-01 00:00:00 UTC, up to 2,147,483,647, and microseconds up to 999,999. Second 0 stands
    /// for no moment, and has no microseconds.
    Timestamp {
        seconds: u32,
        micro: u32,
    },
    /// The year 0, or one from 1901 to 2155.
    Year(u16),
    /// A decimal in units of 10 to the power -S, where the type has S digits behind the point; of at most 38 digits.
    Decimal(i128),
}

/// Why there is no value, or no spelling of one.
#[derive(Clone, Copy, Debug, PartialEq, Eq, Error)]
pub enum ValueError {
    /// The bytes spell no value of the type, or the value isn't one of the type.
    #[error("no value of the type")]
    BadValue,
    /// Memory ran out.
    #[error("out of memory")]
    Memory,
}

impl From<NoMemory> for ValueError {
    ghost use Rattle.std.specs.Prelude.{◌≡◌};
    ghost use Rattle.column_values.specs.declared.value.ValueError.{ValueError};

    ghost from_gives = { λ _ error. error ≡ ValueError.Memory };

    fn from(_: NoMemory) -> Self {
        ValueError::Memory
    }
}
