//! A value as it stands in a line.

ghost use Rattle.std.specs.Prelude.{◌≡◌, ◌≤◌, ℕ};
ghost use Rattle.column_values.specs.declared.value.Value.{Value};
ghost use Rattle.column_values.specs.Types.{IsColumnType, HoldsText};
ghost use Rattle.column_values.specs.Spell.{IsSpelling, IsValueOf, Spell};
ghost use Rattle.page_source.specs.Calls.{Puts};
ghost use Rattle.row_text.specs.Digits.{behind_point, decimal_text, sign_text};
ghost use Rattle.row_text.specs.Values.{fraction_digits, scale_of, quoted, date_text, day_text, moment_text};
ghost use Rattle.row_text.specs.Values.{timestamp_text, value_text};

use crate::calendar::date_of_day;
use crate::write::bytes::{put_bytes, put_hex_number};
use crate::write::digits::{four_digits, two_digits, write_last_digits};
use crate::write::integers::put_integer;
use crate::write::texts::put_quoted;
use column_values::laws::spellings_are_unique;
use column_values::{ColumnType, Value, decode_number, ten_to, trimmed};
use itoa::Buffer;
use page_source::{ByteSink, Failed, put_pieces};

/// A date with a time of day.
#[derive(Clone, Copy)]
struct Moment {
    year: u16,
    month: u8,
    day: u8,
    hour: u8,
    minute: u8,
    second: u8,
    micro: u32,
}

/// The seconds of a day.
const DAY: u32 = 86_400;

/// A point and the last digits of a number, so many, where there are any. They are written into the room.
fn behind_point(count: u8, number: u128, room: &mut [u8; 31]) -> &[u8]
    requires { count ≤ 30 }
    ensures { result.now ≡ behind_point count number }
{
    if count == 0 {
        return b"";
    }
    let text = &mut room[..=usize::from(count)];
    text[0] = b'.';
    write_last_digits(number, &mut text[1..]);
    text
}

/// Puts a date in quotes.
fn put_date<O: ByteSink>(sink: &mut O, year: u16, month: u8, day: u8) -> Result<(), Failed>
    ensures { Puts O.ByteSink sink.old sink.new (quoted (date_text year month day)) result }
{
    let (month, day) = (u16::from(month), u16::from(day));
    put_pieces(
        sink,
        &[
            b"'",
            &four_digits(year),
            b"-",
            &two_digits(month),
            b"-",
            &two_digits(day),
            b"'",
        ],
    )
}

/// Puts a moment in quotes, with so many digits of the second's fraction.
fn put_moment<O: ByteSink>(sink: &mut O, digits: u8, moment: Moment) -> Result<(), Failed>
    requires { digits ≤ 6 }
    ensures { Puts O.ByteSink sink.old sink.new (quoted (moment_text digits moment.year moment.month moment.day
        moment.hour moment.minute moment.second moment.micro)) result }
{
    let (month, day) = (u16::from(moment.month), u16::from(moment.day));
    let (hour, minute) = (u16::from(moment.hour), u16::from(moment.minute));
    let second = u16::from(moment.second);
    let units = u128::from(moment.micro) / ten_to(usize::from(6 - digits));
    let mut room = [0; 31];
    let fraction = behind_point(digits, units, &mut room);
    put_pieces(
        sink,
        &[
            b"'",
            &four_digits(moment.year),
            b"-",
            &two_digits(month),
            b"-",
            &two_digits(day),
            b" ",
            &two_digits(hour),
            b":",
            &two_digits(minute),
            b":",
            &two_digits(second),
            fraction,
            b"'",
        ],
    )
}

/// The year, the month and the day of a second, where 0 is no second at all.
fn date_of(seconds: u32) -> (u16, u8, u8)
    requires { seconds ≤ 2147483647 }
    ensures { date_text result.0 result.1 result.2 ≡ day_text seconds }
{
    if seconds == 0 {
        return (0, 0, 0);
    }
    let date = date_of_day(seconds / DAY);
    (date.year as u16, date.month, date.day)
}

/// The moment in UTC of a second since 1970-01-01 00:00:00.
fn moment_of(seconds: u32, micro: u32) -> Moment
    requires { seconds ≤ 2147483647 }
    ensures { (digits : ℕ) → moment_text digits result.year result.month result.day result.hour result.minute
        result.second result.micro ≡ timestamp_text digits seconds micro }
{
    let (year, month, day) = date_of(seconds);
    Moment {
        year,
        month,
        day,
        hour: (seconds / 3600 % 24) as u8,
        minute: (seconds / 60 % 60) as u8,
        second: (seconds % 60) as u8,
        micro,
    }
}

/// What stands before a number.
fn sign(number: i128) -> &'static [u8]
    ensures { result.now ≡ sign_text number }
{
    if number < 0 { b"-" } else { b"" }
}

/// Puts a number of units, of whose digits so many stand behind the point.
fn put_decimal<O: ByteSink>(sink: &mut O, scale: u8, units: i128) -> Result<(), Failed>
    requires { scale ≤ 30 }
    ensures { Puts O.ByteSink sink.old sink.new (decimal_text scale units) result }
{
    let number = units.unsigned_abs();
    let (mut digits, mut room) = (Buffer::new(), [0; 31]);
    let whole = digits
        .format(number / ten_to(usize::from(scale)))
        .as_bytes();
    let behind = behind_point(scale, number, &mut room);
    put_pieces(sink, &[sign(units), whole, behind])
}

/// How many digits of a second's fraction a type has.
fn fraction_digits(kind: &ColumnType) -> u8
    requires { IsColumnType kind.now }
    ensures value { result ≡ fraction_digits kind.now }
    ensures few { result ≤ 6 }
{
    match *kind {
        ColumnType::DateTime { f } | ColumnType::Timestamp { f } => f,
        _ => 0,
    }
}

/// How many digits of a type stand behind its point.
fn scale(kind: &ColumnType) -> u8
    requires { IsColumnType kind.now }
    ensures value { result ≡ scale_of kind.now }
    ensures few { result ≤ 30 }
{
    match *kind {
        ColumnType::Decimal { s, .. } => s,
        _ => 0,
    }
}

/// Puts a value of the type.
pub(crate) fn put_value<O: ByteSink>(
    sink: &mut O,
    kind: &ColumnType,
    value: &Value,
) -> Result<(), Failed>
    requires known { IsColumnType kind.now }
    requires is_value { IsValueOf kind.now value.now }
    ensures { Puts O.ByteSink sink.old sink.new (value_text kind.now value.now) result }
{
    match *value {
        Value::Null => put_pieces(sink, &[b"NULL"]),
        Value::Signed(number) => put_pieces(sink, &[Buffer::new().format(number).as_bytes()]),
        Value::Unsigned(number) => put_pieces(sink, &[Buffer::new().format(number).as_bytes()]),
        Value::Date { year, month, day } => put_date(sink, year, month, day),
        Value::Text(ref text) => put_quoted(sink, text.bytes()),
        Value::Bytes(ref bytes) => put_raw(sink, kind, bytes.bytes()),
        Value::DateTime {
            year,
            month,
            day,
            hour,
            minute,
            second,
            micro,
        } => {
            let moment = Moment {
                year,
                month,
                day,
                hour,
                minute,
                second,
                micro,
            };
            put_moment(sink, fraction_digits(kind), moment)
        }
        Value::Timestamp { seconds, micro } => {
            put_moment(sink, fraction_digits(kind), moment_of(seconds, micro))
        }
        Value::Year(year) => put_pieces(sink, &[&four_digits(year)]),
        Value::Decimal(units) => put_decimal(sink, scale(kind), units),
    }
}

/// Puts bytes: of fixed length always as a number.
fn put_raw<O: ByteSink>(sink: &mut O, kind: &ColumnType, bytes: &[u8]) -> Result<(), Failed>
    ensures { Puts O.ByteSink sink.old sink.new (value_text kind.now (Value.Bytes bytes.now)) result }
{
    match *kind {
        ColumnType::Binary { .. } => put_hex_number(sink, bytes),
        _ => put_bytes(sink, bytes),
    }
}

/// Puts the number or the moment that the bytes spell.
fn put_number<O: ByteSink>(sink: &mut O, kind: &ColumnType, bytes: &[u8]) -> Result<(), Failed>
    requires known { IsColumnType kind.now }
    requires number { ¬ (HoldsText kind.now) }
    requires spelled { IsSpelling kind.now bytes.now }
    ensures { (value : Value) → Spell kind.now value bytes.now
        → Puts O.ByteSink sink.old sink.new (value_text kind.now value) result }
{
    spellings_are_unique();
    match decode_number(kind, bytes) {
        Some(value) => put_value(sink, kind, &value),
        None => unreachable!(),
    }
}

/// Puts the value that the bytes spell.
#[inline]
pub(crate) fn put_spelled<O: ByteSink>(
    sink: &mut O,
    kind: &ColumnType,
    bytes: &[u8],
) -> Result<(), Failed>
    requires known { IsColumnType kind.now }
    requires spelled { IsSpelling kind.now bytes.now }
    ensures { (value : Value) → Spell kind.now value bytes.now
        → Puts O.ByteSink sink.old sink.new (value_text kind.now value) result }
{
    spellings_are_unique();
    match *kind {
        ColumnType::Char { .. } => put_quoted(sink, trimmed(bytes)),
        ColumnType::Varchar { .. }
        | ColumnType::Text { .. }
        | ColumnType::Utf8Varchar { .. }
        | ColumnType::Utf8Text { .. } => put_quoted(sink, bytes),
        ColumnType::Binary { .. } | ColumnType::Varbinary { .. } | ColumnType::Blob { .. } => {
            put_raw(sink, kind, bytes)
        }
        ColumnType::Int { width, signed } => put_integer(sink, width, signed, bytes),
        ColumnType::Date
        | ColumnType::DateTime { .. }
        | ColumnType::Timestamp { .. }
        | ColumnType::Year
        | ColumnType::Decimal { .. } => put_number(sink, kind, bytes),
    }
}
