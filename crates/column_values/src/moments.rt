//! Moments and years (my_time).

ghost use Rattle.std.specs.Prelude.{◌≡◌, ◌≤◌, ◌<◌, ◌^◌, ◌↔◌, ◌++◌, List, length, IsTrue, OnOk};
ghost use Rattle.column_values.specs.declared.kind.ColumnType.{ColumnType};
ghost use Rattle.column_values.specs.Lengths.{fraction_length};
ghost use Rattle.column_values.specs.Moments.{FindsFraction, IsFraction, IsMoment, IsTimestamp, IsYear, fraction_unit};
ghost use Rattle.column_values.specs.Moments.{fraction_bytes};
ghost use Rattle.column_values.specs.Spell.{Finds, Encodes};

use crate::big_endian::{number_at, push_number};
use crate::lengths::fraction_length;
use crate::powers::ten_to;
use crate::value::{Value, ValueError};
use page_source::{ByteList, NoMemory};
use std::alloc::Global;

const TOP: u64 = 1 << 39;

// How many microseconds the unit is that has so many digits behind it.
fn unit_before(digits: usize) -> u64
    requires { digits ≤ 6 }
    ensures value { result ≡ 10 ^ digits }
    ensures some { 1 ≤ result }
    ensures few { result ≤ 1000000 }
{
    ten_to(digits) as u64
}

// How many microseconds one unit of the bytes is.
fn fraction_unit(digits: u8) -> u64
    requires { digits ≤ 6 }
    ensures value { result ≡ fraction_unit digits }
    ensures some { 1 ≤ result }
    ensures few { result ≤ 1000000 }
{
    unit_before(6 - 2 * fraction_length(digits))
}

// The microseconds that the bytes of a fraction spell.
fn fraction(digits: u8, bytes: &[u8]) -> Option<u32>
    requires known { digits ≤ 6 }
    requires size { length bytes.now ≡ fraction_length digits }
    ensures { FindsFraction digits bytes.now result }
{
    let units = number_at(bytes, 0, fraction_length(digits));
    let micro = units * fraction_unit(digits);
    if micro < 1_000_000 && micro % unit_before(6 - usize::from(digits)) == 0 {
        Some(micro as u32)
    } else {
        None
    }
}

/// The date with a time of day that the bytes spell.
pub(crate) fn date_time(digits: u8, bytes: &[u8]) -> Option<Value>
    requires { digits ≤ 6 }
    ensures { Finds (ColumnType.DateTime digits) bytes.now result }
{
    if bytes.len() != 5 + fraction_length(digits) {
        return None;
    }
    let number = number_at(bytes, 0, 5);
    if number < TOP {
        return None;
    }
    let (days, time) = ((number - TOP) / 131072, (number - TOP) % 131072);
    let (year, month, day) = (days / 32 / 13, days / 32 % 13, days % 32);
    let (hour, minute, second) = (time / 4096, time / 64 % 64, time % 64);
    if year > 9999 || hour > 23 || minute > 59 || second > 59 {
        return None;
    }
    let micro = fraction(digits, bytes.split_at(5).1)?;
    Some(Value::DateTime {
        year: year as u16,
        month: month as u8,
        day: day as u8,
        hour: hour as u8,
        minute: minute as u8,
        second: second as u8,
        micro,
    })
}

/// The seconds that the bytes spell.
pub(crate) fn timestamp(digits: u8, bytes: &[u8]) -> Option<Value>
    requires { digits ≤ 6 }
    ensures { Finds (ColumnType.Timestamp digits) bytes.now result }
{
    if bytes.len() != 4 + fraction_length(digits) {
        return None;
    }
    let seconds = number_at(bytes, 0, 4);
    let micro = fraction(digits, bytes.split_at(4).1)?;
    if seconds > 0x7FFF_FFFF || seconds == 0 && micro > 0 {
        return None;
    }
    Some(Value::Timestamp {
        seconds: seconds as u32,
        micro,
    })
}

/// The year that the byte spells.
pub(crate) fn year(bytes: &[u8]) -> Option<Value>
    ensures { Finds ColumnType.Year bytes.now result }
{
    if bytes.len() != 1 {
        return None;
    }
    match bytes[0] {
        0 => Some(Value::Year(0)),
        byte => Some(Value::Year(1900 + u16::from(byte))),
    }
}

// The bytes of a fraction, added at the end.
fn push_fraction(list: &mut ByteList, digits: u8, micro: u32) -> Result<(), NoMemory>
    requires known { digits ≤ 6 }
    requires below { micro < 1000000 }
    ensures { OnOk result (list.new ≡ list.old ++ fraction_bytes digits micro) }
{
    push_number(
        list,
        fraction_length(digits),
        u64::from(micro) / fraction_unit(digits),
    )
}

// Whether a fraction has these digits alone.
fn is_fraction(digits: u8, micro: u32) -> bool
    requires { digits ≤ 6 }
    ensures { IsTrue result ↔ IsFraction digits micro }
{
    micro < 1_000_000 && u64::from(micro) % unit_before(6 - usize::from(digits)) == 0
}

fn is_moment(year: u16, month: u8, day: u8, hour: u8, minute: u8, second: u8) -> bool
    ensures { IsTrue result ↔ IsMoment year month day hour minute second }
{
    let is_date = year <= 9999 && month <= 12 && day <= 31;
    is_date && hour <= 23 && minute <= 59 && second <= 59
}

/// The bytes of a date with a time of day.
pub(crate) fn date_time_bytes(
    alloc: Global,
    digits: u8,
    value: &Value,
) -> Result<ByteList, ValueError>
    requires { digits ≤ 6 }
    ensures { Encodes (ColumnType.DateTime digits) value.now result }
{
    let Value::DateTime {
        year,
        month,
        day,
        hour,
        minute,
        second,
        micro,
    } = *value
    else {
        return Err(ValueError::BadValue);
    };
    if !is_moment(year, month, day, hour, minute, second) || !is_fraction(digits, micro) {
        return Err(ValueError::BadValue);
    }
    let days = (u64::from(year) * 13 + u64::from(month)) * 32 + u64::from(day);
    let time = u64::from(hour) * 4096 + u64::from(minute) * 64 + u64::from(second);
    let mut list = ByteList::new(alloc);
    push_number(&mut list, 5, TOP + days * 131072 + time)?;
    push_fraction(&mut list, digits, micro)?;
    Ok(list)
}

fn is_timestamp(digits: u8, seconds: u32, micro: u32) -> bool
    requires { digits ≤ 6 }
    ensures { IsTrue result ↔ IsTimestamp digits seconds micro }
{
    seconds <= 0x7FFF_FFFF && (seconds > 0 || micro == 0) && is_fraction(digits, micro)
}

/// The bytes of a timestamp.
pub(crate) fn timestamp_bytes(
    alloc: Global,
    digits: u8,
    value: &Value,
) -> Result<ByteList, ValueError>
    requires { digits ≤ 6 }
    ensures { Encodes (ColumnType.Timestamp digits) value.now result }
{
    let Value::Timestamp { seconds, micro } = *value else {
        return Err(ValueError::BadValue);
    };
    if !is_timestamp(digits, seconds, micro) {
        return Err(ValueError::BadValue);
    }
    let mut list = ByteList::new(alloc);
    push_number(&mut list, 4, u64::from(seconds))?;
    push_fraction(&mut list, digits, micro)?;
    Ok(list)
}

fn is_year(year: u16) -> bool
    ensures { IsTrue result ↔ IsYear year }
{
    year == 0 || year >= 1901 && year <= 2155
}

/// The byte of a year.
pub(crate) fn year_bytes(alloc: Global, value: &Value) -> Result<ByteList, ValueError>
    ensures { Encodes ColumnType.Year value.now result }
{
    let Value::Year(year) = *value else {
        return Err(ValueError::BadValue);
    };
    if !is_year(year) {
        return Err(ValueError::BadValue);
    }
    let mut list = ByteList::new(alloc);
    push_number(&mut list, 1, u64::from(year.saturating_sub(1900)))?;
    Ok(list)
}
