ghost use Rattle.column_values.specs.Types.{IsColumnType};

use super::{decimal, int, is_known};
use column_values::{ColumnType, Value, ValueError, decode, encode, is_value};
use page_source::{ByteList, NoMemory};
use std::alloc::Global;
use std::test::Fail;

fn is_refused(alloc: Global, kind: &ColumnType, bytes: &[u8]) -> bool
    requires { IsColumnType kind.now }
{
    let result = decode(alloc, kind, bytes);
    matches!(result, Err(ValueError::BadValue)) && !is_value(kind, bytes)
}

/// No record has fields of these lengths.
#[test]
fn refuses_bytes_of_another_length(rt: HostRuntime) {
    let table: [(ColumnType, &[u8]); 12] = [
        (int(4, true), &[0; 3]),
        (int(1, false), &[]),
        (int(8, true), &[0; 9]),
        (ColumnType::Date, &[0x8F, 0xB8]),
        (ColumnType::DateTime { f: 0 }, b"\x99\x8B\x42\xD3"),
        (ColumnType::DateTime { f: 0 }, b"\x99\x8B\x42\xD3\x8F\x00"),
        (ColumnType::Timestamp { f: 0 }, &[0; 3]),
        (ColumnType::Year, &[]),
        (ColumnType::Year, &[1; 2]),
        (decimal(5, 2), &[0x80, 0x00]),
        (ColumnType::Char { n: 3 }, b"ab"),
        (ColumnType::Binary { n: 2 }, b"abc"),
    ];
    for (kind, bytes) in table {
        assert!(rt; is_known(&kind));
        assert!(rt; is_refused(rt.alloc(), &kind, bytes), "{kind:?} {bytes:?}");
    }
}

/// Whether a value is none of the kind.
fn is_none_of(alloc: Global, kind: &ColumnType, value: &Value) -> bool
    requires { IsColumnType kind.now }
{
    matches!(encode(alloc, kind, value), Err(ValueError::BadValue))
}

/// A value of a number or a moment, and a kind that it isn't of.
fn misplaced(i: u8) -> (ColumnType, Value) {
    match i {
        0 => (int(1, true), Value::Null),
        1 => (int(1, true), Value::Signed(128)),
        2 => (int(3, false), Value::Unsigned(16777216)),
        3 => (int(8, true), Value::Unsigned(1)),
        4 => (ColumnType::Date, no_month()),
        5 => (ColumnType::Timestamp { f: 0 }, moment(0x8000_0000, 0)),
        6 => (ColumnType::Timestamp { f: 1 }, moment(1, 10)),
        7 => (ColumnType::Year, Value::Year(1900)),
        _ => (decimal(5, 2), Value::Decimal(-100000)),
    }
}

/// A day of month 13.
fn no_month() -> Value {
    Value::Date {
        year: 2012,
        month: 13,
        day: 1,
    }
}

fn moment(seconds: u32, micro: u32) -> Value {
    Value::Timestamp { seconds, micro }
}

#[test]
fn refuses_values_of_other_types(rt: HostRuntime) {
    for i in 0..9 {
        let (kind, value) = misplaced(i);
        assert!(rt; is_known(&kind));
        assert!(rt; is_none_of(rt.alloc(), &kind, &value), "{kind:?} {value:?}");
    }
}

fn list_of(alloc: Global, bytes: &[u8]) -> Result<ByteList, NoMemory> {
    let mut list = ByteList::new(alloc);
    list.extend(bytes)?;
    Ok(list)
}

/// A space at the end of a `char`, and a part of a character.
#[test]
fn refuses_texts_of_other_types(rt: HostRuntime) -> Result<(), Fail> {
    for (kind, text) in [
        (ColumnType::Char { n: 3 }, b"a "),
        (ColumnType::Utf8Varchar { n: 3 }, b"a\xC3"),
    ] {
        assert!(rt; is_known(&kind));
        let value = Value::Text(list_of(rt.alloc(), text)?);
        assert!(rt; is_none_of(rt.alloc(), &kind, &value), "{kind:?}");
    }
    Ok(())
}

#[test]
fn refuses_bytes_for_a_text(rt: HostRuntime) -> Result<(), Fail> {
    let kind = ColumnType::Varchar { n: 3 };
    assert!(rt; is_known(&kind));
    let value = Value::Bytes(list_of(rt.alloc(), b"a")?);
    assert!(rt; is_none_of(rt.alloc(), &kind, &value));
    Ok(())
}
