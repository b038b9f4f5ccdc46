//! Whole numbers as the server stores them: big-endian, a signed one with its top bit flipped, so
//! that the bytes order as the numbers do (row0mysql, mach0data).

ghost use Rattle.std.specs.Prelude.{◌≡◌, ◌-◌, ◌*◌, ◌^◌, ◌≤◌, ◌≤ℤ◌, ◌↔◌, pos, length, IsTrue};
ghost use Rattle.column_values.specs.declared.kind.ColumnType.{ColumnType};
ghost use Rattle.column_values.specs.Types.{IsWidth};
ghost use Rattle.column_values.specs.Spell.{int_of, flipped_int, IsInRange, int_bytes, IsNumberOf, Finds, Encodes};

use crate::value::{Value, ValueError};
use byteorder::{BigEndian, ByteOrder};
use page_source::ByteList;
use std::alloc::Global;

/// The code of whole numbers of `W` bytes, 1 to 8: `tinyint` 1, `smallint` 2, `mediumint` 3, `int` 4, `bigint` 8.
#[derive(Clone, Copy, Debug, PartialEq, Eq)]
pub struct IntCode<const W: usize>;

impl<const W: usize> IntCode<W> {
    /// The number that the bytes spell.
    pub fn read(signed: bool, bytes: &[u8]) -> i128
        requires some { 1 ≤ W }
        requires few { W ≤ 8 }
        requires size { length bytes.now ≡ W }
        ensures value { result ≡ int_of signed W bytes.now }
        ensures flipped { IsTrue signed → result ≡ flipped_int W bytes.now }
        ensures range { IsInRange signed W result }
    {
        let number = i128::from(BigEndian::read_uint(bytes, W));
        if signed {
            number - Self::half()
        } else {
            number
        }
    }

    // What the top bit is worth.
    fn half() -> i128
        requires some { 1 ≤ W }
        requires few { W ≤ 8 }
        ensures value { result ≡ pos (2 ^ (8 * W - 1)) }
        ensures bound { result ≤ℤ pos 9223372036854775808 }
    {
        i128::from(1u64 << (8 * W - 1))
    }

    /// Whether the number is one of this width.
    pub fn holds(signed: bool, value: i128) -> bool
        requires some { 1 ≤ W }
        requires few { W ≤ 8 }
        ensures { IsTrue result ↔ IsInRange signed W value }
    {
        let half = Self::half();
        if signed {
            -half <= value && value < half
        } else {
            0 <= value && value < half + half
        }
    }

    /// Writes the bytes that spell a number of this width.
    pub fn write(signed: bool, value: i128, out: &mut [u8])
        requires some { 1 ≤ W }
        requires few { W ≤ 8 }
        requires size { length out.old ≡ W }
        requires range { IsInRange signed W value }
        ensures value { int_of signed W out.new ≡ value }
        ensures bytes { out.new ≡ int_bytes signed W value }
    {
        if signed {
            BigEndian::write_uint(out, (value + Self::half()) as u64, W);
        } else {
            BigEndian::write_uint(out, value as u64, W);
        }
    }
}

// A call at the width of an integer type.
macro_rules! at_width {
    ($width:expr, $method:ident($($argument:expr),*)) => {
        match $width {
            1 => IntCode::<1>::$method($($argument),*),
            2 => IntCode::<2>::$method($($argument),*),
            3 => IntCode::<3>::$method($($argument),*),
            4 => IntCode::<4>::$method($($argument),*),
            _ => IntCode::<8>::$method($($argument),*),
        }
    };
}

fn read(width: u8, signed: bool, bytes: &[u8]) -> i128
    requires known { IsWidth width }
    requires size { length bytes.now ≡ width }
    ensures value { result ≡ int_of signed width bytes.now }
    ensures range { IsInRange signed width result }
{
    at_width!(width, read(signed, bytes))
}

fn holds(width: u8, signed: bool, value: i128) -> bool
    requires { IsWidth width }
    ensures { IsTrue result ↔ IsInRange signed width value }
{
    at_width!(width, holds(signed, value))
}

fn write(width: u8, signed: bool, value: i128, out: &mut [u8])
    requires known { IsWidth width }
    requires size { length out.old ≡ width }
    requires range { IsInRange signed width value }
    ensures value { int_of signed width out.new ≡ value }
    ensures bytes { out.new ≡ int_bytes signed width value }
{
    at_width!(width, write(signed, value, out))
}

/// The integer that the bytes spell.
pub(crate) fn integer(width: u8, signed: bool, bytes: &[u8]) -> Option<Value>
    requires { IsWidth width }
    ensures { Finds (ColumnType.Int width signed) bytes.now result }
{
    if bytes.len() != usize::from(width) {
        return None;
    }
    let number = read(width, signed, bytes);
    if signed {
        Some(Value::Signed(number as i64))
    } else {
        Some(Value::Unsigned(number as u64))
    }
}

// The number of a value that is signed, or unsigned.
fn number_of(signed: bool, value: &Value) -> Option<i128>
    ensures { IsNumberOf signed value.now result }
{
    match *value {
        Value::Signed(number) if signed => Some(i128::from(number)),
        Value::Unsigned(number) if !signed => Some(i128::from(number)),
        _ => None,
    }
}

/// The bytes of an integer.
pub(crate) fn integer_bytes(
    alloc: Global,
    width: u8,
    signed: bool,
    value: &Value,
) -> Result<ByteList, ValueError>
    requires { IsWidth width }
    ensures { Encodes (ColumnType.Int width signed) value.now result }
{
    let Some(number) = number_of(signed, value) else {
        return Err(ValueError::BadValue);
    };
    if !holds(width, signed, number) {
        return Err(ValueError::BadValue);
    }
    let mut room = [0; 8];
    let out = &mut room[..usize::from(width)];
    write(width, signed, number, out);
    let mut list = ByteList::new(alloc);
    list.extend(out)?;
    Ok(list)
}
